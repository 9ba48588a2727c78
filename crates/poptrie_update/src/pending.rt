//! The token of an update that is ready, and why one isn't made ready.

ghost use Rattle.std.specs.Prelude.{◌≡◌, Bool};
ghost use Rattle.poptrie_update.specs.Pendings.{selects};

use poptrie_build::TrieFull;
use poptrie_set::Pending as Words;
use thiserror::Error;

/// What a pending update stores.
pub(crate) enum Stores {
    /// Direct words of the selected set.
    Words(Words),
    /// The selector.
    Selector {
        /// Whether it was stored.
        stored: bool,
    },
}

/// An update that is ready: the token for its stores, which `Live::end` or `Live::cancel` spends.
pub struct Pending {
    pub(crate) stores: Stores,
}

impl Pending {
    /// Whether the update stores the selector: one store that changes every address's version.
    pub fn is_selector(&self) -> bool
        ensures { result ≡ selects self.now }
    {
        match self.stores {
            Stores::Words(_) => false,
            Stores::Selector { stored } => true,
        }
    }
}

/// Why an update isn't made ready.
#[derive(Clone, Copy, Debug, PartialEq, Eq, Error)]
pub enum NotReady {
    /// Out of memory for the lists of stores and blocks.
    #[error("no memory")]
    Memory,
    /// The new table's trie needs more places than an arena has.
    #[error("the table needs more places than there are")]
    TooMuch(TrieFull),
    /// It would fit, but not beside what is in use, and an open lookup may be in the other set.
    #[error("lookup {cursor} holds the set that arena {arena} would need {need} places of")]
    Pinned {
        /// How many places the first block needs that no free block is large enough for.
        need: u64,
        /// The lookup that started first: before the end at which the other set was retired.
        cursor: u8,
        /// That block's arena: 0 is the nodes', 1 the leaves'.
        arena: u8,
        /// The order of the largest block that is free in it then, if one is.
        largest: Option<u8>,
    },
}
