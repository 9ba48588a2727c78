//! Why an event isn't begun.

ghost use Rattle.std.specs.Prelude.{◌≡◌};
ghost use Rattle.fib_router.specs.Errors.{as_not_begun};

use fib_engine::{EngineError, TrieFull};
use thiserror::Error;

/// Why an event isn't begun.
#[derive(Clone, Copy, Debug, PartialEq, Eq, Error)]
pub enum NotBegun {
    /// It brings one different next hop too many.
    #[error("more than 65534 different next hops")]
    HopsFull,
    /// Tries of the routes after it would need more places than an arena has.
    #[error("{0}")]
    TrieFull(TrieFull),
    /// Its trie would fit, but not beside what is in use, and an open lookup may be in the other set.
    #[error("lookup {cursor} holds the set that arena {arena} would need {need} places of")]
    Pinned {
        /// How many places the first block needs that no free block is large enough for.
        need: u64,
        /// The lookup that started first: before the end at which the other set was retired.
        cursor: u8,
        /// That block's arena: 0 is the nodes', 1 the leaves'.
        arena: u8,
        /// The order of the largest block that is free in it then, if one is.
        largest: Option<u8>,
    },
    /// Memory ran out.
    #[error("no memory")]
    NoMemory,
}

impl From<EngineError> for NotBegun {
    ghost from_gives = { λ e n. n ≡ as_not_begun e };

    fn from(e: EngineError) -> NotBegun {
        match e {
            EngineError::HopsFull => NotBegun::HopsFull,
            EngineError::TrieFull(full) => NotBegun::TrieFull(full),
            EngineError::NoMemory => NotBegun::NoMemory,
        }
    }
}
