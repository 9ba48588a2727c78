//! What a plan lists and keeps.

ghost use Rattle.std.specs.Prelude.{◌≡◌, [], false, None};
ghost use Rattle.smalta_keep.specs.Views.{moved_of};

use crate::routes::Former;
use fib_addr::Prefix;
use fib_delta::Change;
use std::alloc::Global;

/// The changes of a repair, and those of the snapshot after it; each in the order of prefixes.
#[derive(Debug, Drop)]
pub struct Moved {
    /// The changes of the repair.
    pub repair: Vec<Change>,
    /// The changes of the snapshot.
    pub snapshot: Vec<Change>,
}

/// A repair that is planned: it is to be committed or undone.
#[derive(Debug, Drop)]
pub struct Repair {
    pub(crate) former: Option<Former>,
    /// Whether the prefix of that route has none from now on.
    pub(crate) cleared: bool,
    /// The prefix that all changes of the repair are within, if there is one.
    pub(crate) reach: Option<Prefix>,
    /// Whether a snapshot is due.
    pub(crate) due: bool,
    /// Whether the changes of the repair are to be the fewest.
    pub(crate) fewest: bool,
    pub(crate) moved: Moved,
}

impl Repair {
    /// A plan that changes nothing.
    pub(crate) fn nothing(alloc: Global, fewest: bool) -> Repair
        ensures former { result.former ≡ None }
        ensures reach { result.reach ≡ None }
        ensures due { result.due ≡ false }
        ensures repair { result.moved.repair.items ≡ [] }
        ensures snapshot { result.moved.snapshot.items ≡ [] }
    {
        Repair {
            former: None,
            cleared: false,
            reach: None,
            due: false,
            fewest,
            moved: Moved {
                repair: Vec::new(alloc),
                snapshot: Vec::new(alloc),
            },
        }
    }

    /// The changes that it will make.
    pub fn moved(&self) -> &Moved
        ensures { result.now ≡ moved_of self.now }
    {
        &self.moved
    }
}
