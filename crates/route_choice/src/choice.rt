//! What an elementary event changes.

ghost use Rattle.std.specs.Prelude.{◌≡◌};

use fib_prefix::{Addr, Elem, Prefix};

/// The chosen hop of a prefix before and after an elementary event about it.
#[derive(Clone, Copy, Debug, PartialEq, Eq)]
pub struct Choice {
    /// The prefix.
    pub prefix: Prefix,
    /// The hop before, if there was a route for the prefix.
    pub before: Option<Addr>,
    /// The hop after, if there is one then.
    pub after: Option<Addr>,
}

/// An elementary event for which `Candidates::plan` has made room, with the choice that it will make.
#[derive(Clone, Copy, Debug, PartialEq, Eq)]
pub struct Pick {
    pub(crate) elem: Elem,
    pub(crate) choice: Choice,
}

impl Pick {
    ghost use Rattle.route_choice.specs.Held.{pick_choice};

    /// The choice that it will make.
    pub fn choice(&self) -> &Choice
        ensures { result.now ≡ pick_choice self.now }
    {
        &self.choice
    }
}
