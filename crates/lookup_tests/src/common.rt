//! A table of one route, which tries are built from.

ghost use Rattle.std.specs.Prelude.{◌∷◌, []};
ghost use Rattle.fib_addr.specs.Views.{prefix_as};
ghost use Rattle.table_model.proofs.Once.{once_in_order};

use fib_addr::{Answers, Family, Hop, Prefix};

/// A table of one route.
#[derive(Clone, Copy)]
pub struct OneRoute {
    /// Its prefix.
    pub prefix: Prefix,
    /// Its hop.
    pub hop: Hop,
}

impl Answers for OneRoute {
    ghost entries = { λ t. (prefix_as t.prefix, t.hop.0) ∷ [] };

    ghost of = { λ t. t.prefix.family };

    ghost distinct = { λ t. once_in_order ((prefix_as t.prefix, t.hop.0) ∷ []) };

    fn family(&self) -> Family {
        self.prefix.family
    }

    fn uniform(&self, prefix: &Prefix) -> Option<Hop> {
        if prefix.is_within(&self.prefix) {
            return Some(self.hop);
        }
        if !self.prefix.is_within(prefix) {
            return Some(Hop::NONE);
        }
        if self.hop.0 == 0 {
            return Some(Hop::NONE);
        }
        None
    }
}
