//! Why something couldn't be read.

ghost use Rattle.std.specs.Prelude.{◌≡◌};
ghost use Rattle.bgp_attrs.specs.declared.refusal.Refusal.TheVariants.{NoMemory, Rule as Broken};

use std::alloc::{AllocError, AllocFailed};
use thiserror::Error;
use wire_model::Rule;

/// What a reader answers that takes memory.
#[derive(Clone, Copy, Debug, PartialEq, Eq, Error)]
pub enum Refusal {
    /// Memory ran out.
    #[error("no memory")]
    NoMemory,
    /// The octets break this rule.
    #[error("rule {0:?} of reading is broken")]
    Rule(Rule),
}

impl From<Rule> for Refusal {
    ghost from_gives = { λ rule e. e ≡ Broken rule };

    fn from(rule: Rule) -> Refusal {
        Refusal::Rule(rule)
    }
}

impl From<AllocError> for Refusal {
    ghost from_gives = { λ _ e. e ≡ NoMemory };

    fn from(_e: AllocError) -> Refusal {
        Refusal::NoMemory
    }
}

impl<T: Drop> From<AllocFailed<T>> for Refusal {
    ghost from_gives = { λ _ e. e ≡ NoMemory };

    fn from(_e: AllocFailed<T>) -> Refusal {
        Refusal::NoMemory
    }
}
