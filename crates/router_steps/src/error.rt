//! Why a run ends early.

ghost use Rattle.std.specs.Prelude.{◌≡◌};

use fib_addr::Family;
use poptrie_build::TrieFull;
use std::alloc::{AllocError, AllocFailed};
use thiserror::Error;

/// Why a run in steps ends before its script does.
#[derive(Clone, Copy, Debug, PartialEq, Eq, Error)]
pub enum StepError {
    /// The event of this number, counted from 1, brings one different hop too many.
    #[error("event {0} brings one different hop too many")]
    HopsFull(u64),
    /// Tries of this family's routes after the event of this number need more places than an arena has.
    #[error("{1:?} after event {0}: {2}")]
    TrieFull(u64, Family, TrieFull),
    /// Memory ran out.
    #[error("no memory")]
    NoMemory,
}

impl From<AllocError> for StepError {
    ghost use Rattle.router_steps.specs.declared.error.StepError.TheVariants as error;

    ghost from_gives = { λ _ e. e ≡ error.NoMemory };

    fn from(_e: AllocError) -> StepError {
        StepError::NoMemory
    }
}

impl<T: Drop> From<AllocFailed<T>> for StepError {
    ghost use Rattle.router_steps.specs.declared.error.StepError.TheVariants as error;

    ghost from_gives = { λ _ e. e ≡ error.NoMemory };

    fn from(_e: AllocFailed<T>) -> StepError {
        StepError::NoMemory
    }
}
