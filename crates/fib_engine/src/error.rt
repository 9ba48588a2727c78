//! Why an engine didn't take an event.

ghost use Rattle.std.specs.Prelude.{◌≡◌};
ghost use Rattle.fib_engine.specs.declared.error.EngineError.TheVariants.{HopsFull as IsHopsFull, TrieFull as IsTrieFull, NoMemory as IsNoMemory};

use fib_prefix::HopsFull;
use route_tries::TrieFull;
use std::alloc::AllocError;
use thiserror::Error;

/// Why an event wasn't taken.
#[derive(Clone, Copy, Debug, PartialEq, Eq, Error)]
pub enum EngineError {
    /// It brings one different next hop too many.
    #[error("more than 65534 different next hops")]
    HopsFull,
    /// Tries of the routes after it would need more places than an arena has.
    #[error("{0}")]
    TrieFull(TrieFull),
    /// Memory ran out.
    #[error("no memory")]
    NoMemory,
}

impl From<HopsFull> for EngineError {
    ghost from_gives = { λ _ e. e ≡ IsHopsFull };

    fn from(_e: HopsFull) -> EngineError {
        EngineError::HopsFull
    }
}

impl From<TrieFull> for EngineError {
    ghost from_gives = { λ t e. e ≡ IsTrieFull t };

    fn from(t: TrieFull) -> EngineError {
        EngineError::TrieFull(t)
    }
}

impl From<AllocError> for EngineError {
    ghost from_gives = { λ _ e. e ≡ IsNoMemory };

    fn from(_e: AllocError) -> EngineError {
        EngineError::NoMemory
    }
}
