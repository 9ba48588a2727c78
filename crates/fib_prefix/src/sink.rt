//! Who takes candidates.

ghost use Rattle.std.specs.Prelude.{◌≡◌, ◌++◌, List, [], ◌∷◌, OnOk};
ghost use Rattle.fib_prefix.specs.declared.event.Cand.{Cand as CodeCand};
ghost use Rattle.fib_prefix.specs.Taken.{more_cands, no_cands};

use crate::Cand;
use std::alloc::AllocError;

/// Takes candidates one by one, as a list or a checkpoint does.
///
/// `ready` is that it can take a candidate, and `takes` what it is once it took these candidates, in their order.
pub trait CandSink {
    ghost ready: { Self → Type 0 };

    ghost takes: { Self → List CodeCand → Self → Type 0 };

    /// Takes a candidate, after those that it took.
    ///
    /// # Errors
    ///
    /// Out of memory; then nothing is said of what it holds.
    fn put(&mut self, cand: &Cand) -> Result<(), AllocError>
        requires { ready self.old }
        ensures ready { OnOk result (ready self.new) }
        ensures takes { OnOk result (takes self.old (cand.now ∷ []) self.new) };

    ghost none: { (a : Self) → ready a → takes a [] a };

    ghost more: { (a b c : Self) (cands more : List CodeCand) → takes a cands b → takes b more c
        → takes a (cands ++ more) c };
}

impl CandSink for Vec<Cand> {
    ghost ready = { λ _. Unit {0} };

    ghost takes = { λ v cands w. w.items ≡ v.items ++ cands };

    ghost none = { λ a ready. no_cands a.items };

    ghost more = { λ a b c cands more first next. more_cands a.items b.items c.items cands more first
        next };

    fn put(&mut self, cand: &Cand) -> Result<(), AllocError> {
        self.push(*cand)?;
        Ok(())
    }
}
