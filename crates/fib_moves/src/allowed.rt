//! Any hop, or a set of hops.

ghost use Rattle.std.specs.Prelude.{◌≡◌, cond, IfOk};
ghost use Rattle.moves_model.specs.Sets.{is_allowed, least_allowed, allowed_by_both, gap, these};
ghost use Rattle.fib_moves.specs.Views.{allowed_as, SameAllowed};

use fib_addr::HopSet;
use std::alloc::{AllocError, Global};

/// The hops that a region may inherit at no further change.
#[derive(Drop)]
pub enum AllowedHops {
    /// Any hop: the region's own entry counts there.
    Any,
    /// One of these.
    These(HopSet),
}

/// What two halves of a region allow together.
#[derive(Drop)]
pub struct JointAllowed {
    /// The hops that both allow or, if there are none, those that either does.
    pub hops: AllowedHops,
    /// Whether no hop is allowed by both.
    pub apart: bool,
}

fn joint_sets(alloc: Global, low: &HopSet, high: &HopSet) -> Result<JointAllowed, AllocError>
    ensures hops { IfOk result (λ r. SameAllowed (allowed_as r.hops)
        (allowed_by_both (these low.now) (these high.now))) }
    ensures apart { IfOk result (λ r. cond r.apart 1 0 ≡ gap (these low.now) (these high.now)) }
{
    let joint = HopSet::joint(alloc, low, high)?;
    Ok(JointAllowed {
        hops: AllowedHops::These(joint.set),
        apart: joint.apart,
    })
}

impl AllowedHops {
    /// Whether the hop is allowed.
    pub fn contains(&self, hop: u16) -> bool
        ensures { result ≡ is_allowed hop (allowed_as self.now) }
    {
        match self {
            AllowedHops::Any => true,
            AllowedHops::These(set) => set.contains(hop),
        }
    }

    /// The least hop of those that are allowed, 0 if any is.
    pub fn least(&self) -> u16
        ensures { result ≡ least_allowed (allowed_as self.now) }
    {
        match self {
            AllowedHops::Any => 0,
            AllowedHops::These(set) => set.least(),
        }
    }

    /// The same hops once more.
    ///
    /// # Errors
    ///
    /// Out of memory.
    pub fn copied(&self, alloc: Global) -> Result<AllowedHops, AllocError>
        ensures { IfOk result (λ w. allowed_as w ≡ allowed_as self.now) }
    {
        match self {
            AllowedHops::Any => Ok(AllowedHops::Any),
            AllowedHops::These(set) => {
                let set = set.copied(alloc)?;
                Ok(AllowedHops::These(set))
            }
        }
    }

    /// What two halves allow together: any hop with others gives the others.
    ///
    /// # Errors
    ///
    /// Out of memory.
    pub fn joint(
        alloc: Global,
        low: AllowedHops,
        high: AllowedHops,
    ) -> Result<JointAllowed, AllocError>
        ensures hops { IfOk result (λ r. SameAllowed (allowed_as r.hops)
            (allowed_by_both (allowed_as low) (allowed_as high))) }
        ensures apart { IfOk result (λ r. cond r.apart 1 0 ≡ gap (allowed_as low) (allowed_as high)) }
    {
        match (low, high) {
            (AllowedHops::These(low), AllowedHops::These(high)) => joint_sets(alloc, &low, &high),
            (AllowedHops::Any, hops) | (hops, AllowedHops::Any) => {
                Ok(JointAllowed { hops, apart: false })
            }
        }
    }
}
