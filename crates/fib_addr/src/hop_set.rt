//! The set.

ghost use Rattle.std.specs.Prelude.{◌≡◌, ◌↔◌, [], ◌∷◌, IfOk, IsTrue, Option};
ghost use Rattle.table_model.specs.Sets.{common, joint, is_in, smallest, own};
ghost use Rattle.fib_addr.specs.HopSets.{Ascending, SameHops};
ghost use Rattle.fib_addr.specs.Forms.{listed};

use crate::merge::joint_hops;
use std::alloc::{AllocError, Global};
use std::marker::Model;
use std::slice;

/// A set's hops, the least first.
#[derive(Drop)]
pub(crate) enum Hops {
    One(u16),
    Two([u16; 2]),
    Three([u16; 3]),
    More(Box<Vec<u16>>),
}

/// A set of hops, in 16 octets; up to three hops take no allocation. Contracts see a list that has its members.
#[derive(Drop)]
pub struct HopSet {
    hops: Hops,
}

impl Model for HopSet {
    ghost use Rattle.std.specs.Prelude.{ℕ, List};
    ghost use Rattle.fib_addr.specs.HopSets.{Ascending};
    ghost use Rattle.fib_addr.specs.Forms.{listed};

    ghost Value = { List ℕ };

    ghost view = { λ s. listed s.hops };

    ghost invariant = { λ s. Ascending (listed s.hops) };
}

/// Two sets put together.
#[derive(Drop)]
pub struct Joint {
    /// The hops that both have or, if there are none, the hops of either.
    pub set: HopSet,
    /// Whether they have no hop in common.
    pub apart: bool,
}

/// Sorted hops as they are kept.
fn pack(alloc: Global, hops: &[u16]) -> Result<Hops, AllocError>
    ensures { IfOk result (λ h. listed h ≡ hops.now) }
{
    Ok(match hops {
        [a] => Hops::One(*a),
        [a, b] => Hops::Two([*a, *b]),
        [a, b, c] => Hops::Three([*a, *b, *c]),
        _ => {
            let list = Vec::from_slice(alloc, hops)?;
            Hops::More(Box::new(alloc, list)?)
        }
    })
}

/// Two hops, or one, as they are kept.
fn pair(a: u16, b: u16) -> Hops
    ensures order { Ascending (listed result) }
    ensures hops { SameHops (listed result) (a ∷ b ∷ []) }
{
    if a < b {
        Hops::Two([a, b])
    } else if b < a {
        Hops::Two([b, a])
    } else {
        Hops::One(a)
    }
}

/// Two sets of one hop each, put together.
fn join_ones(a: u16, b: u16) -> Joint
    ensures hops { SameHops result.set (joint (a ∷ []) (b ∷ [])) }
    ensures apart { IsTrue result.apart ↔ (common (a ∷ []) (b ∷ []) ≡ []) }
{
    if a == b {
        return Joint {
            set: HopSet::one(a),
            apart: false,
        };
    }
    Joint {
        set: HopSet::two(a, b),
        apart: true,
    }
}

/// The hops that are kept, the least first.
fn listed(hops: &Hops) -> &[u16]
    ensures { result.now ≡ listed hops.now }
{
    match hops {
        Hops::One(a) => slice::from_ref(a),
        Hops::Two(a) => a.as_slice(),
        Hops::Three(a) => a.as_slice(),
        Hops::More(a) => a.as_slice(),
    }
}

impl HopSet {
    /// The set of one hop.
    pub fn one(hop: u16) -> HopSet
        ensures { result ≡ hop ∷ [] }
    {
        HopSet {
            hops: Hops::One(hop),
        }
    }

    /// The set of two hops, which may be one.
    pub fn two(a: u16, b: u16) -> HopSet
        ensures { SameHops result (a ∷ b ∷ []) }
    {
        HopSet { hops: pair(a, b) }
    }

    /// Two sets put together.
    ///
    /// # Errors
    ///
    /// Out of memory.
    pub fn joint(alloc: Global, low: &HopSet, high: &HopSet) -> Result<Joint, AllocError>
        ensures hops { IfOk result (λ j. SameHops j.set (joint low.now high.now)) }
        ensures apart { IfOk result (λ j. IsTrue j.apart ↔ (common low.now high.now ≡ [])) }
    {
        if let (Hops::One(a), Hops::One(b)) = (&low.hops, &high.hops) {
            return Ok(join_ones(*a, *b));
        }
        let (row, apart) = joint_hops(alloc, low.as_slice(), high.as_slice())?;
        let hops = pack(alloc, row.as_slice())?;
        Ok(Joint {
            set: HopSet { hops },
            apart,
        })
    }

    /// The same set once more.
    ///
    /// # Errors
    ///
    /// Out of memory.
    pub fn copied(&self, alloc: Global) -> Result<HopSet, AllocError>
        ensures { IfOk result (λ s. s ≡ self.now) }
    {
        let hops = match &self.hops {
            Hops::One(a) => Hops::One(*a),
            Hops::Two(a) => Hops::Two(*a),
            Hops::Three(a) => Hops::Three(*a),
            Hops::More(a) => pack(alloc, a.as_slice())?,
        };
        Ok(HopSet { hops })
    }

    fn as_slice(&self) -> &[u16]
        ensures value { result.now ≡ self.now }
        ensures order { Ascending self.now }
    {
        listed(&self.hops)
    }

    /// Whether the two sets are one.
    pub fn is_same(&self, other: &HopSet) -> bool
        ensures { IsTrue result ↔ (self.now ≡ other.now) }
    {
        self.as_slice() == other.as_slice()
    }

    /// Whether the hop is in the set.
    pub fn contains(&self, hop: u16) -> bool
        ensures { result ≡ is_in hop self.now }
    {
        self.as_slice().contains(&hop)
    }

    /// The least hop, 0 in the empty set.
    pub fn least(&self) -> u16
        ensures { result ≡ smallest self.now }
    {
        match self.as_slice().first() {
            Some(hop) => *hop,
            None => 0,
        }
    }

    /// The hop of the entry of a region with this set, if it gets one: none if what it inherits is in the set, else the old
    /// entry's hop if that is in the set, else the least.
    pub fn own(&self, old: Option<u16>, inherited: u16) -> Option<u16>
        ensures { result ≡ own self.now old inherited }
    {
        if self.contains(inherited) {
            return None;
        }
        match old {
            Some(hop) if self.contains(hop) => Some(hop),
            _ => Some(self.least()),
        }
    }
}
