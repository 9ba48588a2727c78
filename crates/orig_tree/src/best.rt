//! What nodes keep of their regions, by places: the best hops, and what the region costs under one of them.

ghost use Rattle.std.specs.Prelude.{◌≡◌, ◌≢◌, ◌+◌, ◌≤◌, ℕ, suc, List, Bool, true, false, cond, IfOk, [], ◌∷◌, length, vec_len, vec_capacity};
ghost use Rattle.table_model.specs.Bits.{bits_of};
ghost use Rattle.table_model.specs.Table.{lpm};
ghost use Rattle.table_model.specs.Sets.{side};
ghost use Rattle.orig_tree.specs.Edits.{edit, put};
ghost use Rattle.orig_tree.specs.Arena.{cells_of};
ghost use Rattle.orig_tree.specs.Bests.{IsRegionBest, best_one, best_in, best_behind, changed, back};

use crate::node::{Nodes, best_at, exchange};
use fib_addr::HopSet;
use std::alloc::{AllocError, Global};

/// What a node keeps of its region: the hops under which a least table of the region costs least, and that cost, in entries;
/// under any other hop it is one more.
#[derive(Drop)]
pub struct Best {
    /// The best hops.
    pub hops: HopSet,
    /// What the region costs under one of them.
    pub k: u64,
}

/// What a place is to keep.
#[derive(Drop)]
pub(crate) struct Change {
    pub(crate) place: usize,
    pub(crate) best: Best,
}

/// What places are to keep when a route changes, each change after those before it, and the allocator that gives more.
#[derive(Drop)]
pub(crate) struct Plan {
    pub(crate) alloc: Global,
    /// The hop that the route is to have, or none if it is taken away.
    pub(crate) set: Option<u16>,
    pub(crate) changes: Vec<Change>,
    /// What the last region looked at is to keep, if that is another than it kept.
    pub(crate) near: Best,
}

/// The sum, or out of memory if it passes 64 bits. No cost does: it is below the number of the region's addresses.
fn sum(a: u64, b: u64) -> Result<u64, AllocError>
    ensures { IfOk result (λ n. n ≡ a + b) }
{
    a.checked_add(b).ok_or(AllocError)
}

/// The cost of two halves, which is one more if no hop is best for both.
fn joint_k(low: u64, high: u64, apart: bool) -> Result<u64, AllocError>
    ensures { IfOk result (λ k. k ≡ low + high + cond apart 1 0) }
{
    let k = sum(low, high)?;
    if apart { sum(k, 1) } else { Ok(k) }
}

impl Best {
    /// What a region keeps whose addresses all get one hop.
    pub(crate) fn one(hop: u16) -> Best
        ensures { result ≡ best_one hop }
    {
        Best {
            hops: HopSet::one(hop),
            k: 0,
        }
    }

    /// What a region keeps, from what its halves keep.
    pub(crate) fn joined(alloc: Global, low: &Best, high: &Best) -> Result<Best, AllocError>
        ensures { IfOk result (λ x. (d : ℕ) (f : List Bool → ℕ) → IsRegionBest d (side false f) low.now
            → IsRegionBest d (side true f) high.now → IsRegionBest (suc d) f x) }
    {
        let joint = HopSet::joint(alloc, &low.hops, &high.hops)?;
        let k = joint_k(low.k, high.k, joint.apart)?;
        Ok(Best { hops: joint.set, k })
    }

    /// Whether two regions keep the same.
    pub(crate) fn is_same(&self, other: &Best) -> bool
        ensures { result ≡ true → self.now ≡ other.now }
    {
        self.k == other.k && self.hops.is_same(&other.hops)
    }

    /// The same once more.
    pub(crate) fn copied(&self, alloc: Global) -> Result<Best, AllocError>
        ensures { IfOk result (λ x. x ≡ self.now) }
    {
        Ok(Best {
            hops: self.hops.copied(alloc)?,
            k: self.k,
        })
    }
}

/// What a region keeps that inherits a hop and has no route, but that of a path of `left` bits below it, if it is given.
pub(crate) fn fresh(left: u8, inherited: u16, set: Option<u16>) -> Best
    ensures { (d q : ℕ) → left ≤ d → IsRegionBest d (λ a. lpm (edit (bits_of left q) set []) a inherited)
        result }
{
    match set {
        None => Best::one(inherited),
        Some(hop) => {
            if hop == inherited {
                return Best::one(inherited);
            }
            beside(left, inherited, hop)
        }
    }
}

/// The same, if the route is given and has another hop.
fn beside(left: u8, inherited: u16, hop: u16) -> Best
    requires { hop ≢ inherited }
    ensures { (d q : ℕ) → left ≤ d → IsRegionBest d (λ a. lpm (put (bits_of left q) hop []) a inherited)
        result }
{
    if left == 0 {
        return Best::one(hop);
    }
    let hops = if left == 1 {
        HopSet::two(inherited, hop)
    } else {
        HopSet::one(inherited)
    };
    Best { hops, k: 1 }
}

/// What a half keeps; if it is no node, what a region keeps whose addresses all get the hop.
pub(crate) fn half_keeps<'a>(
    nodes: &'a Nodes,
    half: Option<usize>,
    none: &'a Best,
    bare: &'a Best,
) -> &'a Best
    requires { none.now ≡ best_one 0 }
    ensures { result.now ≡ best_behind (best_in nodes.now) half bare.now }
{
    match half {
        Some(j) => best_at(nodes, j, none),
        None => bare,
    }
}

/// What a node's region keeps, from what its halves keep.
pub(crate) fn join_kept(
    alloc: Global,
    nodes: &Nodes,
    low: Option<usize>,
    high: Option<usize>,
    hop: u16,
) -> Result<Best, AllocError>
    ensures { IfOk result (λ x. (d : ℕ) (f : List Bool → ℕ)
        → IsRegionBest d (side false f) (best_behind (best_in nodes.now) low (best_one hop))
        → IsRegionBest d (side true f) (best_behind (best_in nodes.now) high (best_one hop))
        → IsRegionBest (suc d) f x) }
{
    let none = Best::one(0);
    let bare = Best::one(hop);
    let low = half_keeps(nodes, low, &none, &bare);
    let high = half_keeps(nodes, high, &none, &bare);
    Best::joined(alloc, low, high)
}

/// No changes yet, for a route that is taken away, with room for those on a way of `depth` bits. The list's own room is used again.
pub(crate) fn no_changes(
    alloc: Global,
    mut spare: Vec<Change>,
    depth: u8,
) -> Result<Plan, AllocError>
    ensures { IfOk result (λ x. x.changes.items ≡ []) }
{
    spare.clear();
    spare.reserve(depth as usize + 1)?;
    Ok(Plan {
        alloc,
        set: None,
        changes: spare,
        near: Best::one(0),
    })
}

/// Makes the changes, each in its turn. What the places kept is left in their stead.
pub(crate) fn commit(nodes: &mut Nodes, changes: &mut Vec<Change>)
    ensures kept { (j : ℕ) → j ≤ vec_len nodes.old.halves
        → best_in nodes.new j ≡ changed changes.old.items (best_in nodes.old) j }
    ensures back { (j : ℕ) → j ≤ vec_len nodes.old.halves
        → back changes.new.items (best_in nodes.new) j ≡ best_in nodes.old j }
    ensures cells { cells_of nodes.new ≡ cells_of nodes.old }
    ensures free { nodes.new.free ≡ nodes.old.free }
    ensures capacity { vec_capacity nodes.new.halves ≡ vec_capacity nodes.old.halves }
    ensures len { vec_len nodes.new.halves ≡ vec_len nodes.old.halves }
{
    for change in changes.iter_mut() {
        exchange(nodes, change.place, &mut change.best);
    }
}

/// Takes changes back, the last first, and returns the room that they took. It takes no memory.
pub(crate) fn revert(nodes: &mut Nodes, mut changes: Vec<Change>) -> Vec<Change>
    ensures kept { (j : ℕ) → j ≤ vec_len nodes.old.halves
        → best_in nodes.new j ≡ back changes.items (best_in nodes.old) j }
    ensures cells { cells_of nodes.new ≡ cells_of nodes.old }
    ensures free { nodes.new.free ≡ nodes.old.free }
    ensures len { vec_len nodes.new.halves ≡ vec_len nodes.old.halves }
{
    while let Some(mut last) = changes.pop() {
        exchange(nodes, last.place, &mut last.best);
    }
    changes
}
