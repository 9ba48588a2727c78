//! What is needed on the way to a path from the deepest node on that lasts.
//!
//! A node lasts if two addresses of its region that don't begin with the path get different hops: it then stands before any
//! change within the path and after it. So the nodes above it keep their slots' kinds, and what they need beside the way; only
//! from that node on is anything to be counted.

ghost use Rattle.std.specs.Prelude.{◌≡◌, ℕ, ◌+◌, ◌-◌, ◌*◌, ◌<◌, ◌≤◌, None, take};
ghost use Rattle.table_model.specs.Bits.{bits_of};
ghost use Rattle.fib_addr.specs.Answers.{one_answer, part};
ghost use Rattle.poptrie_build.specs.Need.{need_in_u64};
ghost use Rattle.poptrie_build.specs.Strides.{mixed};
ghost use Rattle.route_tries.specs.Parts.{answer_beside, other_than, lasts, deep_nodes, deep_leaves};

use crate::way::count_way;
use fib_addr::{Hop, Region, bit_at};
use poptrie_build::Needs;

/// Whether an address beside the way to a path gets another hop than this. The path is the lowest `left` bits of `q`. It costs the
/// path's length, and asks about the half beside the way at each bit.
fn another<R: Region>(region: &R, q: u128, left: u8, hop: Hop) -> bool
    requires few { left ≤ 128 }
    requires within { left ≤ R.bits region.now }
    ensures { result ≡ other_than hop.0 (answer_beside (R.bits region.now) (R.answers region.now)
        (bits_of left q)) }
{
    if left == 0 {
        return false;
    }
    let rest = left - 1;
    let bit = bit_at(q, rest);
    let beside = region.half(!bit);
    match beside.only() {
        None => true,
        Some(other) => {
            if other.0 != hop.0 {
                return true;
            }
            another(&region.half(bit), q, rest, hop)
        }
    }
}

/// Whether two addresses beside the way to a path get different hops, so that the region's node lasts whatever changes within the path.
/// It costs the path's length at most.
fn is_lasting<R: Region>(region: &R, q: u128, left: u8) -> bool
    requires few { left ≤ 128 }
    requires within { left ≤ R.bits region.now }
    ensures { result ≡ lasts (R.bits region.now) (R.answers region.now) (bits_of left q) }
{
    if left == 0 {
        return false;
    }
    let rest = left - 1;
    let bit = bit_at(q, rest);
    let beside = region.half(!bit);
    match beside.only() {
        None => true,
        Some(hop) => another(&region.half(bit), q, rest, hop),
    }
}

/// The part of a region on the way to a path, `depth` bits on.
fn along<R: Region>(region: &R, depth: u8, q: u128, left: u8) -> R
    requires some { 0 < depth }
    requires path { depth ≤ left }
    requires few { left ≤ 128 }
    requires within { left ≤ R.bits region.now }
    ensures bits { R.bits result + depth ≡ R.bits region.now }
    ensures answers { R.answers result ≡ part (take depth (bits_of left q)) (R.answers region.now) }
{
    let end = left - depth;
    let mut at = left - 1;
    let mut part = region.half(bit_at(q, at));
    while at > end {
        at -= 1;
        part = part.half(bit_at(q, at));
    }
    part
}

/// `count_way` from the deepest node on that lasts on the way to a path, or else from the region's own.
fn count_deep<R: Region>(region: &R, q: u128, left: u8) -> Needs
    requires mixed { one_answer (R.bits region.now) (R.answers region.now) ≡ None }
    requires few { left ≤ 128 }
    requires within { left ≤ R.bits region.now }
    ensures nodes { (k : ℕ) → R.bits region.now ≤ 6 * k
        → result.nodes ≡ need_in_u64 (deep_nodes k (R.bits region.now) (R.answers region.now)
        (bits_of left q)) }
    ensures leaves { (k : ℕ) → R.bits region.now ≤ 6 * k
        → result.leaves ≡ need_in_u64 (deep_leaves k (R.bits region.now) (R.answers region.now)
        (bits_of left q)) }
{
    if left <= 6 {
        return count_way(region, q, left);
    }
    let next = along(region, 6, q, left);
    if is_lasting(&next, q, left - 6) {
        return count_deep(&next, q, left - 6);
    }
    count_way(region, q, left)
}

/// What the region of a direct slot needs on the way to a path and within it: nothing if it has one answer, else the place of its
/// node, and what is needed from the deepest node on that lasts.
pub(crate) fn count_slot<R: Region>(region: &R, q: u128, left: u8) -> Needs
    requires few { left ≤ 128 }
    requires within { left ≤ R.bits region.now }
    ensures nodes { (k : ℕ) → R.bits region.now ≤ 6 * k
        → result.nodes ≡ need_in_u64 (mixed (one_answer (R.bits region.now) (R.answers region.now))
        + deep_nodes k (R.bits region.now) (R.answers region.now) (bits_of left q)) }
    ensures leaves { (k : ℕ) → R.bits region.now ≤ 6 * k
        → result.leaves ≡ need_in_u64 (deep_leaves k (R.bits region.now) (R.answers region.now)
        (bits_of left q)) }
{
    match region.only() {
        Some(_hop) => Needs {
            nodes: 0,
            leaves: 0,
        },
        None => {
            let below = count_deep(region, q, left);
            Needs {
                nodes: below.nodes.saturating_add(1),
                leaves: below.leaves,
            }
        }
    }
}
