//! The slots of a region with two answers, gone through once by halves: the vectors of its node, and the hops of its leaves.

ghost use Rattle.std.specs.Prelude.{◌≡◌, ℕ, ◌+◌, ◌-◌, ◌^◌, ◌<◌, ◌≤◌, List, Bool, Option, Some, None, length, slice_index_or};
ghost use Rattle.fib_addr.specs.Answers.{one_answer};
ghost use Rattle.poptrie_build.specs.Bits.{rank_of};
ghost use Rattle.poptrie_build.specs.Need.{children, runs};
ghost use Rattle.poptrie_build.specs.Stands.{IsCanonical};
ghost use Rattle.poptrie_build.specs.Strides.{slots};
ghost use Rattle.poptrie_build.specs.Surveyed.{IsSurveyed};
ghost use Rattle.poptrie_build.specs.Tally.{AreParts};

use crate::making::{Partial, Vectors};
use fib_addr::Region;

/// The slots of a node so far: their vectors, and how many leaves they have.
#[derive(Clone, Copy)]
pub(crate) struct Survey {
    pub(crate) vectors: Partial,
    pub(crate) leaves: u8,
}

/// Adds the slots from this one on, one at least, that are all leaves of this hop.
fn add_leaves(survey: &mut Survey, hops: &mut [u16], slot: u8, hop: u16)
    requires slot { slot < 64 }
    requires many { length hops.old ≡ 64 }
    requires few { survey.old.leaves ≤ slot }
    ensures leaves { (g : ℕ → Option ℕ) (n : ℕ) → 0 < n → slot + n ≤ 64
        → ((u : ℕ) → u < n → g (slot + u) ≡ Some hop) → IsSurveyed survey.old hops.old g slot
        → IsSurveyed survey.new hops.new g (slot + n) }
    ensures few { survey.new.leaves ≤ survey.old.leaves + 1 }
{
    let Partial {
        vector,
        leafvec,
        last,
    } = survey.vectors;
    if last == Some(hop) {
        return;
    }
    hops[usize::from(survey.leaves)] = hop;
    survey.leaves += 1;
    survey.vectors = Partial {
        vector,
        leafvec: leafvec | 1 << slot,
        last: Some(hop),
    };
}

/// Adds one more slot that has a node.
fn add_node(survey: &mut Survey, slot: u8)
    requires { slot < 64 }
    ensures node { (g : ℕ → Option ℕ) (hops : List ℕ) → g slot ≡ None
        → IsSurveyed survey.old hops g slot → IsSurveyed survey.new hops g (slot + 1) }
    ensures few { survey.new.leaves ≡ survey.old.leaves }
{
    let Partial {
        vector,
        leafvec,
        last,
    } = survey.vectors;
    survey.vectors = Partial {
        vector: vector | 1 << slot,
        leafvec,
        last,
    };
}

/// Adds the slots of a part of a node's region with two answers, from this slot on, which `depth` more bits tell apart: those of
/// its halves.
#[cycle(add_halves)]
fn add_halves<R: Region>(region: &R, depth: u8, slot: u8, survey: &mut Survey, hops: &mut [u16])
    requires mixed { one_answer (R.bits region.now) (R.answers region.now) ≡ None }
    requires some { 0 < depth }
    requires shallow { depth ≤ 6 }
    requires slots { slot + 2 ^ depth ≤ 64 }
    requires many { length hops.old ≡ 64 }
    requires few { survey.old.leaves ≤ slot }
    ensures slots { (e : ℕ) (r : ℕ → List Bool → ℕ)
        → AreParts depth (R.bits region.now) (R.answers region.now) e r slot
        → IsSurveyed survey.old hops.old (λ u. one_answer e (r u)) slot
        → IsSurveyed survey.new hops.new (λ u. one_answer e (r u)) (slot + 2 ^ depth) }
    ensures few { survey.new.leaves ≤ slot + 2 ^ depth }
{
    let low = region.half(false);
    let high = region.half(true);
    let below = depth - 1;
    add_slots(&low, below, slot, survey, hops);
    add_slots(&high, below, slot + (1 << below), survey, hops);
}

/// Adds the slots of one more part of a node's region, from this slot on, which `depth` more bits tell apart.
#[cycle(add_halves)]
#[inline(always)]
fn add_slots<R: Region>(region: &R, depth: u8, slot: u8, survey: &mut Survey, hops: &mut [u16])
    requires shallow { depth ≤ 6 }
    requires slots { slot + 2 ^ depth ≤ 64 }
    requires many { length hops.old ≡ 64 }
    requires few { survey.old.leaves ≤ slot }
    ensures slots { (e : ℕ) (r : ℕ → List Bool → ℕ)
        → AreParts depth (R.bits region.now) (R.answers region.now) e r slot
        → IsSurveyed survey.old hops.old (λ u. one_answer e (r u)) slot
        → IsSurveyed survey.new hops.new (λ u. one_answer e (r u)) (slot + 2 ^ depth) }
    ensures few { survey.new.leaves ≤ slot + 2 ^ depth }
{
    match region.only() {
        Some(hop) => add_leaves(survey, hops, slot, hop.0),
        None => {
            if depth == 0 {
                add_node(survey, slot);
                return;
            }
            add_halves(region, depth, slot, survey, hops);
        }
    }
}

/// The canonical vectors of the node of a region with two answers, and the hops of its leaves in their order.
pub(crate) fn survey_slots<R: Region>(region: &R, hops: &mut [u16]) -> Vectors
    requires mixed { one_answer (R.bits region.now) (R.answers region.now) ≡ None }
    requires many { length hops.old ≡ 64 }
    ensures canonical { IsCanonical result.vector result.leafvec (slots (R.bits region.now)
        (R.answers region.now)) }
    ensures nodes { result.nodes ≡ children (slots (R.bits region.now) (R.answers region.now)) }
    ensures leaves { result.leaves ≡ runs (slots (R.bits region.now) (R.answers region.now)) }
    ensures many { length hops.new ≡ 64 }
    ensures few { result.leaves ≤ 64 }
    ensures hops { (v h : ℕ) → v < 64 → slots (R.bits region.now) (R.answers region.now) v ≡ Some h
        → slice_index_or hops.new (rank_of result.leafvec (v + 1) - 1) 0 ≡ h }
{
    let mut survey = Survey {
        vectors: Partial {
            vector: 0,
            leafvec: 0,
            last: None,
        },
        leaves: 0,
    };
    add_halves(region, 6, 0, &mut survey, hops);
    let vectors = survey.vectors;
    Vectors {
        vector: vectors.vector,
        leafvec: vectors.leafvec,
        nodes: vectors.vector.count_ones(),
        leaves: vectors.leafvec.count_ones(),
    }
}
