//! What the nodes on the way to a path need, and all that is at and within the path.

ghost use Rattle.std.specs.Prelude.{◌≡◌, ℕ, ◌+◌, ◌*◌, ◌^◌, ◌≤◌, ◌<◌, List, Bool, None};
ghost use Rattle.table_model.specs.Bits.{bits_of};
ghost use Rattle.fib_addr.specs.Answers.{one_answer};
ghost use Rattle.poptrie_build.specs.Need.{need_in_u64};
ghost use Rattle.poptrie_build.specs.Strides.{mixed};
ghost use Rattle.poptrie_build.specs.Tally.{AreParts, IsTally};
ghost use Rattle.route_tries.specs.Parts.{way_nodes, way_leaves};
ghost use Rattle.route_tries.specs.Way.{AreOnWay, AreBeside};

use fib_addr::Region;
use poptrie_build::{Needs, Tally};

/// What the node of a region with two answers needs below it on the way to a path and within it: its own places, and what the
/// slots that meet the path need there. The path is the lowest `left` bits of `q`. It costs the regions with two answers in the
/// nodes on the way and in those within the path, and asks about the halves of each once.
#[cycle(count_way)]
pub(crate) fn count_way<R: Region>(region: &R, q: u128, left: u8) -> Needs
    requires mixed { one_answer (R.bits region.now) (R.answers region.now) ≡ None }
    requires few { left ≤ 128 }
    ensures nodes { (k : ℕ) → R.bits region.now ≤ 6 * k
        → result.nodes ≡ need_in_u64 (way_nodes k (R.bits region.now) (R.answers region.now)
        (bits_of left q)) }
    ensures leaves { (k : ℕ) → R.bits region.now ≤ 6 * k
        → result.leaves ≡ need_in_u64 (way_leaves k (R.bits region.now) (R.answers region.now)
        (bits_of left q)) }
{
    let mut tally = Tally::new();
    tally_halves(region, 6, q, left, &mut tally);
    tally.needs()
}

/// Adds the slots of a part of a node's region with two answers, a part on the way, which `depth` more bits tell apart:
/// those of its halves. The path goes on in the half of its next bit, and the other half is beside the way; if nothing is left of
/// the path, both halves are within it.
#[cycle(count_way)]
fn tally_halves<R: Region>(region: &R, depth: u8, q: u128, left: u8, tally: &mut Tally)
    requires mixed { one_answer (R.bits region.now) (R.answers region.now) ≡ None }
    requires some { 0 < depth }
    requires nodes { tally.old.nodes + 2 ^ depth ≤ 64 }
    requires leaves { tally.old.leaves + 2 ^ depth ≤ 64 }
    requires few { left ≤ 128 }
    ensures tally { (k e v : ℕ) (r : ℕ → List Bool → ℕ) (N L : ℕ → ℕ) → e ≤ 6 * k
        → AreParts depth (R.bits region.now) (R.answers region.now) e r v
        → AreOnWay depth k e r (bits_of left q) N L v
        → IsTally tally.old (λ u. one_answer e (r u)) N L v
        → IsTally tally.new (λ u. one_answer e (r u)) N L (v + 2 ^ depth) }
    ensures nodes { tally.new.nodes ≤ tally.old.nodes + 2 ^ depth }
    ensures leaves { tally.new.leaves ≤ tally.old.leaves + 2 ^ depth }
{
    let low = region.half(false);
    let high = region.half(true);
    let below = depth - 1;
    if left == 0 {
        tally_way(&low, below, q, 0, tally);
        tally_way(&high, below, q, 0, tally);
        return;
    }
    let rest = left - 1;
    if (q >> rest) & 1 == 1 {
        tally_beside(&low, below, tally);
        tally_way(&high, below, q, rest, tally);
        return;
    }
    tally_way(&low, below, q, rest, tally);
    tally_beside(&high, below, tally);
}

/// Adds the slots of one more part of a node's region, a part on the way, which `depth` more bits tell apart. A part with
/// one answer is as many leaves at once, and below a slot that has a node the need is counted right there.
#[cycle(count_way)]
fn tally_way<R: Region>(region: &R, depth: u8, q: u128, left: u8, tally: &mut Tally)
    requires nodes { tally.old.nodes + 2 ^ depth ≤ 64 }
    requires leaves { tally.old.leaves + 2 ^ depth ≤ 64 }
    requires few { left ≤ 128 }
    ensures tally { (k e v : ℕ) (r : ℕ → List Bool → ℕ) (N L : ℕ → ℕ) → e ≤ 6 * k
        → AreParts depth (R.bits region.now) (R.answers region.now) e r v
        → AreOnWay depth k e r (bits_of left q) N L v
        → IsTally tally.old (λ u. one_answer e (r u)) N L v
        → IsTally tally.new (λ u. one_answer e (r u)) N L (v + 2 ^ depth) }
    ensures nodes { tally.new.nodes ≤ tally.old.nodes + 2 ^ depth }
    ensures leaves { tally.new.leaves ≤ tally.old.leaves + 2 ^ depth }
{
    match region.only() {
        Some(hop) => tally.add_leaves(hop.0),
        None => {
            if depth == 0 {
                tally.add_node(count_way(region, q, left));
                return;
            }
            tally_halves(region, depth, q, left, tally);
        }
    }
}

/// The same as `tally_halves` of a part beside the way: nothing is needed below its slots.
#[cycle(halves_beside)]
fn halves_beside<R: Region>(region: &R, depth: u8, tally: &mut Tally)
    requires mixed { one_answer (R.bits region.now) (R.answers region.now) ≡ None }
    requires some { 0 < depth }
    requires nodes { tally.old.nodes + 2 ^ depth ≤ 64 }
    requires leaves { tally.old.leaves + 2 ^ depth ≤ 64 }
    ensures tally { (e v : ℕ) (r : ℕ → List Bool → ℕ) (N L : ℕ → ℕ)
        → AreParts depth (R.bits region.now) (R.answers region.now) e r v
        → AreBeside depth N L v → IsTally tally.old (λ u. one_answer e (r u)) N L v
        → IsTally tally.new (λ u. one_answer e (r u)) N L (v + 2 ^ depth) }
    ensures nodes { tally.new.nodes ≤ tally.old.nodes + 2 ^ depth }
    ensures leaves { tally.new.leaves ≤ tally.old.leaves + 2 ^ depth }
{
    let low = region.half(false);
    let high = region.half(true);
    tally_beside(&low, depth - 1, tally);
    tally_beside(&high, depth - 1, tally);
}

/// The same as `tally_way` of a part beside the way.
#[cycle(halves_beside)]
#[inline(always)]
fn tally_beside<R: Region>(region: &R, depth: u8, tally: &mut Tally)
    requires nodes { tally.old.nodes + 2 ^ depth ≤ 64 }
    requires leaves { tally.old.leaves + 2 ^ depth ≤ 64 }
    ensures tally { (e v : ℕ) (r : ℕ → List Bool → ℕ) (N L : ℕ → ℕ)
        → AreParts depth (R.bits region.now) (R.answers region.now) e r v
        → AreBeside depth N L v → IsTally tally.old (λ u. one_answer e (r u)) N L v
        → IsTally tally.new (λ u. one_answer e (r u)) N L (v + 2 ^ depth) }
    ensures nodes { tally.new.nodes ≤ tally.old.nodes + 2 ^ depth }
    ensures leaves { tally.new.leaves ≤ tally.old.leaves + 2 ^ depth }
{
    match region.only() {
        Some(hop) => tally.add_leaves(hop.0),
        None => {
            if depth == 0 {
                let nothing = Needs {
                    nodes: 0,
                    leaves: 0,
                };
                tally.add_node(nothing);
                return;
            }
            halves_beside(region, depth, tally);
        }
    }
}
