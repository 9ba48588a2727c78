//! How many places a trie's nodes and leaves need, counted without building it.

ghost use Rattle.std.specs.Prelude.{◌≡◌, ℕ, ◌+◌, ◌-◌, ◌*◌, ◌^◌, ◌<◌, ◌≤◌, List, Bool, None};
ghost use Rattle.fib_addr.specs.Answers.{one_answer};
ghost use Rattle.poptrie_build.specs.Need.{need_in_u64, need_nodes, need_leaves, trie_nodes, trie_leaves};
ghost use Rattle.poptrie_build.specs.Tally.{AreParts, IsWholeTally};

use crate::tally::Tally;
use fib_addr::Region;

/// Places of nodes and of leaves; more than a u64 holds is its greatest number.
#[derive(Clone, Copy, Debug, PartialEq, Eq)]
pub struct Needs {
    /// Places of nodes.
    pub nodes: u64,
    /// Places of leaves.
    pub leaves: u64,
}

/// What the arrays below a node need that stands for the region.
#[cycle(count_node)]
pub(crate) fn count_node<R: Region>(region: &R) -> Needs
    requires { one_answer (R.bits region.now) (R.answers region.now) ≡ None }
    ensures nodes { (k : ℕ) → R.bits region.now ≤ 6 * k
        → result.nodes ≡ need_in_u64 (need_nodes k (R.bits region.now) (R.answers region.now)) }
    ensures leaves { (k : ℕ) → R.bits region.now ≤ 6 * k
        → result.leaves ≡ need_in_u64 (need_leaves k (R.bits region.now) (R.answers region.now)) }
{
    let mut tally = Tally::new();
    tally_halves(region, 6, &mut tally);
    tally.needs()
}

/// Adds the slots of a part of a node's region with two answers, which `depth` more bits tell apart: those of its halves.
#[cycle(count_node)]
fn tally_halves<R: Region>(region: &R, depth: u8, tally: &mut Tally)
    requires mixed { one_answer (R.bits region.now) (R.answers region.now) ≡ None }
    requires some { 0 < depth }
    requires nodes { tally.old.nodes + 2 ^ depth ≤ 64 }
    requires leaves { tally.old.leaves + 2 ^ depth ≤ 64 }
    ensures tally { (k e v : ℕ) (r : ℕ → List Bool → ℕ) → e ≤ 6 * k
        → AreParts depth (R.bits region.now) (R.answers region.now) e r v
        → IsWholeTally tally.old k e r v → IsWholeTally tally.new k e r (v + 2 ^ depth) }
    ensures nodes { tally.new.nodes ≤ tally.old.nodes + 2 ^ depth }
    ensures leaves { tally.new.leaves ≤ tally.old.leaves + 2 ^ depth }
{
    let low = region.half(false);
    let high = region.half(true);
    tally_slots(&low, depth - 1, tally);
    tally_slots(&high, depth - 1, tally);
}

/// Adds the slots of one more part of a node's region, which `depth` more bits tell apart. A part with one answer is as many leaves at
/// once, and of one slot that has a node the need is counted right there.
#[cycle(count_node)]
#[inline(always)]
fn tally_slots<R: Region>(region: &R, depth: u8, tally: &mut Tally)
    requires nodes { tally.old.nodes + 2 ^ depth ≤ 64 }
    requires leaves { tally.old.leaves + 2 ^ depth ≤ 64 }
    ensures tally { (k e v : ℕ) (r : ℕ → List Bool → ℕ) → e ≤ 6 * k
        → AreParts depth (R.bits region.now) (R.answers region.now) e r v
        → IsWholeTally tally.old k e r v → IsWholeTally tally.new k e r (v + 2 ^ depth) }
    ensures nodes { tally.new.nodes ≤ tally.old.nodes + 2 ^ depth }
    ensures leaves { tally.new.leaves ≤ tally.old.leaves + 2 ^ depth }
{
    match region.only() {
        Some(hop) => tally.add_leaves(hop.0),
        None => {
            if depth == 0 {
                tally.add_node(count_node(region));
                return;
            }
            tally_halves(region, depth, tally);
        }
    }
}

/// What the direct slots of a region need, of `depth` more bits each. It costs the regions with two answers, and asks about the
/// halves of each once.
pub fn count_words<R: Region>(region: &R, depth: u8) -> Needs
    requires { depth ≤ R.bits region.now }
    ensures nodes { (k : ℕ) → R.bits region.now - depth ≤ 6 * k
        → result.nodes ≡ need_in_u64 (trie_nodes depth k (R.bits region.now - depth)
        (R.answers region.now)) }
    ensures leaves { (k : ℕ) → R.bits region.now - depth ≤ 6 * k
        → result.leaves ≡ need_in_u64 (trie_leaves depth k (R.bits region.now - depth)
        (R.answers region.now)) }
{
    match region.only() {
        Some(_hop) => Needs {
            nodes: 0,
            leaves: 0,
        },
        None => {
            if depth == 0 {
                let below = count_node(region);
                return Needs {
                    nodes: below.nodes.saturating_add(1),
                    leaves: below.leaves,
                };
            }
            let low = count_words(&region.half(false), depth - 1);
            let high = count_words(&region.half(true), depth - 1);
            Needs {
                nodes: low.nodes.saturating_add(high.nodes),
                leaves: low.leaves.saturating_add(high.leaves),
            }
        }
    }
}
