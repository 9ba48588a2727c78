//! A node and all below it, top down: a node's blocks are taken before those of its children.

ghost use Rattle.std.specs.Prelude.{◌≡◌, ℕ, ◌+◌, ◌*◌, ◌≤◌, None, IfSome, IsSome};
ghost use Rattle.buddy_arena.specs.Space.{IsSized};
ghost use Rattle.fib_addr.specs.Answers.{one_answer};
ghost use Rattle.poptrie_build.specs.Stands.{blank};
ghost use Rattle.poptrie_build.specs.Need.{need_nodes, need_leaves};
ghost use Rattle.buddy_arena.specs.Places.{Keeps, is_out, count_free, IsFresh, since};
ghost use Rattle.poptrie_build.specs.Build.{StandsIn};
ghost use Rattle.buddy_arena.specs.Arrays.{AreApart};
ghost use Rattle.poptrie_build.specs.Arrays.{node_arrays, leaf_arrays};

use crate::node::{Node, rank};
use crate::putting::put_leaves;
use crate::slots::descend;
use crate::surveying::survey_slots;
use buddy_arena::{Arena, put, take_places};
use fib_addr::Region;

/// The node that stands for the region, by places that come out; nothing if a block is refused. What was out keeps what
/// it holds.
pub(crate) fn build_node<R: Region>(
    region: &R,
    nodes: &mut Arena<Node>,
    leaves: &mut Arena<u16>,
) -> Option<Node>
    requires mixed { one_answer (R.bits region.now) (R.answers region.now) ≡ None }
    requires nodes_sized { IsSized nodes.old }
    requires leaves_sized { IsSized leaves.old }
    ensures nodes_sized { IsSized nodes.new }
    ensures leaves_sized { IsSized leaves.new }
    ensures orders { (nodes.new.order ≡ nodes.old.order) × (leaves.new.order ≡ leaves.old.order) }
    ensures fills { (nodes.new.fill ≡ nodes.old.fill) × (leaves.new.fill ≡ leaves.old.fill) }
    ensures nodes { Keeps blank nodes.old.cells (is_out nodes.old.free) nodes.new.cells
        (is_out nodes.new.free) }
    ensures leaves { Keeps 0 leaves.old.cells (is_out leaves.old.free) leaves.new.cells
        (is_out leaves.new.free) }
    ensures stands { IfSome result (λ node. (k : ℕ) → R.bits region.now ≤ 6 * k →
        StandsIn k nodes.new.cells (since (is_out nodes.old.free)
        (is_out nodes.new.free)) leaves.new.cells
        (since (is_out leaves.old.free) (is_out leaves.new.free)) node (R.bits region.now)
        (R.answers region.now)) }
    ensures nodes_apart { IfSome result (λ node. (k : ℕ)
        → AreApart (since (is_out nodes.old.free) (is_out nodes.new.free))
        (node_arrays k nodes.new.cells node)) }
    ensures leaves_apart { IfSome result (λ node. (k : ℕ)
        → AreApart (since (is_out leaves.old.free) (is_out leaves.new.free))
        (leaf_arrays k nodes.new.cells node)) }
    ensures nodes_left { IfSome result (λ node. (k : ℕ) → R.bits region.now ≤ 6 * k
        → count_free nodes.new + need_nodes k (R.bits region.now) (R.answers region.now)
        ≡ count_free nodes.old) }
    ensures leaves_left { IfSome result (λ node. (k : ℕ) → R.bits region.now ≤ 6 * k
        → count_free leaves.new + need_leaves k (R.bits region.now) (R.answers region.now)
        ≡ count_free leaves.old) }
    ensures nodes_fresh { IsFresh nodes.old → IsFresh nodes.new }
    ensures leaves_fresh { IsFresh leaves.old → IsFresh leaves.new }
    ensures fits { (k : ℕ) → R.bits region.now ≤ 6 * k → IsFresh nodes.old → IsFresh leaves.old
        → need_nodes k (R.bits region.now) (R.answers region.now) ≤ count_free nodes.old
        → need_leaves k (R.bits region.now) (R.answers region.now) ≤ count_free leaves.old
        → IsSome result }
{
    let mut hops = [0; 64];
    let made = survey_slots(region, &mut hops);
    let base1 = take_places(nodes, made.nodes)?;
    let base0 = take_places(leaves, made.leaves)?;
    put_leaves(leaves, base0, &hops, made.leaves);
    let own = Node {
        vector: made.vector,
        leafvec: made.leafvec,
        base0,
        base1,
    };
    if made.nodes == 0 {
        return Some(own);
    }
    for slot in 0..64u8 {
        if (made.vector >> slot) & 1 == 1 {
            let child = descend(region, slot, 6);
            let node = build_node(&child, nodes, leaves)?;
            put(nodes, base1 + rank(made.vector, slot) - 1, node);
        }
    }
    Some(own)
}
