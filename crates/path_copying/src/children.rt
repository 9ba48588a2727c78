//! A node's children, read and written.

ghost use Rattle.std.specs.Prelude.{◌≡◌, ℕ, ◌+◌, ◌-◌, ◌<◌, true, Some, None, length};
ghost use Rattle.buddy_arena.specs.Space.{Space, IsSized};
ghost use Rattle.buddy_arena.specs.Places.{is_out};
ghost use Rattle.poptrie_build.specs.Bits.{rank_of};
ghost use Rattle.poptrie_build.specs.Making.{slot_kind};
ghost use Rattle.poptrie_build.specs.Need.{children, runs};
ghost use Rattle.poptrie_build.specs.Stands.{IsCanonical, IsLeaf, blank};
ghost use Rattle.path_copying.specs.Kids.{IsKid, kid_at, kid_in};
ghost use Rattle.path_copying.specs.Written.{AreMatched, IsBlockOut, WritesCells};

use buddy_arena::{Arena, put};
use poptrie_build::{Node, rank};

/// The child at a slot, nothing if the slot is a leaf or there is no node.
fn child_at(node: Option<Node>, slot: u8, nodes: &Arena<Node>) -> Option<Node>
    requires slot { slot < 64 }
    requires sized { IsSized nodes.now }
    requires node { (leaves : Space ℕ) × (d : ℕ) × IsKid nodes.now leaves node d }
    ensures { result ≡ kid_at nodes.now.cells node slot }
{
    match node {
        Some(node) => {
            if (node.vector >> slot) & 1 == 0 {
                return None;
            }
            Some(nodes.read(node.base1 + rank(node.vector, slot) - 1))
        }
        None => None,
    }
}

/// The children of a node by its slots, none if there is no node.
pub(crate) fn read_children(node: Option<Node>, nodes: &Arena<Node>, kids: &mut [Option<Node>])
    requires many { length kids.old ≡ 64 }
    requires sized { IsSized nodes.now }
    requires node { (leaves : Space ℕ) × (d : ℕ) × IsKid nodes.now leaves node d }
    ensures many { length kids.new ≡ 64 }
    ensures kids { (v : ℕ) → v < 64 → kid_in kids.new v ≡ kid_at nodes.now.cells node v }
{
    for slot in 0..64u8 {
        kids[usize::from(slot)] = child_at(node, slot, nodes);
    }
}

/// Writes a node's children and leaves to their places: each slot has a child or the hop of a leaf.
pub(crate) fn write_slots(
    node: &Node,
    kinds: &[Option<u16>],
    kids: &[Option<Node>],
    nodes: &mut Arena<Node>,
    leaves: &mut Arena<u16>,
)
    requires kinds { length kinds.now ≡ 64 }
    requires kids { length kids.now ≡ 64 }
    requires canonical { IsCanonical node.now.vector node.now.leafvec (slot_kind kinds.now) }
    requires matched { AreMatched kinds.now kids.now }
    requires nodes_sized { IsSized nodes.old }
    requires leaves_sized { IsSized leaves.old }
    requires nodes_out { IsBlockOut node.now.base1 (children (slot_kind kinds.now)) nodes.old }
    requires leaves_out { IsBlockOut node.now.base0 (runs (slot_kind kinds.now)) leaves.old }
    ensures nodes { WritesCells blank node.now.base1 (children (slot_kind kinds.now)) nodes.old nodes.new }
    ensures leaves { WritesCells 0 node.now.base0 (runs (slot_kind kinds.now)) leaves.old leaves.new }
    ensures children { (v : ℕ) → v < 64 → kid_at nodes.new.cells (Some node.now) v
        ≡ kid_in kids.now v }
    ensures leaf { (v h : ℕ) → v < 64 → slot_kind kinds.now v ≡ Some h → IsLeaf leaves.new.cells
        (node.now.base0 + rank_of node.now.leafvec (v + 1) - 1) h }
{
    for slot in 0..64u8 {
        match kids[usize::from(slot)] {
            Some(child) => put(nodes, node.base1 + rank(node.vector, slot) - 1, child),
            None => match kinds[usize::from(slot)] {
                Some(hop) => put(leaves, node.base0 + rank(node.leafvec, slot) - 1, hop),
                None => {}
            },
        }
    }
}
