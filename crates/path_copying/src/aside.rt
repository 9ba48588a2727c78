//! The blocks of an old node, put aside.

ghost use Rattle.std.specs.Prelude.{◌≡◌, ℕ, ◌++◌, ◌<◌, List, Bool, Some, None, OnOk, length};
ghost use Rattle.buddy_arena.specs.Space.{Space, IsSized};
ghost use Rattle.fib_addr.specs.Answers.{one_answer};
ghost use Rattle.path_copying.specs.Kids.{IsKid, kid_at, kid_in};
ghost use Rattle.path_copying.specs.Changes.{Replaces};
ghost use Rattle.path_copying.specs.Aside.{OnlyAside, children_of, leaves_of};

use crate::blocks::set_aside_block;
use crate::children::read_children;
use buddy_arena::{Arena, Blocks};
use poptrie_build::{Node, rank};
use std::alloc::AllocError;

/// Reads a node's children, and puts the blocks of its children and leaves aside; nothing if there is no node.
///
/// # Errors
///
/// Out of memory.
pub(crate) fn open_node(
    node: Option<Node>,
    nodes: &Arena<Node>,
    node_blocks: &mut Blocks,
    leaf_blocks: &mut Blocks,
    kids: &mut [Option<Node>],
) -> Result<(), AllocError>
    requires many { length kids.old ≡ 64 }
    requires sized { IsSized nodes.now }
    requires nodes_time { node_blocks.old.time < 18446744073709551615 }
    requires leaves_time { leaf_blocks.old.time < 18446744073709551615 }
    requires node { (leaves : Space ℕ) × (d : ℕ) × IsKid nodes.now leaves node d }
    ensures nodes { OnlyAside node_blocks.old node_blocks.new }
    ensures leaves { OnlyAside leaf_blocks.old leaf_blocks.new }
    ensures many { length kids.new ≡ 64 }
    ensures kids { (v : ℕ) → v < 64 → kid_in kids.new v ≡ kid_at nodes.now.cells node v }
    ensures children { OnOk result (node_blocks.new.replaced
        ≡ node_blocks.old.replaced ++ children_of node) }
    ensures leaf { OnOk result (leaf_blocks.new.replaced
        ≡ leaf_blocks.old.replaced ++ leaves_of node) }
{
    read_children(node, nodes, kids);
    match node {
        Some(node) => {
            set_aside_block(node_blocks, node.base1, rank(node.vector, 63))?;
            set_aside_block(leaf_blocks, node.base0, rank(node.leafvec, 63))
        }
        None => Ok(()),
    }
}

/// Puts all blocks at and below a node aside, which stands for a region of `bits` more bits.
///
/// # Errors
///
/// Out of memory.
pub(crate) fn set_aside_all(
    bits: u8,
    node: &Node,
    nodes: &Arena<Node>,
    node_blocks: &mut Blocks,
    leaf_blocks: &mut Blocks,
) -> Result<(), AllocError>
    requires sized { IsSized nodes.now }
    requires nodes_time { node_blocks.old.time < 18446744073709551615 }
    requires leaves_time { leaf_blocks.old.time < 18446744073709551615 }
    requires node { (leaves : Space ℕ) × IsKid nodes.now leaves (Some node.now) bits }
    ensures nodes { OnlyAside node_blocks.old node_blocks.new }
    ensures leaves { OnlyAside leaf_blocks.old leaf_blocks.new }
    ensures gone { OnOk result ((leaves : Space ℕ) (f : List Bool → ℕ) (h : ℕ)
        → one_answer bits f ≡ Some h
        → Replaces nodes.now node_blocks.old leaves leaf_blocks.old (Some node.now) nodes.now
        node_blocks.new leaves leaf_blocks.new None bits f) }
{
    let mut kids = [None; 64];
    open_node(Some(*node), nodes, node_blocks, leaf_blocks, &mut kids)?;
    for slot in 0..64u8 {
        match kids[usize::from(slot)] {
            Some(child) => set_aside_all(bits - 6, &child, nodes, node_blocks, leaf_blocks)?,
            None => {}
        }
    }
    Ok(())
}
