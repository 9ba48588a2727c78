//! A node made anew beside the old one, top down: a node's blocks are taken before those of its children.

ghost use Rattle.std.specs.Prelude.{◌≡◌, ℕ, ◌-◌, ◌<◌, Option, Some, None, IfOk, IfErr};
ghost use Rattle.buddy_arena.specs.Space.{IsSized};
ghost use Rattle.fib_addr.specs.Answers.{one_answer};
ghost use Rattle.poptrie_build.specs.Strides.{slots};
ghost use Rattle.poptrie_build.specs.Strides as strides;
ghost use Rattle.poptrie_build.specs.Stands.{blank};
ghost use Rattle.path_copying.specs.Ways.{bits_left, IsOldKid, IsOldSlot};
ghost use Rattle.path_copying.specs.Changes.{Gains, Replaces};
ghost use Rattle.path_copying.specs.Written.{Matches};
ghost use Rattle.path_copying.specs.Asks.{MeetsAll, MeetsNotAll, MeetsChanged, MeetsNotChanged};

use crate::arenas::Arenas;
use crate::aside::{open_node, set_aside_all};
use crate::blocks::{Refusal, take_block};
use crate::children::write_slots;
use crate::comparing::is_child_same;
use crate::way::Way;
use fib_addr::Region;
use poptrie_build::{Node, ask, descend, make_vectors};

/// The node that stands for a region with two different answers, made anew beside the old one; there is none if the region had
/// one answer. What is beside the way is shared as it is.
///
/// # Errors
///
/// Out of memory, or a block is refused. What was taken is listed, and what was to be replaced too.
#[cycle(copies)]
pub fn copy_node<R: Region>(
    region: &R,
    way: &Way,
    was: Option<Node>,
    arenas: &mut Arenas,
) -> Result<Node, Refusal>
    requires mixed { one_answer (R.bits region.now) (R.answers region.now) ≡ None }
    requires way { way.now.bits ≡ R.bits region.now }
    requires nodes_sized { IsSized arenas.old.nodes }
    requires leaves_sized { IsSized arenas.old.leaves }
    requires nodes_time { arenas.old.node_blocks.time < 18446744073709551615 }
    requires leaves_time { arenas.old.leaf_blocks.time < 18446744073709551615 }
    requires was { IsOldKid arenas.old.nodes arenas.old.leaves was (bits_left way.now) (R.bits
        region.now) (R.answers region.now) }
    ensures nodes { Gains blank arenas.old.nodes arenas.old.node_blocks arenas.new.nodes
        arenas.new.node_blocks }
    ensures leaves { Gains 0 arenas.old.leaves arenas.old.leaf_blocks arenas.new.leaves
        arenas.new.leaf_blocks }
    ensures replaces { IfOk result (λ node. Replaces arenas.old.nodes arenas.old.node_blocks
        arenas.old.leaves arenas.old.leaf_blocks was arenas.new.nodes arenas.new.node_blocks
        arenas.new.leaves arenas.new.leaf_blocks (Some node) (R.bits region.now) (R.answers
        region.now)) }
    ensures met { IfOk result (λ node. MeetsChanged arenas.old.nodes arenas.old.leaves was
        arenas.new.nodes arenas.new.leaves (R.bits region.now) (R.answers region.now)) }
    ensures refused { IfErr result (λ e. MeetsNotChanged arenas.old.nodes arenas.old.leaves was
        (R.bits region.now) (R.answers region.now) e) }
{
    let mut kinds = [None; 64];
    ask(region, 6, &mut kinds);
    let made = make_vectors(&kinds);
    let mut kids = [None; 64];
    open_node(
        was,
        &arenas.nodes,
        &mut arenas.node_blocks,
        &mut arenas.leaf_blocks,
        &mut kids,
    )?;
    let base1 = match take_block(&mut arenas.nodes, &mut arenas.node_blocks, made.nodes) {
        Ok(base) => base,
        Err(refused) => return Err(Refusal::of_nodes(refused)),
    };
    let base0 = match take_block(&mut arenas.leaves, &mut arenas.leaf_blocks, made.leaves) {
        Ok(base) => base,
        Err(refused) => return Err(Refusal::of_leaves(refused)),
    };
    for slot in 0..64u8 {
        let at = usize::from(slot);
        kids[at] = copy_slot(region, way, slot, kinds[at], kids[at], arenas)?;
    }
    let node = Node {
        vector: made.vector,
        leafvec: made.leafvec,
        base0,
        base1,
    };
    write_slots(&node, &kinds, &kids, &mut arenas.nodes, &mut arenas.leaves);
    Ok(node)
}

/// The child of a slot, made anew, shared if its region's answers are as they were, or none if the slot has one answer, the
/// hop of its kind.
///
/// # Errors
///
/// As `copy_node`'s.
#[cycle(copies)]
fn copy_slot<R: Region>(
    region: &R,
    way: &Way,
    slot: u8,
    kind: Option<u16>,
    was: Option<Node>,
    arenas: &mut Arenas,
) -> Result<Option<Node>, Refusal>
    requires slot { slot < 64 }
    requires kind { kind ≡ slots (R.bits region.now) (R.answers region.now) slot }
    requires way { way.now.bits ≡ R.bits region.now }
    requires nodes_sized { IsSized arenas.old.nodes }
    requires leaves_sized { IsSized arenas.old.leaves }
    requires nodes_time { arenas.old.node_blocks.time < 18446744073709551615 }
    requires leaves_time { arenas.old.leaf_blocks.time < 18446744073709551615 }
    requires was { IsOldSlot arenas.old.nodes arenas.old.leaves was slot (bits_left way.now) (R.bits
        region.now) (R.answers region.now) }
    ensures nodes { Gains blank arenas.old.nodes arenas.old.node_blocks arenas.new.nodes
        arenas.new.node_blocks }
    ensures leaves { Gains 0 arenas.old.leaves arenas.old.leaf_blocks arenas.new.leaves
        arenas.new.leaf_blocks }
    ensures kind { IfOk result (λ kid. Matches kind kid) }
    ensures replaces { IfOk result (λ kid. Replaces arenas.old.nodes arenas.old.node_blocks
        arenas.old.leaves arenas.old.leaf_blocks was arenas.new.nodes arenas.new.node_blocks
        arenas.new.leaves arenas.new.leaf_blocks kid (R.bits region.now - 6) (strides.slot (R.bits
        region.now) (R.answers region.now) slot)) }
    ensures met { IfOk result (λ kid. MeetsAll arenas.old.nodes arenas.old.leaves was
        arenas.new.nodes arenas.new.leaves (R.bits region.now - 6) (strides.slot (R.bits region.now)
        (R.answers region.now) slot)) }
    ensures refused { IfErr result (λ e. MeetsNotAll arenas.old.nodes arenas.old.leaves was (R.bits
        region.now - 6) (strides.slot (R.bits region.now) (R.answers region.now) slot) e) }
{
    match kind {
        Some(_hop) => {
            if let Some(node) = was {
                set_aside_all(
                    way.bits - 6,
                    &node,
                    &arenas.nodes,
                    &mut arenas.node_blocks,
                    &mut arenas.leaf_blocks,
                )?;
            }
            Ok(None)
        }
        None => {
            if let Some(node) = was {
                if is_child_same(region, way, slot, &node, &arenas.nodes, &arenas.leaves) {
                    return Ok(was);
                }
            }
            let child = descend(region, slot, 6);
            let node = copy_node(&child, &way.below(6), was, arenas)?;
            Ok(Some(node))
        }
    }
}
