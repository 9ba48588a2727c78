//! A direct word made anew beside the old one.

ghost use Rattle.std.specs.Prelude.{◌≡◌, ℕ, ◌+◌, ◌++◌, ◌^◌, ◌<◌, List, Bool, Option, Some, None, IfOk, IfErr, OnOk};
ghost use Rattle.buddy_arena.specs.Space.{Space, IsSized};
ghost use Rattle.fib_addr.specs.Answers.{one_answer};
ghost use Rattle.poptrie_build.specs.Stands.{blank};
ghost use Rattle.path_copying.specs.Changes.{Gains};
ghost use Rattle.path_copying.specs.Aside.{OnlyAside};
ghost use Rattle.path_copying.specs.Words.{IsWord, node_of, own_array, ReplacesWord, KeepsWord};
ghost use Rattle.path_copying.specs.Ways.{bits_left, IsOldWord};
ghost use Rattle.path_copying.specs.Asks.{MeetsWord, MeetsNotWord, MeetsChangedWord, MeetsNotChangedWord};

use crate::arenas::Arenas;
use crate::aside::set_aside_all;
use crate::blocks::{Refusal, take_block};
use crate::comparing::is_same;
use crate::copying::copy_node;
use crate::way::Way;
use buddy_arena::{Arena, Block, Blocks, put};
use fib_addr::{Hop, Region};
use poptrie_build::{DirectWord, Node, hop_word};
use std::alloc::AllocError;

/// The node of a word, nothing if it is a hop.
fn word_node(word: u32, nodes: &Arena<Node>) -> Option<Node>
    requires sized { IsSized nodes.now }
    requires word { (leaves : Space ℕ) × (d : ℕ) × IsWord nodes.now leaves word d }
    ensures { result ≡ node_of nodes.now.cells word }
{
    match DirectWord::read(word) {
        DirectWord::Hop(_hop) => None,
        DirectWord::Node(place) => Some(nodes.read(place)),
    }
}

/// Puts the block of a word's node aside, nothing if it is a hop.
///
/// # Errors
///
/// Out of memory.
fn set_aside_word(word: u32, node_blocks: &mut Blocks) -> Result<(), AllocError>
    requires time { node_blocks.old.time < 18446744073709551615 }
    ensures nodes { OnlyAside node_blocks.old node_blocks.new }
    ensures own { OnOk result (node_blocks.new.replaced ≡ node_blocks.old.replaced ++ own_array
        word) }
{
    match DirectWord::read(word) {
        DirectWord::Hop(_hop) => Ok(()),
        DirectWord::Node(place) => node_blocks.set_aside(Block { place, order: 0 }),
    }
}

/// Puts all that a word leads to aside, for a region of `bits` more bits that has one answer now, and makes that its word.
///
/// # Errors
///
/// Out of memory.
fn leave_word(
    bits: u8,
    word: u32,
    hop: Hop,
    nodes: &Arena<Node>,
    node_blocks: &mut Blocks,
    leaf_blocks: &mut Blocks,
) -> Result<u32, AllocError>
    requires sized { IsSized nodes.now }
    requires nodes_time { node_blocks.old.time < 18446744073709551615 }
    requires leaves_time { leaf_blocks.old.time < 18446744073709551615 }
    requires word { (leaves : Space ℕ) × IsWord nodes.now leaves word bits }
    ensures nodes { OnlyAside node_blocks.old node_blocks.new }
    ensures leaves { OnlyAside leaf_blocks.old leaf_blocks.new }
    ensures gone { IfOk result (λ new. (leaves : Space ℕ) (f : List Bool → ℕ)
        → one_answer bits f ≡ Some hop.0
        → ReplacesWord nodes.now node_blocks.old leaves leaf_blocks.old word nodes.now
        node_blocks.new leaves leaf_blocks.new new bits f) }
    ensures hop { IfOk result (λ new. new ≡ 2 ^ 31 + hop.0) }
{
    let was = word_node(word, nodes);
    set_aside_word(word, node_blocks)?;
    if let Some(node) = was {
        set_aside_all(bits, &node, nodes, node_blocks, leaf_blocks)?;
    }
    Ok(hop_word(hop))
}

/// Makes the word of a region that has two different answers anew.
///
/// # Errors
///
/// As `copy_node`'s.
fn make_word<R: Region>(
    region: &R,
    way: &Way,
    word: u32,
    arenas: &mut Arenas,
) -> Result<u32, Refusal>
    requires mixed { one_answer (R.bits region.now) (R.answers region.now) ≡ None }
    requires way { way.now.bits ≡ R.bits region.now }
    requires nodes_sized { IsSized arenas.old.nodes }
    requires leaves_sized { IsSized arenas.old.leaves }
    requires nodes_time { arenas.old.node_blocks.time < 18446744073709551615 }
    requires leaves_time { arenas.old.leaf_blocks.time < 18446744073709551615 }
    requires word { IsOldWord arenas.old.nodes arenas.old.leaves word (bits_left way.now) (R.bits
        region.now) (R.answers region.now) }
    ensures nodes { Gains blank arenas.old.nodes arenas.old.node_blocks arenas.new.nodes
        arenas.new.node_blocks }
    ensures leaves { Gains 0 arenas.old.leaves arenas.old.leaf_blocks arenas.new.leaves
        arenas.new.leaf_blocks }
    ensures replaces { IfOk result (λ new. ReplacesWord arenas.old.nodes arenas.old.node_blocks
        arenas.old.leaves arenas.old.leaf_blocks word arenas.new.nodes arenas.new.node_blocks
        arenas.new.leaves arenas.new.leaf_blocks new (R.bits region.now) (R.answers region.now)) }
    ensures met { IfOk result (λ new. MeetsChangedWord arenas.old.nodes arenas.old.leaves word
        arenas.new.nodes arenas.new.leaves (R.bits region.now) (R.answers region.now)) }
    ensures refused { IfErr result (λ e. MeetsNotChangedWord arenas.old.nodes arenas.old.leaves word
        (R.bits region.now) (R.answers region.now) e) }
{
    let was = word_node(word, &arenas.nodes);
    set_aside_word(word, &mut arenas.node_blocks)?;
    let place = match take_block(&mut arenas.nodes, &mut arenas.node_blocks, 1) {
        Ok(place) => place,
        Err(refused) => return Err(Refusal::of_nodes(refused)),
    };
    let node = copy_node(region, way, was, arenas)?;
    put(&mut arenas.nodes, place, node);
    Ok(place)
}

/// The direct word of a slot's region beside the old one: as it was if no address of the slot gets another answer.
///
/// # Errors
///
/// As `copy_node`'s.
pub fn copy_word<R: Region>(
    region: &R,
    way: &Way,
    word: u32,
    arenas: &mut Arenas,
) -> Result<u32, Refusal>
    requires way { way.now.bits ≡ R.bits region.now }
    requires nodes_sized { IsSized arenas.old.nodes }
    requires leaves_sized { IsSized arenas.old.leaves }
    requires nodes_time { arenas.old.node_blocks.time < 18446744073709551615 }
    requires leaves_time { arenas.old.leaf_blocks.time < 18446744073709551615 }
    requires word { IsOldWord arenas.old.nodes arenas.old.leaves word (bits_left way.now) (R.bits
        region.now) (R.answers region.now) }
    ensures nodes { Gains blank arenas.old.nodes arenas.old.node_blocks arenas.new.nodes
        arenas.new.node_blocks }
    ensures leaves { Gains 0 arenas.old.leaves arenas.old.leaf_blocks arenas.new.leaves
        arenas.new.leaf_blocks }
    ensures replaces { IfOk result (λ new. ReplacesWord arenas.old.nodes arenas.old.node_blocks
        arenas.old.leaves arenas.old.leaf_blocks word arenas.new.nodes arenas.new.node_blocks
        arenas.new.leaves arenas.new.leaf_blocks new (R.bits region.now) (R.answers region.now)) }
    ensures kept { IfOk result (λ new. KeepsWord arenas.old.nodes arenas.old.leaves word new (R.bits
        region.now) (R.answers region.now)) }
    ensures met { IfOk result (λ new. MeetsWord arenas.old.nodes arenas.old.leaves word
        arenas.new.nodes arenas.new.leaves (R.bits region.now) (R.answers region.now)) }
    ensures refused { IfErr result (λ e. MeetsNotWord arenas.old.nodes arenas.old.leaves word
        (R.bits region.now) (R.answers region.now) e) }
{
    match region.only() {
        Some(hop) => {
            let word = leave_word(
                way.bits,
                word,
                hop,
                &arenas.nodes,
                &mut arenas.node_blocks,
                &mut arenas.leaf_blocks,
            )?;
            Ok(word)
        }
        None => {
            if let Some(node) = word_node(word, &arenas.nodes) {
                if is_same(region, way, &node, &arenas.nodes, &arenas.leaves) {
                    return Ok(word);
                }
            }
            let word = make_word(region, way, word, arenas)?;
            Ok(word)
        }
    }
}
