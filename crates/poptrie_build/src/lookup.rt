//! The way from a direct word to the leaf of an address.

ghost use Rattle.std.specs.Prelude.{◌≡◌, ◌+◌, ◌*◌, ◌≤◌, ◌<◌};
ghost use Rattle.table_model.specs.Width.{width};
ghost use Rattle.fib_addr.specs.Views.{addr_as};
ghost use Rattle.buddy_arena.specs.Space.{IsSized};
ghost use Rattle.poptrie_build.specs.Strides.{Region, address, trie_visits};
ghost use Rattle.poptrie_build.specs.Led.{IsLed, IsWhole, StandsBelow, StandsWhole};
ghost use Rattle.poptrie_build.specs.Keys.{key_as};

use crate::direct_word::DirectWord;
use crate::key::Key;
use crate::node::{Node, rank};
use buddy_arena::Arena;
use fib_addr::{Addr, Family, Hop, Steps};
use std::sync::ledger::Ledger;

/// An answer, and how many nodes were visited for it.
#[derive(Clone, Copy, Debug, PartialEq, Eq)]
pub struct Found {
    /// The hop, `Hop::NONE` if there is none.
    pub hop: Hop,
    /// The nodes.
    pub visits: u8,
}

/// The answer at the address that the key's bits begin with, from the node that stands for what the key's first `start` bits
/// leave of the answers.
fn find_below<K: Key, L: Ledger>(
    nodes: &Arena<Node>,
    leaves: &Arena<u16>,
    root: u32,
    key: K,
    start: u8,
    steps: &mut Steps<L>,
) -> Found
    requires start { start < 32 }
    requires led { IsLed nodes.now.cells leaves.now.cells root start (K.wide key) }
    requires nodes_sized { IsSized nodes.now }
    requires leaves_sized { IsSized leaves.now }
    ensures hop { (r : Region)
        → StandsBelow nodes.now.cells leaves.now.cells root start (K.wide key) r
        → result.hop.0 ≡ r.answers (address (start + r.bits) (K.wide key)) }
    ensures visits { (r : Region)
        → StandsBelow nodes.now.cells leaves.now.cells root start (K.wide key) r
        → result.visits ≡ trie_visits start r.strides r.bits r.answers
        (address (start + r.bits) (K.wide key)) }
    ensures few { (r : Region)
        → StandsBelow nodes.now.cells leaves.now.cells root start (K.wide key) r
        → 6 * result.visits ≤ r.bits + 5 }
    ensures steps { steps.new ≡ steps.old + result.visits }
{
    let mut index = root;
    let mut left = key.rest(start);
    let mut visits = 0;
    'walk: loop {
        let node = nodes.read(index);
        steps.tick();
        visits += 1;
        let slot = left.slot();
        if (node.vector >> slot) & 1 == 0 {
            let hop = leaves.read(node.base0 + rank(node.leafvec, slot) - 1);
            return Found {
                hop: Hop(hop),
                visits,
            };
        }
        index = node.base1 + rank(node.vector, slot) - 1;
        left = left.rest(6);
    }
}

/// The answer at the address that the key's bits begin with, by the direct words.
fn find<K: Key, L: Ledger>(
    words: &[u32],
    nodes: &Arena<Node>,
    leaves: &Arena<u16>,
    direct_bits: u8,
    key: K,
    steps: &mut Steps<L>,
) -> Found
    requires most { direct_bits < 32 }
    requires whole { IsWhole direct_bits words.now nodes.now.cells leaves.now.cells }
    requires nodes_sized { IsSized nodes.now }
    requires leaves_sized { IsSized leaves.now }
    ensures hop { (r : Region)
        → StandsWhole direct_bits words.now nodes.now.cells leaves.now.cells r
        → result.hop.0 ≡ r.answers (address (direct_bits + r.bits) (K.wide key)) }
    ensures visits { (r : Region)
        → StandsWhole direct_bits words.now nodes.now.cells leaves.now.cells r
        → result.visits ≡ trie_visits direct_bits r.strides r.bits r.answers
        (address (direct_bits + r.bits) (K.wide key)) }
    ensures few { (r : Region)
        → StandsWhole direct_bits words.now nodes.now.cells leaves.now.cells r
        → 6 * result.visits ≤ r.bits + 5 }
    ensures steps { steps.new ≡ steps.old + result.visits }
{
    match DirectWord::read(words[key.head(direct_bits)]) {
        DirectWord::Hop(hop) => Found { hop, visits: 0 },
        DirectWord::Node(root) => find_below(nodes, leaves, root, key, direct_bits, steps),
    }
}

/// The bits of an address as the first of 128.
#[tactic(auto, using(crate::proofs::Filled::key_is, crate::proofs::Filled::at_most_128))]
pub fn key_of(addr: &Addr) -> u128
    ensures bits { address (width addr.now.family) result ≡ (addr_as addr.now).bits }
    ensures key { result ≡ key_as addr.now }
{
    addr.bits << (128 - addr.family.width())
}

/// The answer at an address.
pub(crate) fn find_addr<L: Ledger>(
    words: &[u32],
    nodes: &Arena<Node>,
    leaves: &Arena<u16>,
    direct_bits: u8,
    addr: &Addr,
    steps: &mut Steps<L>,
) -> Found
    requires most { direct_bits < 32 }
    requires whole { IsWhole direct_bits words.now nodes.now.cells leaves.now.cells }
    requires nodes_sized { IsSized nodes.now }
    requires leaves_sized { IsSized leaves.now }
    ensures hop { (r : Region)
        → StandsWhole direct_bits words.now nodes.now.cells leaves.now.cells r
        → direct_bits + r.bits ≡ width addr.now.family
        → result.hop.0 ≡ r.answers (addr_as addr.now).bits }
    ensures visits { (r : Region)
        → StandsWhole direct_bits words.now nodes.now.cells leaves.now.cells r
        → direct_bits + r.bits ≡ width addr.now.family
        → result.visits ≡ trie_visits direct_bits r.strides r.bits r.answers
        (addr_as addr.now).bits }
    ensures few { (r : Region)
        → StandsWhole direct_bits words.now nodes.now.cells leaves.now.cells r
        → 6 * result.visits ≤ r.bits + 5 }
    ensures steps { steps.new ≡ steps.old + result.visits }
{
    match addr.family {
        Family::V4 => find(words, nodes, leaves, direct_bits, addr.bits as u32, steps),
        Family::V6 => find(words, nodes, leaves, direct_bits, addr.bits, steps),
    }
}
