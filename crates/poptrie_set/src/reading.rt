//! The reads of a paused lookup.

ghost use Rattle.std.specs.Prelude.{ℕ, ◌<◌, List, Bool};
ghost use Rattle.buddy_arena.specs.Space.{IsSized};
ghost use Rattle.poptrie_set.specs.Reading.{ReadsOn, CanRead, LeadsOn, IsKeyOf};

use buddy_arena::Arena;
use fib_addr::Hop;
use poptrie_build::{Node, rank};

/// Where a lookup stands after what it read.
#[derive(Clone, Copy, Debug, PartialEq, Eq)]
pub enum At {
    /// It leads on to this node.
    Node {
        /// The node's place.
        node: u32,
        /// How many nodes stand before it on the way.
        stride: u8,
    },
    /// It leads to this answer.
    Answer(Hop),
}

/// Visits one node, of a stride, for a key whose next bits are its most significant ones.
pub(crate) fn visit(
    nodes: &Arena<Node>,
    leaves: &Arena<u16>,
    node: u32,
    stride: u8,
    key: u128,
) -> At
    requires nodes_sized { IsSized nodes.now }
    requires leaves_sized { IsSized leaves.now }
    requires stride { stride < 255 }
    requires can { (bits : List Bool) × IsKeyOf key bits
        × CanRead nodes.now.cells leaves.now.cells node bits }
    ensures leads { (bits : List Bool) (left h : ℕ) (N L : ℕ → Bool) → IsKeyOf key bits
        → ReadsOn left nodes.now.cells N leaves.now.cells L node bits h
        → LeadsOn result left nodes.now.cells N leaves.now.cells L stride bits h }
{
    let at = nodes.read(node);
    let slot = (key >> 122) as u8;
    if (at.vector >> slot) & 1 == 0 {
        let hop = leaves.read(at.base0 + rank(at.leafvec, slot) - 1);
        return At::Answer(Hop(hop));
    }
    At::Node {
        node: at.base1 + rank(at.vector, slot) - 1,
        stride: stride + 1,
    }
}
