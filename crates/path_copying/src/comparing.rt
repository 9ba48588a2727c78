//! Whether a region's answers are those that a node stands for.

ghost use Rattle.std.specs.Prelude.{◌≡◌, ℕ, ◌-◌, ◌<◌, ◌≤◌, ◌↔◌, IsTrue, Bool, List};
ghost use Rattle.buddy_arena.specs.Space.{IsSized};
ghost use Rattle.poptrie_build.specs.Build.{StandsIn};
ghost use Rattle.poptrie_build.specs.Strides as strides;
ghost use Rattle.path_copying.specs.Alike.{SameAnswers};
ghost use Rattle.path_copying.specs.Ways.{bits_left, IsOldNode, IsOldChild};

use crate::way::Way;
use buddy_arena::Arena;
use fib_addr::Region;
use poptrie_build::{Node, ask, descend, rank};

/// Whether every address of the region gets what it gets from the node: it ends at the first slot where two differ. What is
/// below the slots beside the way isn't read.
#[cycle(compares)]
pub fn is_same<R: Region>(
    region: &R,
    way: &Way,
    node: &Node,
    nodes: &Arena<Node>,
    leaves: &Arena<u16>,
) -> bool
    requires way { way.now.bits ≡ R.bits region.now }
    requires nodes_sized { IsSized nodes.now }
    requires leaves_sized { IsSized leaves.now }
    requires node { IsOldNode nodes.now.cells leaves.now.cells node.now (bits_left way.now) (R.bits
        region.now) (R.answers region.now) }
    ensures alike { (k : ℕ) (N L : ℕ → Bool) (g : List Bool → ℕ)
        → StandsIn k nodes.now.cells N leaves.now.cells L node.now (R.bits region.now) g
        → IsTrue result ↔ SameAnswers (R.bits region.now) (R.answers region.now) g }
{
    let mut kinds = [None; 64];
    ask(region, 6, &mut kinds);
    for slot in 0..64u8 {
        let is_leaf = (node.vector >> slot) & 1 == 0;
        match kinds[usize::from(slot)] {
            Some(hop) => {
                if !is_leaf {
                    return false;
                }
                if leaves.read(node.base0 + rank(node.leafvec, slot) - 1) != hop {
                    return false;
                }
            }
            None => {
                if is_leaf {
                    return false;
                }
                let child = nodes.read(node.base1 + rank(node.vector, slot) - 1);
                if !is_child_same(region, way, slot, &child, nodes, leaves) {
                    return false;
                }
            }
        }
    }
    true
}

/// Whether every address of the region's slot gets what it gets from the child: so it is if the slot is beside the way.
#[cycle(compares)]
pub(crate) fn is_child_same<R: Region>(
    region: &R,
    way: &Way,
    slot: u8,
    child: &Node,
    nodes: &Arena<Node>,
    leaves: &Arena<u16>,
) -> bool
    requires slot { slot < 64 }
    requires fits { 6 ≤ R.bits region.now }
    requires way { way.now.bits ≡ R.bits region.now }
    requires nodes_sized { IsSized nodes.now }
    requires leaves_sized { IsSized leaves.now }
    requires child { IsOldChild nodes.now.cells leaves.now.cells child.now slot (bits_left way.now)
        (R.bits region.now) (R.answers region.now) }
    ensures alike { (k : ℕ) (N L : ℕ → Bool) (g : List Bool → ℕ)
        → StandsIn k nodes.now.cells N leaves.now.cells L child.now (R.bits region.now - 6) g
        → IsTrue result ↔ SameAnswers (R.bits region.now - 6) (strides.slot (R.bits region.now)
        (R.answers region.now) slot) g }
{
    if !way.meets(slot) {
        return true;
    }
    is_same(
        &descend(region, slot, 6),
        &way.below(6),
        child,
        nodes,
        leaves,
    )
}
