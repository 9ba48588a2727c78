//! Why an update isn't made ready.

ghost use Rattle.std.specs.Prelude.{◌≡◌, ℕ, ◌-◌, ◌*◌, ◌^◌, ◌≤◌};
ghost use Rattle.buddy_arena.specs.Space.{IsSized};
ghost use Rattle.poptrie_build.specs.Need.{trie_nodes, trie_leaves};
ghost use Rattle.poptrie_set.specs.Reasons.{Explains};

use buddy_arena::{Arena, Full};
use fib_addr::Region;
use path_copying::Refusal;
use poptrie_build::{Node, TrieFull, count_words};
use thiserror::Error;

/// Why an update isn't made ready.
#[derive(Clone, Copy, Debug, PartialEq, Eq, Error)]
pub enum NotReady {
    /// Out of memory for the lists of stores and blocks.
    #[error("no memory")]
    Memory,
    /// The new table's trie needs more places than an arena has.
    #[error("the table needs more places than there are")]
    TooMuch(TrieFull),
    /// It would fit, but beside what is in use no block of nodes is free that is large enough.
    #[error("no block of nodes is free")]
    NodesOut(Full),
    /// It would fit, but beside what is in use no block of leaves is free that is large enough.
    #[error("no block of leaves is free")]
    LeavesOut(Full),
}

/// Why the trie of a region is not made beside another one, if a block or memory was refused.
pub(crate) fn reason<R: Region>(
    region: &R,
    direct_bits: u8,
    refusal: Refusal,
    nodes: &Arena<Node>,
    leaves: &Arena<u16>,
) -> NotReady
    requires some { direct_bits ≤ R.bits region.now }
    requires nodes_sized { IsSized nodes.now }
    requires leaves_sized { IsSized leaves.now }
    ensures { (k : ℕ) → R.bits region.now - direct_bits ≤ 6 * k → Explains result refusal
        (trie_nodes direct_bits k (R.bits region.now - direct_bits) (R.answers region.now))
        (trie_leaves direct_bits k (R.bits region.now - direct_bits) (R.answers region.now))
        (2 ^ nodes.now.order) (2 ^ leaves.now.order) }
{
    let out = match refusal {
        Refusal::Memory => return NotReady::Memory,
        Refusal::Nodes(full) => NotReady::NodesOut(full),
        Refusal::Leaves(full) => NotReady::LeavesOut(full),
    };
    let needs = count_words(region, direct_bits);
    if needs.nodes > nodes.places() {
        return NotReady::TooMuch(TrieFull {
            arena: 0,
            need: needs.nodes,
            have: nodes.places(),
        });
    }
    if needs.leaves > leaves.places() {
        return NotReady::TooMuch(TrieFull {
            arena: 1,
            need: needs.leaves,
            have: leaves.places(),
        });
    }
    out
}
