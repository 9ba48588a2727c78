//! A node of 64 slots.
ghost use Rattle.std.specs.Prelude.{◌≡◌, ◌+◌, ◌<◌};
ghost use Rattle.poptrie_build.specs.Bits.{rank_of};

/// A slot is a node if its bit of `vector` is set, else a leaf.
#[derive(Clone, Copy)]
pub struct Node {
    pub vector: u64,
    pub leafvec: u64,
    pub base0: u32,
    pub base1: u32,
}

impl Node {
    ghost use Rattle.std.specs.Prelude.{◌≡◌};
    ghost use Rattle.poptrie_build.specs.Stands.{blank};

    /// A node with no slot set.
    pub fn blank() -> Node
        ensures { result ≡ blank }
    {
        Node {
            vector: 0,
            leafvec: 0,
            base0: 0,
            base1: 0,
        }
    }
}

#[tactic(auto, using(crate::proofs::Bits::rank_shl))]
/// How many of the slots up to this one have their bit set.
pub fn rank(vector: u64, slot: u8) -> u32
    requires { slot < 64 }
    ensures { result ≡ rank_of vector (slot + 1) }
{
    (vector << (63 - slot)).count_ones()
}
