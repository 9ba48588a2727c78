//! The vectors of a node from what its slots are.

ghost use Rattle.std.specs.Prelude.{◌≡◌, ℕ, ◌+◌, ◌<◌, Option, None, length};
ghost use Rattle.poptrie_build.specs.Stands.{IsCanonical};
ghost use Rattle.poptrie_build.specs.Need.{children, runs};
ghost use Rattle.poptrie_build.specs.Making.{IsSoFar, slot_kind};

/// The vectors of a node, how many children it has, and how many leaves.
#[derive(Clone, Copy)]
pub struct Vectors {
    pub vector: u64,
    pub leafvec: u64,
    pub nodes: u32,
    pub leaves: u32,
}

/// The vectors of the slots so far, and the last leaf.
#[derive(Clone, Copy)]
pub(crate) struct Partial {
    pub(crate) vector: u64,
    pub(crate) leafvec: u64,
    pub(crate) last: Option<u16>,
}

/// The vectors with one more slot.
fn with_slot(so_far: Partial, slot: u8, kind: Option<u16>) -> Partial
    requires { slot < 64 }
    ensures { (g : ℕ → Option ℕ) → kind ≡ g slot → IsSoFar so_far g slot
        → IsSoFar result g (slot + 1) }
{
    let Partial {
        vector,
        leafvec,
        last,
    } = so_far;
    match kind {
        None => Partial {
            vector: vector | 1 << slot,
            leafvec,
            last,
        },
        Some(hop) => match last {
            None => Partial {
                vector,
                leafvec: leafvec | 1 << slot,
                last: Some(hop),
            },
            Some(before) => {
                if hop == before {
                    so_far
                } else {
                    Partial {
                        vector,
                        leafvec: leafvec | 1 << slot,
                        last: Some(hop),
                    }
                }
            }
        },
    }
}

/// The canonical vectors of a node whose slots are these: the hop of a leaf, or nothing if the slot has a node.
pub fn make_vectors(kinds: &[Option<u16>]) -> Vectors
    requires { length kinds.now ≡ 64 }
    ensures canonical { IsCanonical result.vector result.leafvec (slot_kind kinds.now) }
    ensures nodes { result.nodes ≡ children (slot_kind kinds.now) }
    ensures leaves { result.leaves ≡ runs (slot_kind kinds.now) }
{
    let mut so_far = Partial {
        vector: 0,
        leafvec: 0,
        last: None,
    };
    for slot in 0..64u8 {
        so_far = with_slot(so_far, slot, kinds[usize::from(slot)]);
    }
    Vectors {
        vector: so_far.vector,
        leafvec: so_far.leafvec,
        nodes: so_far.vector.count_ones(),
        leaves: so_far.leafvec.count_ones(),
    }
}
