//! All direct words of a trie with their nodes, or what they need if that is too much.

ghost use Rattle.std.specs.Prelude.{◌≡◌, ℕ, ◌+◌, ◌-◌, ◌*◌, ◌^◌, ◌≤◌, OnOk, IfErr, OnErr, length, replicate};
ghost use Rattle.buddy_arena.specs.Space.{IsSized, empty};
ghost use Rattle.poptrie_build.specs.Need.{trie_nodes, trie_leaves};
ghost use Rattle.poptrie_build.specs.Stands.{TrieStands};
ghost use Rattle.buddy_arena.specs.Places.{count_free, is_out};
ghost use Rattle.buddy_arena.specs.Arrays.{AreApart};
ghost use Rattle.poptrie_build.specs.Arrays.{word_arrays, word_leaf_arrays};
ghost use Rattle.poptrie_build.specs.Tries.{IsTooMuch};

use crate::counts::count_words;
use crate::direct::fill_words;
use crate::direct_word::HOP;
use crate::node::Node;
use buddy_arena::Arena;
use fib_addr::Region;
use thiserror::Error;

/// The places of an arena are fewer than what a trie needs.
#[derive(Clone, Copy, Debug, PartialEq, Eq, Error)]
#[error("arena {arena} needs {need} of {have}")]
pub struct TrieFull {
    /// 0 is the nodes' arena, 1 the leaves'.
    pub arena: u8,
    /// The need, at most 2^64 - 1.
    pub need: u64,
    /// How many places there are.
    pub have: u64,
}

/// Sets each direct word to that of no hop.
fn clear_words(words: &mut [u32])
    ensures { words.new ≡ replicate (length words.old) 2147483648 }
{
    for word in words.iter_mut() {
        *word = HOP;
    }
}

/// Takes all places back, and lets no address have a hop, for those who keep a trie's parts themselves.
pub fn clear_all(words: &mut [u32], nodes: &mut Arena<Node>, leaves: &mut Arena<u16>)
    ensures words { words.new ≡ replicate (length words.old) 2147483648 }
    ensures nodes { nodes.new ≡ empty nodes.old.order nodes.old.fill }
    ensures leaves { leaves.new ≡ empty leaves.old.order leaves.old.fill }
{
    clear_words(words);
    nodes.clear();
    leaves.clear();
}

/// Builds the trie of a region anew, in arenas that are cleared first; if it is refused, all is cleared. It is `Trie::fill` for
/// those who keep a trie's parts themselves.
///
/// # Errors
///
/// It needs more nodes than there is room for, or else more leaves.
pub fn fill_all<R: Region>(
    region: &R,
    direct_bits: u8,
    words: &mut [u32],
    nodes: &mut Arena<Node>,
    leaves: &mut Arena<u16>,
) -> Result<(), TrieFull>
    requires many { length words.old ≡ 2 ^ direct_bits }
    requires some { direct_bits ≤ R.bits region.now }
    requires nodes_sized { IsSized nodes.old }
    requires leaves_sized { IsSized leaves.old }
    ensures nodes_sized { IsSized nodes.new }
    ensures leaves_sized { IsSized leaves.new }
    ensures orders { (nodes.new.order ≡ nodes.old.order) × (leaves.new.order ≡ leaves.old.order) }
    ensures words { OnOk result ((k : ℕ) → R.bits region.now - direct_bits ≤ 6 * k
        → TrieStands direct_bits words.new k nodes.new.cells leaves.new.cells
        (R.bits region.now - direct_bits) (R.answers region.now)) }
    ensures nodes_apart { OnOk result ((k : ℕ)
        → AreApart (is_out nodes.new.free) (word_arrays k nodes.new.cells words.new)) }
    ensures leaves_apart { OnOk result ((k : ℕ)
        → AreApart (is_out leaves.new.free) (word_leaf_arrays k nodes.new.cells words.new)) }
    ensures nodes { OnOk result ((k : ℕ) → R.bits region.now - direct_bits ≤ 6 * k
        → count_free nodes.new + trie_nodes direct_bits k (R.bits region.now - direct_bits)
        (R.answers region.now) ≡ 2 ^ nodes.old.order) }
    ensures leaves { OnOk result ((k : ℕ) → R.bits region.now - direct_bits ≤ 6 * k
        → count_free leaves.new + trie_leaves direct_bits k (R.bits region.now - direct_bits)
        (R.answers region.now) ≡ 2 ^ leaves.old.order) }
    ensures full { IfErr result (λ e. (k : ℕ) → R.bits region.now - direct_bits ≤ 6 * k
        → IsTooMuch e.arena e.need e.have (trie_nodes direct_bits k
        (R.bits region.now - direct_bits) (R.answers region.now)) (trie_leaves direct_bits k
        (R.bits region.now - direct_bits) (R.answers region.now)) (2 ^ nodes.old.order)
        (2 ^ leaves.old.order)) }
    ensures cleared_words { OnErr result (words.new ≡ replicate (length words.old) 2147483648) }
    ensures cleared_nodes { OnErr result (nodes.new ≡ empty nodes.old.order nodes.old.fill) }
    ensures cleared_leaves { OnErr result (leaves.new ≡ empty leaves.old.order leaves.old.fill) }
{
    clear_all(words, nodes, leaves);
    if fill_words(region, direct_bits, words, nodes, leaves) {
        return Ok(());
    }
    clear_all(words, nodes, leaves);
    let needs = count_words(region, direct_bits);
    let have = nodes.places();
    if needs.nodes > have {
        return Err(TrieFull {
            arena: 0,
            need: needs.nodes,
            have,
        });
    }
    Err(TrieFull {
        arena: 1,
        need: needs.leaves,
        have: leaves.places(),
    })
}
