//! The direct words of a region's slots, filled with their nodes.

ghost use Rattle.std.specs.Prelude.{◌≡◌, ℕ, ◌+◌, ◌-◌, ◌*◌, ◌^◌, ◌<◌, ◌≤◌, true, length, ◌∷◌, None, IfSome, IsSome};
ghost use Rattle.fib_addr.specs.Answers.{one_answer};
ghost use Rattle.buddy_arena.specs.Space.{IsSized};
ghost use Rattle.poptrie_build.specs.Stands.{blank, node_at};
ghost use Rattle.poptrie_build.specs.Need.{trie_nodes, trie_leaves};
ghost use Rattle.buddy_arena.specs.Places.{Keeps, is_out, count_free, IsFresh, since};
ghost use Rattle.poptrie_build.specs.Build.{WordIn, WordsIn};
ghost use Rattle.buddy_arena.specs.Arrays.{AreApart};
ghost use Rattle.poptrie_build.specs.Arrays.{node_arrays, leaf_arrays, word_arrays, word_leaf_arrays};

use crate::building::build_node;
use crate::direct_word::hop_word;
use crate::node::Node;
use buddy_arena::{Arena, put, take_places};
use fib_addr::Region;

/// Sets the direct words of a region's slots, of `depth` more bits, and builds their nodes; false if a block is refused. What
/// was out keeps what it holds.
pub(crate) fn fill_words<R: Region>(
    region: &R,
    depth: u8,
    words: &mut [u32],
    nodes: &mut Arena<Node>,
    leaves: &mut Arena<u16>,
) -> bool
    requires many { length words.old ≡ 2 ^ depth }
    requires some { depth ≤ R.bits region.now }
    requires nodes_sized { IsSized nodes.old }
    requires leaves_sized { IsSized leaves.old }
    ensures nodes_sized { IsSized nodes.new }
    ensures leaves_sized { IsSized leaves.new }
    ensures orders { (nodes.new.order ≡ nodes.old.order) × (leaves.new.order ≡ leaves.old.order) }
    ensures fills { (nodes.new.fill ≡ nodes.old.fill) × (leaves.new.fill ≡ leaves.old.fill) }
    ensures nodes { Keeps blank nodes.old.cells (is_out nodes.old.free) nodes.new.cells
        (is_out nodes.new.free) }
    ensures leaves { Keeps 0 leaves.old.cells (is_out leaves.old.free) leaves.new.cells
        (is_out leaves.new.free) }
    ensures stands { result ≡ true → (k : ℕ) → R.bits region.now - depth ≤ 6 * k →
        WordsIn depth words.new k nodes.new.cells
        (since (is_out nodes.old.free) (is_out nodes.new.free)) leaves.new.cells
        (since (is_out leaves.old.free) (is_out leaves.new.free)) (R.bits region.now - depth)
        (R.answers region.now) }
    ensures nodes_apart { result ≡ true → (k : ℕ)
        → AreApart (since (is_out nodes.old.free) (is_out nodes.new.free))
        (word_arrays k nodes.new.cells words.new) }
    ensures leaves_apart { result ≡ true → (k : ℕ)
        → AreApart (since (is_out leaves.old.free) (is_out leaves.new.free))
        (word_leaf_arrays k nodes.new.cells words.new) }
    ensures nodes_left { result ≡ true → (k : ℕ) → R.bits region.now - depth ≤ 6 * k
        → count_free nodes.new + trie_nodes depth k (R.bits region.now - depth)
        (R.answers region.now) ≡ count_free nodes.old }
    ensures leaves_left { result ≡ true → (k : ℕ) → R.bits region.now - depth ≤ 6 * k
        → count_free leaves.new + trie_leaves depth k (R.bits region.now - depth)
        (R.answers region.now) ≡ count_free leaves.old }
    ensures nodes_fresh { IsFresh nodes.old → IsFresh nodes.new }
    ensures leaves_fresh { IsFresh leaves.old → IsFresh leaves.new }
    ensures fits { (k : ℕ) → R.bits region.now - depth ≤ 6 * k → IsFresh nodes.old
        → IsFresh leaves.old → trie_nodes depth k (R.bits region.now - depth)
        (R.answers region.now) ≤ count_free nodes.old
        → trie_leaves depth k (R.bits region.now - depth) (R.answers region.now)
        ≤ count_free leaves.old → result ≡ true }
{
    match region.only() {
        Some(hop) => {
            let leaf = hop_word(hop);
            for word in words.iter_mut() {
                *word = leaf;
            }
            true
        }
        None => {
            if depth == 0 {
                return match node_word(region, nodes, leaves) {
                    Some(word) => {
                        words[0] = word;
                        true
                    }
                    None => false,
                };
            }
            let half = words.len() / 2;
            let (low, high) = words.split_at_mut(half);
            if !fill_words(&region.half(false), depth - 1, low, nodes, leaves) {
                return false;
            }
            fill_words(&region.half(true), depth - 1, high, nodes, leaves)
        }
    }
}

/// The place of a new node that stands for the region; nothing if a block is refused.
fn node_word<R: Region>(region: &R, nodes: &mut Arena<Node>, leaves: &mut Arena<u16>) -> Option<u32>
    requires mixed { one_answer (R.bits region.now) (R.answers region.now) ≡ None }
    requires nodes_sized { IsSized nodes.old }
    requires leaves_sized { IsSized leaves.old }
    ensures nodes_sized { IsSized nodes.new }
    ensures leaves_sized { IsSized leaves.new }
    ensures orders { (nodes.new.order ≡ nodes.old.order) × (leaves.new.order ≡ leaves.old.order) }
    ensures fills { (nodes.new.fill ≡ nodes.old.fill) × (leaves.new.fill ≡ leaves.old.fill) }
    ensures nodes { Keeps blank nodes.old.cells (is_out nodes.old.free) nodes.new.cells
        (is_out nodes.new.free) }
    ensures leaves { Keeps 0 leaves.old.cells (is_out leaves.old.free) leaves.new.cells
        (is_out leaves.new.free) }
    ensures stands { IfSome result (λ word. (k : ℕ) → R.bits region.now ≤ 6 * k →
        WordIn word k nodes.new.cells (since (is_out nodes.old.free)
        (is_out nodes.new.free)) leaves.new.cells
        (since (is_out leaves.old.free) (is_out leaves.new.free)) (R.bits region.now)
        (R.answers region.now)) }
    ensures small { IfSome result (λ word. word < 2 ^ 31) }
    ensures nodes_apart { IfSome result (λ word. (k : ℕ)
        → AreApart (since (is_out nodes.old.free) (is_out nodes.new.free))
        ((word, 1) ∷ node_arrays k nodes.new.cells (node_at nodes.new.cells word))) }
    ensures leaves_apart { IfSome result (λ word. (k : ℕ)
        → AreApart (since (is_out leaves.old.free) (is_out leaves.new.free))
        (leaf_arrays k nodes.new.cells (node_at nodes.new.cells word))) }
    ensures nodes_left { IfSome result (λ word. (k : ℕ) → R.bits region.now ≤ 6 * k
        → count_free nodes.new + trie_nodes 0 k (R.bits region.now) (R.answers region.now)
        ≡ count_free nodes.old) }
    ensures leaves_left { IfSome result (λ word. (k : ℕ) → R.bits region.now ≤ 6 * k
        → count_free leaves.new + trie_leaves 0 k (R.bits region.now) (R.answers region.now)
        ≡ count_free leaves.old) }
    ensures nodes_fresh { IsFresh nodes.old → IsFresh nodes.new }
    ensures leaves_fresh { IsFresh leaves.old → IsFresh leaves.new }
    ensures fits { (k : ℕ) → R.bits region.now ≤ 6 * k → IsFresh nodes.old → IsFresh leaves.old
        → trie_nodes 0 k (R.bits region.now) (R.answers region.now) ≤ count_free nodes.old
        → trie_leaves 0 k (R.bits region.now) (R.answers region.now) ≤ count_free leaves.old
        → IsSome result }
{
    let word = take_places(nodes, 1)?;
    let node = build_node(region, nodes, leaves)?;
    put(nodes, word, node);
    Some(word)
}
