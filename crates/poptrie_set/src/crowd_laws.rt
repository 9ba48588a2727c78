//! How crowded an arena is if a block that an update asks for is refused.
//!
//! No free block is then as large as the one that is asked for, which is of 64 places at most: so of each 64 places one is out at least.
//! What is out is the present version's blocks, those that the update took, and those that are retired and held by a lookup that
//! started before; and each of these is bounded by what a version needs. So the arena has at most 64 places for each that the
//! versions since that lookup's start needed, and the one after the update will need.

ghost use Rattle.std.specs.Prelude.{◌≡◌, ◌≤◌, ◌+◌, ◌*◌, ◌^◌, ℕ, List, [], drop};
ghost use Rattle.table_model.specs.Entries.{Entries};
ghost use Rattle.buddy_arena.specs.Space.{Space};
ghost use Rattle.buddy_arena.specs.declared.arena.Full.{Full};
ghost use Rattle.poptrie_build.specs.declared.node.Node.{Node};
ghost use Rattle.poptrie_build.specs.Tries.{node_need, leaf_need};
ghost use Rattle.path_copying.specs.Asks.{RunsOut};
ghost use Rattle.path_copying.specs.declared.blocks.Refusal.TheVariants as refusal;
ghost use Rattle.poptrie_set.specs.Lives.{Seen, ShowsIn};
ghost use Rattle.poptrie_set.specs.Past.{PastIn};
ghost use Rattle.poptrie_set.specs.Prepares.{asks_of, GaveBack};
ghost use Rattle.poptrie_set.specs.Crowds.{IsStill, sum};

/// Of a set that shows some entries and has nothing pending. If a block that the update to other entries asks for is refused
/// once what was retired by a time was given back, its arena has at most 64 places for each that the versions since that time
/// needed and the new one will need.
pub fn crowded_law()
    ensures nodes { (s : Seen) (L M : Entries) (ns ls : List ℕ) (since : ℕ) (nodes : Space Node) (leaves : Space ℕ) (e : Full) → IsStill s → ShowsIn s L L → PastIn s ns ls → GaveBack since s nodes leaves → RunsOut nodes.order leaves.order (asks_of s.family s.direct_bits L M) (nodes.free, leaves.free) (refusal.Nodes e) → 2 ^ s.nodes.space.order ≤ 64 * (sum (drop since ns) + node_need s.family s.direct_bits L + node_need s.family s.direct_bits M) }
    ensures leaves { (s : Seen) (L M : Entries) (ns ls : List ℕ) (since : ℕ) (nodes : Space Node) (leaves : Space ℕ) (e : Full) → IsStill s → ShowsIn s L L → PastIn s ns ls → GaveBack since s nodes leaves → RunsOut nodes.order leaves.order (asks_of s.family s.direct_bits L M) (nodes.free, leaves.free) (refusal.Leaves e) → 2 ^ s.leaves.space.order ≤ 64 * (sum (drop since ls) + leaf_need s.family s.direct_bits L + leaf_need s.family s.direct_bits M) }
{}
