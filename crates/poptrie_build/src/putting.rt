//! The leaves of a node, written to their places.

ghost use Rattle.std.specs.Prelude.{◌≡◌, ℕ, ◌+◌, ◌<◌, ◌≤◌, true, length};
ghost use Rattle.buddy_arena.specs.Space.{IsSized};
ghost use Rattle.buddy_arena.specs.Places.{is_out};
ghost use Rattle.poptrie_build.specs.Put.{PutsAll};

use buddy_arena::{Arena, put};

/// Writes the first `count` hops to places side by side from this one on.
pub(crate) fn put_leaves(leaves: &mut Arena<u16>, base: u32, hops: &[u16], count: u32)
    requires few { count ≤ length hops.now }
    requires within { base + count ≤ length leaves.old.cells }
    requires out { (i : ℕ) → i < count → is_out leaves.old.free (base + i) ≡ true }
    requires sized { IsSized leaves.old }
    ensures { PutsAll base count hops.now leaves.old leaves.new }
{
    for i in 0..count {
        put(leaves, base + i, hops[i as usize]);
    }
}
