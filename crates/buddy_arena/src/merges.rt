//! Giving back: a block merges with its buddy as long as that is free.

ghost use Rattle.std.specs.Prelude.{◌≡◌, ℕ, suc, ◌+◌, ◌-◌, ◌*◌, ◌/◌, ◌^◌, ◌<◌, ◌≤◌, true, false, ◌++◌};
ghost use Rattle.buddy_arena.specs.Space.{marked, Aligned, IsOut, free_count, Apart};
ghost use Rattle.buddy_arena.specs.Masks.{ord, whole_arena, free_of, IsMaskTree, AreRight, free_parts};

use crate::arena::Block;
use crate::region::{make_bare, make_whole, mask_of, places_of, whole_mask};
use crate::word::span;

/// Puts a region together from its halves, which merge if both are free as a whole.
fn rejoin(root: &mut u64, low: &mut [u64], high: &mut [u64], at: u8, base: u8)
    requires right { IsMaskTree base at low.old × IsMaskTree base at high.old }
    requires few { (base ≤ 6) × (base + at < 30) }
    ensures right { AreRight base at root.new low.new high.new }
    ensures free { free_parts base at root.new low.new high.new
        ≡ free_of base at low.old ++ free_of base at high.old }
{
    let whole = whole_mask(base + at);
    let x = mask_of(low, at, base);
    let y = mask_of(high, at, base);
    if x == whole && y == whole {
        make_bare(low, at, base);
        make_bare(high, at, base);
        *root = whole_mask(base + at + 1);
        return;
    }
    *root = x | y;
}

/// Gives a block of a region back. It merges with its buddy as long as that is free.
#[cycle(restore)]
fn restore(s: &mut [u64], height: u8, base: u8, place: u32, k: u8)
    requires right { IsMaskTree base height s.old }
    requires orders { (k ≤ base + height) × (base ≤ 6) × (base + height < 31) }
    requires aligned { Aligned k place }
    requires within { place + 2 ^ k ≤ 2 ^ ord base height }
    requires out { marked place (2 ^ k) false (free_of base height s.old)
        ≡ free_of base height s.old }
    ensures right { IsMaskTree base height s.new }
    ensures free { free_of base height s.new
        ≡ marked place (2 ^ k) true (free_of base height s.old) }
{
    if k == base + height {
        make_whole(s, height, base);
        return;
    }
    if height == 0 {
        let word = s[0];
        s[0] = word | span(place, k);
        return;
    }
    let half = s.len() / 2;
    let (head, rest) = s.split_at_mut(1);
    let (low, high) = rest.split_at_mut(half);
    restore_parts(&mut head[0], low, high, height - 1, base, place, k)
}

#[cycle(restore)]
fn restore_parts(
    root: &mut u64,
    low: &mut [u64],
    high: &mut [u64],
    at: u8,
    base: u8,
    place: u32,
    k: u8,
)
    requires right { AreRight base at root.old low.old high.old }
    requires orders { (k ≤ base + at) × (base ≤ 6) × (base + at < 30) }
    requires aligned { Aligned k place }
    requires within { place + 2 ^ k ≤ 2 ^ suc (ord base at) }
    requires out { marked place (2 ^ k) false (free_parts base at root.old low.old high.old)
        ≡ free_parts base at root.old low.old high.old }
    ensures right { AreRight base at root.new low.new high.new }
    ensures free { free_parts base at root.new low.new high.new
        ≡ marked place (2 ^ k) true (free_parts base at root.old low.old high.old) }
{
    let half = places_of(base + at);
    if place < half {
        restore(low, at, base, place, k);
        rejoin(root, low, high, at, base);
        return;
    }
    restore(high, at, base, place - half, k);
    rejoin(root, low, high, at, base)
}

pub(crate) fn give_to(masks: &mut [u64], height: u8, base: u8, block: Block)
    requires right { IsMaskTree base height masks.old }
    requires few { (base ≤ 6) × (base + height < 31) }
    requires out { IsOut (ord base height) (free_of base height masks.old) block.place block.order }
    ensures right { IsMaskTree base height masks.new }
    ensures free { free_of base height masks.new
        ≡ marked block.place (2 ^ block.order) true (free_of base height masks.old) }
    ensures still { (p k : ℕ) → IsOut (ord base height) (free_of base height masks.old) p k
        → Apart p k block.place block.order
        → IsOut (ord base height) (free_of base height masks.new) p k }
    ensures total { free_count (free_of base height masks.new)
        ≡ free_count (free_of base height masks.old) + 2 ^ block.order }
    ensures small { free_count (free_of base height masks.new) < 2 ^ 32 }
    ensures few { block.order < 31 }
{
    restore(masks, height, base, block.place, block.order);
}
