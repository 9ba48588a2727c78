//! Taking: the lowest free block of the least order that is large enough is split, its lower half split on, down to the order
//! that is wanted; the upper halves stay free.

ghost use Rattle.std.specs.Prelude.{◌≡◌, ℕ, suc, ◌+◌, ◌-◌, ◌*◌, ◌/◌, ◌^◌, ◌<◌, ◌≤◌, true, false, OnErr, IfOk, IfErr};
ghost use Rattle.buddy_arena.specs.Space.{blocks, has_order, first_block, marked, NoneFrom, IsGreatest, IsOut, TakesBlock, free_count, OneEach, Apart};
ghost use Rattle.buddy_arena.specs.Masks.{ord, whole_arena, free_of, IsMaskTree, AreRight, free_parts};

use crate::arena::{Block, Full};
use crate::region::{largest_in, make_whole, mask_of, places_of, whole_mask};
use crate::word::{first_place, span};

/// Takes the lower part of order `k` of the lowest free block of order `m` in a region.
#[cycle(carve)]
fn carve(s: &mut [u64], height: u8, base: u8, m: u8, k: u8) -> u32
    requires right { IsMaskTree base height s.old }
    requires orders { (k ≤ m) × (base ≤ 6) × (base + height < 31) }
    requires has { has_order m (blocks (ord base height) (free_of base height s.old)) ≡ true }
    ensures right { IsMaskTree base height s.new }
    ensures place { result ≡ first_block m (blocks (ord base height) (free_of base height s.old)) }
    ensures within { result + 2 ^ k ≤ 2 ^ ord base height }
    ensures free { free_of base height s.new
        ≡ marked result (2 ^ k) false (free_of base height s.old) }
{
    if height == 0 {
        let word = s[0];
        let place = first_place(word, base, m);
        let taken = span(place, k);
        s[0] = word ^ (word & taken);
        return place;
    }
    let half = s.len() / 2;
    let (head, rest) = s.split_at_mut(1);
    let (low, high) = rest.split_at_mut(half);
    carve_parts(&mut head[0], low, high, height - 1, base, m, k)
}

#[cycle(carve)]
fn carve_parts(
    root: &mut u64,
    low: &mut [u64],
    high: &mut [u64],
    at: u8,
    base: u8,
    m: u8,
    k: u8,
) -> u32
    requires right { AreRight base at root.old low.old high.old }
    requires orders { (k ≤ m) × (base ≤ 6) × (base + at < 30) }
    requires has { has_order m (blocks (suc (ord base at))
        (free_parts base at root.old low.old high.old)) ≡ true }
    ensures right { AreRight base at root.new low.new high.new }
    ensures place { result ≡ first_block m (blocks (suc (ord base at))
        (free_parts base at root.old low.old high.old)) }
    ensures within { result + 2 ^ k ≤ 2 ^ suc (ord base at) }
    ensures free { free_parts base at root.new low.new high.new
        ≡ marked result (2 ^ k) false (free_parts base at root.old low.old high.old) }
{
    let whole = whole_mask(base + at + 1);
    if *root == whole {
        if k == base + at + 1 {
            *root = 0;
            return 0;
        }
        make_whole(low, at, base);
        make_whole(high, at, base);
        let place = carve(low, at, base, base + at, k);
        let x = mask_of(low, at, base);
        let y = mask_of(high, at, base);
        *root = x | y;
        return place;
    }
    let first = mask_of(low, at, base);
    let second = mask_of(high, at, base);
    if (first >> m) & 1 == 1 {
        let place = carve(low, at, base, m, k);
        let left = mask_of(low, at, base);
        *root = left | second;
        return place;
    }
    let place = carve(high, at, base, m, k);
    let right = mask_of(high, at, base);
    *root = first | right;
    let half = places_of(base + at);
    half + place
}

pub(crate) fn take_from(masks: &mut [u64], height: u8, base: u8, order: u8) -> Result<Block, Full>
    requires right { IsMaskTree base height masks.old }
    requires few { (base ≤ 6) × (base + height < 31) }
    ensures right { IsMaskTree base height masks.new }
    ensures ok { IfOk result (λ d. (d.order ≡ order)
        × TakesBlock (ord base height) (free_of base height masks.old)
        (free_of base height masks.new) d.place order) }
    ensures out { IfOk result (λ d. IsOut (ord base height)
        (free_of base height masks.new) d.place order) }
    ensures full { IfErr result (λ e. (e.order ≡ order)
        × NoneFrom order (blocks (ord base height) (free_of base height masks.old))
        × IsGreatest e.largest (blocks (ord base height) (free_of base height masks.old))) }
    ensures err { OnErr result (masks.new ≡ masks.old) }
    ensures total { IfOk result (λ d. (order < 31)
        × (free_count (free_of base height masks.new) + 2 ^ order
        ≡ free_count (free_of base height masks.old))) }
    ensures fresh { OneEach (blocks (ord base height) (free_of base height masks.old))
        → OneEach (blocks (ord base height) (free_of base height masks.new)) }
    ensures few { OnErr result (OneEach (blocks (ord base height)
        (free_of base height masks.old)) → free_count (free_of base height masks.old) < 2 ^ order) }
    ensures apart { IfOk result (λ d. (p i : ℕ)
        → IsOut (ord base height) (free_of base height masks.old) p i
        → Apart p i d.place order) }
    ensures still { (p i : ℕ) → IsOut (ord base height) (free_of base height masks.old) p i
        → IsOut (ord base height) (free_of base height masks.new) p i }
{
    if order > base + height {
        let largest = largest_in(masks, height, base);
        return Err(Full { order, largest });
    }
    let above = mask_of(masks, height, base) >> order;
    if above == 0 {
        let largest = largest_in(masks, height, base);
        return Err(Full { order, largest });
    }
    let m = order + above.trailing_zeros() as u8;
    let place = carve(masks, height, base, m, order);
    Ok(Block { place, order })
}
