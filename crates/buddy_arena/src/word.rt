//! Words of up to 64 places, a bit each, set if the place is free.
//!
//! A word of 2 ^ k places is a buddy system by itself: what blocks are free in it is read by halves.

ghost use Rattle.std.specs.Prelude.{◌≡◌, ℕ, ◌+◌, ◌-◌, ◌*◌, ◌/◌, ◌%◌, ◌^◌, ◌<◌, ◌≤◌, true, nat_eq};
ghost use Rattle.std.specs.Int.{bit_at};
ghost use Rattle.buddy_arena.specs.Space.{blocks, has_order, first_block};
ghost use Rattle.buddy_arena.specs.Words.{word_free};
ghost use Rattle.buddy_arena.specs.Masks.{orders_of};

/// The word of 2 ^ k places that are all free.
#[tactic(auto, using(crate::proofs::Words::full_is, crate::proofs::Words::small_shift))]
pub(crate) fn ones(k: u8) -> u64
    requires { k ≤ 6 }
    ensures { result ≡ 2 ^ (2 ^ k) - 1 }
{
    u64::MAX >> (64 - (1u32 << k))
}

/// The lower half of a word of twice 2 ^ k places.
#[tactic(auto, using(crate::proofs::Words::low_is))]
fn low_half(w: u64, k: u8) -> u64
    requires { k ≤ 6 }
    ensures { result ≡ w % 2 ^ (2 ^ k) }
{
    w & ones(k)
}

/// The upper half.
#[tactic(auto, using(crate::proofs::Words::high_is, crate::proofs::Words::half_shift))]
fn high_half(w: u64, k: u8) -> u64
    requires { k < 6 }
    ensures { result ≡ w / 2 ^ (2 ^ k) }
{
    w >> (1u32 << k)
}

/// The orders of the free blocks of a word of four places, read from a word of 16 masks.
#[tactic(auto, using(crate::proofs::Words::of_four))]
fn orders_of_four(w: u64) -> u64
    requires { w < 16 }
    ensures { result ≡ orders_of (blocks 2 (word_free 2 w)) }
{
    (0x8da649649448 >> (3 * w)) & 7
}

/// The orders of the free blocks of a word of 2 ^ k places, a bit each.
pub(crate) fn orders(w: u64, k: u8) -> u64
    requires few { k ≤ 6 }
    requires fits { w < 2 ^ (2 ^ k) }
    ensures { (m : ℕ) → nat_eq (bit_at result m) 1 ≡ has_order m (blocks k (word_free k w)) }
{
    if w == 0 {
        return 0;
    }
    if w == ones(k) {
        return 1 << k;
    }
    if k == 2 {
        return orders_of_four(w);
    }
    if k == 3 {
        let low = low_half(w, 2);
        let high = high_half(w, 2);
        return orders_of_four(low) | orders_of_four(high);
    }
    let j = k - 1;
    orders(low_half(w, j), j) | orders(high_half(w, j), j)
}

/// The place of the first free block of order m.
pub(crate) fn first_place(w: u64, k: u8, m: u8) -> u32
    requires few { k ≤ 6 }
    requires fits { w < 2 ^ (2 ^ k) }
    requires small { m ≤ 6 }
    requires there { has_order m (blocks k (word_free k w)) ≡ true }
    ensures place { result ≡ first_block m (blocks k (word_free k w)) }
    ensures within { result < 2 ^ k }
{
    if w == ones(k) {
        return 0;
    }
    let j = k - 1;
    let low = low_half(w, j);
    if (orders(low, j) >> m) & 1 == 1 {
        return first_place(low, j, m);
    }
    (1 << j) + first_place(high_half(w, j), j, m)
}

/// The bits of 2 ^ k places from a place on.
#[tactic(auto, using(crate::proofs::Words::span_is, crate::proofs::Words::place_small))]
pub(crate) fn span(place: u32, k: u8) -> u64
    requires few { k ≤ 6 }
    requires within { place + 2 ^ k ≤ 64 }
    ensures { result ≡ 2 ^ (place + 2 ^ k) - 2 ^ place }
{
    ones(k) << place
}
