//! Regions above the words: a region's first cell is the mask of its free blocks' orders, a bit each; the cells of its halves
//! follow, down to the words.
//!
//! If a region is free as a whole, and if nothing of it is, the cells of its halves say that nothing is free: so a
//! block of any size is taken or given by its own cell.

ghost use Rattle.std.specs.Prelude.{◌≡◌, ◌+◌, ◌-◌, ◌*◌, ◌/◌, ◌^◌, ◌<◌, ◌≤◌, true, false, IfOk, Option};
ghost use Rattle.std.proofs.Common.{replicate};
ghost use Rattle.buddy_arena.specs.Space.{blocks, IsGreatest, TakesBlock, free_count};
ghost use Rattle.buddy_arena.specs.Tops.{IsTopBelow};
ghost use Rattle.buddy_arena.specs.Masks.{ord, size, whole_arena, mask, free_of, IsMaskTree, AreRight, whole_cell};

use crate::word::{ones, orders};
use std::alloc::{AllocError, Global};

/// The mask of one order.
#[tactic(auto, using(crate::proofs::Steps::whole_mask_is))]
pub(crate) fn whole_mask(j: u8) -> u64
    requires { j < 64 }
    ensures { result ≡ 2 ^ j }
{
    1 << j
}

/// How many places a block has.
#[tactic(auto, using(crate::proofs::Steps::places_is))]
pub(crate) fn places_of(j: u8) -> u32
    requires { j < 32 }
    ensures { result ≡ 2 ^ j }
{
    1 << j
}

/// How many places a region has.
#[tactic(auto, using(crate::proofs::Steps::at_pow))]
pub(crate) fn all_places(height: u8, base: u8) -> u64
    requires { base + height < 31 }
    ensures { result ≡ 2 ^ ord base height }
{
    whole_mask(base + height)
}

/// The mask of a region, `height` levels above its words of 2 ^ base places.
pub(crate) fn mask_of(s: &[u64], height: u8, base: u8) -> u64
    requires right { IsMaskTree base height s.now }
    requires few { base ≤ 6 }
    ensures { result ≡ mask base height s.now }
{
    if height == 0 {
        return orders(s[0], base);
    }
    s[0]
}

/// The first cell of a region that is free as a whole.
fn cell_of_whole(height: u8, base: u8) -> u64
    requires few { (base ≤ 6) × (base + height < 32) }
    ensures { result ≡ whole_cell base height }
{
    if height == 0 {
        return ones(base);
    }
    whole_mask(base + height)
}

/// Frees all of a region of which nothing is free.
pub(crate) fn make_whole(s: &mut [u64], height: u8, base: u8)
    requires right { IsMaskTree base height s.old }
    requires bare { mask base height s.old ≡ 0 }
    requires few { (base ≤ 6) × (base + height < 32) }
    ensures right { IsMaskTree base height s.new }
    ensures root { mask base height s.new ≡ 2 ^ ord base height }
    ensures free { free_of base height s.new ≡ replicate (2 ^ ord base height) true }
{
    s[0] = cell_of_whole(height, base);
}

/// Takes all of a region that is free as a whole.
#[tactic(auto, using(crate::proofs::Steps::made_bare, crate::proofs::Steps::some_masks))]
pub(crate) fn make_bare(s: &mut [u64], height: u8, base: u8)
    requires right { IsMaskTree base height s.old }
    requires bare { mask base height s.old ≡ 2 ^ ord base height }
    ensures right { IsMaskTree base height s.new }
    ensures root { mask base height s.new ≡ 0 }
    ensures free { free_of base height s.new ≡ replicate (2 ^ ord base height) false }
{
    s[0] = 0;
}

/// Takes all that is free in a region, in the time of the regions that aren't free or taken as a whole.
#[cycle(wipe)]
fn wipe(s: &mut [u64], height: u8, base: u8)
    requires right { IsMaskTree base height s.old }
    requires few { base + height < 31 }
    ensures right { IsMaskTree base height s.new }
    ensures bare { mask base height s.new ≡ 0 }
{
    if height == 0 {
        s[0] = 0;
        return;
    }
    if s[0] == 0 {
        return;
    }
    let half = s.len() / 2;
    let (head, rest) = s.split_at_mut(1);
    let (low, high) = rest.split_at_mut(half);
    wipe_parts(&mut head[0], low, high, height - 1, base)
}

#[cycle(wipe)]
fn wipe_parts(root: &mut u64, low: &mut [u64], high: &mut [u64], at: u8, base: u8)
    requires right { AreRight base at root.old low.old high.old }
    requires few { base + at < 30 }
    ensures right { AreRight base at root.new low.new high.new }
    ensures bare { root.new ≡ 0 }
{
    let whole = whole_mask(base + at + 1);
    if *root == whole {
        *root = 0;
        return;
    }
    wipe(low, at, base);
    wipe(high, at, base);
    *root = 0;
}

/// The greatest order below `below` that a mask has.
#[tactic(auto, using(crate::proofs::Calls::bit_there, crate::proofs::Calls::bit_not_there))]
fn top_below(root: u64, below: u8) -> Option<u8>
    requires { below ≤ 64 }
    ensures { IsTopBelow root below result }
{
    if below == 0 {
        return None;
    }
    let at = below - 1;
    if (root >> at) & 1 == 1 {
        return Some(at);
    }
    top_below(root, at)
}

pub(crate) fn largest_in(masks: &[u64], height: u8, base: u8) -> Option<u8>
    requires right { IsMaskTree base height masks.now }
    requires few { (base ≤ 6) × (base + height < 31) }
    ensures { IsGreatest result (blocks (ord base height) (free_of base height masks.now)) }
{
    top_below(mask_of(masks, height, base), 64)
}

#[tactic(auto, using(crate::proofs::Calls::bare_cells, crate::proofs::Calls::bare_mask, crate::proofs::Calls::bare_len))]
pub(crate) fn bare_masks(alloc: Global, height: u8, base: u8) -> Result<Vec<u64>, AllocError>
    requires { height ≤ 26 }
    ensures right { IfOk result (λ v. IsMaskTree base height v.items) }
    ensures bare { IfOk result (λ v. mask base height v.items ≡ 0) }
{
    let len = (1 << (height + 1)) - 1;
    Ok(vec![in alloc; 0u64; len]?)
}

/// Takes all that is free in a region, in which nothing is free as it is if `bare` says so.
pub(crate) fn leave_bare(masks: &mut [u64], height: u8, base: u8, bare: bool)
    requires right { IsMaskTree base height masks.old }
    requires few { base + height < 31 }
    requires bare { bare ≡ true → mask base height masks.old ≡ 0 }
    ensures right { IsMaskTree base height masks.new }
    ensures bare { mask base height masks.new ≡ 0 }
{
    if !bare {
        wipe(masks, height, base);
    }
}
