//! A fresh arena: nothing was given back since it was made or cleared, so that of each order one block is free at most.
//!
//! The places of these blocks are all that is kept, and a take costs the orders that it splits. At the first block that is given
//! back they go to the masks.

ghost use Rattle.std.specs.Prelude.{◌≡◌, ◌≢◌, ℕ, ◌+◌, ◌-◌, ◌*◌, ◌/◌, ◌^◌, ◌<◌, ◌≤◌, true, length, Some, None, OnErr, IfOk, IfErr, IfSome, IfNone};
ghost use Rattle.buddy_arena.specs.Space.{blocks, NoneFrom, IsGreatest, IsOut, TakesBlock, free_count, OneEach, Apart};
ghost use Rattle.buddy_arena.specs.Masks.{ord, mask, free_of, IsMaskTree};
ghost use Rattle.buddy_arena.specs.Fresh.{kept_at, with_block, fresh_free, free_in, AreKept, AreFree, SplitsAt, IsLastBelow, IsFoundFrom};

use crate::arena::{Block, Full};
use crate::merges::give_to;
use crate::region::places_of;

/// Lets all be free: one block of the arena's order.
pub(crate) fn keep_whole(places: &mut [Option<u32>], order: u8)
    requires long { length places.old ≡ 31 }
    requires few { order < 31 }
    ensures long { length places.new ≡ 31 }
    ensures whole { kept_at places.new order ≡ Some 0 }
    ensures none { (j : ℕ) → j ≢ order → kept_at places.new j ≡ None }
{
    for place in places.iter_mut() {
        *place = None;
    }
    places[usize::from(order)] = Some(0);
}

/// The free block of the least order from this one on.
fn least_from(places: &[Option<u32>], order: u8) -> Option<Block>
    requires { length places.now ≡ 31 }
    ensures found { IfSome result (λ b. IsFoundFrom order b.order b.place places.now) }
    ensures none { IfNone result ((j : ℕ) → order ≤ j → kept_at places.now j ≡ None) }
{
    for at in order..31 {
        if let Some(place) = places[usize::from(at)] {
            return Some(Block { place, order: at });
        }
    }
    None
}

/// The greatest order below `below` of which a block is free.
fn greatest_below(places: &[Option<u32>], below: u8) -> Option<u8>
    requires long { length places.now ≡ 31 }
    requires few { below ≤ 31 }
    ensures { IsLastBelow places.now below result }
{
    if below == 0 {
        return None;
    }
    let at = below - 1;
    match places[usize::from(at)] {
        Some(_place) => Some(at),
        None => greatest_below(places, at),
    }
}

/// Splits a free block down to an order, whose lower part is taken.
fn keep_halves(places: &mut [Option<u32>], block: Block, order: u8)
    requires long { length places.old ≡ 31 }
    requires orders { (order ≤ block.order) × (block.order < 31) }
    requires within { block.place + 2 ^ block.order ≤ 2 ^ 31 }
    ensures long { length places.new ≡ 31 }
    ensures splits { SplitsAt order block.order block.place places.old places.new }
{
    places[usize::from(block.order)] = None;
    for at in order..block.order {
        places[usize::from(at)] = Some(block.place + places_of(at));
    }
}

/// The greatest order of a free block of a fresh arena.
pub(crate) fn largest_kept(places: &[Option<u32>], order: u8) -> Option<u8>
    requires long { length places.now ≡ 31 }
    requires few { order < 31 }
    requires kept { AreKept order (fresh_free order places.now) places.now }
    ensures { IsGreatest result (blocks order (fresh_free order places.now)) }
{
    greatest_below(places, 31)
}

/// Takes a block of a fresh arena of order `whole`.
pub(crate) fn take_kept(places: &mut [Option<u32>], whole: u8, order: u8) -> Result<Block, Full>
    requires long { length places.old ≡ 31 }
    requires few { whole < 31 }
    requires kept { AreKept whole (fresh_free whole places.old) places.old }
    ensures long { length places.new ≡ 31 }
    ensures kept { AreKept whole (fresh_free whole places.new) places.new }
    ensures ok { IfOk result (λ d. (d.order ≡ order)
        × TakesBlock whole (fresh_free whole places.old) (fresh_free whole places.new) d.place order) }
    ensures full { IfErr result (λ e. (e.order ≡ order)
        × NoneFrom order (blocks whole (fresh_free whole places.old))
        × IsGreatest e.largest (blocks whole (fresh_free whole places.old))) }
    ensures err { OnErr result (places.new ≡ places.old) }
{
    match least_from(places, order) {
        Some(found) => {
            keep_halves(places, found, order);
            Ok(Block {
                place: found.place,
                order,
            })
        }
        None => {
            let largest = largest_kept(places, whole);
            Err(Full { order, largest })
        }
    }
}

/// Gives a block of an order to the masks, if there is one.
fn give_at(masks: &mut [u64], height: u8, base: u8, order: u8, place: Option<u32>)
    requires right { IsMaskTree base height masks.old }
    requires few { (base ≤ 6) × (base + height < 31) }
    requires out { (p : ℕ) → place ≡ Some p
        → IsOut (ord base height) (free_of base height masks.old) p order }
    ensures right { IsMaskTree base height masks.new }
    ensures free { free_of base height masks.new
        ≡ with_block order place (free_of base height masks.old) }
{
    if let Some(place) = place {
        give_to(masks, height, base, Block { place, order });
    }
}

/// Gives the free blocks of a fresh arena to its masks, of which none has a free place.
pub(crate) fn give_kept(masks: &mut [u64], height: u8, base: u8, places: &[Option<u32>])
    requires right { IsMaskTree base height masks.old }
    requires bare { mask base height masks.old ≡ 0 }
    requires few { (base ≤ 6) × (base + height < 31) }
    requires long { length places.now ≡ 31 }
    requires kept { AreKept (ord base height) (fresh_free (ord base height) places.now) places.now }
    ensures right { IsMaskTree base height masks.new }
    ensures free { free_of base height masks.new ≡ fresh_free (ord base height) places.now }
{
    for order in 0..31u8 {
        give_at(masks, height, base, order, places[usize::from(order)]);
    }
}

/// Gives the free blocks of an arena that is fresh to its masks; of another they say already which places are free.
pub(crate) fn settle(fresh: bool, masks: &mut [u64], height: u8, base: u8, places: &[Option<u32>])
    requires few { (base ≤ 6) × (base + height < 31) }
    requires free { AreFree fresh base height masks.old places.now }
    ensures right { IsMaskTree base height masks.new }
    ensures free { free_of base height masks.new
        ≡ free_in fresh base height masks.old places.now }
{
    if fresh {
        give_kept(masks, height, base, places);
    }
}
