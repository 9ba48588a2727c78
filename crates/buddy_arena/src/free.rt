//! The free places of an arena: by masks, or while it is fresh by the places of its blocks.

ghost use Rattle.std.specs.Prelude.{◌≤◌};

use crate::arena::{Block, Full};
use crate::fresh::{keep_whole, largest_kept, settle, take_kept};
use crate::merges::give_to;
use crate::region::{bare_masks, largest_in, leave_bare};
use crate::splits::take_from;
use std::alloc::{AllocError, Global};
use std::marker::Model;

/// Which places of an arena are free.
#[derive(Drop)]
pub(crate) struct FreePlaces {
    /// The order of a word of places, at most 6.
    base: u8,
    /// How many levels stand above the words.
    height: u8,
    /// Whether nothing was given back since the arena was made or cleared. Then the masks are of no free place.
    fresh: bool,
    masks: Vec<u64>,
    /// The place of the free block of each order, as long as it is fresh.
    places: [Option<u32>; 31],
}

impl Model for FreePlaces {
    ghost use Rattle.std.specs.Prelude.{◌+◌, ◌<◌, ◌≤◌};
    ghost use Rattle.buddy_arena.specs.Masks.{ord};
    ghost use Rattle.buddy_arena.specs.Fresh.{FreeMap, AreFree, free_in};

    ghost Value = { FreeMap };

    ghost view = { λ a. record {
      order = ord a.base a.height;
      free = free_in a.fresh a.base a.height a.masks.items a.places;
    } };

    ghost invariant = { λ a. (a.base ≤ 6) × (a.base + a.height < 31)
        × AreFree a.fresh a.base a.height a.masks.items a.places };
}

/// The order of a word of places in an arena of this order.
fn word_order(order: u8) -> u8
    ensures few { result ≤ 6 }
    ensures within { result ≤ order }
{
    if order < 6 {
        return order;
    }
    6
}

impl FreePlaces {
    ghost use Rattle.std.specs.Prelude.{◌≡◌, ℕ, ◌+◌, ◌^◌, ◌<◌, ◌≤◌, true, OnErr, IfOk, IfErr};
    ghost use Rattle.std.proofs.Common.{replicate};
    ghost use Rattle.buddy_arena.specs.Space.{blocks, marked, NoneFrom, IsGreatest, IsOut, TakesBlock, free_count, OneEach, Apart};
    ghost use Rattle.buddy_arena.specs.Masks.{ord};
    ghost use Rattle.buddy_arena.specs.Fresh.{IsMapOf};

    /// All places of an arena of this order.
    ///
    /// # Errors
    ///
    /// Out of memory.
    pub(crate) fn new(alloc: Global, order: u8) -> Result<FreePlaces, AllocError>
        requires { order ≤ 26 }
        ensures order { IfOk result (λ f. f.order ≡ order) }
        ensures free { IfOk result (λ f. f.free ≡ replicate (2 ^ order) true) }
    {
        let base = word_order(order);
        FreePlaces::with_words(alloc, order - base, base)
    }

    /// All places, `height` levels above words of 2 ^ base places.
    fn with_words(alloc: Global, height: u8, base: u8) -> Result<FreePlaces, AllocError>
        requires few { (base ≤ 6) × (base + height ≤ 26) }
        ensures order { IfOk result (λ f. f.order ≡ ord base height) }
        ensures free { IfOk result (λ f. f.free ≡ replicate (2 ^ ord base height) true) }
    {
        let masks = bare_masks(alloc, height, base)?;
        let mut places = [None; 31];
        keep_whole(&mut places, base + height);
        Ok(FreePlaces {
            base,
            height,
            fresh: true,
            masks,
            places,
        })
    }

    /// The arena's order.
    pub(crate) fn order(&self) -> u8
        ensures order { result ≡ self.now.order }
        ensures sized { IsMapOf result self.now.free }
    {
        self.base + self.height
    }

    /// Takes a block of the order. It takes the time of the orders that are split, in an arena to which something was given back
    /// that of the arena's order.
    ///
    /// # Errors
    ///
    /// No free block is large enough. All is as it was.
    pub(crate) fn take(&mut self, order: u8) -> Result<Block, Full>
        ensures ok { IfOk result (λ b. (b.order ≡ order)
            × TakesBlock self.old.order self.old.free self.new.free b.place order) }
        ensures full { IfErr result (λ e. (e.order ≡ order)
            × NoneFrom order (blocks self.old.order self.old.free)
            × IsGreatest e.largest (blocks self.old.order self.old.free)) }
        ensures err { OnErr result (self.new ≡ self.old) }
        ensures kept { self.new.order ≡ self.old.order }
        ensures sized { IsMapOf self.old.order self.old.free }
    {
        if self.fresh {
            let whole = self.order();
            return take_kept(&mut self.places, whole, order);
        }
        take_from(&mut self.masks, self.height, self.base, order)
    }

    /// Gives a block that is out back. It takes the time of the arena's order.
    pub(crate) fn give(&mut self, block: Block)
        requires { IsOut self.old.order self.old.free block.place block.order }
        ensures free { self.new.free ≡ marked block.place (2 ^ block.order) true self.old.free }
        ensures kept { self.new.order ≡ self.old.order }
        ensures sized { IsMapOf self.old.order self.old.free }
    {
        settle(
            self.fresh,
            &mut self.masks,
            self.height,
            self.base,
            &self.places,
        );
        self.fresh = false;
        give_to(&mut self.masks, self.height, self.base, block);
    }

    /// The greatest order of a free block, `None` if nothing is free.
    pub(crate) fn largest(&self) -> Option<u8>
        ensures { IsGreatest result (blocks self.now.order self.now.free) }
    {
        if self.fresh {
            return largest_kept(&self.places, self.order());
        }
        largest_in(&self.masks, self.height, self.base)
    }

    /// Lets all places be free, in the time of what was taken since the arena was made or cleared.
    pub(crate) fn clear(&mut self)
        ensures order { self.new.order ≡ self.old.order }
        ensures free { self.new.free ≡ replicate (2 ^ self.old.order) true }
    {
        let whole = self.order();
        leave_bare(&mut self.masks, self.height, self.base, self.fresh);
        self.fresh = true;
        keep_whole(&mut self.places, whole);
    }
}
