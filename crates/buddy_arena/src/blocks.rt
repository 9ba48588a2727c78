//! What a pending update took of an arena and what it replaces there, and what is retired.

ghost use Rattle.std.specs.Prelude.{◌≡◌, ◌^◌, ◌<◌};

use crate::giving::{give_all, release};
use crate::places::order_for;
use crate::{Arena, Block, Full};
use std::alloc::{AllocError, Global};
use std::collections::VecDeque;
use std::marker::Model;

/// A block that the present version doesn't have any more, or won't have from the pending update's end on.
#[derive(Clone, Copy)]
pub(crate) struct Aside {
    /// The end at which it is retired.
    pub(crate) end: u64,
    pub(crate) block: Block,
}

/// Why a block is not taken.
#[derive(Clone, Copy, Debug, PartialEq, Eq)]
pub enum Refused {
    /// Out of memory for the list of blocks.
    Memory,
    /// No free block of the arena is large enough.
    Full(Full),
}

/// How many places a block of this order has, as far as 64 bits count them.
fn places(order: u8) -> u64
    ensures { order < 64 → result ≡ 2 ^ order }
{
    1 << order.min(63)
}

/// The blocks of one arena that belong to no present version, or won't: what the pending update took, what it replaces, and what is
/// retired at which end. Time is the number of ends so far.
///
/// It holds their places alone: each call that gives blocks back gets the arena.
#[derive(Drop)]
pub struct Blocks {
    taken: Vec<Block>,
    /// The retired blocks in the order of their ends, then those that the pending update replaces.
    aside: VecDeque<Aside>,
    /// How many of these are retired.
    retired: usize,
    time: u64,
    /// The places of the blocks that were taken, as far as 64 bits count them.
    taken_places: u64,
    /// Those of the replaced ones.
    replaced_places: u64,
    /// Those of the retired ones.
    retired_places: u64,
}

impl Model for Blocks {
    ghost use Rattle.std.specs.Prelude.{take, drop};
    ghost use Rattle.buddy_arena.specs.Blocks.{Held, arrays_of, blocks_of, retired_of, IsQueue, AreCounted};

    ghost Value = { Held };

    ghost view = { λ b. record {
      taken = arrays_of b.taken.items;
      replaced = blocks_of (retired_of (drop b.retired b.aside.items));
      retired = retired_of (take b.retired b.aside.items);
      time = b.time;
    } };

    ghost invariant = { λ b. IsQueue b.aside.items b.retired b.time
        × AreCounted b.taken.items b.aside.items b.retired b.taken_places b.replaced_places
        b.retired_places };
}

impl Blocks {
    ghost use Rattle.std.specs.Prelude.{◌≡◌, ◌+◌, ◌≤◌, ◌<◌, ◌^◌, ◌++◌, [], IfOk, OnOk, IfErr, OnErr};
    ghost use Rattle.buddy_arena.specs.Space.{IsSized, IsOut, TakesBlock};
    ghost use Rattle.buddy_arena.specs.Powers.{up};
    ghost use Rattle.buddy_arena.specs.Refusals.{IsRefusal};
    ghost use Rattle.buddy_arena.specs.Places.{is_out, count_free};
    ghost use Rattle.buddy_arena.specs.Arrays.{AreApart};
    ghost use Rattle.buddy_arena.specs.Blocks.{Counts, AreHeldIn, GivesBack, with_taken, with_replaced, nothing_held, ended, cancelled, released, early, late, blocks_of, AreRetiredBy};

    /// No blocks, at time 0.
    pub fn new(alloc: Global) -> Blocks
        ensures { result ≡ nothing_held 0 }
    {
        Blocks {
            taken: Vec::new(alloc),
            aside: VecDeque::new(alloc),
            retired: 0,
            time: 0,
            taken_places: 0,
            replaced_places: 0,
            retired_places: 0,
        }
    }

    /// The number of ends so far.
    pub fn time(&self) -> u64
        ensures { result ≡ self.now.time }
    {
        self.time
    }

    /// What is retired was so at an end that is over. It does nothing: its clause holds at every moment.
    pub fn retired_law(&self)
        ensures { AreRetiredBy self.now.time self.now.retired }
    {
        let _time = self.time;
    }

    /// How many places the blocks have that the pending update took and the retired ones: what is out beside them is the present
    /// version's. It is kept, and not counted here.
    pub fn places_beside(&self) -> u64
        ensures { Counts result (self.now.taken ++ blocks_of self.now.retired) }
    {
        self.taken_places.saturating_add(self.retired_places)
    }

    /// The pending update is over: what it took stays out as the present version's, and what it replaced is retired.
    pub fn end(&mut self)
        requires { self.old.time < 18446744073709551615 }
        ensures { self.new ≡ ended self.old }
    {
        self.taken.clear();
        self.retired = self.aside.len();
        self.time += 1;
        self.retired_places = self.retired_places.saturating_add(self.replaced_places);
        self.taken_places = 0;
        self.replaced_places = 0;
    }

    /// The pending update is forgotten: what it took is given back, and what it was to replace stays.
    pub fn cancel<T: Copy>(&mut self, arena: &mut Arena<T>)
        requires sized { IsSized arena.old }
        requires held { AreApart (is_out arena.old.free)
            (self.old.taken ++ blocks_of self.old.retired) }
        ensures gives { GivesBack self.old.taken arena.old arena.new }
        ensures sized { IsSized arena.new }
        ensures held { AreHeldIn (is_out arena.new.free) self.new }
        ensures cancelled { self.new ≡ cancelled self.old }
    {
        give_all(arena, &self.taken);
        self.taken.clear();
        self.aside.truncate(self.retired);
        self.taken_places = 0;
        self.replaced_places = 0;
    }

    /// What was retired at an end no later than this time is given back, in the time of what that is.
    pub fn release<T: Copy>(&mut self, arena: &mut Arena<T>, since: u64)
        requires sized { IsSized arena.old }
        requires held { AreHeldIn (is_out arena.old.free) self.old }
        ensures gives { GivesBack (blocks_of (early since self.old.retired)) arena.old arena.new }
        ensures sized { IsSized arena.new }
        ensures held { AreHeldIn (is_out arena.new.free) self.new }
        ensures released { self.new ≡ released since self.old }
        ensures first { self.old.retired
            ≡ early since self.old.retired ++ late since self.old.retired }
        ensures all { self.old.time ≤ since → self.new.retired ≡ [] }
    {
        let free = arena.free_total();
        let given = release(arena, &mut self.aside, self.retired, since);
        self.retired -= given;
        self.retired_places = self
            .retired_places
            .saturating_sub(arena.free_total() - free);
    }

    /// Takes a block of the arena for `count` places, for the pending update.
    ///
    /// # Errors
    ///
    /// Out of memory, or no free block is large enough. Nothing has changed.
    pub fn take<T: Copy>(&mut self, arena: &mut Arena<T>, count: u32) -> Result<Block, Refused>
        requires some { 0 < count }
        requires sized { IsSized arena.old }
        ensures size { IfOk result (λ b. 2 ^ b.order ≡ up count) }
        ensures ok { IfOk result (λ b. TakesBlock arena.old.order arena.old.free arena.new.free b.place
            b.order) }
        ensures out { IfOk result (λ b. IsOut arena.new.order arena.new.free b.place b.order) }
        ensures taken { IfOk result (λ b. self.new ≡ with_taken self.old (b.place, 2 ^ b.order)) }
        ensures left { IfOk result (λ b. count_free arena.new + 2 ^ b.order
            ≡ count_free arena.old) }
        ensures full { IfErr result (λ e. IsRefusal e count arena.old) }
        ensures err { OnErr result ((arena.new ≡ arena.old) × (self.new ≡ self.old)) }
        ensures kept { (arena.new.order ≡ arena.old.order) × (arena.new.cells ≡ arena.old.cells)
            × (arena.new.fill ≡ arena.old.fill) }
        ensures sized { IsSized arena.new }
        ensures held { AreHeldIn (is_out arena.old.free) self.old
            → AreHeldIn (is_out arena.new.free) self.new }
    {
        if self.taken.reserve(1).is_err() {
            return Err(Refused::Memory);
        }
        match arena.take(order_for(count)) {
            Ok(block) => {
                self.taken.push_reserved(block);
                self.taken_places = self.taken_places.saturating_add(places(block.order));
                Ok(block)
            }
            Err(full) => Err(Refused::Full(full)),
        }
    }

    /// The pending update replaces this block: it stays out, and is retired at the update's end.
    ///
    /// # Errors
    ///
    /// Out of memory. Nothing has changed.
    pub fn set_aside(&mut self, block: Block) -> Result<(), AllocError>
        requires { self.old.time < 18446744073709551615 }
        ensures ok { OnOk result (self.new ≡ with_replaced self.old
            (block.place, 2 ^ block.order)) }
        ensures err { OnErr result (self.new ≡ self.old) }
    {
        self.aside.reserve(1)?;
        self.aside.push_back_reserved(Aside {
            end: self.time + 1,
            block,
        });
        self.replaced_places = self.replaced_places.saturating_add(places(block.order));
        Ok(())
    }

    /// Forgets all blocks: the arena was cleared, or is another one.
    pub fn clear(&mut self)
        ensures { self.new ≡ nothing_held self.old.time }
    {
        self.taken.clear();
        self.aside.clear();
        self.retired = 0;
        self.taken_places = 0;
        self.replaced_places = 0;
        self.retired_places = 0;
    }
}
