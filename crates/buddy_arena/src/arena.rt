//! The arena: which places are free, and the cells.

ghost use Rattle.std.specs.Prelude.{◌≡◌, ℕ, ◌+◌, ◌-◌, ◌*◌, ◌/◌, ◌^◌, ◌<◌, ◌≤◌, true, length, vec_capacity, ◌++◌, OnErr, IfOk, IfErr, Option, slice_index_or, slice_set};
ghost use Rattle.std.proofs.Common.{replicate};
ghost use Rattle.buddy_arena.specs.Space.{blocks, marked, NoneFrom, IsGreatest, Space, IsOut, IsSized, TakesBlock, empty, free_count, OneEach, Apart};

use crate::free::FreePlaces;
use crate::region::whole_mask;
use std::alloc::{AllocError, Global};
use std::marker::Model;

/// A block: 2 ^ order places side by side, the first of which is a multiple of as many.
#[derive(Clone, Copy, Debug, PartialEq, Eq)]
pub struct Block {
    /// Its first place.
    pub place: u32,
    /// Its order.
    pub order: u8,
}

/// No free block has the order that was asked for, or a greater one.
#[derive(Clone, Copy, Debug, PartialEq, Eq)]
pub struct Full {
    /// The order that was asked for.
    pub order: u8,
    /// The greatest order of a free block, `None` if nothing is free.
    pub largest: Option<u8>,
}

/// Writes the value from the last cell on, up to a place for which there is room.
fn fill_up<T: Copy>(cells: &mut Vec<T>, end: usize, value: T)
    requires from { length cells.old.items ≤ end }
    requires room { end ≤ vec_capacity cells.old }
    ensures items { cells.new.items
        ≡ cells.old.items ++ replicate (end - length cells.old.items) value }
    ensures capacity { vec_capacity cells.new ≡ vec_capacity cells.old }
{
    for i in cells.len()..end {
        cells.push_reserved(value);
    }
}

/// An arena of 2 ^ order places, each with a cell. A place is free, or out: in a block that was taken and not given back.
///
/// It takes all its memory when it is made: room for its cells, and two bits a place. A cell that was never written is only
/// reserved: pages are touched from the first on, up to the last cell that was written.
#[derive(Drop)]
pub struct Arena<T: Copy> {
    places: FreePlaces,
    /// The cells up to the last one that was written; those after it are as at first.
    cells: Vec<T>,
    fill: T,
    /// How many places are free.
    left: u64,
}

impl<T: Copy> Model for Arena<T> {
    ghost use Rattle.std.specs.Prelude.{◌≡◌, ◌+◌, ◌^◌, ◌<◌, ◌≤◌, length, vec_capacity};
    ghost use Rattle.buddy_arena.specs.Space.{Space, padded, free_count};

    ghost Value = { Space T };

    ghost view = { λ a. record {
      order = a.places.order;
      free = a.places.free;
      cells = padded (2 ^ a.places.order) a.fill a.cells.items;
      fill = a.fill;
    } };

    ghost invariant = { λ a. (length a.cells.items ≤ 2 ^ a.places.order)
        × (a.left ≡ free_count a.places.free)
        × (2 ^ a.places.order ≤ vec_capacity a.cells)
        × (a.places.order < 31) };
}

impl<T: Copy> Arena<T> {
    /// An arena all of whose places are free, its cells filled with the value.
    ///
    /// # Errors
    ///
    /// Out of memory.
    pub fn new(alloc: Global, order: u8, fill: T) -> Result<Self, AllocError>
        requires { order ≤ 26 }
        ensures made { IfOk result (λ a. a ≡ empty order fill) }
        ensures fresh { IfOk result (λ a. OneEach (blocks a.order a.free)) }
    {
        let places = FreePlaces::new(alloc, order)?;
        let left = whole_mask(order);
        let cells = Vec::with_capacity(alloc, left as usize)?;
        Ok(Arena {
            places,
            cells,
            fill,
            left,
        })
    }

    /// Takes a block of the order: from the free blocks of the least order that is large enough the lowest one, of which the
    /// lower half is split on, and the upper halves stay free. It takes the time of the orders that it splits, and in an arena to
    /// which something was given back that of the arena's order.
    ///
    /// In an arena to which nothing was given back since it was made or cleared no order has two free blocks; then it is
    /// refused only if fewer than 2 ^ order places are free.
    ///
    /// # Errors
    ///
    /// No free block is large enough. The arena is unchanged.
    pub fn take(&mut self, order: u8) -> Result<Block, Full>
        ensures ok { IfOk result (λ b. (b.order ≡ order)
            × TakesBlock self.old.order self.old.free self.new.free b.place order) }
        ensures out { IfOk result (λ b. IsOut self.new.order self.new.free b.place order) }
        ensures full { IfErr result (λ e. (e.order ≡ order)
            × NoneFrom order (blocks self.old.order self.old.free)
            × IsGreatest e.largest (blocks self.old.order self.old.free)) }
        ensures err { OnErr result (self.new ≡ self.old) }
        ensures kept { (self.new.order ≡ self.old.order)
            × (self.new.cells ≡ self.old.cells) × (self.new.fill ≡ self.old.fill) }
        ensures fresh { OneEach (blocks self.old.order self.old.free)
            → OneEach (blocks self.new.order self.new.free) }
        ensures few { OnErr result (OneEach (blocks self.old.order self.old.free)
            → free_count self.old.free < 2 ^ order) }
        ensures left { IfOk result (λ b. free_count self.new.free + 2 ^ order ≡ free_count self.old.free) }
        ensures apart { IfOk result (λ b. (p k : ℕ) → IsOut self.old.order self.old.free p k
            → Apart p k b.place order) }
        ensures still { (p k : ℕ) → IsOut self.old.order self.old.free p k
            → IsOut self.new.order self.new.free p k }
        ensures sized { IsSized self.new }
    {
        match self.places.take(order) {
            Ok(block) => {
                self.left -= whole_mask(order);
                Ok(block)
            }
            Err(full) => Err(full),
        }
    }

    /// How many places there are.
    pub fn places(&self) -> u64
        ensures { result ≡ 2 ^ self.now.order }
    {
        whole_mask(self.places.order())
    }

    /// How many places are free.
    pub fn free_total(&self) -> u64
        ensures { result ≡ free_count self.now.free }
    {
        self.left
    }

    /// Gives a block that is out back. It merges with its buddy, the block of its order whose place differs in the bit of that
    /// order alone, as long as that is free. It takes the time of the arena's order.
    pub fn give(&mut self, block: Block)
        requires { IsOut self.old.order self.old.free block.place block.order }
        ensures free { self.new.free ≡ marked block.place (2 ^ block.order) true self.old.free }
        ensures kept { (self.new.order ≡ self.old.order)
            × (self.new.cells ≡ self.old.cells) × (self.new.fill ≡ self.old.fill) }
        ensures still { (p k : ℕ) → IsOut self.old.order self.old.free p k
            → Apart p k block.place block.order → IsOut self.new.order self.new.free p k }
    {
        self.places.give(block);
        self.left += whole_mask(block.order);
    }

    /// The greatest order of a free block, `None` if nothing is free.
    pub fn largest(&self) -> Option<u8>
        ensures { IsGreatest result (blocks self.now.order self.now.free) }
    {
        self.places.largest()
    }

    /// Takes all back, and makes each cell what it was at first, in the time of what was taken since.
    pub fn clear(&mut self)
        ensures { self.new ≡ empty self.old.order self.old.fill }
    {
        self.places.clear();
        self.cells.clear();
        self.left = whole_mask(self.places.order());
    }

    /// Writes the cell `at` places from the first of a block that is out.
    pub fn write(&mut self, block: &Block, at: u32, value: T)
        requires out { IsOut self.old.order self.old.free block.now.place block.now.order }
        requires within { at < 2 ^ block.now.order }
        ensures cells { self.new.cells
            ≡ slice_set self.old.cells (block.now.place + at) value }
        ensures kept { (self.new.order ≡ self.old.order)
            × (self.new.free ≡ self.old.free) × (self.new.fill ≡ self.old.fill) }
    {
        let fill = self.fill;
        let index = (block.place + at) as usize;
        if index < self.cells.len() {
            self.cells[index] = value;
            return;
        }
        fill_up(&mut self.cells, index, fill);
        self.cells.push_reserved(value);
    }

    /// The cell of a place: what was last written there since the arena was made or cleared, else the value that it was filled
    /// with.
    pub fn read(&self, index: u32) -> T
        requires { index < length self.now.cells }
        ensures { result ≡ slice_index_or self.now.cells index self.now.fill }
    {
        let index = index as usize;
        if index < self.cells.len() {
            self.cells[index]
        } else {
            self.fill
        }
    }
}
