//! Rows with the slots of their runs.

ghost use Rattle.std.specs.Prelude.{◌≡◌, ◌≤◌, ◌<◌, ◌-◌, ◌^◌, ◌++◌, ◌∷◌, ℕ, [], suc, Some, length, option_map, slice_get, slice_set, slice_index_or, MatchOption, IfSome, OnOk, OnErr};
ghost use Rattle.adj_rib_in.specs.Flat.{IsRowPlace, HasNoRow, IsInRun, off_or, with_attrs, emptied, no_slot};
ghost use Rattle.adj_rib_in.specs.RowLists.{AreOrdered};
ghost use Rattle.adj_rib_in.specs.Slots.{rowless, row_at as row_of_place};

use crate::row_list::RowList;
use crate::rows::Row;
use crate::slot::{NO_PEER, PathSlot, RunSlot};
use fib_prefix::Prefix;
use std::alloc::{AllocError, Global};
use std::marker::Model;

/// Rows in order, and slots, run by run. A slot doesn't keep its row: that is the last row whose run begins at the slot's place or
/// before it.
#[derive(Drop)]
pub struct RowTable {
    rows: RowList,
    slots: Vec<RunSlot>,
}

impl Model for RowTable {
    ghost use Rattle.std.specs.Prelude.{length};
    ghost use Rattle.adj_rib_in.specs.Slots.{RowsAndSlots, AreSlotRuns, placed_from};

    ghost Value = { RowsAndSlots };

    ghost view = { λ t. record { items = t.rows.items; slots = placed_from t.rows.items 0 t.slots.items } };

    ghost invariant = { λ t. AreSlotRuns t.rows.items (length t.slots.items) };
}

impl RowTable {
    /// No rows and no slots.
    pub fn new(alloc: Global) -> RowTable
        ensures items { result.items ≡ [] }
        ensures slots { result.slots ≡ [] }
    {
        RowTable {
            rows: RowList::new(alloc),
            slots: Vec::new(alloc),
        }
    }

    /// How many rows there are.
    pub fn len(&self) -> usize
        ensures { result ≡ length self.now.items }
    {
        self.rows.len()
    }

    /// How many slots there are.
    pub fn slot_count(&self) -> usize
        ensures { result ≡ length self.now.slots }
    {
        self.slots.len()
    }

    /// Where the run of the row at a place begins, or an end if there is none.
    pub fn off_at(&self, at: usize, end: usize) -> usize
        ensures { result ≡ off_or end (slice_get self.now.items at) }
    {
        self.rows.off_at(at, end)
    }

    /// Where the run of the row after a place begins, or an end if there is none.
    pub fn off_behind(&self, at: usize, end: usize) -> usize
        ensures { result ≡ off_or end (slice_get self.now.items (suc at)) }
    {
        self.rows.off_behind(at, end)
    }

    /// The row at a place.
    pub fn get(&self, at: usize) -> Option<Row>
        ensures { result ≡ slice_get self.now.items at }
    {
        self.rows.get(at)
    }

    /// The last row.
    pub fn last(&self) -> Option<Row>
        ensures { result ≡ slice_get self.now.items (length self.now.items - 1) }
    {
        self.rows.last()
    }

    /// The place of a prefix's row.
    pub fn find(&self, prefix: &Prefix) -> Option<usize>
        requires { AreOrdered self.now.items }
        ensures { MatchOption result (HasNoRow self.now.items prefix.now) (IsRowPlace self.now.items prefix.now) }
    {
        self.rows.find(prefix)
    }

    /// Puts a row after all others. Its run begins after all slots.
    pub fn push(&mut self, row: Row) -> Result<(), AllocError>
        requires off { row.off ≡ length self.old.slots }
        requires few { length self.old.items < 2 ^ 32 - 1 }
        ensures ok { OnOk result (self.new.items ≡ self.old.items ++ row ∷ []) }
        ensures err { OnErr result (self.new.items ≡ self.old.items) }
        ensures slots { self.new.slots ≡ self.old.slots }
    {
        self.rows.push(row)
    }

    /// Puts a slot of the last row after all others.
    pub fn push_slot(&mut self, slot: &PathSlot) -> Result<(), AllocError>
        requires { suc slot.now.row ≡ length self.old.items }
        ensures ok { OnOk result (self.new.slots ≡ self.old.slots ++ slot.now ∷ []) }
        ensures err { OnErr result (self.new.slots ≡ self.old.slots) }
        ensures items { self.new.items ≡ self.old.items }
    {
        self.slots.push(RunSlot::of(slot))?;
        Ok(())
    }

    /// The slot at a place, without its row.
    pub fn bare_at(&self, at: usize) -> Option<RunSlot>
        ensures { result ≡ option_map rowless (slice_get self.now.slots at) }
    {
        match self.slots.get(at) {
            Some(slot) => Some(*slot),
            None => None,
        }
    }

    /// The slot at a place in the run of a row.
    pub fn slot_in(&self, row: usize, at: usize) -> Option<PathSlot>
        requires { IsInRun self.now.items row (length self.now.slots) at }
        ensures slot { result ≡ slice_get self.now.slots at }
        ensures row { IfSome result (λ s. s.row ≡ row) }
    {
        match self.slots.get(at) {
            Some(slot) => Some(slot.in_row(row as u32)),
            None => None,
        }
    }

    /// The slot at a place. Its row is that one if the place lies in its run, a guess that is tested, in place of a search.
    pub fn slot_at(&self, near: usize, at: usize) -> PathSlot
        requires { at < length self.now.slots }
        ensures { slice_get self.now.slots at ≡ Some result }
    {
        let row = self.row_at(near, at);
        self.slots[at].in_row(row as u32)
    }

    /// The row of the slot at a place.
    fn row_at(&self, near: usize, at: usize) -> usize
        requires { at < length self.now.slots }
        ensures { result ≡ row_of_place self.now.items at }
    {
        let end = self.slots.len();
        if self.rows.off_at(near, end) <= at && at < self.rows.off_behind(near, end) {
            return near;
        }
        self.rows.begun(at).saturating_sub(1)
    }

    /// Sets what is offered at the slot of a place: a path and a hop's number.
    pub fn set(&mut self, at: usize, path: u32, hop: u32)
        requires { at < length self.old.slots }
        ensures slots { self.new.slots ≡ slice_set self.old.slots at
            (with_attrs path hop (slice_index_or self.old.slots at no_slot)) }
        ensures items { self.new.items ≡ self.old.items }
    {
        let slot = self.slots[at];
        self.slots[at] = RunSlot { path, hop, ..slot };
    }

    /// Makes the slot at a place no path key any more.
    pub fn empty(&mut self, at: usize)
        requires { at < length self.old.slots }
        ensures slots { self.new.slots ≡ slice_set self.old.slots at
            (emptied (slice_index_or self.old.slots at no_slot)) }
        ensures items { self.new.items ≡ self.old.items }
    {
        let slot = self.slots[at];
        self.slots[at] = RunSlot {
            peer: NO_PEER,
            ..slot
        };
    }
}
