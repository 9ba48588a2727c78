//! The rows of the flat candidates in one list, with a sample of them.

ghost use Rattle.std.specs.Prelude.{◌≡◌, ◌≤◌, ◌<◌, ◌-◌, ◌++◌, ◌∷◌, ℕ, [], suc, true, Some, length, slice_get, MatchOption, IfOk, OnOk, OnErr};
ghost use Rattle.std.specs.declared.cmp.Ordering.TheVariants.{Less, Greater};
ghost use Rattle.fib_addr.specs.Order.{code_cmp};
ghost use Rattle.adj_rib_in.specs.Flat.{IsRowPlace, HasNoRow, off_or};
ghost use Rattle.adj_rib_in.specs.RowLists.{AreOrdered};
ghost use Rattle.adj_rib_in.specs.Slots.{AreRising, begun as begun_at};

use crate::rows::Row;
use fib_prefix::{Family, Prefix};
use std::alloc::{AllocError, Global};
use std::marker::Model;

/// How many rows there are to a mark.
const STEP: usize = 8;

/// Rows, and marks: a short key of every eighth row's prefix, the first row's among them. A search goes through the marks, and then
/// through the rows from one to the next: so it reads few cache lines of the whole list. What the marks say is a guess, which is
/// tested.
#[derive(Drop)]
pub struct RowList {
    list: Vec<Row>,
    marks: Vec<u64>,
}

impl Model for RowList {
    ghost use Rattle.adj_rib_in.specs.RowLists.{RowItems};

    ghost Value = { RowItems };

    ghost view = { λ r. record { items = r.list.items } };
}

/// A range of rows: from one place to before another.
#[derive(Clone, Copy)]
struct RowRange {
    from: usize,
    to: usize,
}

/// A key of a prefix, which never falls from one prefix to the next in their order. All prefixes of IPv4 have different ones, and
/// those of IPv6 if their first 63 bits differ.
fn key_of(prefix: &Prefix) -> u64 {
    match prefix.family {
        Family::V4 => (prefix.bits as u64).wrapping_mul(256) | u64::from(prefix.len),
        Family::V6 => (prefix.bits >> 65) as u64 | 0x8000_0000_0000_0000,
    }
}

/// How many marks in front have at most this key, if no mark has a greater one than the next.
fn marks_upto(marks: &[u64], key: u64) -> usize
    ensures { result ≤ length marks.now }
{
    let mut from = 0;
    let mut to = marks.len();
    while from < to {
        let middle = from + (to - from) / 2;
        if marks[middle] > key {
            to = middle;
            continue;
        }
        from = middle + 1;
    }
    from
}

impl RowList {
    /// No rows.
    pub fn new(alloc: Global) -> RowList
        ensures { result.items ≡ [] }
    {
        RowList {
            list: Vec::new(alloc),
            marks: Vec::new(alloc),
        }
    }

    /// How many there are.
    pub fn len(&self) -> usize
        ensures { result ≡ length self.now.items }
    {
        self.list.len()
    }

    /// Where the run of the row at a place begins, or an end if there is none.
    pub fn off_at(&self, at: usize, end: usize) -> usize
        ensures { result ≡ off_or end (slice_get self.now.items at) }
    {
        match self.list.get(at) {
            Some(row) => row.off() as usize,
            None => end,
        }
    }

    /// Where the run of the row after a place begins, or an end if there is none.
    pub fn off_behind(&self, at: usize, end: usize) -> usize
        ensures { result ≡ off_or end (slice_get self.now.items (suc at)) }
    {
        match self.list.get(at.saturating_add(1)) {
            Some(next) => next.off() as usize,
            None => end,
        }
    }

    /// The row at a place.
    pub fn get(&self, at: usize) -> Option<Row>
        ensures { result ≡ slice_get self.now.items at }
    {
        match self.list.get(at) {
            Some(row) => Some(row.copy()),
            None => None,
        }
    }

    /// The last row.
    pub fn last(&self) -> Option<Row>
        ensures { result ≡ slice_get self.now.items (length self.now.items - 1) }
    {
        match self.list.last() {
            Some(row) => Some(row.copy()),
            None => None,
        }
    }

    /// Puts a row after all others.
    pub fn push(&mut self, row: Row) -> Result<(), AllocError>
        ensures ok { OnOk result (self.new.items ≡ self.old.items ++ row ∷ []) }
        ensures err { OnErr result (self.new.items ≡ self.old.items) }
    {
        self.list.reserve(1)?;
        if self.list.len() % STEP == 0 {
            self.marks.push(key_of(&row.prefix()))?;
        }
        self.list.push_reserved(row);
        Ok(())
    }

    /// The place of a prefix's row. It costs the logarithm of the number of rows.
    pub fn find(&self, prefix: &Prefix) -> Option<usize>
        requires { AreOrdered self.now.items }
        ensures { MatchOption result (HasNoRow self.now.items prefix.now) (IsRowPlace self.now.items prefix.now) }
    {
        find_by(&self.list, self.range_near(prefix), prefix)
    }

    /// The range of rows between two marks where a prefix's row lies, if there is one: a guess.
    fn range_near(&self, prefix: &Prefix) -> RowRange
        ensures range { result.from ≤ result.to }
        ensures end { result.to ≤ length self.now.items }
    {
        let mark = marks_upto(&self.marks, key_of(prefix));
        let to = self.place_of(mark);
        RowRange {
            from: self.place_of(mark.saturating_sub(1)).min(to),
            to,
        }
    }

    /// How many rows at the head have runs that begin at a place or before it.
    pub fn begun(&self, at: usize) -> usize
        requires { AreRising self.now.items }
        ensures { result ≡ begun_at self.now.items at }
    {
        let mut from = 0;
        let mut to = self.list.len();
        while from < to {
            let middle = from + (to - from) / 2;
            if self.list[middle].off() as usize > at {
                to = middle;
                continue;
            }
            from = middle + 1;
        }
        from
    }

    /// The place of a mark's row, or the end.
    fn place_of(&self, mark: usize) -> usize
        ensures { result ≤ length self.now.items }
    {
        let end = self.list.len();
        if mark > end / STEP {
            return end;
        }
        mark * STEP
    }
}

/// Whether the rows in front of a place come before a prefix.
fn is_before(rows: &[Row], at: usize, prefix: &Prefix) -> bool
    requires { AreOrdered rows.now }
    ensures { result ≡ true → (i : ℕ) (row : Row) → i < at → slice_get rows.now i ≡ Some row
        → code_cmp row.prefix prefix.now ≡ Less }
{
    if at == 0 {
        return true;
    }
    match rows.get(at - 1) {
        Some(row) => row.prefix().cmp(prefix).is_lt(),
        None => false,
    }
}

/// Whether the rows from a place on come after a prefix.
fn is_after(rows: &[Row], at: usize, prefix: &Prefix) -> bool
    requires { AreOrdered rows.now }
    ensures { result ≡ true → (i : ℕ) (row : Row) → at ≤ i → slice_get rows.now i ≡ Some row
        → code_cmp row.prefix prefix.now ≡ Greater }
{
    match rows.get(at) {
        Some(row) => row.prefix().cmp(prefix).is_gt(),
        None => true,
    }
}

/// Whether all rows in front of a place come before a prefix, and all others come after it.
fn is_gap(rows: &[Row], at: usize, prefix: &Prefix) -> bool
    requires { AreOrdered rows.now }
    ensures { result ≡ true → HasNoRow rows.now prefix.now }
{
    if is_before(rows, at, prefix) {
        return is_after(rows, at, prefix);
    }
    false
}

/// The place of a prefix's row, by a range where it may lie, a guess that is tested.
fn find_by(rows: &[Row], range: RowRange, prefix: &Prefix) -> Option<usize>
    requires ordered { AreOrdered rows.now }
    requires range { range.from ≤ range.to }
    requires end { range.to ≤ length rows.now }
    ensures { MatchOption result (HasNoRow rows.now prefix.now) (IsRowPlace rows.now prefix.now) }
{
    match find_within(rows, range, prefix) {
        Ok(at) => Some(at),
        Err(at) => {
            if is_gap(rows, at, prefix) {
                return None;
            }
            find_in_all(rows, prefix)
        }
    }
}

/// The place of a prefix's row in a range of the rows, or that where it would be.
fn find_within(rows: &[Row], range: RowRange, prefix: &Prefix) -> Result<usize, usize>
    requires range { range.from ≤ range.to }
    requires end { range.to ≤ length rows.now }
    ensures { IfOk result (IsRowPlace rows.now prefix.now) }
{
    let near = &rows[range.from..range.to];
    match near.binary_search(&Row::new(prefix, 0)) {
        Ok(at) => Ok(range.from + at),
        Err(at) => Err(range.from.saturating_add(at)),
    }
}

/// The place of a prefix's row among all rows.
fn find_in_all(rows: &[Row], prefix: &Prefix) -> Option<usize>
    requires { AreOrdered rows.now }
    ensures { MatchOption result (HasNoRow rows.now prefix.now) (IsRowPlace rows.now prefix.now) }
{
    match rows.binary_search(&Row::new(prefix, 0)) {
        Ok(at) => Some(at),
        Err(_) => None,
    }
}
