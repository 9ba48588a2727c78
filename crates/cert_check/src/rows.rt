//! The rows of a certificate, read with a stack.
//!
//! A leaf is put on the stack. A join takes its halves from the stack and puts itself there. A bound takes the family's whole
//! region. Each region stands there with its set of hops and its k, the entries that it costs under a hop of its set.

ghost use Rattle.std.specs.Prelude.{◌≡◌, ◌+◌, ◌^◌, ◌<◌, ◌≤◌, ◌&&◌, IfOk, length, option_map, Some, None, [], ◌∷◌, false, true};
ghost use Rattle.table_model.specs.Address.{same_prefix};
ghost use Rattle.table_model.specs.Halves.{half_at};
ghost use Rattle.table_model.specs.declared.family.Family.TheVariants.{V4, V6};
ghost use Rattle.table_model.specs.Entries.{Entries};
ghost use Rattle.cert_model.specs.Rows.{bound_row, whole_prefix};
ghost use Rattle.cert_model.specs.Right.{bound_by};
ghost use Rattle.cert_model.specs.Verdict.{wrong_row};
ghost use Rattle.fib_addr.specs.Views.{prefix_as};
ghost use Rattle.cert_model.specs.Views.{row_as};
ghost use Rattle.cert_check.specs.Marks.{AreMarks};
ghost use Rattle.cert_check.specs.Runs.{TellsBoth};
ghost use Rattle.cert_check.specs.Views.{no_as};
ghost use Rattle.cert_check.specs.Stack.{item_as, stack_as, leaf_weight, AllRight, BoundsTold, RowRead, LeafRead, JoinDone, JoinRead, WholeTaken, next_due, bound_due, Popped};

use crate::refusal::No;
use crate::runs::holds;
use crate::sets::{Hops, common_hops, one_if_none, or_all};
use crate::table_runs::TableRuns;
use cert_model::Row;
use cert_rows::RowsLeft;
use fib_addr::{Family, Hop, Prefix};
use smallvec::SmallVec;
use std::alloc::{AllocError, Global};

/// A region on the stack.
#[derive(Drop)]
pub struct Item {
    prefix: Prefix,
    hops: Hops,
    k: u64,
}

/// Two regions from the top of the stack, which are put together.
#[derive(Drop)]
struct HalfItems {
    low: Item,
    high: Item,
}

/// How far the rows are read.
#[derive(Drop)]
pub struct Reading {
    /// The family whose bound comes next.
    pub due: Option<Family>,
    /// The stack, its top last.
    pub stack: Vec<Item>,
    /// The last leaf's place among the runs of its family (`holds`).
    pub place: usize,
    /// Marks for sets.
    pub marks: Vec<u64>,
    /// The bound of IPv4.
    pub v4: u64,
    /// The bound of IPv6.
    pub v6: u64,
}

fn read_leaf(
    alloc: Global,
    runs: &TableRuns,
    prefix: &Prefix,
    hop: Hop,
    row: u64,
    stack: &mut Vec<Item>,
    place: &mut usize,
) -> Result<Option<No>, AllocError>
    ensures weight { IfOk result (λ no. no ≡ None → leaf_weight (stack_as stack.new.items)
        ≤ leaf_weight (stack_as stack.old.items) + 1) }
    ensures read { IfOk result (λ no. (R : Entries) → TellsBoth R runs.now
        → LeafRead R (prefix_as prefix.now) hop.0 row (stack_as stack.old.items)
        (stack_as stack.new.items) (option_map no_as no)) }
{
    if !holds(runs.of(prefix.family), prefix, hop.0, place) {
        return Ok(Some(No::LeafWrong { row }));
    }
    let mut hops = SmallVec::new(alloc);
    hops.push(hop.0)?;
    stack.push(Item {
        prefix: *prefix,
        hops,
        k: 0,
    })?;
    Ok(None)
}

/// Whether two prefixes are one.
#[tactic(auto, using(crate::proofs::Later::prefix_same))]
fn is_same(p: &Prefix, q: &Prefix) -> bool
    ensures { result ≡ same_prefix (prefix_as p.now) (prefix_as q.now) }
{
    p.cmp(q).is_eq()
}

/// Whether the prefix is that of all addresses of the family.
fn is_whole(prefix: &Prefix, family: Family) -> bool
    ensures { result ≡ same_prefix (prefix_as prefix.now) (whole_prefix family) }
{
    is_same(prefix, &Prefix::whole(family))
}

/// Whether these are the halves of the prefix's region.
fn are_halves(prefix: &Prefix, low: &Prefix, high: &Prefix) -> bool
    ensures { result ≡ (same_prefix (prefix_as low.now) (half_at false (prefix_as prefix.now))
        && same_prefix (prefix_as high.now) (half_at true (prefix_as prefix.now))) }
{
    if prefix.len == prefix.family.width() {
        return false;
    }
    is_same(low, &prefix.half(false)) && is_same(high, &prefix.half(true))
}

/// Puts the region of two halves on the stack.
fn join_items(
    alloc: Global,
    prefix: &Prefix,
    said: u64,
    row: u64,
    halves: HalfItems,
    stack: &mut Vec<Item>,
    marks: &mut Vec<u64>,
) -> Result<Option<No>, AllocError>
    requires marks { AreMarks row marks.old.items }
    requires more { row + 1 < 2 ^ 64 }
    requires fits { halves.low.k + halves.high.k + 1 < 2 ^ 64 }
    ensures marks { AreMarks (row + 1) marks.new.items }
    ensures done { IfOk result (λ no. JoinDone (prefix_as prefix.now) said row
        (item_as halves.low) (item_as halves.high) (stack_as stack.old.items)
        (stack_as stack.new.items) (option_map no_as no)) }
{
    let HalfItems { low, high } = halves;
    let common = common_hops(alloc, &low.hops, &high.hops, row, marks)?;
    let due = low.k + high.k + one_if_none(&common);
    if said != due {
        return Ok(Some(No::JoinWrong { row, said, due }));
    }
    let hops = or_all(common, low.hops, &high.hops)?;
    stack.push(Item {
        prefix: *prefix,
        hops,
        k: due,
    })?;
    Ok(None)
}

/// Takes the top of the stack.
fn pop_item(stack: &mut Vec<Item>) -> Option<Item>
    ensures { Popped (stack_as stack.old.items) (stack_as stack.new.items)
        (option_map item_as result) }
{
    stack.pop()
}

fn read_join(
    alloc: Global,
    prefix: &Prefix,
    said: u64,
    row: u64,
    stack: &mut Vec<Item>,
    marks: &mut Vec<u64>,
) -> Result<Option<No>, AllocError>
    requires marks { AreMarks row marks.old.items }
    requires more { row + 1 < 2 ^ 64 }
    requires leaf_weight { leaf_weight (stack_as stack.old.items) < row }
    ensures marks { AreMarks (row + 1) marks.new.items }
    ensures read { IfOk result (λ no. JoinRead (prefix_as prefix.now) said row
        (stack_as stack.old.items) (stack_as stack.new.items) (option_map no_as no)) }
{
    let shape = Some(No::Shape { row });
    match pop_item(stack) {
        None => Ok(shape),
        Some(high) => match pop_item(stack) {
            None => Ok(shape),
            Some(low) => {
                if are_halves(prefix, &low.prefix, &high.prefix) {
                    join_items(
                        alloc,
                        prefix,
                        said,
                        row,
                        HalfItems { low, high },
                        stack,
                        marks,
                    )
                } else {
                    Ok(shape)
                }
            }
        },
    }
}

/// The bound of a family whose whole region this is.
fn bound_of(item: &Item) -> u64
    requires { item.now.k + 1 < 2 ^ 64 }
    ensures { result ≡ bound_by item.now.hops.items item.now.k }
{
    if item.hops.contains(&0) {
        item.k
    } else {
        item.k + 1
    }
}

/// The only item of the stack, if it is the whole region of the family.
fn whole_of(family: Family, stack: &mut Vec<Item>) -> Option<Item>
    ensures { WholeTaken family (stack_as stack.old.items) (stack_as stack.new.items)
        (option_map item_as result) }
{
    match pop_item(stack) {
        None => None,
        Some(item) => match pop_item(stack) {
            Some(_) => None,
            None => {
                if is_whole(&item.prefix, family) {
                    Some(item)
                } else {
                    None
                }
            }
        },
    }
}

/// Keeps a family's bound, and goes on to the next family.
fn end_family(family: Family, bound: u64, reading: &mut Reading)
    ensures due { reading.new.due ≡ next_due family }
    ensures marks { reading.new.marks ≡ reading.old.marks }
    ensures stack { reading.new.stack ≡ reading.old.stack }
    ensures told { (R : Entries) → bound_due family R ≡ bound
        → BoundsTold R (Some family) reading.old.v4 reading.old.v6
        → BoundsTold R (next_due family) reading.new.v4 reading.new.v6 }
{
    match family {
        Family::V4 => {
            reading.v4 = bound;
            reading.due = Some(Family::V6);
        }
        Family::V6 => {
            reading.v6 = bound;
            reading.due = None;
        }
    }
}

fn read_bound(family: Family, said: u64, row: u64, reading: &mut Reading) -> Option<No>
    requires due { reading.old.due ≡ Some family }
    requires leaf_weight { leaf_weight (stack_as reading.old.stack.items) < row }
    ensures marks { reading.new.marks ≡ reading.old.marks }
    ensures read { (R : Entries) → RowRead R (bound_row family said) row reading.old.due
        (stack_as reading.old.stack.items) reading.new.due (stack_as reading.new.stack.items)
        (option_map no_as result) }
    ensures told { result ≡ None → (R : Entries) → AllRight R (stack_as reading.old.stack.items)
        → BoundsTold R reading.old.due reading.old.v4 reading.old.v6
        → BoundsTold R reading.new.due reading.new.v4 reading.new.v6 }
{
    match whole_of(family, &mut reading.stack) {
        None => Some(No::Shape { row }),
        Some(item) => {
            let due = bound_of(&item);
            if said != due {
                return Some(No::JoinWrong { row, said, due });
            }
            end_family(family, due, reading);
            None
        }
    }
}

/// Reads a row: what is wrong with it, if anything is.
fn read_row(
    alloc: Global,
    runs: &TableRuns,
    row: &Row,
    number: u64,
    reading: &mut Reading,
) -> Result<Option<No>, AllocError>
    requires marks { AreMarks number reading.old.marks.items }
    requires more { number + 1 < 2 ^ 64 }
    requires leaf_weight { leaf_weight (stack_as reading.old.stack.items) < number }
    ensures marks { AreMarks (number + 1) reading.new.marks.items }
    ensures weight { IfOk result (λ no. no ≡ None → leaf_weight (stack_as reading.new.stack.items)
        ≤ leaf_weight (stack_as reading.old.stack.items) + 1) }
    ensures read { IfOk result (λ no. (R : Entries) → TellsBoth R runs.now
        → RowRead R (row_as row.now) number reading.old.due
        (stack_as reading.old.stack.items) reading.new.due (stack_as reading.new.stack.items)
        (option_map no_as no)) }
    ensures told { IfOk result (λ no. no ≡ None → (R : Entries)
        → AllRight R (stack_as reading.old.stack.items)
        → BoundsTold R reading.old.due reading.old.v4 reading.old.v6
        → BoundsTold R reading.new.due reading.new.v4 reading.new.v6) }
{
    match reading.due {
        None => Ok(Some(No::Shape { row: number })),
        Some(family) => match row {
            Row::Leaf(prefix, hop) => read_leaf(
                alloc,
                runs,
                prefix,
                *hop,
                number,
                &mut reading.stack,
                &mut reading.place,
            ),
            Row::Join(prefix, k) => read_join(
                alloc,
                prefix,
                *k,
                number,
                &mut reading.stack,
                &mut reading.marks,
            ),
            Row::Bound(of, bound) => {
                if *of == family {
                    Ok(read_bound(family, *bound, number, reading))
                } else {
                    Ok(Some(No::Shape { row: number }))
                }
            }
        },
    }
}

/// Reads the rows to the first wrong one.
pub(crate) fn read_rows(
    alloc: Global,
    runs: &TableRuns,
    mut rows: RowsLeft<'_>,
    reading: &mut Reading,
) -> Result<Option<No>, AllocError>
    requires due { reading.old.due ≡ Some V4 }
    requires empty { stack_as reading.old.stack.items ≡ [] }
    requires marks { AreMarks 1 reading.old.marks.items }
    requires few { length rows + 1 < 2 ^ 64 }
    ensures read { IfOk result (λ no. (R : Entries) → TellsBoth R runs.now
        → option_map no_as no ≡ wrong_row R rows.entry (V4 ∷ V6 ∷ []) [] 1) }
    ensures told { IfOk result (λ no. no ≡ None → (R : Entries) → TellsBoth R runs.now
        → BoundsTold R None reading.new.v4 reading.new.v6) }
{
    let mut number = 0;
    while let Some(row) = rows.next() {
        number += 1;
        if let Some(no) = read_row(alloc, runs, &row, number, reading)? {
            return Ok(Some(no));
        }
    }
    match reading.due {
        None => Ok(None),
        Some(_) => Ok(Some(No::Shape { row: number + 1 })),
    }
}
