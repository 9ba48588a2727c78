//! The verdict on a certificate.

ghost use Rattle.std.specs.Prelude.{◌≡◌, ◌+◌, ◌<◌, ◌^◌, ◌∷◌, [], IfOk, IfErr, OnOk, Some, length, map, option_map};
ghost use Rattle.std.specs.Option.{option_or};
ghost use Rattle.table_model.specs.declared.family.Family.TheVariants.{V4, V6};
ghost use Rattle.table_model.specs.Entries.{Entries, of_family};
ghost use Rattle.table_model.specs.Both.{LeastInBoth};
ghost use Rattle.cert_model.specs.Right.{IsCertificate};
ghost use Rattle.cert_model.specs.Verdict.{Twice, twice, wrong_row, too_many_in, verdict};
ghost use Rattle.cert_model.specs.Verdict.{not_same as model_not_same};
ghost use Rattle.fib_addr.specs.Views.{entry_as};
ghost use Rattle.cert_check.specs.Views.{differ_as, no_as, IfNo};
ghost use Rattle.cert_check.specs.Runs.{AreOfBoth, TellsBoth};
ghost use Rattle.cert_check.specs.Stack.{bound_due};

use crate::alike::Differ;
use crate::refusal::{CheckError, No};
use crate::repeats::first_twice;
use crate::rows::{Reading, read_rows};
use crate::sets::no_marks;
use crate::table_runs::TableRuns;
use cert_rows::{CertRows, RowsLeft};
use fib_addr::{Entry, Family};
use std::alloc::{AllocError, Global};

/// A prefix that stands twice in the routes, or else in the table.
fn find_repeat(alloc: Global, routes: &[Entry], table: &[Entry]) -> Result<Option<No>, AllocError>
    ensures { IfOk result (λ no. option_map no_as no ≡ option_or
        (option_map Twice (twice (map entry_as routes.now)))
        (option_map Twice (twice (map entry_as table.now)))) }
{
    if let Some(prefix) = first_twice(alloc, routes)? {
        return Ok(Some(No::Twice { prefix }));
    }
    if let Some(prefix) = first_twice(alloc, table)? {
        return Ok(Some(No::Twice { prefix }));
    }
    Ok(None)
}

fn not_same_no(differ: Differ) -> No
    ensures { no_as result ≡ differ_as differ }
{
    No::NotSame {
        addr: differ.addr,
        want: differ.first,
        has: differ.second,
    }
}

/// The least address that gets different hops.
fn not_same(alloc: Global, runs: &TableRuns, table: &[Entry]) -> Result<Option<No>, AllocError>
    requires { AreOfBoth runs.now }
    ensures { IfOk result (λ no. (R : Entries) → TellsBoth R runs.now
        → option_map no_as no ≡ model_not_same R (map entry_as table.now)) }
{
    let differ = runs.first_differ(alloc, table)?;
    Ok(differ.map(not_same_no))
}

/// How many entries are of the family.
fn count_of(entries: &[Entry], family: Family) -> u64
    ensures { result ≡ length (of_family family (map entry_as entries.now)) }
{
    let mut count = 0;
    for entry in entries {
        if entry.prefix.family == family {
            count += 1;
        }
    }
    count
}

fn too_many(table: &[Entry], family: Family, bound: u64) -> Option<No>
    ensures { (R : Entries) → bound_due family R ≡ bound → option_map no_as result
        ≡ too_many_in R (map entry_as table.now) family }
{
    let entries = count_of(table, family);
    if bound < entries {
        Some(No::NotLeast {
            family,
            entries,
            bound,
        })
    } else {
        None
    }
}

/// A row that is wrong, or else a family with too many entries.
fn wrong_in(
    alloc: Global,
    runs: &TableRuns,
    table: &[Entry],
    rows: RowsLeft<'_>,
) -> Result<Option<No>, AllocError>
    requires few { length rows + 1 < 2 ^ 64 }
    ensures { IfOk result (λ no. (R : Entries) → TellsBoth R runs.now
        → option_map no_as no ≡ option_or (wrong_row R rows.entry (V4 ∷ V6 ∷ []) [] 1)
        (option_or (too_many_in R (map entry_as table.now) V4)
        (too_many_in R (map entry_as table.now) V6))) }
{
    let mut reading = Reading {
        due: Some(Family::V4),
        stack: Vec::new(alloc),
        place: 0,
        marks: no_marks(alloc)?,
        v4: 0,
        v6: 0,
    };
    if let Some(no) = read_rows(alloc, runs, rows, &mut reading)? {
        return Ok(Some(no));
    }
    if let Some(no) = too_many(table, Family::V4, reading.v4) {
        return Ok(Some(no));
    }
    Ok(too_many(table, Family::V6, reading.v6))
}

fn first_wrong(
    alloc: Global,
    routes: &[Entry],
    table: &[Entry],
    rows: RowsLeft<'_>,
) -> Result<Option<No>, AllocError>
    requires few { length rows + 1 < 2 ^ 64 }
    ensures { IfOk result (λ no. option_map no_as no ≡ verdict (map entry_as routes.now)
        (map entry_as table.now) rows.entry) }
{
    if let Some(no) = find_repeat(alloc, routes, table)? {
        return Ok(Some(no));
    }
    let runs = TableRuns::new(alloc, routes)?;
    if let Some(no) = not_same(alloc, &runs, table)? {
        return Ok(Some(no));
    }
    wrong_in(alloc, &runs, table, rows)
}

/// Checks that the rows prove the table least for the routes. Nobody's word is taken for it.
///
/// # Errors
///
/// What is wrong, the first in this order: a prefix that stands twice in the routes, then in the table; the least address
/// that the table answers otherwise; the first wrong row; too many entries, of IPv4, then of IPv6. Or out of memory.
pub fn check(
    alloc: Global,
    routes: &[Entry],
    table: &[Entry],
    rows: &CertRows,
) -> Result<(), CheckError>
    ensures right { OnOk result (IsCertificate (map entry_as routes.now) (map entry_as table.now)
        rows.now) }
    ensures least { OnOk result (LeastInBoth (map entry_as routes.now) (map entry_as table.now)) }
    ensures wrong { IfErr result (λ e. IfNo e (λ x. IsCertificate (map entry_as routes.now)
        (map entry_as table.now) rows.now → ⊥)) }
    ensures no { IfErr result (λ e. IfNo e (λ x. verdict (map entry_as routes.now)
        (map entry_as table.now) rows.now ≡ Some (no_as x))) }
{
    match first_wrong(alloc, routes, table, rows.rows())? {
        None => Ok(()),
        Some(no) => Err(CheckError::No(no)),
    }
}
