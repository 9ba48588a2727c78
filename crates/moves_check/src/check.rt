//! The verdict on a list of changes.

ghost use Rattle.std.specs.Prelude.{◌≡◌, ◌<◌, ◌^◌, ℕ, [], cond, nat_lt, None, Some, map, option_map, IfOk, IfErr, OnOk, is_some};
ghost use Rattle.std.specs.Option.{option_or};
ghost use Rattle.table_model.specs.Width.{width};
ghost use Rattle.table_model.specs.Entries.{Entries, in_order};
ghost use Rattle.cert_model.specs.Verdict.{twice};
ghost use Rattle.cert_check.specs.Runs.{AreRuns, Below, RunsTell};
ghost use Rattle.cert_model.specs.Views.{row_as};
ghost use Rattle.fib_addr.specs.Views.{entry_as};
ghost use Rattle.fib_delta.specs.Views.{InPlace, change_as};
ghost use Rattle.moves_model.specs.Shortest.{AreShortest, AreProvedShortest};
ghost use Rattle.moves_model.specs.Verdict.{Twice, Apply, NotShortest, first_refused, changed_by, changed_by_all, moves_verdict, wrong_moves_row};
ghost use Rattle.moves_model.specs.Verdict.{too_many as model_too_many};
ghost use Rattle.table_model.specs.Changes.{after_change};
ghost use Rattle.moves_model.specs.Verdict.{answers_differ as model_answers_differ};
ghost use Rattle.moves_check.specs.Views.{no_moves_as, IfNoMoves, AreEntriesOf, AreChangesOf, AreRowsOf};
ghost use Rattle.moves_check.specs.Stack.{IsAsked};

use crate::refusal::{MovesError, NoMoves};
use crate::rows::{Against, Reading, read_rows};
use cert_check::{Run, differ_in, first_twice, runs_of};
use cert_model::Row;
use fib_addr::{Entry, Family};
use fib_delta::{ApplyError, Change, Table};
use std::alloc::{AllocError, Global};

/// A prefix that stands twice in the old table, or else in the routes.
fn find_repeat(
    alloc: Global,
    old: &[Entry],
    routes: &[Entry],
) -> Result<Option<NoMoves>, AllocError>
    ensures { IfOk result (λ no. option_map no_moves_as no ≡ option_or
        (option_map Twice (twice (map entry_as old.now)))
        (option_map Twice (twice (map entry_as routes.now)))) }
{
    if let Some(prefix) = first_twice(alloc, old)? {
        return Ok(Some(NoMoves::Twice { prefix }));
    }
    if let Some(prefix) = first_twice(alloc, routes)? {
        return Ok(Some(NoMoves::Twice { prefix }));
    }
    Ok(None)
}

/// The old table, in the order of prefixes. No prefix stands twice in it by then, so the table refuses no entry.
fn table_of(alloc: Global, old: &[Entry]) -> Result<Table, AllocError>
    ensures { IfOk result (λ t. t ≡ in_order (map entry_as old.now)) }
{
    let mut table = Table::new(alloc);
    for entry in old {
        if table.apply(&Change::Add(entry.prefix, entry.hop)).is_err() {
            return Err(AllocError);
        }
    }
    Ok(table)
}

/// Makes a change. Returns false if the table refuses it.
fn take(table: &mut Table, change: &Change) -> Result<bool, AllocError>
    ensures taken { IfOk result (λ b. b ≡ is_some (after_change (change_as change.now) table.old)) }
    ensures made { OnOk result (table.new ≡ changed_by (change_as change.now) table.old) }
{
    match table.apply(change) {
        Ok(()) => Ok(true),
        Err(ApplyError::NoMemory) => Err(AllocError),
        Err(_) => Ok(false),
    }
}

/// The first change that the table refuses; if there is none, the table has taken all.
fn find_refused(table: &mut Table, changes: &[Change]) -> Result<Option<NoMoves>, AllocError>
    ensures refused { IfOk result (λ no. option_map no_moves_as no ≡ option_map Apply
        (first_refused (map change_as changes.now) table.old 1)) }
    ensures made { IfOk result (λ no. no ≡ None
        → table.new ≡ changed_by_all (map change_as changes.now) table.old) }
{
    for i in 0..changes.len() {
        if !take(table, &changes[i])? {
            return Ok(Some(NoMoves::Apply {
                index: i as u64 + 1,
            }));
        }
    }
    Ok(None)
}

/// The least address that gets different hops, with both.
fn answers_differ(runs: &[Run], has: &[Run], family: Family) -> Option<NoMoves>
    requires first { AreRuns 0 runs.now }
    requires second { AreRuns 0 has.now }
    requires below { Below (2 ^ width family) runs.now }
    requires below_too { Below (2 ^ width family) has.now }
    ensures { (R N : Entries) → RunsTell family R runs.now → RunsTell family N has.now
        → option_map no_moves_as result ≡ model_answers_differ R N family }
{
    match differ_in(runs, has, family) {
        None => None,
        Some(differ) => Some(NoMoves::NotSame {
            addr: differ.addr,
            want: differ.first,
            has: differ.second,
        }),
    }
}

/// A row that is wrong, or else that there are too many changes.
fn wrong_in(
    alloc: Global,
    against: &Against<'_>,
    changes: &[Change],
    rows: &[Row],
) -> Result<Option<NoMoves>, AllocError>
    requires old { InPlace (map entry_as against.now.old.now) }
    requires family { AreRowsOf against.now.family (map row_as rows.now) }
    ensures { IfOk result (λ no. (R T : Entries) → IsAsked against.now R T → option_map no_moves_as no
        ≡ option_or (wrong_moves_row R T against.now.family (map row_as rows.now) [] 1)
        (model_too_many R T against.now.family (map change_as changes.now))) }
{
    let mut reading = Reading {
        stack: Vec::new(alloc),
        place: 0,
        bound: None,
    };
    if let Some(no) = read_rows(alloc, against, rows, &mut reading)? {
        return Ok(Some(no));
    }
    Ok(too_many(reading.bound, changes.len() as u64))
}

/// More changes than the bound.
fn too_many(bound: Option<u64>, changes: u64) -> Option<NoMoves>
    ensures { (b : ℕ) → bound ≡ Some b → option_map no_moves_as result
        ≡ cond (nat_lt b changes) (Some (NotShortest changes b)) None }
{
    match bound {
        Some(bound) if bound < changes => Some(NoMoves::NotShortest { changes, bound }),
        _ => None,
    }
}

/// The first thing that is wrong.
fn first_wrong(
    alloc: Global,
    family: Family,
    old: &[Entry],
    routes: &[Entry],
    changes: &[Change],
    rows: &[Row],
) -> Result<Option<NoMoves>, AllocError>
    requires { AreRowsOf family (map row_as rows.now) }
    ensures { IfOk result (λ no. option_map no_moves_as no ≡ moves_verdict family (map entry_as old.now)
        (map entry_as routes.now) (map change_as changes.now) (map row_as rows.now)) }
{
    if let Some(no) = find_repeat(alloc, old, routes)? {
        return Ok(Some(no));
    }
    let mut table = table_of(alloc, old)?;
    let kept = table.entries()?;
    if let Some(no) = find_refused(&mut table, changes)? {
        return Ok(Some(no));
    }
    let changed = table.entries()?;
    let runs = runs_of(alloc, routes, family)?;
    let has = runs_of(alloc, &changed, family)?;
    if let Some(no) = answers_differ(&runs, &has, family) {
        return Ok(Some(no));
    }
    let against = Against {
        family,
        old: &kept,
        runs: &runs,
    };
    wrong_in(alloc, &against, changes, rows)
}

/// Checks that the changes make the old table answer as the routes do, and that the rows prove that no fewer changes would do.
/// Nobody's word is taken for it. All is of one family; rows up to the first of the other family are judged as those that end there.
///
/// # Errors
///
/// What is wrong, the first in this order: a prefix that stands twice in the old table, then in the routes; a change that the
/// table refuses, over the old entries in the order of prefixes; the least address that the changed table answers otherwise; the
/// first wrong row; more changes than the bound. Or out of memory.
pub fn check_moves(
    alloc: Global,
    family: Family,
    old: &[Entry],
    routes: &[Entry],
    changes: &[Change],
    rows: &[Row],
) -> Result<(), MovesError>
    requires old { AreEntriesOf family (map entry_as old.now) }
    requires routes { AreEntriesOf family (map entry_as routes.now) }
    requires changes { AreChangesOf family (map change_as changes.now) }
    requires rows { AreRowsOf family (map row_as rows.now) }
    ensures shortest { OnOk result (AreShortest family (map entry_as routes.now)
        (map entry_as old.now) (map change_as changes.now)) }
    ensures proved { OnOk result (AreProvedShortest family (map entry_as routes.now)
        (map entry_as old.now) (map change_as changes.now) (map row_as rows.now)) }
    ensures unproved { IfErr result (λ e. IfNoMoves e (λ x. AreProvedShortest family
        (map entry_as routes.now) (map entry_as old.now) (map change_as changes.now)
        (map row_as rows.now) → ⊥)) }
    ensures wrong { IfErr result (λ e. IfNoMoves e (λ x. moves_verdict family (map entry_as old.now)
        (map entry_as routes.now) (map change_as changes.now) (map row_as rows.now)
        ≡ Some (no_moves_as x))) }
{
    match first_wrong(alloc, family, old, routes, changes, rows)? {
        None => Ok(()),
        Some(no) => Err(MovesError::NoMoves(no)),
    }
}
