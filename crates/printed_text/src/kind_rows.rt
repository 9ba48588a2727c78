//! The entries that the rows of one kind say.

ghost use Rattle.std.specs.Prelude.{◌≡◌, ◌≤◌, ◌++◌, length, map, OnOk, option_map};
ghost use Rattle.fib_addr.specs.Hops.{most_hops};
ghost use Rattle.fib_addr.specs.Views.{addr_as, entry_as, prefix_as};
ghost use Rattle.printed_text.specs.Kinds.{kind_in};
ghost use Rattle.printed_text.specs.Reading.{line_in};
ghost use Rattle.printed_text.specs.Used.{said_by};
ghost use Rattle.printed_text.specs.Printed.{IsKind, kind_as, printed_row_as};
ghost use Rattle.printed_text.specs.Steps.{Numbers, TakesLine, hops_of_kind, hops_with, kind_after};

use crate::Kind;
use crate::error::PrintedError;
use crate::printed::{hop_refused, number_hop, row_of};
use crate::printed_row::PrintedRow;
use bstr::ByteSlice;
use fib_addr::{Addr, Entry, HopError, HopTable, Prefix};
use std::alloc::Global;

/// The prefix and the hop of a row of this kind, `None` if the row isn't of it.
fn said_by(kind: Kind, row: &PrintedRow) -> Option<(Prefix, Option<Addr>)>
    ensures { option_map (λ e. (prefix_as e.0, option_map addr_as e.1)) result
        ≡ said_by kind (printed_row_as row.now) }
{
    match (kind, *row) {
        (Kind::Route, PrintedRow::Route(prefix, addr)) => Some((prefix, Some(addr))),
        (Kind::Table, PrintedRow::Table(prefix, hop)) => Some((prefix, hop)),
        (Kind::Least, PrintedRow::Least(prefix, hop)) => Some((prefix, hop)),
        _ => None,
    }
}

/// Keeps the entry of one more row, if the row is of this kind.
fn take_row(
    entries: &mut Vec<Entry>,
    hops: &mut HopTable,
    kind: Kind,
    row: &PrintedRow,
) -> Result<(), HopError>
    requires { length hops.old.list ≤ most_hops }
    ensures { Numbers result (hops_of_kind kind hops.old.list (printed_row_as row.now))
        (λ _. kind_as entries.new hops.new
        ≡ kind_after kind (kind_as entries.old hops.old) (printed_row_as row.now)) }
{
    if let Some((prefix, hop)) = said_by(kind, row) {
        let hop = number_hop(hops, hop)?;
        entries.push(Entry { prefix, hop })?;
    }
    Ok(())
}

/// Takes the row of a line that isn't empty.
fn take_line(
    entries: &mut Vec<Entry>,
    hops: &mut HopTable,
    kind: Kind,
    number: u64,
    line: &[u8],
) -> Result<(), PrintedError>
    requires { length hops.old.list ≤ most_hops }
    ensures { TakesLine (kind_after kind) (λ k. k.hops) result (kind_as entries.old hops.old)
        (kind_as entries.new hops.new) number (line_in line.now) }
{
    let row = row_of(number, line)?;
    match take_row(entries, hops, kind, &row) {
        Ok(()) => Ok(()),
        Err(error) => Err(hop_refused(number, error)),
    }
}

/// The entries of a text's rows of this kind, in the order of their rows; rows of other kinds must be rows, and are dropped. The hops are
/// numbered after those that `hops` has, in the order of their first use in these rows. `BadRow` names the first line that is no
/// row, or whose hop would be the 65,535th in `hops`. Costs the text's length.
///
/// After an error some of the hops that came before it are in `hops`, after those that it had.
#[tactic(auto, using(crate::proofs::LinesTaken::kind_starts))]
pub fn read_rows(
    alloc: Global,
    text: &[u8],
    kind: Kind,
    hops: &mut HopTable,
) -> Result<Vec<Entry>, PrintedError>
    requires { length hops.old.list ≤ most_hops }
    ensures read { IsKind result hops.new (kind_in kind hops.old.list text.now) }
    ensures few { OnOk result (length hops.new.list ≤ most_hops) }
{
    let mut entries = Vec::new(alloc);
    let mut number = 0;
    for line in text.lines() {
        number += 1;
        if !line.is_empty() {
            take_line(&mut entries, hops, kind, number, line)?;
        }
    }
    Ok(entries)
}
