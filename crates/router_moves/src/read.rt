//! The changes and rows of a text.

ghost use Rattle.std.specs.Prelude.{◌≡◌, ◌≤◌, [], length, OnOk};
ghost use Rattle.fib_addr.specs.Hops.{most_hops};
ghost use Rattle.printed_text.specs.Printed.{printed_row_as};
ghost use Rattle.printed_text.specs.Steps.{Numbers, TakesLine};
ghost use Rattle.printed_text.specs.Reading.{line_in};
ghost use Rattle.router_moves.specs.Said.{said_in};
ghost use Rattle.router_moves.specs.Steps.{hops_after_move, said_after};
ghost use Rattle.router_moves.specs.SaidViews.{IsSaid, said_moves_as};

use bstr::ByteSlice;
use cert_model::Row;
use fib_addr::{HopError, HopTable};
use fib_delta::Change;
use printed_text::{PrintedError, PrintedRow, hop_refused, number_hop, row_of};
use std::alloc::Global;

/// What a text says of moves. Each list keeps the order of its rows.
#[derive(Drop)]
pub struct PrintedMoves {
    /// The changes, whatever their events' numbers; an entry that drops has `Hop::NONE`.
    pub changes: Vec<Change>,
    /// The rows of the certificate; a leaf without a hop has `Hop::NONE`.
    pub rows: Vec<Row>,
}

impl PrintedMoves {
    /// Nothing yet.
    fn new(alloc: Global) -> PrintedMoves
        ensures changes { result.changes.items ≡ [] }
        ensures rows { result.rows.items ≡ [] }
    {
        PrintedMoves {
            changes: Vec::new(alloc),
            rows: Vec::new(alloc),
        }
    }

    /// Keeps what one more row says.
    fn take(&mut self, hops: &mut HopTable, row: &PrintedRow) -> Result<(), HopError>
        requires { length hops.old.list ≤ most_hops }
        ensures { Numbers result (hops_after_move hops.old.list (printed_row_as row.now))
            (λ _. said_moves_as self.new hops.new
            ≡ said_after (said_moves_as self.old hops.old) (printed_row_as row.now)) }
    {
        match *row {
            PrintedRow::Add(_, prefix, hop) => {
                let hop = number_hop(hops, hop)?;
                self.changes.push(Change::Add(prefix, hop))?;
            }
            PrintedRow::Replace(_, prefix, hop) => {
                let hop = number_hop(hops, hop)?;
                self.changes.push(Change::Replace(prefix, hop))?;
            }
            PrintedRow::Remove(_, prefix) => self.changes.push(Change::Remove(prefix))?,
            PrintedRow::Leaf(prefix, hop) => {
                let hop = number_hop(hops, hop)?;
                self.rows.push(Row::Leaf(prefix, hop))?;
            }
            PrintedRow::Join(prefix, k) => self.rows.push(Row::Join(prefix, k))?,
            PrintedRow::Bound(family, changes) => self.rows.push(Row::Bound(family, changes))?,
            _ => {}
        }
        Ok(())
    }

    /// Takes the row of a line that isn't empty.
    fn take_line(
        &mut self,
        hops: &mut HopTable,
        number: u64,
        line: &[u8],
    ) -> Result<(), PrintedError>
        requires { length hops.old.list ≤ most_hops }
        ensures { TakesLine said_after (λ s. s.hops) result (said_moves_as self.old hops.old)
            (said_moves_as self.new hops.new) number (line_in line.now) }
    {
        let row = row_of(number, line)?;
        match self.take(hops, &row) {
            Ok(()) => Ok(()),
            Err(error) => Err(hop_refused(number, error)),
        }
    }
}

/// The changes and the rows of the certificate that a text says; rows of other kinds must be rows, and are dropped. The hops are numbered
/// after those that `hops` has, in the order of their first use in these rows. Costs the text's length.
///
/// After an error some of the hops that came before it are in `hops`, after those that it had.
///
/// # Errors
///
/// `BadRow` names the first line that is no row, or whose hop would be the 65,535th in `hops`. Or out of memory.
#[tactic(auto, using(crate::proofs::Reading::moves_start))]
pub fn read_moves(
    alloc: Global,
    text: &[u8],
    hops: &mut HopTable,
) -> Result<PrintedMoves, PrintedError>
    requires { length hops.old.list ≤ most_hops }
    ensures read { IsSaid result hops.new (said_in hops.old.list text.now) }
    ensures few { OnOk result (length hops.new.list ≤ most_hops) }
{
    let mut said = PrintedMoves::new(alloc);
    let mut number = 0;
    for line in text.lines() {
        number += 1;
        if !line.is_empty() {
            said.take_line(hops, number, line)?;
        }
    }
    Ok(said)
}
