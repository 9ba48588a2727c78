//! Whole printed texts.

ghost use Rattle.std.specs.Prelude.{◌≡◌, ◌<◌, ◌≤◌, ◌+◌, ◌^◌, ◌++◌, List, [], ◌∷◌, length, option_map, IfErr, IfOk, OnOk};
ghost use Rattle.fib_addr.specs.Hops.{most_hops};
ghost use Rattle.fib_addr.specs.Views.{addr_as};
ghost use Rattle.cert_model.specs.Views.{row_as};
ghost use Rattle.printed_text.specs.Reading.{line_in};
ghost use Rattle.printed_text.specs.Rows as model;
ghost use Rattle.printed_text.specs.Texts.{line_texts};
ghost use Rattle.printed_text.specs.Used.{hop_number, printed_in, used_of};
ghost use Rattle.printed_text.specs.Printed.{IsRead, printed_as, printed_row_as};
ghost use Rattle.printed_text.specs.declared.error.PrintedError.TheVariants as printed_error;
ghost use Rattle.printed_text.specs.Steps.{IsHopRefused, IsRowOf, Numbers, TakesLine, TakesLines, hops_after_row, hops_with, used_after};

use crate::error::{BadRow, PrintedError};
use crate::printed_row::{PrintedRow, read_row};
use crate::why;
use bstr::ByteSlice;
use cert_model::Row;
use cert_rows::CertRows;
use fib_addr::{Addr, Entry, Hop, HopError, HopTable};
use std::alloc::Global;

/// What a checker uses of a printed text. Each list keeps the order of its rows, and hops are numbered in the order of their
/// first use in these rows.
#[derive(Drop)]
pub struct Printed {
    /// The routes.
    pub routes: Vec<Entry>,
    /// The entries of the least table; a dropping one has `Hop::NONE`.
    pub least: Vec<Entry>,
    /// The rows of the certificate; a leaf without a hop has `Hop::NONE`.
    pub rows: CertRows,
    /// The hops.
    pub hops: HopTable,
}

/// The line of this number is bad.
fn bad_row(line: u64, why: u8) -> PrintedError
    ensures { result ≡ printed_error.BadRow (record { line = line; why = why }) }
{
    PrintedError::BadRow(BadRow { line, why })
}

/// The row of the line of this number, or why it has none.
///
/// # Errors
///
/// `BadRow`, with the number and why.
pub fn row_of(number: u64, line: &[u8]) -> Result<PrintedRow, PrintedError>
    ensures { IsRowOf result number (line_in line.now) }
{
    read_row(line).map_err(|why| bad_row(number, why))
}

/// Why the line of this number isn't taken, if its hop isn't.
pub fn hop_refused(number: u64, error: HopError) -> PrintedError
    ensures { IsHopRefused number error result }
{
    match error {
        HopError::HopsFull => bad_row(number, why::TOO_MANY_HOPS),
        HopError::NoMemory => PrintedError::NoMemory,
    }
}

/// The number of a hop, which gets one if it has none, and `Hop::NONE` for none.
///
/// # Errors
///
/// The hop would be the 65,535th, or out of memory.
pub fn number_hop(hops: &mut HopTable, hop: Option<Addr>) -> Result<Hop, HopError>
    requires { length hops.old.list ≤ most_hops }
    ensures { Numbers result (hops_with hops.old.list (option_map addr_as hop))
        (λ h. (hops.new.list ≡ hops_with hops.old.list (option_map addr_as hop))
        × (h.0 ≡ hop_number hops.new.list (option_map addr_as hop))) }
{
    match hop {
        Some(addr) => hops.number(&addr),
        None => Ok(Hop::NONE),
    }
}

/// Keeps a row of the certificate, after the others.
fn keep_row(rows: &mut CertRows, row: &Row) -> Result<(), HopError>
    ensures kept { OnOk result (rows.new ≡ rows.old ++ row_as row.now ∷ []) }
    ensures none { IfErr result (λ e. e ≡ HopError.NoMemory) }
{
    match rows.push(row) {
        Ok(()) => Ok(()),
        Err(_) => Err(HopError::NoMemory),
    }
}

impl Printed {
    /// Nothing yet.
    pub(crate) fn new(alloc: Global) -> Printed
        ensures { printed_as result ≡ used_of [] }
    {
        Printed {
            routes: Vec::new(alloc),
            least: Vec::new(alloc),
            rows: CertRows::new(alloc),
            hops: HopTable::new(alloc),
        }
    }

    /// Keeps what a checker uses of one more row.
    fn take(&mut self, row: &PrintedRow) -> Result<(), HopError>
        requires { length self.old.hops.list ≤ most_hops }
        ensures { Numbers result (hops_after_row self.old.hops.list (printed_row_as row.now))
            (λ _. printed_as self.new ≡ used_after (printed_as self.old) (printed_row_as row.now)) }
    {
        match *row {
            PrintedRow::Route(prefix, addr) => {
                let hop = number_hop(&mut self.hops, Some(addr))?;
                self.routes.push(Entry { prefix, hop })?;
            }
            PrintedRow::Least(prefix, hop) => {
                let hop = number_hop(&mut self.hops, hop)?;
                self.least.push(Entry { prefix, hop })?;
            }
            PrintedRow::Leaf(prefix, hop) => {
                let hop = number_hop(&mut self.hops, hop)?;
                keep_row(&mut self.rows, &Row::Leaf(prefix, hop))?;
            }
            PrintedRow::Join(prefix, k) => keep_row(&mut self.rows, &Row::Join(prefix, k))?,
            PrintedRow::Bound(family, entries) => keep_row(
                &mut self.rows,
                &Row::Bound(family, entries),
            )?,
            _ => {}
        }
        Ok(())
    }

    /// Takes the row of a line that isn't empty.
    fn take_line(&mut self, number: u64, line: &[u8]) -> Result<(), PrintedError>
        requires { length self.old.hops.list ≤ most_hops }
        ensures { TakesLine used_after (λ u. u.hops) result (printed_as self.old)
            (printed_as self.new) number (line_in line.now) }
    {
        let row = row_of(number, line)?;
        match self.take(&row) {
            Ok(()) => Ok(()),
            Err(error) => Err(hop_refused(number, error)),
        }
    }

    /// Takes the rows of a text's lines, after `lines` lines before it, and returns how many lines these are together.
    ///
    /// # Errors
    ///
    /// The first line that is no row, or whose hop is one too many; or out of memory.
    #[tactic(auto, using(crate::proofs::LinesTaken::goes_on))]
    pub(crate) fn take_lines(&mut self, lines: u64, text: &[u8]) -> Result<u64, PrintedError>
        requires few { length self.old.hops.list ≤ most_hops }
        requires fits { lines + length text.now < 2 ^ 64 }
        ensures few { OnOk result (length self.new.hops.list ≤ most_hops) }
        ensures counted { IfOk result (λ n. n ≤ lines + length text.now) }
        ensures taken { (rows : List model.PrintedRow) → printed_as self.old ≡ used_of rows
            → TakesLines result rows lines (line_texts text.now) (printed_as self.new) }
    {
        let mut number = lines;
        for line in text.lines() {
            number += 1;
            if !line.is_empty() {
                self.take_line(number, line)?;
            }
        }
        Ok(number)
    }
}

/// Reads a printed text. `BadRow` names the first line that is no row, or whose hop is one too many. Costs the text's
/// length.
pub fn read_printed(alloc: Global, text: &[u8]) -> Result<Printed, PrintedError>
    ensures { IsRead result (printed_in text.now) }
{
    let mut printed = Printed::new(alloc);
    printed.take_lines(0, text)?;
    Ok(printed)
}
