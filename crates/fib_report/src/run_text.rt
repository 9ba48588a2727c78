//! The text of a run, written section by section.
//!
//! A section's rows are written from a list that can be dropped then, or one by one as its entries or the certificate's rows come.
//! The text is made in the memory in which it is returned, after csv's buffer; it costs its rows' length.

ghost use Rattle.std.specs.Prelude.{◌≡◌, [], ◌++◌, ◌∷◌, flat_map, map, IfOk, OnOk};
ghost use Rattle.fib_addr.specs.Views.{entry_as};
ghost use Rattle.fib_delta.specs.Views.{change_as};
ghost use Rattle.cert_model.specs.Views.{row_as};
ghost use Rattle.printed_text.specs.Numbered.{of_cert};
ghost use Rattle.fib_report.specs.Rows.{of_answer, of_change, of_invalid, of_moves, report_rows, section_rows};
ghost use Rattle.fib_report.specs.Views.{answer_as, invalid_as, moves_as};

use crate::hop_texts::HopTexts;
use crate::rows::{
    put_answers, put_cert, put_change_row, put_changes, put_entry, put_invalid_row, put_moves_row,
    put_part, put_report, row_writer,
};
use crate::run::{Answer, Invalid, Moves, Report};
use crate::section::Section;
use cert_model::{Row, RowSink};
use csv::Writer;
use fib_addr::{Entry, HopTable};
use fib_delta::Change;
use std::alloc::{AllocError, Global};

/// The text of a run so far. After an `Err`, which means that memory ran out, nothing more is to be written to it.
#[derive(Drop)]
pub struct RunText<'a> {
    out: Writer<Vec<u8>>,
    hops: HopTexts<'a>,
}

impl<'a> RunText<'a> {
    ghost use Rattle.fib_report.specs.Sections.{IsReady, WritesRows, text_hops, text_in};

    /// No row yet. The numbers of hops are those of this table.
    pub fn new(alloc: Global, hops: &'a HopTable) -> RunText<'a>
        ensures ready { IsReady result }
        ensures hops { text_hops result ≡ hops.now.list }
        ensures empty { text_in result ≡ [] }
    {
        RunText {
            out: row_writer(alloc),
            hops: HopTexts::new(alloc, hops),
        }
    }

    /// Writes the row of an entry in its section, if it has one.
    pub(crate) fn entry(&mut self, section: Section, entry: &Entry) -> Result<(), AllocError>
        requires { IsReady self.old }
        ensures { OnOk result (WritesRows self.old self.new (section_rows section (text_hops self.old)
            (entry_as entry.now ∷ []))) }
    {
        put_entry(&mut self.out, section, entry, &self.hops)?;
        Ok(())
    }

    /// Writes the rows of a section from a list of its entries. What `section` gives takes them one by one.
    pub fn entries(&mut self, section: Section, entries: &[Entry]) -> Result<(), AllocError>
        requires { IsReady self.old }
        ensures { OnOk result (WritesRows self.old self.new (section_rows section (text_hops self.old)
            (map entry_as entries.now))) }
    {
        for entry in entries {
            self.entry(section, entry)?;
        }
        Ok(())
    }

    /// Writes the row of an Invalid announcement.
    pub fn invalid(&mut self, invalid: &Invalid) -> Result<(), AllocError>
        requires { IsReady self.old }
        ensures { OnOk result (WritesRows self.old self.new
            (of_invalid (invalid_as invalid.now) ∷ [])) }
    {
        put_invalid_row(&mut self.out, invalid)?;
        Ok(())
    }

    /// Writes the rows of Invalid announcements from a list.
    pub fn invalids(&mut self, invalids: &[Invalid]) -> Result<(), AllocError>
        requires { IsReady self.old }
        ensures { OnOk result (WritesRows self.old self.new
            (map of_invalid (map invalid_as invalids.now))) }
    {
        for invalid in invalids {
            self.invalid(invalid)?;
        }
        Ok(())
    }

    /// Writes changes, each with its event's number.
    pub fn changes(&mut self, changes: &[(u64, Change)]) -> Result<(), AllocError>
        requires { IsReady self.old }
        ensures { OnOk result (WritesRows self.old self.new (map (of_change (text_hops self.old))
            (map (λ c. (c.0, change_as c.1)) changes.now))) }
    {
        put_changes(&mut self.out, changes, &self.hops)?;
        Ok(())
    }

    /// Writes the row of a change that the event of this number makes.
    fn change(&mut self, event: u64, change: &Change) -> Result<(), AllocError>
        requires { IsReady self.old }
        ensures { OnOk result (WritesRows self.old self.new
            (of_change (text_hops self.old) (event, change_as change.now) ∷ [])) }
    {
        put_change_row(&mut self.out, event, change, &self.hops)?;
        Ok(())
    }

    /// Writes the changes that the event of this number makes.
    pub fn event(&mut self, event: u64, changes: &[Change]) -> Result<(), AllocError>
        requires { IsReady self.old }
        ensures { OnOk result (WritesRows self.old self.new
            (map (λ c. of_change (text_hops self.old) (event, c)) (map change_as changes.now))) }
    {
        for change in changes {
            self.change(event, change)?;
        }
        Ok(())
    }

    /// Writes the row of how many changes an event needed.
    fn moves_of(&mut self, moves: &Moves) -> Result<(), AllocError>
        requires { IsReady self.old }
        ensures { OnOk result (WritesRows self.old self.new (of_moves (moves_as moves.now) ∷ [])) }
    {
        put_moves_row(&mut self.out, moves)?;
        Ok(())
    }

    /// Writes how many changes each event of a list needed.
    pub fn moves(&mut self, moves: &[Moves]) -> Result<(), AllocError>
        requires { IsReady self.old }
        ensures { OnOk result (WritesRows self.old self.new
            (map of_moves (map moves_as moves.now))) }
    {
        for event in moves {
            self.moves_of(event)?;
        }
        Ok(())
    }

    /// Writes answers.
    pub fn answers(&mut self, answers: &[Answer]) -> Result<(), AllocError>
        requires { IsReady self.old }
        ensures { OnOk result (WritesRows self.old self.new (flat_map (of_answer (text_hops self.old))
            (map answer_as answers.now))) }
    {
        put_answers(&mut self.out, answers, &self.hops)?;
        Ok(())
    }

    /// Writes the rows of a certificate from a list. As a `RowSink` the text takes them one by one.
    pub fn certificate(&mut self, rows: &[Row]) -> Result<(), AllocError>
        requires { IsReady self.old }
        ensures { OnOk result (WritesRows self.old self.new (map (of_cert (text_hops self.old))
            (map row_as rows.now))) }
    {
        put_cert(&mut self.out, rows, &self.hops)?;
        Ok(())
    }

    /// Writes the counts.
    pub fn report(&mut self, report: &Report) -> Result<(), AllocError>
        requires { IsReady self.old }
        ensures { OnOk result (WritesRows self.old self.new (report_rows report.now)) }
    {
        put_report(&mut self.out, report)?;
        Ok(())
    }

    /// The text.
    pub fn finish(self) -> Result<Vec<u8>, AllocError>
        ensures { IfOk result (λ text. text.items ≡ text_in self.entry) }
    {
        self.out.into_inner().map_err(|_| AllocError)
    }
}

impl<'a> RowSink for RunText<'a> {
    ghost use Rattle.fib_report.specs.Sections.{IsReady, TakesRows, takes_more};

    ghost ready = { IsReady };

    ghost takes = { TakesRows };

    ghost more = { takes_more };

    fn put(&mut self, row: Row) -> Result<(), AllocError> {
        put_part(&mut self.out, &row, &self.hops)?;
        Ok(())
    }
}
