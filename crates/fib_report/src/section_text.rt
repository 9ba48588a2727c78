//! The text of a run within a section of entries, which takes them one by one.

ghost use Rattle.std.specs.Prelude.{◌≡◌};

use crate::run_text::RunText;
use crate::section::Section;
use fib_addr::{Entry, EntrySink};
use std::alloc::AllocError;

/// The text of a run within a section: it writes the rows of the entries that it takes, and counts these, also those without a
/// row. After an `Err`, which means that memory ran out or that there are 2^64 entries, nothing more is to be written to it.
#[derive(Drop)]
pub struct SectionText<'a> {
    text: RunText<'a>,
    section: Section,
    count: u64,
}

impl<'a> RunText<'a> {
    ghost use Rattle.fib_report.specs.SectionRows.{run_in, section_in, taken_in};

    /// Begins a section, which takes its entries one by one, and has the text until it ends.
    pub fn section(self, section: Section) -> SectionText<'a>
        ensures text { run_in result ≡ self.entry }
        ensures section { section_in result ≡ section }
        ensures count { taken_in result ≡ 0 }
    {
        SectionText {
            text: self,
            section,
            count: 0,
        }
    }
}

impl<'a> SectionText<'a> {
    ghost use Rattle.fib_report.specs.SectionRows.{run_in, taken_in};

    /// The text after the section, and how many entries the section took.
    pub fn end(self) -> (RunText<'a>, u64)
        ensures text { result.0 ≡ run_in self.entry }
        ensures count { result.1 ≡ taken_in self.entry }
    {
        (self.text, self.count)
    }
}

impl<'a> EntrySink for SectionText<'a> {
    ghost use Rattle.fib_report.specs.Sections.{IsReady};
    ghost use Rattle.fib_report.specs.SectionRows.{TakesEntries, run_in, takes_more, takes_none};

    ghost ready = { λ s. IsReady (run_in s) };

    ghost takes = { TakesEntries };

    ghost none = { takes_none };

    ghost more = { takes_more };

    fn put(&mut self, entry: Entry) -> Result<(), AllocError> {
        self.count = self.count.checked_add(1).ok_or(AllocError)?;
        self.text.entry(self.section, &entry)?;
        Ok(())
    }
}
