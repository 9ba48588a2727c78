//! The rows, written in the order of their steps, which are numbered from 1.
//!
//!     step,N,open,LOOKUP           step,N,full
//!     step,N,on,LOOKUP             step,N,hop,LOOKUP,HOP     step,N,notopen,LOOKUP
//!     step,N,prepared              step,N,pinned,LOOKUP      step,N,busy
//!     step,N,stored                step,N,ended              step,N,left
//!     step,N,cancelled             step,N,late               step,N,nothing
//!
//! LOOKUP is the number of a lookup, HOP the hop's address or `none`.

ghost use Rattle.std.specs.Prelude.{◌≡◌, ◌∷◌, ◌++◌, ◌+◌, ◌<◌, ◌^◌, List, [], codes, decimal, option_map, IfOk, OnOk};
ghost use Rattle.fib_addr.specs.Views.{addr_as};
ghost use Rattle.printed_text.specs.Rows.{hop_text, line};
ghost use Rattle.step_script.specs.Rows.{StepRow, row_line, rows_text};
ghost use Rattle.fib_report.specs.Writing.{AddsRows, IsAtRow};
ghost use Rattle.step_script.specs.RowViews.{step_row_as};

use crate::row::Row;
use csv::Writer;
use fib_addr::{Addr, MOST_TEXT};
use fib_report::{hop_field, put_fields, row_writer};
use itoa::Buffer;
use std::alloc::{AllocError, Global};
use std::io::Write;

/// Writes a row of a word alone.
fn put_word<W: Write + Drop>(out: &mut Writer<W>, step: u64, word: &[u8]) -> Result<(), AllocError>
    requires { IsAtRow out.old }
    ensures { OnOk result (AddsRows W.contents out.old out.new
        (line (codes "step" ∷ decimal step ∷ word.now ∷ []))) }
{
    let mut digits = Buffer::new();
    let step = digits.format(step).as_bytes();
    put_fields(out, &[b"step", step, word])
}

/// Writes a row of a word and a lookup.
fn put_lookup<W: Write + Drop>(
    out: &mut Writer<W>,
    step: u64,
    word: &[u8],
    lookup: u8,
) -> Result<(), AllocError>
    requires { IsAtRow out.old }
    ensures { OnOk result (AddsRows W.contents out.old out.new
        (line (codes "step" ∷ decimal step ∷ word.now ∷ decimal lookup ∷ []))) }
{
    let mut digits = Buffer::new();
    let mut lookup_digits = Buffer::new();
    let step = digits.format(step).as_bytes();
    let lookup = lookup_digits.format(lookup).as_bytes();
    put_fields(out, &[b"step", step, word, lookup])
}

/// Writes a row of a lookup's answer.
fn put_answer<W: Write + Drop>(
    out: &mut Writer<W>,
    step: u64,
    lookup: u8,
    hop: Option<Addr>,
) -> Result<(), AllocError>
    requires { IsAtRow out.old }
    ensures { OnOk result (AddsRows W.contents out.old out.new
        (line (codes "step" ∷ decimal step ∷ codes "hop" ∷ decimal lookup ∷ hop_text
        (codes "none") (option_map addr_as hop) ∷ []))) }
{
    let mut digits = Buffer::new();
    let mut lookup_digits = Buffer::new();
    let mut text = [0; MOST_TEXT];
    let step = digits.format(step).as_bytes();
    let lookup = lookup_digits.format(lookup).as_bytes();
    let hop = hop_field(&mut text, hop, b"none");
    put_fields(out, &[b"step", step, b"hop", lookup, hop])
}

/// Writes the row of the step of this number.
fn put_row<W: Write + Drop>(out: &mut Writer<W>, step: u64, row: Row) -> Result<(), AllocError>
    requires { IsAtRow out.old }
    ensures { OnOk result (AddsRows W.contents out.old out.new (row_line step (step_row_as row))) }
{
    match row {
        Row::Opened(lookup) => put_lookup(out, step, b"open", lookup),
        Row::Full => put_word(out, step, b"full"),
        Row::WentOn(lookup) => put_lookup(out, step, b"on", lookup),
        Row::Answered(lookup, hop) => put_answer(out, step, lookup, hop),
        Row::NotOpen(lookup) => put_lookup(out, step, b"notopen", lookup),
        Row::Prepared => put_word(out, step, b"prepared"),
        Row::Pinned(lookup) => put_lookup(out, step, b"pinned", lookup),
        Row::Busy => put_word(out, step, b"busy"),
        Row::Stored => put_word(out, step, b"stored"),
        Row::Ended => put_word(out, step, b"ended"),
        Row::Left => put_word(out, step, b"left"),
        Row::Cancelled => put_word(out, step, b"cancelled"),
        Row::Late => put_word(out, step, b"late"),
        Row::Nothing => put_word(out, step, b"nothing"),
    }
}

/// The text of the rows of steps so far, which are numbered from 1. After an `Err`, which means that memory ran out, nothing more is to be
/// written to it.
#[derive(Drop)]
pub struct StepText {
    out: Writer<Vec<u8>>,
    steps: u64,
}

impl StepText {
    ghost use Rattle.step_script.specs.Texts.{HasWritten};

    /// No row yet.
    pub fn new(alloc: Global) -> StepText
        ensures rows { HasWritten [] result }
        ensures steps { result.steps ≡ 0 }
    {
        StepText {
            out: row_writer(alloc),
            steps: 0,
        }
    }

    /// Writes the row of the next step.
    ///
    /// # Errors
    ///
    /// Out of memory.
    pub fn put(&mut self, row: Row) -> Result<(), AllocError>
        requires few { self.old.steps + 1 < 2 ^ 64 }
        requires so_far { (rows : List StepRow) × HasWritten rows self.old }
        ensures rows { OnOk result ((rows : List StepRow) → HasWritten rows self.old
            → HasWritten (rows ++ step_row_as row ∷ []) self.new) }
        ensures steps { OnOk result (self.new.steps ≡ self.old.steps + 1) }
    {
        let step = self.steps + 1;
        put_row(&mut self.out, step, row)?;
        self.steps = step;
        Ok(())
    }

    /// The text.
    ///
    /// # Errors
    ///
    /// Out of memory.
    pub fn finish(self) -> Result<Vec<u8>, AllocError>
        ensures { IfOk result (λ text. (rows : List StepRow) → HasWritten rows self
            → text.items ≡ rows_text 1 rows) }
    {
        self.out.into_inner().map_err(|_| AllocError)
    }
}
