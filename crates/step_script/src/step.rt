//! A step, and the line that it stands on.

ghost use Rattle.octet_fields.specs.Gives.{Gives};
ghost use Rattle.fib_addr.specs.Views.{addr_as};
ghost use Rattle.step_script.specs.Script.{fieldless, cursor_field, step_in, step_of};
ghost use Rattle.step_script.specs.Steps.{step_as};

use fib_addr::{Addr, read_number};
use printed_text::fields::{Fields, address_field, is, next_field, one_field};
use printed_text::why;

/// A step of a run.
#[derive(Clone, Copy, Debug, PartialEq, Eq)]
pub enum Step {
    /// A lookup of this address is opened.
    Open(Addr),
    /// The open lookup of this printed number, below 128, goes on by one read.
    Go(u8),
    /// The next event is prepared.
    Prepare,
    /// The event that was begun makes its next store.
    Store,
    /// The event that was begun is ended.
    End,
    /// The event that was begun is cancelled.
    Cancel,
}

/// A step without more fields.
#[tactic(auto, using(crate::proofs::More::bare_more))]
fn bare_step(step: Step, fields: Fields<'_>) -> Result<Step, u8>
    ensures { Gives step_as result (fieldless (step_as step) fields.entry) }
{
    if fields.is_empty() {
        Ok(step)
    } else {
        Err(why::FIELDS)
    }
}

/// The printed number of a lookup.
fn cursor(text: &[u8]) -> Result<u8, u8>
    ensures { Gives (λ n. n) result (cursor_field text.now) }
{
    match read_number(text, 127) {
        Some(number) => Ok(number as u8),
        None => Err(why::NUMBER),
    }
}

/// The step of this word and the fields after it.
#[tactic(auto, unfolding(crate::specs::Script::step_of))]
fn step_of(word: &[u8], fields: Fields<'_>) -> Result<Step, u8>
    ensures { Gives step_as result (step_of word.now fields.entry) }
{
    if is(word, b"open") {
        let addr = address_field(one_field(fields)?)?;
        return Ok(Step::Open(addr));
    }
    if is(word, b"go") {
        let number = cursor(one_field(fields)?)?;
        return Ok(Step::Go(number));
    }
    if is(word, b"prepare") {
        return bare_step(Step::Prepare, fields);
    }
    if is(word, b"store") {
        return bare_step(Step::Store, fields);
    }
    if is(word, b"end") {
        return bare_step(Step::End, fields);
    }
    if is(word, b"cancel") {
        return bare_step(Step::Cancel, fields);
    }
    Err(why::WORD)
}

/// The step of a line without its end.
///
/// # Errors
///
/// The line has none; the number says why (`printed_text::why`).
#[tactic(auto, unfolding(crate::specs::Script::step_in))]
pub fn read_step(line: &[u8]) -> Result<Step, u8>
    ensures { Gives step_as result (step_in line.now) }
{
    let (word, fields) = next_field(Fields::of(line, b' '))?;
    step_of(word, fields)
}
