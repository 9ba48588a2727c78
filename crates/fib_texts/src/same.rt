//! Printed texts that are compared, and the row that says what it comes to.

ghost use Rattle.std.specs.Prelude.{◌≡◌, IfErr, IfOk, IfSome, Some, option_map};
ghost use Rattle.fib_addr.specs.Views.{prefix_as};
ghost use Rattle.fib_io.specs.Reads.{Makes};
ghost use Rattle.fib_same.specs.Views.{difference_as};
ghost use Rattle.fib_words.specs.Commands.{Same, same_as};
ghost use Rattle.fib_texts.specs.Comparing.{RepliesRefusal, RepliesTo, answer_reply, answer_says};
ghost use Rattle.fib_due.specs.Due.{Repeats, answer_text, compared_at, reply_of, with_reply};
ghost use Rattle.fib_due.specs.Ends.{ReadsNames};
ghost use Rattle.fib_same.specs.Gives.{names_at};
ghost use Rattle.fib_due.specs.Owned.{IsOf, IsOfTexts};
ghost use Rattle.fib_due.specs.Passes.{ReadsCompared, same_inputs};
ghost use Rattle.fib_due.specs.Stops.{GivesDue};
ghost use Rattle.fib_due.specs.Untold.{ComparedOfSome};
ghost use Rattle.fib_due.specs.Views.{reply_as};

use crate::check::twice_row;
use cert_check::No;
use fib_due::{Outcome, Reply, Which, Wrong};
use fib_io::Inputs;
use fib_prefix::{MOST_TEXT, Prefix, addr_text};
use fib_report::{hop_field, row_text};
use fib_same::{Difference, SameError, compare_texts};
use fib_words::SameWords;
use itoa::Buffer;
use std::alloc::{AllocError, Global};

/// `differ,TEXT,ADDRESS,FIRST,OTHER`: the text that differs from the first, where, and the hops of that address from both.
fn differ_row(alloc: Global, difference: &Difference) -> Result<Vec<u8>, AllocError>
    ensures { IfOk result (λ text. text.items ≡ answer_text
        (Some (difference_as difference.now))) }
{
    let mut digits = Buffer::new();
    let mut addr = [0; MOST_TEXT];
    let mut first = [0; MOST_TEXT];
    let mut other = [0; MOST_TEXT];
    let number = digits.format(difference.text).as_bytes();
    let addr = addr_text(&mut addr, &difference.addr);
    let first = hop_field(&mut first, difference.first, b"none");
    let other = hop_field(&mut other, difference.other, b"none");
    row_text(alloc, &[b"differ", number, addr, first, other])
}

/// `alike`, or where a text differs.
fn answer_row(alloc: Global, answer: &Option<Difference>) -> Result<Vec<u8>, AllocError>
    ensures { IfOk result (λ text. text.items ≡ answer_text (option_map difference_as answer.now)) }
{
    match answer {
        None => Vec::from_slice(alloc, b"alike\n"),
        Some(difference) => differ_row(alloc, difference),
    }
}

/// The reply to what comparing texts comes to.
fn reply_to_answer(alloc: Global, answer: Option<Difference>) -> Result<Reply, AllocError>
    ensures { IfOk result (λ reply. reply_as reply
        ≡ answer_reply (option_map difference_as answer)) }
{
    let text = answer_row(alloc, &answer)?;
    let wrong = match answer {
        Some(difference) => Some(Wrong::Differ(difference)),
        None => None,
    };
    Ok(Reply { text, wrong })
}

/// The reply to a text in which this prefix stands twice.
fn reply_to_twice(alloc: Global, prefix: Prefix) -> Result<Reply, AllocError>
    ensures { IfOk result (λ reply. reply_as reply ≡ reply_of (Repeats (prefix_as prefix))) }
{
    let text = twice_row(alloc, &prefix)?;
    Ok(Reply {
        text,
        wrong: Some(Wrong::No(No::Twice { prefix })),
    })
}

/// The reply if texts aren't read: which prefix stands twice in one, or why one is refused.
pub(crate) fn reply_to_refused(alloc: Global, error: SameError) -> Result<Reply, Outcome>
    ensures { RepliesRefusal error result }
{
    match error {
        SameError::Twice { prefix, .. } => {
            reply_to_twice(alloc, prefix).map_err(|_| Outcome::NoMemory)
        }
        SameError::BadLine { text, line, why } => Err(Outcome::BadLine {
            input: Which::Text(text),
            line,
            why,
        }),
        SameError::TooLarge { text } => Err(Outcome::TooLarge {
            input: Which::Text(text),
        }),
        SameError::Fault => Err(Outcome::ReadFault),
        SameError::NoMemory => Err(Outcome::NoMemory),
    }
}

/// The reply to a comparison of texts.
fn reply_to(
    alloc: Global,
    compared: Result<Option<Difference>, SameError>,
) -> Result<Reply, Outcome>
    ensures { RepliesTo answer_says compared result }
{
    match compared {
        Ok(answer) => reply_to_answer(alloc, answer).map_err(|_| Outcome::NoMemory),
        Err(error) => reply_to_refused(alloc, error),
    }
}

/// Compares printed texts, and returns the reply: `alike`, where one differs, or which prefix stands twice in one.
pub fn same_for<I: Inputs>(
    alloc: Global,
    inputs: &mut I,
    command: &SameWords<'_>,
) -> Result<Reply, Outcome>
    ensures due { GivesDue reply_as result
        (with_reply (compared_at (I.content inputs.old) (same_as command.now))) }
    ensures some { ComparedOfSome result }
    ensures own { IfErr result (IsOf (Some (Same (same_as command.now)))) }
    ensures owns { IfOk result (λ reply. IfSome reply.wrong IsOfTexts) }
    ensures same { I.content inputs.new ≡ I.content inputs.old }
    ensures cause { ReadsNames (names_at (I.content inputs.old) (same_as command.now).rows
        (same_as command.now).first (same_as command.now).rest) (I.faults inputs.old)
        (I.faults inputs.new) result }
    ensures reads { Makes (I.reads inputs.old) (I.reads inputs.new)
        (ReadsCompared (I.content inputs.old) (same_inputs (same_as command.now)) result) }
{
    let compared = compare_texts(alloc, inputs, command.first, &command.rest, command.rows);
    reply_to(alloc, compared)
}
