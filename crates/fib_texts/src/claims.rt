//! The check of what a router was told to change, and the row that it prints.

ghost use Rattle.std.specs.Prelude.{◌≡◌, ◌∷◌, [], codes, decimal, option_map, IfErr, IfOk, IfSome, Some};
ghost use Rattle.fib_io.specs.Reads.{Makes};
ghost use Rattle.fib_words.specs.Commands.{CheckMoves as AsksCheck, check_moves_as};
ghost use Rattle.moves_check.specs.Views.{no_moves_as};
ghost use Rattle.printed_text.specs.Rows.{family_name, line};
ghost use Rattle.fib_texts.specs.Comparing.{RepliesTo, verdict_reply, verdict_says};
ghost use Rattle.fib_due.specs.Due.{claims_at, with_reply};
ghost use Rattle.fib_due.specs.Ends.{ReadsNames};
ghost use Rattle.fib_due.specs.MovesChecks.{claim_text, no_moves_fields};
ghost use Rattle.fib_due.specs.Owned.{IsOf, IsOfMoves};
ghost use Rattle.fib_due.specs.Passes.{ReadsCompared, check_moves_inputs};
ghost use Rattle.fib_due.specs.Stops.{GivesDue};
ghost use Rattle.fib_due.specs.Untold.{ClaimedOfSome};
ghost use Rattle.fib_due.specs.Views.{reply_as};
ghost use Rattle.router_moves.specs.Checked.{names_claimed};
ghost use Rattle.router_moves.specs.Judged.{verdict_as};
ghost use Rattle.router_moves.specs.Judged.{wrong_moves_as};

use crate::check::{not_same_row, twice_row};
use crate::same::reply_to_refused;
use fib_due::{Outcome, Reply, Wrong};
use fib_io::Inputs;
use fib_prefix::{Family, HopTable};
use fib_report::{family_field, row_text};
use fib_same::SameError;
use fib_words::CheckMovesWords;
use itoa::Buffer;
use moves_check::NoMoves;
use router_moves::{MovesVerdict, WrongMoves, check_router_moves};
use std::alloc::{AllocError, Global};

/// `no,WORD,FAMILY,NUMBER`: a change or a row of the family, counted from 1.
fn family_row(
    alloc: Global,
    word: &'static [u8],
    family: Family,
    number: u64,
) -> Result<Vec<u8>, AllocError>
    ensures { IfOk result (λ text. text.items
        ≡ line (codes "no" ∷ word.now ∷ family_name family ∷ decimal number ∷ [])) }
{
    let mut digits = Buffer::new();
    let family = family_field(family);
    let number = digits.format(number).as_bytes();
    row_text(alloc, &[b"no", word, family, number])
}

/// `no,joinwrong,FAMILY,ROW,SAID,DUE`: the number that the row says, and the one that is due.
fn join_wrong_row(
    alloc: Global,
    family: Family,
    number: u64,
    said: u64,
    due: u64,
) -> Result<Vec<u8>, AllocError>
    ensures { IfOk result (λ text. text.items
        ≡ line (codes "no" ∷ codes "joinwrong" ∷ family_name family ∷ decimal number ∷ decimal said
        ∷ decimal due ∷ [])) }
{
    let mut number_text = Buffer::new();
    let mut said_text = Buffer::new();
    let mut due_text = Buffer::new();
    let family = family_field(family);
    let number = number_text.format(number).as_bytes();
    let said = said_text.format(said).as_bytes();
    let due = due_text.format(due).as_bytes();
    row_text(alloc, &[b"no", b"joinwrong", family, number, said, due])
}

/// `no,notshortest,FAMILY,CHANGES,BOUND`: how many changes there are, and how many would do.
fn not_shortest_row(
    alloc: Global,
    family: Family,
    changes: u64,
    bound: u64,
) -> Result<Vec<u8>, AllocError>
    ensures { IfOk result (λ text. text.items
        ≡ line (codes "no" ∷ codes "notshortest" ∷ family_name family ∷ decimal changes ∷ decimal
        bound ∷ [])) }
{
    let mut changes_text = Buffer::new();
    let mut bound_text = Buffer::new();
    let family = family_field(family);
    let changes = changes_text.format(changes).as_bytes();
    let bound = bound_text.format(bound).as_bytes();
    row_text(alloc, &[b"no", b"notshortest", family, changes, bound])
}

/// The row of what is wrong with a family's changes or rows.
fn no_row(
    alloc: Global,
    family: Family,
    no: &NoMoves,
    hops: &HopTable,
) -> Result<Vec<u8>, AllocError>
    ensures { IfOk result (λ text. text.items
        ≡ line (no_moves_fields hops.now.list family (no_moves_as no.now))) }
{
    match no {
        NoMoves::Twice { prefix } => twice_row(alloc, prefix),
        NoMoves::Apply { index } => family_row(alloc, b"apply", family, *index),
        NoMoves::NotSame { addr, want, has } => not_same_row(alloc, addr, *want, *has, hops),
        NoMoves::Shape { row } => family_row(alloc, b"shape", family, *row),
        NoMoves::LeafWrong { row } => family_row(alloc, b"leafwrong", family, *row),
        NoMoves::JoinWrong { row, said, due } => join_wrong_row(alloc, family, *row, *said, *due),
        NoMoves::NotShortest { changes, bound } => {
            not_shortest_row(alloc, family, *changes, *bound)
        }
    }
}

/// `yes`, or what is wrong.
fn verdict_row(
    alloc: Global,
    wrong: &Option<WrongMoves>,
    hops: &HopTable,
) -> Result<Vec<u8>, AllocError>
    ensures { IfOk result (λ text. text.items ≡ claim_text hops.now.list
        (option_map wrong_moves_as wrong.now)) }
{
    match wrong {
        None => Vec::from_slice(alloc, b"yes\n"),
        Some(wrong) => no_row(alloc, wrong.family, &wrong.no, hops),
    }
}

/// The reply to a verdict.
fn reply_to_verdict(alloc: Global, verdict: &MovesVerdict) -> Result<Reply, AllocError>
    ensures { IfOk result (λ reply. reply_as reply ≡ verdict_reply (verdict_as verdict.now)) }
{
    let text = verdict_row(alloc, &verdict.wrong, &verdict.hops)?;
    let wrong = match verdict.wrong {
        Some(wrong) => Some(Wrong::MovesNo(wrong)),
        None => None,
    };
    Ok(Reply { text, wrong })
}

/// The reply to the check of what a router was told to change.
fn reply_to(alloc: Global, verdict: Result<MovesVerdict, SameError>) -> Result<Reply, Outcome>
    ensures { RepliesTo verdict_says verdict result }
{
    match verdict {
        Ok(verdict) => reply_to_verdict(alloc, &verdict).map_err(|_| Outcome::NoMemory),
        Err(error) => reply_to_refused(alloc, error),
    }
}

/// Checks what a router was told to change, by whomever, against its table and the routes that it is to forward as, and returns
/// the reply: `yes`, what is wrong, or which prefix stands twice in a text.
pub fn check_moves_for<I: Inputs>(
    alloc: Global,
    inputs: &mut I,
    command: &CheckMovesWords<'_>,
) -> Result<Reply, Outcome>
    ensures due { GivesDue reply_as result
        (with_reply (claims_at (I.content inputs.old) (check_moves_as command.now))) }
    ensures some { ClaimedOfSome result }
    ensures own { IfErr result (IsOf (Some (AsksCheck (check_moves_as command.now)))) }
    ensures owns { IfOk result (λ reply. IfSome reply.wrong IsOfMoves) }
    ensures same { I.content inputs.new ≡ I.content inputs.old }
    ensures cause { ReadsNames (names_claimed (I.content inputs.old) (check_moves_as command.now).router
        (check_moves_as command.now).printed (check_moves_as command.now).moves) (I.faults inputs.old)
        (I.faults inputs.new) result }
    ensures reads { Makes (I.reads inputs.old) (I.reads inputs.new)
        (ReadsCompared (I.content inputs.old) (check_moves_inputs (check_moves_as command.now))
        result) }
{
    let verdict = check_router_moves(
        alloc,
        inputs,
        command.router,
        command.printed,
        command.moves,
    );
    reply_to(alloc, verdict)
}
