//! What a router must change to forward as printed routes do, and the rows that say it.

ghost use Rattle.std.specs.Prelude.{◌≡◌, ◌∷◌, [], IfErr, IfOk, IfSome};
ghost use Rattle.fib_io.specs.Reads.{Makes};
ghost use Rattle.fib_words.specs.Commands.{Moves as AsksMoves, named_moves};
ghost use Rattle.fib_texts.specs.Comparing.{RepliesTo, moves_say};
ghost use Rattle.fib_due.specs.Due.{moved_at, with_reply};
ghost use Rattle.fib_due.specs.Ends.{ReadsNames};
ghost use Rattle.fib_due.specs.Owned.{IsNo, IsOf};
ghost use Rattle.fib_due.specs.Passes.{ReadsCompared, moves_inputs};
ghost use Rattle.fib_due.specs.RouterRows.{router_text};
ghost use Rattle.fib_due.specs.Stops.{GivesDue};
ghost use Rattle.fib_due.specs.Untold.{MovedOfSome};
ghost use Rattle.fib_due.specs.Views.{reply_as};
ghost use Rattle.router_moves.specs.Due.{names_asked};
ghost use Rattle.router_moves.specs.Views.{shortest_as};

use crate::same::reply_to_refused;
use fib_due::{Outcome, Reply};
use fib_io::Inputs;
use fib_report::{Moves, RunText};
use fib_same::SameError;
use fib_words::MovesWords;
use router_moves::{RouterMoves, moves_to_routes};
use std::alloc::{AllocError, Global};

/// The event as which a router gets its changes.
const EVENT: u64 = 1;

/// The rows: the changes, how many there are, and those that prove that no fewer would do.
fn rows_of(alloc: Global, moves: &RouterMoves) -> Result<Vec<u8>, AllocError>
    ensures { IfOk result (λ text. text.items ≡ router_text (shortest_as moves.now)) }
{
    let mut text = RunText::new(alloc, &moves.hops);
    text.event(EVENT, &moves.v4.changes)?;
    text.event(EVENT, &moves.v6.changes)?;
    text.moves(&[Moves {
        event: EVENT,
        count: moves.count(),
    }])?;
    text.certificate(&moves.v4.rows)?;
    text.certificate(&moves.v6.rows)?;
    text.finish()
}

/// The reply to what a router must change.
fn reply_to(alloc: Global, moves: Result<RouterMoves, SameError>) -> Result<Reply, Outcome>
    ensures { RepliesTo moves_say moves result }
{
    match moves {
        Ok(moves) => match rows_of(alloc, &moves) {
            Ok(text) => Ok(Reply { text, wrong: None }),
            Err(_) => Err(Outcome::NoMemory),
        },
        Err(error) => reply_to_refused(alloc, error),
    }
}

/// Finds the fewest changes that make a router forward as printed routes do, and returns the reply: their rows, or which prefix
/// stands twice in a text.
pub fn moves_for<I: Inputs>(
    alloc: Global,
    inputs: &mut I,
    command: &MovesWords<'_>,
) -> Result<Reply, Outcome>
    ensures due { GivesDue reply_as result
        (with_reply (moved_at (I.content inputs.old) (named_moves command.now))) }
    ensures some { MovedOfSome command.now.steady result }
    ensures own { IfErr result (IsOf (Some (AsksMoves (named_moves command.now)))) }
    ensures owns { IfOk result (λ reply. IfSome reply.wrong IsNo) }
    ensures same { I.content inputs.new ≡ I.content inputs.old }
    ensures cause { ReadsNames (names_asked (I.content inputs.old) (named_moves command.now).router
        (named_moves command.now).printed) (I.faults inputs.old) (I.faults inputs.new) result }
    ensures reads { Makes (I.reads inputs.old) (I.reads inputs.new)
        (ReadsCompared (I.content inputs.old) (moves_inputs (named_moves command.now)) result) }
{
    let moves = moves_to_routes(
        alloc,
        inputs,
        command.router,
        command.printed,
        command.steady,
    );
    reply_to(alloc, moves)
}
