//! A checkpoint of what a dump and updates bring.

ghost use Rattle.std.specs.Prelude.{◌≡◌, IfErr, IfOk, Some};
ghost use Rattle.fib_io.specs.Reads.{Makes};
ghost use Rattle.fib_words.specs.Commands.{Save, save_as};
ghost use Rattle.fib_due.specs.Due.{saved_at, with_reply};
ghost use Rattle.fib_due.specs.Ends.{ReadsNames, reads_saved};
ghost use Rattle.fib_due.specs.Owned.{IsOf};
ghost use Rattle.fib_due.specs.Passes.{ReadsSaved, save_inputs};
ghost use Rattle.fib_texts.specs.Saving.{HoldsCheckpoint, refusal_of_save};
ghost use Rattle.fib_due.specs.Stops.{GivesDue};
ghost use Rattle.fib_due.specs.Untold.{SavedOfSome};
ghost use Rattle.fib_due.specs.Views.{reply_as};

use fib_due::{MrtInput, Outcome, Reply, outcome_of_whole};
use fib_io::Inputs;
use fib_save::{SaveError, WriteError, save_inputs};
use fib_words::SaveWords;
use std::alloc::Global;

/// The outcome if candidates aren't written.
fn outcome_of_write(error: WriteError) -> Outcome
    ensures { result ≡ refusal_of_save (SaveError.Unwritten error) }
{
    match error {
        WriteError::PeersFull(peers) => Outcome::PeersFull { peers },
        WriteError::PathTooLong(prefix, length) => Outcome::PathTooLong { prefix, length },
        WriteError::NoMemory => Outcome::NoMemory,
    }
}

/// The outcome if there is no checkpoint.
fn outcome_of_save(error: SaveError) -> Outcome
    ensures { result ≡ refusal_of_save error }
{
    match error {
        SaveError::Dump(error) => outcome_of_whole(MrtInput::Dump, error),
        SaveError::Updates(error) => outcome_of_whole(MrtInput::Updates, error),
        SaveError::Unwritten(error) => outcome_of_write(error),
    }
}

/// Reads the dump, and then the updates, and returns the checkpoint of the candidates that they bring.
pub fn save_for<I: Inputs>(
    alloc: Global,
    inputs: &mut I,
    command: &SaveWords<'_>,
) -> Result<Reply, Outcome>
    ensures due { GivesDue reply_as result
        (with_reply (saved_at (I.content inputs.old) (save_as command.now))) }
    ensures some { SavedOfSome result }
    ensures holds { IfOk result (HoldsCheckpoint (I.content inputs.old) (save_as command.now)) }
    ensures own { IfErr result (IsOf (Some (Save (save_as command.now)))) }
    ensures same { I.content inputs.new ≡ I.content inputs.old }
    ensures cause { ReadsNames (reads_saved (I.content inputs.old) (save_as command.now))
        (I.faults inputs.old) (I.faults inputs.new) result }
    ensures reads { Makes (I.reads inputs.old) (I.reads inputs.new)
        (ReadsSaved (I.content inputs.old) (save_inputs (save_as command.now)) result) }
{
    match save_inputs(alloc, inputs, command.dump, command.updates) {
        Ok(text) => Ok(Reply { text, wrong: None }),
        Err(error) => Err(outcome_of_save(error)),
    }
}
