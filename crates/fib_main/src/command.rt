//! From the words to the reply that is due.

ghost use Rattle.std.specs.Prelude.{◌≡◌, ◌≤◌, ◌^◌, ◌∷◌, List, [], Ok, Some, None, length, map, IfErr, IfOk, IfSome, IsSome, OnErr, OnOk, option_to_list, true};
ghost use Rattle.fib_due.specs.Due.{output_at, reply_at, with_reply};
ghost use Rattle.fib_due.specs.Ends.{reads_asked, ReadsNames};
ghost use Rattle.fib_io.specs.Reads.{Makes};
ghost use Rattle.fib_due.specs.Owned.{IsOf, IsSave, Owns};
ghost use Rattle.fib_due.specs.Passes.{ReadsAsked};
ghost use Rattle.fib_due.specs.Proves.{ChecksYes, IfRan, IfSaved, IsCheckpoint, IsRun, IsSaving, PrintsYes};
ghost use Rattle.fib_save.specs.Restores.{Restores};
ghost use Rattle.fib_due.specs.Views.{reply_as};
ghost use Rattle.fib_due.specs.Stops.{GivesDue};
ghost use Rattle.fib_due.specs.Stepped.{GivesSteps};
ghost use Rattle.fib_due.specs.Untold.{GivesSome};
ghost use Rattle.fib_due.specs.Words.{asked_by, due_by, read_by, texts_of};
ghost use Rattle.fib_words.specs.Commands.{asked_as, Check, AreWithinLimits, Make, Run};

use fib_due::{Outcome, Reply};
use fib_io::Inputs;
use fib_run::{made_for, run_for, steps_for};
use fib_texts::{check_for, check_moves_for, moves_for, same_for, save_for};
use fib_words::{CommandWords, WordsError, read_words};
use std::alloc::Global;

/// The reply that is this text, with nothing wrong.
fn reply_of(text: Vec<u8>) -> Reply
    ensures { reply_as result ≡ record { text = text.items; wrong = None } }
{
    Reply { text, wrong: None }
}

/// The reply to what the words ask for.
#[tactic(auto, unfolding(fib_due::specs::Due::output_at))]
fn reply_to<I: Inputs>(
    alloc: Global,
    inputs: &mut I,
    command: &CommandWords<'_>,
) -> Result<Reply, Outcome>
    requires { AreWithinLimits command.now }
    ensures due { GivesDue reply_as result
        (with_reply (output_at (I.content inputs.old) (asked_as command.now))) }
    ensures some { GivesSome (I.content inputs.old) (Some (asked_as command.now)) result }
    ensures steps { GivesSteps (I.content inputs.old) (Some (asked_as command.now)) result }
    ensures own { IfErr result (IsOf (Some (asked_as command.now))) }
    ensures owns { IfOk result (Owns (Some (asked_as command.now))) }
    ensures yes { IsRun (Some (asked_as command.now))
        → IfOk result (λ reply. ChecksYes reply.text.items) }
    ensures due_yes { OnOk result
        (IfRan (output_at (I.content inputs.old) (asked_as command.now)) PrintsYes) }
    ensures saves { IsSave (asked_as command.now)
        → IfOk result (λ reply. IsCheckpoint reply.text.items) }
    ensures due_saves { OnOk result
        (IfSaved (output_at (I.content inputs.old) (asked_as command.now)) Restores) }
    ensures same { I.content inputs.new ≡ I.content inputs.old }
    ensures cause { ReadsNames (reads_asked (I.content inputs.old) (Some (asked_as command.now)))
        (I.faults inputs.old) (I.faults inputs.new) result }
    ensures reads { Makes (I.reads inputs.old) (I.reads inputs.new)
        (ReadsAsked (I.content inputs.old) (Some (asked_as command.now)) result) }
{
    match command {
        CommandWords::Run(run) => {
            let text = run_for(alloc, inputs, run)?;
            Ok(reply_of(text))
        }
        CommandWords::Check(printed) => check_for(alloc, inputs, printed),
        CommandWords::Make(made) => {
            let text = made_for(alloc, made)?;
            Ok(reply_of(text))
        }
        CommandWords::Steps(steps) => {
            let text = steps_for(alloc, inputs, steps)?;
            Ok(reply_of(text))
        }
        CommandWords::Same(same) => same_for(alloc, inputs, same),
        CommandWords::Save(save) => save_for(alloc, inputs, save),
        CommandWords::Moves(moves) => moves_for(alloc, inputs, moves),
        CommandWords::CheckMoves(check) => check_moves_for(alloc, inputs, check),
    }
}

/// The reply to the words.
#[tactic(auto, unfolding(fib_due::specs::Due::due, fib_due::specs::Due::reply_at, fib_due::specs::Ends::reads))]
pub fn reply_for<I: Inputs>(
    alloc: Global,
    words: &[String],
    inputs: &mut I,
) -> Result<Reply, Outcome>
    ensures due { GivesDue reply_as result (reply_at (texts_of words.now) (I.content inputs.old)) }
    ensures some { GivesSome (I.content inputs.old) (asked_by words.now) result }
    ensures steps { GivesSteps (I.content inputs.old) (asked_by words.now) result }
    ensures own { IfErr result (IsOf (asked_by words.now)) }
    ensures owns { IfOk result (Owns (asked_by words.now)) }
    ensures yes { IsRun (asked_by words.now) → IfOk result (λ reply. ChecksYes reply.text.items) }
    ensures due_yes { OnOk result (IfRan (due_by words.now (I.content inputs.old)) PrintsYes) }
    ensures saves { IsSaving (asked_by words.now) → IfOk result (λ reply. IsCheckpoint reply.text.items) }
    ensures due_saves { OnOk result (IfSaved (due_by words.now (I.content inputs.old)) Restores) }
    ensures same { I.content inputs.new ≡ I.content inputs.old }
    ensures cause { ReadsNames (read_by words.now (I.content inputs.old)) (I.faults inputs.old)
        (I.faults inputs.new) result }
    ensures reads { Makes (I.reads inputs.old) (I.reads inputs.new)
        (ReadsAsked (I.content inputs.old) (asked_by words.now) result) }
{
    let command = match read_words(alloc, words) {
        Ok(command) => command,
        Err(WordsError::Usage) => return Err(Outcome::Usage),
        Err(WordsError::NoMemory) => return Err(Outcome::NoMemory),
    };
    reply_to(alloc, inputs, &command)
}
