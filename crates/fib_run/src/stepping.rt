//! A run in steps: from its words and its inputs to the text of its rows.

ghost use Rattle.std.specs.Prelude.{◌≡◌, [], ◌∷◌, map, IfErr, IfOk};
ghost use Rattle.fib_prefix.specs.Views.{event_as};
ghost use Rattle.route_tries.specs.Sizes.{sizes_as};
ghost use Rattle.step_script.specs.Steps.{step_as};
ghost use Rattle.router_steps.specs.Runs.{ArePrinted};
ghost use Rattle.fib_words.specs.Commands.{AreWithinLimits, Steps, steps_as};
ghost use Rattle.fib_due.specs.Due.{load_at, script_at, stepping_at, steps_sizes, with_world, world_at};
ghost use Rattle.fib_due.specs.Ends.{after, reads_steps, ReadsName, ReadsNames};
ghost use Rattle.fib_due.specs.InTime.{TextMayGoOn, StepsMayGoOn};
ghost use Rattle.fib_run.specs.Loaded.{GivesLoad, of_step};
ghost use Rattle.fib_due.specs.Stepped.{arena_of};
ghost use Rattle.fib_io.specs.Reads.{Makes};
ghost use Rattle.fib_due.specs.Owned.{StopsAt, StopsIn};
ghost use Rattle.fib_due.specs.Passes.{ReadsOf, load_inputs, steps_inputs};
ghost use Rattle.fib_due.specs.Stepping.{events_at, refusal_of_whole};
ghost use Rattle.fib_due.specs.Stops.{GivesDue};
ghost use Rattle.fib_due.specs.Untold.{GivesText, StepsOfSome};
ghost use Rattle.mrt_read.specs.Whole.{MayGoOn};

use crate::run::{feed_of, outcome_of_refusal};
use crate::state::State;
use fib_due::{MrtInput, Outcome, Which, octets_of, outcome_of_whole};
use fib_engine::{Engine, Limits, Sizes};
use fib_io::Inputs;
use fib_prefix::{Event, Family};
use fib_rov::Vrps;
use fib_words::{CommandWords, StepsWords};
use mrt_read::{WholeError, read_all_events};
use poptrie_build::TrieFull;
use router_steps::{StepError, run_steps};
use std::alloc::Global;
use step_script::{ScriptError, Step, read_script};

/// The steps of the script.
#[tactic(auto, using(fib_due::proofs::Passes::out_of_memory, fib_due::proofs::Passes::text_refused, crate::proofs::Scripts::script_printed), unfolding(fib_due::specs::Due::script_at))]
fn script_of<I: Inputs>(alloc: Global, inputs: &mut I, name: &str) -> Result<Vec<Step>, Outcome>
    ensures due { GivesDue (λ v. map step_as v.items) result
        (script_at (I.content inputs.old) name.now) }
    ensures few { IfOk result (λ v. ArePrinted (map step_as v.items)) }
    ensures stops { IfErr result (StopsAt Which.Script) }
    ensures same { I.content inputs.new ≡ I.content inputs.old }
    ensures cause { ReadsName name.now (I.faults inputs.old) (I.faults inputs.new) result }
    ensures reads { Makes (I.reads inputs.old) (I.reads inputs.new)
        (ReadsOf (I.content inputs.old) TextMayGoOn ((Which.Script, name.now) ∷ []) result) }
{
    let octets = octets_of(alloc, inputs, name, Which::Script)?;
    match read_script(alloc, &octets) {
        Ok(script) => Ok(script),
        Err(ScriptError::BadLine(bad)) => Err(Outcome::BadLine {
            input: Which::Script,
            line: bad.line,
            why: bad.why,
        }),
        Err(ScriptError::NoMemory) => Err(Outcome::NoMemory),
    }
}

/// How large tries are, as the words ask for it.
fn sizes_of(command: &StepsWords<'_>) -> Sizes
    requires { AreWithinLimits (CommandWords.Steps command.now) }
    ensures { sizes_as result ≡ steps_sizes (steps_as command.now) }
{
    Sizes {
        direct: command.direct,
        nodes: command.nodes,
        leaves: command.leaves,
    }
}

/// The engine at the end of the load, which the dump brings.
fn load_of<I: Inputs>(
    alloc: Global,
    inputs: &mut I,
    command: &StepsWords<'_>,
) -> Result<Engine, Outcome>
    requires { AreWithinLimits (CommandWords.Steps command.now) }
    ensures due { GivesLoad (steps_sizes (steps_as command.now)) result (load_at
        (steps_sizes (steps_as command.now)) (I.content inputs.old) [] (steps_as command.now).dump) }
    ensures stops { IfErr result (StopsAt Which.Dump) }
    ensures same { I.content inputs.new ≡ I.content inputs.old }
    ensures cause { ReadsName (steps_as command.now).dump (I.faults inputs.old)
        (I.faults inputs.new) result }
    ensures reads { Makes (I.reads inputs.old) (I.reads inputs.new)
        (ReadsOf (I.content inputs.old) (StepsMayGoOn (steps_as command.now))
        ((Which.Dump, (steps_as command.now).dump) ∷ []) result) }
{
    let mut state = State::new(
        alloc,
        Limits {
            every: 0,
            fewest: false,
            sizes: sizes_of(command),
        },
        false,
    );
    let vrps = Vrps::none(alloc);
    feed_of(
        alloc,
        inputs,
        &mut state,
        &vrps,
        MrtInput::Dump,
        command.dump,
    )?;
    if let Err(error) = state.finish_load(alloc) {
        return Err(outcome_of_refusal(MrtInput::Dump, error));
    }
    let State { engine, .. } = state;
    Ok(engine)
}

/// The outcome if the updates aren't.
fn outcome_of_updates(error: WholeError) -> Outcome
    ensures { result ≡ refusal_of_whole error }
{
    outcome_of_whole(MrtInput::Updates, error)
}

/// The events of the updates, which are read to their end.
#[tactic(auto, using(crate::proofs::FeedPasses::events_stop, fib_due::proofs::Passes::input_read, fib_due::proofs::Whole::whole_due, fib_due::proofs::Whole::whole_fails))]
fn events_of<I: Inputs>(alloc: Global, inputs: &mut I, name: &str) -> Result<Vec<Event>, Outcome>
    ensures due { GivesDue (λ v. map event_as v.items) result
        (events_at (I.content inputs.old) name.now) }
    ensures stops { IfErr result (StopsAt Which.Updates) }
    ensures same { I.content inputs.new ≡ I.content inputs.old }
    ensures cause { ReadsName name.now (I.faults inputs.old) (I.faults inputs.new) result }
    ensures reads { Makes (I.reads inputs.old) (I.reads inputs.new)
        (ReadsOf (I.content inputs.old) (λ _. MayGoOn) ((Which.Updates, name.now) ∷ []) result) }
{
    read_all_events(alloc, inputs, name).map_err(outcome_of_updates)
}

/// The number of a family's arena among those of both.
fn arena_of(family: Family, full: &TrieFull) -> u8
    ensures { result ≡ arena_of family full.now.arena }
{
    match (family, full.arena) {
        (Family::V4, 0) => 0,
        (Family::V4, _) => 1,
        (Family::V6, 0) => 2,
        (Family::V6, _) => 3,
    }
}

/// The outcome if a run ends before its script does.
fn outcome_of_step(error: StepError) -> Outcome
    ensures { result ≡ of_step error }
{
    match error {
        StepError::HopsFull(event) => Outcome::HopsFull { event },
        StepError::TrieFull(event, family, full) => Outcome::TrieFull {
            event,
            need: full.need,
            have: full.have,
            arena: arena_of(family, &full),
        },
        StepError::NoMemory => Outcome::NoMemory,
    }
}

/// Takes the dump and the updates, makes the steps, and returns the text of their rows.
#[tactic(auto, unfolding(fib_due::specs::Due::world_at))]
fn rows_of<I: Inputs>(
    alloc: Global,
    inputs: &mut I,
    command: &StepsWords<'_>,
    script: &[Step],
) -> Result<Vec<u8>, Outcome>
    requires within { AreWithinLimits (CommandWords.Steps command.now) }
    requires few { ArePrinted (map step_as script.now) }
    ensures gives { GivesText (with_world (map step_as script.now) (world_at (I.content inputs.old)
        (steps_as command.now))) result }
    ensures stops { IfErr result (StopsIn (Steps (steps_as command.now))) }
    ensures same { I.content inputs.new ≡ I.content inputs.old }
    ensures cause { ReadsNames ((steps_as command.now).dump ∷ after (load_at
        (steps_sizes (steps_as command.now)) (I.content inputs.old) [] (steps_as command.now).dump)
        ((steps_as command.now).updates ∷ [])) (I.faults inputs.old) (I.faults inputs.new) result }
    ensures reads { Makes (I.reads inputs.old) (I.reads inputs.new)
        (ReadsOf (I.content inputs.old) (StepsMayGoOn (steps_as command.now))
        (load_inputs (steps_as command.now)) result) }
{
    let engine = load_of(alloc, inputs, command)?;
    let events = events_of(alloc, inputs, command.updates)?;
    match run_steps(alloc, engine, &events, script) {
        Ok(text) => Ok(text),
        Err(error) => Err(outcome_of_step(error)),
    }
}

/// Takes the script, the dump and the updates, makes the steps, and returns the text of their rows.
#[tactic(auto, unfolding(fib_due::specs::Due::stepping_at))]
pub fn steps_for<I: Inputs>(
    alloc: Global,
    inputs: &mut I,
    command: &StepsWords<'_>,
) -> Result<Vec<u8>, Outcome>
    requires { AreWithinLimits (CommandWords.Steps command.now) }
    ensures gives { GivesText (stepping_at (I.content inputs.old) (steps_as command.now)) result }
    ensures some { StepsOfSome (I.content inputs.old) (steps_as command.now) result }
    ensures stops { IfErr result (StopsIn (Steps (steps_as command.now))) }
    ensures same { I.content inputs.new ≡ I.content inputs.old }
    ensures cause { ReadsNames (reads_steps (I.content inputs.old) (steps_as command.now))
        (I.faults inputs.old) (I.faults inputs.new) result }
    ensures reads { Makes (I.reads inputs.old) (I.reads inputs.new)
        (ReadsOf (I.content inputs.old) (StepsMayGoOn (steps_as command.now))
        (steps_inputs (steps_as command.now)) result) }
{
    let script = script_of(alloc, inputs, command.script)?;
    let text = rows_of(alloc, inputs, command, &script)?;
    Ok(text)
}
