//! From the words and the inputs to the text that is due.

ghost use Rattle.std.specs.Prelude.{◌≡◌, ◌≤◌, ◌^◌, ◌∷◌, List, [], Ok, Some, None, length, map, IfErr, IfOk, IfSome, IsSome, OnErr, OnOk, option_to_list, false, true};
ghost use Rattle.fib_addr.specs.Views.{addr_as};
ghost use Rattle.fib_run.specs.Asking.{ask_refusal};
ghost use Rattle.fib_run.specs.Counts.{AddUp, AreBounded};
ghost use Rattle.fib_due.specs.Due.{asks_at, feed_at, limits_of, made_at, made_named, no_feed, run_at, told_at, vrps_at, vrps_in_input, with_counts, with_text};
ghost use Rattle.fib_due.specs.Ends.{feeds_named, reads_named, ReadsName, ReadsNames};
ghost use Rattle.fib_io.specs.Reads.{Makes};
ghost use Rattle.fib_due.specs.InTime.{FeedMayGoOn, TextMayGoOn, RunMayGoOn};
ghost use Rattle.fib_due.specs.Owned.{StopsAt, StopsIn};
ghost use Rattle.fib_due.specs.Passes.{ReadsOf, feed_inputs, input_for, run_inputs};
ghost use Rattle.fib_due.specs.Proves.{ChecksYes};
ghost use Rattle.fib_run.specs.Told.{limits_as};
ghost use Rattle.fib_run.specs.Final.{FeedsLoad};
ghost use Rattle.fib_run.specs.Standing.{FeedsBoth, HoldsMade, IsAtEvent, IsCounted, StateFeeds, feed_outcome, StateStands};
ghost use Rattle.fib_due.specs.Refusals.{Limits as ends};
ghost use Rattle.fib_due.specs.Stops.{GivesDue, IsDueIfTold, event_in, input_of};
ghost use Rattle.fib_due.specs.Untold.{TextOfSome};
ghost use Rattle.fib_words.specs.Commands.{AreWithinLimits, Make, named_as, Run};
ghost use Rattle.route_model.specs.Events.{Elem};

use crate::asks::{AskError, read_asks};
use crate::feed::{Counts, feed};
use crate::report::{InputCounts, write_counts, write_final, write_text};
use crate::state::{FeedError, FinalState, State};
use fib_due::{MrtInput, Outcome, Which, octets_of};
use fib_engine::{Limits, Sizes};
use fib_io::{Inputs, SureInputs};
use fib_prefix::Addr;
use fib_rov::{RovError, Vrps};
use fib_words::{CommandWords, MakeWords, RunWords};
use made_input::generate;
use std::alloc::{AllocError, Global};

/// What is wrong with a line where an address is due.
const NO_ADDRESS: u8 = 1;

/// The outcome if asks aren't read.
fn outcome_of_asks(error: AskError) -> Outcome
    ensures { result ≡ ask_refusal error }
{
    match error {
        AskError::BadLine(line) => Outcome::BadLine {
            input: Which::Asks,
            line,
            why: NO_ADDRESS,
        },
        AskError::NoMemory => Outcome::NoMemory,
        AskError::Fault => Outcome::ReadFault,
        AskError::TooLarge => Outcome::TooLarge { input: Which::Asks },
    }
}

/// The addresses that are asked for, none if no asks are named.
#[tactic(auto, using(crate::proofs::FeedPasses::asks_stop, fib_due::proofs::Passes::input_read, fib_due::proofs::Passes::nothing_read), unfolding(fib_due::specs::Due::asks_at))]
fn asks_of<I: Inputs>(
    alloc: Global,
    inputs: &mut I,
    command: &RunWords<'_>,
) -> Result<Vec<Addr>, Outcome>
    ensures due { GivesDue (λ v. map addr_as v.items) result
        (asks_at (I.content inputs.old) (named_as command.now).asks) }
    ensures stops { IfErr result (StopsAt Which.Asks) }
    ensures named { OnErr result (IsSome (named_as command.now).asks) }
    ensures same { I.content inputs.new ≡ I.content inputs.old }
    ensures cause { ReadsNames (option_to_list (named_as command.now).asks) (I.faults inputs.old)
        (I.faults inputs.new) result }
    ensures reads { Makes (I.reads inputs.old) (I.reads inputs.new)
        (ReadsOf (I.content inputs.old) (RunMayGoOn (I.content inputs.old) (named_as command.now))
        (input_for Which.Asks (named_as command.now).asks) result) }
{
    let Some(name) = command.asks else {
        return Ok(Vec::new(alloc));
    };
    read_asks(alloc, inputs, name).map_err(outcome_of_asks)
}

/// The list of VRPs of an input.
#[tactic(auto, using(fib_due::proofs::Passes::out_of_memory, fib_due::proofs::Passes::text_refused), unfolding(fib_due::specs::Due::vrps_in_input))]
fn vrps_in<I: Inputs>(alloc: Global, inputs: &mut I, name: &str) -> Result<Vrps, Outcome>
    ensures due { GivesDue (λ v. v) result (vrps_in_input (I.content inputs.old) name.now) }
    ensures stops { IfErr result (StopsAt Which.Vrps) }
    ensures same { I.content inputs.new ≡ I.content inputs.old }
    ensures cause { ReadsName name.now (I.faults inputs.old) (I.faults inputs.new) result }
    ensures reads { Makes (I.reads inputs.old) (I.reads inputs.new)
        (ReadsOf (I.content inputs.old) TextMayGoOn ((Which.Vrps, name.now) ∷ []) result) }
{
    let octets = octets_of(alloc, inputs, name, Which::Vrps)?;
    match Vrps::read(alloc, &octets) {
        Ok(vrps) => Ok(vrps),
        Err(RovError::BadRow(bad)) => Err(Outcome::BadLine {
            input: Which::Vrps,
            line: bad.line,
            why: bad.why,
        }),
        Err(RovError::NoMemory) => Err(Outcome::NoMemory),
    }
}

/// The list of VRPs that announcements are judged by, empty if none is named.
#[tactic(auto, using(fib_due::proofs::Passes::nothing_read), unfolding(fib_due::specs::Due::vrps_at))]
fn vrps_of<I: Inputs>(
    alloc: Global,
    inputs: &mut I,
    command: &RunWords<'_>,
) -> Result<Vrps, Outcome>
    ensures due { GivesDue (λ v. v) result
        (vrps_at (I.content inputs.old) (named_as command.now).vrps) }
    ensures stops { IfErr result (StopsAt Which.Vrps) }
    ensures named { OnErr result (IsSome (named_as command.now).vrps) }
    ensures same { I.content inputs.new ≡ I.content inputs.old }
    ensures cause { ReadsNames (option_to_list (named_as command.now).vrps) (I.faults inputs.old)
        (I.faults inputs.new) result }
    ensures reads { Makes (I.reads inputs.old) (I.reads inputs.new)
        (ReadsOf (I.content inputs.old) (RunMayGoOn (I.content inputs.old) (named_as command.now))
        (input_for Which.Vrps (named_as command.now).vrps) result) }
{
    match command.vrps {
        Some(name) => vrps_in(alloc, inputs, name),
        None => Ok(Vrps::none(alloc)),
    }
}

/// The event that a refusal names: those of a dump are the load, event 0.
fn event_in(which: MrtInput, event: u64) -> u64
    ensures { result ≡ event_in which event }
{
    match which {
        MrtInput::Dump => 0,
        MrtInput::Updates => event,
    }
}

/// The outcome if an input brings nothing.
pub(crate) fn outcome_of_refusal(which: MrtInput, error: FeedError) -> Outcome
    ensures { result ≡ feed_outcome which error }
{
    match error {
        FeedError::Malformed(malformed) => Outcome::Malformed {
            input: which.which(),
            number: malformed.number,
            rule: malformed.rule.number(),
        },
        FeedError::HopsFull(event) => Outcome::HopsFull {
            event: event_in(which, event),
        },
        FeedError::TrieFull(event, full) => Outcome::TrieFull {
            event: event_in(which, event),
            need: full.need,
            have: full.have,
            arena: full.arena,
        },
        FeedError::NoMemory => Outcome::NoMemory,
        FeedError::Fault => Outcome::ReadFault,
        FeedError::TooLarge => Outcome::TooLarge {
            input: which.which(),
        },
    }
}

/// Takes what an input brings. The candidates of the inputs before it are few enough: 2^40 at most.
#[tactic(auto, using(crate::proofs::FeedPasses::feeds_stop, fib_due::proofs::Passes::input_read))]
pub(crate) fn feed_of<I: Inputs>(
    alloc: Global,
    inputs: &mut I,
    state: &mut State,
    vrps: &Vrps,
    which: MrtInput,
    name: &str,
) -> Result<Counts, Outcome>
    requires ready { IsAtEvent which 0 state.old.engine }
    requires few { length state.old.engine.candidates ≤ 2 ^ 40 }
    ensures due { (limits : ends) (before : List Elem) → StateStands which limits before [] state.old
        → StateFeeds which limits before result state.new
        (feed_at limits.sizes (I.content inputs.old) vrps.now which before (Some name.now)) }
    ensures stops { IfErr result (StopsAt (input_of which)) }
    ensures ready { IfOk result (λ counts. IsAtEvent which counts.events state.new.engine) }
    ensures few { IfOk result (λ counts. AreBounded (2 ^ 36) state.old.engine.candidates
        counts state.new.engine.candidates) }
    ensures same { I.content inputs.new ≡ I.content inputs.old }
    ensures cause { ReadsName name.now (I.faults inputs.old) (I.faults inputs.new) result }
    ensures reads { (limits : ends) (before : List Elem) → StateStands which limits before [] state.old
        → Makes (I.reads inputs.old) (I.reads inputs.new) (ReadsOf (I.content inputs.old)
        (λ _. FeedMayGoOn limits.sizes vrps.now which before) ((input_of which, name.now) ∷ []) result) }
{
    feed(alloc, inputs, state, vrps, which, name).map_err(|error| outcome_of_refusal(which, error))
}

/// The counts of no input.
fn no_counts(alloc: Global) -> Counts
    ensures { IsCounted no_feed result }
{
    Counts {
        records: 0,
        skipped: 0,
        events: 0,
        treated: 0,
        invalid: Vec::new(alloc),
    }
}

/// Takes what the updates bring, if any are named.
#[tactic(auto, using(fib_due::proofs::Passes::nothing_read), unfolding(fib_due::specs::Due::feed_at))]
fn updates_of<I: Inputs>(
    alloc: Global,
    inputs: &mut I,
    state: &mut State,
    vrps: &Vrps,
    command: &RunWords<'_>,
) -> Result<Counts, Outcome>
    requires ready { IsAtEvent MrtInput.Updates 0 state.old.engine }
    requires few { length state.old.engine.candidates ≤ 2 ^ 40 }
    ensures due { (limits : ends) (before : List Elem)
        → StateStands MrtInput.Updates limits before [] state.old
        → StateFeeds MrtInput.Updates limits before result state.new
        (feed_at limits.sizes (I.content inputs.old) vrps.now MrtInput.Updates before
        (named_as command.now).updates) }
    ensures stops { IfErr result (StopsAt Which.Updates) }
    ensures named { OnErr result (IsSome (named_as command.now).updates) }
    ensures ready { IfOk result (λ counts. IsAtEvent MrtInput.Updates counts.events state.new.engine) }
    ensures few { IfOk result (λ counts. AreBounded (2 ^ 36) state.old.engine.candidates
        counts state.new.engine.candidates) }
    ensures same { I.content inputs.new ≡ I.content inputs.old }
    ensures cause { ReadsNames (option_to_list (named_as command.now).updates) (I.faults inputs.old)
        (I.faults inputs.new) result }
    ensures reads { (limits : ends) (before : List Elem)
        → StateStands MrtInput.Updates limits before [] state.old
        → Makes (I.reads inputs.old) (I.reads inputs.new) (ReadsOf (I.content inputs.old)
        (λ _. FeedMayGoOn limits.sizes vrps.now MrtInput.Updates before)
        (input_for Which.Updates (named_as command.now).updates) result) }
{
    match command.updates {
        Some(name) => feed_of(alloc, inputs, state, vrps, MrtInput::Updates, name),
        None => Ok(no_counts(alloc)),
    }
}

/// How often a snapshot comes and how large tries are, as the words ask for it.
fn limits_of(command: &RunWords<'_>) -> Limits
    requires { AreWithinLimits (CommandWords.Run command.now) }
    ensures { limits_as result command.now.steady ≡ limits_of (named_as command.now) }
{
    Limits {
        every: command.every,
        fewest: command.fewest,
        sizes: Sizes {
            direct: command.direct,
            nodes: command.nodes,
            leaves: command.leaves,
        },
    }
}

/// Takes the dump and ends the load, and then takes the updates.
#[tactic(auto, unfolding(fib_due::specs::Due::feeds_at))]
fn feed_both<I: Inputs>(
    alloc: Global,
    inputs: &mut I,
    state: &mut State,
    vrps: &Vrps,
    command: &RunWords<'_>,
) -> Result<InputCounts, Outcome>
    requires ready { IsAtEvent MrtInput.Dump 0 state.old.engine }
    requires none { state.old.engine.candidates ≡ [] }
    requires told { IsDueIfTold (vrps_at (I.content inputs.old) (named_as command.now).vrps)
        (Ok vrps.now) }
    ensures due { StateStands MrtInput.Dump (limits_of (named_as command.now)) [] [] state.old
        → FeedsBoth (I.content inputs.old) vrps.now (named_as command.now) result state.new }
    ensures stops { IfErr result (StopsIn (Run (named_as command.now))) }
    ensures loaded { OnOk result (state.new.engine.loaded ≡ true) }
    ensures counts { IfOk result (λ fed. AddUp fed.load fed.updates) }
    ensures same { I.content inputs.new ≡ I.content inputs.old }
    ensures cause { StateStands MrtInput.Dump (limits_of (named_as command.now)) [] [] state.old
        → ReadsNames (feeds_named (I.content inputs.old) vrps.now (named_as command.now))
        (I.faults inputs.old) (I.faults inputs.new) result }
    ensures reads { StateStands MrtInput.Dump (limits_of (named_as command.now)) [] [] state.old
        → Makes (I.reads inputs.old) (I.reads inputs.new) (ReadsOf (I.content inputs.old)
        (RunMayGoOn (I.content inputs.old) (named_as command.now)) (feed_inputs (named_as command.now))
        result) }
{
    let load = feed_of(alloc, inputs, state, vrps, MrtInput::Dump, command.dump)?;
    if let Err(error) = state.finish_load(alloc) {
        return Err(outcome_of_refusal(MrtInput::Dump, error));
    }
    let updates = updates_of(alloc, inputs, state, vrps, command)?;
    Ok(InputCounts { load, updates })
}

/// Takes the dump and ends the load for good, if no updates are named and steady order isn't asked for.
#[tactic(auto, unfolding(fib_due::specs::Due::feeds_at))]
fn feed_load<I: Inputs>(
    alloc: Global,
    inputs: &mut I,
    state: State,
    vrps: &Vrps,
    command: &RunWords<'_>,
) -> Result<(InputCounts, FinalState), Outcome>
    requires alone { (named_as command.now).updates ≡ None }
    requires order { command.now.steady ≡ false }
    requires ready { IsAtEvent MrtInput.Dump 0 state.engine }
    requires none { state.engine.candidates ≡ [] }
    requires told { IsDueIfTold (vrps_at (I.content inputs.old) (named_as command.now).vrps)
        (Ok vrps.now) }
    ensures due { StateStands MrtInput.Dump (limits_of (named_as command.now)) [] [] state
        → FeedsLoad (I.content inputs.old) vrps.now (named_as command.now) result }
    ensures stops { IfErr result (StopsIn (Run (named_as command.now))) }
    ensures counts { IfOk result (λ r. AddUp r.0.load r.0.updates) }
    ensures same { I.content inputs.new ≡ I.content inputs.old }
    ensures cause { StateStands MrtInput.Dump (limits_of (named_as command.now)) [] [] state
        → ReadsNames (feeds_named (I.content inputs.old) vrps.now (named_as command.now))
        (I.faults inputs.old) (I.faults inputs.new) result }
    ensures reads { StateStands MrtInput.Dump (limits_of (named_as command.now)) [] [] state
        → Makes (I.reads inputs.old) (I.reads inputs.new) (ReadsOf (I.content inputs.old)
        (RunMayGoOn (I.content inputs.old) (named_as command.now)) (feed_inputs (named_as command.now))
        result) }
{
    let mut state = state;
    let load = feed_of(
        alloc,
        inputs,
        &mut state,
        vrps,
        MrtInput::Dump,
        command.dump,
    )?;
    match state.settle_load() {
        Ok(ended) => {
            let updates = no_counts(alloc);
            Ok((InputCounts { load, updates }, ended))
        }
        Err(error) => Err(outcome_of_refusal(MrtInput::Dump, error)),
    }
}

/// Takes the dump alone, and returns the text. It stands apart from `text_of_all`, so that the room of both isn't taken at once.
#[inline(never)]
#[tactic(auto, unfolding(fib_due::specs::Due::told_at))]
fn text_of_load<I: Inputs>(
    alloc: Global,
    inputs: &mut I,
    command: &RunWords<'_>,
    asks: &[Addr],
    vrps: &Vrps,
) -> Result<Vec<u8>, Outcome>
    requires within { AreWithinLimits (CommandWords.Run command.now) }
    requires alone { (named_as command.now).updates ≡ None }
    requires order { command.now.steady ≡ false }
    requires told { IsDueIfTold (vrps_at (I.content inputs.old) (named_as command.now).vrps)
        (Ok vrps.now) }
    ensures due { GivesDue (λ v. v.items) result
        (with_text (told_at (I.content inputs.old) vrps.now (named_as command.now)
        (map addr_as asks.now))) }
    ensures stops { IfErr result (StopsIn (Run (named_as command.now))) }
    ensures yes { IfOk result (λ text. ChecksYes text.items) }
    ensures same { I.content inputs.new ≡ I.content inputs.old }
    ensures cause { ReadsNames (feeds_named (I.content inputs.old) vrps.now (named_as command.now))
        (I.faults inputs.old) (I.faults inputs.new) result }
    ensures reads { Makes (I.reads inputs.old) (I.reads inputs.new)
        (ReadsOf (I.content inputs.old) (RunMayGoOn (I.content inputs.old) (named_as command.now))
        (feed_inputs (named_as command.now)) result) }
{
    let state = State::new(alloc, limits_of(command), command.steady);
    let (fed, ended) = feed_load(alloc, inputs, state, vrps, command)?;
    match write_final(alloc, ended, &fed, asks) {
        Ok(text) => Ok(text),
        Err(_) => Err(Outcome::NoMemory),
    }
}

/// Takes the dump and the updates, and returns the text; the load's changes are kept beside the table meanwhile.
#[inline(never)]
#[tactic(auto, unfolding(fib_due::specs::Due::told_at))]
fn text_of_all<I: Inputs>(
    alloc: Global,
    inputs: &mut I,
    command: &RunWords<'_>,
    asks: &[Addr],
    vrps: &Vrps,
) -> Result<Vec<u8>, Outcome>
    requires within { AreWithinLimits (CommandWords.Run command.now) }
    requires told { IsDueIfTold (vrps_at (I.content inputs.old) (named_as command.now).vrps)
        (Ok vrps.now) }
    ensures due { GivesDue (λ v. v.items) result
        (with_text (told_at (I.content inputs.old) vrps.now (named_as command.now)
        (map addr_as asks.now))) }
    ensures stops { IfErr result (StopsIn (Run (named_as command.now))) }
    ensures yes { IfOk result (λ text. ChecksYes text.items) }
    ensures same { I.content inputs.new ≡ I.content inputs.old }
    ensures cause { ReadsNames (feeds_named (I.content inputs.old) vrps.now (named_as command.now))
        (I.faults inputs.old) (I.faults inputs.new) result }
    ensures reads { Makes (I.reads inputs.old) (I.reads inputs.new)
        (ReadsOf (I.content inputs.old) (RunMayGoOn (I.content inputs.old) (named_as command.now))
        (feed_inputs (named_as command.now)) result) }
{
    let mut state = State::new(alloc, limits_of(command), command.steady);
    let fed = feed_both(alloc, inputs, &mut state, vrps, command)?;
    match write_text(alloc, state, &fed, asks) {
        Ok(text) => Ok(text),
        Err(_) => Err(Outcome::NoMemory),
    }
}

/// Takes the dump and the updates, and returns the text.
fn text_of<I: Inputs>(
    alloc: Global,
    inputs: &mut I,
    command: &RunWords<'_>,
    asks: &[Addr],
    vrps: &Vrps,
) -> Result<Vec<u8>, Outcome>
    requires within { AreWithinLimits (CommandWords.Run command.now) }
    requires told { IsDueIfTold (vrps_at (I.content inputs.old) (named_as command.now).vrps)
        (Ok vrps.now) }
    ensures due { GivesDue (λ v. v.items) result
        (with_text (told_at (I.content inputs.old) vrps.now (named_as command.now)
        (map addr_as asks.now))) }
    ensures stops { IfErr result (StopsIn (Run (named_as command.now))) }
    ensures yes { IfOk result (λ text. ChecksYes text.items) }
    ensures same { I.content inputs.new ≡ I.content inputs.old }
    ensures cause { ReadsNames (feeds_named (I.content inputs.old) vrps.now (named_as command.now))
        (I.faults inputs.old) (I.faults inputs.new) result }
    ensures reads { Makes (I.reads inputs.old) (I.reads inputs.new)
        (ReadsOf (I.content inputs.old) (RunMayGoOn (I.content inputs.old) (named_as command.now))
        (feed_inputs (named_as command.now)) result) }
{
    if command.steady {
        return text_of_all(alloc, inputs, command, asks, vrps);
    }
    match command.updates {
        None => text_of_load(alloc, inputs, command, asks, vrps),
        Some(_) => text_of_all(alloc, inputs, command, asks, vrps),
    }
}

/// What `make` asks of its inputs: snapshots now and then, and tries that have room for all that it may make.
const MADE: RunWords<'static> = RunWords {
    dump: "dump",
    updates: Some("updates"),
    asks: None,
    vrps: None,
    every: 1000,
    fewest: false,
    steady: false,
    direct: 16,
    nodes: 20,
    leaves: 22,
};

/// Both made inputs, under their names.
fn made_inputs(alloc: Global, made: &MakeWords) -> Result<SureInputs, AllocError>
    requires { AreWithinLimits (CommandWords.Make made.now) }
    ensures { IfOk result (HoldsMade made.now.routes made.now.seed) }
{
    let (dump, updates) = generate(alloc, made.routes, made.seed)?;
    let mut names = Vec::with_capacity(alloc, 2)?;
    names.push((String::from_str(alloc, MADE.dump)?, dump))?;
    names.push((String::from_str(alloc, "updates")?, updates))?;
    Ok(SureInputs::new(names))
}

/// Takes both made inputs as a run takes its inputs, and returns the rows of the counts.
#[tactic(auto, unfolding(fib_due::specs::Due::made_at))]
fn take_made(
    alloc: Global,
    made: &MakeWords,
    inputs: &mut SureInputs,
    state: &mut State,
) -> Result<Vec<u8>, Outcome>
    requires ready { IsAtEvent MrtInput.Dump 0 state.old.engine }
    requires none { state.old.engine.candidates ≡ [] }
    requires stands { StateStands MrtInput.Dump (limits_of made_named) [] [] state.old }
    requires holds { HoldsMade made.now.routes made.now.seed inputs.old }
    ensures due { GivesDue (λ v. v.items) result
        (with_counts (made_at made.now.routes made.now.seed)) }
    ensures stops { IfErr result (StopsIn (Make made.now.routes made.now.seed)) }
    ensures sure { IfErr result (λ o. o ≡ Outcome.ReadFault → ⊥) }
{
    let fed = feed_both(alloc, inputs, state, &Vrps::none(alloc), &MADE)?;
    match write_counts(alloc, state, &fed) {
        Ok(text) => Ok(text),
        Err(_) => Err(Outcome::NoMemory),
    }
}

/// Makes routes and updates, takes them as a run takes its inputs, and returns the rows of the counts.
pub fn made_for(alloc: Global, made: &MakeWords) -> Result<Vec<u8>, Outcome>
    requires { AreWithinLimits (CommandWords.Make made.now) }
    ensures due { GivesDue (λ v. v.items) result
        (with_counts (made_at made.now.routes made.now.seed)) }
    ensures stops { IfErr result (StopsIn (Make made.now.routes made.now.seed)) }
    ensures sure { IfErr result (λ o. o ≡ Outcome.ReadFault → ⊥) }
{
    let Ok(mut inputs) = made_inputs(alloc, made) else {
        return Err(Outcome::NoMemory);
    };
    let mut state = State::new(alloc, limits_of(&MADE), MADE.steady);
    take_made(alloc, made, &mut inputs, &mut state)
}

/// Takes the asks, the list of VRPs, the dump and the updates, and returns the text.
#[tactic(auto, unfolding(fib_due::specs::Due::run_at))]
pub fn run_for<I: Inputs>(
    alloc: Global,
    inputs: &mut I,
    command: &RunWords<'_>,
) -> Result<Vec<u8>, Outcome>
    requires { AreWithinLimits (CommandWords.Run command.now) }
    ensures due { GivesDue (λ v. v.items) result
        (with_text (run_at (I.content inputs.old) (named_as command.now))) }
    ensures some { TextOfSome (I.content inputs.old) (named_as command.now) result }
    ensures stops { IfErr result (StopsIn (Run (named_as command.now))) }
    ensures yes { IfOk result (λ text. ChecksYes text.items) }
    ensures same { I.content inputs.new ≡ I.content inputs.old }
    ensures cause { ReadsNames (reads_named (I.content inputs.old) (named_as command.now))
        (I.faults inputs.old) (I.faults inputs.new) result }
    ensures reads { Makes (I.reads inputs.old) (I.reads inputs.new)
        (ReadsOf (I.content inputs.old) (RunMayGoOn (I.content inputs.old) (named_as command.now))
        (run_inputs (named_as command.now)) result) }
{
    let asks = asks_of(alloc, inputs, command)?;
    let vrps = vrps_of(alloc, inputs, command)?;
    text_of(alloc, inputs, command, &asks, &vrps)
}
