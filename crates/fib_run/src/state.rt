//! What the inputs bring: candidates, the numbers of next hops, and the kept table with its changes.

ghost use Rattle.std.specs.Prelude.{◌≡◌, ◌≤◌, ◌<◌, ◌+◌, ◌-◌, ◌^◌, ◌++◌, ◌∷◌, [], ℕ, List, length, map, IfErr, IfOk, IfSome, OnOk, false, true};
ghost use Rattle.fib_delta.specs.Views.{change_as};
ghost use Rattle.fib_prefix.specs.Views.{elem_as, event_as};
ghost use Rattle.fib_prefix.specs.declared.event.Elem.TheVariants.{Put};
ghost use Rattle.route_model.specs.Events.{Elem as model_elem, Event as model_event};
ghost use Rattle.route_model.specs.Choice.{Candidates, after_elem, elems_of};
ghost use Rattle.kept_model.specs.Feed.{at_event};
ghost use Rattle.fib_run.specs.Counts.{CountsFit, CountsOn};
ghost use Rattle.fib_run.specs.Feeds.{EventNumbered};
ghost use Rattle.fib_due.specs.Refusals.{Limits as ends};
ghost use Rattle.fib_run.specs.Final.{EndsAs, Settles};
ghost use Rattle.fib_run.specs.Standing.{EndsShort, IsOfLoad, IsAtEvent, feed_of_read, refusal_at, StateStands, StateTakes, StateTakesAll};
ghost use Rattle.fib_report.specs.Views.{moves_as};
ghost use Rattle.fib_run.specs.Told.{changes_as, limits_as, moves_told};
ghost use Rattle.fib_run.specs.declared.state.FeedError.TheVariants.{NoMemory as IsNoMemory};

use crate::order::{order_event, order_load};
use fib_delta::Change;
use fib_due::MrtInput;
use fib_engine::{Engine, EngineError, FinalFib, Limits, PackedTable, TrieFull};
use fib_prefix::{Addr, Elem, Event, HopTable, Prefix, Via};
use fib_report::Moves;
use mrt_read::{Malformed, WholeError};
use std::alloc::{AllocError, AllocFailed, Global};
use std::slice;
use thiserror::Error;

/// The event of the load.
const LOAD: u64 = 0;

/// Why an input brought nothing.
#[derive(Clone, Copy, Debug, PartialEq, Eq, Error)]
pub enum FeedError {
    /// A record breaks a rule.
    #[error("{0}")]
    Malformed(Malformed),
    /// The elementary event of this number brings one hop too many.
    #[error("event {0} brings one hop too many")]
    HopsFull(u64),
    /// Tries of the routes after the elementary event of this number need more places than an arena has; 0 is the load's end.
    #[error("{1} at event {0}")]
    TrieFull(u64, TrieFull),
    /// Memory ran out.
    #[error("no memory")]
    NoMemory,
    /// A read failed.
    #[error("a read failed")]
    Fault,
    /// The input has more than 2^36 octets.
    #[error("too large")]
    TooLarge,
}

impl From<WholeError> for FeedError {
    ghost from_gives = { λ error e. e ≡ feed_of_read error };

    fn from(error: WholeError) -> FeedError {
        match error {
            WholeError::Malformed(malformed) => FeedError::Malformed(malformed),
            WholeError::NoMemory => FeedError::NoMemory,
            WholeError::Fault => FeedError::Fault,
            WholeError::TooLarge => FeedError::TooLarge,
        }
    }
}

impl From<AllocError> for FeedError {
    ghost from_gives = { λ _ e. e ≡ IsNoMemory };

    fn from(_e: AllocError) -> FeedError {
        FeedError::NoMemory
    }
}

impl<T: Drop> From<AllocFailed<T>> for FeedError {
    ghost from_gives = { λ _ e. e ≡ IsNoMemory };

    fn from(_e: AllocFailed<T>) -> FeedError {
        FeedError::NoMemory
    }
}

/// What was brought so far.
#[derive(Drop)]
pub struct State {
    /// The candidates of all peers, the numbers of next hops, and the kept table.
    pub engine: Engine,
    /// The entries of the kept table after the load: what the load adds to it, in the order in which that is written.
    pub added: PackedTable,
    /// The changes of the kept table that updates make, each with its event's number.
    pub changes: Vec<(u64, Change)>,
    /// How many changes each event of updates needed that changed a chosen hop, if the fewest are asked for.
    pub moves: Vec<Moves>,
    /// Whether each event makes the fewest changes.
    pub fewest: bool,
    /// Whether the changes of the load and of updates come in steady order.
    pub steady: bool,
}

/// What inputs come to, once no more events come.
#[derive(Drop)]
pub struct FinalState {
    /// The kept tables, and the routes that they are of.
    pub final_fib: FinalFib,
    /// The hops with their numbers.
    pub hops: HopTable,
    /// What the load added to the kept table, if updates or steady order may tell that from the table; else it is the table.
    pub added: Option<PackedTable>,
    /// As a `State`'s.
    pub changes: Vec<(u64, Change)>,
    /// As a `State`'s.
    pub moves: Vec<Moves>,
}

/// Adds the changes of the event of this number.
fn push_changes(
    all: &mut Vec<(u64, Change)>,
    event: u64,
    changes: &[Change],
) -> Result<(), AllocError>
    ensures { OnOk result (changes_as all.new.items
        ≡ changes_as all.old.items ++ at_event event (map change_as changes.now)) }
{
    all.reserve(changes.len())?;
    for change in changes {
        all.push((event, *change))?;
    }
    Ok(())
}

/// Adds how many changes the event of this number needed, if it changed a chosen hop and that is asked for.
fn push_moves(
    all: &mut Vec<Moves>,
    event: u64,
    moves: Option<u64>,
    fewest: bool,
) -> Result<(), AllocError>
    ensures { OnOk result (map moves_as all.new.items
        ≡ map moves_as all.old.items ++ moves_told fewest event moves) }
{
    match moves {
        Some(count) if fewest => all.push(Moves { event, count })?,
        _ => {}
    }
    Ok(())
}

impl State {
    /// Nothing was brought; snapshots and tries are within these limits, and changes come in steady order or in that of
    /// prefixes.
    pub fn new(alloc: Global, limits: Limits, steady: bool) -> State
        ensures stands { StateStands MrtInput.Dump (limits_as limits steady) [] [] result }
        ensures ready { IsAtEvent MrtInput.Dump 0 result.engine }
        ensures none { result.engine.candidates ≡ [] }
    {
        State {
            engine: Engine::new(alloc, limits),
            added: PackedTable::new(alloc),
            changes: Vec::new(alloc),
            moves: Vec::new(alloc),
            fewest: limits.fewest,
            steady,
        }
    }

    /// Ends the load: the kept table is made, and its entries are what the load adds.
    pub fn finish_load(&mut self, alloc: Global) -> Result<(), FeedError>
        requires { IsAtEvent MrtInput.Dump 0 self.old.engine }
        ensures stands { OnOk result ((limits : ends) (load : List model_elem)
            → StateStands MrtInput.Dump limits [] load self.old
            → StateStands MrtInput.Updates limits load [] self.new) }
        ensures short { IfErr result (λ error. (limits : ends) (load : List model_elem)
            → StateStands MrtInput.Dump limits [] load self.old → EndsShort limits load error) }
        ensures kinds { IfErr result IsOfLoad }
        ensures candidates { OnOk result (self.new.engine.candidates
            ≡ self.old.engine.candidates) }
        ensures ready { OnOk result (IsAtEvent MrtInput.Updates 0 self.new.engine) }
    {
        match self.engine.finish_load_packed() {
            Ok(packed) => {
                let added = order_load(alloc, packed, self.steady)?;
                self.added = added;
            }
            Err(error) => return Err(refusal_at(LOAD, error)),
        }
        Ok(())
    }

    /// What is left to be written once no more events come: the candidates are let go.
    pub fn settle(self) -> FinalState
        requires { self.engine.loaded ≡ true }
        ensures { Settles self result }
    {
        let (final_fib, hops) = self.engine.settle();
        FinalState {
            final_fib,
            hops,
            added: Some(self.added),
            changes: self.changes,
            moves: self.moves,
        }
    }

    /// Ends the load for good, as `finish_load` and then `settle` would: no updates follow. What the load adds is the kept table
    /// itself, so no list of it is kept, and the candidates are let go before the table is made. That is not steady order.
    pub fn settle_load(self) -> Result<FinalState, FeedError>
        requires { IsAtEvent MrtInput.Dump 0 self.engine }
        ensures ends { IfOk result (λ f. (limits : ends) (load : List model_elem) → limits.steady ≡ false
            → StateStands MrtInput.Dump limits [] load self → EndsAs limits load f) }
        ensures short { IfErr result (λ error. (limits : ends) (load : List model_elem)
            → StateStands MrtInput.Dump limits [] load self → EndsShort limits load error) }
        ensures kinds { IfErr result IsOfLoad }
    {
        match self.engine.settle_load() {
            Ok((final_fib, hops)) => Ok(FinalState {
                final_fib,
                hops,
                added: None,
                changes: self.changes,
                moves: self.moves,
            }),
            Err(error) => Err(refusal_at(LOAD, error)),
        }
    }
}

/// Why an elementary event of this number wasn't taken.
fn refusal_at(event: u64, error: EngineError) -> FeedError
    ensures { result ≡ refusal_at event error }
{
    match error {
        EngineError::HopsFull => FeedError::HopsFull(event),
        EngineError::TrieFull(full) => FeedError::TrieFull(event, full),
        EngineError::NoMemory => FeedError::NoMemory,
    }
}

/// Takes the elementary event of this number: its hop gets a number, and the candidates change. One of updates changes the kept
/// table, and its changes are added.
fn step(state: &mut State, which: MrtInput, event: u64, elem: &Elem) -> Result<(), FeedError>
    requires ready { IsAtEvent which (event - 1) state.old.engine }
    requires first { 1 ≤ event }
    ensures takes { StateTakes which event (elem_as elem.now ∷ []) state.old result state.new }
    ensures candidates { OnOk result (state.new.engine.candidates
        ≡ after_elem state.old.engine.candidates (elem_as elem.now)) }
    ensures ready { OnOk result (IsAtEvent which event state.new.engine) }
    ensures numbered { IfErr result (EventNumbered which) }
{
    match which {
        MrtInput::Dump => match state.engine.load(elem) {
            Ok(()) => Ok(()),
            Err(error) => Err(refusal_at(event, error)),
        },
        MrtInput::Updates => match state.engine.apply(elem) {
            Ok(mut told) => {
                order_event(&mut told.changes, told.first, state.steady);
                push_changes(&mut state.changes, event, &told.changes)?;
                let moves = state.engine.last_moves();
                push_moves(&mut state.moves, event, moves, state.fewest)?;
                Ok(())
            }
            Err(error) => Err(refusal_at(event, error)),
        },
    }
}

/// The one elementary event that an event is whatever is held. A lost session is none: it is one for each route of the peer.
fn elem_of(event: &Event) -> Option<Elem>
    ensures { IfSome result (λ elem. (held : Candidates)
        → elem_as elem ∷ [] ≡ elems_of held (event_as event.now)) }
{
    match *event {
        Event::Announce(via, prefix, path, hop, _) => Some(Elem::Put(via, prefix, path, hop)),
        Event::Withdraw(via, prefix) => Some(Elem::Cut(via, prefix)),
        Event::Down(_) => None,
    }
}

/// Takes the elementary events of an event after `before` others, and returns how many there are then.
fn take_elems(
    state: &mut State,
    which: MrtInput,
    before: u64,
    elems: &[Elem],
) -> Result<u64, FeedError>
    requires ready { IsAtEvent which before state.old.engine }
    requires few { before + length elems.now < 2 ^ 64 }
    ensures takes { (event : model_event) → map elem_as elems.now
        ≡ elems_of state.old.engine.candidates event
        → StateTakesAll which before (event ∷ []) state.old result state.new }
    ensures ready { IfOk result (λ after. IsAtEvent which after state.new.engine) }
    ensures numbered { IfErr result (EventNumbered which) }
    ensures counts { IfOk result (λ after. (event : model_event) → map elem_as elems.now
        ≡ elems_of state.old.engine.candidates event
        → CountsOn state.old.engine.candidates (event ∷ []) before after state.new.engine.candidates) }
{
    let mut count = before;
    for elem in elems {
        count += 1;
        step(state, which, count, elem)?;
    }
    Ok(count)
}

/// Takes the elementary event of this number that puts a route of a dump: its hop gets a number, and the candidates change.
fn load_step(
    state: &mut State,
    event: u64,
    via: &Via,
    prefix: &Prefix,
    path: u32,
    hop: &Addr,
) -> Result<(), FeedError>
    requires ready { IsAtEvent MrtInput.Dump (event - 1) state.old.engine }
    requires first { 1 ≤ event }
    ensures takes { StateTakes MrtInput.Dump event
        (elem_as (Put via.now prefix.now path hop.now) ∷ []) state.old result state.new }
    ensures candidates { OnOk result (state.new.engine.candidates
        ≡ after_elem state.old.engine.candidates (elem_as (Put via.now prefix.now path hop.now))) }
    ensures ready { OnOk result (IsAtEvent MrtInput.Dump event state.new.engine) }
    ensures numbered { IfErr result (EventNumbered MrtInput.Dump) }
{
    match state.engine.load_put(via, prefix, path, hop) {
        Ok(()) => Ok(()),
        Err(error) => Err(refusal_at(event, error)),
    }
}

/// Takes an event of a dump after `before` elementary events, and returns how many there are then. A route is taken as it lies
/// there.
fn take_dumped(state: &mut State, before: u64, event: &Event) -> Result<u64, FeedError>
    requires ready { IsAtEvent MrtInput.Dump before state.old.engine }
    requires few { CountsFit state.old.engine.candidates (event_as event.now ∷ []) before }
    ensures takes { StateTakesAll MrtInput.Dump before (event_as event.now ∷ [])
        state.old result state.new }
    ensures ready { IfOk result (λ after. IsAtEvent MrtInput.Dump after state.new.engine) }
    ensures numbered { IfErr result (EventNumbered MrtInput.Dump) }
    ensures counts { IfOk result (λ after. CountsOn state.old.engine.candidates
        (event_as event.now ∷ []) before after state.new.engine.candidates) }
{
    match event {
        Event::Announce(via, prefix, path, hop, _) => {
            let count = before + 1;
            load_step(state, count, via, prefix, *path, hop)?;
            Ok(count)
        }
        _ => take_one(state, MrtInput::Dump, before, event),
    }
}

/// Takes an event after `before` elementary events, and returns how many there are then.
fn take_event(
    state: &mut State,
    which: MrtInput,
    before: u64,
    event: &Event,
) -> Result<u64, FeedError>
    requires ready { IsAtEvent which before state.old.engine }
    requires few { CountsFit state.old.engine.candidates (event_as event.now ∷ []) before }
    ensures takes { StateTakesAll which before (event_as event.now ∷ [])
        state.old result state.new }
    ensures ready { IfOk result (λ after. IsAtEvent which after state.new.engine) }
    ensures numbered { IfErr result (EventNumbered which) }
    ensures counts { IfOk result (λ after. CountsOn state.old.engine.candidates
        (event_as event.now ∷ []) before after state.new.engine.candidates) }
{
    match which {
        MrtInput::Dump => take_dumped(state, before, event),
        MrtInput::Updates => take_one(state, which, before, event),
    }
}

/// Takes an event after `before` elementary events, and returns how many there are then. Only a lost session takes a list.
fn take_one(
    state: &mut State,
    which: MrtInput,
    before: u64,
    event: &Event,
) -> Result<u64, FeedError>
    requires ready { IsAtEvent which before state.old.engine }
    requires few { CountsFit state.old.engine.candidates (event_as event.now ∷ []) before }
    ensures takes { StateTakesAll which before (event_as event.now ∷ [])
        state.old result state.new }
    ensures ready { IfOk result (λ after. IsAtEvent which after state.new.engine) }
    ensures numbered { IfErr result (EventNumbered which) }
    ensures counts { IfOk result (λ after. CountsOn state.old.engine.candidates
        (event_as event.now ∷ []) before after state.new.engine.candidates) }
{
    match elem_of(event) {
        Some(elem) => take_elems(state, which, before, slice::from_ref(&elem)),
        None => {
            let elems = state.engine.elementary(event)?;
            take_elems(state, which, before, &elems)
        }
    }
}

/// Takes events after `before` elementary events, and returns how many there are then.
pub fn take_events(
    state: &mut State,
    which: MrtInput,
    before: u64,
    events: &[Event],
) -> Result<u64, FeedError>
    requires ready { IsAtEvent which before state.old.engine }
    requires few { CountsFit state.old.engine.candidates (map event_as events.now) before }
    ensures takes { StateTakesAll which before (map event_as events.now)
        state.old result state.new }
    ensures ready { IfOk result (λ after. IsAtEvent which after state.new.engine) }
    ensures numbered { IfErr result (EventNumbered which) }
    ensures counts { IfOk result (λ after. CountsOn state.old.engine.candidates
        (map event_as events.now) before after state.new.engine.candidates) }
{
    let mut count = before;
    for event in events {
        count = take_event(state, which, count, event)?;
    }
    Ok(count)
}
