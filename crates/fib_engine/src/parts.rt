//! What an engine is made of, and how an elementary event is planned in it, and then made or undone.

ghost use Rattle.std.specs.Prelude.{◌≡◌, ◌<◌, ◌+◌, ◌^◌, ◌↔◌, length, map, option_map, true, false, None, IfOk, OnOk, OnErr, IsErrOf};
ghost use Rattle.kept_model.specs.Kept.{is_due as due_at};
ghost use Rattle.fib_prefix.specs.Views.{elem_as};
ghost use Rattle.fib_delta.specs.Views.{change_as};
ghost use Rattle.route_tries.specs.declared.sizes.TrieFull.{TrieFull};
ghost use Rattle.fib_engine.specs.Stands.{IsShortFor, IsTooMany, TakesElem, changes_of, first_of, routes_after};
ghost use Rattle.fib_engine.specs.Parts.{AreSound, IsChosenIn, IsWaiting, state_in, waiting_elem};

use crate::engine::Limits;
use crate::error::EngineError;
use crate::fitting::{FittingPlan, plan_fitting};
use crate::numbers::{changed_route, number_hop, number_put};
use crate::tables::{EventChanges, Tables};
use fib_prefix::{Elem, Hop, HopTable, Prefix};
use route_choice::Candidates;
use route_tries::FamilyNeeds;
use std::alloc::Global;

/// The parts of an engine. It has no invariant of its own, since while an event is planned the trees have the routes after it: what
/// is known of the parts stands in the clauses.
#[derive(Drop)]
pub(crate) struct Parts {
    pub(crate) alloc: Global,
    pub(crate) candidates: Candidates,
    pub(crate) hops: HopTable,
    // empty, and of no routes, until the load ends; so are the needs those of no routes
    pub(crate) tables: Tables,
    pub(crate) needs: FamilyNeeds,
    pub(crate) events: u64,
    // how many changes the first step of the last event made, if that changed a chosen hop
    pub(crate) moves: Option<u64>,
    pub(crate) limits: Limits,
    pub(crate) is_loaded: bool,
}

/// What an event chooses, before the tables are asked.
#[derive(Clone, Copy)]
pub(crate) struct Chosen {
    // the route that changes, if it changes a chosen hop
    pub(crate) route: Option<(Prefix, Hop)>,
    // the number that the event's hop has or gets, if it puts a route
    pub(crate) own: Option<Hop>,
}

/// A planned event with all that it takes.
#[derive(Drop)]
pub(crate) struct Waiting {
    pub(crate) elem: Elem,
    pub(crate) chosen: Chosen,
    pub(crate) fitting: FittingPlan,
}

/// Whether a snapshot follows the elementary event of this number.
fn is_due(every: u32, event: u64) -> bool
    ensures { result ≡ due_at every event }
{
    every != 0 && event % u64::from(every) == 0
}

/// How many changes an event's first step made, if the event changed a route.
fn moves_made(route: &Option<(Prefix, Hop)>, changes: &EventChanges) -> Option<u64>
    ensures { result ≡ option_map (λ r. changes.now.first) route.now }
{
    match route {
        Some(_) => Some(changes.first as u64),
        None => None,
    }
}

impl Parts {
    /// Finds what an elementary event after the load chooses, and takes the memory that this takes. Nothing is seen of it.
    ///
    /// # Errors
    ///
    /// `HopsFull` exactly if the event brings one different hop too many, or out of memory; then all is as it was.
    fn choose(&mut self, elem: &Elem) -> Result<Chosen, EngineError>
        requires sound { AreSound self.old }
        requires loaded { self.old.is_loaded ≡ true }
        requires few { self.old.events + 1 < 2 ^ 64 }
        ensures seen { state_in self.new ≡ state_in self.old }
        ensures chosen { IfOk result (λ c. IsChosenIn elem.now c self.new) }
        ensures full { IsErrOf result EngineError.HopsFull
            ↔ IsTooMany (elem_as elem.now) (state_in self.old) }
        ensures fits { (t : TrieFull) → ¬ (IsErrOf result (EngineError.TrieFull t)) }
        ensures err { OnErr result (AreSound self.new) }
    {
        let own = number_put(&self.hops, elem)?;
        self.hops.room()?;
        let choice = self.candidates.choose(elem)?;
        let route = changed_route(&self.hops, own, &choice);
        Ok(Chosen { route, own })
    }

    /// Plans the tables for an event of which it is known what it chooses.
    ///
    /// # Errors
    ///
    /// `TrieFull` as `Engine::apply`'s, or out of memory; then all is as it was.
    fn plan_chosen(&mut self, elem: &Elem, chosen: &Chosen) -> Result<FittingPlan, EngineError>
        requires { IsChosenIn elem.now chosen.now self.old }
        ensures seen { state_in self.new ≡ state_in self.old }
        ensures waiting { IfOk result (λ f. IsWaiting (record { elem = elem.now; chosen = chosen.now; fitting = f })
            self.new) }
        ensures hops { ¬ (IsErrOf result EngineError.HopsFull) }
        ensures short { (t : TrieFull) → IsErrOf result (EngineError.TrieFull t)
            → IsShortFor (state_in self.old) (routes_after (elem_as elem.now) (state_in self.old)) t }
        ensures err { OnErr result (AreSound self.new) }
    {
        let limits = &self.limits;
        let due = is_due(limits.every, self.events + 1);
        let fitting = plan_fitting(
            &mut self.tables,
            self.alloc,
            chosen.route,
            due,
            limits.fewest,
            self.needs,
            &limits.sizes,
        )?;
        Ok(fitting)
    }

    /// Plans an elementary event after the load: all memory that it takes is taken. Nothing is seen of it but in the trees, which
    /// have the routes after it. The plan is to be committed or undone before anything else changes.
    ///
    /// # Errors
    ///
    /// As `Engine::apply`'s; then all is as it was.
    pub(crate) fn plan(&mut self, elem: &Elem) -> Result<Waiting, EngineError>
        requires sound { AreSound self.old }
        requires loaded { self.old.is_loaded ≡ true }
        requires few { self.old.events + 1 < 2 ^ 64 }
        ensures seen { state_in self.new ≡ state_in self.old }
        ensures elem { IfOk result (λ w. waiting_elem w ≡ elem_as elem.now) }
        ensures waiting { IfOk result (λ w. IsWaiting w self.new) }
        ensures full { IsErrOf result EngineError.HopsFull
            ↔ IsTooMany (elem_as elem.now) (state_in self.old) }
        ensures short { (t : TrieFull) → IsErrOf result (EngineError.TrieFull t)
            → IsShortFor (state_in self.old) (routes_after (elem_as elem.now) (state_in self.old)) t }
        ensures err { OnErr result (AreSound self.new) }
    {
        let chosen = self.choose(elem)?;
        let fitting = self.plan_chosen(elem, &chosen)?;
        Ok(Waiting {
            elem: *elem,
            chosen,
            fitting,
        })
    }

    /// Whether an event changes no chosen hop, and no snapshot follows it: then no table changes.
    fn is_passed(&self, chosen: &Chosen) -> bool
        requires { self.now.events + 1 < 2 ^ 64 }
        ensures route { result ≡ true → chosen.now.route ≡ None }
        ensures due { result ≡ true → due_at self.now.limits.every (self.now.events + 1) ≡ false }
    {
        chosen.route.is_none() && !is_due(self.limits.every, self.events + 1)
    }

    /// Makes an event that changes no chosen hop, if no snapshot follows it: no table is touched. It takes no memory.
    fn pass(&mut self, elem: &Elem, chosen: &Chosen) -> EventChanges
        requires chosen { IsChosenIn elem.now chosen.now self.old }
        requires route { chosen.now.route ≡ None }
        requires due { due_at self.old.limits.every (self.old.events + 1) ≡ false }
        ensures sound { AreSound self.new }
        ensures takes { TakesElem (elem_as elem.now) (state_in self.old) (state_in self.new) }
        ensures changes { map change_as result.changes.items
            ≡ changes_of (elem_as elem.now) (state_in self.old) }
        ensures first { result.first ≡ length (first_of (elem_as elem.now) (state_in self.old)) }
    {
        let candidates = &mut self.candidates;
        candidates.carry();
        number_hop(&mut self.hops, chosen.own, elem);
        self.events += 1;
        self.moves = None;
        EventChanges::none(self.alloc)
    }

    /// Plans the tables for an event of which it is known what it chooses, and makes it. It stands apart, so that an event that asks
    /// no table doesn't clear the room of a plan.
    ///
    /// # Errors
    ///
    /// `TrieFull` as `Engine::apply`'s, or out of memory; then all is as it was.
    #[inline(never)]
    fn make(&mut self, elem: &Elem, chosen: &Chosen) -> Result<EventChanges, EngineError>
        requires { IsChosenIn elem.now chosen.now self.old }
        ensures sound { AreSound self.new }
        ensures takes { OnOk result (TakesElem (elem_as elem.now) (state_in self.old)
            (state_in self.new)) }
        ensures changes { IfOk result (λ e. map change_as e.changes.items
            ≡ changes_of (elem_as elem.now) (state_in self.old)) }
        ensures first { IfOk result (λ e. e.first
            ≡ length (first_of (elem_as elem.now) (state_in self.old))) }
        ensures hops { ¬ (IsErrOf result EngineError.HopsFull) }
        ensures short { (t : TrieFull) → IsErrOf result (EngineError.TrieFull t)
            → IsShortFor (state_in self.old) (routes_after (elem_as elem.now) (state_in self.old)) t }
        ensures err { OnErr result (state_in self.new ≡ state_in self.old) }
    {
        let fitting = self.plan_chosen(elem, chosen)?;
        Ok(self.commit_fitting(elem, chosen, fitting))
    }

    /// Makes an elementary event after the load, and returns its changes. One that changes no chosen hop asks no table, unless a
    /// snapshot follows it.
    ///
    /// # Errors
    ///
    /// As `Engine::apply`'s; then all is as it was.
    pub(crate) fn apply(&mut self, elem: &Elem) -> Result<EventChanges, EngineError>
        requires sound { AreSound self.old }
        requires loaded { self.old.is_loaded ≡ true }
        requires few { self.old.events + 1 < 2 ^ 64 }
        ensures sound { AreSound self.new }
        ensures takes { OnOk result (TakesElem (elem_as elem.now) (state_in self.old) (state_in self.new)) }
        ensures changes { IfOk result (λ e. map change_as e.changes.items
            ≡ changes_of (elem_as elem.now) (state_in self.old)) }
        ensures first { IfOk result (λ e. e.first
            ≡ length (first_of (elem_as elem.now) (state_in self.old))) }
        ensures full { IsErrOf result EngineError.HopsFull
            ↔ IsTooMany (elem_as elem.now) (state_in self.old) }
        ensures short { (t : TrieFull) → IsErrOf result (EngineError.TrieFull t)
            → IsShortFor (state_in self.old) (routes_after (elem_as elem.now) (state_in self.old)) t }
        ensures err { OnErr result (state_in self.new ≡ state_in self.old) }
    {
        let chosen = self.choose(elem)?;
        if self.is_passed(&chosen) {
            return Ok(self.pass(elem, &chosen));
        }
        let changes = self.make(elem, &chosen)?;
        Ok(changes)
    }

    /// Makes a planned event, and returns its changes. It takes no memory.
    pub(crate) fn commit(&mut self, waiting: Waiting) -> EventChanges
        requires { IsWaiting waiting self.old }
        ensures sound { AreSound self.new }
        ensures takes { TakesElem (waiting_elem waiting) (state_in self.old) (state_in self.new) }
        ensures changes { map change_as result.changes.items
            ≡ changes_of (waiting_elem waiting) (state_in self.old) }
        ensures first { result.first ≡ length (first_of (waiting_elem waiting) (state_in self.old)) }
    {
        let fitting = waiting.fitting;
        self.commit_fitting(&waiting.elem, &waiting.chosen, fitting)
    }

    /// The same of an event that stands apart from its plan.
    fn commit_fitting(&mut self, elem: &Elem, chosen: &Chosen, fitting: FittingPlan) -> EventChanges
        requires { IsWaiting (record { elem = elem.now; chosen = chosen.now; fitting = fitting }) self.old }
        ensures sound { AreSound self.new }
        ensures takes { TakesElem (elem_as elem.now) (state_in self.old) (state_in self.new) }
        ensures changes { map change_as result.changes.items
            ≡ changes_of (elem_as elem.now) (state_in self.old) }
        ensures first { result.first ≡ length (first_of (elem_as elem.now) (state_in self.old)) }
    {
        self.candidates.carry();
        number_hop(&mut self.hops, chosen.own, elem);
        self.events += 1;
        self.needs = fitting.needs;
        let changes = self.tables.commit(fitting.plan);
        self.moves = moves_made(&chosen.route, &changes);
        changes
    }

    /// Forgets a planned event: all is as it was before it. It takes no memory.
    pub(crate) fn undo(&mut self, waiting: Waiting)
        requires { IsWaiting waiting self.old }
        ensures sound { AreSound self.new }
        ensures seen { state_in self.new ≡ state_in self.old }
    {
        self.tables.undo(waiting.fitting.plan);
    }
}
