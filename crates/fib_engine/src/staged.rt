//! An engine whose events are planned, and then made or undone.

ghost use Rattle.std.specs.Prelude.{◌≡◌, ◌<◌, ◌+◌, ◌^◌, ◌↔◌, [], ◌∷◌, ◌++◌, List, length, map, true, None, Some, IfOk, OnOk, OnErr, IsErrOf};
ghost use Rattle.table_model.specs.Address.{Prefix as model_prefix};
ghost use Rattle.table_model.specs.Both.{aggregate_in_both};
ghost use Rattle.cert_model.specs.Rows.{certificate_of};
ghost use Rattle.cert_model.specs.Views.{row_as};
ghost use Rattle.route_model.specs.Events.{Elem as model_elem};
ghost use Rattle.route_model.specs.Choice.{elems_of};
ghost use Rattle.kept_model.specs.Kept.{changed_at};
ghost use Rattle.moves_model.specs.Shortest.{AreShortest};
ghost use Rattle.fib_addr.specs.Views.{entry_as};
ghost use Rattle.fib_prefix.specs.Views.{elem_as, event_as};
ghost use Rattle.fib_delta.specs.Views.{change_as};
ghost use Rattle.route_tries.specs.Parts.{AreAlikeOutside};
ghost use Rattle.route_tries.specs.Sizes.{AreFew, needs_of, shortage, sizes_as};
ghost use Rattle.route_tries.specs.declared.sizes.TrieFull.{TrieFull};
ghost use Rattle.fib_engine.specs.Held.{engine_routes};
ghost use Rattle.fib_engine.specs.Numbers.{brought_as, brought_by};
ghost use Rattle.fib_engine.specs.Stands.{IsShortFor, IsTooMany, EngineStands, TakesElem, changes_of, first_of, routes_after};
ghost use Rattle.fib_engine.specs.Staged.{IsTurn, changed_prefix, elem_of_plan, planned_hop, routes_planned};
ghost use Rattle.fib_engine.specs.Tables.{only};

use crate::error::EngineError;
use crate::numbers::number_brought;
use crate::parts::{Parts, Waiting};
use crate::tables::EventChanges;
use fib_prefix::{Addr, Elem, Entry, Event, Family, Hop, HopTable, Prefix};
use orig_tree::Tree;
use ortc::Fresh;
use route_tries::{FamilyNeeds, Sizes};
use std::alloc::AllocError;
use std::marker::Model;

/// The token of a planned event, which `Staged::commit` or `Staged::undo` spends.
#[derive(Drop)]
pub struct Planned {
    pub(crate) elem: Elem,
    pub(crate) route: Option<(Prefix, Hop)>,
    pub(crate) brings: Option<(Hop, Addr)>,
}

impl Planned {
    ghost use Rattle.std.specs.Prelude.{◌≡◌};
    ghost use Rattle.fib_engine.specs.Staged.{planned_hop, planned_route};

    /// The route that the event changes, with the hop that is chosen then, or `Hop::NONE`; none if it changes no chosen hop.
    pub fn route(&self) -> Option<(Prefix, Hop)>
        ensures { result ≡ planned_route self.now }
    {
        self.route
    }

    /// The hop that `commit` will number, with its number; none if the event brings no hop that has none yet.
    pub fn brings(&self) -> Option<(Hop, Addr)>
        ensures { result ≡ planned_hop self.now }
    {
        self.brings
    }
}

/// An engine after its load, with at most one event planned. Contracts see what it holds, and that event.
#[derive(Drop)]
pub struct Staged {
    pub(crate) parts: Parts,
    pub(crate) waiting: Option<Waiting>,
}

impl Model for Staged {
    ghost use Rattle.std.specs.Prelude.{option_map};
    ghost use Rattle.fib_engine.specs.Parts.{state_in, waiting_elem};
    ghost use Rattle.fib_engine.specs.Staged.{Staging, Waits};

    ghost Value = { Staging };

    ghost view = { λ s. record {
      held = state_in s.parts;
      planned = option_map waiting_elem s.waiting;
    } };

    ghost invariant = { λ s. Waits s.waiting s.parts };
}

impl Staged {
    /// The hops with their numbers.
    pub fn hops(&self) -> &HopTable
        ensures { result.now.list ≡ self.now.held.hops }
    {
        &self.parts.hops
    }

    /// The sizes of tries of the routes.
    pub fn sizes(&self) -> Sizes
        ensures { sizes_as result ≡ self.now.held.sizes }
    {
        self.parts.limits.sizes
    }

    /// How many changes the last event that was made needed, as `Engine::last_moves` reports it.
    pub fn last_moves(&self) -> Option<u64>
        ensures { result ≡ self.now.held.moves }
    {
        self.parts.moves
    }

    /// The event as elementary events, as `Engine::elementary` returns it.
    ///
    /// # Errors
    ///
    /// Out of memory.
    pub fn elementary(&self, event: &Event) -> Result<Vec<Elem>, AllocError>
        ensures { IfOk result (λ elems. map elem_as elems.items
            ≡ elems_of self.now.held.candidates (event_as event.now)) }
    {
        self.parts.candidates.elementary(event)
    }

    /// Plans an elementary event: all memory that it takes is taken, and nothing is seen of it but that it is planned.
    ///
    /// # Errors
    ///
    /// As `apply`'s; then the engine is as it was.
    pub fn plan(&mut self, elem: &Elem) -> Result<Planned, EngineError>
        requires rest { self.old.planned ≡ None }
        requires few { self.old.held.events + 1 < 2 ^ 64 }
        ensures held { self.new.held ≡ self.old.held }
        ensures planned { OnOk result (self.new.planned ≡ Some (elem_as elem.now)) }
        ensures token { IfOk result (λ p. elem_of_plan p ≡ elem_as elem.now) }
        ensures turn { IfOk result (IsTurn (elem_as elem.now) self.old.held) }
        ensures changed { IfOk result (λ p. changed_prefix p
            ≡ changed_at self.old.held.candidates (elem_as elem.now)) }
        ensures within { IfOk result (λ p. (q : model_prefix) → changed_prefix p ≡ Some q
            → AreAlikeOutside q (engine_routes self.old.held)
            (routes_after (elem_as elem.now) self.old.held)) }
        ensures brings { IfOk result (λ p. brought_as (planned_hop p)
            ≡ brought_by self.old.held.hops (elem_as elem.now)) }
        ensures full { IsErrOf result EngineError.HopsFull
            ↔ IsTooMany (elem_as elem.now) self.old.held }
        ensures fits { OnOk result (shortage self.old.held.sizes
            (routes_after (elem_as elem.now) self.old.held) ≡ None) }
        ensures short { (t : TrieFull) → IsErrOf result (EngineError.TrieFull t)
            → IsShortFor self.old.held (routes_after (elem_as elem.now) self.old.held) t }
        ensures err { OnErr result (self.new ≡ self.old) }
    {
        let waiting = self.parts.plan(elem)?;
        let planned = Planned {
            elem: waiting.elem,
            route: waiting.chosen.route,
            brings: number_brought(&self.parts.hops, waiting.chosen.own, &waiting.elem),
        };
        self.waiting = Some(waiting);
        Ok(planned)
    }

    /// The tree of a family's routes: those after the planned event, if one is.
    pub fn tree(&self, family: Family) -> &Tree
        ensures family { result.now.family ≡ family }
        ensures routes { result.now.routes ≡ only family (routes_planned self.now) }
    {
        self.parts.tables.tree(family)
    }

    /// Makes a planned event, counts it, and returns its changes. It takes no memory.
    pub fn commit(&mut self, planned: Planned) -> EventChanges
        requires { self.old.planned ≡ Some (elem_of_plan planned) }
        ensures rest { self.new.planned ≡ None }
        ensures takes { TakesElem (elem_of_plan planned) self.old.held self.new.held }
        ensures changes { map change_as result.changes.items
            ≡ changes_of (elem_of_plan planned) self.old.held }
        ensures first { result.first ≡ length (first_of (elem_of_plan planned) self.old.held) }
        ensures shortest { self.old.held.fewest ≡ true → (p : model_prefix)
            → changed_at self.old.held.candidates (elem_of_plan planned) ≡ Some p
            → AreShortest p.family (routes_after (elem_of_plan planned) self.old.held)
            self.old.held.table (first_of (elem_of_plan planned) self.old.held) }
        ensures stands { (load elems : List model_elem) → EngineStands load elems self.old.held
            → EngineStands load (elems ++ elem_of_plan planned ∷ []) self.new.held }
        ensures fits { shortage self.new.held.sizes (engine_routes self.new.held) ≡ None }
    {
        let Some(waiting) = self.waiting.take() else {
            unreachable!();
        };
        self.parts.commit(waiting)
    }

    /// Forgets a planned event. It takes no memory.
    pub fn undo(&mut self, planned: Planned)
        requires { self.old.planned ≡ Some (elem_of_plan planned) }
        ensures rest { self.new.planned ≡ None }
        ensures held { self.new.held ≡ self.old.held }
    {
        let Some(waiting) = self.waiting.take() else {
            unreachable!();
        };
        self.parts.undo(waiting);
    }

    /// Plans an elementary event and makes it, as `Engine::apply` does.
    ///
    /// # Errors
    ///
    /// `HopsFull` exactly if the event brings one different hop too many, else `TrieFull` exactly if tries of the routes
    /// after it need more than an arena has, of which it names the first; or out of memory. Then the engine is as it was.
    pub fn apply(&mut self, elem: &Elem) -> Result<EventChanges, EngineError>
        requires rest { self.old.planned ≡ None }
        requires few { self.old.held.events + 1 < 2 ^ 64 }
        ensures rest { self.new.planned ≡ None }
        ensures takes { OnOk result (TakesElem (elem_as elem.now) self.old.held self.new.held) }
        ensures changes { IfOk result (λ e. map change_as e.changes.items
            ≡ changes_of (elem_as elem.now) self.old.held) }
        ensures first { IfOk result (λ e. e.first
            ≡ length (first_of (elem_as elem.now) self.old.held)) }
        ensures stands { OnOk result ((load elems : List model_elem)
            → EngineStands load elems self.old.held
            → EngineStands load (elems ++ elem_as elem.now ∷ []) self.new.held) }
        ensures full { IsErrOf result EngineError.HopsFull
            ↔ IsTooMany (elem_as elem.now) self.old.held }
        ensures fits { OnOk result (shortage self.new.held.sizes (engine_routes self.new.held) ≡ None) }
        ensures short { (t : TrieFull) → IsErrOf result (EngineError.TrieFull t)
            → IsShortFor self.old.held (routes_after (elem_as elem.now) self.old.held) t }
        ensures err { OnErr result (self.new ≡ self.old) }
    {
        let planned = self.plan(elem)?;
        Ok(self.commit(planned))
    }

    /// The routes, in the order of prefixes, as `Engine::routes` returns them: those before the planned event, if one is.
    ///
    /// # Errors
    ///
    /// Out of memory.
    pub fn routes(&self) -> Result<Vec<Entry>, AllocError>
        ensures { IfOk result (λ v. map entry_as v.items ≡ engine_routes self.now.held) }
    {
        self.parts.candidates.route_entries(&self.parts.hops)
    }

    /// The kept table, in the order of prefixes: the one before the planned event, if one is.
    ///
    /// # Errors
    ///
    /// Out of memory.
    pub fn table(&self) -> Result<Vec<Entry>, AllocError>
        ensures { IfOk result (λ v. map entry_as v.items ≡ self.now.held.table) }
    {
        self.parts.tables.table()
    }

    /// The least table of the routes, with the kept one as the old table, and the rows that prove it least; IPv4 first.
    ///
    /// # Errors
    ///
    /// Out of memory.
    pub fn least(&self) -> Result<Fresh, AllocError>
        requires { self.now.planned ≡ None }
        ensures table { IfOk result (λ v. map entry_as v.table.items
            ≡ aggregate_in_both (engine_routes self.now.held) self.now.held.table) }
        ensures proof { IfOk result (λ v. map row_as v.proof.items
            ≡ certificate_of (engine_routes self.now.held)) }
    {
        self.parts.tables.least()
    }

    /// How many places the nodes and the leaves of tries of the routes need, each at most what its arena has: of the routes before
    /// the planned event, if one is.
    pub fn needs(&self) -> FamilyNeeds
        ensures needs { result ≡ needs_of self.now.held.sizes.direct (engine_routes self.now.held) }
        ensures fits { shortage self.now.held.sizes (engine_routes self.now.held) ≡ None }
        ensures few { AreFew result }
    {
        self.parts.needs
    }
}
