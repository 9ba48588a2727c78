//! The engine.

ghost use Rattle.std.specs.Prelude.{◌≡◌, ◌<◌, ◌+◌, ◌^◌, ◌↔◌, [], ◌∷◌, ◌++◌, List, length, map, true, false, Some, None, IfOk, OnOk, OnErr, IsErrOf};
ghost use Rattle.table_model.specs.Address.{Prefix as model_prefix};
ghost use Rattle.table_model.specs.declared.family.Family.TheVariants.{V4, V6};
ghost use Rattle.table_model.specs.Both.{aggregate_in_both};
ghost use Rattle.cert_model.specs.Rows.{certificate_of};
ghost use Rattle.route_model.specs.Events.{Elem as model_elem};
ghost use Rattle.route_model.specs.Choice.{elems_of};
ghost use Rattle.kept_model.specs.Kept.{changed_at, kept_at_load};
ghost use Rattle.moves_model.specs.Shortest.{AreShortest};
ghost use Rattle.fib_addr.specs.Views.{entry_as};
ghost use Rattle.fib_prefix.specs.Views.{elem_as, event_as};
ghost use Rattle.route_choice.specs.Held.{put_as};
ghost use Rattle.fib_delta.specs.Views.{change_as};
ghost use Rattle.cert_model.specs.Views.{row_as};
ghost use Rattle.route_tries.specs.Sizes.{AreFew, needs_of, shortage, sizes_as};
ghost use Rattle.route_tries.specs.Tries.{AreTriesOf};
ghost use Rattle.route_tries.specs.declared.sizes.TrieFull.{TrieFull};
ghost use Rattle.fib_engine.specs.Held.{AreKeptNeeds, engine_routes, routes_told};
ghost use Rattle.fib_engine.specs.Tables.{AreFilledOf, AreOfRoutes, only, table_of};
ghost use Rattle.fib_engine.specs.Stands.{EndsLoad, IsLoading, IsShortFor, IsTooMany, Loads, EngineStands, TakesElem, after_load, changes_of, first_of, routes_after};

use crate::error::EngineError;
use crate::final_fib::FinalFib;
use crate::numbers::{number_hop, number_next, number_put, number_route};
use crate::parts::Parts;
use crate::route_source::RouteSource;
use crate::staged::Staged;
use crate::tables::{EventChanges, Tables};
use fib_prefix::{Addr, Elem, Entry, Event, Family, HopTable, Prefix, Via};
use ortc::{Fresh, PackedTable};
use route_choice::{Candidates, FamilyRoutes};
use route_tries::{FamilyNeeds, Sizes, Tries, TriesError};
use std::alloc::{AllocError, Global};
use std::marker::Model;

/// How often a snapshot comes, whether events make the fewest changes, and how large tries are.
#[derive(Clone, Copy, Debug, PartialEq, Eq)]
pub struct Limits {
    /// A snapshot of both families follows each `every` elementary events after the load; with 0 none does.
    pub every: u32,
    /// Whether an event that changes a chosen hop gives the table the fewest changes, instead of repairing it at its prefix.
    pub fewest: bool,
    /// The sizes of both families' tries.
    pub sizes: Sizes,
}

/// The candidates of all peers, the numbers of next hops, the kept tables of both families, and what tries of the routes need,
/// under one event at a time. Contracts see what `EngineState` lists.
#[derive(Drop)]
pub struct Engine {
    parts: Parts,
}

impl Model for Engine {
    ghost use Rattle.fib_engine.specs.Held.{EngineState};
    ghost use Rattle.fib_engine.specs.Parts.{AreSound, state_in};

    ghost Value = { EngineState };

    ghost view = { λ e. state_in e.parts };

    ghost invariant = { λ e. AreSound e.parts };
}

impl Engine {
    /// No candidates, no hops, and empty tables; the load begins.
    pub fn new(alloc: Global, limits: Limits) -> Engine
        ensures { result ≡ record {
          every = limits.every;
          fewest = limits.fewest;
          sizes = sizes_as limits.sizes;
          candidates = [];
          hops = [];
          table = [];
          loaded = false;
          events = 0;
          moves = None;
        } }
    {
        Engine {
            parts: Parts {
                alloc,
                candidates: Candidates::new(alloc),
                hops: HopTable::new(alloc),
                tables: Tables::new(alloc),
                needs: FamilyNeeds::none(),
                events: 0,
                moves: None,
                limits,
                is_loaded: false,
            },
        }
    }

    /// Whether the load ended.
    pub fn is_loaded(&self) -> bool
        ensures { result ≡ self.now.loaded }
    {
        self.parts.is_loaded
    }

    /// The hops with their numbers.
    pub fn hops(&self) -> &HopTable
        ensures { result.now.list ≡ self.now.hops }
    {
        &self.parts.hops
    }

    /// The event as elementary events: a cut for each route of a peer whose session is lost, in the order of prefixes, then
    /// of path identifiers.
    ///
    /// # Errors
    ///
    /// Out of memory.
    pub fn elementary(&self, event: &Event) -> Result<Vec<Elem>, AllocError>
        ensures { IfOk result (λ elems. map elem_as elems.items
            ≡ elems_of self.now.candidates (event_as event.now)) }
    {
        self.parts.candidates.elementary(event)
    }

    /// Takes an elementary event of the load. Its hop gets a number, chosen or not. No table is touched.
    ///
    /// # Errors
    ///
    /// `HopsFull` exactly if the event brings one different hop too many, or out of memory. Then the engine is as it was.
    pub fn load(&mut self, elem: &Elem) -> Result<(), EngineError>
        requires { self.old.loaded ≡ false }
        ensures loads { OnOk result (Loads (elem_as elem.now) self.old self.new) }
        ensures loading { OnOk result ((load : List model_elem) → IsLoading load self.old
            → IsLoading (load ++ elem_as elem.now ∷ []) self.new) }
        ensures full { IsErrOf result EngineError.HopsFull ↔ IsTooMany (elem_as elem.now) self.old }
        ensures fits { (t : TrieFull) → ¬ (IsErrOf result (EngineError.TrieFull t)) }
        ensures err { OnErr result (self.new ≡ self.old) }
    {
        let own = number_put(&self.parts.hops, elem)?;
        self.parts.hops.room()?;
        self.parts.candidates.load(elem)?;
        number_hop(&mut self.parts.hops, own, elem);
        Ok(())
    }

    /// Takes the elementary event of the load that puts a route, as `load` does, at less cost.
    ///
    /// # Errors
    ///
    /// `HopsFull` exactly if the route brings one different hop too many, or out of memory. Then the engine is as it was.
    pub fn load_put(
        &mut self,
        via: &Via,
        prefix: &Prefix,
        path: u32,
        hop: &Addr,
    ) -> Result<(), EngineError>
        requires { self.old.loaded ≡ false }
        ensures loads { OnOk result (Loads (put_as via.now prefix.now path hop.now) self.old self.new) }
        ensures loading { OnOk result ((load : List model_elem) → IsLoading load self.old
            → IsLoading (load ++ put_as via.now prefix.now path hop.now ∷ []) self.new) }
        ensures full { IsErrOf result EngineError.HopsFull ↔ IsTooMany
            (put_as via.now prefix.now path hop.now) self.old }
        ensures fits { (t : TrieFull) → ¬ (IsErrOf result (EngineError.TrieFull t)) }
        ensures err { OnErr result (self.new ≡ self.old) }
    {
        let own = number_next(&self.parts.hops, hop)?;
        self.parts.hops.room()?;
        self.parts.candidates.load_put(via, prefix, path, hop)?;
        number_route(&mut self.parts.hops, own, hop);
        Ok(())
    }

    /// Takes an elementary event after the load, counts it, and returns its changes: if it changes the chosen hop, first those
    /// of the repair at its prefix, or with `fewest` those to the nearest table, which are the fewest that any table of the routes
    /// needs; then those of a snapshot of both families, if one is due; and how many are the first step's. Its hop gets a
    /// number, chosen or not. What tries need is counted anew at its prefix alone, if it changes the chosen hop.
    ///
    /// # Errors
    ///
    /// `HopsFull` exactly if the event brings one different hop too many, else `TrieFull` exactly if tries of the routes
    /// after it need more than an arena has, of which it names the first; or out of memory. Then the engine is as it was.
    pub fn apply(&mut self, elem: &Elem) -> Result<EventChanges, EngineError>
        requires loaded { self.old.loaded ≡ true }
        requires few { self.old.events + 1 < 2 ^ 64 }
        ensures takes { OnOk result (TakesElem (elem_as elem.now) self.old self.new) }
        ensures changes { IfOk result (λ e. map change_as e.changes.items
            ≡ changes_of (elem_as elem.now) self.old) }
        ensures first { IfOk result (λ e. e.first
            ≡ length (first_of (elem_as elem.now) self.old)) }
        ensures shortest { OnOk result (self.old.fewest ≡ true → (p : model_prefix)
            → changed_at self.old.candidates (elem_as elem.now) ≡ Some p
            → AreShortest p.family (routes_after (elem_as elem.now) self.old) self.old.table
            (first_of (elem_as elem.now) self.old)) }
        ensures stands { OnOk result ((load elems : List model_elem) → EngineStands load elems self.old
            → EngineStands load (elems ++ elem_as elem.now ∷ []) self.new) }
        ensures full { IsErrOf result EngineError.HopsFull ↔ IsTooMany (elem_as elem.now) self.old }
        ensures fits { OnOk result (shortage self.new.sizes (engine_routes self.new) ≡ None) }
        ensures short { (t : TrieFull) → IsErrOf result (EngineError.TrieFull t)
            → IsShortFor self.old (routes_after (elem_as elem.now) self.old) t }
        ensures err { OnErr result (self.new ≡ self.old) }
    {
        let changes = self.parts.apply(elem)?;
        Ok(changes)
    }

    /// How many changes the last event after the load needed before its snapshot; `None` exactly if it changed no chosen hop, or
    /// there was no event yet.
    pub fn last_moves(&self) -> Option<u64>
        ensures { result ≡ self.now.moves }
    {
        self.parts.moves
    }

    /// The routes: each prefix for which a peer offers one, with the number of the chosen one's hop, in the order of prefixes.
    ///
    /// # Errors
    ///
    /// Out of memory.
    pub fn routes(&self) -> Result<Vec<Entry>, AllocError>
        ensures { IfOk result (λ v. map entry_as v.items ≡ engine_routes self.now) }
    {
        self.parts.candidates.route_entries(&self.parts.hops)
    }

    /// The tables of the routes, before their first snapshot. If all candidates lie in the order of prefixes no list of the
    /// routes is made. Marks are kept if snapshots are to come.
    fn tables_of_routes(&self) -> Result<Tables, AllocError>
        ensures { IfOk result (AreOfRoutes (engine_routes self.now)) }
    {
        let candidates = &self.parts.candidates;
        let v4 = candidates.family_routes(Family::V4, &self.parts.hops);
        let v6 = candidates.family_routes(Family::V6, &self.parts.hops);
        if let (Some(v4), Some(v6)) = (v4, v6) {
            let tables = self.tables_of_families(v4, v6)?;
            return Ok(tables.marked_if(self.parts.limits.every != 0));
        }
        let tables = self.tables_of_list()?;
        Ok(tables.marked_if(self.parts.limits.every != 0))
    }

    /// The tables of the routes of both families, as they come.
    fn tables_of_families(
        &self,
        v4: FamilyRoutes<'_>,
        v6: FamilyRoutes<'_>,
    ) -> Result<Tables, AllocError>
        requires v4 { v4 ≡ only V4 (engine_routes self.now) }
        requires v6 { v6 ≡ only V6 (engine_routes self.now) }
        ensures { IfOk result (AreOfRoutes (engine_routes self.now)) }
    {
        let mut v4 = RouteSource(v4);
        let mut v6 = RouteSource(v6);
        let tables = Tables::load_from(self.parts.alloc, &mut v4, &mut v6)?;
        Ok(tables)
    }

    /// The tables of the routes, from a list of them.
    fn tables_of_list(&self) -> Result<Tables, AllocError>
        ensures { IfOk result (AreOfRoutes (engine_routes self.now)) }
    {
        let tables = Tables::load(self.parts.alloc, &self.routes()?)?;
        Ok(tables)
    }

    /// The tables of the routes, before their first snapshot, and what tries of the routes need.
    ///
    /// # Errors
    ///
    /// `TrieFull` exactly if that is more than an arena has, of which it names the first; or out of memory.
    fn fitting_tables(&self) -> Result<(Tables, FamilyNeeds), EngineError>
        ensures tables { IfOk result (λ r. AreOfRoutes (engine_routes self.now) r.0) }
        ensures needs { IfOk result (λ r. AreKeptNeeds self.now.sizes (engine_routes self.now) r.1) }
        ensures hops { ¬ (IsErrOf result EngineError.HopsFull) }
        ensures short { (t : TrieFull) → IsErrOf result (EngineError.TrieFull t)
            → IsShortFor self.now (engine_routes self.now) t }
    {
        let tables = self.tables_of_routes()?;
        let needs = tables.needs(self.parts.limits.sizes.direct);
        needs.fit(&self.parts.limits.sizes)?;
        Ok((tables, needs))
    }

    /// Ends the load with the kept tables, which are least for the routes.
    fn end_load(&mut self, tables: Tables, needs: FamilyNeeds)
        requires load { self.old.loaded ≡ false }
        requires tables { AreFilledOf (engine_routes self.old) tables }
        requires needs { AreKeptNeeds self.old.sizes (engine_routes self.old) needs }
        ensures ends { EndsLoad self.old self.new }
        ensures table { self.new.table ≡ table_of tables }
        ensures stands { (load : List model_elem) → IsLoading load self.old
            → EngineStands load [] self.new }
        ensures fits { shortage self.new.sizes (engine_routes self.new) ≡ None }
    {
        self.parts.tables = tables;
        self.parts.needs = needs;
        self.parts.is_loaded = true;
    }

    /// Ends the load: makes the kept tables, which are least for the routes, and returns their entries; counts what tries of the
    /// routes need.
    ///
    /// # Errors
    ///
    /// `TrieFull` exactly if that is more than an arena has, of which it names the first; or out of memory. Then the engine is as
    /// it was.
    pub fn finish_load(&mut self) -> Result<Vec<Entry>, EngineError>
        requires { self.old.loaded ≡ false }
        ensures ends { OnOk result (EndsLoad self.old self.new) }
        ensures entries { IfOk result (λ v. map entry_as v.items ≡ self.new.table) }
        ensures stands { OnOk result ((load : List model_elem) → IsLoading load self.old
            → EngineStands load [] self.new) }
        ensures fits { OnOk result (shortage self.new.sizes (engine_routes self.new) ≡ None) }
        ensures hops { ¬ (IsErrOf result EngineError.HopsFull) }
        ensures short { (t : TrieFull) → IsErrOf result (EngineError.TrieFull t)
            → IsShortFor self.old (engine_routes self.old) t }
        ensures err { OnErr result (self.new ≡ self.old) }
    {
        let (tables, needs) = self.fitting_tables()?;
        let (tables, packed) = tables.filled()?;
        let mut entries = Vec::new(self.parts.alloc);
        packed.emit(&mut entries)?;
        self.end_load(tables, needs);
        Ok(entries)
    }

    /// Ends the load as `finish_load` does, and returns the entries in half the memory.
    ///
    /// # Errors
    ///
    /// As `finish_load`'s.
    pub fn finish_load_packed(&mut self) -> Result<PackedTable, EngineError>
        requires { self.old.loaded ≡ false }
        ensures ends { OnOk result (EndsLoad self.old self.new) }
        ensures entries { IfOk result (λ t. t ≡ self.new.table) }
        ensures stands { OnOk result ((load : List model_elem) → IsLoading load self.old
            → EngineStands load [] self.new) }
        ensures fits { OnOk result (shortage self.new.sizes (engine_routes self.new) ≡ None) }
        ensures hops { ¬ (IsErrOf result EngineError.HopsFull) }
        ensures short { (t : TrieFull) → IsErrOf result (EngineError.TrieFull t)
            → IsShortFor self.old (engine_routes self.old) t }
        ensures err { OnErr result (self.new ≡ self.old) }
    {
        let (tables, needs) = self.fitting_tables()?;
        let (tables, entries) = tables.filled()?;
        self.end_load(tables, needs);
        Ok(entries)
    }

    /// Ends the load for good: no events follow. It returns what is left to be written, and the hops with their numbers, as
    /// `finish_load` and then `settle` would. The candidates are let go before the kept tables are made, and no list of the
    /// entries is left.
    ///
    /// # Errors
    ///
    /// As `finish_load`'s.
    pub fn settle_load(self) -> Result<(FinalFib, HopTable), EngineError>
        requires { self.loaded ≡ false }
        ensures sizes { IfOk result (λ r. r.0.sizes ≡ self.sizes) }
        ensures routes { IfOk result (λ r. r.0.routes ≡ engine_routes self) }
        ensures table { IfOk result (λ r. r.0.table ≡ kept_at_load self.hops self.candidates) }
        ensures hop_list { IfOk result (λ r. r.1.list ≡ self.hops) }
        ensures stands { OnOk result ((load : List model_elem) → IsLoading load self
            → EngineStands load [] (after_load self)) }
        ensures hops { ¬ (IsErrOf result EngineError.HopsFull) }
        ensures short { (t : TrieFull) → IsErrOf result (EngineError.TrieFull t)
            → IsShortFor self (engine_routes self) t }
    {
        let (tables, needs) = self.fitting_tables()?;
        let parts = self.parts;
        drop(parts.candidates);
        let tables = tables.filled_alone()?;
        let final_fib = FinalFib {
            alloc: parts.alloc,
            tables,
            needs,
            sizes: parts.limits.sizes,
        };
        Ok((final_fib, parts.hops))
    }

    /// The kept table, in the order of prefixes.
    ///
    /// # Errors
    ///
    /// Out of memory.
    pub fn table(&self) -> Result<Vec<Entry>, AllocError>
        ensures { IfOk result (λ v. map entry_as v.items ≡ self.now.table) }
    {
        self.parts.tables.table()
    }

    /// The least table of the routes, with the kept one as the old table, and the rows that prove it least; IPv4 first. Before the
    /// load ended, those of no routes.
    ///
    /// # Errors
    ///
    /// Out of memory.
    pub fn least(&self) -> Result<Fresh, AllocError>
        ensures table { IfOk result (λ v. map entry_as v.table.items
            ≡ aggregate_in_both (routes_told self.now) self.now.table) }
        ensures proof { IfOk result (λ v. map row_as v.proof.items
            ≡ certificate_of (routes_told self.now)) }
    {
        self.parts.tables.least()
    }

    /// How many places the nodes and the leaves of tries of the routes need, each at most what its arena has; before the load
    /// ended, of no routes.
    pub fn needs(&self) -> FamilyNeeds
        ensures needs { result ≡ needs_of self.now.sizes.direct (routes_told self.now) }
        ensures few { AreFew result }
    {
        self.parts.needs
    }

    /// Tries of the routes, to look addresses up; before the load ended, of no routes. They have room.
    ///
    /// # Errors
    ///
    /// Out of memory.
    pub fn tries(&self) -> Result<Tries<'_>, AllocError>
        ensures { IfOk result (AreTriesOf self.now.sizes.direct (routes_told self.now)) }
    {
        let v4 = self.parts.tables.tree(Family::V4);
        let v6 = self.parts.tables.tree(Family::V6);
        match Tries::build(self.parts.alloc, &self.parts.limits.sizes, v4, v6) {
            Ok(tries) => Ok(tries),
            Err(TriesError::NoMemory) => Err(AllocError),
            Err(TriesError::Full(_)) => unreachable!(),
        }
    }

    /// What is left to be written once no more events come, and the hops with their numbers: the candidates are let go.
    pub fn settle(self) -> (FinalFib, HopTable)
        requires { self.loaded ≡ true }
        ensures sizes { result.0.sizes ≡ self.sizes }
        ensures routes { result.0.routes ≡ engine_routes self }
        ensures table { result.0.table ≡ self.table }
        ensures hops { result.1.list ≡ self.hops }
    {
        let final_fib = FinalFib {
            alloc: self.parts.alloc,
            tables: self.parts.tables,
            needs: self.parts.needs,
            sizes: self.parts.limits.sizes,
        };
        (final_fib, self.parts.hops)
    }

    /// The engine with events that are planned, and then made or undone.
    pub fn staged(self) -> Staged
        requires { self.loaded ≡ true }
        ensures held { result.held ≡ self }
        ensures rest { result.planned ≡ None }
    {
        Staged {
            parts: self.parts,
            waiting: None,
        }
    }
}
