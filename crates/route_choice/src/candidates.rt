//! The candidates: the routes among which one is chosen for each prefix.

ghost use Rattle.std.specs.Prelude.{◌≡◌, [], filter, map, option_map, Some, None, IfOk, IfNone, IfSome, OnOk, OnErr};
ghost use Rattle.table_model.specs.Address.{same_family};
ghost use Rattle.fib_addr.specs.Views.{addr_as, entry_as, prefix_as, route_as};
ghost use Rattle.std.specs.List.{AllByRecursion};
ghost use Rattle.fib_prefix.specs.Views.{IsOfOctets, cand_as, peer_as, event_as, elem_as};
ghost use Rattle.route_model.specs.Choice.{AreCandidates, after_elem, elems_of, chosen_for, routes_of};
ghost use Rattle.kept_model.specs.Feed.{entries_of};
ghost use Rattle.fib_prefix.specs.Taken.{TakesCands};
ghost use Rattle.adj_rib_in.specs.Paths.{held_in};
ghost use Rattle.adj_rib_in.specs.Flat.{IsFlat, ShareNoKey, flat_paths, paths_over};
ghost use Rattle.route_choice.specs.Held.{HeldCandidates, IsChoice, IsPlanned, pick_elem, put_as};
ghost use Rattle.route_choice.specs.Kept.{PathsAreKept};
ghost use Rattle.route_choice.specs.Space.{HasSpace, planned_elem, over_of as over};

use crate::all::emit_candidates;
use crate::both::{best_of, carry_one, choice_of, load_elem, make_space, put_route, spot_of};
use crate::choice::{Choice, Pick};
use crate::down::cuts_of;
use crate::entries::entries_of as all_entries;
use crate::family_routes::FamilyRoutes;
use crate::over::key_of;
use crate::plan::{Plan, end_plan, replace_plan};
use crate::routes::routes_of as all_routes;
use adj_rib_in::{Flat, PathAttrs, PathKey, Rank};
use fib_prefix::{Addr, Cand, CandSink, Elem, Entry, Event, Family, HopTable, Peer, Prefix, Via};
use std::alloc::{AllocError, Global};
use std::collections::{BTreeMap, BTreeSet};
use std::marker::Model;

/// The routes that peers offer, and which of them are chosen. Contracts see the list of candidates in the order of their
/// places, and the elementary event for which room is held.
#[derive(Drop)]
pub struct Candidates {
    alloc: Global,
    // what came in the order of prefixes
    flat: Flat,
    // what is offered at each other path key; the path key that is held for the plan alone offers nothing
    paths: BTreeMap<PathKey, Option<PathAttrs>>,
    // the rank of each offer of these path keys, and that which is held for the plan
    ranks: BTreeSet<Rank>,
    // what was planned last, until something changes
    room: Option<Plan>,
}

impl Model for Candidates {
    ghost Value = { HeldCandidates };

    ghost view = { λ c. record { candidates = held_in (paths_over c.flat c.paths.entries); room = option_map planned_elem c.room } };

    ghost invariant = { λ c. IsFlat c.flat × ShareNoKey (flat_paths c.flat) c.paths.entries × PathsAreKept c.paths.entries c.ranks.keys None (over c.room) × HasSpace c.flat c.room };
}

impl Candidates {
    /// No routes.
    pub fn new(alloc: Global) -> Candidates
        ensures { result ≡ record { candidates = []; room = None } }
    {
        Candidates {
            alloc,
            flat: Flat::new(alloc),
            paths: BTreeMap::new(alloc),
            ranks: BTreeSet::new(alloc),
            room: None,
        }
    }

    /// The event as elementary events: a cut for each route of a peer whose session is lost, in the order of prefixes, then
    /// of path identifiers.
    ///
    /// # Errors
    ///
    /// Out of memory.
    pub fn elementary(&self, event: &Event) -> Result<Vec<Elem>, AllocError>
        ensures { IfOk result (λ elems. map elem_as elems.items
            ≡ elems_of self.now.candidates (event_as event.now)) }
    {
        match *event {
            Event::Announce(via, prefix, path, hop, _) => Ok(vec![in self.alloc;
                Elem::Put(via, prefix, path, hop),
            ]?),
            Event::Withdraw(via, prefix) => Ok(vec![in self.alloc; Elem::Cut(via, prefix)]?),
            Event::Down(peer) => cuts_of(self.alloc, &self.flat, &self.paths, &peer),
        }
    }

    /// Makes room for an elementary event and returns the choice that it will make, as `plan` does, without a token: what is planned
    /// stands in the room. It changes no route. The plan before it is void.
    ///
    /// # Errors
    ///
    /// Out of memory; then nothing has changed, and the plan before it still holds.
    pub fn choose(&mut self, elem: &Elem) -> Result<Choice, AllocError>
        ensures candidates { self.new.candidates ≡ self.old.candidates }
        ensures room { OnOk result (self.new.room ≡ Some (elem_as elem.now)) }
        ensures choice { IfOk result (IsChoice self.old.candidates (elem_as elem.now)) }
        ensures err { OnErr result (self.new ≡ self.old) }
    {
        let key = key_of(elem);
        let spot = spot_of(&self.flat, &key);
        let choice = choice_of(&self.flat, &self.paths, &self.ranks, elem, &key, spot);
        make_space(
            &mut self.flat,
            &mut self.paths,
            &mut self.ranks,
            elem,
            spot.at,
        )?;
        replace_plan(&mut self.paths, &mut self.ranks, &mut self.room, elem, spot);
        Ok(choice)
    }

    /// Makes room for an elementary event and returns the choice that it will make. It changes no route. The plan before it is
    /// void.
    ///
    /// # Errors
    ///
    /// Out of memory; then nothing has changed, and the plan before it still holds.
    pub fn plan(&mut self, elem: &Elem) -> Result<Pick, AllocError>
        ensures candidates { self.new.candidates ≡ self.old.candidates }
        ensures elem { IfOk result (λ pick. pick_elem pick ≡ elem_as elem.now) }
        ensures planned { IfOk result (IsPlanned self.new) }
        ensures err { OnErr result (self.new ≡ self.old) }
    {
        let choice = self.choose(elem)?;
        Ok(Pick {
            elem: *elem,
            choice,
        })
    }

    /// Carries out what is planned, if anything is. Takes no memory.
    pub fn carry(&mut self)
        ensures candidates { IfSome self.old.room (λ elem. self.new.candidates
            ≡ after_elem self.old.candidates elem) }
        ensures none { IfNone self.old.room (self.new.candidates ≡ self.old.candidates) }
        ensures room { self.new.room ≡ None }
    {
        let Some(plan) = &self.room else {
            return;
        };
        carry_one(&mut self.flat, &mut self.paths, &mut self.ranks, plan);
        self.room = None;
    }

    /// Carries out what was planned, if nothing changed since. Takes no memory.
    pub fn commit(&mut self, pick: Pick) -> Choice
        requires { IsPlanned self.old pick }
        ensures candidates { self.new.candidates ≡ after_elem self.old.candidates (pick_elem pick) }
        ensures room { self.new.room ≡ None }
        ensures choice { IsChoice self.old.candidates (pick_elem pick) result }
    {
        self.carry();
        pick.choice
    }

    /// Carries out an elementary event. An earlier plan is void.
    ///
    /// # Errors
    ///
    /// Out of memory; then nothing has changed, and an earlier plan still holds.
    pub fn apply(&mut self, elem: &Elem) -> Result<Choice, AllocError>
        ensures candidates { OnOk result (self.new.candidates
            ≡ after_elem self.old.candidates (elem_as elem.now)) }
        ensures choice { IfOk result (IsChoice self.old.candidates (elem_as elem.now)) }
        ensures room { OnOk result (self.new.room ≡ None) }
        ensures err { OnErr result (self.new ≡ self.old) }
    {
        let pick = self.plan(elem)?;
        Ok(self.commit(pick))
    }

    /// Carries out an elementary event of which nobody asks what it chooses, at a fraction of what `apply` costs. An earlier
    /// plan is void.
    ///
    /// # Errors
    ///
    /// Out of memory; then nothing has changed, and an earlier plan still holds.
    pub fn load(&mut self, elem: &Elem) -> Result<(), AllocError>
        ensures candidates { OnOk result (self.new.candidates
            ≡ after_elem self.old.candidates (elem_as elem.now)) }
        ensures room { OnOk result (self.new.room ≡ None) }
        ensures err { OnErr result (self.new ≡ self.old) }
    {
        load_elem(&mut self.flat, &mut self.paths, &mut self.ranks, elem)?;
        end_plan(&mut self.paths, &mut self.ranks, &mut self.room);
        Ok(())
    }

    /// Carries out the elementary event that puts a route, as `load` does, at a fraction of what that costs if the route comes in
    /// the order of prefixes. An earlier plan is void.
    ///
    /// # Errors
    ///
    /// Out of memory; then nothing has changed, and an earlier plan still holds.
    pub fn load_put(
        &mut self,
        via: &Via,
        prefix: &Prefix,
        path: u32,
        hop: &Addr,
    ) -> Result<(), AllocError>
        ensures candidates { OnOk result (self.new.candidates
            ≡ after_elem self.old.candidates (put_as via.now prefix.now path hop.now)) }
        ensures room { OnOk result (self.new.room ≡ None) }
        ensures err { OnErr result (self.new ≡ self.old) }
    {
        put_route(
            &mut self.flat,
            &mut self.paths,
            &mut self.ranks,
            via,
            prefix,
            path,
            hop,
        )?;
        end_plan(&mut self.paths, &mut self.ranks, &mut self.room);
        Ok(())
    }

    /// The next hop of the chosen route for a prefix, if a peer offers one.
    pub fn chosen(&self, prefix: &Prefix) -> Option<Addr>
        ensures { option_map addr_as result ≡ chosen_for self.now.candidates
            (prefix_as prefix.now) }
    {
        let best = best_of(&self.flat, &self.paths, &self.ranks, prefix, None)?;
        Some(best.attrs.hop())
    }

    /// Each prefix for which a peer offers a route, with the next hop of the chosen one, in the order of prefixes.
    ///
    /// # Errors
    ///
    /// Out of memory.
    pub fn routes(&self) -> Result<Vec<(Prefix, Addr)>, AllocError>
        ensures routes { IfOk result (λ routes. map route_as routes.items
            ≡ routes_of self.now.candidates) }
        ensures held { AreCandidates self.now.candidates }
    {
        all_routes(self.alloc, &self.flat, &self.paths, &self.ranks)
    }

    /// The same with the numbers of next hops, 0 of one that has none, in one list.
    ///
    /// # Errors
    ///
    /// Out of memory.
    pub fn route_entries(&self, hops: &HopTable) -> Result<Vec<Entry>, AllocError>
        ensures entries { IfOk result (λ entries. map entry_as entries.items
            ≡ entries_of hops.now.list self.now.candidates) }
        ensures held { AreCandidates self.now.candidates }
    {
        all_entries(self.alloc, &self.flat, &self.paths, &self.ranks, hops)
    }

    /// The same of a family one by one, as they are chosen, if all routes lie in the base: no list is made. `None` if some
    /// came out of the order of prefixes, or with updates.
    pub fn family_routes<'a>(
        &'a self,
        family: Family,
        hops: &'a HopTable,
    ) -> Option<FamilyRoutes<'a>>
        ensures { IfSome result (λ routes. routes ≡ filter (λ e. same_family family e.0.family)
            (entries_of hops.now.list self.now.candidates)) }
    {
        if !self.ranks.is_empty() {
            return None;
        }
        Some(FamilyRoutes::new(&self.flat, &self.paths, hops, family))
    }

    /// All candidates, in the order of prefixes, then of path sources, in one list: 144 octets each. `emit_all` makes no list.
    ///
    /// # Errors
    ///
    /// Out of memory.
    pub fn all(&self) -> Result<Vec<Cand>, AllocError>
        ensures all { IfOk result (λ cands. map cand_as cands.items ≡ self.now.candidates) }
        ensures octets { OnOk result (AllByRecursion IsOfOctets self.now.candidates) }
        ensures held { AreCandidates self.now.candidates }
    {
        let mut cands = Vec::new(self.alloc);
        self.emit_all(&mut cands)?;
        Ok(cands)
    }

    /// Hands on all candidates one by one, in the order of prefixes, then of path sources. No list of them is made, but one of their prefixes.
    ///
    /// # Errors
    ///
    /// Out of memory; then the first n candidates were taken, for some n.
    pub fn emit_all<S: CandSink>(&self, out: &mut S) -> Result<(), AllocError>
        requires { S.ready out.old }
        ensures ready { OnOk result (S.ready out.new) }
        ensures takes { OnOk result (TakesCands S.takes out.old self.now.candidates out.new) }
        ensures octets { OnOk result (AllByRecursion IsOfOctets self.now.candidates) }
        ensures held { AreCandidates self.now.candidates }
    {
        emit_candidates(self.alloc, &self.flat, &self.paths, &self.ranks, out)?;
        Ok(())
    }
}
