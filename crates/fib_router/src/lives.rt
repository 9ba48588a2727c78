//! The live tries of both families.

ghost use Rattle.std.specs.Prelude.{◌≡◌, ◌<◌, ◌+◌, ◌^◌, ◌≤◌, suc, None, Some, true, false, IfOk, IfErr, OnOk, OnErr};
ghost use Rattle.route_model.specs.Events.{Elem};
ghost use Rattle.table_model.specs.Address.{same_family};
ghost use Rattle.table_model.specs.declared.family.Family.{Family};
ghost use Rattle.fib_addr.specs.Views.{prefix_as};
ghost use Rattle.fib_addr.specs.Answers.{all_answers};
ghost use Rattle.table_model.specs.Entries.{Entries};
ghost use Rattle.poptrie_update.specs.Cells.{KeepsAllReached};
ghost use Rattle.poptrie_update.specs.Lives.{Living, Shows, HasShapeOf, is_pending, made_of, stores_left};
ghost use Rattle.poptrie_update.specs.Pendings.{IsTokenOf};
ghost use Rattle.poptrie_update.specs.Prepares.{IsAtRest, IsCancelled};
ghost use Rattle.poptrie_update.specs.Undone.{IsAsItWas, IsReadyAfter};
ghost use Rattle.route_tries.specs.Parts.{AreAlikeOutside};
ghost use Rattle.route_tries.specs.Sizes.{shortage};
ghost use Rattle.fib_engine.specs.Held.{EngineState, engine_routes};
ghost use Rattle.fib_engine.specs.Staged.{routes_planned};
ghost use Rattle.fib_engine.specs.Stands.{TakesElem};
ghost use Rattle.poptrie_build.specs.declared.filling.TrieFull.{TrieFull as TooFull};
ghost use Rattle.fib_router.specs.Errors.{IsHeldUp, IsSaidOf};
ghost use Rattle.fib_router.specs.Lives.{AreLives, AreNewLives, GoesBy, HasRoomIn, IsFilledWith, IsForgotten, IsLiveOf, IsPendingOf, IsPrepared, IsReadyFor, IsUnprepared, Readies, RetiresOther, StoresJustBy, StoresNext, live_of};

use crate::error::NotBegun;
use fib_addr::{Family, Prefix};
use fib_engine::{Sizes, Staged};
use orig_tree::Tree;
use poptrie_update::{Live, NotReady, Oldest, Pending};
use route_tries::RouteRegion;
use std::alloc::{AllocError, Global};

/// The live tries of both families.
#[derive(Drop)]
pub(crate) struct Lives {
    pub(crate) v4: Live,
    pub(crate) v6: Live,
}

/// A live trie of these sizes, of a tree's routes, which has room for them.
fn filled(alloc: Global, tree: &Tree, sizes: &Sizes) -> Result<Live, AllocError>
    requires room { HasRoomIn tree.now.family sizes.now tree.now.routes }
    ensures { IfOk result (IsFilledWith tree.now.family sizes.now tree.now.routes) }
{
    let mut live = Live::new(
        alloc,
        tree.family(),
        sizes.direct,
        sizes.nodes,
        sizes.leaves,
    )?;
    match live.fill(&RouteRegion::whole(tree)) {
        Ok(()) => Ok(live),
        Err(_full) => unreachable!(),
    }
}

/// Why an event isn't begun whose family's trie isn't made ready, though the trie would fit.
fn hindrance(why: NotReady) -> NotBegun
    requires { (t : TooFull) → why ≡ NotReady.TooMuch t → ⊥ }
    ensures { IsSaidOf why result }
{
    match why {
        NotReady::Memory => NotBegun::NoMemory,
        NotReady::TooMuch(_) => unreachable!(),
        NotReady::Pinned {
            need,
            cursor,
            arena,
            largest,
        } => NotBegun::Pinned {
            need,
            cursor,
            arena,
            largest,
        },
    }
}

/// Makes the update of a family's trie ready that leads from the routes to those after the planned event.
fn ready(
    lower: &Staged,
    live: &mut Live,
    prefix: &Prefix,
    oldest: Oldest,
) -> Result<Pending, NotBegun>
    requires rest { IsLiveOf prefix.now.family lower.now.held None live.old }
    requires few { lower.now.held.events + 1 < 2 ^ 64 }
    requires within { AreAlikeOutside (prefix_as prefix.now) (engine_routes lower.now.held)
        (routes_planned lower.now) }
    requires fits { shortage lower.now.held.sizes (routes_planned lower.now) ≡ None }
    ensures token { IfOk result (λ p. IsTokenOf p live.new × (made_of live.new ≡ 0)) }
    ensures shape { HasShapeOf live.old live.new }
    ensures time { live.new.selected.time ≡ live.old.selected.time }
    ensures shows { OnOk result (Shows live.new (engine_routes lower.now.held)
        (routes_planned lower.now)) }
    ensures quiet { OnErr result (is_pending live.new ≡ false) }
    ensures still { OnErr result (Shows live.new (engine_routes lower.now.held)
        (engine_routes lower.now.held)) }
    ensures hindered { IfErr result (λ e. IsHeldUp oldest e live.old (engine_routes lower.now.held)
        (routes_planned lower.now)) }
    ensures resting { IsAtRest live.old }
    ensures readies { Readies oldest live.old live.new }
    ensures stores { OnOk result (StoresJustBy live.new.state live.new
        (engine_routes lower.now.held) (routes_planned lower.now)) }
    ensures kept { OnErr result ((L M : Entries) → Shows live.old L M → Shows live.new L M) }
    ensures prepared { IfOk result (λ p. IsPrepared oldest p live.old live.new
        (engine_routes lower.now.held) (routes_planned lower.now)) }
    ensures unprepared { OnErr result (IsUnprepared oldest live.old live.new) }
{
    let region = RouteRegion::whole(lower.tree(prefix.family));
    match live.prepare_within(&region, prefix, prefix, oldest) {
        Ok(pending) => Ok(pending),
        Err(why) => Err(hindrance(why)),
    }
}

impl Lives {
    /// Those of the routes, if no event is planned.
    ///
    /// # Errors
    ///
    /// Out of memory.
    pub(crate) fn new(alloc: Global, lower: &Staged) -> Result<Lives, AllocError>
        requires { lower.now.planned ≡ None }
        ensures lives { IfOk result (AreLives lower.now.held None) }
        ensures first { IfOk result (AreNewLives lower.now.held) }
    {
        // they have room, as its needs say
        let _needs = lower.needs();
        let sizes = lower.sizes();
        let v4 = filled(alloc, lower.tree(Family::V4), &sizes)?;
        let v6 = filled(alloc, lower.tree(Family::V6), &sizes)?;
        Ok(Lives { v4, v6 })
    }

    /// That of a family.
    pub(crate) fn of(&self, family: Family) -> &Live
        ensures { result.now ≡ live_of family self.now }
    {
        match family {
            Family::V4 => &self.v4,
            Family::V6 => &self.v6,
        }
    }

    /// Makes the update ready that leads from the routes to those after the planned event, which changes the answers of this prefix's
    /// addresses alone.
    ///
    /// # Errors
    ///
    /// Out of memory, or pinned by an open lookup. But for what was given back, all is as it was.
    pub(crate) fn prepare(
        &mut self,
        lower: &Staged,
        prefix: &Prefix,
        oldest: Oldest,
    ) -> Result<Pending, NotBegun>
        requires rest { AreLives lower.now.held None self.old }
        requires planned { lower.now.planned ≡ None → ⊥ }
        requires few { lower.now.held.events + 1 < 2 ^ 64 }
        requires within { AreAlikeOutside (prefix_as prefix.now) (engine_routes lower.now.held)
            (routes_planned lower.now) }
        requires elsewhere { (f : Family) → same_family prefix.now.family f ≡ false
            → all_answers f (engine_routes lower.now.held) ≡ all_answers f (routes_planned lower.now) }
        requires fits { shortage lower.now.held.sizes (routes_planned lower.now) ≡ None }
        ensures pending { IfOk result (λ p. IsPendingOf prefix.now.family p self.new) }
        ensures made { OnOk result (made_of (live_of prefix.now.family self.new) ≡ 0) }
        ensures lives { OnOk result (AreLives lower.now.held lower.now.planned self.new) }
        ensures still { OnErr result (AreLives lower.now.held None self.new) }
        ensures hindered { IfErr result (λ e. IsHeldUp oldest e
            (live_of prefix.now.family self.old) (engine_routes lower.now.held)
            (routes_planned lower.now)) }
        ensures resting { IsAtRest (live_of prefix.now.family self.old) }
        ensures readies { Readies oldest (live_of prefix.now.family self.old)
            (live_of prefix.now.family self.new) }
        ensures ready { OnOk result (IsReadyFor (engine_routes lower.now.held)
            (routes_planned lower.now) (live_of prefix.now.family self.new)) }
        ensures kept { OnErr result ((L M : Entries) → Shows (live_of prefix.now.family self.old) L M
            → Shows (live_of prefix.now.family self.new) L M) }
        ensures prepared { IfOk result (λ p. IsPrepared oldest p
            (live_of prefix.now.family self.old) (live_of prefix.now.family self.new)
            (engine_routes lower.now.held) (routes_planned lower.now)) }
        ensures unprepared { OnErr result (IsUnprepared oldest
            (live_of prefix.now.family self.old) (live_of prefix.now.family self.new)) }
        ensures other { (f : Family) → same_family prefix.now.family f ≡ false
            → live_of f self.new ≡ live_of f self.old }
    {
        match prefix.family {
            Family::V4 => ready(lower, &mut self.v4, prefix, oldest),
            Family::V6 => ready(lower, &mut self.v6, prefix, oldest),
        }
    }

    /// Makes the next store of a family's pending update; false if none is left.
    pub(crate) fn store(&mut self, family: Family, pending: &mut Pending) -> bool
        requires { IsPendingOf family pending.old self.old }
        ensures pending { IsPendingOf family pending.new self.new }
        ensures lives { (held : EngineState) (e : Elem) → AreLives held (Some e) self.old
            → AreLives held (Some e) self.new }
        ensures made { result ≡ true → suc (stores_left (live_of family self.new))
            ≡ stores_left (live_of family self.old) }
        ensures none { result ≡ false → (stores_left (live_of family self.old) ≡ 0)
            × (self.new ≡ self.old) }
        ensures own { StoresNext result (live_of family self.old) (live_of family self.new) }
        ensures cells { KeepsAllReached 0 (live_of family self.old) (live_of family self.new) }
        ensures other { (f : Family) → same_family family f ≡ false
            → live_of f self.new ≡ live_of f self.old }
    {
        match family {
            Family::V4 => self.v4.store(pending),
            Family::V6 => self.v6.store(pending),
        }
    }

    /// A family's pending update is over.
    ///
    /// # Errors
    ///
    /// Stores are left: the token is returned, and nothing has changed.
    pub(crate) fn end(&mut self, family: Family, pending: Pending) -> Result<(), Pending>
        requires token { IsPendingOf family pending self.old }
        requires time { (live_of family self.old).selected.time < 18446744073709551615 }
        ensures left { IfErr result (λ p. (p ≡ pending) × (self.new ≡ self.old)
            × (0 < stores_left (live_of family self.old))) }
        ensures all { OnOk result (stores_left (live_of family self.old) ≡ 0) }
        ensures lives { OnOk result ((e : Elem) (old new : EngineState) → TakesElem e old new
            → AreLives old (Some e) self.old → AreLives new None self.new) }
        ensures own { OnOk result (GoesBy (live_of family self.old) (live_of family self.new)) }
        ensures retired { OnOk result (RetiresOther (live_of family self.old)
            (live_of family self.new)) }
        ensures cells { OnOk result (KeepsAllReached 0 (live_of family self.old)
            (live_of family self.new)) }
        ensures other { (f : Family) → same_family family f ≡ false
            → live_of f self.new ≡ live_of f self.old }
    {
        match family {
            Family::V4 => self.v4.end(pending),
            Family::V6 => self.v6.end(pending),
        }
    }

    /// A family's pending update is forgotten.
    ///
    /// # Errors
    ///
    /// A store was made: the token is returned, and nothing has changed.
    pub(crate) fn cancel(&mut self, family: Family, pending: Pending) -> Result<(), Pending>
        requires { IsPendingOf family pending self.old }
        ensures late { IfErr result (λ p. (p ≡ pending) × (self.new ≡ self.old)
            × (0 < made_of (live_of family self.old))) }
        ensures none { OnOk result (made_of (live_of family self.old) ≡ 0) }
        ensures undone { OnOk result (IsCancelled (live_of family self.old)
            (live_of family self.new)) }
        ensures lives { OnOk result ((held : EngineState) (e : Elem) → AreLives held (Some e) self.old
            → AreLives held None self.new) }
        ensures own { OnOk result (IsForgotten (live_of family self.old) (live_of family self.new)) }
        ensures cells { OnOk result (KeepsAllReached 0 (live_of family self.old)
            (live_of family self.new)) }
        ensures before { OnOk result ((b : Living) → IsReadyAfter b (live_of family self.old)
            → IsAsItWas b (live_of family self.new)) }
        ensures other { (f : Family) → same_family family f ≡ false
            → live_of f self.new ≡ live_of f self.old }
    {
        match family {
            Family::V4 => self.v4.cancel(pending),
            Family::V6 => self.v6.cancel(pending),
        }
    }
}
