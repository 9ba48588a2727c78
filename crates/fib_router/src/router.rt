//! The engine with its live tries.

ghost use Rattle.std.specs.Prelude.{◌≡◌, ◌<◌, ◌+◌, ◌^◌, ◌↔◌, ◌++◌, ◌⊎◌, suc, [], ◌∷◌, List, Some, None, length, map, true, false, IfOk, IfErr, OnOk, OnErr, IsErrOf};
ghost use Rattle.table_model.specs.Address.{Prefix as model_prefix, same_family};
ghost use Rattle.table_model.specs.Both.{aggregate_in_both};
ghost use Rattle.table_model.specs.declared.family.Family.{Family};
ghost use Rattle.table_model.specs.Entries.{Entries, match_in};
ghost use Rattle.cert_model.specs.Rows.{certificate_of};
ghost use Rattle.cert_model.specs.Views.{row_as};
ghost use Rattle.route_model.specs.Events.{Elem as model_elem};
ghost use Rattle.route_model.specs.Choice.{elems_of};
ghost use Rattle.kept_model.specs.Kept.{changed_at};
ghost use Rattle.moves_model.specs.Shortest.{AreShortest};
ghost use Rattle.fib_addr.specs.Views.{addr_as, entry_as};
ghost use Rattle.fib_prefix.specs.Views.{elem_as, event_as};
ghost use Rattle.fib_delta.specs.Views.{change_as};
ghost use Rattle.poptrie_build.specs.Tries.{visits_of};
ghost use Rattle.poptrie_update.specs.Cells.{KeepsAllReached};
ghost use Rattle.poptrie_update.specs.Lives.{Living, Shows, is_pending};
ghost use Rattle.poptrie_update.specs.Undone.{IsAsItWas, IsReadyAfter};
ghost use Rattle.route_tries.specs.Sizes.{AreFew, needs_of, shortage};
ghost use Rattle.route_tries.specs.declared.sizes.TrieFull.{TrieFull};
ghost use Rattle.fib_engine.specs.Held.{engine_routes};
ghost use Rattle.fib_engine.specs.Numbers.{brought_as, brought_by};
ghost use Rattle.fib_engine.specs.Stands.{IsShortFor, IsTooMany, EngineStands, TakesElem, changes_of, first_of, routes_after};
ghost use Rattle.fib_router.specs.Errors.{IsHeldUp, IsUnpinned};
ghost use Rattle.fib_router.specs.Lives.{AreNewLives, Finishes, GoesBy, IsAppliedTo, IsForgotten, IsPreparedBy, IsReadyFor, IsUnprepared, Readies, RetiresOther, StoresNext, live_of};
ghost use Rattle.fib_router.specs.Router.{IsBegunIn, IsPinnedFor, IsRestingFor, begun_elem, begun_hop, begun_update, stores_left_of, stores_made_in, published_to};

use crate::error::NotBegun;
use crate::lives::Lives;
use fib_addr::Steps;
use fib_engine::{Engine, EventChanges, FamilyNeeds, Planned, Staged};
use fib_prefix::{Addr, Elem, Entry, Event, Family, Hop, HopTable};
use ortc::Fresh;
use poptrie_build::Found;
use poptrie_update::{Live, Oldest, Pending};
use std::alloc::{AllocError, Global};
use std::marker::Model;
use std::sync::ledger::Ledger;

/// The token of an event that is begun, which `Router::end` or `Router::cancel` spends.
pub struct Begun {
    planned: Planned,
    // the update of its family's trie; none if it changes no chosen hop
    pending: Option<(Family, Pending)>,
}

impl Begun {
    ghost use Rattle.std.specs.Prelude.{◌≡◌};
    ghost use Rattle.fib_router.specs.Router.{begun_hop};

    /// The hop that the event's end will number, with its number; none if it brings no hop that has none yet.
    pub fn brings(&self) -> Option<(Hop, Addr)>
        ensures { result ≡ begun_hop self.now }
    {
        self.planned.brings()
    }
}

/// A loaded engine with a live trie of each family's routes. Contracts see what it holds, the event that is begun, and both tries.
#[derive(Drop)]
pub struct Router {
    lower: Staged,
    lives: Lives,
}

impl Model for Router {
    ghost use Rattle.fib_router.specs.Lives.{AreLives};
    ghost use Rattle.fib_router.specs.Router.{Routing};

    ghost Value = { Routing };

    ghost view = { λ r. record {
      held = r.lower.held;
      begun = r.lower.planned;
      lives = r.lives;
    } };

    ghost invariant = { λ r. AreLives r.lower.held r.lower.planned r.lives };
}

impl Router {
    /// The engine with live tries of its routes.
    ///
    /// # Errors
    ///
    /// Out of memory.
    pub fn new(alloc: Global, engine: Engine) -> Result<Router, AllocError>
        requires { engine.loaded ≡ true }
        ensures held { IfOk result (λ r. r.held ≡ engine) }
        ensures rest { IfOk result (λ r. r.begun ≡ None) }
        ensures lives { IfOk result (λ r. AreNewLives engine r.lives) }
    {
        let lower = engine.staged();
        let lives = Lives::new(alloc, &lower)?;
        Ok(Router { lower, lives })
    }

    /// Begins an elementary event, if none is begun, and takes all memory that it needs. Of its family's lookups that go on the
    /// oldest is given. Nothing is seen of it yet: candidates, hops and the kept table change at its end, and what a lookup reads
    /// as its words are stored. An event that changes no chosen hop touches no trie.
    ///
    /// # Errors
    ///
    /// `HopsFull` exactly if the event brings one different hop too many, else `TrieFull` exactly if tries of the routes
    /// after it need more than an arena has, of which it names the first, else `Pinned` exactly if its family's trie is to wait
    /// for the oldest lookup; or out of memory. But for what was given back in that trie, all is as it was.
    pub fn begin(&mut self, elem: &Elem, oldest: Oldest) -> Result<Begun, NotBegun>
        requires rest { self.old.begun ≡ None }
        requires few { self.old.held.events + 1 < 2 ^ 64 }
        ensures held { self.new.held ≡ self.old.held }
        ensures begun { IfOk result (λ b. IsBegunIn b self.new) }
        ensures elem { IfOk result (λ b. begun_elem b ≡ elem_as elem.now) }
        ensures made { IfOk result (λ b. stores_made_in b self.new ≡ 0) }
        ensures brings { IfOk result (λ b. brought_as (begun_hop b)
            ≡ brought_by self.old.held.hops (elem_as elem.now)) }
        ensures untouched { OnOk result (changed_at self.old.held.candidates (elem_as elem.now)
            ≡ None → self.new.lives ≡ self.old.lives) }
        ensures full { IsErrOf result NotBegun.HopsFull
            ↔ IsTooMany (elem_as elem.now) self.old.held }
        ensures fits { OnOk result (shortage self.old.held.sizes
            (routes_after (elem_as elem.now) self.old.held) ≡ None) }
        ensures short { (t : TrieFull) → IsErrOf result (NotBegun.TrieFull t)
            → IsShortFor self.old.held (routes_after (elem_as elem.now) self.old.held) t }
        ensures pinned { IfErr result (IsPinnedFor oldest (elem_as elem.now) self.old) }
        ensures rest { OnErr result (self.new.begun ≡ None) }
        ensures ready { OnOk result ((p : model_prefix)
            → changed_at self.old.held.candidates (elem_as elem.now) ≡ Some p
            → IsReadyFor (engine_routes self.old.held)
            (routes_after (elem_as elem.now) self.old.held) (live_of p.family self.new.lives)) }
        ensures readies { (f : Family) → Readies oldest (live_of f self.old.lives)
            (live_of f self.new.lives) }
        ensures other { (f : Family) → ((p : model_prefix)
            → changed_at self.old.held.candidates (elem_as elem.now) ≡ Some p
            → same_family p.family f ≡ false)
            → live_of f self.new.lives ≡ live_of f self.old.lives }
        ensures kept { OnErr result ((f : Family) (L M : Entries)
            → Shows (live_of f self.old.lives) L M → Shows (live_of f self.new.lives) L M) }
        ensures quiet { OnErr result ((f : Family)
            → is_pending (live_of f self.new.lives) ≡ false) }
        ensures resting { IfErr result (IsRestingFor (elem_as elem.now) self.old) }
        ensures idle { OnOk result ((f : Family) → ((p : model_prefix)
            → changed_at self.old.held.candidates (elem_as elem.now) ≡ Some p
            → same_family p.family f ≡ false)
            → is_pending (live_of f self.new.lives) ≡ false) }
        ensures prepared { IfOk result (λ b. (p : model_prefix)
            → changed_at self.old.held.candidates (elem_as elem.now) ≡ Some p
            → IsPreparedBy oldest p.family (begun_update b) (live_of p.family self.old.lives)
            (live_of p.family self.new.lives) (engine_routes self.old.held)
            (routes_after (elem_as elem.now) self.old.held)) }
        ensures unprepared { OnErr result ((f : Family)
            → (live_of f self.new.lives ≡ live_of f self.old.lives)
            ⊎ IsUnprepared oldest (live_of f self.old.lives) (live_of f self.new.lives)) }
    {
        let planned = self.lower.plan(elem)?;
        let Some((prefix, _hop)) = planned.route() else {
            return Ok(Begun {
                planned,
                pending: None,
            });
        };
        match self.lives.prepare(&self.lower, &prefix, oldest) {
            Ok(pending) => Ok(Begun {
                planned,
                pending: Some((prefix.family, pending)),
            }),
            Err(why) => {
                self.lower.undo(planned);
                Err(why)
            }
        }
    }

    /// Makes the next store of the event that is begun; false if none is left.
    pub fn store(&mut self, begun: &mut Begun) -> bool
        requires { IsBegunIn begun.old self.old }
        ensures begun { IsBegunIn begun.new self.new }
        ensures elem { begun_elem begun.new ≡ begun_elem begun.old }
        ensures brings { begun_hop begun.new ≡ begun_hop begun.old }
        ensures held { self.new.held ≡ self.old.held }
        ensures made { result ≡ true
            → suc (stores_left_of begun.new self.new) ≡ stores_left_of begun.old self.old }
        ensures none { result ≡ false → (stores_left_of begun.new self.new ≡ 0)
            × (self.new ≡ self.old) }
        ensures own { (f : Family) → is_pending (live_of f self.old.lives) ≡ true
            → StoresNext result (live_of f self.old.lives) (live_of f self.new.lives) }
        ensures cells { (f : Family) → KeepsAllReached 0 (live_of f self.old.lives)
            (live_of f self.new.lives) }
        ensures other { (f : Family) → is_pending (live_of f self.old.lives) ≡ false
            → live_of f self.new.lives ≡ live_of f self.old.lives }
    {
        match &mut begun.pending {
            Some((family, pending)) => self.lives.store(*family, pending),
            None => false,
        }
    }

    /// The event that is begun is over: it is counted, and returns its changes, as `Engine::apply` does.
    ///
    /// # Errors
    ///
    /// Stores are left: the token is returned, and nothing has changed.
    pub fn end(&mut self, begun: Begun) -> Result<EventChanges, Begun>
        requires { IsBegunIn begun self.old }
        ensures left { IfErr result (λ b. (b ≡ begun) × (self.new ≡ self.old)
            × (0 < stores_left_of begun self.old)) }
        ensures all { OnOk result (stores_left_of begun self.old ≡ 0) }
        ensures rest { OnOk result (self.new.begun ≡ None) }
        ensures takes { OnOk result (TakesElem (begun_elem begun) self.old.held self.new.held) }
        ensures changes { IfOk result (λ e. map change_as e.changes.items
            ≡ changes_of (begun_elem begun) self.old.held) }
        ensures first { IfOk result (λ e. e.first
            ≡ length (first_of (begun_elem begun) self.old.held)) }
        ensures shortest { OnOk result (self.old.held.fewest ≡ true → (p : model_prefix)
            → changed_at self.old.held.candidates (begun_elem begun) ≡ Some p
            → AreShortest p.family (routes_after (begun_elem begun) self.old.held)
            self.old.held.table (first_of (begun_elem begun) self.old.held)) }
        ensures stands { OnOk result ((load elems : List model_elem)
            → EngineStands load elems self.old.held
            → EngineStands load (elems ++ begun_elem begun ∷ []) self.new.held) }
        ensures fits { OnOk result (shortage self.new.held.sizes (engine_routes self.new.held) ≡ None) }
        ensures own { OnOk result ((f : Family) → is_pending (live_of f self.old.lives) ≡ true
            → GoesBy (live_of f self.old.lives) (live_of f self.new.lives)) }
        ensures retired { OnOk result ((f : Family) → is_pending (live_of f self.old.lives) ≡ true
            → RetiresOther (live_of f self.old.lives) (live_of f self.new.lives)) }
        ensures cells { OnOk result ((f : Family) → KeepsAllReached 0 (live_of f self.old.lives)
            (live_of f self.new.lives)) }
        ensures other { OnOk result ((f : Family) → is_pending (live_of f self.old.lives) ≡ false
            → live_of f self.new.lives ≡ live_of f self.old.lives) }
    {
        let Begun { planned, pending } = begun;
        let Some((family, pending)) = pending else {
            return Ok(self.lower.commit(planned));
        };
        match self.lives.end(family, pending) {
            Ok(()) => Ok(self.lower.commit(planned)),
            Err(pending) => Err(Begun {
                planned,
                pending: Some((family, pending)),
            }),
        }
    }

    /// Makes the stores that are left of the event that is begun, and ends it.
    pub fn finish(&mut self, begun: Begun) -> EventChanges
        requires { IsBegunIn begun self.old }
        ensures rest { self.new.begun ≡ None }
        ensures takes { TakesElem (begun_elem begun) self.old.held self.new.held }
        ensures changes { map change_as result.changes.items
            ≡ changes_of (begun_elem begun) self.old.held }
        ensures first { result.first ≡ length (first_of (begun_elem begun) self.old.held) }
        ensures shortest { self.old.held.fewest ≡ true → (p : model_prefix)
            → changed_at self.old.held.candidates (begun_elem begun) ≡ Some p
            → AreShortest p.family (routes_after (begun_elem begun) self.old.held)
            self.old.held.table (first_of (begun_elem begun) self.old.held) }
        ensures stands { (load elems : List model_elem) → EngineStands load elems self.old.held
            → EngineStands load (elems ++ begun_elem begun ∷ []) self.new.held }
        ensures fits { shortage self.new.held.sizes (engine_routes self.new.held) ≡ None }
        ensures own { (f : Family) → is_pending (live_of f self.old.lives) ≡ true
            → Finishes (live_of f self.old.lives) (live_of f self.new.lives) }
        ensures other { (f : Family) → is_pending (live_of f self.old.lives) ≡ false
            → live_of f self.new.lives ≡ live_of f self.old.lives }
    {
        let mut begun = begun;
        while self.store(&mut begun) {}
        match self.end(begun) {
            Ok(changes) => changes,
            Err(_begun) => unreachable!(),
        }
    }

    /// Takes an elementary event at once, if no lookup goes on: begins it, makes its stores and ends it.
    ///
    /// # Errors
    ///
    /// As `begin`'s, but never `Pinned`.
    pub fn apply(&mut self, elem: &Elem) -> Result<EventChanges, NotBegun>
        requires rest { self.old.begun ≡ None }
        requires few { self.old.held.events + 1 < 2 ^ 64 }
        ensures rest { self.new.begun ≡ None }
        ensures takes { OnOk result (TakesElem (elem_as elem.now) self.old.held self.new.held) }
        ensures changes { IfOk result (λ e. map change_as e.changes.items
            ≡ changes_of (elem_as elem.now) self.old.held) }
        ensures first { IfOk result (λ e. e.first
            ≡ length (first_of (elem_as elem.now) self.old.held)) }
        ensures shortest { OnOk result (self.old.held.fewest ≡ true → (p : model_prefix)
            → changed_at self.old.held.candidates (elem_as elem.now) ≡ Some p
            → AreShortest p.family (routes_after (elem_as elem.now) self.old.held)
            self.old.held.table (first_of (elem_as elem.now) self.old.held)) }
        ensures stands { OnOk result ((load elems : List model_elem)
            → EngineStands load elems self.old.held
            → EngineStands load (elems ++ elem_as elem.now ∷ []) self.new.held) }
        ensures full { IsErrOf result NotBegun.HopsFull
            ↔ IsTooMany (elem_as elem.now) self.old.held }
        ensures fits { OnOk result (shortage self.new.held.sizes
            (engine_routes self.new.held) ≡ None) }
        ensures short { (t : TrieFull) → IsErrOf result (NotBegun.TrieFull t)
            → IsShortFor self.old.held (routes_after (elem_as elem.now) self.old.held) t }
        ensures unpinned { IfErr result IsUnpinned }
        ensures err { OnErr result (self.new.held ≡ self.old.held) }
        ensures own { OnOk result ((p : model_prefix)
            → changed_at self.old.held.candidates (elem_as elem.now) ≡ Some p
            → IsAppliedTo (engine_routes self.old.held) (live_of p.family self.old.lives)
            (live_of p.family self.new.lives)) }
        ensures other { OnOk result ((f : Family) → ((p : model_prefix)
            → changed_at self.old.held.candidates (elem_as elem.now) ≡ Some p
            → same_family p.family f ≡ false)
            → live_of f self.new.lives ≡ live_of f self.old.lives) }
    {
        let begun = self.begin(elem, Oldest::Nobody)?;
        Ok(self.finish(begun))
    }

    /// The event that is begun is forgotten: but for what its begin gave back, all is as before it.
    ///
    /// # Errors
    ///
    /// A store was made: the token is returned, and nothing has changed.
    pub fn cancel(&mut self, begun: Begun) -> Result<(), Begun>
        requires { IsBegunIn begun self.old }
        ensures late { IfErr result (λ b. (b ≡ begun) × (self.new ≡ self.old)
            × (0 < stores_made_in begun self.old)) }
        ensures none { OnOk result (stores_made_in begun self.old ≡ 0) }
        ensures rest { OnOk result (self.new.begun ≡ None) }
        ensures held { OnOk result (self.new.held ≡ self.old.held) }
        ensures own { OnOk result ((f : Family) → is_pending (live_of f self.old.lives) ≡ true
            → IsForgotten (live_of f self.old.lives) (live_of f self.new.lives)) }
        ensures cells { OnOk result ((f : Family) → KeepsAllReached 0 (live_of f self.old.lives)
            (live_of f self.new.lives)) }
        ensures before { OnOk result ((f : Family) → is_pending (live_of f self.old.lives) ≡ true
            → (b : Living) → IsReadyAfter b (live_of f self.old.lives)
            → IsAsItWas b (live_of f self.new.lives)) }
        ensures other { OnOk result ((f : Family) → is_pending (live_of f self.old.lives) ≡ false
            → live_of f self.new.lives ≡ live_of f self.old.lives) }
    {
        let Begun { planned, pending } = begun;
        let Some((family, pending)) = pending else {
            self.lower.undo(planned);
            return Ok(());
        };
        match self.lives.cancel(family, pending) {
            Ok(()) => {
                self.lower.undo(planned);
                Ok(())
            }
            Err(pending) => Err(Begun {
                planned,
                pending: Some((family, pending)),
            }),
        }
    }

    /// The answer that is published to an address, with a step for each node that is visited.
    pub fn lookup<L: Ledger>(&self, addr: &Addr, steps: &mut Steps<L>) -> Found
        ensures hop { result.hop.0 ≡ match_in (published_to self.now addr.now) (addr_as addr.now) }
        ensures rest { self.now.begun ≡ None
            → result.hop.0 ≡ match_in (engine_routes self.now.held) (addr_as addr.now) }
        ensures visits { result.visits ≡ visits_of self.now.held.sizes.direct
            (published_to self.now addr.now) (addr_as addr.now) }
        ensures steps { steps.new ≡ steps.old + result.visits }
    {
        self.lives.of(addr.family).lookup(addr, steps)
    }

    /// A family's live trie, in which lookups pause between their reads.
    pub fn live(&self, family: Family) -> &Live
        ensures { result.now ≡ live_of family self.now.lives }
    {
        self.lives.of(family)
    }

    /// The hops with their numbers.
    pub fn hops(&self) -> &HopTable
        ensures { result.now.list ≡ self.now.held.hops }
    {
        self.lower.hops()
    }

    /// How many changes the last event that ended needed before its snapshot; `None` exactly if it changed no chosen hop, or there
    /// was no event yet.
    pub fn last_moves(&self) -> Option<u64>
        ensures { result ≡ self.now.held.moves }
    {
        self.lower.last_moves()
    }

    /// The event as elementary events, as `Engine::elementary` returns it.
    ///
    /// # Errors
    ///
    /// Out of memory.
    pub fn elementary(&self, event: &Event) -> Result<Vec<Elem>, AllocError>
        ensures { IfOk result (λ elems. map elem_as elems.items
            ≡ elems_of self.now.held.candidates (event_as event.now)) }
    {
        self.lower.elementary(event)
    }

    /// The routes, in the order of prefixes: those before the event that is begun, if one is.
    ///
    /// # Errors
    ///
    /// Out of memory.
    pub fn routes(&self) -> Result<Vec<Entry>, AllocError>
        ensures { IfOk result (λ v. map entry_as v.items ≡ engine_routes self.now.held) }
    {
        self.lower.routes()
    }

    /// The kept table, in the order of prefixes: the one before the event that is begun, if one is.
    ///
    /// # Errors
    ///
    /// Out of memory.
    pub fn table(&self) -> Result<Vec<Entry>, AllocError>
        ensures { IfOk result (λ v. map entry_as v.items ≡ self.now.held.table) }
    {
        self.lower.table()
    }

    /// The least table of the routes, with the kept one as the old table, and the rows that prove it least; IPv4 first.
    ///
    /// # Errors
    ///
    /// Out of memory.
    pub fn least(&self) -> Result<Fresh, AllocError>
        requires { self.now.begun ≡ None }
        ensures table { IfOk result (λ v. map entry_as v.table.items
            ≡ aggregate_in_both (engine_routes self.now.held) self.now.held.table) }
        ensures proof { IfOk result (λ v. map row_as v.proof.items
            ≡ certificate_of (engine_routes self.now.held)) }
    {
        self.lower.least()
    }

    /// How many places the nodes and the leaves of tries of the routes need, each at most what its arena has.
    pub fn needs(&self) -> FamilyNeeds
        ensures needs { result ≡ needs_of self.now.held.sizes.direct (engine_routes self.now.held) }
        ensures few { AreFew result }
    {
        self.lower.needs()
    }
}
