//! The router's events, and lookups beside them.

ghost use Rattle.std.specs.Prelude.{◌≡◌, ◌<◌, ◌+◌, ◌^◌, IfOk, None};
ghost use Rattle.route_model.specs.Events.{elem_prefix};
ghost use Rattle.fib_prefix.specs.Views.{elem_as};
ghost use Rattle.fib_router.specs.Router.{IsBegunIn};
ghost use Rattle.router_example.specs.Beside.{GoOnBeside, IsBetweenEvents, IsTrieOf};
ghost use Rattle.table_model.specs.declared.family.Family.TheVariants.{V4, V6};

use crate::lookups::Lookups;
use fib_addr::Steps;
use fib_delta::Change;
use fib_prefix::{Addr, Elem, Event, Family, Hop, HopTable};
use fib_router::{Begun, Router};
use std::alloc::{AllocError, Global};
use std::marker::Brand;
use std::sync::ledger::{Blank, Ledger};

/// A router, with the lookups that go on beside its events.
#[derive(Drop)]
pub struct Session {
    router: Router,
    lookups: Lookups,
    // how many events were taken
    taken: u64,
}

/// What came of an event.
#[derive(Drop)]
pub struct Taken {
    /// The changes for the hardware, in the order of prefixes.
    pub changes: Vec<Change>,
    /// The hop that a lookup found that was begun before the stores.
    pub before: Hop,
    /// The hop that a lookup found after them.
    pub after: Hop,
}

/// The hop that an address's packets are sent to now, with a step counted for each node that is visited.
fn find<L: Ledger>(router: &Router, addr: &Addr, blank: Blank) -> Hop
    requires name { blank.name ≡ L.name }
    requires parts { blank.parts ≡ L.parts }
    requires one { blank.parts ≡ 1 }
{
    let mut steps = Steps::<L>::start(blank);
    router.lookup(addr, &mut steps).hop
}

/// The family of an event's prefix.
fn family_of(elem: &Elem) -> Family
    ensures { result ≡ (elem_prefix (elem_as elem.now)).family }
{
    match elem {
        Elem::Put(_via, prefix, _path, _hop) => prefix.family,
        Elem::Cut(_via, prefix) => prefix.family,
    }
}

impl Session {
    /// No lookup is open, and no event was taken.
    ///
    /// # Errors
    ///
    /// Out of memory.
    pub fn new(alloc: Global, router: Router) -> Result<Session, AllocError>
        requires rest { router.begun ≡ None }
        requires none { router.held.events ≡ 0 }
        requires tries { IsTrieOf V4 router.lives.v4 × IsTrieOf V6 router.lives.v6 }
        ensures { IfOk result IsBetweenEvents }
    {
        let lookups = Lookups::new(alloc)?;
        Ok(Session {
            router,
            lookups,
            taken: 0,
        })
    }

    /// The hops with their numbers.
    pub fn hops(&self) -> &HopTable {
        self.router.hops()
    }

    /// An event as elementary events, of which one at a time is begun.
    ///
    /// # Errors
    ///
    /// Out of memory.
    pub fn elementary(&self, event: &Event) -> Result<Vec<Elem>, AllocError> {
        self.router.elementary(event)
    }

    /// The hop that an address's packets are sent to now.
    pub fn look_up(&self, addr: &Addr) -> Hop {
        find::<Brand>(&self.router, addr, Blank::new(1))
    }

    /// Takes an event. A lookup of the address begins before it and has its answer after its stores; another one follows the stores.
    ///
    /// # Errors
    ///
    /// The event isn't begun: it brings one different hop too many, its tries need more than there is, or they don't fit beside what the
    /// lookup holds; or out of memory. Then the router is as it was.
    pub fn take(&mut self, elem: &Elem, addr: &Addr) -> anyhow::Result<Taken>
        requires { IsBetweenEvents self.old }
        ensures { IsBetweenEvents self.new }
    {
        if self.taken >= u64::MAX - 1 {
            anyhow::bail!("too many events");
        }
        let lookup = self.lookups.begin(&self.router, addr)?;
        // all memory is taken here, and packets go where they went
        let oldest = self.lookups.oldest(family_of(elem));
        let begun = self.router.begin(elem, oldest)?;
        let (changes, after) = self.carry_out(begun, addr);
        let before = self.lookups.finish(&self.router, addr.family, lookup)?;
        Ok(Taken {
            changes,
            before,
            after,
        })
    }

    /// Makes the stores of the event that is begun, looks the address up, and ends the event. None of it can fail.
    fn carry_out(&mut self, mut begun: Begun, addr: &Addr) -> (Vec<Change>, Hop)
        requires begun { IsBegunIn begun self.old.router }
        requires counted { self.old.router.held.events ≡ self.old.taken }
        requires few { self.old.taken + 1 < 2 ^ 64 }
        requires beside { GoOnBeside self.old.router self.old.lookups }
        ensures { IsBetweenEvents self.new }
    {
        // from a store on the addresses of its slot go where the new routes send them
        while self.router.store(&mut begun) {}
        let after = self.look_up(addr);
        match self.router.end(begun) {
            Ok(told) => {
                self.taken += 1;
                (told.changes, after)
            }
            Err(_begun) => unreachable!(),
        }
    }
}
