//! A router's events: refused, cancelled, or taken beside lookups.

ghost use Rattle.std.specs.Prelude.{◌≡◌, ◌+◌, ◌<◌, ◌≤◌, ◌^◌, None, true, false, IfOk, OnOk};
ghost use Rattle.fib_router.specs.Router.{IsBegunIn, begun_elem, stores_left_of};

use crate::engine::{elem, load, peer};
use crate::keep::{LOWER, Net, UPPER, WHOLE};
use fib_addr::Steps;
use fib_engine::{Engine, EngineError, Limits, Sizes};
use fib_prefix::{Addr, Elem, Event, Hop};
use fib_router::{Begun, NotBegun, Oldest, Router, TrieFull};
use std::alloc::Global;
use std::marker::Brand;
use std::sync::ledger::{Blank, Ledger};

/// What an event comes to that is taken: the hops that an address of its prefix is sent to before its stores and after them, how many
/// stores it has, and how many changes it makes.
type Taken = ((u16, u16), u64, usize);

/// A call on a router of which no event is begun, and what it is to come to. An event brings a route of the one peer, or ends it.
#[derive(Clone, Copy)]
enum Call {
    /// An event is begun, stored and ended; the oldest lookup that goes on started after so many ends, if one does.
    Take(Net, Option<u16>, Option<u64>, Taken),
    /// An event is taken at once, with so many changes.
    Apply(Net, Option<u16>, usize),
    /// An event is begun and cancelled.
    Cancel(Net, Option<u16>),
    /// An event's end is refused before its stores, and its cancel after the first one; then it is finished.
    Finish(Net, Option<u16>),
    /// An event is refused: it brings one hop too many.
    HopsFull(Net, Option<u16>),
    /// An event is refused: it needs so many nodes, and there is one.
    TrieFull(Net, Option<u16>, u64),
    /// An event is refused: a lookup that started after so many ends holds the node that it needs.
    Pinned(Net, Option<u16>, u64),
    /// An address is sent to this hop.
    Find(u32, u16),
}

/// Routes of the one peer.
#[derive(Clone, Copy)]
enum Routes {
    These(&'static [(Net, u16)]),
    /// So many of the first prefixes of 24 bits, each by a hop of its own.
    Crowd(u16),
}

/// Calls on a router that has loaded routes, with so many direct bits, and arenas of these orders. The numbers of the hops are those of
/// their addresses, in the order of their first use.
struct Case {
    sizes: (u8, u8, u8),
    routes: Routes,
    calls: &'static [Call],
}

const ONE: Routes = Routes::These(&[(WHOLE, 1)]);

const EIGHT: Net = (0, 8);

const OTHER_EIGHT: Net = (0x8000_0000, 8);

const LOW: u32 = 5;

const HIGH: u32 = 0x8000_0000;

/// How many different hops have numbers.
const MOST: u16 = 65_534;

/// With four direct bits a half of the addresses has eight direct words, and 0.0.0.0/0 sixteen; a prefix of eight bits has one, whose node
/// needs a place, and one of 32 bits a node at each of the lengths 4, 10, 16, 22 and 28. A set of one node and two leaves has room for one
/// prefix of eight bits, so that the update to another hop is of the selector.
const CASES: [(&str, Case); 7] = [
    (
        "an event is taken, cancelled, applied and finished",
        Case {
            sizes: (4, 4, 6),
            routes: ONE,
            calls: &[
                Call::Find(LOW, 1),
                Call::Take(LOWER, Some(2), None, ((1, 2), 8, 1)),
                Call::Cancel(LOWER, Some(3)),
                Call::Find(LOW, 2),
                Call::Find(HIGH, 1),
                Call::Apply(LOWER, Some(3), 1),
                Call::Find(LOW, 3),
                Call::Finish(LOWER, Some(2)),
                Call::Find(LOW, 2),
                Call::Find(HIGH, 1),
            ],
        },
    ),
    (
        "an event that changes no chosen hop",
        Case {
            sizes: (4, 4, 6),
            routes: ONE,
            calls: &[
                Call::Take(WHOLE, Some(1), None, ((1, 1), 0, 0)),
                Call::Cancel(UPPER, None),
                Call::Apply(UPPER, None, 0),
            ],
        },
    ),
    (
        "0.0.0.0/0 gets another hop, ends and comes again",
        Case {
            sizes: (4, 4, 6),
            routes: ONE,
            calls: &[
                Call::Take(WHOLE, Some(2), None, ((1, 2), 16, 1)),
                Call::Take(WHOLE, None, None, ((2, 0), 16, 1)),
                Call::Find(HIGH, 0),
                Call::Take(WHOLE, Some(1), None, ((0, 1), 16, 1)),
                Call::Find(HIGH, 1),
            ],
        },
    ),
    (
        "no number for one hop more, and the same route by a hop that has one",
        Case {
            sizes: (16, 16, 18),
            routes: Routes::Crowd(MOST),
            calls: &[
                Call::HopsFull((0, 24), Some(MOST + 1)),
                Call::Find(LOW, 1),
                Call::Take((0, 24), Some(MOST), None, ((1, MOST), 1, 1)),
                Call::HopsFull((0, 24), Some(MOST + 1)),
            ],
        },
    ),
    (
        "no room for a second node until the first is gone, nor for five",
        Case {
            sizes: (4, 0, 2),
            routes: ONE,
            calls: &[
                Call::Take(EIGHT, Some(2), None, ((1, 2), 1, 1)),
                Call::TrieFull(OTHER_EIGHT, Some(2), 2),
                Call::Find(HIGH, 1),
                Call::Take(EIGHT, None, None, ((2, 1), 1, 1)),
                Call::TrieFull((0, 32), Some(2), 5),
                Call::Take(OTHER_EIGHT, Some(2), None, ((1, 2), 1, 1)),
                Call::Find(HIGH, 2),
                Call::Find(LOW, 1),
            ],
        },
    ),
    (
        "an event waits for a lookup",
        Case {
            sizes: (4, 0, 1),
            routes: ONE,
            calls: &[
                Call::Take(EIGHT, Some(2), None, ((1, 2), 1, 1)),
                Call::Take(EIGHT, Some(3), None, ((2, 3), 1, 1)),
                Call::Pinned(EIGHT, Some(2), 1),
                Call::Find(LOW, 3),
                Call::Take(EIGHT, Some(2), None, ((3, 2), 1, 1)),
                Call::Find(LOW, 2),
            ],
        },
    ),
    (
        "selectors, one after another beside lookups that start between them",
        Case {
            sizes: (4, 0, 1),
            routes: ONE,
            calls: &[
                Call::Take(EIGHT, Some(2), None, ((1, 2), 1, 1)),
                Call::Take(EIGHT, Some(3), Some(0), ((2, 3), 1, 1)),
                Call::Take(EIGHT, Some(2), Some(2), ((3, 2), 1, 1)),
                Call::Pinned(EIGHT, Some(3), 2),
                Call::Take(EIGHT, Some(3), Some(3), ((2, 3), 1, 1)),
                Call::Take(EIGHT, Some(2), Some(4), ((3, 2), 1, 1)),
                Call::Find(LOW, 2),
            ],
        },
    ),
];

/// The lookup that started after so many ends is the oldest, if there is one.
fn oldest_since(since: Option<u64>) -> Oldest {
    match since {
        Some(since) => Oldest::Started { cursor: 5, since },
        None => Oldest::Nobody,
    }
}

fn counted<L: Ledger>(router: &Router, addr: &Addr, blank: Blank) -> Hop
    requires name { blank.name ≡ L.name }
    requires parts { blank.parts ≡ L.parts }
    requires one { blank.parts ≡ 1 }
{
    let mut steps = Steps::<L>::start(blank);
    router.lookup(addr, &mut steps).hop
}

/// The number of the hop that an address is sent to.
fn find(router: &Router, addr: u32) -> u16 {
    counted::<Brand>(router, &Addr::v4(addr), Blank::new(1)).0
}

/// Makes all stores of the event that is begun, and counts them.
fn store_all(router: &mut Router, begun: &mut Begun) -> u64
    requires { IsBegunIn begun.old router.old }
    ensures begun { IsBegunIn begun.new router.new }
    ensures elem { begun_elem begun.new ≡ begun_elem begun.old }
    ensures held { router.new.held ≡ router.old.held }
    ensures none { stores_left_of begun.new router.new ≡ 0 }
{
    let mut stores: u64 = 0;
    while router.store(begun) {
        stores = stores.saturating_add(1);
    }
    stores
}

/// Takes an event beside this oldest lookup.
fn take(router: &mut Router, event: &Elem, addr: u32, oldest: Oldest) -> Result<Taken, NotBegun>
    requires rest { router.old.begun ≡ None }
    requires few { router.old.held.events + 1 < 2 ^ 64 }
    ensures rest { router.new.begun ≡ None }
    ensures events { router.new.held.events ≤ router.old.held.events + 1 }
{
    let mut begun = router.begin(event, oldest)?;
    let before = find(router, addr);
    let stores = store_all(router, &mut begun);
    let after = find(router, addr);
    match router.end(begun) {
        Ok(told) => Ok(((before, after), stores, told.changes.len())),
        Err(_begun) => unreachable!(),
    }
}

/// Begins an event and cancels it; whether it is begun.
fn cancel(router: &mut Router, event: &Elem) -> bool
    requires rest { router.old.begun ≡ None }
    requires few { router.old.held.events + 1 < 2 ^ 64 }
    ensures rest { router.new.begun ≡ None }
    ensures events { router.new.held.events ≤ router.old.held.events + 1 }
{
    match router.begin(event, Oldest::Nobody) {
        Err(_why) => false,
        Ok(begun) => match router.cancel(begun) {
            Ok(()) => true,
            Err(_begun) => unreachable!(),
        },
    }
}

/// Makes the first store of an event, and finishes it; whether its cancel is refused between them.
fn finish(router: &mut Router, mut begun: Begun) -> bool
    requires begun { IsBegunIn begun router.old }
    requires few { router.old.held.events + 1 < 2 ^ 64 }
    ensures rest { router.new.begun ≡ None }
    ensures events { router.new.held.events ≤ router.old.held.events + 1 }
{
    router.store(&mut begun);
    match router.cancel(begun) {
        Ok(()) => false,
        Err(begun) => {
            router.finish(begun);
            true
        }
    }
}

/// Ends an event before its stores, and then finishes it; whether its end is refused, and its cancel after the first store.
fn hurry(router: &mut Router, event: &Elem) -> bool
    requires rest { router.old.begun ≡ None }
    requires few { router.old.held.events + 1 < 2 ^ 64 }
    ensures rest { router.new.begun ≡ None }
    ensures events { router.new.held.events ≤ router.old.held.events + 1 }
{
    match router.begin(event, Oldest::Nobody) {
        Err(_why) => false,
        Ok(begun) => match router.end(begun) {
            Ok(_told) => false,
            Err(begun) => finish(router, begun),
        },
    }
}

/// Takes an event at once; how many changes it makes, if it is taken.
fn apply(router: &mut Router, event: &Elem) -> Option<usize>
    requires rest { router.old.begun ≡ None }
    requires few { router.old.held.events + 1 < 2 ^ 64 }
    ensures rest { router.new.begun ≡ None }
    ensures events { router.new.held.events ≤ router.old.held.events + 1 }
{
    match router.apply(event) {
        Ok(told) => Some(told.changes.len()),
        Err(_why) => None,
    }
}

/// Whether an event is refused for this cause, beside a lookup that started after so many ends.
fn is_refused(router: &mut Router, event: &Elem, since: Option<u64>, due: NotBegun) -> bool
    requires rest { router.old.begun ≡ None }
    requires few { router.old.held.events + 1 < 2 ^ 64 }
    ensures rest { router.new.begun ≡ None }
    ensures events { router.new.held.events ≤ router.old.held.events + 1 }
{
    take(router, event, 0, oldest_since(since)) == Err(due)
}

/// What is said of an event that needs so many nodes, where there is one.
fn nodes_full(need: u64) -> NotBegun {
    NotBegun::TrieFull(TrieFull {
        need,
        have: 1,
        arena: 0,
    })
}

/// What is said of an event whose node a lookup holds.
fn pinned() -> NotBegun {
    NotBegun::Pinned {
        need: 1,
        cursor: 5,
        arena: 0,
        largest: None,
    }
}

/// Makes the call, and returns whether it comes to what is due.
fn is_right(router: &mut Router, call: &Call) -> bool
    requires rest { router.old.begun ≡ None }
    requires few { router.old.held.events + 1 < 2 ^ 64 }
    ensures rest { router.new.begun ≡ None }
    ensures events { router.new.held.events ≤ router.old.held.events + 1 }
{
    match *call {
        Call::Take(net, hop, since, due) => {
            take(router, &elem(net, hop), net.0, oldest_since(since)) == Ok(due)
        }
        Call::Apply(net, hop, due) => apply(router, &elem(net, hop)) == Some(due),
        Call::Cancel(net, hop) => cancel(router, &elem(net, hop)),
        Call::Finish(net, hop) => hurry(router, &elem(net, hop)),
        Call::HopsFull(net, hop) => {
            is_refused(router, &elem(net, hop), None, NotBegun::HopsFull)
        }
        Call::TrieFull(net, hop, need) => {
            is_refused(router, &elem(net, hop), None, nodes_full(need))
        }
        Call::Pinned(net, hop, since) => {
            is_refused(router, &elem(net, hop), Some(since), pinned())
        }
        Call::Find(addr, hop) => find(router, addr) == hop,
    }
}

/// The place of the first call that doesn't come to what is due, if there is one.
fn first_wrong(router: &mut Router, calls: &[Call]) -> Option<usize>
    requires rest { router.old.begun ≡ None }
    requires none { router.old.held.events ≡ 0 }
{
    for (place, call) in calls.iter().enumerate() {
        if !is_right(router, call) {
            return Some(place);
        }
    }
    None
}

/// Loads so many of the first prefixes of 24 bits, each by a hop of its own.
fn load_crowd(engine: &mut Engine, count: u16) -> Result<(), EngineError>
    requires loading { engine.old.loaded ≡ false }
    requires none { engine.old.events ≡ 0 }
    ensures loading { OnOk result (engine.new.loaded ≡ false) }
    ensures none { OnOk result (engine.new.events ≡ 0) }
{
    for number in 0..count {
        engine.load(&elem((u32::from(number) << 8, 24), Some(number + 1)))?;
    }
    Ok(())
}

/// Loads routes.
fn load_routes(engine: &mut Engine, routes: &Routes) -> Result<(), EngineError>
    requires loading { engine.old.loaded ≡ false }
    requires none { engine.old.events ≡ 0 }
    ensures loading { OnOk result (engine.new.loaded ≡ false) }
    ensures none { OnOk result (engine.new.events ≡ 0) }
{
    match routes {
        Routes::These(routes) => load(engine, routes)?,
        Routes::Crowd(count) => load_crowd(engine, *count)?,
    }
    Ok(())
}

/// An engine of these sizes that has loaded routes.
fn loaded_engine(alloc: Global, sizes: (u8, u8, u8), routes: &Routes) -> Result<Engine, EngineError>
    ensures loaded { IfOk result (λ e. e.loaded ≡ true) }
    ensures none { IfOk result (λ e. e.events ≡ 0) }
{
    let (direct, nodes, leaves) = sizes;
    let sizes = Sizes {
        direct: direct.min(18),
        nodes: nodes.min(24),
        leaves: leaves.min(26),
    };
    let mut engine = Engine::new(
        alloc,
        Limits {
            every: 0,
            fewest: false,
            sizes,
        },
    );
    load_routes(&mut engine, routes)?;
    engine.finish_load()?;
    Ok(engine)
}

/// A router of these sizes that has loaded routes.
fn loaded(alloc: Global, sizes: (u8, u8, u8), routes: &Routes) -> Result<Router, EngineError>
    ensures rest { IfOk result (λ r. r.begun ≡ None) }
    ensures none { IfOk result (λ r. r.held.events ≡ 0) }
{
    let engine = loaded_engine(alloc, sizes, routes)?;
    let router = Router::new(alloc, engine)?;
    Ok(router)
}

/// The place of the first call of a case that doesn't come to what is due, if there is one.
fn wrong_call(alloc: Global, case: &Case) -> Result<Option<usize>, EngineError> {
    let mut router = loaded(alloc, case.sizes, &case.routes)?;
    let wrong = first_wrong(&mut router, case.calls);
    drop(router);
    Ok(wrong)
}

#[test]
fn events_go_beside_lookups(rt: HostRuntime) -> Result<(), EngineError> {
    for (name, case) in &CASES {
        assert_eq!(rt; wrong_call(rt.alloc(), case)?, None, "{name}");
    }
    Ok(())
}

/// Takes the elementary events of an event at once, and returns how many there are.
fn take_event(router: &mut Router, event: &Event) -> Result<usize, NotBegun>
    requires rest { router.old.begun ≡ None }
    requires none { router.old.held.events ≡ 0 }
    ensures { OnOk result (router.new.begun ≡ None) }
{
    let Ok(elems) = router.elementary(event) else {
        return Err(NotBegun::NoMemory);
    };
    for elem in &elems {
        router.apply(elem)?;
    }
    Ok(elems.len())
}

/// How many routes a router has, and how many entries their least table has.
fn counts(router: &Router) -> Result<(usize, usize), EngineError>
    requires { router.now.begun ≡ None }
{
    let routes = router.routes()?;
    let least = router.least()?;
    Ok((routes.len(), least.table.len()))
}

/// What is told of a lost session: how many routes and least entries there are before it, of how many elementary events it is, and how many
/// routes and least entries are left.
type Lost = ((usize, usize), usize, (usize, usize));

/// The session of the one peer is lost.
fn lose(router: &mut Router) -> Result<Lost, NotBegun>
    requires rest { router.old.begun ≡ None }
    requires none { router.old.held.events ≡ 0 }
{
    let before = counts(router)?;
    let elems = take_event(router, &Event::Down(peer()))?;
    let after = counts(router)?;
    Ok((before, elems, after))
}

/// The same, after so many routes from 0.0.0.0/24 on.
fn lose_all(alloc: Global, count: u16) -> Result<Lost, NotBegun> {
    let mut router = loaded(alloc, (16, 4, 6), &Routes::Crowd(count))?;
    let lost = lose(&mut router);
    drop(router);
    lost
}

/// Each of the hops needs an entry of its own.
#[test]
fn a_lost_session_takes_its_ten_routes(rt: HostRuntime) -> Result<(), NotBegun> {
    assert_eq!(rt; lose_all(rt.alloc(), 10)?, ((10, 10), 10, (0, 0)));
    Ok(())
}
