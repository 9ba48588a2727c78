//! Routes come and go, and the shortest path is chosen.

use fib_prefix::{Addr, Elem, Event, Peer, Prefix, Via};
use route_choice::Candidates;
use std::alloc::{AllocError, Global};

/// A peer by its number, and a path identifier; 0 if there is none.
type Way = (u32, u32);

/// An IPv4 prefix's bits and length.
type Net = (u32, u8);

/// An elementary event: a route with the length of its path and the number of its hop, or the end of one.
#[derive(Clone, Copy)]
enum Told {
    Put(Way, Net, u32, u8),
    Cut(Way, Net),
}

/// A call on the candidates, and what it is to come to.
#[derive(Clone, Copy)]
enum Call {
    Load(Told),
    /// Applies the event: the hop that was chosen before, and the one after it.
    Apply(Told, Option<u8>, Option<u8>),
    /// The same by a plan that is carried out.
    Plan(Told, Option<u8>, Option<u8>),
    /// The peer's session is lost: its ways and their prefixes, in order.
    Lost(u32, &'static [(Way, Net)]),
    Chosen(Net, Option<u8>),
    Routes(&'static [(Net, u8)]),
}

const WIDE: Net = (0x0a00_0000, 8);

const NARROW: Net = (0x0a00_0000, 16);

const OTHER: Net = (0xc000_0000, 8);

/// Calls on candidates, of which there are none at first.
const CASES: [(&str, &[Call]); 5] = [
    (
        "the shortest path is chosen",
        &[
            // a cut of what isn't there
            Call::Apply(Told::Cut((1, 0), WIDE), None, None),
            Call::Apply(Told::Put((2, 0), WIDE, 3, 2), None, Some(2)),
            // a longer path, then a tie that the lesser peer wins
            Call::Apply(Told::Put((1, 0), WIDE, 4, 1), Some(2), Some(2)),
            Call::Apply(Told::Put((1, 0), WIDE, 3, 1), Some(2), Some(1)),
            // the same path once more with another hop
            Call::Apply(Told::Put((1, 0), WIDE, 3, 6), Some(1), Some(6)),
            Call::Apply(Told::Put((3, 0), WIDE, 2, 3), Some(6), Some(3)),
            // the next one comes after a cut
            Call::Apply(Told::Cut((3, 0), WIDE), Some(3), Some(6)),
            // the chosen one's path gets longer
            Call::Apply(Told::Put((1, 0), WIDE, 5, 1), Some(6), Some(2)),
            Call::Chosen(WIDE, Some(2)),
        ],
    ),
    (
        "a lost session cuts its routes",
        &[
            Call::Load(Told::Put((2, 0), NARROW, 9, 5)),
            Call::Load(Told::Put((2, 0), WIDE, 3, 2)),
            Call::Load(Told::Put((1, 0), WIDE, 5, 1)),
            Call::Lost(2, &[((2, 0), WIDE), ((2, 0), NARROW)]),
            Call::Load(Told::Cut((2, 0), WIDE)),
            Call::Load(Told::Cut((2, 0), NARROW)),
            Call::Routes(&[(WIDE, 1)]),
        ],
    ),
    (
        "a plan is carried out",
        &[
            Call::Plan(Told::Put((4, 0), NARROW, 1, 4), None, Some(4)),
            Call::Chosen(NARROW, Some(4)),
        ],
    ),
    (
        "what is loaded is held",
        &[
            Call::Load(Told::Put((1, 0), WIDE, 1, 7)),
            Call::Load(Told::Put((1, 0), WIDE, 8, 8)),
            Call::Load(Told::Put((2, 0), WIDE, 7, 2)),
            Call::Routes(&[(WIDE, 2)]),
            Call::Load(Told::Cut((2, 0), WIDE)),
            Call::Chosen(WIDE, Some(8)),
        ],
    ),
    (
        "routes of one peer have path identifiers",
        &[
            Call::Load(Told::Put((1, 2), WIDE, 1, 2)),
            Call::Load(Told::Put((1, 1), WIDE, 1, 1)),
            Call::Load(Told::Put((2, 0), WIDE, 1, 9)),
            Call::Load(Told::Put((1, 4_294_967_295), OTHER, 1, 3)),
            // the lesser peer wins a tie, with its lesser identifier
            Call::Chosen(WIDE, Some(1)),
            Call::Lost(
                1,
                &[((1, 1), WIDE), ((1, 2), WIDE), ((1, 4_294_967_295), OTHER)],
            ),
            Call::Apply(Told::Cut((1, 1), WIDE), Some(1), Some(2)),
            Call::Apply(Told::Cut((1, 2), WIDE), Some(2), Some(9)),
            // without an identifier it is another route
            Call::Load(Told::Cut((1, 0), OTHER)),
            Call::Chosen(OTHER, Some(3)),
        ],
    ),
];

fn prefix(net: Net) -> Prefix {
    Prefix::new(&Addr::v4(net.0), net.1.min(32))
}

fn peer(n: u32) -> Peer {
    Peer {
        addr: Addr::v4(n),
        asn: 64_512,
    }
}

fn via(way: Way) -> Via {
    Via {
        peer: peer(way.0),
        id: way.1,
    }
}

fn hop(n: u8) -> Addr {
    Addr::v4(0xc000_0200 + u32::from(n))
}

fn elem(told: Told) -> Elem {
    match told {
        Told::Put(way, net, path, n) => Elem::Put(via(way), prefix(net), path, hop(n)),
        Told::Cut(way, net) => Elem::Cut(via(way), prefix(net)),
    }
}

/// Whether these events are cuts of these routes.
fn are_cuts(elems: &[Elem], routes: &[(Way, Net)]) -> bool {
    elems.len() == routes.len()
        && elems
            .iter()
            .zip(routes)
            .all(|(told, (way, net))| *told == elem(Told::Cut(*way, *net)))
}

/// Whether these routes have the hops of these numbers.
fn are_routes(routes: &[(Prefix, Addr)], due: &[(Net, u8)]) -> bool {
    routes.len() == due.len()
        && routes
            .iter()
            .zip(due)
            .all(|(route, (net, n))| *route == (prefix(*net), hop(*n)))
}

/// Makes the call, and returns whether it comes to what is due.
fn is_right(held: &mut Candidates, call: Call) -> Result<bool, AllocError> {
    match call {
        Call::Load(told) => {
            held.load(&elem(told))?;
            Ok(true)
        }
        Call::Apply(told, before, after) => {
            let choice = held.apply(&elem(told))?;
            Ok((choice.before, choice.after) == (before.map(hop), after.map(hop)))
        }
        Call::Plan(told, before, after) => {
            let pick = held.plan(&elem(told))?;
            let choice = held.commit(pick);
            Ok((choice.before, choice.after) == (before.map(hop), after.map(hop)))
        }
        Call::Lost(n, routes) => {
            let elems = held.elementary(&Event::Down(peer(n)))?;
            Ok(are_cuts(&elems, routes))
        }
        Call::Chosen(net, n) => Ok(held.chosen(&prefix(net)) == n.map(hop)),
        Call::Routes(due) => Ok(are_routes(&held.routes()?, due)),
    }
}

/// The place of the first call that doesn't come to what is due, if there is one.
fn first_wrong(alloc: Global, calls: &[Call]) -> Result<Option<usize>, AllocError> {
    let mut held = Candidates::new(alloc);
    for (place, call) in calls.iter().enumerate() {
        if !is_right(&mut held, *call)? {
            return Ok(Some(place));
        }
    }
    Ok(None)
}

#[test]
fn routes_come_and_go(rt: HostRuntime) -> Result<(), AllocError> {
    for (name, calls) in CASES {
        assert_eq!(rt; first_wrong(rt.alloc(), calls)?, None, "{name}");
    }
    Ok(())
}
