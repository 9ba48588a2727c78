//! What an engine says of its routes beside what a run prints, and how many changes its events need.

ghost use Rattle.std.specs.Prelude.{◌≡◌, ◌≤◌, false, true, IfOk, OnOk};

use crate::keep::{LOWER, Move, Net, UPPER, WHOLE, are_entries, are_moves, prefix};
use fib_engine::{Engine, EngineError, Limits, Sizes};
use fib_prefix::{Addr, Elem, Entry, Hop, Peer, Via};
use std::alloc::{AllocError, Global};

/// Routes of one peer by the numbers of their hops, which the load has; then an event that brings one or ends it. The event's changes,
/// and how many of them it needed.
struct Case {
    every: u32,
    fewest: bool,
    load: &'static [(Net, u16)],
    event: (Net, Option<u16>),
    changes: &'static [Move],
    moves: Option<u64>,
}

const SECOND: Net = (0x4000_0000, 2);

const FOURTH: Net = (0xc000_0000, 2);

/// The second and the fourth quarter have another hop than the rest.
const QUARTERS: &[(Net, u16)] = &[(WHOLE, 1), (SECOND, 2), (FOURTH, 2)];

const HALVES: &[(Net, u16)] = &[(WHOLE, 1), (LOWER, 2), (UPPER, 2)];

const CASES: [(&str, Case); 6] = [
    (
        "one change is the fewest",
        Case {
            every: 0,
            fewest: true,
            load: QUARTERS,
            event: (WHOLE, Some(3)),
            changes: &[Move::Replace(WHOLE, 3)],
            moves: Some(1),
        },
    ),
    (
        "a repair of the same routes makes five",
        Case {
            every: 0,
            fewest: false,
            load: QUARTERS,
            event: (WHOLE, Some(3)),
            changes: &[
                Move::Replace(WHOLE, 2),
                Move::Add((0, 2), 3),
                Move::Remove(SECOND),
                Move::Add((0x8000_0000, 2), 3),
                Move::Remove(FOURTH),
            ],
            moves: Some(5),
        },
    ),
    (
        "a route that no address takes needs no change",
        Case {
            every: 0,
            fewest: true,
            load: HALVES,
            event: (WHOLE, None),
            changes: &[],
            moves: Some(0),
        },
    ),
    (
        "the same route again is no event that changes a hop",
        Case {
            every: 0,
            fewest: true,
            load: HALVES,
            event: (LOWER, Some(2)),
            changes: &[],
            moves: None,
        },
    ),
    (
        "the snapshot's changes aren't needed",
        Case {
            every: 1,
            fewest: true,
            load: &[(WHOLE, 1), (LOWER, 2)],
            event: (WHOLE, Some(2)),
            changes: &[Move::Replace(WHOLE, 2), Move::Remove(LOWER)],
            moves: Some(1),
        },
    ),
    (
        "a snapshot without an event that changes a hop",
        Case {
            every: 1,
            fewest: false,
            load: HALVES,
            event: (UPPER, Some(2)),
            changes: &[],
            moves: None,
        },
    ),
];

/// The one peer.
pub fn peer() -> Peer {
    Peer {
        addr: Addr::v4(1),
        asn: 64_500,
    }
}

/// A route of this hop by the one peer, or with none its end.
pub fn elem(net: Net, hop: Option<u16>) -> Elem {
    let via = Via {
        peer: peer(),
        id: 0,
    };
    match hop {
        Some(n) => Elem::Put(via, prefix(net), 1, Addr::v4(0xc000_0200 + u32::from(n))),
        None => Elem::Cut(via, prefix(net)),
    }
}

/// Loads routes of the one peer.
pub fn load(engine: &mut Engine, routes: &[(Net, u16)]) -> Result<(), EngineError>
    requires { engine.old.loaded ≡ false }
    ensures loaded { OnOk result (engine.new.loaded ≡ false) }
    ensures events { OnOk result (engine.new.events ≡ engine.old.events) }
{
    for (net, hop) in routes {
        engine.load(&elem(*net, Some(*hop)))?;
    }
    Ok(())
}

/// An engine whose load goes on.
fn loading(
    alloc: Global,
    every: u32,
    fewest: bool,
    routes: &[(Net, u16)],
) -> Result<Engine, EngineError>
    ensures loading { IfOk result (λ e. e.loaded ≡ false) }
    ensures events { IfOk result (λ e. e.events ≡ 0) }
{
    let sizes = Sizes {
        direct: 0,
        nodes: 4,
        leaves: 4,
    };
    let mut engine = Engine::new(
        alloc,
        Limits {
            every,
            fewest,
            sizes,
        },
    );
    load(&mut engine, routes)?;
    Ok(engine)
}

/// An engine whose load has ended.
fn loaded(
    alloc: Global,
    every: u32,
    fewest: bool,
    routes: &[(Net, u16)],
) -> Result<Engine, EngineError>
    ensures loaded { IfOk result (λ e. e.loaded ≡ true) }
    ensures events { IfOk result (λ e. e.events ≡ 0) }
{
    let mut engine = loading(alloc, every, fewest, routes)?;
    engine.finish_load()?;
    Ok(engine)
}

/// How a load ends.
#[derive(Clone, Copy, Debug)]
enum LoadEnd {
    Listed,
    Packed,
    ForGood,
}

/// The entries of the table that a load of these routes gives.
fn table_of(alloc: Global, end: LoadEnd, routes: &[(Net, u16)]) -> Result<Vec<Entry>, EngineError> {
    let mut engine = loading(alloc, 0, false, routes)?;
    let mut table = Vec::new(alloc);
    match end {
        LoadEnd::Listed => return engine.finish_load(),
        LoadEnd::Packed => engine.finish_load_packed()?.emit(&mut table)?,
        LoadEnd::ForGood => {
            let (fib, _hops) = engine.settle_load()?;
            fib.emit_table(&mut table)?;
        }
    }
    Ok(table)
}

#[test]
fn each_end_of_a_load_gives_the_least_table(rt: HostRuntime) -> Result<(), EngineError> {
    for end in [LoadEnd::Listed, LoadEnd::Packed, LoadEnd::ForGood] {
        let table = table_of(rt.alloc(), end, HALVES)?;
        assert!(rt; are_entries(&table, &[(WHOLE, 2)]), "{end:?}");
        let table = table_of(rt.alloc(), end, QUARTERS)?;
        assert!(rt; are_entries(&table, QUARTERS), "{end:?}");
    }
    Ok(())
}

/// Whether the event comes to what is due, and the same event once more changes no chosen hop.
fn is_right(alloc: Global, case: &Case) -> Result<bool, EngineError> {
    let mut engine = loaded(alloc, case.every, case.fewest, case.load)?;
    let event = elem(case.event.0, case.event.1);
    let told = engine.apply(&event)?;
    let is_due = are_moves(&told.changes, case.changes) && engine.last_moves() == case.moves;
    engine.apply(&event)?;
    Ok(is_due && engine.last_moves().is_none())
}

#[test]
fn events_need_so_many_changes(rt: HostRuntime) -> Result<(), EngineError> {
    for (name, case) in &CASES {
        assert!(rt; is_right(rt.alloc(), case)?, "{name}");
    }
    Ok(())
}

/// Whether an engine's least table is the route's alone, and its tries are built.
fn tells_of_one(engine: &Engine) -> Result<bool, AllocError> {
    let least = engine.least()?;
    let _tries = engine.tries()?;
    Ok(match least.table.as_slice() {
        [entry] => entry.prefix == prefix((0x0a00_0000, 8)) && entry.hop == Hop(1),
        _ => false,
    })
}

#[test]
fn a_least_table_and_tries_of_one_route(rt: HostRuntime) -> Result<(), EngineError> {
    let engine = loaded(rt.alloc(), 0, false, &[((0x0a00_0000, 8), 1)])?;
    assert!(rt; tells_of_one(&engine)?);
    Ok(())
}
