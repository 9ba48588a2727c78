//! Lookups that pause: their numbers, their goes, and the oldest of them.

ghost use Rattle.std.specs.Prelude.{◌≡◌};
ghost use Rattle.poptrie_update.specs.Reads.{IsShowing};
ghost use Rattle.poptrie_update.specs.Cursors.{Dues, FitsAll};

use crate::common::OneRoute;
use fib_addr::{Addr, Hop, Prefix};
use poptrie_update::{Cursors, CursorsFull, Live, NotOpen, Oldest};
use std::alloc::{AllocError, Global};
use std::test::Fail;

/// A call on open lookups, with what it is to return.
#[derive(Clone, Copy)]
enum Call {
    Start(Result<u8, CursorsFull>),
    Go(u8, Result<Option<Hop>, NotOpen>),
    Oldest(Oldest),
}

/// Makes the call, and returns whether it is right.
fn is_right(cursors: &mut Cursors, live: &Live, addr: &Addr, call: Call) -> bool
    requires family { addr.now.family ≡ live.now.selected.family }
    requires showing { IsShowing live.now }
    requires fits { (due : Dues) × FitsAll live.now cursors.old due }
    ensures { (due : Dues) × FitsAll live.now cursors.new due }
{
    match call {
        Call::Start(due) => cursors.start(live, addr) == due,
        Call::Go(number, due) => cursors.go(live, number) == due,
        Call::Oldest(due) => cursors.oldest() == due,
    }
}

/// The place of the first call that isn't right, if there is one.
fn first_wrong(cursors: &mut Cursors, live: &Live, addr: &Addr, calls: &[Call]) -> Option<usize>
    requires family { addr.now.family ≡ live.now.selected.family }
    requires showing { IsShowing live.now }
    requires fits { (due : Dues) × FitsAll live.now cursors.old due }
{
    for (place, call) in calls.iter().enumerate() {
        if !is_right(cursors, live, addr, *call) {
            return Some(place);
        }
    }
    None
}

/// How many starts get the numbers from 0 on.
fn starts(cursors: &mut Cursors, live: &Live, addr: &Addr) -> u8
    requires family { addr.now.family ≡ live.now.selected.family }
    requires fits { (due : Dues) × FitsAll live.now cursors.old due }
    ensures { (due : Dues) × FitsAll live.now cursors.new due }
{
    for number in 0..u8::MAX {
        if cursors.start(live, addr) != Ok(number) {
            return number;
        }
    }
    u8::MAX
}

/// Both in a trie of a table without direct bits.
fn starts_then_calls(
    alloc: Global,
    table: &OneRoute,
    addr: &Addr,
    calls: &[Call],
) -> Result<(u8, Option<usize>), AllocError>
    requires { addr.now.family ≡ table.now.prefix.family }
{
    let mut live = Live::new(alloc, table.prefix.family, 0, 2, 4)?;
    match live.build(table) {
        Ok(()) => {}
        Err(_full) => return Ok((0, None)),
    }
    let mut cursors = Cursors::new(alloc)?;
    let started = starts(&mut cursors, &live, addr);
    Ok((started, first_wrong(&mut cursors, &live, addr, calls)))
}

/// 64 lookups of 10.1.2.3 in a trie of 10.0.0.0/8 that has no direct bits: its regions of length 0 and 6 have two answers, so
/// two goes lead on, and the third answers.
#[test]
fn numbers_goes_and_the_oldest(rt: HostRuntime) -> Result<(), Fail> {
    let addr = Addr::v4(0x0a01_0203);
    let table = OneRoute {
        prefix: Prefix::new(&addr, 8),
        hop: Hop(1),
    };
    let first = Oldest::Started {
        cursor: 0,
        since: 0,
    };
    let calls = [
        Call::Start(Err(CursorsFull)),
        Call::Go(64, Err(NotOpen)),
        Call::Go(9, Ok(None)),
        Call::Go(63, Ok(None)),
        Call::Go(9, Ok(None)),
        Call::Go(9, Ok(Some(Hop(1)))),
        Call::Go(9, Err(NotOpen)),
        Call::Oldest(first),
        Call::Start(Ok(9)),
    ];
    let told = starts_then_calls(rt.alloc(), &table, &addr, &calls)?;
    assert_eq!(rt; told, (64, None));
    Ok(())
}
