//! Tries of a table of one route: its answers, how many nodes they visit, what they need, and when they are refused.

ghost use Rattle.std.specs.Prelude.{◌≡◌, ◌≤◌};
ghost use Rattle.table_model.specs.Width.{width};

use crate::common::OneRoute;
use fib_addr::{Addr, Hop, Prefix, Steps};
use poptrie_build::{Found, Trie, TrieFull};
use std::alloc::{AllocError, Global};
use std::marker::Brand;
use std::sync::ledger::{Blank, Ledger};
use std::test::Fail;

/// How large a trie is: its direct bits, and the orders of its arenas.
#[derive(Clone, Copy)]
struct Size {
    direct_bits: u8,
    nodes: u8,
    leaves: u8,
}

/// What a trie says of an address, and its needs; or why it is refused.
#[derive(Clone, Copy, Debug, PartialEq, Eq)]
enum Told {
    Answer(Found, (u64, u64)),
    Refused(TrieFull),
}

fn tell<L: Ledger>(
    alloc: Global,
    table: &OneRoute,
    size: Size,
    addr: &Addr,
    blank: Blank,
) -> Result<Told, AllocError>
    requires name { blank.name ≡ L.name }
    requires parts { (blank.parts ≡ L.parts) × (blank.parts ≡ 1) }
    requires family { addr.now.family ≡ table.now.prefix.family }
    requires small { (size.direct_bits ≤ 18) × (size.nodes ≤ 26) × (size.leaves ≤ 26) }
{
    let mut steps = Steps::<L>::start(blank);
    let mut trie = Trie::new(
        alloc,
        table.prefix.family,
        size.direct_bits,
        size.nodes,
        size.leaves,
    )?;
    match trie.build(table) {
        Ok(()) => {
            let found = trie.lookup(addr, &mut steps);
            Ok(Told::Answer(found, trie.needs()))
        }
        Err(full) => Ok(Told::Refused(full)),
    }
}

fn tell_of(alloc: Global, table: &OneRoute, size: Size, addr: &Addr) -> Result<Told, AllocError>
    requires family { addr.now.family ≡ table.now.prefix.family }
    requires small { (size.direct_bits ≤ 18) × (size.nodes ≤ 26) × (size.leaves ≤ 26) }
{
    tell::<Brand>(alloc, table, size, addr, Blank::new(1))
}

fn answer(hop: u16, visits: u8, nodes: u64, leaves: u64) -> Told {
    Told::Answer(
        Found {
            hop: Hop(hop),
            visits,
        },
        (nodes, leaves),
    )
}

/// What a trie of an IPv4 route, of this many direct bits and with arenas of these orders, says of an address.
fn told_of(
    alloc: Global,
    route: (u32, u8),
    orders: (u8, u8, u8),
    addr: u32,
) -> Result<Told, AllocError> {
    let table = OneRoute {
        prefix: Prefix::new(&Addr::v4(route.0), route.1.min(32)),
        hop: Hop(1),
    };
    let size = Size {
        direct_bits: orders.0.min(18),
        nodes: orders.1.min(26),
        leaves: orders.2.min(26),
    };
    tell_of(alloc, &table, size, &Addr::v4(addr))
}

/// 10.0.0.0/8 without direct bits, and addresses in it, beside it and far from it; its arenas too small for its two nodes, just
/// large enough, and too small for its five leaves. One address: a node in each stride, also in the last, where several slots are
/// one address.
#[test]
fn a_route_is_found(rt: HostRuntime) -> Result<(), Fail> {
    let nodes = Told::Refused(TrieFull {
        arena: 0,
        need: 2,
        have: 1,
    });
    let leaves = Told::Refused(TrieFull {
        arena: 1,
        need: 5,
        have: 4,
    });
    let ten = 0x0a00_0000;
    let one = 0x0a00_0001;
    for (name, route, orders, addr, due) in [
        (
            "inside",
            (ten, 8),
            (0, 2, 4),
            0x0a01_0203,
            answer(1, 2, 2, 5),
        ),
        (
            "beside",
            (ten, 8),
            (0, 2, 4),
            0x0b00_0001,
            answer(0, 2, 2, 5),
        ),
        ("far", (ten, 8), (0, 2, 4), 0xc000_0001, answer(0, 1, 2, 5)),
        (
            "direct",
            (ten, 8),
            (16, 2, 4),
            0x0a01_0203,
            answer(1, 0, 0, 0),
        ),
        ("few nodes", (ten, 8), (0, 0, 4), 0x0a01_0203, nodes),
        (
            "just enough",
            (ten, 8),
            (0, 1, 3),
            0x0a01_0203,
            answer(1, 2, 2, 5),
        ),
        ("few leaves", (ten, 8), (0, 1, 2), 0x0a01_0203, leaves),
        ("an address", (one, 32), (16, 2, 4), one, answer(1, 3, 3, 6)),
        (
            "18 direct bits",
            (one, 32),
            (18, 2, 4),
            one,
            answer(1, 3, 3, 6),
        ),
    ] {
        assert_eq!(rt; told_of(rt.alloc(), route, orders, addr)?, due, "{name}");
    }
    Ok(())
}

#[test]
fn a_refusal_has_its_numbers_in_place(rt: HostRuntime) -> Result<(), Fail> {
    let alloc = rt.alloc();
    let full = TrieFull {
        arena: 1,
        need: 5,
        have: 4,
    };
    assert_eq!(rt;
        format!(in alloc; "{full}")?.as_str(),
        "arena 1 needs 5 of 4"
    );
    Ok(())
}
