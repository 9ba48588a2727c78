//! The first reads of a trie of one route, its refusal, and its update.

ghost use Rattle.std.specs.Prelude.{◌≡◌, ◌≤◌};
ghost use Rattle.poptrie_set.specs.Lives.{IsTokenIn};

use crate::common::OneRoute;
use buddy_arena::Full;
use fib_addr::{Addr, Hop, Prefix, PrefixRegion};
use poptrie_build::TrieFull;
use poptrie_set::{At, NotReady, Oldest, Pending, TrieSet};
use std::alloc::{AllocError, Global};
use std::test::Fail;

/// What a trie of a table says: the first reads of two addresses, and whether it is at its start; or why it is refused.
#[derive(Clone, Copy, Debug, PartialEq, Eq)]
enum Told {
    Reads(At, At, u64, bool),
    Refused(TrieFull),
}

fn tell(
    alloc: Global,
    table: &OneRoute,
    direct_bits: u8,
    leaves: u8,
    addr: &Addr,
    other: &Addr,
) -> Result<Told, AllocError>
    requires family { addr.now.family ≡ table.now.prefix.family }
    requires other { other.now.family ≡ table.now.prefix.family }
{
    let mut trie = TrieSet::new(
        alloc,
        table.prefix.family,
        direct_bits.min(18),
        1,
        leaves.min(26),
    )?;
    match trie.build(table) {
        Ok(()) => {
            trie.give_back(Oldest::Nobody);
            Ok(Told::Reads(
                trie.first(addr),
                trie.first(other),
                trie.time(),
                trie.is_pending(),
            ))
        }
        Err(full) => Ok(Told::Refused(full)),
    }
}

/// 10.0.0.0/8: without direct bits two nodes and five leaves, with eight of them a word that is its hop.
#[test]
fn a_short_route(rt: HostRuntime) -> Result<(), Fail> {
    let inside = Addr::v4(0x0a01_0203);
    let beside = Addr::v4(0x0b00_0001);
    let table = OneRoute {
        prefix: Prefix::new(&inside, 8),
        hop: Hop(1),
    };
    let node = At::Node { node: 0, stride: 0 };
    let nodes = Told::Reads(node, node, 0, false);
    let words = Told::Reads(At::Answer(Hop(1)), At::Answer(Hop::NONE), 0, false);
    let full = Told::Refused(TrieFull {
        arena: 1,
        need: 5,
        have: 4,
    });
    for (direct, leaves, due) in [(0, 3, nodes), (8, 3, words), (0, 2, full)] {
        let told = tell(rt.alloc(), &table, direct, leaves, &inside, &beside)?;
        assert_eq!(rt; told, due);
    }
    Ok(())
}

/// What becomes of an update: whether a first and a second store are made, and the time after it, or that some are left; or why
/// it isn't made ready.
#[derive(Clone, Copy, Debug, PartialEq, Eq)]
enum Update {
    Stored(bool, bool, u64),
    Left,
    NotBuilt,
    NotReady(NotReady),
}

/// Ends an update, once the stores that are left are made.
fn finish(trie: &mut TrieSet, pending: Pending)
    requires token { IsTokenIn pending trie.old }
    requires time { trie.old.time ≤ 1 }
{
    match trie.end(pending) {
        Ok(()) => {}
        Err(left) => {
            let mut pending = left;
            trie.store(&mut pending);
            finish(trie, pending);
        }
    }
}

/// The update from one table to another of a trie without direct words, in arenas of these orders.
fn tell_update(
    alloc: Global,
    table: &OneRoute,
    changed: &OneRoute,
    nodes: u8,
    leaves: u8,
) -> Result<Update, AllocError>
    requires family { changed.now.prefix.family ≡ table.now.prefix.family }
{
    let mut trie = TrieSet::new(alloc, table.prefix.family, 0, nodes.min(26), leaves.min(26))?;
    match trie.build(table) {
        Ok(()) => {}
        Err(_full) => return Ok(Update::NotBuilt),
    }
    match trie.prepare(&PrefixRegion::whole(changed), &changed.prefix) {
        Err(why) => Ok(Update::NotReady(why)),
        Ok(token) => {
            let mut pending = token;
            let first = trie.store(&mut pending);
            let second = trie.store(&mut pending);
            match trie.end(pending) {
                Ok(()) => Ok(Update::Stored(first, second, trie.time())),
                Err(left) => {
                    finish(&mut trie, left);
                    Ok(Update::Left)
                }
            }
        }
    }
}

/// 10.0.0.0/8 with another hop: two nodes and five leaves, each in blocks of its own, are made beside the old ones if they fit.
#[test]
fn another_hop(rt: HostRuntime) -> Result<(), Fail> {
    let prefix = Prefix::new(&Addr::v4(0x0a00_0000), 8);
    let table = OneRoute {
        prefix,
        hop: Hop(1),
    };
    let changed = OneRoute {
        prefix,
        hop: Hop(2),
    };
    let out = Update::NotReady(NotReady::NodesOut(Full {
        order: 0,
        largest: None,
    }));
    for (next, nodes, leaves, due) in [
        (changed, 2, 4, Update::Stored(true, false, 1)),
        (table, 1, 3, Update::Stored(false, false, 1)),
        (changed, 1, 3, out),
    ] {
        let next = OneRoute { prefix, ..next };
        let told = tell_update(rt.alloc(), &table, &next, nodes, leaves)?;
        assert_eq!(rt; told, due);
    }
    Ok(())
}
