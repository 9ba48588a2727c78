//! Updates one after another: words, selectors, and a lookup that holds the other set.

ghost use Rattle.std.specs.Prelude.{◌≡◌, ◌∷◌, [], ◌≤◌, ◌+◌, suc, false, length, OnOk};
ghost use Rattle.fib_addr.specs.Views.{prefix_as};
ghost use Rattle.table_model.specs.Entries.{Entries};
ghost use Rattle.poptrie_update.specs.Lives.{Shows, is_pending};
ghost use Rattle.poptrie_update.specs.Pendings.{IsTokenOf};

use crate::common::OneRoute;
use fib_addr::{Addr, Hop, Prefix, PrefixRegion};
use poptrie_update::{Live, NotReady, Oldest, Pending};
use std::alloc::{AllocError, Global};
use std::test::Fail;

/// What became of an update: whether it stored the selector, whether a first and a second store were made, and the time after its
/// end.
#[derive(Clone, Copy, Debug, PartialEq, Eq)]
struct Ended {
    selector: bool,
    stores: (bool, bool),
    time: u64,
}

/// Ends an update, once the stores that are left are made.
fn finish(live: &mut Live, pending: Pending)
    requires token { IsTokenOf pending live.old }
    requires time { live.old.selected.time ≤ 3 }
    ensures family { live.new.selected.family ≡ live.old.selected.family }
    ensures quiet { is_pending live.new ≡ false }
    ensures time { live.new.selected.time ≡ suc live.old.selected.time }
    ensures shows { (L M : Entries) → Shows live.old L M → Shows live.new M M }
{
    match live.end(pending) {
        Ok(()) => {}
        Err(left) => {
            let mut pending = left;
            live.store(&mut pending);
            finish(live, pending);
        }
    }
}

/// Updates a trie from one table to another of the same prefix.
fn update(
    live: &mut Live,
    before: &OneRoute,
    after: &OneRoute,
    oldest: Oldest,
) -> Result<Ended, NotReady>
    requires family { live.old.selected.family ≡ after.now.prefix.family }
    requires prefix { before.now.prefix ≡ after.now.prefix }
    requires quiet { is_pending live.old ≡ false }
    requires time { live.old.selected.time ≤ 3 }
    requires shows { Shows live.old ((prefix_as before.now.prefix, before.now.hop.0) ∷ [])
        ((prefix_as before.now.prefix, before.now.hop.0) ∷ []) }
    ensures family { live.new.selected.family ≡ live.old.selected.family }
    ensures quiet { OnOk result (is_pending live.new ≡ false) }
    ensures time { OnOk result (live.new.selected.time ≡ suc live.old.selected.time) }
    ensures shows { OnOk result (Shows live.new
        ((prefix_as after.now.prefix, after.now.hop.0) ∷ [])
        ((prefix_as after.now.prefix, after.now.hop.0) ∷ [])) }
{
    match live.prepare(&PrefixRegion::whole(after), &after.prefix, oldest) {
        Err(why) => Err(why),
        Ok(token) => {
            let mut pending = token;
            let selector = pending.is_selector();
            let first = live.store(&mut pending);
            let second = live.store(&mut pending);
            finish(live, pending);
            Ok(Ended {
                selector,
                stores: (first, second),
                time: live.time(),
            })
        }
    }
}

/// An update while the oldest open lookup is this one, and what becomes of it.
type Update = (Oldest, Result<Ended, NotReady>);

/// Whether these updates, there and back between two tables of one prefix, become what is due; the last may not be made ready.
fn come_to(live: &mut Live, now: &OneRoute, next: &OneRoute, updates: &[Update]) -> bool
    requires family { live.old.selected.family ≡ now.now.prefix.family }
    requires prefix { now.now.prefix ≡ next.now.prefix }
    requires quiet { is_pending live.old ≡ false }
    requires time { live.old.selected.time + length updates.now ≤ 4 }
    requires shows { Shows live.old ((prefix_as now.now.prefix, now.now.hop.0) ∷ [])
        ((prefix_as now.now.prefix, now.now.hop.0) ∷ []) }
{
    match updates {
        [] => true,
        [(oldest, due), rest @ ..] => match update(live, now, next, *oldest) {
            Err(why) => *due == Err(why) && rest.is_empty(),
            Ok(ended) => *due == Ok(ended) && come_to(live, next, now, rest),
        },
    }
}

/// Whether the updates of a trie of 10.0.0.0/8 without direct bits, in sets of these orders, become what is due.
fn are_right(alloc: Global, orders: (u8, u8), updates: &[Update]) -> Result<bool, AllocError>
    requires few { length updates.now ≤ 4 }
{
    let prefix = Prefix::new(&Addr::v4(0x0a00_0000), 8);
    let table = OneRoute {
        prefix,
        hop: Hop(1),
    };
    let changed = OneRoute {
        prefix,
        hop: Hop(2),
    };
    let mut live = Live::new(alloc, prefix.family, 0, orders.0.min(26), orders.1.min(26))?;
    match live.build(&table) {
        Ok(()) => Ok(come_to(&mut live, &table, &changed, updates)),
        Err(_full) => Ok(false),
    }
}

/// An update that stores the selector, and the time after its end.
const fn selected(time: u64) -> Result<Ended, NotReady> {
    Ok(Ended {
        selector: true,
        stores: (true, false),
        time,
    })
}

/// An update that stores one word, and the time after its end.
const fn word(time: u64) -> Result<Ended, NotReady> {
    Ok(Ended {
        selector: false,
        stores: (true, false),
        time,
    })
}

/// Lookup 3, which started at this time, is the oldest.
const fn started(since: u64) -> Oldest {
    Oldest::Started { cursor: 3, since }
}

/// 10.0.0.0/8 without direct bits has two nodes and five leaves, each in a block of its own. Sets of two nodes and eight leaves
/// hold it once, and its update to another hop is a selector while the other set is free. With twice the places a word is stored.
#[test]
fn another_hop(rt: HostRuntime) -> Result<(), Fail> {
    let pinned = Err(NotReady::Pinned {
        need: 1,
        cursor: 3,
        arena: 0,
        largest: None,
    });
    let once = (1, 3);
    let twice = (2, 4);
    let cases: [(&str, (u8, u8), &[Update]); 6] = [
        (
            "a lookup from the start",
            once,
            &[(Oldest::Nobody, selected(1)), (started(0), pinned)],
        ),
        (
            "a lookup after the first end",
            once,
            &[(Oldest::Nobody, selected(1)), (started(1), selected(2))],
        ),
        (
            "no lookup",
            once,
            &[(Oldest::Nobody, selected(1)), (Oldest::Nobody, selected(2))],
        ),
        (
            "room beside, and a lookup from the start",
            twice,
            &[(Oldest::Nobody, word(1)), (started(0), selected(2))],
        ),
        (
            "room beside, and a lookup after the first end",
            twice,
            &[(Oldest::Nobody, word(1)), (started(1), word(2))],
        ),
        (
            "three ends, then a selector",
            twice,
            &[
                (Oldest::Nobody, word(1)),
                (Oldest::Nobody, word(2)),
                (Oldest::Nobody, word(3)),
                (started(2), selected(4)),
            ],
        ),
    ];
    for (name, orders, updates) in cases {
        assert!(rt; updates.len() <= 4, "{name}");
        assert!(rt; are_right(rt.alloc(), orders, updates)?, "{name}");
    }
    Ok(())
}

#[test]
fn a_held_set_has_its_numbers_in_place(rt: HostRuntime) -> Result<(), Fail> {
    let alloc = rt.alloc();
    let pinned = NotReady::Pinned {
        need: 5,
        cursor: 3,
        arena: 1,
        largest: Some(2),
    };
    let text = "lookup 3 holds the set that arena 1 would need 5 places of";
    assert_eq!(rt; format!(in alloc; "{pinned}")?.as_str(), text);
    Ok(())
}
