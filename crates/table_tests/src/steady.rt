//! Changes are put in an order in which no packet goes astray.

use crate::common::prefix;
use fib_addr::{Addr, Entry, Hop, Prefix};
use fib_delta::{
    Change, put_entries_in_steady_order, put_event_in_steady_order, put_in_steady_order,
};
use std::alloc::{AllocError, Global};

/// A prefix of either family.
#[derive(Clone, Copy)]
enum Net {
    V4(u32, u8),
    V6(u128, u8),
}

/// A change, and the hop that it sets.
#[derive(Clone, Copy)]
enum Move {
    Add(Net, u16),
    Replace(Net, u16),
    Remove(Net),
}

/// An event's changes in the order of prefixes, of its repair and of its snapshot, and all in the order in which they are due.
struct Case {
    name: &'static str,
    repair: &'static [Move],
    snapshot: &'static [Move],
    due: &'static [Move],
}

const WHOLE: Net = Net::V4(0, 0);

const LOWER: Net = Net::V4(0, 1);

const UPPER: Net = Net::V4(0x8000_0000, 1);

/// 0/2 and 64/2.
const FIRST: Net = Net::V4(0, 2);

const SECOND: Net = Net::V4(0x4000_0000, 2);

/// 10/8, 10.1/16 and 10.1.1/24.
const WIDE: Net = Net::V4(0x0a00_0000, 8);

const NARROW: Net = Net::V4(0x0a01_0000, 16);

const LEAST: Net = Net::V4(0x0a01_0100, 24);

/// 11/8.
const BESIDE: Net = Net::V4(0x0b00_0000, 8);

/// ::/0, 2001:db8::/32 and 2001:db8:1::/48.
const WHOLE_V6: Net = Net::V6(0, 0);

const WIDE_V6: Net = Net::V6(0x2001_0db8 << 96, 32);

const NARROW_V6: Net = Net::V6(0x2001_0db8_0001 << 80, 48);

const CASES: [Case; 6] = [
    Case {
        name: "none",
        repair: &[],
        snapshot: &[],
        due: &[],
    },
    Case {
        name: "holes are filled before what covers them is replaced",
        repair: &[
            Move::Replace(WHOLE, 2),
            Move::Remove(LOWER),
            Move::Add(FIRST, 1),
            Move::Remove(SECOND),
            Move::Add(UPPER, 3),
        ],
        snapshot: &[],
        due: &[
            Move::Add(FIRST, 1),
            Move::Add(UPPER, 3),
            Move::Replace(WHOLE, 2),
            Move::Remove(LOWER),
            Move::Remove(SECOND),
        ],
    },
    Case {
        name: "the longest is added first",
        repair: &[
            Move::Add(WIDE, 1),
            Move::Replace(NARROW, 2),
            Move::Add(LEAST, 3),
            Move::Add(BESIDE, 4),
        ],
        snapshot: &[],
        due: &[
            Move::Add(LEAST, 3),
            Move::Replace(NARROW, 2),
            Move::Add(WIDE, 1),
            Move::Add(BESIDE, 4),
        ],
    },
    Case {
        name: "the shortest is removed first, after all that is added",
        repair: &[
            Move::Remove(WIDE),
            Move::Remove(NARROW),
            Move::Remove(LEAST),
            Move::Add(BESIDE, 4),
        ],
        snapshot: &[],
        due: &[
            Move::Add(BESIDE, 4),
            Move::Remove(WIDE),
            Move::Remove(NARROW),
            Move::Remove(LEAST),
        ],
    },
    Case {
        name: "IPv4 comes first",
        repair: &[
            Move::Add(WHOLE, 1),
            Move::Remove(LEAST),
            Move::Add(WHOLE_V6, 1),
            Move::Add(WIDE_V6, 2),
            Move::Remove(NARROW_V6),
        ],
        snapshot: &[],
        due: &[
            Move::Add(WHOLE, 1),
            Move::Remove(LEAST),
            Move::Add(WIDE_V6, 2),
            Move::Add(WHOLE_V6, 1),
            Move::Remove(NARROW_V6),
        ],
    },
    Case {
        name: "a repair comes before a snapshot, each in itself",
        repair: &[Move::Remove(WIDE), Move::Add(NARROW, 1)],
        snapshot: &[Move::Replace(WHOLE, 2), Move::Add(LEAST, 3)],
        due: &[
            Move::Add(NARROW, 1),
            Move::Remove(WIDE),
            Move::Add(LEAST, 3),
            Move::Replace(WHOLE, 2),
        ],
    },
];

fn prefix_of(at: Net) -> Prefix {
    match at {
        Net::V4(bits, len) => prefix(bits, len.min(32)),
        Net::V6(bits, len) => Prefix::new(&Addr::v6(bits), len.min(128)),
    }
}

fn change_of(turn: &Move) -> Change {
    match *turn {
        Move::Add(at, hop) => Change::Add(prefix_of(at), Hop(hop)),
        Move::Replace(at, hop) => Change::Replace(prefix_of(at), Hop(hop)),
        Move::Remove(at) => Change::Remove(prefix_of(at)),
    }
}

/// The changes of both parts.
fn changes_of(
    alloc: Global,
    repair: &[Move],
    snapshot: &[Move],
) -> Result<Vec<Change>, AllocError> {
    let mut changes = Vec::new(alloc);
    for turn in repair.iter().chain(snapshot) {
        changes.push(change_of(turn))?;
    }
    Ok(changes)
}

#[test]
fn changes_stand_in_steady_order(rt: HostRuntime) -> Result<(), AllocError> {
    for case in &CASES {
        let mut changes = changes_of(rt.alloc(), case.repair, case.snapshot)?;
        let repaired = case.repair.len().min(changes.len());
        put_event_in_steady_order(&mut changes, repaired);
        let due = changes_of(rt.alloc(), case.due, &[])?;
        assert_eq!(rt; changes, due, "{}", case.name);
    }
    Ok(())
}

/// 60 changes: of n/L, where n goes up and lengths L from 8 to 24 repeat.
fn many(alloc: Global) -> Result<Vec<Change>, AllocError> {
    let mut changes = Vec::new(alloc);
    for n in 0..60u8 {
        let at = prefix(u32::from(n) << 24, 8 + n % 17);
        changes.push(if n % 3 == 0 {
            Change::Remove(at)
        } else {
            Change::Add(at, Hop(1))
        })?;
    }
    Ok(changes)
}

/// Whether a change is of the kind and at a prefix of this length.
fn is_of(change: &Change, removes: bool, len: u8) -> bool {
    match *change {
        Change::Add(at, _) => !removes && at.len == len,
        Change::Replace(at, _) => !removes && at.len == len,
        Change::Remove(at) => removes && at.len == len,
    }
}

/// Those of one length after those of another.
fn by_lengths(alloc: Global, changes: &[Change]) -> Result<Vec<Change>, AllocError> {
    let mut ordered = Vec::new(alloc);
    for len in 0..=32u8 {
        for change in changes
            .iter()
            .filter(|change| is_of(change, false, 32 - len))
        {
            ordered.push(*change)?;
        }
    }
    for len in 0..=32u8 {
        for change in changes.iter().filter(|change| is_of(change, true, len)) {
            ordered.push(*change)?;
        }
    }
    Ok(ordered)
}

#[test]
fn many_changes_stand_so_too(rt: HostRuntime) -> Result<(), AllocError> {
    let mut changes = many(rt.alloc())?;
    let due = by_lengths(rt.alloc(), &changes)?;
    put_in_steady_order(&mut changes);
    assert_eq!(rt; changes, due);
    Ok(())
}

#[test]
fn the_longest_entry_is_added_first(rt: HostRuntime) -> Result<(), AllocError> {
    let entry = |at, hop| Entry {
        prefix: prefix_of(at),
        hop: Hop(hop),
    };
    let mut entries = [
        entry(WHOLE, 1),
        entry(WIDE, 2),
        entry(NARROW, 3),
        entry(BESIDE, 4),
        entry(WHOLE_V6, 5),
        entry(WIDE_V6, 0),
    ];
    put_entries_in_steady_order(&mut entries);
    let due = [
        entry(NARROW, 3),
        entry(WIDE, 2),
        entry(BESIDE, 4),
        entry(WHOLE, 1),
        entry(WIDE_V6, 0),
        entry(WHOLE_V6, 5),
    ];
    assert_eq!(rt; entries.as_slice(), due.as_slice());
    Ok(())
}
