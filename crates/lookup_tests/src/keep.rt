//! Kept tables: routes change, the table is repaired or made least, and plans are taken back.

ghost use Rattle.std.specs.Prelude.{◌≡◌};
ghost use Rattle.table_model.specs.declared.family.Family.TheVariants.{V4};

use fib_addr::{Addr, Entry, Family, Hop, Prefix};
use fib_delta::Change;
use smalta_keep::Keep;
use std::alloc::{AllocError, Global};

/// An IPv4 prefix's bits and length.
pub type Net = (u32, u8);

/// A change of a table.
#[derive(Clone, Copy)]
pub enum Move {
    Add(Net, u16),
    Replace(Net, u16),
    Remove(Net),
}

/// A call on a kept table, and what it is to come to.
#[derive(Clone, Copy)]
enum Call {
    /// A route, without a repair.
    Put(Net, u16),
    /// A route and the repair, or the route's end.
    Change(Net, u16, &'static [Move]),
    Snapshot(&'static [Move]),
    /// The same route and its repair, planned with a snapshot and taken back: the changes of both.
    Undo(Net, u16, &'static [Move], &'static [Move]),
    Table(&'static [(Net, u16)]),
    Least(&'static [(Net, u16)]),
}

pub const WHOLE: Net = (0, 0);

pub const LOWER: Net = (0, 1);

pub const UPPER: Net = (0x8000_0000, 1);

/// Calls on a kept table that has no routes and no entries at first.
const CASES: [(&str, &[Call]); 3] = [
    (
        "a repair stays within its prefix",
        &[
            Call::Put(LOWER, 1),
            Call::Snapshot(&[Move::Add(LOWER, 1)]),
            Call::Change(UPPER, 1, &[Move::Add(UPPER, 1)]),
            Call::Table(&[(LOWER, 1), (UPPER, 1)]),
            Call::Snapshot(&[
                Move::Add(WHOLE, 1),
                Move::Remove(LOWER),
                Move::Remove(UPPER),
            ]),
            Call::Least(&[(WHOLE, 1)]),
        ],
    ),
    (
        "the old hop is kept",
        &[
            Call::Put(WHOLE, 2),
            Call::Snapshot(&[Move::Add(WHOLE, 2)]),
            Call::Change(UPPER, 1, &[Move::Add(UPPER, 1)]),
            Call::Least(&[(WHOLE, 2), (UPPER, 1)]),
        ],
    ),
    (
        "a plan is undone",
        &[
            Call::Put(WHOLE, 2),
            Call::Snapshot(&[Move::Add(WHOLE, 2)]),
            Call::Undo(WHOLE, 0, &[Move::Remove(WHOLE)], &[]),
            Call::Undo(UPPER, 3, &[Move::Add(UPPER, 3)], &[]),
            Call::Table(&[(WHOLE, 2)]),
            Call::Least(&[(WHOLE, 2)]),
        ],
    ),
];

/// The prefix of a net's address and length.
pub fn prefix(net: Net) -> Prefix
    ensures { result.family ≡ V4 }
{
    Prefix::new(&Addr::v4(net.0), net.1.min(32))
}

/// Whether the changes are these.
pub fn are_moves(changes: &[Change], due: &[Move]) -> bool {
    changes.len() == due.len()
        && changes.iter().zip(due).all(|(change, due)| match *due {
            Move::Add(net, hop) => *change == Change::Add(prefix(net), Hop(hop)),
            Move::Replace(net, hop) => *change == Change::Replace(prefix(net), Hop(hop)),
            Move::Remove(net) => *change == Change::Remove(prefix(net)),
        })
}

/// Whether the entries are these.
pub fn are_entries(entries: &[Entry], due: &[(Net, u16)]) -> bool {
    entries.len() == due.len()
        && entries.iter().zip(due).all(|(entry, (net, hop))| entry.prefix == prefix(*net)
            && entry.hop == Hop(*hop))
}

/// Plans a route with its repair and a snapshot, takes it back, and returns whether these were its changes.
fn undoes(
    keep: &mut Keep,
    route: (Net, u16),
    repair: &[Move],
    snapshot: &[Move],
) -> Result<bool, AllocError>
    requires { keep.old.family ≡ V4 }
    ensures { keep.new.family ≡ keep.old.family }
{
    let planned = keep.plan(Some((prefix(route.0), Hop(route.1))), true, false)?;
    let moved = planned.moved();
    let is_right = are_moves(&moved.repair, repair) && are_moves(&moved.snapshot, snapshot);
    keep.undo(planned);
    Ok(is_right)
}

/// Makes the call, and returns whether it comes to what is due.
fn is_right(keep: &mut Keep, call: Call) -> Result<bool, AllocError>
    requires { keep.old.family ≡ V4 }
    ensures { keep.new.family ≡ keep.old.family }
{
    match call {
        Call::Put(net, hop) => {
            keep.put(&prefix(net), Hop(hop))?;
            Ok(true)
        }
        Call::Change(net, hop, due) => {
            let changes = keep.change(&prefix(net), Hop(hop))?;
            Ok(are_moves(&changes, due))
        }
        Call::Snapshot(due) => {
            let changes = keep.snapshot()?;
            Ok(are_moves(&changes, due))
        }
        Call::Undo(net, hop, repair, snapshot) => undoes(keep, (net, hop), repair, snapshot),
        Call::Table(due) => Ok(are_entries(&keep.table()?, due)),
        Call::Least(due) => {
            let least = keep.least()?;
            let is_same = keep.least_table()?.as_slice() == least.table.as_slice();
            Ok(is_same && are_entries(&least.table, due))
        }
    }
}

/// The place of the first call that doesn't come to what is due, if there is one.
fn first_wrong(alloc: Global, calls: &[Call]) -> Result<Option<usize>, AllocError> {
    let mut keep = Keep::new(alloc, Family::V4);
    for (place, call) in calls.iter().enumerate() {
        if !is_right(&mut keep, *call)? {
            return Ok(Some(place));
        }
    }
    Ok(None)
}

#[test]
fn tables_are_kept(rt: HostRuntime) -> Result<(), AllocError> {
    for (name, calls) in CASES {
        assert_eq!(rt; first_wrong(rt.alloc(), calls)?, None, "{name}");
    }
    Ok(())
}
