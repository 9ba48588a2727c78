//! Turns of changes.

ghost use Rattle.std.specs.Prelude.{◌≡◌};
ghost use Rattle.std.specs.Ordering.{ordering_then};
ghost use Rattle.table_model.specs.Order.{prefix_cmp};
ghost use Rattle.table_model.specs.Changes.{Add};
ghost use Rattle.kept_model.specs.Between.{place_of};
ghost use Rattle.kept_model.specs.Turns.{first_turn, remove_turn, set_turn, steady_cmp, turn_of};
ghost use Rattle.fib_addr.specs.Views.{prefix_as};
ghost use Rattle.fib_delta.specs.Views.{change_as};

use crate::Change;
use fib_addr::{Entry, Family, Prefix};
use std::cmp::Ordering;

/// The first turn of a family's changes: IPv4 has 66 turns, two for each length of its prefixes.
fn first_turn(family: Family) -> u16
    ensures { result ≡ first_turn family }
{
    match family {
        Family::V4 => 0,
        Family::V6 => 66,
    }
}

/// The turn of what sets an entry at the prefix: the longest have the first.
fn set_turn(prefix: &Prefix) -> u16
    ensures { result ≡ set_turn prefix.now.family prefix.now.len }
{
    first_turn(prefix.family) + u16::from(prefix.family.width() - prefix.len)
}

/// The turn of what removes an entry at the prefix: after all that set one, the shortest have the first.
fn remove_turn(prefix: &Prefix) -> u16
    ensures { result ≡ remove_turn prefix.now.family prefix.now.len }
{
    first_turn(prefix.family) + u16::from(prefix.family.width()) + 1 + u16::from(prefix.len)
}

/// The turn of a change.
fn turn_of(change: &Change) -> u16
    ensures { result ≡ turn_of (change_as change.now) }
{
    match change {
        Change::Add(prefix, _) => set_turn(prefix),
        Change::Replace(prefix, _) => set_turn(prefix),
        Change::Remove(prefix) => remove_turn(prefix),
    }
}

/// The prefix that a change is at.
fn place_of(change: &Change) -> Prefix
    ensures { prefix_as result ≡ place_of (change_as change.now) }
{
    match *change {
        Change::Add(prefix, _) => prefix,
        Change::Replace(prefix, _) => prefix,
        Change::Remove(prefix) => prefix,
    }
}

/// The order by turns, and of one turn by prefixes.
fn then_prefixes(turns: Ordering, a: &Prefix, b: &Prefix) -> Ordering
    ensures { result ≡ ordering_then turns (prefix_cmp (prefix_as a.now) (prefix_as b.now)) }
{
    match turns {
        Ordering::Equal => a.cmp(b),
        order => order,
    }
}

/// The order of two changes by their turns, and of one turn by their prefixes.
pub(crate) fn compare(a: &Change, b: &Change) -> Ordering
    ensures { result ≡ steady_cmp (change_as a.now) (change_as b.now) }
{
    then_prefixes(turn_of(a).cmp(&turn_of(b)), &place_of(a), &place_of(b))
}

/// The same order of the changes that add two entries.
pub(crate) fn compare_added(a: &Entry, b: &Entry) -> Ordering
    ensures { result ≡ steady_cmp (Add (prefix_as a.now.prefix) a.now.hop.0)
        (Add (prefix_as b.now.prefix) b.now.hop.0) }
{
    let turns = set_turn(&a.prefix).cmp(&set_turn(&b.prefix));
    then_prefixes(turns, &a.prefix, &b.prefix)
}
