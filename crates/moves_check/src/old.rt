//! Lookups among the old table's entries, which stand in the order of prefixes: what is within a prefix comes right after it.

ghost use Rattle.std.specs.Prelude.{◌≡◌, ◌≤◌, map, length};
ghost use Rattle.fib_addr.specs.Views.{prefix_as, entry_as};
ghost use Rattle.moves_check.specs.Places.{IsPlaceOf, stands_before};
ghost use Rattle.moves_model.specs.Demands.{old_at, none_below};
ghost use Rattle.fib_delta.specs.Views.{InPlace};

use crate::rows::is_same;
use fib_addr::{Entry, Prefix};

/// How many entries stand before the prefix, or at it if that counts.
fn before(entries: &[Entry], prefix: &Prefix, itself: bool) -> usize
    ensures bound { result ≤ length entries.now }
    ensures placed { InPlace (map entry_as entries.now)
        → IsPlaceOf (prefix_as prefix.now) itself entries.now result }
{
    entries.partition_point(
        |entry: &Entry| -> bool
            ensures { result ≡ stands_before (prefix_as prefix.entry.now) itself (prefix_as entry.now.prefix) }
        {
            let order = entry.prefix.cmp(prefix);
            order.is_lt() || (itself && order.is_eq())
        },
    )
}

/// The hop of the entry at the prefix, if there is one.
pub(crate) fn hop_at(entries: &[Entry], prefix: &Prefix) -> Option<u16>
    requires { InPlace (map entry_as entries.now) }
    ensures { result ≡ old_at (map entry_as entries.now) (prefix_as prefix.now) }
{
    let place = before(entries, prefix, false);
    match entries.get(place) {
        Some(entry) if is_same(prefix, &entry.prefix) => Some(entry.hop.0),
        _ => None,
    }
}

/// Whether no entry stands strictly within the prefix.
pub(crate) fn is_bare(entries: &[Entry], prefix: &Prefix) -> bool
    requires { InPlace (map entry_as entries.now) }
    ensures { result ≡ none_below (map entry_as entries.now) (prefix_as prefix.now) }
{
    let place = before(entries, prefix, true);
    match entries.get(place) {
        Some(entry) => !entry.prefix.is_within(prefix),
        None => true,
    }
}
