//! The sort.

ghost use Rattle.std.specs.Prelude.{◌≡◌, ◌≤◌, ◌++◌, List, length, map};
ghost use Rattle.std.specs.List.Sorted.{IsPermutation, IsStrictlySortedBy};
ghost use Rattle.std.specs.Map.{keys_of};
ghost use Rattle.table_model.specs.Order.{prefix_cmp};
ghost use Rattle.table_model.specs.Entries.{Entries, in_order};
ghost use Rattle.table_model.specs.Changes.{Change as model_change, additions};
ghost use Rattle.kept_model.specs.Between.{AreEntries, between, place_of};
ghost use Rattle.kept_model.specs.Steady.{LeadSteadily, in_steady_order};
ghost use Rattle.fib_addr.specs.Views.{entry_as};
ghost use Rattle.fib_delta.specs.Views.{change_as};

use crate::Change;
use crate::turns::{compare, compare_added};
use fib_addr::Entry;

/// Puts changes that stand in the order of prefixes, one at each prefix at most, in steady order. Those between two tables lead
/// from the first to the second then without sending a packet astray. It takes no memory.
pub fn put_in_steady_order(changes: &mut [Change])
    ensures same { IsPermutation changes.old changes.new }
    ensures steady { IsStrictlySortedBy prefix_cmp (map place_of (map change_as changes.old))
        → map change_as changes.new ≡ in_steady_order (map change_as changes.old) }
    ensures leads { (T U : Entries) → AreEntries T → AreEntries U →
        map change_as changes.old ≡ between T U →
        LeadSteadily (map change_as changes.new) (in_order T) (in_order U) }
{
    changes.sort_unstable_by(|a, b| compare(a, b));
}

/// Puts an event's changes in steady order: the first `repaired` ones, which are those of its repair, and then the others, which
/// are those of the snapshot that follows it, each in itself. Both stand in the order of prefixes. It takes no memory.
pub fn put_event_in_steady_order(changes: &mut [Change], repaired: usize)
    requires { repaired ≤ length changes.old }
    ensures same { length changes.new ≡ length changes.old }
    ensures steady { (repair snapshot : List model_change) →
        map change_as changes.old ≡ repair ++ snapshot → length repair ≡ repaired →
        IsStrictlySortedBy prefix_cmp (map place_of repair) →
        IsStrictlySortedBy prefix_cmp (map place_of snapshot) →
        map change_as changes.new ≡ in_steady_order repair ++ in_steady_order snapshot }
{
    let (repair, snapshot) = changes.split_at_mut(repaired);
    put_in_steady_order(repair);
    put_in_steady_order(snapshot);
}

/// Puts entries that stand in the order of prefixes in the order in which they are added steadily, from the longest prefix of
/// each family to its shortest. It takes no memory.
pub fn put_entries_in_steady_order(entries: &mut [Entry])
    ensures same { IsPermutation entries.old entries.new }
    ensures steady { IsStrictlySortedBy prefix_cmp (keys_of (map entry_as entries.old))
        → additions (map entry_as entries.new)
        ≡ in_steady_order (additions (map entry_as entries.old)) }
{
    entries.sort_unstable_by(|a, b| compare_added(a, b));
}
