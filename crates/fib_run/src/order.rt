//! The order in which the router gets the changes of an event: that of prefixes, or steady order, in which no packet goes astray
//! while it makes them one by one.

ghost use Rattle.std.specs.Prelude.{◌≡◌, ◌≤◌, ◌++◌, length, map, IfOk};
ghost use Rattle.std.specs.List.Sorted.{IsStrictlySortedBy};
ghost use Rattle.std.specs.Map.{keys_of};
ghost use Rattle.table_model.specs.Order.{prefix_cmp};
ghost use Rattle.table_model.specs.Entries.{Entries};
ghost use Rattle.table_model.specs.Changes.{additions};
ghost use Rattle.kept_model.specs.Between.{between};
ghost use Rattle.kept_model.specs.Told.{steady_if};
ghost use Rattle.fib_delta.specs.Views.{change_as};

use fib_delta::{Change, put_entries_in_steady_order, put_event_in_steady_order};
use fib_engine::PackedTable;
use std::alloc::{AllocError, Global};

/// Puts an event's changes in the order in which they are written: the first `first` ones, which are those of its first step, and
/// then the others, which are those of the snapshot that follows it, each in itself. Both stand in the order of prefixes.
pub fn order_event(changes: &mut [Change], first: usize, steady: bool)
    requires { first ≤ length changes.old }
    ensures same { length changes.new ≡ length changes.old }
    ensures told { (T U V : Entries) → map change_as changes.old ≡ between T U ++ between U V →
        length (between T U) ≡ first →
        map change_as changes.new
        ≡ steady_if steady (between T U) ++ steady_if steady (between U V) }
{
    if steady {
        put_event_in_steady_order(changes, first);
    }
}

/// The entries that a load adds, in the order in which they are written. They stand in the order of prefixes; only for steady
/// order is a list of them made.
///
/// # Errors
///
/// Out of memory.
pub fn order_load(
    alloc: Global,
    entries: PackedTable,
    steady: bool,
) -> Result<PackedTable, AllocError>
    ensures { IfOk result (λ t. IsStrictlySortedBy prefix_cmp (keys_of entries) →
        additions t ≡ steady_if steady (additions entries)) }
{
    if !steady {
        return Ok(entries);
    }
    let mut list = Vec::new(alloc);
    entries.emit(&mut list)?;
    drop(entries);
    put_entries_in_steady_order(&mut list);
    let packed = PackedTable::of(alloc, &list)?;
    Ok(packed)
}
