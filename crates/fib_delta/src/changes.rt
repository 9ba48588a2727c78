//! The changes between two tables.

ghost use Rattle.std.specs.Prelude.{◌≡◌, ◌∷◌, ◌++◌, [], map, true, IfOk, OnOk, IsTrue};
ghost use Rattle.std.specs.List.Sorted.{IsStrictlySortedBy};
ghost use Rattle.std.specs.Map.{keys_of};
ghost use Rattle.table_model.specs.Order.{prefix_cmp};
ghost use Rattle.table_model.specs.Entries.{in_order};
ghost use Rattle.kept_model.specs.Between.{AreEntries, change_at, between};
ghost use Rattle.fib_addr.specs.Views.{prefix_as, entry_as};
ghost use Rattle.fib_delta.specs.Views.{change_as};
ghost use Rattle.fib_delta.specs.Order.{ComesAfter};

use crate::change::Change;
use crate::table::Table;
use fib_addr::{Entry, Hop, Prefix};
use std::alloc::{AllocError, Global};
use std::cmp::Ordering;

/// Whether a prefix comes after the last one, if there is one.
fn comes_after(prefix: &Prefix, last: Option<Prefix>) -> bool
    ensures { IsTrue result → ComesAfter prefix.now last }
{
    match last {
        None => true,
        Some(last) => matches!(last.cmp(prefix), Ordering::Less),
    }
}

/// Whether the entries stand in the order of their prefixes, each prefix once.
fn is_in_order(entries: &[Entry]) -> bool
    ensures { IsTrue result → IsStrictlySortedBy prefix_cmp (keys_of (map entry_as entries.now)) }
{
    let mut last = None;
    for entry in entries {
        if !comes_after(&entry.prefix, last) {
            return false;
        }
        last = Some(entry.prefix);
    }
    true
}

/// The entries in the order of their prefixes.
fn put_in_order(alloc: Global, entries: &[Entry]) -> Result<Vec<Entry>, AllocError>
    ensures { IfOk result (λ v. map entry_as v.items ≡ in_order (map entry_as entries.now)) }
{
    let mut table = Table::new(alloc);
    for entry in entries {
        table.put(entry)?;
    }
    table.entries()
}

/// Adds the change at a prefix that both tables have, if their hops differ.
fn push_replaced(
    prefix: Prefix,
    old: Hop,
    new: Hop,
    out: &mut Vec<Change>,
) -> Result<(), AllocError>
    ensures { OnOk result (map change_as out.new.items ≡ map change_as out.old.items ++ change_at (prefix_as prefix) (Some old.0) (Some new.0)) }
{
    if old != new {
        out.push(Change::Replace(prefix, new))?;
    }
    Ok(())
}

/// Adds the changes that remove the entries.
fn push_removed(old: &[Entry], out: &mut Vec<Change>) -> Result<(), AllocError>
    requires { IsStrictlySortedBy prefix_cmp (keys_of (map entry_as old.now)) }
    ensures { OnOk result (map change_as out.new.items ≡ map change_as out.old.items ++ between (map entry_as old.now) []) }
{
    for entry in old {
        out.push(Change::Remove(entry.prefix))?;
    }
    Ok(())
}

/// Adds the changes that add the entries.
fn push_added(new: &[Entry], out: &mut Vec<Change>) -> Result<(), AllocError>
    requires { IsStrictlySortedBy prefix_cmp (keys_of (map entry_as new.now)) }
    ensures { OnOk result (map change_as out.new.items ≡ map change_as out.old.items ++ between [] (map entry_as new.now)) }
{
    for entry in new {
        out.push(Change::Add(entry.prefix, entry.hop))?;
    }
    Ok(())
}

/// The changes between two tables in order, by one merge.
fn merge(alloc: Global, old: &[Entry], new: &[Entry]) -> Result<Vec<Change>, AllocError>
    requires old { IsStrictlySortedBy prefix_cmp (keys_of (map entry_as old.now)) }
    requires new { IsStrictlySortedBy prefix_cmp (keys_of (map entry_as new.now)) }
    ensures { IfOk result (λ v. map change_as v.items ≡ between (map entry_as old.now) (map entry_as new.now)) }
{
    let mut changes = Vec::new(alloc);
    let mut i = 0;
    let mut j = 0;
    while i < old.len() && j < new.len() {
        let from = old[i];
        let to = new[j];
        match from.prefix.cmp(&to.prefix) {
            Ordering::Less => {
                changes.push(Change::Remove(from.prefix))?;
                i += 1;
            }
            Ordering::Greater => {
                changes.push(Change::Add(to.prefix, to.hop))?;
                j += 1;
            }
            Ordering::Equal => {
                push_replaced(from.prefix, from.hop, to.hop, &mut changes)?;
                i += 1;
                j += 1;
            }
        }
    }
    push_removed(&old[i..], &mut changes)?;
    push_added(&new[j..], &mut changes)?;
    Ok(changes)
}

/// The changes between two tables: one for each prefix at which they differ, in the order of prefixes. It costs their lengths
/// if both stand in that order; else each is put in order first.
///
/// # Errors
///
/// Out of memory.
pub fn between(alloc: Global, old: &[Entry], new: &[Entry]) -> Result<Vec<Change>, AllocError>
    requires old { AreEntries (map entry_as old.now) }
    requires new { AreEntries (map entry_as new.now) }
    ensures { IfOk result (λ v. map change_as v.items ≡ between (map entry_as old.now) (map entry_as new.now)) }
{
    if is_in_order(old) && is_in_order(new) {
        return merge(alloc, old, new);
    }
    merge(
        alloc,
        &put_in_order(alloc, old)?,
        &put_in_order(alloc, new)?,
    )
}
