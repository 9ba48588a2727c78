//! Prefixes that stand twice.
//!
//! Printed lists stand in the order of prefixes, in which one look at neighbours shows that no prefix stands twice. Only a list
//! that doesn't is put into a set.

ghost use Rattle.std.specs.Prelude.{◌≡◌, map, option_map, true, IfOk};
ghost use Rattle.std.specs.List.Sorted.{IsStrictlySortedBy};
ghost use Rattle.std.specs.Map.{keys_of};
ghost use Rattle.table_model.specs.Order.{prefix_cmp};
ghost use Rattle.cert_model.specs.Verdict.{twice};
ghost use Rattle.fib_addr.specs.Views.{entry_as, prefix_as};

use fib_addr::{Entry, Prefix};
use std::alloc::{AllocError, Global};
use std::collections::BTreeSet;

/// Whether each prefix stands before those after it.
fn are_in_order(entries: &[Entry]) -> bool
    ensures { result ≡ true → IsStrictlySortedBy prefix_cmp (keys_of (map entry_as entries.now)) }
{
    for i in 1..entries.len() {
        if entries[i - 1].prefix.cmp(&entries[i].prefix).is_ge() {
            return false;
        }
    }
    true
}

/// The first prefix of a list in any order that stands again later.
fn first_again(alloc: Global, entries: &[Entry]) -> Result<Option<Prefix>, AllocError>
    ensures { IfOk result (λ p. option_map prefix_as p ≡ twice (map entry_as entries.now)) }
{
    let mut later = BTreeSet::new(alloc);
    let mut first = None;
    let mut i = entries.len();
    while i > 0 {
        i -= 1;
        let prefix = entries[i].prefix;
        if !later.insert(prefix)? {
            first = Some(prefix);
        }
    }
    Ok(first)
}

/// The first prefix that stands again later in the list. It costs the list's length if that stands in the order of prefixes, else
/// n log n.
///
/// # Errors
///
/// Out of memory.
pub fn first_twice(alloc: Global, entries: &[Entry]) -> Result<Option<Prefix>, AllocError>
    ensures { IfOk result (λ p. option_map prefix_as p ≡ twice (map entry_as entries.now)) }
{
    if are_in_order(entries) {
        return Ok(None);
    }
    first_again(alloc, entries)
}
