//! All routes as entries: each prefix with the number of the next hop of its chosen one.

ghost use Rattle.std.specs.Prelude.{◌≡◌, ◌++◌, ◌∷◌, [], map, IfOk, None, OnOk};
ghost use Rattle.fib_addr.specs.Views.{addr_as, entry_as};
ghost use Rattle.kept_model.specs.Feed.{entries_of as model_entries, number_in};
ghost use Rattle.adj_rib_in.specs.Paths.{Paths, held_in};
ghost use Rattle.adj_rib_in.specs.Bests.{IsBestHeld};
ghost use Rattle.adj_rib_in.specs.Flat.{IsFlat, ShareNoKey, flat_paths, paths_over};
ghost use Rattle.route_choice.specs.Paths.{IsIndexed};
ghost use Rattle.route_choice.specs.Walks.{OffersNothing, entries_at, row_prefixes};

use crate::both::best_of;
use crate::prefixes::all_prefixes;
use adj_rib_in::{Candidate, Flat, PathAttrs, PathKey, Rank};
use fib_prefix::{Addr, Entry, Hop, HopTable, Prefix};
use std::alloc::{AllocError, Global};
use std::collections::{BTreeMap, BTreeSet};

/// Each prefix for which a peer offers a route, with the number of the next hop of the chosen one, in the order of prefixes.
pub fn entries_of(
    alloc: Global,
    flat: &Flat,
    paths: &BTreeMap<PathKey, Option<PathAttrs>>,
    ranks: &BTreeSet<Rank>,
    hops: &HopTable,
) -> Result<Vec<Entry>, AllocError>
    requires flat { IsFlat flat.now }
    requires apart { ShareNoKey (flat_paths flat.now) paths.now.entries }
    requires indexed { IsIndexed paths.now.entries ranks.now.keys }
    ensures { IfOk result (λ entries. map entry_as entries.items
        ≡ model_entries hops.now.list (held_in (paths_over flat.now paths.now.entries))) }
{
    if ranks.is_empty() {
        let entries = entries_of_rows(alloc, flat, hops)?;
        return Ok(entries);
    }
    let prefixes = all_prefixes(alloc, flat, ranks)?;
    let entries = entries_of_prefixes(alloc, flat, paths, ranks, hops, &prefixes)?;
    Ok(entries)
}

/// The entries of the prefixes that have a row, by the base alone.
fn entries_of_rows(alloc: Global, flat: &Flat, hops: &HopTable) -> Result<Vec<Entry>, AllocError>
    requires { IsFlat flat.now }
    ensures { IfOk result (λ entries. (over : Paths) → ShareNoKey (flat_paths flat.now) over
        → OffersNothing over → map entry_as entries.items
        ≡ entries_at hops.now.list (paths_over flat.now over) (row_prefixes flat.now.rows.items)) }
{
    let mut entries = Vec::with_capacity(alloc, flat.row_count())?;
    for row in 0..flat.row_count() {
        if let Some(prefix) = flat.prefix_of(row) {
            let best = flat.best_in(row, &prefix, None, None);
            push_entry(hops, &prefix, best, &mut entries)?;
        }
    }
    Ok(entries)
}

/// The entries of these prefixes.
fn entries_of_prefixes(
    alloc: Global,
    flat: &Flat,
    paths: &BTreeMap<PathKey, Option<PathAttrs>>,
    ranks: &BTreeSet<Rank>,
    hops: &HopTable,
    prefixes: &[Prefix],
) -> Result<Vec<Entry>, AllocError>
    requires flat { IsFlat flat.now }
    requires apart { ShareNoKey (flat_paths flat.now) paths.now.entries }
    requires indexed { IsIndexed paths.now.entries ranks.now.keys }
    ensures { IfOk result (λ entries. map entry_as entries.items
        ≡ entries_at hops.now.list (paths_over flat.now paths.now.entries) prefixes.now) }
{
    let mut entries = Vec::with_capacity(alloc, prefixes.len())?;
    for prefix in prefixes {
        let best = best_of(flat, paths, ranks, prefix, None);
        push_entry(hops, prefix, best, &mut entries)?;
    }
    Ok(entries)
}

/// Adds the entry of a prefix, if it has a route, by its best candidate.
fn push_entry(
    hops: &HopTable,
    prefix: &Prefix,
    best: Option<Candidate>,
    entries: &mut Vec<Entry>,
) -> Result<(), AllocError>
    ensures { (paths : Paths) → IsBestHeld paths None prefix.now best
        → OnOk result (map entry_as entries.new.items ≡ map entry_as entries.old.items
        ++ entries_at hops.now.list paths (prefix.now ∷ [])) }
{
    if let Some(best) = best {
        let hop = number(hops, &best.attrs.hop());
        entries.push(Entry {
            prefix: *prefix,
            hop,
        })?;
    }
    Ok(())
}

/// The number of a hop, none's if it has no number.
pub(crate) fn number(hops: &HopTable, hop: &Addr) -> Hop
    ensures { result.0 ≡ number_in hops.now.list (addr_as hop.now) }
{
    hops.find(hop).unwrap_or(Hop::NONE)
}
