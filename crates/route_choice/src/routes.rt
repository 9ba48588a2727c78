//! All routes: each prefix with the next hop of its chosen one.

ghost use Rattle.std.specs.Prelude.{◌≡◌, ◌++◌, ◌∷◌, [], map, IfOk, None, OnOk};
ghost use Rattle.fib_addr.specs.Views.{route_as};
ghost use Rattle.route_model.specs.Choice.{routes_of as model_routes};
ghost use Rattle.adj_rib_in.specs.Paths.{Paths, held_in};
ghost use Rattle.adj_rib_in.specs.Bests.{IsBestHeld};
ghost use Rattle.adj_rib_in.specs.Flat.{IsFlat, ShareNoKey, flat_paths, paths_over};
ghost use Rattle.route_choice.specs.Paths.{IsIndexed};
ghost use Rattle.route_choice.specs.Walks.{routes_at, row_prefixes};

use crate::both::{best_of, best_of_row};
use crate::prefixes::all_prefixes;
use adj_rib_in::{Candidate, Flat, PathAttrs, PathKey, Rank};
use fib_prefix::{Addr, Prefix};
use std::alloc::{AllocError, Global};
use std::collections::{BTreeMap, BTreeSet};

/// Each prefix for which a peer offers a route, with the next hop of the chosen one, in the order of prefixes.
pub fn routes_of(
    alloc: Global,
    flat: &Flat,
    paths: &BTreeMap<PathKey, Option<PathAttrs>>,
    ranks: &BTreeSet<Rank>,
) -> Result<Vec<(Prefix, Addr)>, AllocError>
    requires flat { IsFlat flat.now }
    requires apart { ShareNoKey (flat_paths flat.now) paths.now.entries }
    requires indexed { IsIndexed paths.now.entries ranks.now.keys }
    ensures { IfOk result (λ routes. map route_as routes.items
        ≡ model_routes (held_in (paths_over flat.now paths.now.entries))) }
{
    if ranks.is_empty() {
        let routes = routes_of_rows(alloc, flat, paths, ranks)?;
        return Ok(routes);
    }
    let prefixes = all_prefixes(alloc, flat, ranks)?;
    let routes = routes_of_prefixes(alloc, flat, paths, ranks, &prefixes)?;
    Ok(routes)
}

/// The routes of the prefixes that have a row.
fn routes_of_rows(
    alloc: Global,
    flat: &Flat,
    paths: &BTreeMap<PathKey, Option<PathAttrs>>,
    ranks: &BTreeSet<Rank>,
) -> Result<Vec<(Prefix, Addr)>, AllocError>
    requires flat { IsFlat flat.now }
    requires apart { ShareNoKey (flat_paths flat.now) paths.now.entries }
    requires indexed { IsIndexed paths.now.entries ranks.now.keys }
    ensures { IfOk result (λ routes. map route_as routes.items
        ≡ routes_at (paths_over flat.now paths.now.entries) (row_prefixes flat.now.rows.items)) }
{
    let mut routes = Vec::new(alloc);
    for row in 0..flat.row_count() {
        if let Some(prefix) = flat.prefix_of(row) {
            let best = best_of_row(flat, paths, ranks, row, &prefix);
            push_route(&prefix, best, &mut routes)?;
        }
    }
    Ok(routes)
}

/// The routes of these prefixes.
fn routes_of_prefixes(
    alloc: Global,
    flat: &Flat,
    paths: &BTreeMap<PathKey, Option<PathAttrs>>,
    ranks: &BTreeSet<Rank>,
    prefixes: &[Prefix],
) -> Result<Vec<(Prefix, Addr)>, AllocError>
    requires flat { IsFlat flat.now }
    requires apart { ShareNoKey (flat_paths flat.now) paths.now.entries }
    requires indexed { IsIndexed paths.now.entries ranks.now.keys }
    ensures { IfOk result (λ routes. map route_as routes.items
        ≡ routes_at (paths_over flat.now paths.now.entries) prefixes.now) }
{
    let mut routes = Vec::new(alloc);
    for prefix in prefixes {
        let best = best_of(flat, paths, ranks, prefix, None);
        push_route(prefix, best, &mut routes)?;
    }
    Ok(routes)
}

/// Adds the route of a prefix, if it has one, by its best candidate.
fn push_route(
    prefix: &Prefix,
    best: Option<Candidate>,
    routes: &mut Vec<(Prefix, Addr)>,
) -> Result<(), AllocError>
    ensures { (paths : Paths) → IsBestHeld paths None prefix.now best
        → OnOk result (map route_as routes.new.items ≡ map route_as routes.old.items
        ++ routes_at paths (prefix.now ∷ [])) }
{
    if let Some(best) = best {
        routes.push((*prefix, best.attrs.hop()))?;
    }
    Ok(())
}
