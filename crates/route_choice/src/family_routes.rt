//! The routes of a family one by one, if all candidates lie in rows: no list of them is made.

ghost use Rattle.std.specs.Prelude.{◌≡◌, ◌++◌, ◌∷◌, [], drop, map, option_map, IfSome, IfNone};
ghost use Rattle.std.specs.Option.{option_to_list};
ghost use Rattle.table_model.specs.Address.{same_family};
ghost use Rattle.fib_addr.specs.Views.{entry_as};
ghost use Rattle.adj_rib_in.specs.Paths.{Paths};
ghost use Rattle.adj_rib_in.specs.Flat.{IsFlat, IsRowPlace, ShareNoKey, flat_paths, paths_over};
ghost use Rattle.route_choice.specs.Walks.{OffersNothing, family_entries_at, row_prefixes, rows_from};

use crate::entries::number;
use adj_rib_in::{Flat, PathAttrs, PathKey};
use fib_prefix::{Entry, Family, HopTable, Prefix};
use std::collections::BTreeMap;
use std::marker::Model;

/// The routes of a family, each prefix for which a peer offers one with the number of the next hop of the chosen one, in the order of
/// prefixes: they are chosen as they come. Contracts see those that are left.
#[derive(Drop)]
pub struct FamilyRoutes<'a> {
    flat: &'a Flat,
    // where nothing is offered
    paths: &'a BTreeMap<PathKey, Option<PathAttrs>>,
    hops: &'a HopTable,
    family: Family,
    // the next route, if any is left
    next: Option<Entry>,
    // the row after its own
    row: usize,
}

impl<'a> Model for FamilyRoutes<'a> {
    ghost use Rattle.std.specs.Prelude.{◌≡◌, ◌++◌, [], None, option_map};
    ghost use Rattle.std.specs.Option.{option_to_list};
    ghost use Rattle.table_model.specs.Entries.{Entries};
    ghost use Rattle.fib_addr.specs.Views.{entry_as};
    ghost use Rattle.adj_rib_in.specs.Flat.{IsFlat, ShareNoKey, flat_paths, paths_over};
    ghost use Rattle.route_choice.specs.Walks.{OffersNothing, family_entries_at, rows_from};

    ghost Value = { Entries };

    ghost view = { λ r. option_to_list (option_map entry_as r.next) ++ family_entries_at r.family r.hops.now.list (paths_over r.flat.now r.paths.now.entries) (rows_from r.row r.flat.now.rows.items) };

    ghost invariant = { λ r. IsFlat r.flat.now × ShareNoKey (flat_paths r.flat.now) r.paths.now.entries × OffersNothing r.paths.now.entries × (r.next ≡ None → family_entries_at r.family r.hops.now.list (paths_over r.flat.now r.paths.now.entries) (rows_from r.row r.flat.now.rows.items) ≡ []) };
}

/// A route, and the row after its own.
#[derive(Clone, Copy)]
struct Found {
    route: Option<Entry>,
    row: usize,
}

/// Whether a prefix is of the family.
fn is_of(prefix: &Prefix, family: Family) -> bool
    ensures { result ≡ same_family family prefix.now.family }
{
    matches!(
        (family, prefix.family),
        (Family::V4, Family::V4) | (Family::V6, Family::V6)
    )
}

/// The route of the prefix of a row, if it has one and is of the family.
fn route_in(
    flat: &Flat,
    hops: &HopTable,
    family: Family,
    row: usize,
    prefix: &Prefix,
) -> Option<Entry>
    requires flat { IsFlat flat.now }
    requires row { IsRowPlace flat.now.rows.items prefix.now row }
    ensures { (over : Paths) → ShareNoKey (flat_paths flat.now) over → OffersNothing over
        → option_to_list (option_map entry_as result) ≡ family_entries_at family hops.now.list
        (paths_over flat.now over) (prefix.now ∷ []) }
{
    if !is_of(prefix, family) {
        return None;
    }
    match flat.best_in(row, prefix, None, None) {
        Some(best) => {
            let hop = number(hops, &best.attrs.hop());
            Some(Entry {
                prefix: *prefix,
                hop,
            })
        }
        None => None,
    }
}

/// The first route of the family from a row on.
fn route_from(flat: &Flat, hops: &HopTable, family: Family, from: usize) -> Found
    requires { IsFlat flat.now }
    ensures left { (over : Paths) → ShareNoKey (flat_paths flat.now) over → OffersNothing over
        → family_entries_at family hops.now.list (paths_over flat.now over)
        (rows_from from flat.now.rows.items) ≡ option_to_list (option_map entry_as result.route)
        ++ family_entries_at family hops.now.list (paths_over flat.now over)
        (rows_from result.row flat.now.rows.items) }
    ensures none { IfNone result.route ((over : Paths) → family_entries_at family hops.now.list
        (paths_over flat.now over) (rows_from result.row flat.now.rows.items) ≡ []) }
{
    for row in from..flat.row_count() {
        if let Some(prefix) = flat.prefix_of(row) {
            let route = route_in(flat, hops, family, row, &prefix);
            if route.is_some() {
                return Found {
                    route,
                    row: row + 1,
                };
            }
        }
    }
    Found {
        route: None,
        row: flat.row_count(),
    }
}

impl<'a> FamilyRoutes<'a> {
    /// The routes of a family, if all that is offered is offered in rows.
    pub(crate) fn new(
        flat: &'a Flat,
        paths: &'a BTreeMap<PathKey, Option<PathAttrs>>,
        hops: &'a HopTable,
        family: Family,
    ) -> FamilyRoutes<'a>
        requires flat { IsFlat flat.now }
        requires apart { ShareNoKey (flat_paths flat.now) paths.now.entries }
        requires none { OffersNothing paths.now.entries }
        ensures { result ≡ family_entries_at family hops.now.list (paths_over flat.now paths.now.entries)
            (row_prefixes flat.now.rows.items) }
    {
        let found = route_from(flat, hops, family, 0);
        FamilyRoutes {
            flat,
            paths,
            hops,
            family,
            next: found.route,
            row: found.row,
        }
    }

    /// The next route, which is still left.
    pub fn first(&self) -> Option<Entry>
        ensures some { IfSome result (λ e. self.now ≡ entry_as e ∷ drop 1 self.now) }
        ensures none { IfNone result (self.now ≡ []) }
    {
        self.next
    }

    /// Passes the next route, if any is left.
    pub fn pass(&mut self)
        ensures { self.new ≡ drop 1 self.old }
    {
        if self.next.is_none() {
            return;
        }
        let found = route_from(self.flat, self.hops, self.family, self.row);
        self.next = found.route;
        self.row = found.row;
    }
}
