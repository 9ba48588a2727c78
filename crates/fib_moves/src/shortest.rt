//! The shortest list of changes.

ghost use Rattle.std.specs.Prelude.{◌≡◌, ◌+◌, length, map, IfOk};
ghost use Rattle.table_model.specs.Width.{width};
ghost use Rattle.table_model.specs.Table.{IsTable};
ghost use Rattle.table_model.specs.Entries.{of_family};
ghost use Rattle.cert_model.specs.Rows.{whole_prefix};
ghost use Rattle.kept_model.specs.Between.{between};
ghost use Rattle.fib_addr.specs.Views.{prefix_as};
ghost use Rattle.fib_delta.specs.Views.{change_as};
ghost use Rattle.cert_model.specs.Views.{row_as};
ghost use Rattle.orig_tree.specs.Spots.{spot_answers};
ghost use Rattle.orig_tree.specs.Views.{InPlace};
ghost use Rattle.moves_model.specs.Nearest.{near_bound};
ghost use Rattle.moves_model.specs.Sets.{near_set, near_k};
ghost use Rattle.moves_model.specs.Demands.{change_bound};
ghost use Rattle.moves_model.specs.Shortest.{AreProvedShortest, AreShortest};
ghost use Rattle.moves_model.specs.Rows.{near_in, near_rows};
ghost use Rattle.fib_moves.specs.Needs.{Knows};
ghost use Rattle.fib_moves.specs.Passes.{ListsChanges};

use crate::answer::Near;
use crate::down::{Differing, list_differing};
use crate::hops::may_inherit;
use crate::needs::{RegionNeeds, changes_of, climb, hops_of};
use crate::one_more_if;
use crate::place::Place;
use crate::rows::{list_rows, push_row};
use cert_model::Row;
use fib_addr::{Hop, Prefix};
use fib_delta::{Change, between};
use orig_tree::{Tree, TreeRegion};
use std::alloc::{AllocError, Global};

/// How many changes the whole space needs, which inherits no hop.
fn bound_of(
    alloc: Global,
    region: &TreeRegion<'_>,
    needs: &Option<Box<RegionNeeds>>,
) -> Result<u64, AllocError>
    requires { Knows region.now.bits (spot_answers region.now) region.now.entries needs.now }
    ensures { IfOk result (λ n. n ≡ change_bound
        (near_set region.now.bits (spot_answers region.now) region.now.entries)
        (near_k region.now.bits (spot_answers region.now) region.now.entries)) }
{
    let hops = may_inherit(alloc, region, hops_of(needs))?;
    let k = changes_of(region, needs)?;
    one_more_if(!hops.contains(Hop::NONE.0), k)
}

/// The changes of the whole space.
fn list_changes(
    alloc: Global,
    region: &TreeRegion<'_>,
    needs: &Option<Box<RegionNeeds>>,
    whole: Prefix,
) -> Result<Vec<Change>, AllocError>
    requires whole { prefix_as whole ≡ whole_prefix whole.family }
    requires bits { region.now.bits + whole.len ≡ width whole.family }
    requires table { IsTable region.now.bits region.now.entries }
    requires knows { Knows region.now.bits (spot_answers region.now) region.now.entries needs.now }
    ensures { IfOk result (λ v. ListsChanges whole.family region.now (map change_as v.items)) }
{
    let mut out = Differing {
        had: Vec::new(alloc),
        gets: Vec::new(alloc),
    };
    list_differing(region, needs, whole, Hop::NONE.0, &mut out)?;
    between(alloc, &out.had, &out.gets)
}

/// The shortest list of changes that makes a tree's entries answer as its routes do, with the rows that prove it shortest. It costs
/// the tree's nodes, with their sets of hops.
///
/// # Errors
///
/// Out of memory.
pub fn near(alloc: Global, tree: &Tree) -> Result<Near, AllocError>
    ensures order { InPlace tree.now.entries × InPlace tree.now.routes }
    ensures changes { IfOk result (λ n. map change_as n.changes.items ≡ between tree.now.entries
        (near_in tree.now.family tree.now.routes tree.now.entries)) }
    ensures bound { IfOk result (λ n. n.bound ≡ near_bound (width tree.now.family)
        (of_family tree.now.family tree.now.routes) (of_family tree.now.family tree.now.entries)) }
    ensures rows { IfOk result (λ n. map row_as n.rows.items
        ≡ near_rows tree.now.family tree.now.routes tree.now.entries) }
    ensures count { IfOk result (λ n. length n.changes.items ≡ n.bound) }
    ensures shortest { IfOk result (λ n. AreShortest tree.now.family tree.now.routes tree.now.entries
        (map change_as n.changes.items)) }
    ensures proved { IfOk result (λ n. AreProvedShortest tree.now.family tree.now.routes
        tree.now.entries (map change_as n.changes.items) (map row_as n.rows.items)) }
{
    let whole = Prefix::whole(tree.family());
    let place = Place {
        region: tree.region(&whole),
        node: Some(tree.root()),
    };
    let needs = climb(alloc, &place, &whole)?;
    let bound = bound_of(alloc, &place.region, &needs)?;
    let changes = list_changes(alloc, &place.region, &needs, whole)?;
    let mut rows = Vec::new(alloc);
    list_rows(&place.region, &needs, &whole, &mut rows)?;
    push_row(Row::Bound(whole.family, bound), &mut rows)?;
    Ok(Near {
        changes,
        bound,
        rows,
    })
}
