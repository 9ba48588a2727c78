//! Plans: a plan's route is set, what is to change is listed, and room is made for it.
//!
//! Setting a route is most of what a plan costs, so it is set once if all that changes is at its own prefix, which is a node
//! then, or is taken away. A node that is made for another change would end the putting back (orig_tree): before that the route is
//! put back, and it is set again after it.

ghost use Rattle.std.specs.Prelude.{◌≡◌, IfOk, OnOk, OnErr, map, true, false, option_map};
ghost use Rattle.std.specs.Option.{ForSome};
ghost use Rattle.table_model.specs.Both.{aggregate_in};
ghost use Rattle.kept_model.specs.Between.{between};
ghost use Rattle.fib_addr.specs.Views.{prefix_as};
ghost use Rattle.fib_delta.specs.Views.{change_as};
ghost use Rattle.smalta_keep.specs.Rooms.{AreOf, HaveRoom, KeepsEntries};
ghost use Rattle.smalta_keep.specs.Routes.{HasFormer, former_place, undone_in};
ghost use Rattle.smalta_keep.specs.KnownBelow.{IsKnown};
ghost use Rattle.smalta_keep.specs.Known.{KnownAt, IsKnownToMend, AreMore, AreNoted};
ghost use Rattle.smalta_keep.specs.Answers.{IsAlikeFor};
ghost use Rattle.smalta_keep.specs.Plans.{IsBeforeAt, IsMend, IsMoved, IsRouteSet, RoutesStay, mended, repaired_table};
ghost use Rattle.smalta_keep.specs.Views.{place_in};

use crate::dirty::DirtySet;
use crate::entries::{apply_all, are_at, make_room};
use crate::held::note;
use crate::repair::{Moved, Repair};
use crate::routes::{Former, clears, former_prefix, planned_prefix, put_back_planned, set_planned};
use crate::snapshot_delta;
use crate::told::{Mend, mend_at};
use fib_addr::{Hop, Prefix};
use fib_delta::Change;
use orig_tree::Tree;
use std::alloc::{AllocError, Global};

/// What a plan is to list.
#[derive(Clone, Copy)]
pub struct Due {
    /// Whether the repair is to have the fewest changes.
    pub fewest: bool,
    /// Whether a snapshot follows it.
    pub snapshot: bool,
}

/// The changes of a repair at the prefix of the route that a plan set, and back, if these are asked for.
///
/// # Errors
///
/// Out of memory; then the route is put back.
fn mend_set(
    alloc: Global,
    tree: &mut Tree,
    dirty: &Option<Tree>,
    former: Option<Former>,
    fewest: bool,
    back: bool,
) -> Result<Mend, AllocError>
    requires former { HasFormer tree.old former }
    requires before { IsBeforeAt fewest (former_place former) tree.old }
    requires known { IsKnownToMend fewest (former_place former) tree.old dirty.now }
    ensures keeps { KeepsEntries tree.old tree.new }
    ensures still { OnOk result (tree.new ≡ tree.old) }
    ensures mend { IfOk result (IsMend tree.old.family back tree.old.entries
        (repaired_table fewest tree.old (former_place former))) }
    ensures reach { IfOk result (λ m. fewest ≡ false
        → option_map prefix_as m.reach ≡ former_place former) }
    ensures err { OnErr result (tree.new.routes ≡ undone_in former tree.old.routes) }
{
    match mend_at(alloc, tree, dirty, former_prefix(&former), fewest, back) {
        Ok(mend) => Ok(mend),
        Err(failed) => {
            put_back_planned(tree, &former);
            Err(failed)
        }
    }
}

/// Sees to it that there is room for changes, with a plan's route set. If a node may have to be made it is put back, and set
/// again.
///
/// # Errors
///
/// Out of memory; then the route is put back.
fn with_room(
    tree: &mut Tree,
    route: Option<(Prefix, Hop)>,
    former: Option<Former>,
    changes: &[Change],
) -> Result<Option<Former>, AllocError>
    requires family { ForSome route (λ r. r.0.family ≡ tree.old.family) }
    requires changes { AreOf tree.old.family (map change_as changes.now) }
    requires set { IsRouteSet route (undone_in former tree.old.routes) tree.old former }
    ensures keeps { KeepsEntries tree.old tree.new }
    ensures room { OnOk result (HaveRoom tree.new.nodes (map change_as changes.now)) }
    ensures set { IfOk result (IsRouteSet route (undone_in former tree.old.routes) tree.new) }
    ensures err { OnErr result (tree.new.routes ≡ undone_in former tree.old.routes) }
{
    if are_at(changes, former_prefix(&former)) {
        return Ok(former);
    }
    put_back_planned(tree, &former);
    make_room(tree, changes)?;
    set_planned(tree, route)
}

/// The changes of a snapshot after a repair, which is made and taken back, with a plan's route set.
///
/// # Errors
///
/// Out of memory; then the route is put back.
fn snapshot_after(
    alloc: Global,
    tree: &mut Tree,
    dirty: &Option<Tree>,
    former: Option<Former>,
    mend: &Mend,
) -> Result<Vec<Change>, AllocError>
    requires former { HasFormer tree.old former }
    requires known { KnownAt (option_map prefix_as mend.now.reach) tree.old dirty.now }
    requires mend { IsMend tree.old.family true tree.old.entries (mended mend.now tree.old.entries)
        mend.now }
    requires there { HaveRoom tree.old.nodes (map change_as mend.now.there.items) }
    requires back { HaveRoom tree.old.nodes (map change_as mend.now.back.items) }
    ensures keeps { KeepsEntries tree.old tree.new }
    ensures still { OnOk result (RoutesStay tree.old tree.new) }
    ensures changes { IfOk result (λ v. map change_as v.items ≡ between (mended mend.now tree.old.entries)
        (aggregate_in tree.old.family tree.old.routes (mended mend.now tree.old.entries))) }
    ensures family { IfOk result (λ v. AreOf tree.old.family (map change_as v.items)) }
    ensures err { OnErr result (tree.new.routes ≡ undone_in former tree.old.routes) }
{
    apply_all(tree, &mend.there);
    let changes = snapshot_delta(alloc, tree, dirty);
    apply_all(tree, &mend.back);
    match changes {
        Ok(changes) => Ok(changes),
        Err(failed) => {
            put_back_planned(tree, &former);
            Err(failed)
        }
    }
}

/// Sets a plan's route, if it has one, and returns the changes of the repair at its prefix and of the snapshot after it, if one
/// is due, with room for them. The entries stay. The prefix and what the repair changes are marked wide.
///
/// # Errors
///
/// Out of memory; then the routes are as they were.
pub fn plan_moves(
    alloc: Global,
    tree: &mut Tree,
    dirty: &mut DirtySet,
    route: Option<(Prefix, Hop)>,
    due: Due,
) -> Result<Repair, AllocError>
    requires family { ForSome route (λ r. r.0.family ≡ tree.old.family) }
    requires known { IsKnown tree.old dirty.old.tree }
    requires alike { IsAlikeFor due.fewest route tree.old }
    ensures keeps { KeepsEntries tree.old tree.new }
    ensures dirty { OnErr result (AreMore dirty.old.tree dirty.new.tree) }
    ensures marked { OnOk result (AreNoted due.snapshot due.fewest (place_in route) dirty.old.tree
        dirty.new.tree) }
    ensures set { IfOk result (λ r. IsRouteSet route tree.old.routes tree.new r.former) }
    ensures moved { IfOk result (λ r. IsMoved tree.new due.fewest (place_in route) due.snapshot r) }
    ensures err { OnErr result (tree.new.routes ≡ tree.old.routes) }
{
    // the routes stand in order
    let _family = tree.family();
    let at = planned_prefix(route);
    let cleared = clears(route);
    let former = set_planned(tree, route)?;
    let mend = mend_set(alloc, tree, &dirty.tree, former, due.fewest, due.snapshot)?;
    let former = with_room(tree, route, former, &mend.there)?;
    if !due.snapshot {
        note(dirty, at, mend.reach, due.fewest);
        let moved = Moved {
            repair: mend.there,
            snapshot: Vec::new(alloc),
        };
        return Ok(Repair {
            former,
            cleared,
            reach: mend.reach,
            due: due.snapshot,
            fewest: due.fewest,
            moved,
        });
    }
    dirty.keep(at);
    dirty.keep(mend.reach);
    let former = with_room(tree, route, former, &mend.back)?;
    let changes = snapshot_after(alloc, tree, &dirty.tree, former, &mend)?;
    let former = with_room(tree, route, former, &changes)?;
    let moved = Moved {
        repair: mend.there,
        snapshot: changes,
    };
    Ok(Repair {
        former,
        cleared,
        reach: mend.reach,
        due: due.snapshot,
        fewest: due.fewest,
        moved,
    })
}
