//! What a lost session ends.

ghost use Rattle.std.specs.Prelude.{◌≡◌, ◌||◌, map, IfOk, OnOk};
ghost use Rattle.std.specs.List.{list_any};
ghost use Rattle.std.specs.BTreeSet as set;
ghost use Rattle.std.specs.Ordering.{is_eq};
ghost use Rattle.fib_prefix.specs.Views.{peer_as, elem_as};
ghost use Rattle.route_model.specs.Events.{Down};
ghost use Rattle.route_model.specs.Choice.{elems_of};
ghost use Rattle.adj_rib_in.specs.Orders.{key_cmp};
ghost use Rattle.adj_rib_in.specs.Paths.{held_in};
ghost use Rattle.adj_rib_in.specs.Flat.{IsFlat, ShareNoKey, flat_paths, is_among, paths_over};
ghost use Rattle.route_choice.specs.Paths.{key_in};
ghost use Rattle.route_choice.specs.Walks.{key_cut};

use crate::over::{key_of, over_cuts};
use adj_rib_in::{Flat, PathAttrs, PathKey};
use fib_prefix::{Elem, Peer};
use std::alloc::{AllocError, Global};
use std::collections::{BTreeMap, BTreeSet};

/// A cut for each route of a peer, in the order of prefixes, then of path identifiers.
pub fn cuts_of(
    alloc: Global,
    flat: &Flat,
    paths: &BTreeMap<PathKey, Option<PathAttrs>>,
    peer: &Peer,
) -> Result<Vec<Elem>, AllocError>
    requires flat { IsFlat flat.now }
    requires apart { ShareNoKey (flat_paths flat.now) paths.now.entries }
    ensures { IfOk result (λ cuts. map elem_as cuts.items
        ≡ elems_of (held_in (paths_over flat.now paths.now.entries)) (Down (peer_as peer.now))) }
{
    let others = over_cuts(alloc, paths, *peer)?;
    let mut live = BTreeSet::new(alloc);
    flat.add_paths_of(peer, &mut live)?;
    add_cuts(&others, &mut live)?;
    let cuts = cuts_at(alloc, &live)?;
    Ok(cuts)
}

/// Adds the path keys of cuts.
fn add_cuts(cuts: &Vec<Elem>, paths: &mut BTreeSet<PathKey>) -> Result<(), AllocError>
    ensures { OnOk result ((s : PathKey) → is_among paths.new.keys s ≡ (is_among paths.old.keys s
        || list_any (λ e. is_eq (key_cmp (key_in e) s)) cuts.now.items)) }
{
    for cut in cuts.iter() {
        paths.insert(key_of(cut))?;
    }
    Ok(())
}

/// A cut at each path key, in their order.
fn cuts_at(alloc: Global, paths: &BTreeSet<PathKey>) -> Result<Vec<Elem>, AllocError>
    ensures cuts { IfOk result (λ cuts. cuts.items ≡ map key_cut paths.now.keys) }
    ensures ordered { set.IsOrdered key_cmp paths.now }
{
    let mut cuts = Vec::new(alloc);
    for key in paths.iter() {
        cuts.push(Elem::Cut(key.via(), key.prefix()))?;
    }
    Ok(cuts)
}
