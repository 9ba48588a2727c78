//! The pass of a snapshot, and that of a repair.
//!
//! It goes down the tree as `ortc`'s downward pass does, and lists the entries that the table has and would get at each prefix
//! where these differ. It leaves out a region that is off the dirty prefixes, gets from the routes what it got, and inherits the hop that it
//! inherits in the table.

ghost use Rattle.std.specs.Prelude.{◌≡◌, ◌≢◌, ◌+◌, map, IfOk, OnOk};
ghost use Rattle.table_model.specs.Both.{aggregate_in};
ghost use Rattle.std.specs.List.{AllByRecursion};
ghost use Rattle.kept_model.specs.Between.{between, place_of};
ghost use Rattle.fib_delta.specs.Views.{change_as};
ghost use Rattle.table_model.specs.Width.{width};
ghost use Rattle.table_model.specs.Table.{inherit};
ghost use Rattle.kept_model.specs.Parts.{BothOrNeither};
ghost use Rattle.fib_addr.specs.Views.{prefix_as};
ghost use Rattle.orig_tree.specs.Views.{InPlace};
ghost use Rattle.smalta_keep.specs.KnownBelow.{IsKnown, IsKnownBefore};
ghost use Rattle.smalta_keep.specs.Places.{IsPassPlace, IsPassHalf};
ghost use Rattle.smalta_keep.specs.Passes.{IsPass, IsHalfPass, IsRootOf, AreWhole, IsRepair};

use crate::place::{Place, Rerouted, seek, walk_to};
use fib_addr::{Entry, Hop, Prefix, push_entry};
use fib_delta::{Change, between};
use orig_tree::{NodeRef, Tree, path_bits};
use ortc::own_hop;
use std::alloc::{AllocError, Global};

/// The hops that a region inherits from the table's entries and from those that it would get.
#[derive(Clone, Copy)]
struct Inherited {
    had: u16,
    gets: u16,
}

/// The entries of two tables where these differ.
#[derive(Drop)]
pub struct Differing {
    /// Those that the table has.
    pub had: Vec<Entry>,
    /// Those that it would get.
    pub gets: Vec<Entry>,
}

/// Both hops if they differ, else none.
fn if_differing(old: Option<u16>, new: Option<u16>) -> (Option<u16>, Option<u16>)
    ensures { BothOrNeither old new result.0 result.1 }
{
    if old == new { (None, None) } else { (old, new) }
}

/// What is inherited from a label, or without one from above.
fn below(label: Option<u16>, inherited: u16) -> u16
    ensures { result ≡ inherit label inherited }
{
    label.unwrap_or(inherited)
}

/// The entries of the region of a prefix where they differ, after those that there are.
#[cycle(list_differing)]
fn list_differing(
    place: &Place<'_>,
    prefix: Prefix,
    inherited: Inherited,
    out: &mut Differing,
) -> Result<(), AllocError>
    requires bits { place.now.region.bits + prefix.len ≡ width prefix.family }
    requires place { IsPassPlace place.now inherited.had }
    ensures { OnOk result (IsPass (prefix_as prefix) place.now.region inherited.gets out.old out.new) }
{
    if inherited.had == inherited.gets && place.is_clear() {
        return Ok(());
    }
    let had = place.region.entry();
    let gets = own_hop(&place.region, inherited.gets);
    let told = if_differing(had, gets);
    push_entry(prefix, told.0, &mut out.had)?;
    push_entry(prefix, told.1, &mut out.gets)?;
    if place.is_end(prefix) {
        return Ok(());
    }
    let inherited = Inherited {
        had: below(had, inherited.had),
        gets: below(gets, inherited.gets),
    };
    list_half(place, false, prefix, inherited, out)?;
    list_half(place, true, prefix, inherited, out)?;
    Ok(())
}

/// The same of one half of the region, with what the half inherits. A half that is off the dirty prefixes isn't looked at.
#[cycle(list_differing)]
#[inline(always)]
fn list_half(
    place: &Place<'_>,
    bit: bool,
    prefix: Prefix,
    inherited: Inherited,
    out: &mut Differing,
) -> Result<(), AllocError>
    requires bits { place.now.region.bits + prefix.len ≡ width prefix.family }
    requires more { place.now.region.bits ≢ 0 }
    requires place { IsPassHalf place.now inherited.had }
    ensures { OnOk result (IsHalfPass bit (prefix_as prefix) place.now.region inherited.gets
        out.old out.new) }
{
    if inherited.had == inherited.gets && place.is_half_clear(bit) {
        return Ok(());
    }
    list_differing(&place.half(bit), prefix.half(bit), inherited, out)?;
    Ok(())
}

/// The node of all dirty prefixes, if there are dirty prefixes.
fn root_of(dirty: &Option<Tree>) -> Option<NodeRef<'_>>
    ensures { IsRootOf dirty.now result }
{
    match dirty {
        Some(dirty) => Some(dirty.root()),
        None => None,
    }
}

/// The entries of a tree and of the one after a snapshot, where they differ.
fn go_over(alloc: Global, tree: &Tree, dirty: &Option<Tree>) -> Result<Differing, AllocError>
    requires { IsKnown tree.now dirty.now }
    ensures order { InPlace tree.now.entries }
    ensures tables { IfOk result (AreWhole tree.now) }
{
    let whole = Prefix::whole(tree.family());
    let place = Place {
        region: tree.region(&whole),
        node: Some(tree.root()),
        dirty: root_of(dirty),
        marked: dirty.is_none(),
        rerouted: Rerouted::Nowhere,
    };
    let mut out = Differing {
        had: Vec::new(alloc),
        gets: Vec::new(alloc),
    };
    let none = Inherited {
        had: Hop::NONE.0,
        gets: Hop::NONE.0,
    };
    list_differing(&place, whole, none, &mut out)?;
    Ok(out)
}

/// The entries within a prefix that a tree has and would get by a repair there, where these differ. The tree's routes may differ at
/// the prefix from those that are known for the dirty prefixes. It costs the prefix's length, and the regions within it that a dirty prefix meets,
/// that inherit another hop than in the table, or that no route of their own keeps from the prefix's route.
///
/// # Errors
///
/// Out of memory.
pub fn differing_within(
    alloc: Global,
    tree: &Tree,
    dirty: &Option<Tree>,
    prefix: &Prefix,
) -> Result<Differing, AllocError>
    requires family { prefix.now.family ≡ tree.now.family }
    requires known { IsKnownBefore (prefix_as prefix.now) tree.now dirty.now }
    ensures order { InPlace tree.now.entries }
    ensures tables { IfOk result (IsRepair tree.now (prefix_as prefix.now)) }
{
    // the entries stand in order
    let _family = tree.family();
    let q = path_bits(prefix);
    let met = seek(root_of(dirty), q, prefix.len, dirty.is_none());
    let end = walk_to(tree, prefix);
    let place = Place {
        region: tree.region(prefix),
        node: end.node,
        dirty: met.node,
        marked: met.marked,
        rerouted: Rerouted::Here,
    };
    let mut out = Differing {
        had: Vec::new(alloc),
        gets: Vec::new(alloc),
    };
    let inherited = Inherited {
        had: end.hop,
        gets: end.hop,
    };
    list_differing(&place, *prefix, inherited, &mut out)?;
    Ok(out)
}

/// The changes that a snapshot makes of a tree's entries, for its routes. Without marks it goes over all of them, else over the
/// regions that a dirty prefix meets, and over those that inherit another hop than in the table.
///
/// # Errors
///
/// Out of memory.
pub fn snapshot_delta(
    alloc: Global,
    tree: &Tree,
    dirty: &Option<Tree>,
) -> Result<Vec<Change>, AllocError>
    requires { IsKnown tree.now dirty.now }
    ensures order { InPlace tree.now.entries }
    ensures changes { IfOk result (λ v. map change_as v.items ≡ between tree.now.entries
        (aggregate_in tree.now.family tree.now.routes tree.now.entries)) }
    ensures family { IfOk result (λ v. AllByRecursion (λ c. (place_of c).family ≡ tree.now.family)
        (map change_as v.items)) }
{
    let tables = go_over(alloc, tree, dirty)?;
    between(alloc, &tables.had, &tables.gets)
}
