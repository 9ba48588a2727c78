//! Which hops the regions within the event's prefix may have, from those within them up.
//!
//! A region strictly within the prefix is settled if it has a route of its own: its addresses get what they got before the event.
//! Nothing need be found for it, nor for one without an old entry strictly within it, whose best hops the tree keeps.

ghost use Rattle.std.specs.Prelude.{◌≡◌, ◌+◌, ◌≢◌, [], true, ℕ, List, Bool, Some, IfOk, is_some};
ghost use Rattle.std.specs.Option.{option_copied};
ghost use Rattle.table_model.specs.Width.{width};
ghost use Rattle.table_model.specs.Table.{Table, IsTable, root};
ghost use Rattle.orig_tree.specs.Spots.{spot_answers};
ghost use Rattle.orig_tree.specs.Walk.{behind};
ghost use Rattle.moves_model.specs.Sets.{near_set};
ghost use Rattle.moves_model.specs.Nearest.{AnswersAs};
ghost use Rattle.moves_model.specs.Way.{FilledGive};
ghost use Rattle.fib_moves.specs.Views.{SameAllowed, allowed_as};
ghost use Rattle.fib_moves.specs.Needs.{AreFound, IsNodeOf};
ghost use Rattle.fib_moves.specs.Found.{FoundHops, FoundInHalf, HalvesGive, IsHopsBox, JoinsHops, half_found};

use crate::{AllowedHops, Place, below, is_filled, may_inherit};
use fib_addr::{HopSet, Prefix};
use orig_tree::{Label, TreeRegion};
use std::alloc::{AllocError, Global};

/// What is found of a region with old entries strictly within it.
#[derive(Drop)]
pub(crate) struct RegionHops {
    /// The hops that its own entry should have, or what it inherits if it has none.
    pub(crate) hops: AllowedHops,
    pub(crate) low: Option<Box<RegionHops>>,
    pub(crate) high: Option<Box<RegionHops>>,
}

/// Whether a region has a route of its own.
pub(crate) fn is_settled(place: &Place<'_>) -> bool
    ensures { result ≡ is_some (root (behind place.now.node).routes) }
{
    match &place.node {
        Some(node) => node.hop(Label::Route).is_some(),
        None => false,
    }
}

/// The hops that were found for a region's own entry, if any were.
pub(crate) fn hops_of(found: &Option<Box<RegionHops>>) -> Option<&AllowedHops>
    ensures { (d : ℕ) (f : List Bool → ℕ) (R T : Table) → FoundHops d f R T found.now
        → AreFound d f T (option_copied result) }
{
    match found {
        Some(found) => Some(&found.hops),
        None => None,
    }
}

/// What is found of a half, `bare` if nothing is.
pub(crate) fn half_of<'a>(
    found: &'a Option<Box<RegionHops>>,
    bit: bool,
    bare: &'a Option<Box<RegionHops>>,
) -> &'a Option<Box<RegionHops>>
    ensures { result.now ≡ half_found bit found.now bare.now }
{
    match found {
        Some(found) => { if bit { &found.high } else { &found.low } }
        None => bare,
    }
}

/// The hops that a settled region may inherit at no further change: any if entries fill it, else what it inherits in the old table.
fn settled_hops(region: &TreeRegion<'_>, inherited: u16) -> AllowedHops
    requires table { IsTable region.now.bits region.now.entries }
    requires right { AnswersAs region.now.bits (spot_answers region.now) region.now.entries inherited }
    ensures { SameAllowed (allowed_as result)
        (near_set region.now.bits (spot_answers region.now) region.now.entries) }
{
    if is_filled(region) {
        AllowedHops::Any
    } else {
        AllowedHops::These(HopSet::one(inherited))
    }
}

/// The hops that a half may inherit at no further change.
fn half_hops(
    alloc: Global,
    place: &Place<'_>,
    found: &Option<Box<RegionHops>>,
    inherited: u16,
) -> Result<AllowedHops, AllocError>
    requires place { IsNodeOf place.now }
    requires right { FilledGive place.now.region.bits (spot_answers place.now.region)
        (behind place.now.node).routes place.now.region.entries inherited }
    requires found { FoundInHalf place.now found.now }
    ensures { IfOk result (λ w. SameAllowed (allowed_as w)
        (near_set place.now.region.bits (spot_answers place.now.region) place.now.region.entries)) }
{
    if is_settled(place) {
        return Ok(settled_hops(&place.region, inherited));
    }
    may_inherit(alloc, &place.region, hops_of(found))
}

/// Whether it is known of a half that no old entry stands in it.
fn has_none(place: &Place<'_>, found: &Option<Box<RegionHops>>) -> bool
    requires { FoundInHalf place.now found.now }
    ensures { result ≡ true → place.now.region.entries ≡ [] }
{
    if is_settled(place) {
        return false;
    }
    if found.is_some() {
        return false;
    }
    place.region.entry().is_none()
}

/// Whether it is known of both halves.
fn are_none(
    low: &Place<'_>,
    high: &Place<'_>,
    under_low: &Option<Box<RegionHops>>,
    under_high: &Option<Box<RegionHops>>,
) -> bool
    requires low { FoundInHalf low.now under_low.now }
    requires high { FoundInHalf high.now under_high.now }
    ensures { result ≡ true → (low.now.region.entries ≡ []) × (high.now.region.entries ≡ []) }
{
    if has_none(low, under_low) {
        has_none(high, under_high)
    } else {
        false
    }
}

/// What is found, in a box.
fn boxed(
    alloc: Global,
    hops: AllowedHops,
    low: Option<Box<RegionHops>>,
    high: Option<Box<RegionHops>>,
) -> Result<Box<RegionHops>, AllocError>
    ensures { IfOk result (IsHopsBox hops low high) }
{
    let found = RegionHops { hops, low, high };
    let found = Box::new(alloc, found)?;
    Ok(found)
}

/// What is found of a region whose halves inherit this hop in the old table, from what is found of these.
fn join(
    alloc: Global,
    low: &Place<'_>,
    high: &Place<'_>,
    under_low: Option<Box<RegionHops>>,
    under_high: Option<Box<RegionHops>>,
    inherited: u16,
) -> Result<Option<Box<RegionHops>>, AllocError>
    requires low { IsNodeOf low.now }
    requires high { IsNodeOf high.now }
    requires low_right { FilledGive low.now.region.bits (spot_answers low.now.region)
        (behind low.now.node).routes low.now.region.entries inherited }
    requires high_right { FilledGive high.now.region.bits (spot_answers high.now.region)
        (behind high.now.node).routes high.now.region.entries inherited }
    requires under_low { FoundInHalf low.now under_low }
    requires under_high { FoundInHalf high.now under_high }
    ensures { IfOk result (JoinsHops low.now high.now) }
{
    if are_none(low, high, &under_low, &under_high) {
        return Ok(None);
    }
    let first = half_hops(alloc, low, &under_low, inherited)?;
    let second = half_hops(alloc, high, &under_high, inherited)?;
    let joined = AllowedHops::joint(alloc, first, second)?;
    let found = boxed(alloc, joined.hops, under_low, under_high)?;
    Ok(Some(found))
}

/// What is found of a half that inherits this hop in the old table: nothing if it is settled.
#[cycle(climb)]
fn climb_half(
    alloc: Global,
    place: &Place<'_>,
    prefix: &Prefix,
    inherited: u16,
) -> Result<Option<Box<RegionHops>>, AllocError>
    requires bits { place.now.region.bits + prefix.now.len ≡ width prefix.now.family }
    requires place { IsNodeOf place.now }
    requires right { FilledGive place.now.region.bits (spot_answers place.now.region)
        (behind place.now.node).routes place.now.region.entries inherited }
    ensures { IfOk result (FoundInHalf place.now) }
{
    if is_settled(place) {
        return Ok(None);
    }
    climb(alloc, place, prefix, inherited)
}

/// What is found of the region of the event's prefix, or of one that isn't settled within it, which inherits this hop in the old table.
#[cycle(climb)]
pub(crate) fn climb(
    alloc: Global,
    place: &Place<'_>,
    prefix: &Prefix,
    inherited: u16,
) -> Result<Option<Box<RegionHops>>, AllocError>
    requires bits { place.now.region.bits + prefix.now.len ≡ width prefix.now.family }
    requires place { IsNodeOf place.now }
    requires right { HalvesGive place.now inherited }
    ensures { IfOk result (FoundHops place.now.region.bits (spot_answers place.now.region)
        (behind place.now.node).routes place.now.region.entries) }
{
    if place.is_end(prefix) {
        return Ok(None);
    }
    let inherited = below(place.region.entry(), inherited);
    let low = place.half(false);
    let high = place.half(true);
    let under_low = climb_half(alloc, &low, &prefix.half(false), inherited)?;
    let under_high = climb_half(alloc, &high, &prefix.half(true), inherited)?;
    join(alloc, &low, &high, under_low, under_high, inherited)
}
