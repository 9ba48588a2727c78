//! What regions need, from those within them up.
//!
//! A region without an old entry strictly within it needs what the tree keeps of it: its best hops are those that its own entry
//! may have, and its k is how many changes are needed within it. What any other needs is kept here.

ghost use Rattle.std.specs.Prelude.{◌≡◌, ◌+◌, ◌≢◌, [], true, false, ℕ, List, Bool, Some, IfOk};
ghost use Rattle.std.specs.Option.{option_copied};
ghost use Rattle.table_model.specs.Width.{width};
ghost use Rattle.table_model.specs.Table.{Table};
ghost use Rattle.orig_tree.specs.Spots.{spot_answers};
ghost use Rattle.moves_model.specs.Sets.{inner_k, near_k};
ghost use Rattle.fib_moves.specs.Needs.{Knows, AreFound, IsBoxed, IsJoined, IsNodeOf, half_needs};

use crate::hops::{allows, may_inherit};
use crate::place::Place;
use crate::{AllowedHops, one_more_if, sum};
use fib_addr::Prefix;
use orig_tree::TreeRegion;
use std::alloc::{AllocError, Global};

/// What a region needs that has old entries strictly within it.
#[derive(Drop)]
pub(crate) struct RegionNeeds {
    /// The hops that its own entry should have, or what it inherits if it has none.
    pub(crate) hops: AllowedHops,
    /// How many changes strictly within it are needed then.
    pub(crate) k: u64,
    pub(crate) low: Option<Box<RegionNeeds>>,
    pub(crate) high: Option<Box<RegionNeeds>>,
}

/// The hops that were found for a region's own entry, if any were.
pub(crate) fn hops_of(needs: &Option<Box<RegionNeeds>>) -> Option<&AllowedHops>
    ensures { (d : ℕ) (f : List Bool → ℕ) (T : Table) → Knows d f T needs.now
        → AreFound d f T (option_copied result) }
{
    match needs {
        Some(needs) => Some(&needs.hops),
        None => None,
    }
}

/// How many changes strictly within a region are needed, if it gets one of its hops.
fn changes_within(region: &TreeRegion<'_>, needs: &Option<Box<RegionNeeds>>) -> u64
    requires { Knows region.now.bits (spot_answers region.now) region.now.entries needs.now }
    ensures { result ≡ inner_k region.now.bits (spot_answers region.now) region.now.entries }
{
    match needs {
        Some(needs) => needs.k,
        None => region.k(),
    }
}

/// How many changes a region needs if it inherits one of the hops that it may.
pub(crate) fn changes_of(
    region: &TreeRegion<'_>,
    needs: &Option<Box<RegionNeeds>>,
) -> Result<u64, AllocError>
    requires { Knows region.now.bits (spot_answers region.now) region.now.entries needs.now }
    ensures { IfOk result (λ k. k ≡ near_k region.now.bits (spot_answers region.now) region.now.entries) }
{
    let k = changes_within(region, needs);
    match region.entry() {
        Some(hop) => one_more_if(!allows(region, hops_of(needs), hop), k),
        None => Ok(k),
    }
}

/// Whether no old entry stands in a region, its own prefix counted.
fn has_none(region: &TreeRegion<'_>, needs: &Option<Box<RegionNeeds>>) -> bool
    requires { Knows region.now.bits (spot_answers region.now) region.now.entries needs.now }
    ensures none { result ≡ true → region.now.entries ≡ [] }
    ensures some { result ≡ false → region.now.entries ≢ [] }
{
    if needs.is_some() {
        return false;
    }
    region.entry().is_none()
}

/// Whether none stands in either half.
fn are_none(
    low: &TreeRegion<'_>,
    high: &TreeRegion<'_>,
    under_low: &Option<Box<RegionNeeds>>,
    under_high: &Option<Box<RegionNeeds>>,
) -> bool
    requires low { Knows low.now.bits (spot_answers low.now) low.now.entries under_low.now }
    requires high { Knows high.now.bits (spot_answers high.now) high.now.entries under_high.now }
    ensures none { result ≡ true → (low.now.entries ≡ []) × (high.now.entries ≡ []) }
    ensures some { result ≡ false → low.now.entries ≡ [] → high.now.entries ≡ [] → ⊥ }
{
    if has_none(low, under_low) {
        has_none(high, under_high)
    } else {
        false
    }
}

/// What is kept of a half, `bare` if nothing is.
pub(crate) fn half_of<'a>(
    needs: &'a Option<Box<RegionNeeds>>,
    bit: bool,
    bare: &'a Option<Box<RegionNeeds>>,
) -> &'a Option<Box<RegionNeeds>>
    ensures { result.now ≡ half_needs bit needs.now bare.now }
{
    match needs {
        Some(needs) => { if bit { &needs.high } else { &needs.low } }
        None => bare,
    }
}

/// What a region needs, in a box.
fn boxed(
    alloc: Global,
    hops: AllowedHops,
    k: u64,
    low: Option<Box<RegionNeeds>>,
    high: Option<Box<RegionNeeds>>,
) -> Result<Box<RegionNeeds>, AllocError>
    ensures { IfOk result (IsBoxed hops k low high) }
{
    let needs = RegionNeeds { hops, k, low, high };
    let needs = Box::new(alloc, needs)?;
    Ok(needs)
}

/// What a region needs that has old entries in its halves, from what these need.
fn put_together(
    alloc: Global,
    low: &TreeRegion<'_>,
    high: &TreeRegion<'_>,
    under_low: Option<Box<RegionNeeds>>,
    under_high: Option<Box<RegionNeeds>>,
) -> Result<Box<RegionNeeds>, AllocError>
    requires low { Knows low.now.bits (spot_answers low.now) low.now.entries under_low }
    requires high { Knows high.now.bits (spot_answers high.now) high.now.entries under_high }
    requires some { low.now.entries ≡ [] → high.now.entries ≡ [] → ⊥ }
    ensures { IfOk result (λ b. IsJoined low.now high.now (Some b)) }
{
    let first = may_inherit(alloc, low, hops_of(&under_low))?;
    let second = may_inherit(alloc, high, hops_of(&under_high))?;
    let joined = AllowedHops::joint(alloc, first, second)?;
    let low_k = changes_of(low, &under_low)?;
    let high_k = changes_of(high, &under_high)?;
    let k = sum(low_k, high_k)?;
    let k = one_more_if(joined.apart, k)?;
    boxed(alloc, joined.hops, k, under_low, under_high)
}

/// What a region needs, from what its halves need, if an old entry stands in one.
fn join(
    alloc: Global,
    low: &TreeRegion<'_>,
    high: &TreeRegion<'_>,
    under_low: Option<Box<RegionNeeds>>,
    under_high: Option<Box<RegionNeeds>>,
) -> Result<Option<Box<RegionNeeds>>, AllocError>
    requires low { Knows low.now.bits (spot_answers low.now) low.now.entries under_low }
    requires high { Knows high.now.bits (spot_answers high.now) high.now.entries under_high }
    ensures { IfOk result (IsJoined low.now high.now) }
{
    if are_none(low, high, &under_low, &under_high) {
        return Ok(None);
    }
    let needs = put_together(alloc, low, high, under_low, under_high)?;
    Ok(Some(needs))
}

/// What a region needs, if an old entry stands strictly within it.
pub(crate) fn climb(
    alloc: Global,
    place: &Place<'_>,
    prefix: &Prefix,
) -> Result<Option<Box<RegionNeeds>>, AllocError>
    requires bits { place.now.region.bits + prefix.now.len ≡ width prefix.now.family }
    requires place { IsNodeOf place.now }
    ensures { IfOk result (Knows place.now.region.bits (spot_answers place.now.region)
        place.now.region.entries) }
{
    if place.is_end(prefix) {
        return Ok(None);
    }
    let low = place.half(false);
    let high = place.half(true);
    let under_low = climb(alloc, &low, &prefix.half(false))?;
    let under_high = climb(alloc, &high, &prefix.half(true))?;
    join(alloc, &low.region, &high.region, under_low, under_high)
}
