//! The hops that a region's own entry should have, or what it inherits if it has none.
//!
//! For a region without an old entry strictly within it none need be found: they are its best hops, which the tree keeps.

ghost use Rattle.std.specs.Prelude.{◌≡◌, None, IfOk};
ghost use Rattle.std.specs.Option.{option_copied};
ghost use Rattle.orig_tree.specs.Spots.{spot_answers};
ghost use Rattle.moves_model.specs.Sets.{is_allowed, least_allowed, inner_set, near_set, new_entry};
ghost use Rattle.fib_moves.specs.Views.{SameAllowed, allowed_as};
ghost use Rattle.fib_moves.specs.Needs.{AreFound};

use crate::AllowedHops;
use orig_tree::TreeRegion;
use std::alloc::{AllocError, Global};

/// Whether a hop is one of them.
pub(crate) fn allows(region: &TreeRegion<'_>, found: Option<&AllowedHops>, hop: u16) -> bool
    requires { AreFound region.now.bits (spot_answers region.now) region.now.entries (option_copied found) }
    ensures { result ≡ is_allowed hop (inner_set region.now.bits (spot_answers region.now) region.now.entries) }
{
    match found {
        Some(hops) => hops.contains(hop),
        None => region.is_best(hop),
    }
}

/// The least of them, if not any will do.
pub(crate) fn least_hop(region: &TreeRegion<'_>, found: Option<&AllowedHops>) -> u16
    requires { AreFound region.now.bits (spot_answers region.now) region.now.entries (option_copied found) }
    ensures { result ≡ least_allowed (inner_set region.now.bits (spot_answers region.now) region.now.entries) }
{
    match found {
        Some(hops) => hops.least(),
        None => region.least(),
    }
}

/// All of them.
fn due_hops(
    alloc: Global,
    region: &TreeRegion<'_>,
    found: Option<&AllowedHops>,
) -> Result<AllowedHops, AllocError>
    requires { AreFound region.now.bits (spot_answers region.now) region.now.entries (option_copied found) }
    ensures { IfOk result (λ w. SameAllowed (allowed_as w)
        (inner_set region.now.bits (spot_answers region.now) region.now.entries)) }
{
    match found {
        Some(hops) => hops.copied(alloc),
        None => {
            let set = region.hops(alloc)?;
            Ok(AllowedHops::These(set))
        }
    }
}

/// The hops that a region may inherit at no further change, from those that were found for its own entry.
///
/// # Errors
///
/// Out of memory.
pub fn may_inherit(
    alloc: Global,
    region: &TreeRegion<'_>,
    found: Option<&AllowedHops>,
) -> Result<AllowedHops, AllocError>
    requires { AreFound region.now.bits (spot_answers region.now) region.now.entries (option_copied found) }
    ensures { IfOk result (λ w. SameAllowed (allowed_as w)
        (near_set region.now.bits (spot_answers region.now) region.now.entries)) }
{
    match region.entry() {
        Some(_) => Ok(AllowedHops::Any),
        None => due_hops(alloc, region, found),
    }
}

/// The hop of a new entry if none stood, or if that one can't stay: none if what is inherited will do, else the least hop.
fn put_hop(region: &TreeRegion<'_>, found: Option<&AllowedHops>, inherited: u16) -> Option<u16>
    requires { AreFound region.now.bits (spot_answers region.now) region.now.entries (option_copied found) }
    ensures { result ≡ new_entry (inner_set region.now.bits (spot_answers region.now)
        region.now.entries) None inherited }
{
    if allows(region, found, inherited) {
        None
    } else {
        Some(least_hop(region, found))
    }
}

/// The hop of a new entry, if there is to be one, by the hops that were found for the region: the old one stays if its hop will do;
/// else it goes if what is inherited will do; else it gets the least hop.
pub fn due_hop(
    region: &TreeRegion<'_>,
    found: Option<&AllowedHops>,
    old: Option<u16>,
    inherited: u16,
) -> Option<u16>
    requires { AreFound region.now.bits (spot_answers region.now) region.now.entries (option_copied found) }
    ensures { result ≡ new_entry (inner_set region.now.bits (spot_answers region.now)
        region.now.entries) old inherited }
{
    match old {
        Some(hop) if allows(region, found, hop) => Some(hop),
        _ => put_hop(region, found, inherited),
    }
}
