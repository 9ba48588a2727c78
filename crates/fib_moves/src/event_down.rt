//! From the event's prefix down: the entries of the old table and of the new one where these differ.

ghost use Rattle.std.specs.Prelude.{◌≡◌, ◌+◌, OnOk};
ghost use Rattle.table_model.specs.Width.{width};
ghost use Rattle.table_model.specs.Table.{IsTable};
ghost use Rattle.fib_addr.specs.Views.{prefix_as};
ghost use Rattle.orig_tree.specs.Spots.{spot_answers};
ghost use Rattle.orig_tree.specs.Walk.{behind};
ghost use Rattle.moves_model.specs.Nearest.{AnswersAs};
ghost use Rattle.moves_model.specs.Way.{FilledGive};
ghost use Rattle.fib_moves.specs.Needs.{IsNodeOf};
ghost use Rattle.fib_moves.specs.Passes.{ListsDiffering};
ghost use Rattle.fib_moves.specs.Found.{FoundHops, FoundInHalf, HalvesGive, settled_entry};

use crate::found::{RegionHops, half_of, hops_of, is_settled};
use crate::{Differing, Place, below, due_hop, if_differing, is_end, is_filled};
use fib_addr::{Prefix, push_entry};
use orig_tree::TreeRegion;
use std::alloc::AllocError;

/// The hops that a region inherits in the old table and in the new one.
#[derive(Clone, Copy)]
pub(crate) struct Inherited {
    pub(crate) had: u16,
    pub(crate) gets: u16,
}

/// The hop of the one entry that a settled region gets, if it inherits another hop than in the old table and entries don't fill it.
fn settled_hop(region: &TreeRegion<'_>, inherited: Inherited) -> Option<u16>
    requires { IsTable region.now.bits region.now.entries }
    ensures { result ≡ settled_entry region.now.bits region.now.entries inherited.had inherited.gets }
{
    if inherited.had == inherited.gets {
        return None;
    }
    if is_filled(region) {
        None
    } else {
        Some(inherited.had)
    }
}

/// Adds the entry that a settled region gets, if there is to be one: all that stands in it stays.
fn list_settled(
    region: &TreeRegion<'_>,
    prefix: Prefix,
    inherited: Inherited,
    out: &mut Differing,
) -> Result<(), AllocError>
    requires table { IsTable region.now.bits region.now.entries }
    requires right { AnswersAs region.now.bits (spot_answers region.now) region.now.entries
        inherited.had }
    ensures { OnOk result (ListsDiffering (prefix_as prefix) region.now inherited.gets out.old out.new) }
{
    push_entry(prefix, settled_hop(region, inherited), &mut out.gets)?;
    Ok(())
}

/// Adds the entries of both tables within a half where they differ.
#[cycle(list_differing)]
fn list_half(
    place: &Place<'_>,
    found: &Option<Box<RegionHops>>,
    prefix: Prefix,
    inherited: Inherited,
    out: &mut Differing,
) -> Result<(), AllocError>
    requires bits { place.now.region.bits + prefix.len ≡ width prefix.family }
    requires place { IsNodeOf place.now }
    requires right { FilledGive place.now.region.bits (spot_answers place.now.region)
        (behind place.now.node).routes place.now.region.entries inherited.had }
    requires found { FoundInHalf place.now found.now }
    ensures { OnOk result (ListsDiffering (prefix_as prefix) place.now.region inherited.gets
        out.old out.new) }
{
    if is_settled(place) {
        return list_settled(&place.region, prefix, inherited, out);
    }
    list_differing(place, found, prefix, inherited, out)
}

/// Adds the entries of both tables where they differ, within the event's prefix or a region in it that isn't settled.
#[cycle(list_differing)]
pub(crate) fn list_differing(
    place: &Place<'_>,
    found: &Option<Box<RegionHops>>,
    prefix: Prefix,
    inherited: Inherited,
    out: &mut Differing,
) -> Result<(), AllocError>
    requires bits { place.now.region.bits + prefix.len ≡ width prefix.family }
    requires place { IsNodeOf place.now }
    requires right { HalvesGive place.now inherited.had }
    requires found { FoundHops place.now.region.bits (spot_answers place.now.region)
        (behind place.now.node).routes place.now.region.entries found.now }
    ensures { OnOk result (ListsDiffering (prefix_as prefix) place.now.region inherited.gets
        out.old out.new) }
{
    let had = place.region.entry();
    let own = hops_of(found);
    let gets = due_hop(&place.region, own, had, inherited.gets);
    let (old, new) = if_differing(had, gets);
    push_entry(prefix, old, &mut out.had)?;
    push_entry(prefix, new, &mut out.gets)?;
    if is_end(&place.region, own, prefix) {
        return Ok(());
    }
    let inherited = Inherited {
        had: below(had, inherited.had),
        gets: below(gets, inherited.gets),
    };
    let bare = None;
    let low = half_of(found, false, &bare);
    let high = half_of(found, true, &bare);
    list_half(&place.half(false), low, prefix.half(false), inherited, out)?;
    list_half(&place.half(true), high, prefix.half(true), inherited, out)?;
    Ok(())
}
