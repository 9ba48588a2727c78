//! From the whole space down: where an old entry stays, goes or gets another hop, and where a new one comes.

ghost use Rattle.std.specs.Prelude.{◌≡◌, ◌+◌, ◌≢◌, true, false, OnOk};
ghost use Rattle.std.specs.Option.{option_copied};
ghost use Rattle.table_model.specs.Width.{width};
ghost use Rattle.table_model.specs.Table.{IsTable, inherit};
ghost use Rattle.kept_model.specs.Parts.{BothOrNeither};
ghost use Rattle.fib_addr.specs.Views.{prefix_as};
ghost use Rattle.orig_tree.specs.Spots.{spot_answers};
ghost use Rattle.fib_moves.specs.Needs.{Knows, AreFound};
ghost use Rattle.fib_moves.specs.Passes.{EndsThere, ListsDiffering};

use crate::AllowedHops;
use crate::hops::due_hop;
use crate::needs::{RegionNeeds, half_of, hops_of};
use fib_addr::{Entry, Prefix, push_entry};
use orig_tree::TreeRegion;
use std::alloc::AllocError;

/// The entries of the old table and of the new one at the prefixes at which these differ, in the order of prefixes.
#[derive(Drop)]
pub struct Differing {
    /// Those of the old table.
    pub had: Vec<Entry>,
    /// Those of the new one.
    pub gets: Vec<Entry>,
}

/// Both hops if they differ, else none.
pub fn if_differing(old: Option<u16>, new: Option<u16>) -> (Option<u16>, Option<u16>)
    ensures { BothOrNeither old new result.0 result.1 }
{
    if old == new { (None, None) } else { (old, new) }
}

/// What is inherited below an entry, or if there is none, from above it.
pub fn below(hop: Option<u16>, inherited: u16) -> u16
    ensures { result ≡ inherit hop inherited }
{
    hop.unwrap_or(inherited)
}

/// Whether neither table has entries in the region below its own prefix, by the hops that were found for its own entry, if any were.
pub fn is_end(region: &TreeRegion<'_>, found: Option<&AllowedHops>, prefix: Prefix) -> bool
    requires bits { region.now.bits + prefix.len ≡ width prefix.family }
    requires table { IsTable region.now.bits region.now.entries }
    requires found { AreFound region.now.bits (spot_answers region.now) region.now.entries
        (option_copied found) }
    ensures end { result ≡ true
        → EndsThere region.now.bits (spot_answers region.now) region.now.entries }
    ensures more { result ≡ false → region.now.bits ≢ 0 }
{
    if prefix.len == prefix.family.width() {
        return true;
    }
    match found {
        Some(_) => false,
        None => region.leaf().is_some(),
    }
}

/// Adds the entries of both tables within a prefix where they differ.
pub(crate) fn list_differing(
    region: &TreeRegion<'_>,
    needs: &Option<Box<RegionNeeds>>,
    prefix: Prefix,
    inherited: u16,
    out: &mut Differing,
) -> Result<(), AllocError>
    requires bits { region.now.bits + prefix.len ≡ width prefix.family }
    requires table { IsTable region.now.bits region.now.entries }
    requires knows { Knows region.now.bits (spot_answers region.now) region.now.entries needs.now }
    ensures { OnOk result (ListsDiffering (prefix_as prefix) region.now inherited out.old out.new) }
{
    let had = region.entry();
    let found = hops_of(needs);
    let gets = due_hop(region, found, had, inherited);
    let (old, new) = if_differing(had, gets);
    push_entry(prefix, old, &mut out.had)?;
    push_entry(prefix, new, &mut out.gets)?;
    if is_end(region, found, prefix) {
        return Ok(());
    }
    let inherited = below(gets, inherited);
    let bare = None;
    let low = half_of(needs, false, &bare);
    let high = half_of(needs, true, &bare);
    list_differing(&region.half(false), low, prefix.half(false), inherited, out)?;
    list_differing(&region.half(true), high, prefix.half(true), inherited, out)?;
    Ok(())
}
