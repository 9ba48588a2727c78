//! The rows that prove a list of changes shortest.

ghost use Rattle.std.specs.Prelude.{◌≡◌, ◌≢◌, ◌+◌, ◌++◌, ◌∷◌, [], List, Bool, None, true, length, map, OnOk, IfSome, IfNone};
ghost use Rattle.table_model.specs.Width.{width};
ghost use Rattle.table_model.specs.Table.{IsTable};
ghost use Rattle.fib_addr.specs.Views.{prefix_as};
ghost use Rattle.orig_tree.specs.Spots.{spot_answers};
ghost use Rattle.cert_model.specs.Views.{row_as};
ghost use Rattle.moves_model.specs.Demands.{is_bare};
ghost use Rattle.moves_model.specs.Rows.{leaf_answer, near_region_rows};
ghost use Rattle.fib_moves.specs.Needs.{Knows};

use crate::needs::{RegionNeeds, changes_of, half_of};
use cert_model::Row;
use fib_addr::{Hop, Prefix};
use orig_tree::TreeRegion;
use std::alloc::AllocError;

/// The hop of a leaf: of a region without an old entry strictly within it, whose addresses all get one.
fn leaf_hop(region: &TreeRegion<'_>, needs: &Option<Box<RegionNeeds>>) -> Option<u16>
    requires { Knows region.now.bits (spot_answers region.now) region.now.entries needs.now }
    ensures bare { IfSome result (λ _. is_bare region.now.entries ≡ true) }
    ensures one { IfSome result (λ h. (a : List Bool) → length a ≡ region.now.bits
        → spot_answers region.now a ≡ h) }
    ensures more { IfNone result (leaf_answer region.now.bits (spot_answers region.now)
        region.now.entries ≡ None) }
    ensures bits { IfNone result (region.now.bits ≢ 0) }
{
    match needs {
        Some(_) => None,
        None => region.leaf(),
    }
}

pub(crate) fn push_row(row: Row, out: &mut Vec<Row>) -> Result<(), AllocError>
    ensures { OnOk result (map row_as out.new.items ≡ map row_as out.old.items ++ row_as row ∷ []) }
{
    out.push(row)?;
    Ok(())
}

/// Adds the rows of the region of a prefix: its lower half's, its upper half's, and its own.
pub(crate) fn list_rows(
    region: &TreeRegion<'_>,
    needs: &Option<Box<RegionNeeds>>,
    prefix: &Prefix,
    out: &mut Vec<Row>,
) -> Result<(), AllocError>
    requires bits { region.now.bits + prefix.now.len ≡ width prefix.now.family }
    requires table { IsTable region.now.bits region.now.entries }
    requires knows { Knows region.now.bits (spot_answers region.now) region.now.entries needs.now }
    ensures { OnOk result (map row_as out.new.items ≡ map row_as out.old.items
        ++ near_region_rows region.now.bits (spot_answers region.now) region.now.entries
        (prefix_as prefix.now)) }
{
    if let Some(hop) = leaf_hop(region, needs) {
        push_row(Row::Leaf(*prefix, Hop(hop)), out)?;
        return Ok(());
    }
    if prefix.len == prefix.family.width() {
        return Ok(());
    }
    let bare = None;
    let low = half_of(needs, false, &bare);
    let high = half_of(needs, true, &bare);
    list_rows(&region.half(false), low, &prefix.half(false), out)?;
    list_rows(&region.half(true), high, &prefix.half(true), out)?;
    let k = changes_of(region, needs)?;
    push_row(Row::Join(*prefix, k), out)?;
    Ok(())
}
