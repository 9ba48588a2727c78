//! The rows that prove a table least.
//!
//! A region that is a leaf has a leaf row; any other has the rows of its lower half, those of its upper half, and a join row.
//! There is one row for each region, and one for the bound. Rows are passed on one by one: no list of them is made here.

ghost use Rattle.std.specs.Prelude.{◌≡◌, ◌+◌, ℕ, ◌++◌, List, Bool, [], ◌∷◌, IfOk, OnOk};
ghost use Rattle.table_model.specs.Width.{width};
ghost use Rattle.table_model.specs.Sets.{set_of, k_of};
ghost use Rattle.cert_model.specs.Rows.{bound_row, family_rows, region_rows};
ghost use Rattle.cert_model.specs.Right.{bound_by};
ghost use Rattle.fib_addr.specs.Views.{prefix_as};
ghost use Rattle.orig_tree.specs.Spots.{spot_answers};

use cert_model::{Row, RowSink};
use fib_addr::{Hop, Prefix};
use orig_tree::{Tree, TreeRegion};
use std::alloc::AllocError;

/// Hands on the rows of the region of a prefix.
fn emit_rows<S: RowSink>(
    region: &TreeRegion<'_>,
    prefix: &Prefix,
    out: &mut S,
) -> Result<(), AllocError>
    requires bits { region.now.bits + prefix.now.len ≡ width prefix.now.family }
    requires ready { S.ready out.old }
    ensures ready { OnOk result (S.ready out.new) }
    ensures takes { OnOk result (S.takes out.old (region_rows region.now.bits
        (spot_answers region.now) (prefix_as prefix.now)) out.new) }
{
    if let Some(hop) = region.leaf() {
        out.put(Row::Leaf(*prefix, Hop(hop)))?;
        return Ok(());
    }
    if prefix.len == prefix.family.width() {
        return Ok(());
    }
    emit_rows(&region.half(false), &prefix.half(false), out)?;
    emit_rows(&region.half(true), &prefix.half(true), out)?;
    out.put(Row::Join(*prefix, region.k()))?;
    Ok(())
}

/// How many entries a least table of the region has, if nothing is inherited.
fn bound_of(region: &TreeRegion<'_>) -> Result<u64, AllocError>
    ensures { IfOk result (λ n. n ≡ bound_by (set_of region.now.bits (spot_answers region.now))
        (k_of region.now.bits (spot_answers region.now))) }
{
    if region.is_best(0) {
        return Ok(region.k());
    }
    region.k().checked_add(1).ok_or(AllocError)
}

/// Passes on the rows that prove how many entries a least table with the answers of the tree's routes has: those of the regions,
/// the lower half's and the upper half's before a region's own, and the bound. It costs the tree's nodes, and takes no memory
/// of its own: what is best for the nodes they keep.
///
/// # Errors
///
/// Out of memory; then the first n rows were taken, for some n.
pub fn certify<S: RowSink>(tree: &Tree, out: &mut S) -> Result<(), AllocError>
    requires { S.ready out.old }
    ensures ready { OnOk result (S.ready out.new) }
    ensures takes { OnOk result (S.takes out.old (family_rows tree.now.family tree.now.routes)
        out.new) }
{
    let whole = Prefix::whole(tree.family());
    let region = tree.region(&whole);
    emit_rows(&region, &whole, out)?;
    out.put(Row::Bound(whole.family, bound_of(&region)?))?;
    Ok(())
}
