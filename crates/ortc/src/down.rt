//! The downward pass, and the calls that make a table.
//!
//! A region gets an entry if what it inherits isn't in its set: of the old entry's hop if the set has it, else of the
//! least hop. Entries are met in the order of prefixes.

ghost use Rattle.std.specs.Prelude.{◌≡◌, ◌≤◌, ◌+◌, ◌*◌, length, [], map, cond, nat_eq, Some, None, IfOk, OnOk};
ghost use Rattle.std.specs.List.Sorted.{IsStrictlySortedBy};
ghost use Rattle.std.specs.Map.{keys_of};
ghost use Rattle.table_model.specs.Order.{prefix_cmp};
ghost use Rattle.table_model.specs.Width.{width};
ghost use Rattle.table_model.specs.Table.{root, inherit};
ghost use Rattle.table_model.specs.Entries.{of_family, of_table};
ghost use Rattle.table_model.specs.Regions.{lift};
ghost use Rattle.table_model.specs.Sets.{agg, own, set_of};
ghost use Rattle.table_model.specs.Least.{Least, LeastWithin, aggregate};
ghost use Rattle.table_model.specs.Both.{aggregate_in};
ghost use Rattle.cert_model.specs.Rows.{family_rows};
ghost use Rattle.fib_addr.specs.Views.{entry_as, prefix_as};
ghost use Rattle.cert_model.specs.Views.{row_as};
ghost use Rattle.orig_tree.specs.Spots.{spot_answers};
ghost use Rattle.orig_tree.specs.Within.{nodes_in};
ghost use Rattle.ortc.specs.Proved.{ProveLeast};
ghost use Rattle.ortc.specs.Tables.{IsAggregateOf};

use crate::packed_table::PackedTable;
use crate::rows::certify;
use crate::table::Fresh;
use fib_addr::{Entry, EntrySink, Hop, Prefix, emit_entry};
use orig_tree::{Counter, Tree, TreeRegion, Uncounted};
use std::alloc::{AllocError, Global};

/// The hop of a leaf's own entry, if it gets one.
fn leaf_hop(hop: u16, inherited: u16) -> Option<u16>
    ensures { result ≡ cond (nat_eq hop inherited) None (Some hop) }
{
    if hop == inherited { None } else { Some(hop) }
}

/// The hop of a region's own entry, if it gets one: none if what it inherits is best for it, else the old entry's hop
/// if that is best, else the least of the best hops.
pub fn own_hop(region: &TreeRegion<'_>, inherited: u16) -> Option<u16>
    ensures { result ≡ own (set_of region.now.bits (spot_answers region.now)) (root region.now.entries)
        inherited }
{
    if region.is_best(inherited) {
        return None;
    }
    match region.entry() {
        Some(hop) if region.is_best(hop) => Some(hop),
        _ => Some(region.least()),
    }
}

/// What is inherited from a label, or without one from above.
fn below(label: Option<u16>, inherited: u16) -> u16
    ensures { result ≡ inherit label inherited }
{
    label.unwrap_or(inherited)
}

/// Hands on the entries of the region of a prefix that inherits a hop.
fn descend<S: EntrySink, C: Counter>(
    region: &TreeRegion<'_>,
    inherited: u16,
    prefix: &Prefix,
    out: &mut S,
    steps: &mut C,
) -> Result<(), AllocError>
    requires bits { region.now.bits + prefix.now.len ≡ width prefix.now.family }
    requires ready { S.ready out.old }
    ensures ready { OnOk result (S.ready out.new) }
    ensures takes { OnOk result (S.takes out.old (of_table prefix.now.family
        (lift (prefix_as prefix.now).bits (agg region.now.bits (spot_answers region.now)
        region.now.entries inherited))) out.new) }
    ensures steps { C.count steps.new ≤ C.count steps.old + 1 + 2 * length region.now.nodes }
{
    steps.tick();
    if let Some(hop) = region.leaf() {
        emit_entry(prefix, leaf_hop(hop, inherited), out)?;
        return Ok(());
    }
    if prefix.len == prefix.family.width() {
        return Ok(());
    }
    let own = own_hop(region, inherited);
    let hop = below(own, inherited);
    emit_entry(prefix, own, out)?;
    descend(&region.half(false), hop, &prefix.half(false), out, steps)?;
    descend(&region.half(true), hop, &prefix.half(true), out, steps)?;
    Ok(())
}

/// The least table of a prefix's region under a hop that is inherited from above, in the order of prefixes. Of the tables that
/// give the region's addresses the answers of the tree's routes under that hop, it is the one that the best hops fix, with the
/// tree's entries as the old table. It costs the prefix's length, and the nodes within the prefix: what is best for them they
/// keep.
///
/// # Errors
///
/// Out of memory.
pub fn within(
    alloc: Global,
    tree: &Tree,
    prefix: &Prefix,
    inherited: Hop,
) -> Result<Vec<Entry>, AllocError>
    requires { prefix.now.family ≡ tree.now.family }
    ensures aggregate { IfOk result (λ v. map entry_as v.items
        ≡ of_table tree.now.family (aggregate (width tree.now.family)
        (of_family tree.now.family tree.now.routes) (prefix_as prefix.now).bits inherited.0
        (of_family tree.now.family tree.now.entries))) }
    ensures best { IfOk result (λ v. IsAggregateOf tree.now (prefix_as prefix.now).bits inherited.0
        (map entry_as v.items)) }
    ensures order { IfOk result (λ v. IsStrictlySortedBy prefix_cmp
        (keys_of (map entry_as v.items))) }
    ensures least { IfOk result (λ v. LeastWithin (width tree.now.family)
        (of_family tree.now.family tree.now.routes) (prefix_as prefix.now).bits inherited.0
        (of_family tree.now.family (map entry_as v.items))) }
{
    within_counted(alloc, tree, prefix, inherited, &mut Uncounted)
}

/// `within` with a count of its steps. A step is a region visited, one without a node too; no set is computed. There are at most
/// as many steps as the prefix has bits, and one, and two for each node at the prefix and within it.
///
/// # Errors
///
/// Out of memory.
pub fn within_counted<C: Counter>(
    alloc: Global,
    tree: &Tree,
    prefix: &Prefix,
    inherited: Hop,
    steps: &mut C,
) -> Result<Vec<Entry>, AllocError>
    requires { prefix.now.family ≡ tree.now.family }
    ensures aggregate { IfOk result (λ v. map entry_as v.items
        ≡ of_table tree.now.family (aggregate (width tree.now.family)
        (of_family tree.now.family tree.now.routes) (prefix_as prefix.now).bits inherited.0
        (of_family tree.now.family tree.now.entries))) }
    ensures best { IfOk result (λ v. IsAggregateOf tree.now (prefix_as prefix.now).bits inherited.0
        (map entry_as v.items)) }
    ensures order { IfOk result (λ v. IsStrictlySortedBy prefix_cmp
        (keys_of (map entry_as v.items))) }
    ensures least { IfOk result (λ v. LeastWithin (width tree.now.family)
        (of_family tree.now.family tree.now.routes) (prefix_as prefix.now).bits inherited.0
        (of_family tree.now.family (map entry_as v.items))) }
    ensures steps { C.count steps.new ≤ C.count steps.old + prefix.now.len + 1
        + 2 * nodes_in (prefix_as prefix.now).bits tree.now.nodes }
{
    let mut table = Vec::new(alloc);
    let region = tree.region_counted(prefix, steps);
    descend(&region, inherited.0, prefix, &mut table, steps)?;
    Ok(table)
}

/// Passes on the entries of the least table with the answers of the tree's routes: of all such tables the one that the best hops
/// fix, with the tree's entries as the old table, in the order of prefixes. It costs the tree's nodes, and takes no memory of its
/// own: what is best for the nodes they keep.
///
/// # Errors
///
/// Out of memory; then the first n entries were taken, for some n.
pub fn emit_least<S: EntrySink>(tree: &Tree, out: &mut S) -> Result<(), AllocError>
    requires { S.ready out.old }
    ensures ready { OnOk result (S.ready out.new) }
    ensures takes { OnOk result (S.takes out.old (aggregate_in tree.now.family tree.now.routes
        tree.now.entries) out.new) }
{
    let whole = Prefix::whole(tree.family());
    let region = tree.region(&whole);
    descend(&region, Hop::NONE.0, &whole, out, &mut Uncounted)?;
    Ok(())
}

/// The least table with the answers of the tree's routes, as a list: of all such tables the one that the best hops fix, with
/// the tree's entries as the old table, in the order of prefixes. It costs the tree's nodes: what is best for them they keep.
///
/// # Errors
///
/// Out of memory.
pub fn least_table(alloc: Global, tree: &Tree) -> Result<Vec<Entry>, AllocError>
    ensures aggregate { IfOk result (λ v. map entry_as v.items
        ≡ aggregate_in tree.now.family tree.now.routes tree.now.entries) }
    ensures best { IfOk result (λ v. IsAggregateOf tree.now [] 0 (map entry_as v.items)) }
    ensures order { IfOk result (λ v. IsStrictlySortedBy prefix_cmp
        (keys_of (map entry_as v.items))) }
    ensures least { IfOk result (λ v. Least (width tree.now.family)
        (of_family tree.now.family tree.now.routes) (of_family tree.now.family
        (map entry_as v.items))) }
{
    let mut table = Vec::new(alloc);
    emit_least(tree, &mut table)?;
    Ok(table)
}

/// The least table with the answers of the tree's routes, as `least_table` makes it, in half its memory.
///
/// # Errors
///
/// Out of memory.
pub fn least_packed(alloc: Global, tree: &Tree) -> Result<PackedTable, AllocError>
    ensures { IfOk result (λ t. t ≡ aggregate_in tree.now.family tree.now.routes tree.now.entries) }
{
    let mut table = PackedTable::new(alloc);
    emit_least(tree, &mut table)?;
    Ok(table)
}

/// The least table, and the rows that prove it least, as lists.
///
/// # Errors
///
/// Out of memory.
pub fn fresh(alloc: Global, tree: &Tree) -> Result<Fresh, AllocError>
    ensures aggregate { IfOk result (λ v. map entry_as v.table.items
        ≡ aggregate_in tree.now.family tree.now.routes tree.now.entries) }
    ensures best { IfOk result (λ v. IsAggregateOf tree.now [] 0 (map entry_as v.table.items)) }
    ensures order { IfOk result (λ v. IsStrictlySortedBy prefix_cmp
        (keys_of (map entry_as v.table.items))) }
    ensures least { IfOk result (λ v. Least (width tree.now.family)
        (of_family tree.now.family tree.now.routes) (of_family tree.now.family
        (map entry_as v.table.items))) }
    ensures proof { IfOk result (λ v. map row_as v.proof.items
        ≡ family_rows tree.now.family tree.now.routes) }
    ensures certificate { IfOk result (λ v. ProveLeast tree.now.family tree.now.routes
        (map entry_as v.table.items) (map row_as v.proof.items)) }
{
    let table = least_table(alloc, tree)?;
    let mut proof = Vec::new(alloc);
    certify(tree, &mut proof)?;
    Ok(Fresh { table, proof })
}
