//! Many routes or entries set at once. Routes that stand in order are built in one walk; if others are set after them, what the
//! nodes keep is computed anew when all are set, from the least regions on.

ghost use Rattle.std.specs.Prelude.{◌≡◌, ◌≤◌, ◌+◌, ◌∷◌, [], ℕ, suc, List, Bool, true, false, OnOk, OnErr, IfOk, vec_len, map, filter, None};
ghost use Rattle.std.specs.List.{AllByRecursion};
ghost use Rattle.std.specs.Map.{keys_of};
ghost use Rattle.table_model.specs.Bits.{bits_of};
ghost use Rattle.table_model.specs.Width.{width};
ghost use Rattle.table_model.specs.Table.{lpm};
ghost use Rattle.orig_tree.specs.Walk.{rows_of};
ghost use Rattle.orig_tree.specs.Views.{InPlace};
ghost use Rattle.table_model.specs.Address.{IsPrefix, same_family};
ghost use Rattle.table_model.specs.Entries.{Entries, of_table};
ghost use Rattle.fib_addr.specs.Views.{entry_as};
ghost use Rattle.orig_tree.specs.Arena.{blank_cell, cells_of, Owner, IfHalf, IsTree, walks_at, from_half, whole, IsArena};
ghost use Rattle.orig_tree.specs.Bests.{best_one, best_in, best_behind, KeepsBest, IsMended, HalfMended};
ghost use Rattle.orig_tree.specs.Merged.{own_of, Lays};
ghost use Rattle.orig_tree.specs.declared.node.Label.TheVariants.{Route};

use crate::best::{Best, join_kept};
use crate::build::build_all;
use crate::merge::merge;
use crate::node::{Label, Nodes, exchange, read, set_label};
use crate::path::{Path, path_bits};
use crate::source::EntrySource;
use fib_addr::{Entry, Family, Prefix};
use std::alloc::{AllocError, Global};

/// Whether an entry is of the family.
fn is_of(entry: &Entry, family: Family) -> bool
    ensures { result ≡ same_family family (entry_as entry.now).0.family }
{
    matches!(
        (family, entry.prefix.family),
        (Family::V4, Family::V4) | (Family::V6, Family::V6)
    )
}

/// Passes the entries before the first of the family.
fn skip_others<S: EntrySource>(family: Family, entries: &mut S)
    ensures own { own_of family (S.left entries.new) ≡ own_of family (S.left entries.old) }
    ensures prefixes { AllByRecursion IsPrefix (keys_of (S.left entries.old))
        → AllByRecursion IsPrefix (keys_of (S.left entries.new)) }
{
    while let Some(first) = entries.first() {
        if is_of(&first, family) {
            return;
        }
        entries.pass();
    }
}

/// Sets a label of an entry's prefix, if the entry is of the family.
fn insert_one(
    family: Family,
    nodes: &mut Nodes,
    label: Label,
    entry: &Entry,
) -> Result<(), AllocError>
    requires arena { IsArena family (cells_of nodes.old) nodes.old.free }
    requires order { InPlace (of_table family (rows_of label (whole family (cells_of nodes.old)))) }
    ensures { OnOk result ((rest : Entries) → Lays family label (cells_of nodes.old) (cells_of
        nodes.new) nodes.new.free (best_in nodes.old) (best_in nodes.new)
        (entry_as entry.now ∷ rest) rest) }
{
    if !is_of(entry, family) {
        return Ok(());
    }
    let prefix = &entry.prefix;
    let path = Path {
        bits: path_bits(prefix),
        left: prefix.len,
    };
    set_label(nodes, 0, path, 0, label, entry.hop.0)?;
    Ok(())
}

/// Sets a label of those of the entries that a source gives that are of the family, each in its turn. A walk from the root goes on
/// as long as the next entry is in the order of prefixes, so it is one walk if they come in that order; the first of each is set by
/// itself, so that each takes one at least.
///
/// # Errors
///
/// Out of memory, also if there would be 2^31 nodes or more; then the first n entries may be set, for some n.
pub(crate) fn insert_all<S: EntrySource>(
    family: Family,
    nodes: &mut Nodes,
    label: Label,
    entries: &mut S,
) -> Result<(), AllocError>
    requires arena { IsArena family (cells_of nodes.old) nodes.old.free }
    requires order { InPlace (of_table family (rows_of label (whole family (cells_of nodes.old)))) }
    requires prefixes { AllByRecursion IsPrefix (keys_of (S.left entries.old)) }
    ensures { OnOk result (Lays family label (cells_of nodes.old) (cells_of nodes.new)
        nodes.new.free (best_in nodes.old) (best_in nodes.new) (S.left entries.old) []) }
{
    let root = Prefix::whole(family);
    while let Some(first) = entries.first() {
        insert_one(family, nodes, label, &first)?;
        entries.pass();
        merge(nodes, 0, &root, 0, label, entries)?;
    }
    Ok(())
}

/// Computes what the nodes from a node on keep, which inherits the hop, over `depth` levels below it.
#[cycle(settle)]
pub(crate) fn settle(
    alloc: Global,
    nodes: &mut Nodes,
    i: usize,
    inherited: u16,
    depth: u8,
) -> Result<(), AllocError>
    ensures cells { cells_of nodes.new ≡ cells_of nodes.old }
    ensures free { nodes.new.free ≡ nodes.old.free }
    ensures len { vec_len nodes.new.halves ≡ vec_len nodes.old.halves }
    ensures best { OnOk result ((name : ℕ → Owner) (p : List Bool)
        → IsTree (suc depth) (cells_of nodes.old) name i p → IsMended depth (cells_of nodes.old) name i
        p (λ a. lpm (walks_at (suc depth) (cells_of nodes.old) i).routes a inherited) (best_in
        nodes.old) (best_in nodes.new) (best_in nodes.new i)) }
{
    let node = read(nodes, i);
    let hop = node.route.hop.unwrap_or(inherited);
    if depth == 0 {
        let mut best = Best::one(hop);
        exchange(nodes, i, &mut best);
        return Ok(());
    }
    let low = node.half(false);
    let high = node.half(true);
    settle_half(alloc, nodes, low, hop, depth - 1)?;
    settle_half(alloc, nodes, high, hop, depth - 1)?;
    let mut best = join_kept(alloc, nodes, low, high, hop)?;
    exchange(nodes, i, &mut best);
    Ok(())
}

/// The same of a half, if it is a node.
#[cycle(settle)]
fn settle_half(
    alloc: Global,
    nodes: &mut Nodes,
    half: Option<usize>,
    inherited: u16,
    depth: u8,
) -> Result<(), AllocError>
    ensures cells { cells_of nodes.new ≡ cells_of nodes.old }
    ensures free { nodes.new.free ≡ nodes.old.free }
    ensures len { vec_len nodes.new.halves ≡ vec_len nodes.old.halves }
    ensures best { OnOk result ((name : ℕ → Owner) (p : List Bool)
        → IfHalf (λ j. IsTree (suc depth) (cells_of nodes.old) name j p) half
        → HalfMended depth (cells_of nodes.old) name half p (λ a. lpm (from_half (walks_at (suc depth)
        (cells_of nodes.old)) half).routes a inherited) (best_in nodes.old) (best_in nodes.new)
        (best_behind (best_in nodes.new) half (best_one inherited))) }
{
    match half {
        None => Ok(()),
        Some(j) => settle(alloc, nodes, j, inherited, depth),
    }
}

/// Computes what all nodes keep.
pub(crate) fn settle_all(alloc: Global, family: Family, nodes: &mut Nodes) -> Result<(), AllocError>
    requires arena { IsArena family (cells_of nodes.old) nodes.old.free }
    ensures cells { cells_of nodes.new ≡ cells_of nodes.old }
    ensures free { nodes.new.free ≡ nodes.old.free }
    ensures len { vec_len nodes.new.halves ≡ vec_len nodes.old.halves }
    ensures best { OnOk result (KeepsBest family (cells_of nodes.new) (best_in nodes.new)) }
{
    let depth = family.width();
    settle(alloc, nodes, 0, 0, depth)?;
    Ok(())
}

/// Sets those of the routes that are left and of the family, each in its turn.
///
/// # Errors
///
/// Out of memory, also if there would be 2^31 nodes or more; then the first n routes may be set, for some n.
fn insert_rest<S: EntrySource>(
    family: Family,
    nodes: &mut Nodes,
    routes: &mut S,
) -> Result<(), AllocError>
    requires arena { IsArena family (cells_of nodes.old) nodes.old.free }
    requires order { InPlace (of_table family (rows_of Route (whole family (cells_of nodes.old)))) }
    ensures { OnOk result (Lays family Route (cells_of nodes.old) (cells_of nodes.new)
        nodes.new.free (best_in nodes.old) (best_in nodes.new) (S.left routes.old) []) }
{
    while let Some(first) = routes.first() {
        insert_one(family, nodes, Label::Route, &first)?;
        routes.pass();
    }
    Ok(())
}

/// Sets those of the routes that are of the family in a tree of the root alone, each in its turn, and computes what all nodes
/// keep. The first n of them that stand in the order of prefixes are built in one walk; only if more are left are those set
/// after it, and what the nodes keep computed anew.
///
/// # Errors
///
/// Out of memory, also if there would be 2^31 nodes or more.
pub(crate) fn load_all<S: EntrySource>(
    alloc: Global,
    family: Family,
    nodes: &mut Nodes,
    routes: &mut S,
) -> Result<(), AllocError>
    requires arena { IsArena family (cells_of nodes.old) nodes.old.free }
    requires bare { cells_of nodes.old ≡ blank_cell ∷ [] }
    requires prefixes { AllByRecursion IsPrefix (keys_of (S.left routes.old)) }
    ensures lays { OnOk result (Lays family Route (cells_of nodes.old) (cells_of nodes.new)
        nodes.new.free (best_in nodes.old) (best_in nodes.new) (S.left routes.old) []) }
    ensures best { OnOk result (KeepsBest family (cells_of nodes.new) (best_in nodes.new)) }
{
    skip_others(family, routes);
    build_all(alloc, family, nodes, routes)?;
    skip_others(family, routes);
    if routes.first().is_none() {
        return Ok(());
    }
    insert_rest(family, nodes, routes)?;
    settle_all(alloc, family, nodes)?;
    Ok(())
}
