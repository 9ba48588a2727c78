//! The array as one tree from its root on.

ghost use Rattle.std.specs.Prelude.{◌≡◌, ◌≤◌, ℕ, OnOk, OnErr, IsOk, IfOk, true, Option, None, Some, vec_len, ◌+◌, ◌∷◌, []};
ghost use Rattle.table_model.specs.Width.{width};
ghost use Rattle.table_model.specs.Regions.{entry_at};
ghost use Rattle.orig_tree.specs.Walk.{walks_of, no_walks, edited, CanEdit, has_node};
ghost use Rattle.orig_tree.specs.Trims.{IsTrimmed};
ghost use Rattle.orig_tree.specs.Views.{path_steps};
ghost use Rattle.orig_tree.specs.Arena.{blank_cell, cells_of, whole, IsArena, IsRoomier, HalvesStay};
ghost use Rattle.orig_tree.specs.Bests.{best_in, best_one, bests_of, KeepsBest, IsLaid};
ghost use Rattle.orig_tree.specs.Undos.{UndoesChange, CanUndo};
ghost use Rattle.orig_tree.specs.Within.{nodes_in};
ghost use Rattle.orig_tree.specs.declared.node.Label.TheVariants.{Route, Entry};

use crate::best::{Change, commit, no_changes, revert};
use crate::counter::Counter;
use crate::drops::trim;
use crate::mend::plan;
use crate::node::{
    Label, Nodes, assign, grow, grow_label, is_node, reserve, root_alone, set_label,
};
use crate::path::Path;
use crate::undo::Undo;
use fib_addr::Family;
use std::alloc::{AllocError, Global};

/// The nodes of a tree with no routes and no entries: all addresses get none.
pub(crate) fn empty(alloc: Global, family: Family) -> Nodes
    ensures arena { IsArena family (cells_of result) result.free }
    ensures bare { whole family (cells_of result) ≡ walks_of None None no_walks no_walks }
    ensures alone { cells_of result ≡ blank_cell ∷ [] }
    ensures kept { (i : ℕ) → best_in result i ≡ best_one 0 }
    ensures len { vec_len result.halves ≡ 0 }
{
    let _ = family;
    root_alone(alloc)
}

/// Makes a path a node. It changes no table. If it is one already, nothing changes; else the last change of a route can't
/// be taken back any more.
///
/// # Errors
///
/// Out of memory; then nothing has changed.
pub(crate) fn make_room(
    family: Family,
    nodes: &mut Nodes,
    undo: &mut Option<Undo>,
    path: Path,
) -> Result<(), AllocError>
    requires few { path.left ≤ width family }
    requires arena { IsArena family (cells_of nodes.old) nodes.old.free }
    requires best { KeepsBest family (cells_of nodes.old) (best_in nodes.old) }
    requires undo { CanUndo family (cells_of nodes.old) (best_in nodes.old) undo.old }
    ensures arena { IsArena family (cells_of nodes.new) nodes.new.free }
    ensures best { KeepsBest family (cells_of nodes.new) (best_in nodes.new) }
    ensures undo { CanUndo family (cells_of nodes.new) (best_in nodes.new) undo.new }
    ensures walks { IsRoomier (path_steps path) (whole family (cells_of nodes.old)) (whole family
        (cells_of nodes.new)) }
    ensures ok { OnOk result (has_node (path_steps path) (whole family (cells_of nodes.new)).nodes
        ≡ true) }
    ensures err { OnErr result ((whole family (cells_of nodes.new)
        ≡ whole family (cells_of nodes.old)) × (undo.new ≡ undo.old)) }
    ensures held { has_node (path_steps path) (whole family (cells_of nodes.old)).nodes ≡ true
        → IsOk result × (whole family (cells_of nodes.new) ≡ whole family (cells_of nodes.old))
        × (undo.new ≡ undo.old) }
{
    let _ = family;
    if is_node(nodes, 0, path) {
        return Ok(());
    }
    reserve(nodes, path.left as usize)?;
    grow(nodes, 0, path, 0);
    *undo = None;
    Ok(())
}

/// Makes a path a node and sets its route, with what is kept for the regions that it changes. The list is room for the
/// changes, and is returned.
///
/// # Errors
///
/// Out of memory; then nothing has changed.
pub(crate) fn insert_route<C: Counter>(
    alloc: Global,
    family: Family,
    nodes: &mut Nodes,
    path: Path,
    hop: u16,
    spare: Vec<Change>,
    steps: &mut C,
) -> Result<Vec<Change>, AllocError>
    requires few { path.left ≤ width family }
    requires arena { IsArena family (cells_of nodes.old) nodes.old.free }
    requires best { KeepsBest family (cells_of nodes.old) (best_in nodes.old) }
    ensures arena { IsArena family (cells_of nodes.new) nodes.new.free }
    ensures best { KeepsBest family (cells_of nodes.new) (best_in nodes.new) }
    ensures laid { OnOk result (IsLaid Route (path_steps path) hop (whole family
        (cells_of nodes.old)) (whole family (cells_of nodes.new))) }
    ensures err { OnErr result ((cells_of nodes.new ≡ cells_of nodes.old)
        × ((j : ℕ) → best_in nodes.new j ≡ best_in nodes.old j)) }
    ensures steps { C.count steps.new ≤ C.count steps.old + path.left + 1
        + nodes_in (path_steps path) (whole family (cells_of nodes.old)).nodes }
{
    reserve(nodes, path.left as usize)?;
    let depth = family.width();
    let mut planned = no_changes(alloc, spare, depth)?;
    planned.set = Some(hop);
    plan(nodes, 0, path, depth, 0, &mut planned, steps)?;
    commit(nodes, &mut planned.changes);
    grow_label(nodes, 0, path, 0, Label::Route, hop, steps);
    Ok(planned.changes)
}

/// Sets the route of a path that has a node, or takes the path's route away, with what is kept for the regions that it
/// changes. What was kept before is returned, so that it can be taken back; the list is room for it.
///
/// # Errors
///
/// Out of memory; then nothing has changed.
pub(crate) fn update_route<C: Counter>(
    alloc: Global,
    family: Family,
    nodes: &mut Nodes,
    path: Path,
    set: Option<u16>,
    spare: Vec<Change>,
    steps: &mut C,
) -> Result<Vec<Change>, AllocError>
    requires few { path.left ≤ width family }
    requires arena { IsArena family (cells_of nodes.old) nodes.old.free }
    requires best { KeepsBest family (cells_of nodes.old) (best_in nodes.old) }
    requires allowed { CanEdit (path_steps path) set (whole family (cells_of nodes.old)).nodes }
    ensures arena { IsArena family (cells_of nodes.new) nodes.new.free }
    ensures best { KeepsBest family (cells_of nodes.new) (best_in nodes.new) }
    ensures walks { OnOk result (whole family (cells_of nodes.new)
        ≡ edited Route (path_steps path) set (whole family (cells_of nodes.old))) }
    ensures back { IfOk result (λ v. (hop : Option ℕ) → hop ≡ entry_at (path_steps path) (whole family
        (cells_of nodes.old)).routes → has_node (path_steps path) (whole family (cells_of
        nodes.old)).nodes ≡ true → UndoesChange family (whole family (cells_of nodes.old)).routes
        (cells_of nodes.new) (best_in nodes.new) (record {
          path = path;
          changes = v;
          hop = hop;
        })) }
    ensures err { OnErr result ((cells_of nodes.new ≡ cells_of nodes.old)
        × ((j : ℕ) → best_in nodes.new j ≡ best_in nodes.old j)) }
    ensures steps { C.count steps.new ≤ C.count steps.old + path.left + 1
        + nodes_in (path_steps path) (whole family (cells_of nodes.old)).nodes }
{
    let depth = family.width();
    let mut planned = no_changes(alloc, spare, depth)?;
    planned.set = set;
    plan(nodes, 0, path, depth, 0, &mut planned, steps)?;
    commit(nodes, &mut planned.changes);
    assign(nodes, 0, Label::Route, path, set);
    Ok(planned.changes)
}

/// Takes a change of a route back, with what was kept before, and returns the room that it took. It takes no memory.
pub(crate) fn take_back(family: Family, nodes: &mut Nodes, undo: Undo) -> Vec<Change>
    requires arena { IsArena family (cells_of nodes.old) nodes.old.free }
    requires undo { CanUndo family (cells_of nodes.old) (best_in nodes.old) (Some undo) }
    ensures arena { IsArena family (cells_of nodes.new) nodes.new.free }
    ensures best { KeepsBest family (cells_of nodes.new) (best_in nodes.new) }
    ensures walks { whole family (cells_of nodes.new) ≡ edited Route (path_steps undo.path)
        undo.hop (whole family (cells_of nodes.old)) }
{
    let _ = family;
    let room = revert(nodes, undo.changes);
    assign(nodes, 0, Label::Route, undo.path, undo.hop);
    room
}

/// Sets the entry of a path that has a node, or takes the path's entry away.
pub(crate) fn change(family: Family, nodes: &mut Nodes, path: Path, hop: Option<u16>)
    requires few { path.left ≤ width family }
    requires arena { IsArena family (cells_of nodes.old) nodes.old.free }
    requires allowed { CanEdit (path_steps path) hop (whole family (cells_of nodes.old)).nodes }
    ensures arena { IsArena family (cells_of nodes.new) nodes.new.free }
    ensures walks { whole family (cells_of nodes.new) ≡ edited Entry (path_steps path) hop (whole
        family (cells_of nodes.old)) }
    ensures halves { HalvesStay (cells_of nodes.old) (cells_of nodes.new) }
    ensures kept { bests_of nodes.new ≡ bests_of nodes.old }
    ensures len { vec_len nodes.new.halves ≡ vec_len nodes.old.halves }
{
    let _ = family;
    assign(nodes, 0, Label::Entry, path, hop);
}

/// Makes a path a node and sets its entry. If it is no node yet, the last change of a route can't be taken back any more.
///
/// # Errors
///
/// Out of memory, only if the path is no node; then nothing has changed.
pub(crate) fn insert_entry(
    family: Family,
    nodes: &mut Nodes,
    undo: &mut Option<Undo>,
    path: Path,
    hop: u16,
) -> Result<(), AllocError>
    requires few { path.left ≤ width family }
    requires arena { IsArena family (cells_of nodes.old) nodes.old.free }
    requires best { KeepsBest family (cells_of nodes.old) (best_in nodes.old) }
    requires undo { CanUndo family (cells_of nodes.old) (best_in nodes.old) undo.old }
    ensures arena { IsArena family (cells_of nodes.new) nodes.new.free }
    ensures best { KeepsBest family (cells_of nodes.new) (best_in nodes.new) }
    ensures undo { CanUndo family (cells_of nodes.new) (best_in nodes.new) undo.new }
    ensures laid { OnOk result (IsLaid Entry (path_steps path) hop (whole family
        (cells_of nodes.old)) (whole family (cells_of nodes.new))) }
    ensures err { OnErr result ((whole family (cells_of nodes.new)
        ≡ whole family (cells_of nodes.old)) × (undo.new ≡ undo.old)) }
    ensures held { has_node (path_steps path) (whole family (cells_of nodes.old)).nodes ≡ true
        → IsOk result × (undo.new ≡ undo.old) }
{
    if undo.is_some() && is_node(nodes, 0, path) {
        change(family, nodes, path, Some(hop));
        return Ok(());
    }
    set_label(nodes, 0, path, 0, Label::Entry, hop)?;
    *undo = None;
    Ok(())
}

/// Drops the nodes of a path and below it that nothing uses. It changes no table.
pub(crate) fn drop_unused(family: Family, nodes: &mut Nodes, path: Path)
    requires few { path.left ≤ width family }
    requires arena { IsArena family (cells_of nodes.old) nodes.old.free }
    ensures arena { IsArena family (cells_of nodes.new) nodes.new.free }
    ensures routes { (whole family (cells_of nodes.new)).routes
        ≡ (whole family (cells_of nodes.old)).routes }
    ensures entries { (whole family (cells_of nodes.new)).entries
        ≡ (whole family (cells_of nodes.old)).entries }
    ensures trimmed { IsTrimmed (path_steps path) (whole family (cells_of nodes.old)) (whole family
        (cells_of nodes.new)) }
    ensures best { KeepsBest family (cells_of nodes.old) (best_in nodes.old)
        → KeepsBest family (cells_of nodes.new) (best_in nodes.new) }
    ensures len { vec_len nodes.new.halves ≡ vec_len nodes.old.halves }
{
    trim(nodes, 0, path, family.width());
}
