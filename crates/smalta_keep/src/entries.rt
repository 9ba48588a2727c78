//! Changes of the tree's entries, with the memory for them taken before.

ghost use Rattle.std.specs.Prelude.{◌≡◌, List, Bool, true, OnOk, Some, IsSome, map, option_map};
ghost use Rattle.table_model.specs.Changes.{after_change, after_changes};
ghost use Rattle.kept_model.specs.Between.{place_of};
ghost use Rattle.fib_addr.specs.Views.{prefix_as};
ghost use Rattle.fib_delta.specs.Views.{change_as};
ghost use Rattle.smalta_keep.specs.Rooms.{HasNode, HaveRoom, IsNodeAt, AreOf, KeepsRoutes};

use fib_addr::Prefix;
use fib_delta::Change;
use orig_tree::Tree;
use std::alloc::AllocError;

/// Whether a change takes an entry away or is at this prefix: it makes no node if the prefix is one.
fn is_at(change: &Change, at: Option<Prefix>) -> bool
    ensures { result ≡ true → (nodes : List (List Bool)) → IsNodeAt (option_map prefix_as at) nodes
        → HasNode nodes (change_as change.now) }
{
    match change {
        Change::Add(prefix, _) | Change::Replace(prefix, _) => at == Some(*prefix),
        Change::Remove(_) => true,
    }
}

/// Whether each of the changes takes an entry away or is at this prefix: they make no node if the prefix is one.
pub fn are_at(changes: &[Change], at: Option<Prefix>) -> bool
    ensures { result ≡ true → (nodes : List (List Bool)) → IsNodeAt (option_map prefix_as at) nodes
        → HaveRoom nodes (map change_as changes.now) }
{
    for change in changes {
        if !is_at(change, at) {
            return false;
        }
    }
    true
}

/// Makes room for a change.
fn make_room_for(tree: &mut Tree, change: &Change) -> Result<(), AllocError>
    requires { (place_of (change_as change.now)).family ≡ tree.old.family }
    ensures keeps { KeepsRoutes tree.old tree.new }
    ensures entries { tree.new.entries ≡ tree.old.entries }
    ensures room { OnOk result (HasNode tree.new.nodes (change_as change.now)) }
{
    match change {
        Change::Add(prefix, _) | Change::Replace(prefix, _) => tree.room(prefix)?,
        Change::Remove(_) => {}
    }
    Ok(())
}

/// Makes room for changes, so that they take no memory.
pub fn make_room(tree: &mut Tree, changes: &[Change]) -> Result<(), AllocError>
    requires { AreOf tree.old.family (map change_as changes.now) }
    ensures keeps { KeepsRoutes tree.old tree.new }
    ensures entries { tree.new.entries ≡ tree.old.entries }
    ensures room { OnOk result (HaveRoom tree.new.nodes (map change_as changes.now)) }
{
    for change in changes {
        make_room_for(tree, change)?;
    }
    Ok(())
}

/// Makes a change, for which there is room and which fits the entries.
fn apply(tree: &mut Tree, change: &Change)
    requires family { (place_of (change_as change.now)).family ≡ tree.old.family }
    requires room { HasNode tree.old.nodes (change_as change.now) }
    requires fits { IsSome (after_change (change_as change.now) tree.old.entries) }
    ensures keeps { KeepsRoutes tree.old tree.new }
    ensures before { tree.new.before ≡ tree.old.before }
    ensures entries { after_change (change_as change.now) tree.old.entries ≡ Some tree.new.entries }
{
    match change {
        Change::Add(prefix, hop) | Change::Replace(prefix, hop) => {
            let _made = tree.set_entry(prefix, *hop);
        }
        Change::Remove(prefix) => tree.clear_entry(prefix),
    }
}

/// Makes changes, for which there is room and which fit the entries. It takes no memory.
pub fn apply_all(tree: &mut Tree, changes: &[Change])
    requires family { AreOf tree.old.family (map change_as changes.now) }
    requires room { HaveRoom tree.old.nodes (map change_as changes.now) }
    requires fit { IsSome (after_changes (map change_as changes.now) tree.old.entries) }
    ensures keeps { KeepsRoutes tree.old tree.new }
    ensures before { tree.new.before ≡ tree.old.before }
    ensures entries { after_changes (map change_as changes.now) tree.old.entries
        ≡ Some tree.new.entries }
{
    for change in changes {
        apply(tree, change);
    }
}
