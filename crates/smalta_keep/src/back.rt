//! Changes that take others back.

ghost use Rattle.std.specs.Prelude.{◌≡◌, [], IfOk, cond, map};
ghost use Rattle.kept_model.specs.Between.{entry_hop_at, place_of};
ghost use Rattle.fib_addr.specs.Views.{prefix_as};
ghost use Rattle.fib_delta.specs.Views.{change_as};
ghost use Rattle.smalta_keep.specs.Back.{added_again, replaced_again, taken_back};
ghost use Rattle.smalta_keep.specs.Rooms.{AreOf};

use fib_addr::{Hop, Prefix};
use fib_delta::Change;
use orig_tree::Tree;
use std::alloc::{AllocError, Global};

/// The prefix that a change is at.
pub fn place_of(change: &Change) -> Prefix
    ensures { prefix_as result ≡ place_of (change_as change.now) }
{
    match change {
        Change::Add(prefix, _) | Change::Replace(prefix, _) | Change::Remove(prefix) => *prefix,
    }
}

/// The hop of the tree's entry at a prefix, if there is one.
fn entry_at(tree: &Tree, prefix: &Prefix) -> Option<u16>
    requires { prefix.now.family ≡ tree.now.family }
    ensures { result ≡ entry_hop_at (prefix_as prefix.now) tree.now.entries }
{
    let region = tree.region(prefix);
    region.entry()
}

/// The change that gives a prefix's entry its hop again.
fn replace_again(prefix: Prefix, hop: Option<u16>) -> Change
    ensures { change_as result ≡ replaced_again (prefix_as prefix) hop }
{
    match hop {
        Some(hop) => Change::Replace(prefix, Hop(hop)),
        None => Change::Remove(prefix),
    }
}

/// The change that gives a prefix its entry again.
fn add_again(prefix: Prefix, hop: Option<u16>) -> Change
    ensures { change_as result ≡ added_again (prefix_as prefix) hop }
{
    match hop {
        Some(hop) => Change::Add(prefix, Hop(hop)),
        None => Change::Remove(prefix),
    }
}

/// The change that takes a change of the tree's entries back.
fn take_back(tree: &Tree, change: &Change) -> Change
    requires { (place_of (change_as change.now)).family ≡ tree.now.family }
    ensures { change_as result ≡ taken_back tree.now.entries (change_as change.now) }
{
    match change {
        Change::Add(prefix, _) => Change::Remove(*prefix),
        Change::Replace(prefix, _) => replace_again(*prefix, entry_at(tree, prefix)),
        Change::Remove(prefix) => add_again(*prefix, entry_at(tree, prefix)),
    }
}

/// The changes that take changes of the tree's entries back, if they are asked for.
pub fn taken_back_if(
    alloc: Global,
    asked: bool,
    tree: &Tree,
    changes: &[Change],
) -> Result<Vec<Change>, AllocError>
    requires { AreOf tree.now.family (map change_as changes.now) }
    ensures { IfOk result (λ v. map change_as v.items
        ≡ cond asked (map (taken_back tree.now.entries) (map change_as changes.now)) []) }
{
    let mut back = Vec::new(alloc);
    if asked {
        for change in changes {
            back.push(take_back(tree, change))?;
        }
    }
    Ok(back)
}
