//! Nodes of the tree that nothing uses any more are given back.

ghost use Rattle.std.specs.Prelude.{◌≡◌, map};
ghost use Rattle.std.specs.Option.{ForSome};
ghost use Rattle.kept_model.specs.Between.{place_of};
ghost use Rattle.fib_delta.specs.Views.{change_as};
ghost use Rattle.smalta_keep.specs.Rooms.{AreOf, ChangesNodes};

use crate::node_at;
use fib_addr::Prefix;
use fib_delta::Change;
use orig_tree::{Label, NodeRef, Tree};

/// The prefix of an entry that a change takes away if it was made, or would have added if it wasn't.
fn place_left(change: &Change, made: bool) -> Option<Prefix>
    ensures { ForSome result (λ p. p.family ≡ (place_of (change_as change.now)).family) }
{
    match (change, made) {
        (Change::Remove(prefix), true) | (Change::Add(prefix, _), false) => Some(*prefix),
        _ => None,
    }
}

/// Drops the nodes at a prefix, if there is one, within it and on the way to it that nothing uses.
pub fn trim_at(tree: &mut Tree, prefix: Option<Prefix>)
    requires { ForSome prefix (λ p. p.family ≡ tree.old.family) }
    ensures { ChangesNodes tree.old tree.new }
{
    if let Some(prefix) = prefix {
        tree.trim(&prefix);
    }
}

/// Whether a node has no label of its own and none below it.
fn is_idle(node: &NodeRef<'_>) -> bool {
    node.hop(Label::Route).is_none()
        && node.hop(Label::Entry).is_none()
        && node.half(false).is_none()
        && node.half(true).is_none()
}

/// Whether a prefix is a node that nothing uses, with none below it.
fn is_left(tree: &Tree, prefix: &Prefix) -> bool
    requires { prefix.now.family ≡ tree.now.family }
{
    match node_at(tree, prefix) {
        Some(node) => is_idle(&node),
        None => false,
    }
}

/// Drops the node of a prefix, if there is one, and those on the way to it, as far as nothing uses them and nothing is below them.
pub fn trim_last(tree: &mut Tree, prefix: Option<Prefix>)
    requires { ForSome prefix (λ p. p.family ≡ tree.old.family) }
    ensures { ChangesNodes tree.old tree.new }
{
    if let Some(prefix) = prefix
        && is_left(tree, &prefix)
    {
        tree.trim(&prefix);
    }
}

/// The same if the prefix's route was taken away: one that has a route is used.
pub fn trim_cleared(tree: &mut Tree, prefix: Option<Prefix>, cleared: bool)
    requires { ForSome prefix (λ p. p.family ≡ tree.old.family) }
    ensures { ChangesNodes tree.old tree.new }
{
    if cleared {
        trim_last(tree, prefix);
    }
}

/// Drops the nodes that nothing uses if changes took entries away, or if those that weren't made would have added them.
pub fn trim_left(tree: &mut Tree, changes: &[Change], made: bool)
    requires { AreOf tree.old.family (map change_as changes.now) }
    ensures { ChangesNodes tree.old tree.new }
{
    for change in changes {
        trim_last(tree, place_left(change, made));
    }
}
