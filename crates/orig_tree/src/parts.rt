//! What a tree has at a prefix, and within it.

ghost use Rattle.std.specs.Prelude.{◌≡◌, ◌≤◌, ◌<◌, ◌+◌, ◌-◌, ℕ, OnOk};
ghost use Rattle.table_model.specs.Width.{width};
ghost use Rattle.table_model.specs.Table.{cut};
ghost use Rattle.table_model.specs.Entries.{of_table};
ghost use Rattle.table_model.specs.Regions.{entry_at, lift};
ghost use Rattle.fib_addr.specs.Views.{prefix_as};
ghost use Rattle.orig_tree.specs.Arena.{cells_of, walks_at, own_route_at};
ghost use Rattle.std.specs.Option.{is_some};
ghost use Rattle.orig_tree.specs.Views.{path_steps, FitsWidth};
ghost use Rattle.orig_tree.specs.Walk.{has_node};

use crate::node::{Label, Nodes, read, tell};
use crate::path::{Path, bit_at};
use fib_addr::{EntrySink, Prefix};
use std::alloc::AllocError;

/// What a tree has at a path: whether it is a node, and the hop of its own route.
#[derive(Clone, Copy)]
pub(crate) struct OwnRoute {
    pub(crate) is_node: bool,
    pub(crate) hop: Option<u16>,
}

/// The hop of a path's own route.
pub(crate) fn route_at(nodes: &Nodes, i: usize, path: Path) -> Option<u16>
    requires { path.left ≤ 128 }
    ensures { (d : ℕ) → path.left < d → result
        ≡ entry_at (path_steps path) (walks_at d (cells_of nodes.now) i).routes }
{
    let node = read(nodes, i);
    if path.left == 0 {
        return node.hop(Label::Route);
    }
    let at = path.left - 1;
    let rest = Path { left: at, ..path };
    match node.half(bit_at(path.bits, at)) {
        None => None,
        Some(j) => route_at(nodes, j, rest),
    }
}

/// The place of a path's node, if it is one.
fn find(nodes: &Nodes, i: usize, path: Path) -> Option<usize>
    requires { path.left ≤ 128 }
    ensures node { (d : ℕ) → path.left < d → is_some result
        ≡ has_node (path_steps path) (walks_at d (cells_of nodes.now) i).nodes }
    ensures route { (d : ℕ) → path.left < d → own_route_at (cells_of nodes.now) result
        ≡ entry_at (path_steps path) (walks_at d (cells_of nodes.now) i).routes }
{
    if path.left == 0 {
        return Some(i);
    }
    let at = path.left - 1;
    let rest = Path { left: at, ..path };
    match read(nodes, i).half(bit_at(path.bits, at)) {
        None => None,
        Some(j) => find(nodes, j, rest),
    }
}

/// What there is at a path, in one walk.
pub(crate) fn seek(nodes: &Nodes, i: usize, path: Path) -> OwnRoute
    requires { path.left ≤ 128 }
    ensures node { (d : ℕ) → path.left < d → result.is_node
        ≡ has_node (path_steps path) (walks_at d (cells_of nodes.now) i).nodes }
    ensures route { (d : ℕ) → path.left < d → result.hop
        ≡ entry_at (path_steps path) (walks_at d (cells_of nodes.now) i).routes }
{
    match find(nodes, i, path) {
        None => OwnRoute {
            is_node: false,
            hop: None,
        },
        Some(j) => OwnRoute {
            is_node: true,
            hop: read(nodes, j).hop(Label::Route),
        },
    }
}

/// Hands on the entries within a path, in the order of prefixes; the path stands for the prefix.
pub(crate) fn tell_within<S: EntrySink>(
    nodes: &Nodes,
    i: usize,
    path: Path,
    prefix: &Prefix,
    out: &mut S,
) -> Result<(), AllocError>
    requires few { path.left ≤ 128 }
    requires ready { S.ready out.old }
    ensures ready { OnOk result (S.ready out.new) }
    ensures takes { (d : ℕ) → path.left + (width prefix.now.family - prefix.now.len) < d
        → FitsWidth (width prefix.now.family - prefix.now.len) (cut (path_steps path)
        (walks_at d (cells_of nodes.now) i).entries) → OnOk result (S.takes out.old (of_table prefix.now.family
        (lift (prefix_as prefix.now).bits (cut (path_steps path) (walks_at d (cells_of nodes.now)
        i).entries))) out.new) }
{
    if path.left == 0 {
        tell(nodes, i, Label::Entry, prefix, out)?;
        return Ok(());
    }
    let at = path.left - 1;
    let rest = Path { left: at, ..path };
    if let Some(j) = read(nodes, i).half(bit_at(path.bits, at)) {
        tell_within(nodes, j, rest, prefix, out)?;
    }
    Ok(())
}
