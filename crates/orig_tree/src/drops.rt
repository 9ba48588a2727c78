//! Nodes that nothing uses are given back: each place is a spare one then.

ghost use Rattle.std.specs.Prelude.{◌≡◌, ◌≤◌, ◌+◌, ◌||◌, ℕ, List, Bool, [], vec_len, slice_set, cond};
ghost use Rattle.std.specs.Option.{is_some};
ghost use Rattle.orig_tree.specs.Views.{path_steps};
ghost use Rattle.orig_tree.specs.Arena.{cells_of, Owner, link, IsTree, HasSpares, IfHalf};
ghost use Rattle.orig_tree.specs.Bests.{bests_of};
ghost use Rattle.orig_tree.specs.Drops.{with_halves, spare_node, NodeTrimmed, HalfTrimmed};

use crate::node::{Node, Nodes, leaf, put, read};
use crate::path::{Path, bit_at};

/// Whether a node has a label of its own.
fn has_label(node: Node) -> bool
    ensures { result ≡ (is_some node.route.hop || is_some node.entry.hop) }
{
    node.route.hop.is_some() || node.entry.hop.is_some()
}

/// The place of a half, if it stays.
fn if_stays(half: u32, stays: bool) -> u32
    ensures { result ≡ cond stays half 0 }
{
    if stays { half } else { 0 }
}

/// The node with those of its halves that stay.
fn keep_halves(node: Node, low: bool, high: bool) -> Node
    ensures { result ≡ with_halves node low high }
{
    Node {
        low: if_stays(node.low, low),
        high: if_stays(node.high, high),
        ..node
    }
}

/// A spare place, which links to the next one.
fn spare(next: u32) -> Node
    ensures { result ≡ spare_node next }
{
    Node {
        low: next,
        ..leaf()
    }
}

/// Gives a place back: it is the first spare one then.
fn give(nodes: &mut Nodes, place: u32)
    ensures cells { cells_of nodes.new
        ≡ slice_set (cells_of nodes.old) place (spare_node nodes.old.free) }
    ensures free { nodes.new.free ≡ place }
    ensures kept { bests_of nodes.new ≡ bests_of nodes.old }
    ensures len { vec_len nodes.new.halves ≡ vec_len nodes.old.halves }
{
    let node = spare(nodes.free);
    put(nodes, place as usize, node);
    nodes.free = place;
}

/// Sets which of its halves a node keeps. One that is no node is none whatever is said.
fn settle(nodes: &mut Nodes, i: usize, node: Node, low: bool, high: bool)
    ensures cells { cells_of nodes.new
        ≡ slice_set (cells_of nodes.old) i (with_halves node low high) }
    ensures free { nodes.new.free ≡ nodes.old.free }
    ensures kept { bests_of nodes.new ≡ bests_of nodes.old }
    ensures len { vec_len nodes.new.halves ≡ vec_len nodes.old.halves }
{
    let new = keep_halves(node, low, high);
    put(nodes, i, new);
}

fn any(low: bool, high: bool, own: bool) -> bool
    ensures { result ≡ (low || (high || own)) }
{
    low || high || own
}

/// Drops the nodes below a node that have no label at or below them, and returns whether it has one at or below itself. It
/// changes no table.
#[cycle(prune)]
fn prune(nodes: &mut Nodes, i: usize, depth: u8) -> bool
    ensures trimmed { (d : ℕ) (name : ℕ → Owner) (spares : ℕ) (p : List Bool) → d ≤ depth + 1
        → IsTree d (cells_of nodes.old) name i p → HasSpares (cells_of nodes.old) nodes.old.free name
        spares → NodeTrimmed d [] (cells_of nodes.old) (cells_of nodes.new) nodes.new.free name i p
        result }
    ensures kept { bests_of nodes.new ≡ bests_of nodes.old }
    ensures len { vec_len nodes.new.halves ≡ vec_len nodes.old.halves }
{
    let node = read(nodes, i);
    let low = prune_half(nodes, node.low, depth);
    let high = prune_half(nodes, node.high, depth);
    settle(nodes, i, node, low, high);
    any(low, high, has_label(node))
}

/// The same of a half, if it is a node; its own is given back if it has no label at or below itself.
#[cycle(prune)]
fn prune_half(nodes: &mut Nodes, half: u32, depth: u8) -> bool
    ensures trimmed { (d : ℕ) (name : ℕ → Owner) (spares : ℕ) (p : List Bool) → d ≤ depth
        → IfHalf (λ j. IsTree d (cells_of nodes.old) name j p) (link half)
        → HasSpares (cells_of nodes.old) nodes.old.free name spares
        → HalfTrimmed d [] (cells_of nodes.old) (cells_of nodes.new) nodes.new.free name (link half) p
        result }
    ensures kept { bests_of nodes.new ≡ bests_of nodes.old }
    ensures len { vec_len nodes.new.halves ≡ vec_len nodes.old.halves }
{
    if half == 0 {
        return false;
    }
    if depth == 0 {
        return true;
    }
    if prune(nodes, half as usize, depth - 1) {
        return true;
    }
    give(nodes, half);
    false
}

/// Drops the nodes of a path and below it that have no label at or below them, and those on the way to it that then have
/// none and nothing below them, but not the node itself; and returns whether the node has something left. It changes no table.
#[cycle(trim)]
pub(crate) fn trim(nodes: &mut Nodes, i: usize, path: Path, depth: u8) -> bool
    requires { path.left ≤ 128 }
    ensures trimmed { (d : ℕ) (name : ℕ → Owner) (spares : ℕ) (p : List Bool) → d ≤ depth + 1
        → IsTree d (cells_of nodes.old) name i p → HasSpares (cells_of nodes.old) nodes.old.free name
        spares → NodeTrimmed d (path_steps path) (cells_of nodes.old) (cells_of nodes.new)
        nodes.new.free name i p result }
    ensures kept { bests_of nodes.new ≡ bests_of nodes.old }
    ensures len { vec_len nodes.new.halves ≡ vec_len nodes.old.halves }
{
    if path.left == 0 {
        return prune(nodes, i, depth);
    }
    let at = path.left - 1;
    let rest = Path { left: at, ..path };
    let node = read(nodes, i);
    if bit_at(path.bits, at) {
        let high = trim_half(nodes, node.high, rest, depth);
        settle(nodes, i, node, true, high);
        return any(node.half(false).is_some(), high, has_label(node));
    }
    let low = trim_half(nodes, node.low, rest, depth);
    settle(nodes, i, node, low, true);
    any(low, node.half(true).is_some(), has_label(node))
}

/// The same of a half, if it is a node; its own is given back if it has nothing left.
#[cycle(trim)]
fn trim_half(nodes: &mut Nodes, half: u32, path: Path, depth: u8) -> bool
    requires { path.left ≤ 128 }
    ensures trimmed { (d : ℕ) (name : ℕ → Owner) (spares : ℕ) (p : List Bool) → d ≤ depth
        → IfHalf (λ j. IsTree d (cells_of nodes.old) name j p) (link half)
        → HasSpares (cells_of nodes.old) nodes.old.free name spares
        → HalfTrimmed d (path_steps path) (cells_of nodes.old) (cells_of nodes.new) nodes.new.free
        name (link half) p result }
    ensures kept { bests_of nodes.new ≡ bests_of nodes.old }
    ensures len { vec_len nodes.new.halves ≡ vec_len nodes.old.halves }
{
    if half == 0 {
        return false;
    }
    if depth == 0 {
        return true;
    }
    if trim(nodes, half as usize, path, depth - 1) {
        return true;
    }
    give(nodes, half);
    false
}
