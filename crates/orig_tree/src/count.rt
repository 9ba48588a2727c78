//! How many nodes there are within a prefix.

ghost use Rattle.std.specs.Prelude.{◌≡◌, ◌≤◌, ◌^◌, ◌-◌, ℕ, suc, List, Bool, length, min};
ghost use Rattle.orig_tree.specs.Views.{path_steps};
ghost use Rattle.orig_tree.specs.Arena.{cells_of, walks_at, from_half};
ghost use Rattle.orig_tree.specs.Within.{nodes_in, told};

use crate::node::{Nodes, read};
use crate::path::{Path, bit_at};

/// The nodes from a node on, over `depth` levels below it.
#[cycle(count)]
fn count(nodes: &Nodes, i: usize, depth: u8) -> u64
    ensures { result ≡ told (length (walks_at (suc depth) (cells_of nodes.now) i).nodes) }
{
    if depth == 0 {
        return 1;
    }
    let node = read(nodes, i);
    let low = count_half(nodes, node.half(false), depth - 1);
    let high = count_half(nodes, node.half(true), depth - 1);
    low.saturating_add(high).saturating_add(1)
}

/// The same from a half on, whether it is a node or not.
#[cycle(count)]
fn count_half(nodes: &Nodes, half: Option<usize>, depth: u8) -> u64
    ensures { result ≡ told (length (from_half (walks_at (suc depth) (cells_of nodes.now))
        half).nodes) }
{
    match half {
        None => 0,
        Some(j) => count(nodes, j, depth),
    }
}

/// The nodes within a path from a node on.
pub(crate) fn count_within(nodes: &Nodes, i: usize, path: Path, depth: u8) -> u64
    requires few { path.left ≤ depth }
    requires most { depth ≤ 128 }
    ensures { result ≡ told (nodes_in (path_steps path) (walks_at (suc depth) (cells_of nodes.now)
        i).nodes) }
{
    if path.left == 0 {
        return count(nodes, i, depth);
    }
    let at = path.left - 1;
    let rest = Path { left: at, ..path };
    match read(nodes, i).half(bit_at(path.bits, at)) {
        None => 0,
        Some(j) => count_within(nodes, j, rest, depth - 1),
    }
}
