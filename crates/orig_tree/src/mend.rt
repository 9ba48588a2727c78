//! What the nodes are to keep if a route changes: those on the way to its prefix, and those within it with an address that
//! no other route keeps from it.
//!
//! A step is a set computed: one that a node is to keep, put together from those of its halves, or made of the hop that all its
//! addresses get. What a region keeps that has no node is no step: it is the hop from above, and of the route that is set there.

ghost use Rattle.std.specs.Prelude.{◌≡◌, ◌≢◌, ◌≤◌, ◌+◌, ◌++◌, ℕ, suc, List, length, Bool, true, false, [], ◌∷◌, Option, IfOk, OnOk, not, ◌&&◌, cond, vec_len};
ghost use Rattle.std.specs.Option.{unwrap_or, is_some};
ghost use Rattle.table_model.specs.Bits.{bits_of};
ghost use Rattle.table_model.specs.Table.{lpm};
ghost use Rattle.table_model.specs.Sets.{side};
ghost use Rattle.orig_tree.specs.Edits.{edit};
ghost use Rattle.orig_tree.specs.Packed.{cover_in};
ghost use Rattle.orig_tree.specs.Views.{path_steps};
ghost use Rattle.orig_tree.specs.Arena.{cells_of, Owner, IfHalf, IsTree, walks_at, from_half};
ghost use Rattle.orig_tree.specs.Within.{nodes_in};
ghost use Rattle.orig_tree.specs.Steps.{new_nodes, new_behind};
ghost use Rattle.orig_tree.specs.Bests.{IsRegionBest, best_one, best_in, best_behind, changed, under, AreBest, Untouched, IsMended, HalfMended};

use crate::best::{Best, Change, Plan, fresh, half_keeps};
use crate::counter::Counter;
use crate::node::{Node, Nodes, best_at, read};
use crate::path::{Path, bit_at};
use std::alloc::{AllocError, Global};

/// Notes what a place is to keep.
fn note(place: usize, best: &Best, out: &mut Plan) -> Result<(), AllocError>
    ensures { OnOk result (out.new.changes.items ≡ out.old.changes.items
        ++ record { place = place; best = best.now } ∷ []) }
{
    let best = best.copied(out.alloc)?;
    out.changes.push(Change { place, best })?;
    Ok(())
}

/// What a region keeps, from what the half of a bit keeps and the other half.
fn join_sides(alloc: Global, bit: bool, near: &Best, far: &Best) -> Result<Best, AllocError>
    ensures { IfOk result (λ x. (d : ℕ) (f : List Bool → ℕ) → IsRegionBest d (side bit f) near.now
        → IsRegionBest d (side (not bit) f) far.now → IsRegionBest (suc d) f x) }
{
    if bit {
        Best::joined(alloc, far, near)
    } else {
        Best::joined(alloc, near, far)
    }
}

/// The region of a node, of `depth` bits, if the node's own hop is this one, with the changes to what is kept there.
#[cycle(mend)]
fn mend<C: Counter>(
    nodes: &Nodes,
    i: usize,
    hop: u16,
    depth: u8,
    out: &mut Plan,
    steps: &mut C,
) -> Result<Best, AllocError>
    ensures best { IfOk result (λ x. (name : ℕ → Owner) (p : List Bool) (h : ℕ)
        → IsTree (suc depth) (cells_of nodes.now) name i p
        → AreBest (suc depth) (cells_of nodes.now) (best_in nodes.now) (λ a. lpm (walks_at (suc depth)
        (cells_of nodes.now) i).routes a h) i
        → Untouched p name (best_in nodes.now) (changed out.old.changes.items (best_in nodes.now))
        → IsMended depth (cells_of nodes.now) name i p (under hop (walks_at (suc depth) (cells_of
        nodes.now) i).routes) (changed out.old.changes.items (best_in nodes.now))
        (changed out.new.changes.items (best_in nodes.now)) x) }
    ensures steps { C.count steps.new ≤ C.count steps.old + length (walks_at (suc depth) (cells_of
        nodes.now) i).nodes }
{
    if depth == 0 {
        steps.tick();
        let best = Best::one(hop);
        note(i, &best, out)?;
        return Ok(best);
    }
    let node = read(nodes, i);
    let low = mend_half(nodes, node.half(false), hop, depth - 1, out, steps)?;
    let high = mend_half(nodes, node.half(true), hop, depth - 1, out, steps)?;
    steps.tick();
    let best = Best::joined(out.alloc, &low, &high)?;
    note(i, &best, out)?;
    Ok(best)
}

/// Whether some address of a node's region may get a hop from above the node: its own route keeps all of them from it, and
/// so do routes that cover the region.
fn is_open(node: Node) -> bool
    ensures { result ≡ (not (is_some node.route.hop) && (cover_in node.route).passes) }
{
    node.route.hop.is_none() && node.route.kept.open().passes
}

/// The same of a half, which inherits the hop, if it gets to any address there.
#[cycle(mend)]
fn mend_half<C: Counter>(
    nodes: &Nodes,
    half: Option<usize>,
    hop: u16,
    depth: u8,
    out: &mut Plan,
    steps: &mut C,
) -> Result<Best, AllocError>
    ensures best { IfOk result (λ x. (name : ℕ → Owner) (p : List Bool) (h : ℕ)
        → IfHalf (λ j. IsTree (suc depth) (cells_of nodes.now) name j p) half
        → IfHalf (λ j. AreBest (suc depth) (cells_of nodes.now) (best_in nodes.now) (λ a. lpm (walks_at
        (suc depth) (cells_of nodes.now) j).routes a h) j) half
        → Untouched p name (best_in nodes.now) (changed out.old.changes.items (best_in nodes.now))
        → HalfMended depth (cells_of nodes.now) name half p (λ a. lpm (from_half (walks_at (suc depth)
        (cells_of nodes.now)) half).routes a hop) (changed out.old.changes.items (best_in nodes.now))
        (changed out.new.changes.items (best_in nodes.now)) x) }
    ensures steps { C.count steps.new ≤ C.count steps.old + length (from_half (walks_at (suc depth)
        (cells_of nodes.now)) half).nodes }
{
    match half {
        None => Ok(Best::one(hop)),
        Some(j) => {
            if is_open(read(nodes, j)) {
                return mend(nodes, j, hop, depth, out, steps);
            }
            let none = Best::one(0);
            best_at(nodes, j, &none).copied(out.alloc)
        }
    }
}

/// The region of a node, of `depth` bits, that inherits the hop, if the route at a path below it becomes the plan's, with the
/// changes to what is kept there. The path needs no node. It returns whether the region is to keep anything else,
/// which is left in `near`; if not, no region above it is to either.
#[cycle(plan)]
pub(crate) fn plan<C: Counter>(
    nodes: &Nodes,
    i: usize,
    path: Path,
    depth: u8,
    inherited: u16,
    out: &mut Plan,
    steps: &mut C,
) -> Result<bool, AllocError>
    requires few { path.left ≤ depth }
    requires most { depth ≤ 128 }
    ensures best { IfOk result (λ more. (name : ℕ → Owner) (p : List Bool)
        → IsTree (suc depth) (cells_of nodes.now) name i p
        → AreBest (suc depth) (cells_of nodes.now) (best_in nodes.now) (λ a. lpm (walks_at (suc depth)
        (cells_of nodes.now) i).routes a inherited) i
        → Untouched p name (best_in nodes.now) (changed out.old.changes.items (best_in nodes.now))
        → IsMended depth (cells_of nodes.now) name i p (λ a. lpm (edit (path_steps path) out.old.set
        (walks_at (suc depth) (cells_of nodes.now) i).routes) a inherited)
        (changed out.old.changes.items (best_in nodes.now))
        (changed out.new.changes.items (best_in nodes.now))
        (cond more out.new.near (best_in nodes.now i))) }
    ensures steps { C.count steps.new + new_nodes (cells_of nodes.now) (path_steps path) i
        ≤ C.count steps.old + path.left + 1 + nodes_in (path_steps path)
        (walks_at (suc depth) (cells_of nodes.now) i).nodes }
{
    if path.left == 0 {
        out.near = mend(nodes, i, out.set.unwrap_or(inherited), depth, out, steps)?;
        return Ok(true);
    }
    let node = read(nodes, i);
    let hop = node.route.hop.unwrap_or(inherited);
    let at = path.left - 1;
    let bit = bit_at(path.bits, at);
    let rest = Path { left: at, ..path };
    let more = plan_half(nodes, node.half(bit), rest, depth - 1, hop, out, steps)?;
    if !more {
        return Ok(false);
    }
    let none = Best::one(0);
    let bare = Best::one(hop);
    let far = half_keeps(nodes, node.half(!bit), &none, &bare);
    steps.tick();
    let best = join_sides(out.alloc, bit, &out.near, far)?;
    if best.is_same(best_at(nodes, i, &none)) {
        return Ok(false);
    }
    note(i, &best, out)?;
    out.near = best;
    Ok(true)
}

/// The same of a half.
#[cycle(plan)]
fn plan_half<C: Counter>(
    nodes: &Nodes,
    half: Option<usize>,
    path: Path,
    depth: u8,
    inherited: u16,
    out: &mut Plan,
    steps: &mut C,
) -> Result<bool, AllocError>
    requires few { path.left ≤ depth }
    requires most { depth ≤ 128 }
    ensures best { IfOk result (λ more. (name : ℕ → Owner) (p : List Bool)
        → IfHalf (λ j. IsTree (suc depth) (cells_of nodes.now) name j p) half
        → IfHalf (λ j. AreBest (suc depth) (cells_of nodes.now) (best_in nodes.now) (λ a. lpm (walks_at
        (suc depth) (cells_of nodes.now) j).routes a inherited) j) half
        → Untouched p name (best_in nodes.now) (changed out.old.changes.items (best_in nodes.now))
        → HalfMended depth (cells_of nodes.now) name half p (λ a. lpm (edit (path_steps path)
        out.old.set (from_half (walks_at (suc depth) (cells_of nodes.now)) half).routes) a inherited)
        (changed out.old.changes.items (best_in nodes.now))
        (changed out.new.changes.items (best_in nodes.now))
        (cond more out.new.near (best_behind (best_in nodes.now) half (best_one inherited)))) }
    ensures steps { C.count steps.new + new_behind (cells_of nodes.now) (path_steps path) half
        ≤ C.count steps.old + path.left + 1 + nodes_in (path_steps path)
        (from_half (walks_at (suc depth) (cells_of nodes.now)) half).nodes }
{
    match half {
        None => {
            out.near = fresh(path.left, inherited, out.set);
            Ok(true)
        }
        Some(j) => plan(nodes, j, path, depth, inherited, out, steps),
    }
}
