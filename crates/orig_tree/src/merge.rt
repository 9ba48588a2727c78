//! Many entries set in one walk: as long as the next one is within the region at hand, the walk goes on from there.

ghost use Rattle.std.specs.Prelude.{◌≡◌, ◌≤◌, ◌<◌, ◌-◌, ℕ, List, Bool, true, IfOk, OnOk, IfSome, IfNone, false, vec_len};
ghost use Rattle.table_model.specs.Halves.{half_at};
ghost use Rattle.table_model.specs.Width.{width};
ghost use Rattle.fib_addr.specs.Views.{prefix_as};
ghost use Rattle.orig_tree.specs.Arena.{cells_of, Owner, IsTree, HasSpares};
ghost use Rattle.orig_tree.specs.Bests.{best_in};
ghost use Rattle.orig_tree.specs.Merged.{starts_within, IsHalfMade, Merges};

use crate::best::Best;
use crate::node::{Label, Nodes, climb, read, reserve, split, update_node};
use crate::source::EntrySource;
use fib_addr::{Prefix, bit_at};
use std::alloc::AllocError;

/// The half of the prefix that the first entry's prefix is within, if it is in one. It stands apart, so that the walks that ask it
/// at each level don't hold an entry there.
#[inline(never)]
pub(crate) fn next_half<S: EntrySource>(entries: &S, at: &Prefix) -> Option<bool>
    requires { at.now.len < width at.now.family }
    ensures some { IfSome result (λ b. starts_within (half_at b (prefix_as at.now))
        (S.left entries.now) ≡ true) }
    ensures none { IfNone result ((b : Bool) → starts_within (half_at b (prefix_as at.now))
        (S.left entries.now) ≡ false) }
{
    let Some(first) = entries.first() else {
        return None;
    };
    if first.prefix.len <= at.len {
        return None;
    }
    if !first.prefix.is_within(at) {
        return None;
    }
    Some(bit_at(first.prefix.bits, at.family.width() - at.len - 1))
}

/// Sets a label of a node, which stands for the prefix, if the first entry is at that prefix, and takes that entry. It
/// stands apart, so that the walk doesn't hold an entry at each level.
#[inline(never)]
fn merge_own<S: EntrySource>(
    nodes: &mut Nodes,
    i: usize,
    at: &Prefix,
    label: Label,
    entries: &mut S,
)
    ensures len { vec_len nodes.new.halves ≡ vec_len nodes.old.halves }
    ensures merged { (h levels : ℕ) → Merges label h levels (prefix_as at.now) (cells_of nodes.old)
        (cells_of nodes.new) nodes.old.free nodes.new.free (best_in nodes.old) (best_in nodes.new) i
        (S.left entries.old) (S.left entries.new) }
{
    match entries.first() {
        Some(first) if first.prefix.len == at.len && first.prefix == *at => {
            update_node(nodes, i, label, Some(first.hop.0));
            entries.pass();
        }
        _ => {}
    }
}

/// The place of a half of a node, which is made a node if it is none.
fn open_half(nodes: &mut Nodes, i: usize, bit: bool, inherited: u16) -> Result<usize, AllocError>
    ensures { IfOk result (λ j. (d : ℕ) (name : ℕ → Owner) (n : ℕ) (p : List Bool) → 1 < d
        → IsTree d (cells_of nodes.old) name i p → HasSpares (cells_of nodes.old) nodes.old.free name n
        → IsHalfMade d bit (cells_of nodes.old) (cells_of nodes.new) nodes.new.free name i p inherited
        (best_in nodes.old) (best_in nodes.new) j) }
{
    let node = read(nodes, i);
    if let Some(j) = node.half(bit) {
        return Ok(j);
    }
    reserve(nodes, 1)?;
    let hop = node.route.hop.unwrap_or(inherited);
    Ok(split(nodes, i, bit, Best::one(hop)))
}

/// Sets a label for those of the entries, from the first on, whose prefixes are within that of a node, each in its turn, and takes
/// these; the first other one is left, and those after it. The node inherits the hop from the routes. It costs the nodes on the ways
/// to them, each once if the entries stand in the order of prefixes.
///
/// # Errors
///
/// Out of memory, also if there would be 2^31 nodes or more; then the first n entries may be set, for some n.
#[cycle(merge)]
pub(crate) fn merge<S: EntrySource>(
    nodes: &mut Nodes,
    i: usize,
    at: &Prefix,
    inherited: u16,
    label: Label,
    entries: &mut S,
) -> Result<(), AllocError>
    ensures { OnOk result (Merges label inherited (width at.now.family - at.now.len) (prefix_as
        at.now) (cells_of nodes.old) (cells_of nodes.new) nodes.old.free nodes.new.free (best_in
        nodes.old) (best_in nodes.new) i (S.left entries.old) (S.left entries.new)) }
{
    merge_own(nodes, i, at, label, entries);
    if at.len == at.family.width() {
        return Ok(());
    }
    match next_half(entries, at) {
        None => Ok(()),
        Some(true) => {
            merge_half(nodes, i, true, at, inherited, label, entries)?;
            Ok(())
        }
        Some(false) => {
            merge_half(nodes, i, false, at, inherited, label, entries)?;
            let Some(true) = next_half(entries, at) else {
                return Ok(());
            };
            merge_half(nodes, i, true, at, inherited, label, entries)?;
            Ok(())
        }
    }
}

/// The same of a half of the node, which is made a node if it is none.
#[cycle(merge)]
fn merge_half<S: EntrySource>(
    nodes: &mut Nodes,
    i: usize,
    bit: bool,
    at: &Prefix,
    inherited: u16,
    label: Label,
    entries: &mut S,
) -> Result<(), AllocError>
    requires { at.now.len < width at.now.family }
    ensures { OnOk result (Merges label inherited (width at.now.family - at.now.len) (prefix_as
        at.now) (cells_of nodes.old) (cells_of nodes.new) nodes.old.free nodes.new.free (best_in
        nodes.old) (best_in nodes.new) i (S.left entries.old) (S.left entries.new)) }
{
    let half = at.half(bit);
    let j = open_half(nodes, i, bit, inherited)?;
    let below = read(nodes, i).route.hop.unwrap_or(inherited);
    merge(nodes, j, &half, below, label, entries)?;
    climb(nodes, i, label, true);
    Ok(())
}
