//! A tree built in one walk over routes that stand in order: a node takes its place before its halves, and is written once, when
//! they are built, with its route, its cover and what it keeps of its region.

ghost use Rattle.std.specs.Prelude.{◌≡◌, ◌≢◌, ℕ, ◌<◌, ◌-◌, suc, Bool, true, false, List, [], ◌∷◌, ◌++◌, OnOk, IfOk, vec_len, length, slice_set, ◌≤◌};
ghost use Rattle.std.specs.List.{AllByRecursion};
ghost use Rattle.std.specs.Map.{keys_of};
ghost use Rattle.table_model.specs.Address.{IsPrefix};
ghost use Rattle.table_model.specs.Width.{width};
ghost use Rattle.table_model.specs.Table.{here};
ghost use Rattle.table_model.specs.Entries.{of_table};
ghost use Rattle.table_model.specs.Regions.{lift};
ghost use Rattle.table_model.specs.Sets.{side};
ghost use Rattle.table_model.specs.Halves.{half_at};
ghost use Rattle.fib_addr.specs.Views.{prefix_as};
ghost use Rattle.orig_tree.specs.Arena.{blank_cell, bare_cover_is, cells_of, cover_at, link, retold, IsArena};
ghost use Rattle.orig_tree.specs.Bests.{IsRegionBest, best_one, best_in, best_behind, KeepsBest};
ghost use Rattle.orig_tree.specs.Merged.{Lays};
ghost use Rattle.orig_tree.specs.Built.{with_halves, Builds, BuildsHalf};
ghost use Rattle.orig_tree.specs.declared.node.Label.TheVariants.{Route};

use crate::best::{Best, join_kept};
use crate::merge::next_half;
use crate::node::{Label, MOST, Node, Nodes, bare_place, fill, leaf, retell};
use crate::source::EntrySource;
use fib_addr::{Family, Prefix};
use std::alloc::{AllocError, Global};

/// Takes the first route, if that is at the prefix, and returns its hop.
fn take_own<S: EntrySource>(at: &Prefix, routes: &mut S) -> Option<u16>
    ensures { S.left routes.old ≡ of_table (prefix_as at.now).family (lift (prefix_as
        at.now).bits (here result)) ++ S.left routes.new }
{
    match routes.first() {
        Some(first) if first.prefix.len == at.len && first.prefix == *at => {
            routes.pass();
            Some(first.hop.0)
        }
        _ => None,
    }
}

/// Takes a place after all others for a node that is yet to be built, and returns it.
///
/// # Errors
///
/// Out of memory, also if there would be 2^31 nodes or more.
fn take_place(nodes: &mut Nodes) -> Result<u32, AllocError>
    ensures free { nodes.new.free ≡ nodes.old.free }
    ensures place { IfOk result (λ j. j ≡ length (cells_of nodes.old)) }
    ensures node { OnOk result (cells_of nodes.new ≡ cells_of nodes.old ++ (blank_cell ∷ [])) }
    ensures kept { (j : ℕ) → best_in nodes.new j ≡ best_in nodes.old j }
{
    if nodes.halves.len() >= MOST {
        return Err(AllocError);
    }
    nodes.halves.push(bare_place())?;
    Ok(nodes.halves.len() as u32)
}

/// Puts the node of a region with its own route alone, or with none, whose addresses all get the hop, at its place.
fn put_alone(nodes: &mut Nodes, place: usize, own: Option<u16>, hop: u16)
    requires place { place ≤ vec_len nodes.old.halves }
    ensures node { cells_of nodes.new ≡ slice_set (cells_of nodes.old) place (retold Route own
        bare_cover_is bare_cover_is blank_cell) }
    ensures free { nodes.new.free ≡ nodes.old.free }
    ensures len { vec_len nodes.new.halves ≡ vec_len nodes.old.halves }
    ensures best { best_in nodes.new place ≡ best_one hop }
    ensures others { (j : ℕ) → j ≢ place → best_in nodes.new j ≡ best_in nodes.old j }
{
    let node = retell(nodes, leaf(), Label::Route, own);
    fill(nodes, place, node, Best::one(hop));
}

/// Puts the node of a region with its own route, or with none, at its place, from its halves, which were built and whose places are
/// given, or 0 if one is no node.
fn put_over(
    alloc: Global,
    nodes: &mut Nodes,
    place: usize,
    own: Option<u16>,
    hop: u16,
    low: u32,
    high: u32,
) -> Result<(), AllocError>
    requires place { place ≤ vec_len nodes.old.halves }
    ensures node { OnOk result (cells_of nodes.new ≡ slice_set (cells_of nodes.old) place (retold
        Route own (cover_at (cells_of nodes.old) Route (link low)) (cover_at (cells_of nodes.old) Route
        (link high)) (with_halves low high))) }
    ensures free { nodes.new.free ≡ nodes.old.free }
    ensures len { vec_len nodes.new.halves ≡ vec_len nodes.old.halves }
    ensures best { OnOk result ((d : ℕ) (f : List Bool → ℕ)
        → IsRegionBest d (side false f) (best_behind (best_in nodes.old) (link low) (best_one hop))
        → IsRegionBest d (side true f) (best_behind (best_in nodes.old) (link high) (best_one hop))
        → IsRegionBest (suc d) f (best_in nodes.new place)) }
    ensures others { OnOk result ((j : ℕ) → j ≢ place → best_in nodes.new j ≡ best_in nodes.old j) }
{
    let halves = Node {
        low,
        high,
        ..leaf()
    };
    let best = join_kept(alloc, nodes, halves.half(false), halves.half(true), hop)?;
    let node = retell(nodes, halves, Label::Route, own);
    fill(nodes, place, node, best);
    Ok(())
}

/// Builds the region of a prefix, whose node's place is given and which inherits the hop, from the routes, and takes these, as long
/// as the next one is within the region and in order. It costs the region's nodes.
///
/// # Errors
///
/// Out of memory, also if there would be 2^31 nodes or more.
#[cycle(build)]
fn build<S: EntrySource>(
    alloc: Global,
    nodes: &mut Nodes,
    place: usize,
    at: &Prefix,
    inherited: u16,
    routes: &mut S,
) -> Result<(), AllocError>
    requires place { place ≤ vec_len nodes.old.halves }
    ensures more { OnOk result (vec_len nodes.old.halves ≤ vec_len nodes.new.halves) }
    ensures built { OnOk result (Builds inherited (width at.now.family - at.now.len) (prefix_as at.now)
        place (cells_of nodes.old) (cells_of nodes.new) nodes.old.free nodes.new.free (best_in nodes.old)
        (best_in nodes.new) (S.left routes.old) (S.left routes.new)) }
{
    let own = take_own(at, routes);
    let hop = own.unwrap_or(inherited);
    if at.len == at.family.width() {
        put_alone(nodes, place, own, hop);
        return Ok(());
    }
    match next_half(routes, at) {
        None => {
            put_alone(nodes, place, own, hop);
            Ok(())
        }
        Some(true) => {
            let high = build_half(alloc, nodes, at, true, hop, routes)?;
            put_over(alloc, nodes, place, own, hop, 0, high)?;
            Ok(())
        }
        Some(false) => {
            let low = build_half(alloc, nodes, at, false, hop, routes)?;
            let Some(true) = next_half(routes, at) else {
                put_over(alloc, nodes, place, own, hop, low, 0)?;
                return Ok(());
            };
            let high = build_half(alloc, nodes, at, true, hop, routes)?;
            put_over(alloc, nodes, place, own, hop, low, high)?;
            Ok(())
        }
    }
}

/// The same of a half of the region, which becomes a node, whose place it returns: it takes that before those below it, so that
/// the nodes lie as the walks meet them.
#[cycle(build)]
fn build_half<S: EntrySource>(
    alloc: Global,
    nodes: &mut Nodes,
    at: &Prefix,
    bit: bool,
    inherited: u16,
    routes: &mut S,
) -> Result<u32, AllocError>
    requires longer { at.now.len < width at.now.family }
    ensures more { OnOk result (vec_len nodes.old.halves ≤ vec_len nodes.new.halves) }
    ensures built { IfOk result (λ place. BuildsHalf inherited (width at.now.family - at.now.len - 1)
        (half_at bit (prefix_as at.now)) (cells_of nodes.old) (cells_of nodes.new) nodes.old.free
        nodes.new.free (best_in nodes.old) (best_in nodes.new) (S.left routes.old)
        (S.left routes.new) (link place)) }
{
    let place = take_place(nodes)?;
    let half = at.half(bit);
    build(alloc, nodes, place as usize, &half, inherited, routes)?;
    Ok(place)
}

/// Builds a family's tree from the first n routes, if there is the root alone, and takes these: the others are left.
///
/// # Errors
///
/// Out of memory, also if there would be 2^31 nodes or more.
pub(crate) fn build_all<S: EntrySource>(
    alloc: Global,
    family: Family,
    nodes: &mut Nodes,
    routes: &mut S,
) -> Result<(), AllocError>
    requires arena { IsArena family (cells_of nodes.old) nodes.old.free }
    requires bare { cells_of nodes.old ≡ blank_cell ∷ [] }
    requires prefixes { AllByRecursion IsPrefix (keys_of (S.left routes.old)) }
    ensures lays { OnOk result (Lays family Route (cells_of nodes.old) (cells_of nodes.new)
        nodes.new.free (best_in nodes.old) (best_in nodes.new) (S.left routes.old) (S.left routes.new)) }
    ensures best { OnOk result (KeepsBest family (cells_of nodes.new) (best_in nodes.new)) }
{
    let root = Prefix::whole(family);
    build(alloc, nodes, 0, &root, 0, routes)?;
    Ok(())
}
