//! The shortest list of changes after one event, from the way to its prefix and the prefix's region alone.

ghost use Rattle.std.specs.Prelude.{◌≡◌, ◌≤◌, ◌+◌, map, IfOk};
ghost use Rattle.std.specs.Option.{option_copied};
ghost use Rattle.table_model.specs.Width.{width};
ghost use Rattle.table_model.specs.Table.{IsTable};
ghost use Rattle.table_model.specs.Entries.{of_family};
ghost use Rattle.kept_model.specs.Between.{between};
ghost use Rattle.fib_addr.specs.Views.{prefix_as};
ghost use Rattle.fib_delta.specs.Views.{change_as};
ghost use Rattle.orig_tree.specs.Spots.{spot_answers};
ghost use Rattle.moves_model.specs.Rows.{near_in};
ghost use Rattle.moves_model.specs.Shortest.{AreShortest};
ghost use Rattle.moves_model.specs.Way.{AlikeBeside};
ghost use Rattle.fib_moves.specs.Needs.{Knows, AreFound};
ghost use Rattle.fib_moves.specs.Turns.{IsTurned, AreTurned};

use crate::AllowedHops;
use crate::down::{Differing, below, if_differing, list_differing};
use crate::hops::due_hop;
use crate::needs::{RegionNeeds, climb, hops_of};
use crate::place::Place;
use crate::way::{LastBlocked, walk};
use fib_addr::{Prefix, push_entry};
use fib_delta::{Change, between};
use orig_tree::{Tree, TreeRegion};
use std::alloc::{AllocError, Global};

/// Adds the turn's entries in both tables if they differ and it isn't the event's prefix itself, whose length and region these
/// are, with the hops that were found for its own entry. Returns what that prefix comes to inherit.
///
/// # Errors
///
/// Out of memory.
pub fn list_turn(
    region: &TreeRegion<'_>,
    found: Option<&AllowedHops>,
    len: u8,
    turn: &LastBlocked,
    out: &mut Differing,
) -> Result<u16, AllocError>
    requires { AreFound region.now.bits (spot_answers region.now) region.now.entries (option_copied found) }
    ensures { IfOk result (λ hop. IsTurned region.now len turn.now out.old out.new hop) }
{
    if turn.prefix.len == len {
        return Ok(turn.inherited);
    }
    let gets = due_hop(region, found, turn.old, turn.inherited);
    let (old, new) = if_differing(turn.old, gets);
    push_entry(turn.prefix, old, &mut out.had)?;
    push_entry(turn.prefix, new, &mut out.gets)?;
    Ok(below(gets, turn.inherited))
}

/// The changes at the turn and within the event's prefix.
fn list_event(
    alloc: Global,
    region: &TreeRegion<'_>,
    needs: &Option<Box<RegionNeeds>>,
    prefix: Prefix,
    turn: &LastBlocked,
) -> Result<Vec<Change>, AllocError>
    requires bits { region.now.bits + prefix.len ≡ width prefix.family }
    requires table { IsTable region.now.bits region.now.entries }
    requires knows { Knows region.now.bits (spot_answers region.now) region.now.entries needs.now }
    requires family { turn.now.prefix.family ≡ prefix.family }
    requires within { turn.now.prefix.len ≤ prefix.len }
    ensures { IfOk result (λ v. AreTurned region.now prefix turn.now (map change_as v.items)) }
{
    let mut out = Differing {
        had: Vec::new(alloc),
        gets: Vec::new(alloc),
    };
    let hop = list_turn(region, hops_of(needs), prefix.len, turn, &mut out)?;
    list_differing(region, needs, prefix, hop, &mut out)?;
    between(alloc, &out.had, &out.gets)
}

/// The shortest list of changes that makes a tree's entries answer as its routes do, if they do so outside the prefix, as after an
/// event that changed the prefix's route. At most one change is outside the prefix, at a prefix that it is within. It costs the
/// way to the prefix and the prefix's region.
///
/// # Errors
///
/// Out of memory.
pub fn near_at(alloc: Global, tree: &Tree, prefix: &Prefix) -> Result<Vec<Change>, AllocError>
    requires family { prefix.now.family ≡ tree.now.family }
    requires beside { AlikeBeside (width tree.now.family) (prefix_as prefix.now).bits
        (of_family tree.now.family tree.now.routes) (of_family tree.now.family tree.now.entries) }
    ensures changes { IfOk result (λ v. map change_as v.items ≡ between tree.now.entries
        (near_in tree.now.family tree.now.routes tree.now.entries)) }
    ensures shortest { IfOk result (λ v. AreShortest tree.now.family tree.now.routes tree.now.entries
        (map change_as v.items)) }
{
    // the entries stand in order, and are of the family
    let _family = tree.family();
    let _root = tree.root();
    let way = walk(tree, prefix);
    let place = Place {
        region: tree.region(prefix),
        node: way.place.node,
    };
    let needs = climb(alloc, &place, prefix)?;
    list_event(alloc, &place.region, &needs, *prefix, &way.turn)
}
