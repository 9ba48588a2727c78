//! The shortest list of changes after one event.

ghost use Rattle.std.specs.Prelude.{◌≡◌, ◌≤◌, ◌+◌, map, IfOk};
ghost use Rattle.table_model.specs.Width.{width};
ghost use Rattle.table_model.specs.Entries.{of_family};
ghost use Rattle.kept_model.specs.Between.{between};
ghost use Rattle.fib_addr.specs.Views.{prefix_as};
ghost use Rattle.fib_delta.specs.Views.{change_as};
ghost use Rattle.orig_tree.specs.Spots.{spot_answers};
ghost use Rattle.orig_tree.specs.Walk.{behind};
ghost use Rattle.moves_model.specs.Rows.{near_in};
ghost use Rattle.moves_model.specs.Shortest.{AreShortest};
ghost use Rattle.fib_moves.specs.Needs.{IsNodeOf};
ghost use Rattle.fib_moves.specs.Turns.{AreTurned};
ghost use Rattle.fib_moves.specs.Event.{AlikeBefore};
ghost use Rattle.fib_moves.specs.Found.{FoundHops, HalvesGive};

use crate::event_down::{Inherited, list_differing};
use crate::found::{RegionHops, climb, hops_of};
use crate::{Differing, LastBlocked, Place, list_turn, walk};
use fib_addr::Prefix;
use fib_delta::{Change, between};
use orig_tree::Tree;
use std::alloc::{AllocError, Global};

/// The changes at the turn and within the event's prefix, which inherits this hop in the old table.
fn list_event(
    alloc: Global,
    place: &Place<'_>,
    found: &Option<Box<RegionHops>>,
    prefix: Prefix,
    inherited: u16,
    turn: &LastBlocked,
) -> Result<Vec<Change>, AllocError>
    requires bits { place.now.region.bits + prefix.len ≡ width prefix.family }
    requires place { IsNodeOf place.now }
    requires right { HalvesGive place.now inherited }
    requires found { FoundHops place.now.region.bits (spot_answers place.now.region)
        (behind place.now.node).routes place.now.region.entries found.now }
    requires family { turn.now.prefix.family ≡ prefix.family }
    requires within { turn.now.prefix.len ≤ prefix.len }
    ensures { IfOk result (λ v. AreTurned place.now.region prefix turn.now (map change_as v.items)) }
{
    let mut out = Differing {
        had: Vec::new(alloc),
        gets: Vec::new(alloc),
    };
    let gets = list_turn(&place.region, hops_of(found), prefix.len, turn, &mut out)?;
    let inherited = Inherited {
        had: inherited,
        gets,
    };
    list_differing(place, found, prefix, inherited, &mut out)?;
    between(alloc, &out.had, &out.gets)
}

/// The shortest list of changes that makes a tree's entries answer as its routes do, if they answered as the routes before an event
/// that changed the route at this prefix and no other. At most one change is outside the prefix, at a prefix that it is within. It
/// costs the way to the prefix, and the nodes within it down to the first route below it on each way.
///
/// # Errors
///
/// Out of memory.
pub fn near_after(alloc: Global, tree: &Tree, prefix: &Prefix) -> Result<Vec<Change>, AllocError>
    requires family { prefix.now.family ≡ tree.now.family }
    requires before { AlikeBefore (width tree.now.family) (prefix_as prefix.now).bits
        (of_family tree.now.family tree.now.routes) (of_family tree.now.family tree.now.entries) }
    ensures changes { IfOk result (λ v. map change_as v.items ≡ between tree.now.entries
        (near_in tree.now.family tree.now.routes tree.now.entries)) }
    ensures shortest { IfOk result (λ v. AreShortest tree.now.family tree.now.routes tree.now.entries
        (map change_as v.items)) }
{
    // the entries stand in order, and are of the family
    let _family = tree.family();
    let _root = tree.root();
    let way = walk(tree, prefix);
    let place = Place {
        region: tree.region(prefix),
        node: way.place.node,
    };
    let found = climb(alloc, &place, prefix, way.comes)?;
    list_event(alloc, &place, &found, *prefix, way.comes, &way.turn)
}
