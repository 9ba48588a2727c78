//! What is planned, and where.

ghost use Rattle.std.specs.Prelude.{◌≡◌, Some, None};
ghost use Rattle.adj_rib_in.specs.Paths.{attrs_at as offered};
ghost use Rattle.route_choice.specs.Kept.{PathsAreKept};
ghost use Rattle.route_choice.specs.Space.{over_of as over, over_in};

use crate::over::give_back;
use adj_rib_in::{PathAttrs, PathKey, Rank};
use fib_prefix::Elem;
use std::collections::{BTreeMap, BTreeSet};

/// The elementary event that was planned last, with the place of its slot in the base, if its path key has one, and the number of its
/// prefix's row as a guess.
#[derive(Clone, Copy)]
pub struct Plan {
    /// The elementary event.
    pub elem: Elem,
    /// The place of the slot.
    pub at: Option<usize>,
    /// The row of the prefix, which is tested before it is used.
    pub row: usize,
}

/// Where an elementary event's path key lies in the base.
#[derive(Clone, Copy)]
pub struct Spot {
    /// The place of its slot, if it has one.
    pub at: Option<usize>,
    /// The row of its prefix as a guess.
    pub row: usize,
}

/// The event for which a plan holds room in the ordered maps: none if its path key has a slot in the base.
pub fn over_of(plan: &Option<Plan>) -> Option<Elem>
    ensures { result ≡ over plan.now }
{
    match plan {
        Some(plan) => {
            if plan.at.is_some() {
                return None;
            }
            Some(plan.elem)
        }
        None => None,
    }
}

/// Gives back the room that an earlier plan holds and a plan doesn't.
#[cold]
#[inline(never)]
fn give_back_earlier(
    paths: &mut BTreeMap<PathKey, Option<PathAttrs>>,
    ranks: &mut BTreeSet<Rank>,
    earlier: &Option<Plan>,
    elem: &Elem,
    spot: Spot,
)
    ensures offers { (s : PathKey) → offered paths.new.entries s ≡ offered paths.old.entries s }
    ensures kept { PathsAreKept paths.old.entries ranks.old.keys (over earlier.now)
        (over_in spot.at elem.now)
        → PathsAreKept paths.new.entries ranks.new.keys None (over_in spot.at elem.now) }
{
    let plan = if spot.at.is_some() { None } else { Some(*elem) };
    give_back(paths, ranks, over_of(earlier), &plan);
}

/// Puts a plan in place of an earlier one, and gives back the room that the earlier one alone holds; mostly there is none, and nothing
/// is given back.
pub fn replace_plan(
    paths: &mut BTreeMap<PathKey, Option<PathAttrs>>,
    ranks: &mut BTreeSet<Rank>,
    room: &mut Option<Plan>,
    elem: &Elem,
    spot: Spot,
)
    ensures offers { (s : PathKey) → offered paths.new.entries s ≡ offered paths.old.entries s }
    ensures kept { PathsAreKept paths.old.entries ranks.old.keys (over room.old)
        (over_in spot.at elem.now)
        → PathsAreKept paths.new.entries ranks.new.keys None (over_in spot.at elem.now) }
    ensures room { room.new ≡ Some (record { elem = elem.now; at = spot.at; row = spot.row }) }
{
    if room.is_some() {
        give_back_earlier(paths, ranks, room, elem, spot);
    }
    *room = Some(Plan {
        elem: *elem,
        at: spot.at,
        row: spot.row,
    });
}

/// Makes a plan void, and gives back the room that it holds.
#[cold]
#[inline(never)]
fn drop_plan(
    paths: &mut BTreeMap<PathKey, Option<PathAttrs>>,
    ranks: &mut BTreeSet<Rank>,
    room: &mut Option<Plan>,
)
    ensures offers { (s : PathKey) → offered paths.new.entries s ≡ offered paths.old.entries s }
    ensures kept { PathsAreKept paths.old.entries ranks.old.keys (over room.old) None
        → PathsAreKept paths.new.entries ranks.new.keys None None }
    ensures room { room.new ≡ None }
{
    let earlier = over_of(room);
    *room = None;
    give_back(paths, ranks, earlier, &None);
}

/// The same if there is a plan; mostly there is none, and nothing is read or written.
pub fn end_plan(
    paths: &mut BTreeMap<PathKey, Option<PathAttrs>>,
    ranks: &mut BTreeSet<Rank>,
    room: &mut Option<Plan>,
)
    ensures offers { (s : PathKey) → offered paths.new.entries s ≡ offered paths.old.entries s }
    ensures kept { PathsAreKept paths.old.entries ranks.old.keys (over room.old) None
        → PathsAreKept paths.new.entries ranks.new.keys None None }
    ensures room { room.new ≡ None }
{
    if room.is_some() {
        drop_plan(paths, ranks, room);
    }
}
