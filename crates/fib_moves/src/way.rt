//! The way down to an event's prefix, and the one prefix on it at which an entry may change.
//!
//! The old table answers as the routes do outside the event's prefix. From the turn on the way is clear: no entry stands on it, and
//! entries fill each half beside it, which so may inherit any hop. Above the turn what each region inherits in the old table will do,
//! and its entry stays.

ghost use Rattle.std.specs.Prelude.{◌≡◌, ◌≢◌, ◌+◌, [], ◌||◌, not, is_some};
ghost use Rattle.table_model.specs.Width.{width};
ghost use Rattle.table_model.specs.Table.{IsTable, root, half, inherit};
ghost use Rattle.table_model.specs.Entries.{of_family};
ghost use Rattle.fib_addr.specs.Views.{prefix_as};
ghost use Rattle.orig_tree.specs.Views.{InPlace};
ghost use Rattle.moves_model.specs.Way.{fills};
ghost use Rattle.fib_moves.specs.Needs.{IsNodeOf};
ghost use Rattle.fib_moves.specs.Ways.{IsStep, IsWay};

use crate::down::below;
use crate::place::Place;
use fib_addr::{Hop, Prefix, bit_at};
use orig_tree::{Label, Tree, TreeRegion, path_bits};

/// The last step on the way that isn't clear.
#[derive(Clone, Copy)]
pub struct LastBlocked {
    /// Its prefix.
    pub prefix: Prefix,
    /// The hop of its old entry.
    pub old: Option<u16>,
    /// What it inherits in the old table.
    pub inherited: u16,
}

/// How far the way is gone, and its turn up to there.
#[derive(Drop)]
pub struct Way<'a> {
    /// The region that it is gone to.
    pub place: Place<'a>,
    /// That region's prefix.
    pub at: Prefix,
    /// What the region inherits in the old table.
    pub comes: u16,
    /// The turn.
    pub turn: LastBlocked,
}

/// Whether each address of a region is within an entry there.
pub fn is_filled(region: &TreeRegion<'_>) -> bool
    requires { IsTable region.now.bits region.now.entries }
    ensures { result ≡ fills region.now.bits region.now.entries }
{
    region.fills(Label::Entry)
}

/// Whether the way isn't clear at a half with this sibling.
fn is_blocked(half: &TreeRegion<'_>, beside: &TreeRegion<'_>) -> bool
    requires { IsTable beside.now.bits beside.now.entries }
    ensures { result ≡ (is_some (root half.now.entries) || not (fills beside.now.bits beside.now.entries)) }
{
    if half.entry().is_some() {
        return true;
    }
    !is_filled(beside)
}

/// The way one step further.
fn step<'a>(way: Way<'a>, bit: bool) -> Way<'a>
    requires bits { way.place.region.bits + way.at.len ≡ width way.at.family }
    requires more { way.place.region.bits ≢ 0 }
    requires place { IsNodeOf way.place }
    ensures { IsStep bit way.entry result }
{
    let place = way.place.half(bit);
    let beside = way.place.region.half(!bit);
    let comes = below(way.place.region.entry(), way.comes);
    let at = way.at.half(bit);
    let turn = if is_blocked(&place.region, &beside) {
        LastBlocked {
            prefix: at,
            old: place.region.entry(),
            inherited: comes,
        }
    } else {
        way.turn
    };
    Way {
        place,
        at,
        comes,
        turn,
    }
}

/// The way at its start, the whole space.
fn start(tree: &Tree) -> Way<'_>
    ensures order { InPlace tree.now.entries }
    ensures way { IsWay tree.now.family (of_family tree.now.family tree.now.routes)
        (of_family tree.now.family tree.now.entries) [] result }
{
    let whole = Prefix::whole(tree.family());
    let region = tree.region(&whole);
    let old = region.entry();
    Way {
        place: Place {
            region,
            node: Some(tree.root()),
        },
        at: whole,
        comes: Hop::NONE.0,
        turn: LastBlocked {
            prefix: whole,
            old,
            inherited: Hop::NONE.0,
        },
    }
}

/// The way to the prefix.
pub fn walk<'a>(tree: &'a Tree, prefix: &Prefix) -> Way<'a>
    requires { prefix.now.family ≡ tree.now.family }
    ensures { IsWay tree.now.family (of_family tree.now.family tree.now.routes)
        (of_family tree.now.family tree.now.entries) (prefix_as prefix.now).bits result }
{
    let q = path_bits(prefix);
    let mut left = prefix.len;
    let mut way = start(tree);
    while left > 0 {
        left -= 1;
        way = step(way, bit_at(q, left));
    }
    way
}
