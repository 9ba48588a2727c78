//! Regions of a tree's routes, which keep their place in the tree.

ghost use Rattle.std.specs.Prelude.{◌≡◌, ◌≤◌, ◌+◌, take};
ghost use Rattle.table_model.specs.Width.{width};
ghost use Rattle.fib_addr.specs.Views.{prefix_as};
ghost use Rattle.fib_addr.specs.Answers.{all_answers, part};
ghost use Rattle.orig_tree.specs.Spots.{spot_answers};

use fib_addr::{Hop, Prefix, Region};
use orig_tree::{Tree, TreeRegion};

/// The region of a prefix in a tree of routes. A half is one step down, and what all addresses get costs no walk: a tree keeps
/// it.
#[derive(Drop)]
pub struct RouteRegion<'a> {
    region: TreeRegion<'a>,
}

impl<'a> Region for RouteRegion<'a> {
    ghost bits = { λ r. r.region.bits };

    ghost answers = { λ r. spot_answers r.region };

    fn only(&self) -> Option<Hop> {
        match self.region.leaf() {
            Some(hop) => Some(Hop(hop)),
            None => None,
        }
    }

    fn half(&self, bit: bool) -> Self {
        RouteRegion {
            region: self.region.half(bit),
        }
    }
}

impl<'a> RouteRegion<'a> {
    /// The region of all addresses of the tree's family.
    pub fn whole(tree: &'a Tree) -> Self
        ensures bits { result.region.bits ≡ width tree.now.family }
        ensures answers { spot_answers result.region ≡ all_answers tree.now.family tree.now.routes }
    {
        RouteRegion {
            region: tree.region(&Prefix::whole(tree.family())),
        }
    }

    /// The region of the first `depth` bits of a prefix.
    pub fn of_first(tree: &'a Tree, prefix: &Prefix, depth: u8) -> Self
        requires family { prefix.now.family ≡ tree.now.family }
        requires few { depth ≤ prefix.now.len }
        ensures bits { result.region.bits + depth ≡ width tree.now.family }
        ensures answers { spot_answers result.region ≡ part (take depth (prefix_as prefix.now).bits)
            (all_answers tree.now.family tree.now.routes) }
    {
        let first = Prefix::new(&prefix.first_addr(), depth);
        RouteRegion {
            region: tree.region(&first),
        }
    }
}
