//! A region of a tree, which is asked for its best hops and what it costs.

ghost use Rattle.std.specs.Prelude.{◌≡◌, ◌≢◌, ◌≤◌, ◌+◌, ◌++◌, ◌∷◌, [], true, false, ℕ, suc, List, Bool, Option, None, length, IfSome, IfNone, IfOk, IsTrue};
ghost use Rattle.table_model.specs.Table.{root, half, cut, inherit, lpm};
ghost use Rattle.table_model.specs.Sets.{set_of, k_of, is_in, smallest};
ghost use Rattle.fib_addr.specs.HopSets.{SameHops};
ghost use Rattle.orig_tree.specs.Spots.{spot_answers, spot_rows, EachFixed};
ghost use Rattle.orig_tree.specs.Views.{path_steps, FitsWidth};
ghost use Rattle.orig_tree.specs.Cover.{SomeGets};
ghost use Rattle.orig_tree.specs.Within.{nodes_in};

use crate::best::Best;
use crate::counter::Counter;
use crate::node::{Label, Nodes, best_at, cover, read};
use crate::path::{Path, bit_at};
use fib_addr::HopSet;
use std::alloc::{AllocError, Global};
use std::marker::Model;

/// A region of a tree: the addresses of a prefix. Contracts see the routes and the entries within it, and the hop that its
/// addresses get from the routes above.
#[derive(Drop)]
pub struct TreeRegion<'a> {
    pub(crate) nodes: &'a Nodes,
    /// The place of the prefix's node, if it is one.
    pub(crate) place: Option<usize>,
    /// How many bits addresses have after the prefix.
    pub(crate) bits: u8,
    /// The hop from the routes above.
    pub(crate) hop: u16,
}

impl<'a> Model for TreeRegion<'a> {
    ghost use Rattle.std.specs.Prelude.{◌≤◌};
    ghost use Rattle.orig_tree.specs.Arena.{cells_of};
    ghost use Rattle.orig_tree.specs.Bests.{best_in};
    ghost use Rattle.orig_tree.specs.Spots.{Spot, spot_at, IsSpot, IsRooted};

    ghost Value = { Spot };

    ghost view = { λ r. spot_at (cells_of r.nodes.now) r.place r.bits r.hop };

    ghost invariant = { λ r. IsSpot (cells_of r.nodes.now) (best_in r.nodes.now) r.place r.bits r.hop × (r.bits ≤ 128)
        × IsRooted (cells_of r.nodes.now) r.place r.bits };
}

impl<'a> TreeRegion<'a> {
    /// The one hop that all addresses of the region get from the routes, or `None` if two get different ones.
    pub fn leaf(&self) -> Option<u16>
        ensures one { IfSome result (λ h. (a : List Bool) → length a ≡ self.now.bits
            → spot_answers self.now a ≡ h) }
        ensures more { IfNone result (k_of self.now.bits (spot_answers self.now) ≢ 0) }
        ensures node { IfNone result (length self.now.nodes ≡ 1 + (nodes_in (false ∷ []) self.now.nodes
            + nodes_in (true ∷ []) self.now.nodes)) }
    {
        match self.place {
            None => Some(self.hop),
            Some(i) => cover(read(self.nodes, i), Label::Route).only(self.hop),
        }
    }

    /// What the region costs under a best hop, in entries: how many a least table of it has there.
    pub fn k(&self) -> u64
        ensures { result ≡ k_of self.now.bits (spot_answers self.now) }
    {
        match self.place {
            None => 0,
            Some(i) => {
                let none = Best::one(0);
                best_at(self.nodes, i, &none).k
            }
        }
    }

    /// Whether a hop is best for the region: one under which it costs least.
    pub fn is_best(&self, hop: u16) -> bool
        ensures { result ≡ is_in hop (set_of self.now.bits (spot_answers self.now)) }
    {
        match self.place {
            None => self.hop == hop,
            Some(i) => {
                let none = Best::one(0);
                best_at(self.nodes, i, &none).hops.contains(hop)
            }
        }
    }

    /// The least of the best hops.
    pub fn least(&self) -> u16
        ensures { result ≡ smallest (set_of self.now.bits (spot_answers self.now)) }
    {
        match self.place {
            None => self.hop,
            Some(i) => {
                let none = Best::one(0);
                best_at(self.nodes, i, &none).hops.least()
            }
        }
    }

    /// The best hops of the routes here, as a set of its own.
    ///
    /// # Errors
    ///
    /// Out of memory.
    pub fn hops(&self, alloc: Global) -> Result<HopSet, AllocError>
        ensures { IfOk result (λ s. SameHops s (set_of self.now.bits (spot_answers self.now))) }
    {
        match self.place {
            None => Ok(HopSet::one(self.hop)),
            Some(i) => {
                let none = Best::one(0);
                best_at(self.nodes, i, &none).hops.copied(alloc)
            }
        }
    }

    /// The hop of the entry at the region's prefix, if there is one.
    pub fn entry(&self) -> Option<u16>
        ensures { result ≡ root self.now.entries }
    {
        match self.place {
            None => None,
            Some(i) => read(self.nodes, i).entry.hop,
        }
    }

    /// Whether each address of the region is within a route, or within an entry, that is in the region: what the region inherits then
    /// reaches none of them.
    pub fn fills(&self, label: Label) -> bool
        ensures all { result ≡ true → FitsWidth self.now.bits (spot_rows label self.now)
            → EachFixed self.now.bits (spot_rows label self.now) }
        ensures some { result ≡ false → FitsWidth self.now.bits (spot_rows label self.now)
            → SomeGets self.now.bits (spot_rows label self.now) None }
    {
        match self.place {
            None => false,
            Some(i) => {
                let cover = cover(read(self.nodes, i), label);
                !cover.passes
            }
        }
    }

    /// The region of one half.
    pub fn half(&self, bit: bool) -> TreeRegion<'a>
        requires { self.now.bits ≢ 0 }
        ensures bits { suc result.bits ≡ self.now.bits }
        ensures routes { result.routes ≡ half bit self.now.routes }
        ensures entries { result.entries ≡ half bit self.now.entries }
        ensures hop { result.hop ≡ inherit (root self.now.routes) self.now.hop }
        ensures nodes { (p : List Bool) → nodes_in p result.nodes ≡ nodes_in (bit ∷ p) self.now.nodes }
    {
        match self.place {
            None => TreeRegion {
                nodes: self.nodes,
                place: None,
                bits: self.bits - 1,
                hop: self.hop,
            },
            Some(i) => {
                let node = read(self.nodes, i);
                TreeRegion {
                    nodes: self.nodes,
                    place: node.half(bit),
                    bits: self.bits - 1,
                    hop: node.route.hop.unwrap_or(self.hop),
                }
            }
        }
    }
}

/// The region of a path below a region. A step is a region that is passed.
pub(crate) fn below<'a, C: Counter>(
    mut region: TreeRegion<'a>,
    path: Path,
    steps: &mut C,
) -> TreeRegion<'a>
    requires few { path.left ≤ region.bits }
    requires most { path.left ≤ 128 }
    ensures bits { result.bits + path.left ≡ region.entry.bits }
    ensures answers { (a : List Bool) → spot_answers result a
        ≡ spot_answers region.entry (path_steps path ++ a) }
    ensures entries { result.entries ≡ cut (path_steps path) region.entry.entries }
    ensures nodes { length result.nodes ≡ nodes_in (path_steps path) region.entry.nodes }
    ensures steps { C.count steps.new ≤ C.count steps.old + path.left }
{
    let mut left = path.left;
    while left > 0 {
        steps.tick();
        left -= 1;
        region = region.half(bit_at(path.bits, left));
    }
    region
}
