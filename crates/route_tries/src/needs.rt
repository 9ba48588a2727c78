//! What tries need, counted in the trees of their routes.

ghost use Rattle.std.specs.Prelude.{◌≡◌, ◌≤◌, ◌^◌, ℕ, Some, None, OnOk, IfErr, option_map};
ghost use Rattle.table_model.specs.declared.family.Family.TheVariants.{V4, V6};
ghost use Rattle.fib_addr.specs.Views.{prefix_as};
ghost use Rattle.poptrie_build.specs.Need.{need_in_u64};
ghost use Rattle.route_tries.specs.Sizes.{need_of as need_in, told_need, told_needs, needs_of_both, first_short, short_or as short_in, sizes_as, shortage_as};
ghost use Rattle.route_tries.specs.Parts.{AreMoved, IsNeedAfter, need_at as need_at_prefix};

use crate::deep::count_slot;
use crate::region::RouteRegion;
use crate::sizes::{Sizes, TrieFull};
use fib_addr::Prefix;
use orig_tree::{Tree, path_bits};
use poptrie_build::{Needs, count_words};

/// What the trie of each family needs.
#[derive(Clone, Copy, Debug, PartialEq, Eq)]
pub struct FamilyNeeds {
    /// IPv4's.
    pub v4: Needs,
    /// IPv6's.
    pub v6: Needs,
}

/// What a trie of a tree's routes needs with `direct` direct bits. It costs the whole tree.
pub fn need_of(tree: &Tree, direct: u8) -> Needs
    requires { direct ≤ 18 }
    ensures { result ≡ told_need (need_in tree.now.family direct tree.now.routes) }
{
    count_words(&RouteRegion::whole(tree), direct)
}

/// What a trie of a tree's routes needs at a prefix. If nodes on the way to it last whatever changes within it, that is from the
/// deepest of these on, else all: each node on the way needs its own places, and what is within the prefix needs all of its own.
/// Mostly a node lasts near the prefix. It costs the prefix's length for each node on the way at most, the regions with two answers
/// in the nodes from there on, and what the tree has within the prefix.
pub fn need_at(tree: &Tree, direct: u8, prefix: &Prefix) -> Needs
    requires family { prefix.now.family ≡ tree.now.family }
    requires few { direct ≤ 18 }
    ensures { result ≡ told_need (need_at_prefix direct tree.now.routes (prefix_as prefix.now)) }
{
    let common = prefix.len.min(direct);
    let region = RouteRegion::of_first(tree, prefix, common);
    if prefix.len > direct {
        return count_slot(&region, path_bits(prefix), prefix.len - direct);
    }
    count_words(&region, direct - common)
}

/// A need as a whole, without what a part needed, and with what the part needs now.
fn moved(whole: u64, before: u64, after: u64) -> u64
    ensures { (n m pn pm : ℕ) → whole ≡ n → before ≡ need_in_u64 pn → after ≡ need_in_u64 pm
        → AreMoved n m pn pm → result ≡ need_in_u64 m }
{
    whole.saturating_sub(before).saturating_add(after)
}

/// What a trie needs once the routes changed within a prefix: what it needed as a whole, without what was needed at the prefix,
/// and with what is needed there now.
pub fn need_after(whole: Needs, before: Needs, after: Needs) -> Needs
    ensures { IsNeedAfter whole before after result }
{
    Needs {
        nodes: moved(whole.nodes, before.nodes, after.nodes),
        leaves: moved(whole.leaves, before.leaves, after.leaves),
    }
}

/// What is short of an arena of this order or, if its places are enough, of the arenas after it.
fn short_or(arena: u8, need: u64, order: u8, later: Option<TrieFull>) -> Option<TrieFull>
    requires { order ≤ 26 }
    ensures { option_map shortage_as result
        ≡ short_in arena need (2 ^ order) (option_map shortage_as later) }
{
    let have = 1 << order;
    if need > have {
        return Some(TrieFull { need, have, arena });
    }
    later
}

impl FamilyNeeds {
    /// No tries.
    pub fn none() -> FamilyNeeds
        ensures { result ≡ record {
          v4 = record { nodes = 0; leaves = 0 };
          v6 = record { nodes = 0; leaves = 0 };
        } }
    {
        let none = Needs {
            nodes: 0,
            leaves: 0,
        };
        FamilyNeeds { v4: none, v6: none }
    }

    /// What the tries of both trees' routes need. It costs the whole trees.
    pub fn of(v4: &Tree, v6: &Tree, direct: u8) -> FamilyNeeds
        requires v4 { v4.now.family ≡ V4 }
        requires v6 { v6.now.family ≡ V6 }
        requires few { direct ≤ 18 }
        ensures { result ≡ told_needs (needs_of_both direct v4.now.routes v6.now.routes) }
    {
        FamilyNeeds {
            v4: need_of(v4, direct),
            v6: need_of(v6, direct),
        }
    }

    /// Whether arenas of these sizes have the places.
    ///
    /// # Errors
    ///
    /// The first arena that has not.
    pub fn fit(&self, sizes: &Sizes) -> Result<(), TrieFull>
        ensures ok { OnOk result (first_short (sizes_as sizes.now) self.now ≡ None) }
        ensures short { IfErr result (λ t. first_short (sizes_as sizes.now) self.now
            ≡ Some (shortage_as t)) }
    {
        let v6_leaves = short_or(3, self.v6.leaves, sizes.leaves, None);
        let v6 = short_or(2, self.v6.nodes, sizes.nodes, v6_leaves);
        let v4_leaves = short_or(1, self.v4.leaves, sizes.leaves, v6);
        match short_or(0, self.v4.nodes, sizes.nodes, v4_leaves) {
            Some(full) => Err(full),
            None => Ok(()),
        }
    }
}
