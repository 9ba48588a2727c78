//! The tries of both families.

ghost use Rattle.std.specs.Prelude.{◌≡◌, ◌+◌, ◌<◌, ℕ, Some, None, IfOk, OnOk, IsErrOf};
ghost use Rattle.table_model.specs.declared.family.Family.TheVariants.{V4, V6};
ghost use Rattle.table_model.specs.Entries.{Entries, match_in};
ghost use Rattle.fib_addr.specs.Views.{addr_as};
ghost use Rattle.poptrie_build.specs.Tries.{visits_of};
ghost use Rattle.route_tries.specs.Sizes.{first_short, needs_of_both, short_of_one, sizes_as, shortage_as};
ghost use Rattle.route_tries.specs.Tries.{AreTriesOf, IsFilled};
ghost use Rattle.route_tries.specs.declared.sizes.TrieFull.{TrieFull as code_full};
ghost use Rattle.route_tries.specs.declared.tries.TriesError.TheVariants.{Full as IsFull, NoMemory as IsNoMemory};

use crate::region::RouteRegion;
use crate::sizes::{Sizes, TrieFull};
use fib_addr::{Addr, Family, Steps};
use orig_tree::Tree;
use poptrie_build::{Found, Trie};
use std::alloc::{AllocError, Global};
use std::marker::Model;
use std::sync::ledger::Ledger;
use thiserror::Error;

/// Why tries weren't built.
#[derive(Clone, Copy, Debug, PartialEq, Eq, Error)]
pub enum TriesError {
    /// An arena is too small.
    #[error("{0}")]
    Full(TrieFull),
    /// Memory ran out.
    #[error("no memory")]
    NoMemory,
}

impl From<TrieFull> for TriesError {
    ghost from_gives = { λ t e. e ≡ IsFull t };

    fn from(t: TrieFull) -> TriesError {
        TriesError::Full(t)
    }
}

impl From<AllocError> for TriesError {
    ghost from_gives = { λ _ e. e ≡ IsNoMemory };

    fn from(_e: AllocError) -> TriesError {
        TriesError::NoMemory
    }
}

/// A trie of each family, for the routes of a tree each: while there are the tries, the trees stay as they are. Contracts see the
/// routes.
#[derive(Drop)]
pub struct Tries<'a> {
    v4: Trie,
    v6: Trie,
    v4_tree: &'a Tree,
    v6_tree: &'a Tree,
}

impl<'a> Model for Tries<'a> {
    ghost use Rattle.table_model.specs.declared.family.Family.TheVariants.{V4, V6};
    ghost use Rattle.route_tries.specs.Tries.{TwoTries, IsFilled};

    ghost Value = { TwoTries };

    ghost view = { λ t. record {
      direct = t.v4.direct_bits;
      v4 = t.v4_tree.now.routes;
      v6 = t.v6_tree.now.routes;
    } };

    ghost invariant = { λ t. IsFilled V4 t.v4.direct_bits t.v4_tree.now.routes t.v4
        × IsFilled V6 t.v4.direct_bits t.v6_tree.now.routes t.v6 };
}

/// The trie of a tree's routes. Of both families' arenas its nodes' has this number, and its leaves' the next.
fn build_one(alloc: Global, sizes: &Sizes, tree: &Tree, first: u8) -> Result<Trie, TriesError>
    requires { first < 255 }
    ensures filled { IfOk result (IsFilled tree.now.family sizes.now.direct tree.now.routes) }
    ensures fits { OnOk result (short_of_one tree.now.family (sizes_as sizes.now) first
        tree.now.routes None ≡ None) }
    ensures full { (full : code_full) → IsErrOf result (IsFull full)
        → short_of_one tree.now.family (sizes_as sizes.now) first tree.now.routes None
        ≡ Some (shortage_as full) }
{
    let mut trie = Trie::new(
        alloc,
        tree.family(),
        sizes.direct,
        sizes.nodes,
        sizes.leaves,
    )?;
    match trie.fill(&RouteRegion::whole(tree)) {
        Ok(()) => Ok(trie),
        Err(full) => Err(TriesError::Full(TrieFull {
            need: full.need,
            have: full.have,
            arena: if full.arena == 0 { first } else { first + 1 },
        })),
    }
}

impl<'a> Tries<'a> {
    /// The tries of these trees' routes.
    ///
    /// # Errors
    ///
    /// `Full` exactly if an arena is too small, of which it names the first; or out of memory.
    pub fn build(
        alloc: Global,
        sizes: &Sizes,
        v4_tree: &'a Tree,
        v6_tree: &'a Tree,
    ) -> Result<Tries<'a>, TriesError>
        requires v4 { v4_tree.now.family ≡ V4 }
        requires v6 { v6_tree.now.family ≡ V6 }
        ensures direct { IfOk result (λ t. t.direct ≡ sizes.now.direct) }
        ensures routes { IfOk result (λ t. (t.v4 ≡ v4_tree.now.routes)
            × (t.v6 ≡ v6_tree.now.routes)) }
        ensures fits { OnOk result (first_short (sizes_as sizes.now)
            (needs_of_both sizes.now.direct v4_tree.now.routes v6_tree.now.routes) ≡ None) }
        ensures full { (full : code_full) → IsErrOf result (IsFull full)
            → first_short (sizes_as sizes.now)
            (needs_of_both sizes.now.direct v4_tree.now.routes v6_tree.now.routes)
            ≡ Some (shortage_as full) }
    {
        let v4 = build_one(alloc, sizes, v4_tree, 0)?;
        let v6 = build_one(alloc, sizes, v6_tree, 2)?;
        Ok(Tries {
            v4,
            v6,
            v4_tree,
            v6_tree,
        })
    }

    /// Longest match by the trie of the address's family, with a step for each node that is visited.
    pub fn lookup<L: Ledger>(&self, addr: &Addr, steps: &mut Steps<L>) -> Found
        ensures hop { (s : ℕ) (E : Entries) → AreTriesOf s E self.now
            → result.hop.0 ≡ match_in E (addr_as addr.now) }
        ensures visits { (s : ℕ) (E : Entries) → AreTriesOf s E self.now
            → result.visits ≡ visits_of s E (addr_as addr.now) }
        ensures steps { steps.new ≡ steps.old + result.visits }
    {
        match addr.family {
            Family::V4 => self.v4.lookup(addr, steps),
            Family::V6 => self.v6.lookup(addr, steps),
        }
    }
}
