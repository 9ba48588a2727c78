//! The trie.

ghost use Rattle.std.specs.Prelude.{◌≡◌, ◌^◌, ◌≤◌, IfOk, replicate};

use crate::direct_word::HOP;
use crate::filling::{TrieFull, fill_all};
use crate::lookup::{Found, find_addr};
use crate::node::Node;
use buddy_arena::Arena;
use fib_addr::{Addr, Answers, Family, PrefixRegion, Region, Steps};
use std::alloc::{AllocError, Global};
use std::marker::Model;
use std::sync::ledger::Ledger;

/// A Poptrie: direct words for the first bits of an address, then nodes of 64 slots and leaves in arenas.
///
/// It takes all its memory when it is made.
#[derive(Drop)]
pub struct Trie {
    family: Family,
    direct_bits: u8,
    words: Vec<u32>,
    nodes: Arena<Node>,
    leaves: Arena<u16>,
}

impl Model for Trie {
    ghost use Rattle.poptrie_build.specs.Tries.{Shown, IsTrie, HasAnswers};

    ghost Value = { Shown };

    ghost view = { λ t. record { family = t.family; direct_bits = t.direct_bits; words = t.words.items; nodes = t.nodes; leaves = t.leaves } };

    ghost invariant = { λ t. IsTrie (record { family = t.family; direct_bits = t.direct_bits; words = t.words.items; nodes = t.nodes; leaves = t.leaves })
        × HasAnswers (record { family = t.family; direct_bits = t.direct_bits; words = t.words.items; nodes = t.nodes; leaves = t.leaves }) };
}

/// The direct words of a trie that answers none everywhere.
///
/// # Errors
///
/// Out of memory.
#[tactic(auto, using(crate::proofs::Filled::slots_are))]
pub fn empty_words(alloc: Global, direct_bits: u8) -> Result<Vec<u32>, AllocError>
    requires { direct_bits ≤ 18 }
    ensures { IfOk result (λ v. v.items ≡ replicate (2 ^ direct_bits) 2147483648) }
{
    let slots: usize = 1 << direct_bits;
    Ok(vec![in alloc; HOP; slots]?)
}

impl Trie {
    ghost use Rattle.std.specs.Prelude.{[], ◌≡◌, ◌+◌, ◌-◌, ◌^◌, ◌≤◌, IfOk, IfErr, OnOk, OnErr};
    ghost use Rattle.table_model.specs.Width.{width};
    ghost use Rattle.fib_addr.specs.Views.{addr_as};
    ghost use Rattle.table_model.specs.Entries.{Entries, match_in};
    ghost use Rattle.poptrie_build.specs.Need.{need_in_u64};
    ghost use Rattle.fib_addr.specs.Answers.{all_answers};
    ghost use Rattle.poptrie_build.specs.Strides.{strides};
    ghost use Rattle.poptrie_build.specs.Tries.{StandsFor, IsRefused, node_need, leaf_need, rest, visits_of};

    /// A trie that answers none everywhere, with arenas of these orders.
    ///
    /// # Errors
    ///
    /// Out of memory.
    pub fn new(
        alloc: Global,
        family: Family,
        direct_bits: u8,
        node_order: u8,
        leaf_order: u8,
    ) -> Result<Trie, AllocError>
        requires direct { direct_bits ≤ 18 }
        requires nodes { node_order ≤ 26 }
        requires leaves { leaf_order ≤ 26 }
        ensures family { IfOk result (λ t. t.family ≡ family) }
        ensures direct { IfOk result (λ t. t.direct_bits ≡ direct_bits) }
        ensures orders { IfOk result (λ t. (t.nodes.order ≡ node_order)
            × (t.leaves.order ≡ leaf_order)) }
        ensures none { IfOk result (λ t. StandsFor t []) }
    {
        let words = empty_words(alloc, direct_bits)?;
        let nodes = Arena::new(alloc, node_order, Node::blank())?;
        let leaves = Arena::new(alloc, leaf_order, 0)?;
        Ok(Trie {
            family,
            direct_bits,
            words,
            nodes,
            leaves,
        })
    }

    /// Builds the trie of a table anew, which it asks about prefixes from the table's root.
    ///
    /// # Errors
    ///
    /// It needs more nodes than there is room for, or else more leaves; then the trie answers none everywhere.
    pub fn build<A: Answers>(&mut self, table: &A) -> Result<(), TrieFull>
        requires { A.of table.now ≡ self.old.family }
        ensures kept { (self.new.family ≡ self.old.family)
            × (self.new.direct_bits ≡ self.old.direct_bits) }
        ensures orders { (self.new.nodes.order ≡ self.old.nodes.order)
            × (self.new.leaves.order ≡ self.old.leaves.order) }
        ensures built { OnOk result (StandsFor self.new (A.entries table.now)) }
        ensures none { OnErr result (StandsFor self.new []) }
        ensures full { IfErr result (IsRefused self.old (A.entries table.now)) }
    {
        self.fill(&PrefixRegion::whole(table))
    }

    /// Builds the trie of a table anew, of which it gets the region of all addresses: a structure that keeps its place
    /// answers each half at a step's cost.
    ///
    /// # Errors
    ///
    /// As `build`'s.
    pub fn fill<R: Region>(&mut self, region: &R) -> Result<(), TrieFull>
        requires { R.bits region.now ≡ width self.old.family }
        ensures kept { (self.new.family ≡ self.old.family)
            × (self.new.direct_bits ≡ self.old.direct_bits) }
        ensures orders { (self.new.nodes.order ≡ self.old.nodes.order)
            × (self.new.leaves.order ≡ self.old.leaves.order) }
        ensures built { OnOk result ((L : Entries)
            → R.answers region.now ≡ all_answers self.old.family L → StandsFor self.new L) }
        ensures none { OnErr result (StandsFor self.new []) }
        ensures full { IfErr result (λ e. (L : Entries)
            → R.answers region.now ≡ all_answers self.old.family L → IsRefused self.old L e) }
    {
        fill_all(
            region,
            self.direct_bits,
            &mut self.words,
            &mut self.nodes,
            &mut self.leaves,
        )
    }

    /// The answer at an address, with a step for each node that is visited.
    pub fn lookup<L: Ledger>(&self, addr: &Addr, steps: &mut Steps<L>) -> Found
        requires family { addr.now.family ≡ self.now.family }
        ensures hop { (E : Entries) → StandsFor self.now E
            → result.hop.0 ≡ match_in E (addr_as addr.now) }
        ensures visits { (E : Entries) → StandsFor self.now E
            → result.visits ≡ visits_of self.now.direct_bits E (addr_as addr.now) }
        ensures few { result.visits ≤ strides (rest self.now.family self.now.direct_bits) }
        ensures steps { steps.new ≡ steps.old + result.visits }
    {
        find_addr(
            &self.words,
            &self.nodes,
            &self.leaves,
            self.direct_bits,
            addr,
            steps,
        )
    }

    /// How many places its nodes and its leaves need.
    pub fn needs(&self) -> (u64, u64)
        ensures nodes { (L : Entries) → StandsFor self.now L
            → result.0 ≡ need_in_u64 (node_need self.now.family self.now.direct_bits L) }
        ensures leaves { (L : Entries) → StandsFor self.now L
            → result.1 ≡ need_in_u64 (leaf_need self.now.family self.now.direct_bits L) }
    {
        (
            self.nodes.places() - self.nodes.free_total(),
            self.leaves.places() - self.leaves.free_total(),
        )
    }
}
