//! A trie that is changed one word at a time.

ghost use Rattle.std.specs.Prelude.{◌≡◌, ℕ};
ghost use Rattle.buddy_arena.specs.Space.{IsSized};
ghost use Rattle.poptrie_set.specs.Rooms.{IsRest};

use crate::reading::{At, visit};
use crate::reasons::{NotReady, reason};
use crate::rebuilding::rebuild_or_undo;
use buddy_arena::{Arena, Blocks};
use fib_addr::{Addr, Answers, Family, Prefix, PrefixRegion, Region, Steps};
use path_copying::{Arenas, Store};
use poptrie_build::{
    DirectWord, Found, Needs, Node, TrieFull, clear_all, empty_words, fill_all, key_of,
};
use std::alloc::{AllocError, Global};
use std::marker::Model;
use std::sync::ledger::Ledger;

/// The open lookup that started first.
#[derive(Clone, Copy, Debug, PartialEq, Eq)]
pub enum Oldest {
    /// No lookup is open.
    Nobody,
    /// This one.
    Started {
        /// Its number.
        cursor: u8,
        /// The time at which it started.
        since: u64,
    },
}

/// An update that is ready: the token for its stores, which `TrieSet::end` or `TrieSet::cancel` spends.
pub struct Pending {
    /// How many of its stores were made.
    pub(crate) made: usize,
}

/// A trie with what its pending update has ready. Its direct words stand for the table after the update if a store that was
/// made covers the slot, and else for the table before it.
#[derive(Drop)]
pub struct TrieSet {
    words: Vec<u32>,
    arenas: Arenas,
    stores: Vec<Store>,
    made: usize,
    family: Family,
    direct_bits: u8,
    pending: bool,
}

impl Model for TrieSet {
    ghost use Rattle.poptrie_set.specs.Rooms.{room_of};
    ghost use Rattle.poptrie_set.specs.Lives.{Seen, stores_of, IsLive, ShowsSome};

    ghost Value = { Seen };

    ghost view = { λ l. record {
      family = l.family;
      direct_bits = l.direct_bits;
      words = l.words.items;
      nodes = room_of l.arenas.nodes l.arenas.node_blocks;
      leaves = room_of l.arenas.leaves l.arenas.leaf_blocks;
      pending = l.pending;
      stores = stores_of l.stores.items;
      made = l.made;
      time = l.arenas.node_blocks.time;
    } };

    ghost invariant = { λ l. IsLive l.direct_bits l.words.items l.arenas.nodes l.arenas.leaves
        l.arenas.node_blocks l.arenas.leaf_blocks l.pending l.stores.items l.made
        × ShowsSome (record {
          family = l.family;
          direct_bits = l.direct_bits;
          words = l.words.items;
          nodes = room_of l.arenas.nodes l.arenas.node_blocks;
          leaves = room_of l.arenas.leaves l.arenas.leaf_blocks;
          pending = l.pending;
          stores = stores_of l.stores.items;
          made = l.made;
          time = l.arenas.node_blocks.time;
        }) };
}

/// How many places of an arena are out that the pending update didn't take and that aren't retired: those of the version before it.
fn own_places<T: Copy>(arena: &Arena<T>, blocks: &Blocks) -> u64
    requires sized { IsSized arena.now }
    requires some { (n : ℕ) × IsRest n arena.now blocks.now }
    ensures { (n : ℕ) → IsRest n arena.now blocks.now → result ≡ n }
{
    arena.places() - arena.free_total() - blocks.places_beside()
}

impl TrieSet {
    ghost use Rattle.std.specs.Prelude.{◌≡◌, ℕ, List, [], ◌∷◌, ◌++◌, suc, ◌+◌, ◌*◌, ◌≤◌, ◌<◌, Bool, true, false, length, IfOk, OnOk, OnErr, IfErr};
    ghost use Rattle.table_model.specs.Width.{width};
    ghost use Rattle.fib_addr.specs.Views.{addr_as, prefix_as};
    ghost use Rattle.table_model.specs.Entries.{Entries, match_in};
    ghost use Rattle.fib_addr.specs.Answers.{all_answers};
    ghost use Rattle.buddy_arena.specs.Blocks.{GivesBack, late};
    ghost use Rattle.buddy_arena.specs.Space.{Space};
    ghost use Rattle.poptrie_build.specs.declared.node.Node.{Node};
    ghost use Rattle.poptrie_build.specs.Tries.{node_need, leaf_need, visits_of};
    ghost use Rattle.poptrie_set.specs.Lives.{Seen, ShowsIn, HasSizesOf, IsTokenIn, IsTooMuchFor, KeepsBlocks, AreNeedsOf};
    ghost use Rattle.poptrie_set.specs.Fits.{Reader, FitsIn, IsOldestOf, until};
    ghost use Rattle.poptrie_set.specs.Past.{PastIn};
    ghost use Rattle.poptrie_set.specs.Undone.{IsReadyFrom, IsAsBefore};
    ghost use Rattle.poptrie_set.specs.Cells.{KeepsCells};
    ghost use Rattle.poptrie_set.specs.Reading.{ReadsOn, CanRead, LeadsIn, bits_after};
    ghost use Rattle.poptrie_set.specs.First.{StartsIn, published_in};
    ghost use Rattle.poptrie_set.specs.Prepares.{AgreeOutside, KeepsOutside, MergesSlots, StoresJust, GaveBack, AsksRun, AsksRunOut};
    ghost use Rattle.poptrie_set.specs.declared.trie_set.Oldest.TheVariants as Oldest;

    /// A trie that answers none everywhere, at time 0, with arenas of these orders.
    ///
    /// # Errors
    ///
    /// Out of memory.
    pub fn new(
        alloc: Global,
        family: Family,
        direct_bits: u8,
        node_order: u8,
        leaf_order: u8,
    ) -> Result<TrieSet, AllocError>
        requires direct { direct_bits ≤ 18 }
        requires nodes { node_order ≤ 26 }
        requires leaves { leaf_order ≤ 26 }
        ensures family { IfOk result (λ l. l.family ≡ family) }
        ensures direct { IfOk result (λ l. l.direct_bits ≡ direct_bits) }
        ensures orders { IfOk result (λ l. (l.nodes.space.order ≡ node_order)
            × (l.leaves.space.order ≡ leaf_order)) }
        ensures quiet { IfOk result (λ l. (l.pending ≡ false) × (l.time ≡ 0)) }
        ensures retired { IfOk result (λ l. (l.nodes.retired ≡ []) × (l.leaves.retired ≡ [])) }
        ensures shows { IfOk result (λ l. ShowsIn l [] []) }
        ensures past { IfOk result (λ l. PastIn l [] []) }
    {
        let words = empty_words(alloc, direct_bits)?;
        let nodes = Arena::new(alloc, node_order, Node::blank())?;
        let leaves = Arena::new(alloc, leaf_order, 0)?;
        Ok(TrieSet {
            words,
            arenas: Arenas {
                nodes,
                node_blocks: Blocks::new(alloc),
                leaves,
                leaf_blocks: Blocks::new(alloc),
            },
            stores: Vec::new(alloc),
            made: 0,
            family,
            direct_bits,
            pending: false,
        })
    }

    /// Builds the trie of a table anew, which it asks about prefixes from the table's root. No lookup may be open: what they read is
    /// gone.
    ///
    /// # Errors
    ///
    /// It needs more nodes than there is room for, or else more leaves; then the trie answers none everywhere.
    pub fn build<A: Answers>(&mut self, table: &A) -> Result<(), TrieFull>
        requires family { A.of table.now ≡ self.old.family }
        requires quiet { self.old.pending ≡ false }
        ensures shape { HasSizesOf self.old self.new }
        ensures quiet { (self.new.pending ≡ false) × (self.new.time ≡ self.old.time) }
        ensures retired { (self.new.nodes.retired ≡ []) × (self.new.leaves.retired ≡ []) }
        ensures built { OnOk result (ShowsIn self.new (A.entries table.now) (A.entries table.now)) }
        ensures none { OnErr result (ShowsIn self.new [] []) }
        ensures full { IfErr result (IsTooMuchFor self.old (A.entries table.now)) }
        ensures past { (ns ls : List ℕ) → PastIn self.old ns ls → PastIn self.new ns ls }
    {
        self.fill(&PrefixRegion::whole(table))
    }

    /// Builds the trie of a table anew, of which it gets the region of all addresses: a structure that keeps its place
    /// answers each half at a step's cost.
    ///
    /// # Errors
    ///
    /// As `build`'s.
    pub fn fill<R: Region>(&mut self, region: &R) -> Result<(), TrieFull>
        requires bits { R.bits region.now ≡ width self.old.family }
        requires quiet { self.old.pending ≡ false }
        ensures shape { HasSizesOf self.old self.new }
        ensures quiet { (self.new.pending ≡ false) × (self.new.time ≡ self.old.time) }
        ensures retired { (self.new.nodes.retired ≡ []) × (self.new.leaves.retired ≡ []) }
        ensures built { OnOk result ((L : Entries)
            → R.answers region.now ≡ all_answers self.old.family L → ShowsIn self.new L L) }
        ensures none { OnErr result (ShowsIn self.new [] []) }
        ensures full { IfErr result (λ e. (L : Entries)
            → R.answers region.now ≡ all_answers self.old.family L
            → IsTooMuchFor self.old L e) }
        ensures past { (ns ls : List ℕ) → PastIn self.old ns ls → PastIn self.new ns ls }
    {
        self.arenas.node_blocks.clear();
        self.arenas.leaf_blocks.clear();
        fill_all(
            region,
            self.direct_bits,
            &mut self.words,
            &mut self.arenas.nodes,
            &mut self.arenas.leaves,
        )
    }

    /// Gives back what no open lookup may be in: what was retired at an end that was over when the oldest of them started.
    pub fn give_back(&mut self, oldest: Oldest)
        requires { self.old.pending ≡ false }
        ensures shape { HasSizesOf self.old self.new }
        ensures kept { (self.new.words ≡ self.old.words) × (self.new.pending ≡ false)
            × (self.new.time ≡ self.old.time) }
        ensures nodes { self.new.nodes.retired
            ≡ late (until oldest self.old.time) self.old.nodes.retired }
        ensures leaves { self.new.leaves.retired
            ≡ late (until oldest self.old.time) self.old.leaves.retired }
        ensures all { oldest ≡ Oldest.Nobody
            → (self.new.nodes.retired ≡ []) × (self.new.leaves.retired ≡ []) }
        ensures still { (self.old.nodes.taken ≡ []) × (self.old.leaves.taken ≡ []) }
        ensures given { GaveBack (until oldest self.old.time) self.old self.new.nodes.space
            self.new.leaves.space }
        ensures just { (nodes : Space Node) (leaves : Space ℕ)
            → GaveBack (until oldest self.old.time) self.old nodes leaves
            → (nodes.free ≡ self.new.nodes.space.free)
            × (leaves.free ≡ self.new.leaves.space.free) }
        ensures shows { (L M : Entries) → ShowsIn self.old L M → ShowsIn self.new L M }
        ensures cells { KeepsCells (until oldest self.old.time) self.old self.new }
        ensures fits { (os : List Reader) → IsOldestOf oldest os → FitsIn self.old os
            → FitsIn self.new os }
        ensures past { (ns ls : List ℕ) → PastIn self.old ns ls → PastIn self.new ns ls }
    {
        let since = match oldest {
            Oldest::Nobody => self.arenas.node_blocks.time(),
            Oldest::Started { cursor, since } => since,
        };
        self.arenas
            .node_blocks
            .release(&mut self.arenas.nodes, since);
        self.arenas
            .leaf_blocks
            .release(&mut self.arenas.leaves, since);
    }

    /// Makes an update ready that changes the answers of a prefix's addresses at most: makes what has other answers anew beside all
    /// that is out, for the region of all addresses of the new table. Nothing that a lookup reads is written, so the answers stay
    /// until the stores are made.
    ///
    /// # Errors
    ///
    /// Out of memory, or the new table's trie is larger than the arenas, or it would fit, but not beside what is in use. All is
    /// as it was.
    pub fn prepare<R: Region>(&mut self, region: &R, prefix: &Prefix) -> Result<Pending, NotReady>
        requires family { prefix.now.family ≡ self.old.family }
        requires bits { R.bits region.now ≡ width self.old.family }
        requires quiet { self.old.pending ≡ false }
        requires time { self.old.time < 18446744073709551615 }
        ensures shape { HasSizesOf self.old self.new }
        ensures kept { (self.new.words ≡ self.old.words) × (self.new.time ≡ self.old.time) }
        ensures retired { (self.new.nodes.retired ≡ self.old.nodes.retired)
            × (self.new.leaves.retired ≡ self.old.leaves.retired) }
        ensures token { IfOk result (λ p. IsTokenIn p self.new × (self.new.made ≡ 0)) }
        ensures quiet { OnErr result (self.new.pending ≡ false) }
        ensures shows { OnOk result ((L M : Entries) → ShowsIn self.old L L
            → R.answers region.now ≡ all_answers self.old.family M
            → AgreeOutside (prefix_as prefix.now) L M → ShowsIn self.new L M) }
        ensures merged { OnOk result ((L M N : Entries) → ShowsIn self.old L L
            → R.answers region.now ≡ all_answers self.old.family M
            → MergesSlots (prefix_as prefix.now) self.old.direct_bits L M N
            → ShowsIn self.new L N) }
        ensures changes { OnOk result ((L M : Entries) → ShowsIn self.old L L
            → R.answers region.now ≡ all_answers self.old.family M
            → AgreeOutside (prefix_as prefix.now) L M
            → StoresJust self.old.family self.old.direct_bits L M self.new.stores) }
        ensures still { OnErr result ((L M : Entries) → ShowsIn self.old L M
            → ShowsIn self.new L M) }
        ensures ready { OnOk result (IsReadyFrom self.old self.new) }
        ensures back { OnErr result (IsAsBefore self.old self.new) }
        ensures free { OnErr result (
            (self.new.nodes.space.free ≡ self.old.nodes.space.free)
            × (self.new.leaves.space.free ≡ self.old.leaves.space.free)) }
        ensures asks { OnOk result ((L M : Entries) → ShowsIn self.old L L
            → R.answers region.now ≡ all_answers self.old.family M
            → AgreeOutside (prefix_as prefix.now) L M
            → AsksRun self.old self.new L M) }
        ensures refused { IfErr result (λ e. (L M : Entries) → ShowsIn self.old L L
            → R.answers region.now ≡ all_answers self.old.family M
            → AgreeOutside (prefix_as prefix.now) L M → AsksRunOut self.old L M e) }
        ensures cells { KeepsCells 0 self.old self.new }
        ensures fits { (os : List Reader) → FitsIn self.old os → FitsIn self.new os }
    {
        // it shows some table
        self.arenas_law();
        self.prepare_within(region, prefix, &Prefix::whole(prefix.family))
    }

    /// Makes an update ready as `prepare` does, for a new table that gives the addresses outside `within` what they get now. It
    /// goes down the way there and compares nothing beside it: it costs the length of the way and what `within` covers, however
    /// few direct bits there are.
    ///
    /// # Errors
    ///
    /// As `prepare`'s.
    pub fn prepare_within<R: Region>(
        &mut self,
        region: &R,
        prefix: &Prefix,
        within: &Prefix,
    ) -> Result<Pending, NotReady>
        requires family { prefix.now.family ≡ self.old.family }
        requires bits { R.bits region.now ≡ width self.old.family }
        requires quiet { self.old.pending ≡ false }
        requires time { self.old.time < 18446744073709551615 }
        requires within { within.now.family ≡ self.old.family }
        requires outside { (L : Entries) × ShowsIn self.old L L
            × KeepsOutside (prefix_as within.now) L (R.answers region.now) }
        ensures shape { HasSizesOf self.old self.new }
        ensures kept { (self.new.words ≡ self.old.words) × (self.new.time ≡ self.old.time) }
        ensures retired { (self.new.nodes.retired ≡ self.old.nodes.retired)
            × (self.new.leaves.retired ≡ self.old.leaves.retired) }
        ensures token { IfOk result (λ p. IsTokenIn p self.new × (self.new.made ≡ 0)) }
        ensures quiet { OnErr result (self.new.pending ≡ false) }
        ensures shows { OnOk result ((L M : Entries) → ShowsIn self.old L L
            → R.answers region.now ≡ all_answers self.old.family M
            → AgreeOutside (prefix_as prefix.now) L M → ShowsIn self.new L M) }
        ensures merged { OnOk result ((L M N : Entries) → ShowsIn self.old L L
            → R.answers region.now ≡ all_answers self.old.family M
            → MergesSlots (prefix_as prefix.now) self.old.direct_bits L M N
            → ShowsIn self.new L N) }
        ensures changes { OnOk result ((L M : Entries) → ShowsIn self.old L L
            → R.answers region.now ≡ all_answers self.old.family M
            → AgreeOutside (prefix_as prefix.now) L M
            → StoresJust self.old.family self.old.direct_bits L M self.new.stores) }
        ensures still { OnErr result ((L M : Entries) → ShowsIn self.old L M
            → ShowsIn self.new L M) }
        ensures ready { OnOk result (IsReadyFrom self.old self.new) }
        ensures back { OnErr result (IsAsBefore self.old self.new) }
        ensures free { OnErr result (
            (self.new.nodes.space.free ≡ self.old.nodes.space.free)
            × (self.new.leaves.space.free ≡ self.old.leaves.space.free)) }
        ensures asks { OnOk result ((L M : Entries) → ShowsIn self.old L L
            → R.answers region.now ≡ all_answers self.old.family M
            → AgreeOutside (prefix_as prefix.now) L M
            → AsksRun self.old self.new L M) }
        ensures refused { IfErr result (λ e. (L M : Entries) → ShowsIn self.old L L
            → R.answers region.now ≡ all_answers self.old.family M
            → AgreeOutside (prefix_as prefix.now) L M → AsksRunOut self.old L M e) }
        ensures cells { KeepsCells 0 self.old self.new }
        ensures fits { (os : List Reader) → FitsIn self.old os → FitsIn self.new os }
    {
        let made = rebuild_or_undo(
            region,
            prefix,
            within,
            self.direct_bits,
            &self.words,
            &mut self.arenas,
            &mut self.stores,
        );
        match made {
            Ok(()) => {
                self.pending = true;
                Ok(Pending { made: 0 })
            }
            Err(refusal) => Err(reason(
                region,
                self.direct_bits,
                refusal,
                &self.arenas.nodes,
                &self.arenas.leaves,
            )),
        }
    }

    /// The first read of a lookup: the direct word of its address.
    pub fn first(&self, addr: &Addr) -> At
        requires family { addr.now.family ≡ self.now.family }
        ensures { (L M : Entries) → ShowsIn self.now L M
            → StartsIn result self.now (published_in self.now L M addr.now) addr.now }
    {
        let word = self.words[(key_of(addr) >> 1 >> (127 - self.direct_bits)) as usize];
        match DirectWord::read(word) {
            DirectWord::Hop(hop) => At::Answer(hop),
            DirectWord::Node(node) => At::Node { node, stride: 0 },
        }
    }

    /// Each further read: visits one node.
    pub fn next(&self, node: u32, stride: u8, addr: &Addr) -> At
        requires stride { self.now.direct_bits + 6 * stride < 128 }
        requires can { CanRead self.now.nodes.space.cells self.now.leaves.space.cells node
            (bits_after self.now.direct_bits stride addr.now) }
        ensures { (left h : ℕ) (N L : ℕ → Bool)
            → ReadsOn left self.now.nodes.space.cells N self.now.leaves.space.cells L node
            (bits_after self.now.direct_bits stride addr.now) h
            → LeadsIn result left self.now.nodes.space.cells N self.now.leaves.space.cells L
            self.now.direct_bits stride addr.now h }
    {
        let key = key_of(addr) << (self.direct_bits + 6 * stride);
        visit(&self.arenas.nodes, &self.arenas.leaves, node, stride, key)
    }

    /// The answer that is published to an address, with a step for each node that is visited: all the reads of a lookup without a
    /// pause.
    pub fn lookup<L: Ledger>(&self, addr: &Addr, steps: &mut Steps<L>) -> Found
        requires family { addr.now.family ≡ self.now.family }
        ensures hop { (E F : Entries) → ShowsIn self.now E F
            → result.hop.0 ≡ match_in (published_in self.now E F addr.now) (addr_as addr.now) }
        ensures visits { (E F : Entries) → ShowsIn self.now E F → result.visits
            ≡ visits_of self.now.direct_bits (published_in self.now E F addr.now) (addr_as addr.now) }
        ensures steps { steps.new ≡ steps.old + result.visits }
    {
        let _most = self.direct_bits;
        let mut at = self.first(addr);
        let mut visits = 0;
        'walk: loop {
            match at {
                At::Answer(hop) => return Found { hop, visits },
                At::Node { node, stride } => {
                    steps.tick();
                    visits += 1;
                    at = self.next(node, stride, addr);
                }
            }
        }
    }

    /// The needs of the trie of the table before the pending update, or of the table if none is pending. They are what is out and
    /// neither taken by the update nor retired, and aren't counted anew.
    pub fn needs(&self) -> Needs
        ensures { (L M : Entries) → ShowsIn self.now L M → AreNeedsOf result self.now L }
    {
        Needs {
            nodes: own_places(&self.arenas.nodes, &self.arenas.node_blocks),
            leaves: own_places(&self.arenas.leaves, &self.arenas.leaf_blocks),
        }
    }

    /// The number of ends so far.
    pub fn time(&self) -> u64
        ensures { result ≡ self.now.time }
    {
        self.arenas.node_blocks.time()
    }

    /// Whether an update is pending.
    pub fn is_pending(&self) -> bool
        ensures { result ≡ self.now.pending }
    {
        self.pending
    }

    /// What its blocks are. It does nothing: its clause holds at every moment.
    pub fn arenas_law(&self)
        ensures { KeepsBlocks self.now }
    {
        self.arenas.node_blocks.retired_law();
        self.arenas.leaf_blocks.retired_law();
    }

    /// Makes the next store of the pending update; false if none is left.
    pub fn store(&mut self, pending: &mut Pending) -> bool
        requires { IsTokenIn pending.old self.old }
        ensures token { IsTokenIn pending.new self.new }
        ensures made { result ≡ true → (self.old.made < length self.old.stores)
            × (self.new.made ≡ suc self.old.made) }
        ensures none { result ≡ false → (length self.old.stores ≤ self.old.made)
            × (self.new ≡ self.old) }
        ensures shape { HasSizesOf self.old self.new }
        ensures kept { (self.new.stores ≡ self.old.stores) × (self.new.time ≡ self.old.time) }
        ensures shows { (L M : Entries) → ShowsIn self.old L M → ShowsIn self.new L M }
        ensures cells { KeepsCells 0 self.old self.new }
        ensures fits { (os : List Reader) → FitsIn self.old os → FitsIn self.new os }
        ensures past { (ns ls : List ℕ) → PastIn self.old ns ls → PastIn self.new ns ls }
    {
        if self.made == self.stores.len() {
            return false;
        }
        let next = self.stores[self.made];
        self.words[next.slot as usize] = next.word;
        self.made += 1;
        pending.made = self.made;
        true
    }

    /// The pending update is over: what it replaced is retired, and time goes on.
    ///
    /// # Errors
    ///
    /// Stores are left: the token is returned, and nothing has changed.
    pub fn end(&mut self, pending: Pending) -> Result<(), Pending>
        requires token { IsTokenIn pending self.old }
        requires time { self.old.time < 18446744073709551615 }
        ensures left { IfErr result (λ p. (p ≡ pending) × (self.new ≡ self.old)
            × (self.old.made < length self.old.stores)) }
        ensures all { OnOk result (length self.old.stores ≤ self.old.made) }
        ensures quiet { OnOk result (self.new.pending ≡ false) }
        ensures time { OnOk result (self.new.time ≡ suc self.old.time) }
        ensures shape { HasSizesOf self.old self.new }
        ensures words { self.new.words ≡ self.old.words }
        ensures shows { OnOk result ((L M : Entries) → ShowsIn self.old L M → ShowsIn self.new M M) }
        ensures cells { OnOk result (KeepsCells 0 self.old self.new) }
        ensures fits { OnOk result ((os : List Reader) → FitsIn self.old os → FitsIn self.new os) }
        ensures past { OnOk result ((L M : Entries) (ns ls : List ℕ) → ShowsIn self.old L M
            → PastIn self.old ns ls
            → PastIn self.new (ns ++ node_need self.old.family self.old.direct_bits L ∷ [])
            (ls ++ leaf_need self.old.family self.old.direct_bits L ∷ [])) }
    {
        if self.made < self.stores.len() {
            return Err(pending);
        }
        let Pending { made } = pending;
        self.arenas.node_blocks.end();
        self.arenas.leaf_blocks.end();
        self.stores.clear();
        self.made = 0;
        self.pending = false;
        Ok(())
    }

    /// An update was over that changed nothing here: time goes on.
    pub fn tick(&mut self)
        requires quiet { self.old.pending ≡ false }
        requires time { self.old.time < 18446744073709551615 }
        ensures time { self.new.time ≡ suc self.old.time }
        ensures shape { HasSizesOf self.old self.new }
        ensures kept { (self.new.words ≡ self.old.words) × (self.new.pending ≡ false) }
        ensures nodes { self.new.nodes ≡ self.old.nodes }
        ensures leaves { self.new.leaves ≡ self.old.leaves }
        ensures shows { (L M : Entries) → ShowsIn self.old L M → ShowsIn self.new L M }
        ensures cells { KeepsCells 0 self.old self.new }
        ensures fits { (os : List Reader) → FitsIn self.old os → FitsIn self.new os }
        ensures past { (n l : ℕ) (ns ls : List ℕ) → PastIn self.old ns ls
            → PastIn self.new (ns ++ n ∷ []) (ls ++ l ∷ []) }
    {
        self.arenas.node_blocks.end();
        self.arenas.leaf_blocks.end();
    }

    /// Gives all back: the trie answers none everywhere. No lookup may be open in it, for what they read is gone.
    pub fn clear(&mut self)
        ensures shape { HasSizesOf self.old self.new }
        ensures quiet { (self.new.pending ≡ false) × (self.new.time ≡ self.old.time) }
        ensures retired { (self.new.nodes.retired ≡ []) × (self.new.leaves.retired ≡ []) }
        ensures none { ShowsIn self.new [] [] }
    {
        clear_all(
            &mut self.words,
            &mut self.arenas.nodes,
            &mut self.arenas.leaves,
        );
        self.arenas.node_blocks.clear();
        self.arenas.leaf_blocks.clear();
        self.stores.clear();
        self.made = 0;
        self.pending = false;
    }

    /// The pending update is forgotten: what it took is given back.
    ///
    /// # Errors
    ///
    /// A store was made: the token is returned, and nothing has changed.
    pub fn cancel(&mut self, pending: Pending) -> Result<(), Pending>
        requires { IsTokenIn pending self.old }
        ensures made { IfErr result (λ p. (p ≡ pending) × (self.new ≡ self.old)
            × (0 < self.old.made)) }
        ensures none { OnOk result (self.old.made ≡ 0) }
        ensures quiet { OnOk result (self.new.pending ≡ false) }
        ensures time { self.new.time ≡ self.old.time }
        ensures shape { HasSizesOf self.old self.new }
        ensures words { self.new.words ≡ self.old.words }
        ensures retired { (self.new.nodes.retired ≡ self.old.nodes.retired)
            × (self.new.leaves.retired ≡ self.old.leaves.retired) }
        ensures before { OnOk result ((b : Seen) → IsReadyFrom b self.old
            → IsAsBefore b self.new) }
        ensures nodes { OnOk result (GivesBack self.old.nodes.taken self.old.nodes.space
            self.new.nodes.space) }
        ensures leaves { OnOk result (GivesBack self.old.leaves.taken self.old.leaves.space
            self.new.leaves.space) }
        ensures shows { OnOk result ((L M : Entries) → ShowsIn self.old L M → ShowsIn self.new L L) }
        ensures cells { OnOk result (KeepsCells 0 self.old self.new) }
        ensures fits { OnOk result ((os : List Reader) → FitsIn self.old os → FitsIn self.new os) }
        ensures past { (ns ls : List ℕ) → PastIn self.old ns ls → PastIn self.new ns ls }
    {
        if self.made > 0 {
            return Err(pending);
        }
        let Pending { made } = pending;
        self.arenas.node_blocks.cancel(&mut self.arenas.nodes);
        self.arenas.leaf_blocks.cancel(&mut self.arenas.leaves);
        self.stores.clear();
        self.pending = false;
        Ok(())
    }
}
