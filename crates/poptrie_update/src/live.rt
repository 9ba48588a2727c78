//! The live trie: two sets, of which one is selected.

ghost use Rattle.std.specs.Prelude.{◌≡◌, ◌^◌, ◌<◌};
ghost use Rattle.poptrie_update.specs.Reads.{IsInSet};

use crate::pending::{NotReady, Pending, Stores};
use fib_addr::{Addr, Answers, Family, Hop, Prefix, PrefixRegion, Region, Steps};
use poptrie_build::{Found, Needs, TrieFull};
use poptrie_set::{At as Read, NotReady as NotBeside, Oldest, TrieSet};
use std::alloc::{AllocError, Global};
use std::marker::Model;
use std::mem;
use std::sync::ledger::Ledger;

/// What the set that isn't selected holds.
#[derive(Clone, Copy, Debug, PartialEq, Eq)]
pub(crate) enum Other {
    /// Nothing: it is free.
    Free,
    /// The versions before this end: lookups that started before it may be in them.
    Retired {
        /// The end of the update that replaced the set.
        end: u64,
    },
    /// The trie of the new table, which the pending update's store selects.
    Built,
    /// The version before the pending update, which stored the selector.
    Replaced,
}

/// Where a lookup stands after what it read.
#[derive(Clone, Copy, Debug, PartialEq, Eq)]
pub enum At {
    /// It leads on to this node.
    Node {
        /// The node's place.
        node: u32,
        /// The number of the node's set, 0 or 1.
        set: u8,
        /// How many nodes stand before it on the way.
        stride: u8,
    },
    /// It leads to this answer.
    Answer(Hop),
}

/// A trie with what its pending update has ready, in two sets of the same size.
#[derive(Drop)]
pub struct Live {
    selected: TrieSet,
    other: TrieSet,
    state: Other,
    /// The selected set's number, 0 or 1: the selector.
    number: u8,
}

impl Model for Live {
    ghost use Rattle.poptrie_update.specs.Lives.{Living, IsSetPair};

    ghost Value = { Living };

    ghost view = { λ l. record {
      selected = l.selected;
      other = l.other;
      state = l.state;
      number = l.number;
    } };

    ghost invariant = { λ l. IsSetPair l.selected l.other l.state l.number };
}

/// Where a lookup stands that read this in the set of a number.
fn in_set(read: Read, set: u8) -> At
    ensures { IsInSet read set result }
{
    match read {
        Read::Answer(hop) => At::Answer(hop),
        Read::Node { node, stride } => At::Node { node, set, stride },
    }
}

/// How many places a block of this order has, as far as 64 bits count them.
fn places(order: u8) -> u64
    ensures { order < 64 → result ≡ 2 ^ order }
{
    1 << order.min(63)
}

impl Live {
    ghost use Rattle.std.specs.Prelude.{◌≡◌, ℕ, List, [], ◌∷◌, ◌++◌, suc, ◌+◌, ◌*◌, ◌≤◌, ◌<◌, Bool, true, false, cond, length, IfOk, OnOk, OnErr, IfErr};
    ghost use Rattle.table_model.specs.Width.{width};
    ghost use Rattle.fib_addr.specs.Views.{addr_as, prefix_as};
    ghost use Rattle.table_model.specs.Entries.{Entries, match_in};
    ghost use Rattle.fib_addr.specs.Answers.{all_answers};
    ghost use Rattle.buddy_arena.specs.Space.{Space};
    ghost use Rattle.poptrie_build.specs.declared.node.Node.{Node};
    ghost use Rattle.poptrie_build.specs.Tries.{node_need, leaf_need, visits_of};
    ghost use Rattle.poptrie_set.specs.Lives.{IsTooMuchFor, AreNeedsOf};
    ghost use Rattle.poptrie_set.specs.Fits.{until};
    ghost use Rattle.poptrie_set.specs.Reading.{ReadsOn, CanRead, bits_after};
    ghost use Rattle.poptrie_set.specs.Prepares.{AgreeOutside, KeepsOutside, MergesSlots, GaveBack, AsksRunOut};
    ghost use Rattle.poptrie_set.specs.Lives.{ShowsIn};
    ghost use Rattle.poptrie_update.specs.Lives.{Living, Shows, present_by, HasShapeOf, is_pending, stores_left, made_of, numbered_set, Past, IsFree, KeepsStores, freed, retired_at_end, KeepsBothSets, IsSetPair};
    ghost use Rattle.poptrie_update.specs.Pendings.{IsTokenOf, selects};
    ghost use Rattle.poptrie_update.specs.Fits.{Open, Fits, IsOldest};
    ghost use Rattle.poptrie_update.specs.Reads.{Starts, published_entries, Leads};
    ghost use Rattle.poptrie_update.specs.Outs.{OutJust};
    ghost use Rattle.poptrie_update.specs.Undone.{IsGivenBack, IsReadyAfter, IsSameOther, IsAsItWas};
    ghost use Rattle.poptrie_update.specs.Cells.{KeepsAllReached};
    ghost use Rattle.poptrie_update.specs.Prepares.{IsAtRest, NoneRetired, StoresChanges, IsMade, IsNotReady, IsToWait, IsUndone, IsCancelled, IsBeside, IsNotBeside, IsShort};
    ghost use Rattle.poptrie_set.specs.declared.trie_set.Oldest.TheVariants as Oldest;
    ghost use Rattle.poptrie_update.specs.declared.live.Other.TheVariants as other;
    ghost use Rattle.poptrie_update.specs.declared.pending.Stores.TheVariants as stores;

    /// A trie that answers none everywhere, at time 0, with arenas of these orders in each set.
    ///
    /// # Errors
    ///
    /// Out of memory.
    pub fn new(
        alloc: Global,
        family: Family,
        direct_bits: u8,
        node_order: u8,
        leaf_order: u8,
    ) -> Result<Live, AllocError>
        requires direct { direct_bits ≤ 18 }
        requires nodes { node_order ≤ 26 }
        requires leaves { leaf_order ≤ 26 }
        ensures family { IfOk result (λ l. l.selected.family ≡ family) }
        ensures direct { IfOk result (λ l. l.selected.direct_bits ≡ direct_bits) }
        ensures orders { IfOk result (λ l. (l.selected.nodes.space.order ≡ node_order)
            × (l.selected.leaves.space.order ≡ leaf_order)) }
        ensures quiet { IfOk result (λ l. (is_pending l ≡ false) × (l.selected.time ≡ 0)) }
        ensures other { IfOk result IsFree }
        ensures shows { IfOk result (λ l. Shows l [] []) }
        ensures past { IfOk result (λ l. Past l [] []) }
    {
        let selected = TrieSet::new(alloc, family, direct_bits, node_order, leaf_order)?;
        let other = TrieSet::new(alloc, family, direct_bits, node_order, leaf_order)?;
        Ok(Live {
            selected,
            other,
            state: Other::Free,
            number: 0,
        })
    }

    /// Builds the trie of a table anew, which it asks about prefixes from the table's root. No lookup may be open: what they read
    /// is gone.
    ///
    /// # Errors
    ///
    /// It needs more nodes than there is room for, or else more leaves; then the trie answers none everywhere.
    pub fn build<A: Answers>(&mut self, table: &A) -> Result<(), TrieFull>
        requires family { A.of table.now ≡ self.old.selected.family }
        requires quiet { is_pending self.old ≡ false }
        ensures shape { HasShapeOf self.old self.new }
        ensures quiet { (is_pending self.new ≡ false)
            × (self.new.selected.time ≡ self.old.selected.time) }
        ensures other { self.new.state ≡ self.old.state }
        ensures built { OnOk result (Shows self.new (A.entries table.now) (A.entries table.now)) }
        ensures none { OnErr result (Shows self.new [] []) }
        ensures full { IfErr result (IsTooMuchFor self.old.selected (A.entries table.now)) }
        ensures past { (ns ls : List ℕ) → Past self.old ns ls → Past self.new ns ls }
    {
        self.fill(&PrefixRegion::whole(table))
    }

    /// Builds the trie of a table anew, of which it gets the region of all addresses: a structure that keeps its place
    /// answers each half at a step's cost.
    ///
    /// # Errors
    ///
    /// As `build`'s.
    pub fn fill<R: Region>(&mut self, region: &R) -> Result<(), TrieFull>
        requires bits { R.bits region.now ≡ width self.old.selected.family }
        requires quiet { is_pending self.old ≡ false }
        ensures shape { HasShapeOf self.old self.new }
        ensures quiet { (is_pending self.new ≡ false)
            × (self.new.selected.time ≡ self.old.selected.time) }
        ensures other { self.new.state ≡ self.old.state }
        ensures built { OnOk result ((L : Entries)
            → R.answers region.now ≡ all_answers self.old.selected.family L
            → Shows self.new L L) }
        ensures none { OnErr result (Shows self.new [] []) }
        ensures full { IfErr result (λ e. (L : Entries)
            → R.answers region.now ≡ all_answers self.old.selected.family L
            → IsTooMuchFor self.old.selected L e) }
        ensures past { (ns ls : List ℕ) → Past self.old ns ls → Past self.new ns ls }
    {
        self.selected.fill(region)
    }

    /// Gives back what no open lookup may be in: what was retired at an end that was over when the oldest of them started, and the
    /// other set whole if it was.
    fn give_back(&mut self, oldest: Oldest)
        requires { is_pending self.old ≡ false }
        ensures shape { HasShapeOf self.old self.new }
        ensures kept { (self.new.selected.words ≡ self.old.selected.words)
            × (self.new.selected.time ≡ self.old.selected.time) }
        ensures quiet { is_pending self.new ≡ false }
        ensures other { self.new.state ≡ freed (until oldest self.old.selected.time) self.old.state }
        ensures rest { IsAtRest self.old }
        ensures given { GaveBack (until oldest self.old.selected.time) self.old.selected
            self.new.selected.nodes.space self.new.selected.leaves.space }
        ensures just { (nodes : Space Node) (leaves : Space ℕ)
            → GaveBack (until oldest self.old.selected.time) self.old.selected nodes leaves
            → (nodes.free ≡ self.new.selected.nodes.space.free)
            × (leaves.free ≡ self.new.selected.leaves.space.free) }
        ensures back { IsGivenBack (until oldest self.old.selected.time) self.old self.new }
        ensures all { oldest ≡ Oldest.Nobody → NoneRetired self.new }
        ensures shows { (L M : Entries) → Shows self.old L M → Shows self.new L M }
        ensures cells { KeepsAllReached (until oldest self.old.selected.time) self.old self.new }
        ensures fits { (os : List Open) → IsOldest oldest os → Fits self.old os
            → Fits self.new os }
        ensures past { (ns ls : List ℕ) → Past self.old ns ls → Past self.new ns ls }
    {
        self.selected.give_back(oldest);
        let since = match oldest {
            Oldest::Nobody => self.selected.time(),
            Oldest::Started { cursor, since } => since,
        };
        if let Other::Retired { end } = self.state {
            if end <= since {
                self.other.clear();
                self.state = Other::Free;
            }
        }
    }

    /// Makes an update ready that changes the answers of a prefix's addresses at most, for the region of all addresses of the new
    /// table: first gives back what no open lookup may be in; then makes what has other answers anew beside the old, or, if that
    /// doesn't fit beside what is in use, all in the other set. Nothing that a lookup reads is written, so the answers stay until
    /// the stores are made.
    ///
    /// # Errors
    ///
    /// Out of memory; or the new table's trie is larger than the arenas; or it would fit, but not beside what is in use, while
    /// the oldest lookup may be in the other set. But for what was given back, all is as it was.
    pub fn prepare<R: Region>(
        &mut self,
        region: &R,
        prefix: &Prefix,
        oldest: Oldest,
    ) -> Result<Pending, NotReady>
        requires family { prefix.now.family ≡ self.old.selected.family }
        requires bits { R.bits region.now ≡ width self.old.selected.family }
        requires quiet { is_pending self.old ≡ false }
        requires time { self.old.selected.time < 18446744073709551615 }
        ensures rest { IsAtRest self.old }
        ensures shape { HasShapeOf self.old self.new }
        ensures time { self.new.selected.time ≡ self.old.selected.time }
        ensures token { IfOk result (λ p. IsTokenOf p self.new × (made_of self.new ≡ 0)) }
        ensures quiet { OnErr result (is_pending self.new ≡ false) }
        ensures all { oldest ≡ Oldest.Nobody → NoneRetired self.new }
        ensures out { oldest ≡ Oldest.Nobody → (L M : Entries) → Shows self.new L M
            → OutJust self.new L M }
        ensures shows { OnOk result ((L M : Entries) → Shows self.old L L
            → R.answers region.now ≡ all_answers self.old.selected.family M
            → AgreeOutside (prefix_as prefix.now) L M → Shows self.new L M) }
        ensures merged { IfOk result (λ p. (L M N : Entries) → Shows self.old L L
            → R.answers region.now ≡ all_answers self.old.selected.family M
            → MergesSlots (prefix_as prefix.now) self.old.selected.direct_bits L M N
            → Shows self.new L (cond (selects p) M N)) }
        ensures changes { IfOk result (λ p. (L M : Entries) → Shows self.old L L
            → R.answers region.now ≡ all_answers self.old.selected.family M
            → AgreeOutside (prefix_as prefix.now) L M → StoresChanges p self.new L M) }
        ensures made { IfOk result (λ p. (L M : Entries) → Shows self.old L L
            → R.answers region.now ≡ all_answers self.old.selected.family M
            → AgreeOutside (prefix_as prefix.now) L M
            → IsMade (until oldest self.old.selected.time) p self.old self.new L M) }
        ensures refused { IfErr result (λ e. (L M : Entries) → Shows self.old L L
            → R.answers region.now ≡ all_answers self.old.selected.family M
            → AgreeOutside (prefix_as prefix.now) L M → IsNotReady oldest e self.old L M) }
        ensures unpinned { OnOk result ((L M : Entries) → Shows self.old L L
            → R.answers region.now ≡ all_answers self.old.selected.family M
            → AgreeOutside (prefix_as prefix.now) L M → IsToWait oldest self.old L M → ⊥) }
        ensures ready { OnOk result ((b : Living)
            × IsGivenBack (until oldest self.old.selected.time) self.old b
            × IsReadyAfter b self.new) }
        ensures back { OnErr result ((b : Living)
            × IsGivenBack (until oldest self.old.selected.time) self.old b
            × IsAsItWas b self.new) }
        ensures undone { OnErr result (IsUndone (until oldest self.old.selected.time) self.old
            self.new) }
        ensures still { OnErr result ((L M : Entries) → Shows self.old L M
            → Shows self.new L M) }
        ensures cells { KeepsAllReached (until oldest self.old.selected.time) self.old self.new }
        ensures fits { (os : List Open) → IsOldest oldest os → Fits self.old os
            → Fits self.new os }
        ensures past { (ns ls : List ℕ) → Past self.old ns ls → Past self.new ns ls }
    {
        // it shows some table
        self.arenas_law();
        self.prepare_within(region, prefix, &Prefix::whole(prefix.family), oldest)
    }

    /// Makes an update ready as `prepare` does, for a new table that gives the addresses outside `within` what they get now. If it
    /// is made beside the old one, it costs the length of the way there and what `within` covers, however few direct bits there
    /// are.
    ///
    /// # Errors
    ///
    /// As `prepare`'s.
    pub fn prepare_within<R: Region>(
        &mut self,
        region: &R,
        prefix: &Prefix,
        within: &Prefix,
        oldest: Oldest,
    ) -> Result<Pending, NotReady>
        requires family { prefix.now.family ≡ self.old.selected.family }
        requires bits { R.bits region.now ≡ width self.old.selected.family }
        requires quiet { is_pending self.old ≡ false }
        requires time { self.old.selected.time < 18446744073709551615 }
        requires within { within.now.family ≡ self.old.selected.family }
        requires outside { (L : Entries) × Shows self.old L L
            × KeepsOutside (prefix_as within.now) L (R.answers region.now) }
        ensures rest { IsAtRest self.old }
        ensures shape { HasShapeOf self.old self.new }
        ensures time { self.new.selected.time ≡ self.old.selected.time }
        ensures token { IfOk result (λ p. IsTokenOf p self.new × (made_of self.new ≡ 0)) }
        ensures quiet { OnErr result (is_pending self.new ≡ false) }
        ensures all { oldest ≡ Oldest.Nobody → NoneRetired self.new }
        ensures out { oldest ≡ Oldest.Nobody → (L M : Entries) → Shows self.new L M
            → OutJust self.new L M }
        ensures shows { OnOk result ((L M : Entries) → Shows self.old L L
            → R.answers region.now ≡ all_answers self.old.selected.family M
            → AgreeOutside (prefix_as prefix.now) L M → Shows self.new L M) }
        ensures merged { IfOk result (λ p. (L M N : Entries) → Shows self.old L L
            → R.answers region.now ≡ all_answers self.old.selected.family M
            → MergesSlots (prefix_as prefix.now) self.old.selected.direct_bits L M N
            → Shows self.new L (cond (selects p) M N)) }
        ensures changes { IfOk result (λ p. (L M : Entries) → Shows self.old L L
            → R.answers region.now ≡ all_answers self.old.selected.family M
            → AgreeOutside (prefix_as prefix.now) L M → StoresChanges p self.new L M) }
        ensures made { IfOk result (λ p. (L M : Entries) → Shows self.old L L
            → R.answers region.now ≡ all_answers self.old.selected.family M
            → AgreeOutside (prefix_as prefix.now) L M
            → IsMade (until oldest self.old.selected.time) p self.old self.new L M) }
        ensures refused { IfErr result (λ e. (L M : Entries) → Shows self.old L L
            → R.answers region.now ≡ all_answers self.old.selected.family M
            → AgreeOutside (prefix_as prefix.now) L M → IsNotReady oldest e self.old L M) }
        ensures unpinned { OnOk result ((L M : Entries) → Shows self.old L L
            → R.answers region.now ≡ all_answers self.old.selected.family M
            → AgreeOutside (prefix_as prefix.now) L M → IsToWait oldest self.old L M → ⊥) }
        ensures ready { OnOk result ((b : Living)
            × IsGivenBack (until oldest self.old.selected.time) self.old b
            × IsReadyAfter b self.new) }
        ensures back { OnErr result ((b : Living)
            × IsGivenBack (until oldest self.old.selected.time) self.old b
            × IsAsItWas b self.new) }
        ensures undone { OnErr result (IsUndone (until oldest self.old.selected.time) self.old
            self.new) }
        ensures still { OnErr result ((L M : Entries) → Shows self.old L M
            → Shows self.new L M) }
        ensures cells { KeepsAllReached (until oldest self.old.selected.time) self.old self.new }
        ensures fits { (os : List Open) → IsOldest oldest os → Fits self.old os
            → Fits self.new os }
        ensures past { (ns ls : List ℕ) → Past self.old ns ls → Past self.new ns ls }
    {
        self.give_back(oldest);
        self.make_ready(region, prefix, within, oldest)
    }

    /// Makes an update ready as `prepare_within` does, once what no lookup may be in was given back.
    ///
    /// # Errors
    ///
    /// As `prepare`'s. All is as it was.
    fn make_ready<R: Region>(
        &mut self,
        region: &R,
        prefix: &Prefix,
        within: &Prefix,
        oldest: Oldest,
    ) -> Result<Pending, NotReady>
        requires family { prefix.now.family ≡ self.old.selected.family }
        requires bits { R.bits region.now ≡ width self.old.selected.family }
        requires quiet { is_pending self.old ≡ false }
        requires time { self.old.selected.time < 18446744073709551615 }
        requires within { within.now.family ≡ self.old.selected.family }
        requires outside { (L : Entries) × Shows self.old L L
            × KeepsOutside (prefix_as within.now) L (R.answers region.now) }
        requires all { oldest ≡ Oldest.Nobody → NoneRetired self.old }
        ensures pair { IsSetPair self.new.selected self.new.other self.new.state self.new.number }
        ensures shape { HasShapeOf self.old self.new }
        ensures time { self.new.selected.time ≡ self.old.selected.time }
        ensures retired { (self.new.selected.nodes.retired ≡ self.old.selected.nodes.retired)
            × (self.new.selected.leaves.retired ≡ self.old.selected.leaves.retired) }
        ensures token { IfOk result (λ p. IsTokenOf p self.new × (made_of self.new ≡ 0)) }
        ensures quiet { OnErr result (is_pending self.new ≡ false) }
        ensures all { oldest ≡ Oldest.Nobody → NoneRetired self.new }
        ensures shows { OnOk result ((L M : Entries) → Shows self.old L L
            → R.answers region.now ≡ all_answers self.old.selected.family M
            → AgreeOutside (prefix_as prefix.now) L M → Shows self.new L M) }
        ensures merged { IfOk result (λ p. (L M N : Entries) → Shows self.old L L
            → R.answers region.now ≡ all_answers self.old.selected.family M
            → MergesSlots (prefix_as prefix.now) self.old.selected.direct_bits L M N
            → Shows self.new L (cond (selects p) M N)) }
        ensures changes { IfOk result (λ p. (L M : Entries) → Shows self.old L L
            → R.answers region.now ≡ all_answers self.old.selected.family M
            → AgreeOutside (prefix_as prefix.now) L M → StoresChanges p self.new L M) }
        ensures made { IfOk result (λ p. (L M : Entries) → Shows self.old L L
            → R.answers region.now ≡ all_answers self.old.selected.family M
            → AgreeOutside (prefix_as prefix.now) L M
            → IsBeside p.stores self.old self.new L M) }
        ensures refused { IfErr result (λ e. (L M : Entries) → Shows self.old L L
            → R.answers region.now ≡ all_answers self.old.selected.family M
            → AgreeOutside (prefix_as prefix.now) L M → IsNotBeside oldest e self.old L M) }
        ensures ready { OnOk result (IsReadyAfter self.old self.new) }
        ensures back { OnErr result (IsAsItWas self.old self.new) }
        ensures undone { OnErr result ((self.new.state ≡ self.old.state)
            × (self.new.selected.words ≡ self.old.selected.words)
            × (self.new.selected.nodes.space.free ≡ self.old.selected.nodes.space.free)
            × (self.new.selected.leaves.space.free ≡ self.old.selected.leaves.space.free)) }
        ensures still { OnErr result ((L M : Entries) → Shows self.old L M
            → Shows self.new L M) }
        ensures cells { KeepsAllReached 0 self.old self.new }
        ensures fits { (os : List Open) → Fits self.old os → Fits self.new os }
    {
        match self.selected.prepare_within(region, prefix, within) {
            Ok(words) => Ok(Pending {
                stores: Stores::Words(words),
            }),
            Err(why) => self.rebuild(region, oldest, why),
        }
    }

    /// Builds the new table's trie in the other set if that is free, as it fits, but not beside what is in use in the selected
    /// one.
    ///
    /// # Errors
    ///
    /// It doesn't fit, or the oldest lookup may be in the other set.
    fn rebuild<R: Region>(
        &mut self,
        region: &R,
        oldest: Oldest,
        why: NotBeside,
    ) -> Result<Pending, NotReady>
        requires bits { R.bits region.now ≡ width self.old.selected.family }
        requires quiet { is_pending self.old ≡ false }
        requires all { oldest ≡ Oldest.Nobody → NoneRetired self.old }
        ensures pair { IsSetPair self.new.selected self.new.other self.new.state self.new.number }
        ensures selected { self.new.selected ≡ self.old.selected }
        ensures token { IfOk result (λ p. p.stores ≡ stores.Selector false) }
        ensures free { OnOk result (IsFree self.old × (self.new.state ≡ other.Built)) }
        ensures built { OnOk result ((L : Entries)
            → R.answers region.now ≡ all_answers self.old.selected.family L
            → ShowsIn self.new.other L L) }
        ensures short { OnOk result ((L M : Entries) → AsksRunOut self.old.selected L M why
            → IsShort self.old.selected L M) }
        ensures refused { IfErr result (λ e. (L M : Entries)
            → R.answers region.now ≡ all_answers self.old.selected.family M
            → AsksRunOut self.old.selected L M why → IsNotBeside oldest e self.old L M) }
        ensures still { OnErr result (self.new.state ≡ self.old.state) }
        ensures number { self.new.number ≡ self.old.number }
        ensures other { OnErr result (IsSameOther self.old.state self.old.other self.new.other) }
        ensures cells { KeepsAllReached 0 self.old self.new }
        ensures fits { (os : List Open) → Fits self.old os → Fits self.new os }
    {
        let state = self.state;
        let (arena, refused) = match why {
            NotBeside::Memory => return Err(NotReady::Memory),
            NotBeside::TooMuch(full) => return Err(NotReady::TooMuch(full)),
            NotBeside::NodesOut(full) => (0, full),
            NotBeside::LeavesOut(full) => (1, full),
        };
        if let (Other::Retired { end }, Oldest::Started { cursor, since }) = (state, oldest) {
            return Err(NotReady::Pinned {
                need: places(refused.order),
                cursor,
                arena,
                largest: refused.largest,
            });
        }
        match self.other.fill(region) {
            Ok(()) => {
                self.state = Other::Built;
                Ok(Pending {
                    stores: Stores::Selector { stored: false },
                })
            }
            Err(full) => Err(NotReady::TooMuch(full)),
        }
    }

    /// The first read of a lookup: the selector, and the direct word of its address.
    pub fn first(&self, addr: &Addr) -> At
        requires family { addr.now.family ≡ self.now.selected.family }
        ensures { (L M : Entries) → Shows self.now L M
            → Starts result self.now (published_entries self.now L M addr.now) addr.now }
    {
        in_set(self.selected.first(addr), self.number)
    }

    /// Each further read: visits one node of the set of this number.
    pub fn next(&self, set: u8, node: u32, stride: u8, addr: &Addr) -> At
        requires stride { self.now.selected.direct_bits + 6 * stride < 128 }
        requires can { CanRead (numbered_set self.now set).nodes.space.cells
            (numbered_set self.now set).leaves.space.cells node
            (bits_after self.now.selected.direct_bits stride addr.now) }
        ensures { (left h : ℕ) (N L : ℕ → Bool)
            → ReadsOn left (numbered_set self.now set).nodes.space.cells N
            (numbered_set self.now set).leaves.space.cells L node
            (bits_after self.now.selected.direct_bits stride addr.now) h
            → Leads result left set (numbered_set self.now set).nodes.space.cells N
            (numbered_set self.now set).leaves.space.cells L self.now.selected.direct_bits stride
            addr.now h }
    {
        let read = if set == self.number {
            self.selected.next(node, stride, addr)
        } else {
            self.other.next(node, stride, addr)
        };
        in_set(read, set)
    }

    /// The answer that is published to an address, with a step for each node that is visited: all the reads of a lookup without a
    /// pause.
    pub fn lookup<L: Ledger>(&self, addr: &Addr, steps: &mut Steps<L>) -> Found
        requires family { addr.now.family ≡ self.now.selected.family }
        ensures hop { (E F : Entries) → Shows self.now E F
            → result.hop.0 ≡ match_in (published_entries self.now E F addr.now) (addr_as addr.now) }
        ensures visits { (E F : Entries) → Shows self.now E F → result.visits
            ≡ visits_of self.now.selected.direct_bits (published_entries self.now E F addr.now)
            (addr_as addr.now) }
        ensures steps { steps.new ≡ steps.old + result.visits }
    {
        self.selected.lookup(addr, steps)
    }

    /// What the trie of the present version needs: of the table before the pending update, or of the one after it once the selector
    /// is stored. Both numbers are kept, and not counted anew.
    pub fn needs(&self) -> Needs
        ensures { (L M : Entries) → Shows self.now L M
            → AreNeedsOf result self.now.selected (present_by self.now.state L M) }
    {
        self.selected.needs()
    }

    /// The number of ends so far.
    pub fn time(&self) -> u64
        ensures { result ≡ self.now.selected.time }
    {
        self.selected.time()
    }

    /// Whether an update is pending.
    pub fn is_pending(&self) -> bool
        ensures { result ≡ is_pending self.now }
    {
        match self.state {
            Other::Free => self.selected.is_pending(),
            Other::Retired { end } => self.selected.is_pending(),
            Other::Built => true,
            Other::Replaced => true,
        }
    }

    /// What its blocks are. It does nothing: its clause holds at every moment.
    pub fn arenas_law(&self)
        ensures { KeepsBothSets self.now }
    {
        self.selected.arenas_law();
        self.other.arenas_law();
    }

    /// Makes the next store of the pending update; false if none is left.
    pub fn store(&mut self, pending: &mut Pending) -> bool
        requires { IsTokenOf pending.old self.old }
        ensures token { IsTokenOf pending.new self.new }
        ensures made { result ≡ true → (0 < stores_left self.old)
            × (suc (stores_left self.new) ≡ stores_left self.old)
            × (made_of self.new ≡ suc (made_of self.old)) }
        ensures none { result ≡ false → (stores_left self.old ≡ 0) × (self.new ≡ self.old) }
        ensures kept { KeepsStores self.old self.new }
        ensures shape { HasShapeOf self.old self.new }
        ensures time { self.new.selected.time ≡ self.old.selected.time }
        ensures shows { (L M : Entries) → Shows self.old L M → Shows self.new L M }
        ensures cells { KeepsAllReached 0 self.old self.new }
        ensures fits { (os : List Open) → Fits self.old os → Fits self.new os }
        ensures past { (ns ls : List ℕ) → Past self.old ns ls → Past self.new ns ls }
    {
        match &mut pending.stores {
            Stores::Words(words) => self.selected.store(words),
            Stores::Selector { stored } => {
                if *stored {
                    return false;
                }
                mem::swap(&mut self.selected, &mut self.other);
                self.number = 1 - self.number;
                self.state = Other::Replaced;
                *stored = true;
                true
            }
        }
    }

    /// The pending update is over: what it replaced is retired, and time goes on.
    ///
    /// # Errors
    ///
    /// Stores are left: the token is returned, and nothing has changed.
    pub fn end(&mut self, pending: Pending) -> Result<(), Pending>
        requires token { IsTokenOf pending self.old }
        requires time { self.old.selected.time < 18446744073709551615 }
        ensures left { IfErr result (λ p. (p ≡ pending) × (self.new ≡ self.old)
            × (0 < stores_left self.old)) }
        ensures all { OnOk result (stores_left self.old ≡ 0) }
        ensures quiet { OnOk result (is_pending self.new ≡ false) }
        ensures time { OnOk result (self.new.selected.time ≡ suc self.old.selected.time) }
        ensures other { OnOk result (self.new.state
            ≡ retired_at_end (suc self.old.selected.time) self.old.state) }
        ensures shape { HasShapeOf self.old self.new }
        ensures shows { OnOk result ((L M : Entries) → Shows self.old L M → Shows self.new M M) }
        ensures cells { OnOk result (KeepsAllReached 0 self.old self.new) }
        ensures fits { OnOk result ((os : List Open) → Fits self.old os → Fits self.new os) }
        ensures past { OnOk result ((L M : Entries) (ns ls : List ℕ) → Shows self.old L M
            → Past self.old ns ls
            → Past self.new
            (ns ++ node_need self.old.selected.family self.old.selected.direct_bits L ∷ [])
            (ls ++ leaf_need self.old.selected.family self.old.selected.direct_bits L ∷ [])) }
    {
        let Pending { stores } = pending;
        match stores {
            Stores::Words(words) => match self.selected.end(words) {
                Ok(()) => {
                    self.other.tick();
                    Ok(())
                }
                Err(words) => Err(Pending {
                    stores: Stores::Words(words),
                }),
            },
            Stores::Selector { stored } => {
                if !stored {
                    return Err(Pending {
                        stores: Stores::Selector { stored },
                    });
                }
                self.selected.tick();
                self.other.tick();
                self.state = Other::Retired {
                    end: self.selected.time(),
                };
                Ok(())
            }
        }
    }

    /// The pending update is forgotten: what it took is given back.
    ///
    /// # Errors
    ///
    /// A store was made: the token is returned, and nothing has changed.
    pub fn cancel(&mut self, pending: Pending) -> Result<(), Pending>
        requires { IsTokenOf pending self.old }
        ensures made { IfErr result (λ p. (p ≡ pending) × (self.new ≡ self.old)
            × (0 < made_of self.old)) }
        ensures none { OnOk result (made_of self.old ≡ 0) }
        ensures quiet { OnOk result (is_pending self.new ≡ false) }
        ensures time { self.new.selected.time ≡ self.old.selected.time }
        ensures shape { HasShapeOf self.old self.new }
        ensures undone { OnOk result (IsCancelled self.old self.new) }
        ensures before { OnOk result ((b : Living) → IsReadyAfter b self.old
            → IsAsItWas b self.new) }
        ensures shows { OnOk result ((L M : Entries) → Shows self.old L M → Shows self.new L L) }
        ensures cells { OnOk result (KeepsAllReached 0 self.old self.new) }
        ensures fits { OnOk result ((os : List Open) → Fits self.old os → Fits self.new os) }
        ensures past { (ns ls : List ℕ) → Past self.old ns ls → Past self.new ns ls }
    {
        let Pending { stores } = pending;
        match stores {
            Stores::Words(words) => match self.selected.cancel(words) {
                Ok(()) => Ok(()),
                Err(words) => Err(Pending {
                    stores: Stores::Words(words),
                }),
            },
            Stores::Selector { stored } => {
                if stored {
                    return Err(Pending {
                        stores: Stores::Selector { stored },
                    });
                }
                self.other.clear();
                self.state = Other::Free;
                Ok(())
            }
        }
    }
}
