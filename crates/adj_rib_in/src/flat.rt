//! The flat base: what comes in the order of prefixes, in runs of slots.

ghost use Rattle.std.specs.Prelude.{◌||◌, ◌≡◌, ◌≢◌, ◌≤◌, ◌<◌, ◌+◌, ◌-◌, ◌^◌, ℕ, [], suc, true, false, None, Some, MatchOption, MatchBool, IfOk, OnOk, OnErr, IfSome, IfNone, length, option_map, slice_get, slice_set, slice_index_or, ◌++◌, ◌∷◌};
ghost use Rattle.std.specs.declared.cmp.Ordering.TheVariants.{Less, Equal};
ghost use Rattle.std.specs.Map.{lookup};
ghost use Rattle.std.specs.BTreeMap.{is_at};
ghost use Rattle.std.specs.Ordering.{is_lt};
ghost use Rattle.fib_prefix.specs.Order.{code_via_cmp};
ghost use Rattle.fib_prefix.specs.declared.event.Via as code;
ghost use Rattle.adj_rib_in.specs.Orders.{key_cmp};
ghost use Rattle.adj_rib_in.specs.Paths.{Paths};
ghost use Rattle.adj_rib_in.specs.Chains.{no_peer, chain_end};
ghost use Rattle.adj_rib_in.specs.Flat.{IsFlat, IsRowPlace, HasNoRow, IsSlot, HasNoSlot, HasNoKey, IsPeerNumber, HasNoNumber, HasNumbers, KeepsNumbers, IsSlotRun, IsInRun, IsBehind, IsLastRow, IsNextSlot, IsKeyAt, IsHopNumber, HasHop, Puts, AreNumbers, ShareNoKey, Offers, Thins, NoKeyComes, IsLastFree, Grows, IsSlotOf, live_on, is_key, is_among, is_offered_by, with_attrs, emptied, attrs_by, paths_on, no_slot, flat_paths, attrs_on, via_on, no_hop, paths_over};
ghost use Rattle.adj_rib_in.specs.Bests.{IsBestHeld, IsOffered, is_excluded, candidate_on, comes_before, better_on, best_step, better_one as better};
ghost use Rattle.adj_rib_in.specs.Ways.{AddsWays, way_attrs, way_put, way_step};

use crate::keys::{Candidate, PathAttrs, PathKey};
use crate::row_table::RowTable;
use crate::rows::Row;
use crate::slot::{NO_PEER, PathSlot};
use crate::ways::ViaAttrs;
use fib_prefix::{Addr, Peer, Prefix, Via};
use indexmap::IndexSet;
use std::alloc::{AllocError, Global};
use std::cmp::Ordering;
use std::collections::BTreeSet;

/// The hop number of a slot that offers nothing.
const NO_HOP: u32 = u32::MAX;

/// The most rows, and the most slots: their numbers and their places, and one more than these, have 32 bits.
const MOST: usize = u32::MAX as usize;

/// The most slots of a row.
const RUN: usize = 64;

/// Slots in runs, one run a row, and in chains, one chain a peer, with what their numbers stand for.
#[derive(Drop)]
pub struct Flat {
    rows: RowTable,
    peers: IndexSet<Peer>,
    hops: IndexSet<Addr>,
    // by the peer's number, where its chain begins: 1 more than the place of its last slot, or 0
    ends: Vec<u32>,
}

/// A run: where it begins and where it ends.
#[derive(Clone, Copy)]
pub struct Run {
    pub from: usize,
    pub to: usize,
}

impl Flat {
    /// No slots.
    pub fn new(alloc: Global) -> Flat
        ensures flat { IsFlat result }
        ensures paths { flat_paths result ≡ [] }
    {
        Flat {
            rows: RowTable::new(alloc),
            peers: IndexSet::new(alloc),
            hops: IndexSet::new(alloc),
            ends: Vec::new(alloc),
        }
    }

    /// How the last row stands to a prefix; `Less` if there is none.
    fn order_last(&self, prefix: &Prefix) -> Ordering
        requires { IsFlat self.now }
        ensures less { result ≡ Less → IsBehind self.now.rows.items prefix.now }
        ensures equal { result ≡ Equal → IsLastRow self.now.rows.items prefix.now (length self.now.rows.items - 1) }
    {
        match self.rows.last() {
            Some(last) => last.prefix().cmp(prefix),
            None => Ordering::Less,
        }
    }

    /// The number of a prefix's row.
    pub fn row_of(&self, prefix: &Prefix) -> Option<usize>
        requires { IsFlat self.now }
        ensures { MatchOption result (HasNoRow self.now.rows.items prefix.now) (IsRowPlace self.now.rows.items prefix.now) }
    {
        match self.order_last(prefix) {
            Ordering::Less => None,
            Ordering::Equal => Some(self.rows.len().saturating_sub(1)),
            Ordering::Greater => self.rows.find(prefix),
        }
    }

    /// The run of a row.
    fn run_of(&self, row: usize) -> Run
        ensures { IsSlotRun self.now.rows.items row (length self.now.rows.slots) result.from result.to }
    {
        let end = self.rows.slot_count();
        Run {
            from: self.rows.off_at(row, end),
            to: self.rows.off_behind(row, end),
        }
    }

    /// The place of the slot of a peer and a path identifier in a row.
    fn slot_of(&self, row: usize, peer: usize, id: u32) -> Option<usize>
        requires { IsFlat self.now }
        ensures { MatchOption result (HasNoSlot self.now.rows.slots row peer id)
            (IsSlot self.now.rows.slots row peer id) }
    {
        let run = self.run_of(row);
        for i in run.from..run.to {
            if let Some(slot) = self.rows.slot_in(row, i) {
                if slot.peer as usize == peer && slot.id == id {
                    return Some(i);
                }
            }
        }
        None
    }

    /// A peer's number.
    fn number_of(&self, peer: &Peer) -> Option<usize>
        ensures { MatchOption result (HasNoNumber self.now.peers.keys peer.now)
            (IsPeerNumber self.now.peers.keys peer.now) }
    {
        match self.number_near(peer) {
            Some(number) => Some(number as usize),
            None => self.peers.get_index_of(peer),
        }
    }

    /// A peer's number, if its slot follows as it did in the row before: a guess that is tested, in place of a lookup.
    fn number_near(&self, peer: &Peer) -> Option<u32>
        ensures { IfSome result (IsPeerNumber self.now.peers.keys peer.now) }
    {
        let at = self.rows.slot_count().checked_sub(1)?;
        let last = self.rows.bare_at(at)?;
        let next = self.rows.bare_at(last.link as usize)?;
        let number = next.peer;
        let near = self.peers.get_index(number as usize)?;
        if *near != *peer {
            return None;
        }
        Some(number)
    }

    /// A hop's number, if it is that of the peer's last slot: a guess that is tested, in place of a lookup.
    fn hop_near(&self, peer: u32, hop: &Addr) -> Option<u32>
        ensures { IfSome result (λ n. slice_get self.now.hops.keys n ≡ Some hop.now) }
    {
        let at = (self.end_of(peer as usize) as usize).checked_sub(1)?;
        let slot = self.rows.bare_at(at)?;
        let number = slot.hop;
        let near = self.hops.get_index(number as usize)?;
        if *near != *hop {
            return None;
        }
        Some(number)
    }

    /// The place of a path key's slot.
    pub fn find(&self, key: &PathKey) -> Option<usize>
        requires { IsFlat self.now }
        ensures { MatchOption result (HasNoKey self.now key.now) (IsSlotOf self.now key.now) }
    {
        let row = self.row_of(&key.prefix())?;
        self.find_in(row, key)
    }

    /// The place of a path key's slot in the row of its prefix.
    pub fn find_in(&self, row: usize, key: &PathKey) -> Option<usize>
        requires flat { IsFlat self.now }
        requires row { IsRowPlace self.now.rows.items key.now.prefix row }
        ensures { MatchOption result (HasNoKey self.now key.now) (IsSlotOf self.now key.now) }
    {
        let peer = self.number_of(&key.peer())?;
        self.slot_of(row, peer, key.id())
    }

    /// What a slot offers.
    pub fn attrs(&self, slot: &PathSlot) -> Option<PathAttrs>
        ensures { result ≡ attrs_on self.now.hops.keys slot.now }
    {
        self.attrs_by(slot.path, slot.hop)
    }

    /// What a path and a hop's number offer.
    fn attrs_by(&self, path: u32, hop: u32) -> Option<PathAttrs>
        ensures { result ≡ attrs_by self.now.hops.keys path hop }
    {
        let hop = self.hops.get_index(hop as usize)?;
        Some(PathAttrs::new(path, hop))
    }

    /// What is offered at the place of a slot.
    pub fn attrs_at(&self, at: usize, key: &PathKey) -> Option<PathAttrs>
        requires flat { IsFlat self.now }
        requires slot { IsSlotOf self.now key.now at }
        ensures { lookup (is_at (key_cmp key.now)) (flat_paths self.now) ≡ Some result }
    {
        match self.rows.bare_at(at) {
            Some(slot) => self.attrs_by(slot.path, slot.hop),
            None => None,
        }
    }

    /// A hop's number, which it gets if it has none.
    pub fn number_hop(&mut self, hop: &Addr) -> Result<u32, AllocError>
        ensures hop { IfOk result (λ n. slice_get self.new.hops.keys n ≡ Some hop.now) }
        ensures grown { KeepsNumbers self.old.hops.keys self.new.hops.keys }
        ensures few { length self.old.hops.keys ≤ no_hop → length self.new.hops.keys ≤ no_hop }
        ensures flat { IsFlat self.old → IsFlat self.new }
        ensures paths { IsFlat self.old → flat_paths self.new ≡ flat_paths self.old }
        ensures rows { self.new.rows.items ≡ self.old.rows.items }
        ensures slots { self.new.rows.slots ≡ self.old.rows.slots }
        ensures peers { self.new.peers.keys ≡ self.old.peers.keys }
        ensures ends { self.new.ends.items ≡ self.old.ends.items }
        ensures grows { Grows self.old self.new }
    {
        if self.hops.len() >= NO_HOP as usize {
            return Err(AllocError);
        }
        let (at, _) = self.hops.insert_full(*hop)?;
        Ok(at as u32)
    }

    /// The number of a hop that a peer's route has, which it gets if it has none.
    fn number_hop_of(&mut self, peer: u32, hop: &Addr) -> Result<u32, AllocError>
        ensures hop { IfOk result (λ n. slice_get self.new.hops.keys n ≡ Some hop.now) }
        ensures grown { KeepsNumbers self.old.hops.keys self.new.hops.keys }
        ensures few { length self.old.hops.keys ≤ no_hop → length self.new.hops.keys ≤ no_hop }
        ensures flat { IsFlat self.old → IsFlat self.new }
        ensures paths { IsFlat self.old → flat_paths self.new ≡ flat_paths self.old }
        ensures rows { self.new.rows.items ≡ self.old.rows.items }
        ensures slots { self.new.rows.slots ≡ self.old.rows.slots }
        ensures peers { self.new.peers.keys ≡ self.old.peers.keys }
        ensures ends { self.new.ends.items ≡ self.old.ends.items }
        ensures grows { Grows self.old self.new }
    {
        if let Some(number) = self.hop_near(peer, hop) {
            return Ok(number);
        }
        let number = self.number_hop(hop)?;
        Ok(number)
    }

    /// A peer's number, which it gets if it has none.
    fn number_peer(&mut self, peer: &Peer) -> Result<u32, AllocError>
        requires flat { IsFlat self.old }
        requires few { length self.old.peers.keys < no_peer }
        ensures peer { IfOk result (IsPeerNumber self.new.peers.keys peer.now) }
        ensures flat { IsFlat self.new }
        ensures paths { flat_paths self.new ≡ flat_paths self.old }
        ensures rows { self.new.rows.items ≡ self.old.rows.items }
        ensures slots { self.new.rows.slots ≡ self.old.rows.slots }
        ensures hops { self.new.hops.keys ≡ self.old.hops.keys }
        ensures grows { Grows self.old self.new }
    {
        if let Some(number) = self.number_near(peer) {
            return Ok(number);
        }
        self.add_end()?;
        let (at, _) = self.peers.insert_full(*peer)?;
        Ok(at as u32)
    }

    /// Makes room for one more peer's chain.
    fn add_end(&mut self) -> Result<(), AllocError>
        requires { IsFlat self.old }
        ensures room { OnOk result (length self.new.peers.keys < length self.new.ends.items) }
        ensures flat { IsFlat self.new }
        ensures rows { self.new.rows.items ≡ self.old.rows.items }
        ensures slots { self.new.rows.slots ≡ self.old.rows.slots }
        ensures peers { self.new.peers.keys ≡ self.old.peers.keys }
        ensures hops { self.new.hops.keys ≡ self.old.hops.keys }
    {
        if self.ends.len() <= self.peers.len() {
            self.ends.push(0)?;
        }
        Ok(())
    }

    /// A hop's number, if it has one.
    fn hop_number(&self, hop: &Addr) -> Option<u32>
        requires { length self.now.hops.keys ≤ no_hop }
        ensures number { IfSome result (λ n. slice_get self.now.hops.keys n ≡ Some hop.now) }
        ensures none { IfNone result (HasHop self.now.hops.keys hop.now → ⊥) }
    {
        let at = self.hops.get_index_of(hop)?;
        Some(at as u32)
    }

    /// Sets what is offered at the place of a slot: a path and a hop's number.
    fn set(&mut self, at: usize, path: u32, hop: u32)
        requires { at < length self.old.rows.slots }
        ensures slots { self.new.rows.slots ≡ slice_set self.old.rows.slots at
            (with_attrs path hop (slice_index_or self.old.rows.slots at no_slot)) }
        ensures rows { self.new.rows.items ≡ self.old.rows.items }
        ensures peers { self.new.peers.keys ≡ self.old.peers.keys }
        ensures hops { self.new.hops.keys ≡ self.old.hops.keys }
        ensures ends { self.new.ends.items ≡ self.old.ends.items }
    {
        self.rows.set(at, path, hop);
    }

    /// Begins the row of a prefix after all others.
    fn push_row(&mut self, prefix: &Prefix) -> Result<u32, AllocError>
        requires flat { IsFlat self.old }
        requires behind { IsBehind self.old.rows.items prefix.now }
        requires numbers { HasNumbers self.old }
        ensures row { IfOk result (IsLastRow self.new.rows.items prefix.now) }
        ensures flat { IsFlat self.new }
        ensures paths { flat_paths self.new ≡ flat_paths self.old }
        ensures slots { self.new.rows.slots ≡ self.old.rows.slots }
        ensures peers { self.new.peers.keys ≡ self.old.peers.keys }
        ensures hops { self.new.hops.keys ≡ self.old.hops.keys }
        ensures ends { self.new.ends.items ≡ self.old.ends.items }
        ensures grows { Grows self.old self.new }
    {
        let row = self.rows.len() as u32;
        let off = self.rows.slot_count() as u32;
        self.rows.push(Row::new(prefix, off))?;
        Ok(row)
    }

    /// Puts a slot after all others.
    fn push_slot(&mut self, slot: PathSlot) -> Result<(), AllocError>
        requires flat { IsFlat self.old }
        requires next { IsNextSlot self.old slot }
        requires few { length self.old.rows.slots < 2 ^ 32 - 1 }
        ensures flat { IsFlat self.new }
        ensures ok { OnOk result (flat_paths self.new ≡ flat_paths self.old
            ++ paths_on self.old.rows.items self.old.peers.keys self.old.hops.keys (slot ∷ [])) }
        ensures err { OnErr result (flat_paths self.new ≡ flat_paths self.old) }
        ensures grows { Grows self.old self.new }
    {
        let end = self.rows.slot_count() as u32 + 1;
        self.rows.push_slot(&slot)?;
        self.ends[slot.peer as usize] = end;
        Ok(())
    }

    /// Where the chain of a peer's number begins: 1 more than the place of its last slot, or 0.
    fn end_of(&self, peer: usize) -> u32
        ensures { result ≡ chain_end self.now.ends.items peer }
    {
        match self.ends.get(peer) {
            Some(end) => *end,
            None => 0,
        }
    }

    /// Puts a route after all others, in the last row, by the numbers of its row and its peer.
    fn push_route(
        &mut self,
        row: u32,
        peer: u32,
        id: u32,
        path: u32,
        hop: &Addr,
    ) -> Result<(), AllocError>
        requires flat { IsFlat self.old }
        requires key { (q : PathKey) × IsKeyAt self.old q row peer id }
        requires slots { length self.old.rows.slots < 2 ^ 32 - 1 }
        ensures flat { IsFlat self.new }
        ensures ok { OnOk result ((q : PathKey) → IsKeyAt self.old q row peer id
            → Puts (flat_paths self.old) (flat_paths self.new) q (Some (record { path = path; hop = hop.now }))) }
        ensures err { OnErr result (flat_paths self.new ≡ flat_paths self.old) }
        ensures grows { Grows self.old self.new }
    {
        let hop = self.number_hop_of(peer, hop)?;
        let link = self.end_of(peer as usize);
        self.push_slot(PathSlot {
            path,
            peer,
            id,
            hop,
            row,
            link,
        })?;
        Ok(())
    }

    /// The last row's number, if it is this prefix's and its run isn't long, or that of a new row after it.
    fn row_behind(&mut self, prefix: &Prefix) -> Result<Option<u32>, AllocError>
        requires flat { IsFlat self.old }
        requires numbers { HasNumbers self.old }
        ensures row { IfOk result (λ row. IfSome row (IsLastRow self.new.rows.items prefix.now)) }
        ensures flat { IsFlat self.new }
        ensures paths { flat_paths self.new ≡ flat_paths self.old }
        ensures slots { self.new.rows.slots ≡ self.old.rows.slots }
        ensures peers { self.new.peers.keys ≡ self.old.peers.keys }
        ensures grows { Grows self.old self.new }
    {
        match self.order_last(prefix) {
            Ordering::Less => Ok(Some(self.push_row(prefix)?)),
            Ordering::Equal => Ok(self.open_row(prefix)),
            Ordering::Greater => Ok(None),
        }
    }

    /// The last row's number, if its run isn't long.
    fn open_row(&self, prefix: &Prefix) -> Option<u32>
        requires { IsLastRow self.now.rows.items prefix.now (length self.now.rows.items - 1) }
        ensures { IfSome result (IsLastRow self.now.rows.items prefix.now) }
    {
        let last = self.rows.last()?;
        if self.rows.slot_count().saturating_sub(last.off() as usize) >= RUN {
            return None;
        }
        let row = u32::try_from(self.rows.len().saturating_sub(1)).ok()?;
        Some(row)
    }

    /// Whether there are numbers for a row, a slot, a peer and a hop more.
    fn has_numbers(&self) -> bool
        ensures { result ≡ true → HasNumbers self.now }
    {
        self.rows.len() < MOST
            && self.rows.slot_count() < MOST
            && self.peers.len() < NO_PEER as usize
            && self.hops.len() < NO_HOP as usize
    }

    /// Puts a route after all others, if its place is there, its path source has no slot for the prefix yet, and numbers are
    /// left; and returns whether it did. A dump's routes come so, one after the other: it compares the last row's prefix once,
    /// and neither makes a path key nor searches.
    ///
    /// # Errors
    ///
    /// Out of memory; then nothing is offered that wasn't before.
    pub fn put_behind(
        &mut self,
        via: &Via,
        prefix: &Prefix,
        path: u32,
        hop: &Addr,
    ) -> Result<bool, AllocError>
        requires { IsFlat self.old }
        ensures flat { IsFlat self.new }
        ensures yes { IfOk result (λ b. b ≡ true → Puts (flat_paths self.old) (flat_paths self.new)
            (record { via = via.now; prefix = prefix.now }) (Some (record { path = path; hop = hop.now }))) }
        ensures no { IfOk result (λ b. b ≡ false → flat_paths self.new ≡ flat_paths self.old) }
        ensures err { OnErr result (flat_paths self.new ≡ flat_paths self.old) }
        ensures grows { Grows self.old self.new }
    {
        if !self.has_numbers() {
            return Ok(false);
        }
        match self.row_behind(prefix)? {
            Some(row) => {
                let put = self.put_last(row, via, path, hop)?;
                Ok(put)
            }
            None => Ok(false),
        }
    }

    /// Puts a route after all others, in the last row, if its path source has no slot there yet; and returns whether it did.
    fn put_last(&mut self, row: u32, via: &Via, path: u32, hop: &Addr) -> Result<bool, AllocError>
        requires flat { IsFlat self.old }
        requires row { (p : Prefix) × IsLastRow self.old.rows.items p row }
        requires peers { length self.old.peers.keys < no_peer }
        requires slots { length self.old.rows.slots < 2 ^ 32 - 1 }
        ensures flat { IsFlat self.new }
        ensures yes { IfOk result (λ b. b ≡ true → (p : Prefix) → IsLastRow self.old.rows.items p row
            → Puts (flat_paths self.old) (flat_paths self.new) (record { via = via.now; prefix = p })
            (Some (record { path = path; hop = hop.now }))) }
        ensures no { IfOk result (λ b. b ≡ false → flat_paths self.new ≡ flat_paths self.old) }
        ensures err { OnErr result (flat_paths self.new ≡ flat_paths self.old) }
        ensures grows { Grows self.old self.new }
    {
        let peer = self.number_peer(&via.peer)?;
        if self.slot_of(row as usize, peer as usize, via.id).is_some() {
            return Ok(false);
        }
        self.push_route(row, peer, via.id, path, hop)?;
        Ok(true)
    }

    /// Sets what is offered at a path key, by the place of its slot: a path and a hop's number, or none.
    fn put_at(&mut self, at: usize, key: &PathKey, path: u32, hop: u32)
        requires flat { IsFlat self.old }
        requires slot { IsSlotOf self.old key.now at }
        requires hop { IsHopNumber self.old.hops.keys hop }
        ensures flat { IsFlat self.new }
        ensures puts { Puts (flat_paths self.old) (flat_paths self.new) key.now (attrs_by self.old.hops.keys path hop) }
    {
        self.set(at, path, hop);
    }

    /// Ends what is offered at a path key, by the place of its slot.
    pub fn cut_at(&mut self, at: usize, key: &PathKey)
        requires flat { IsFlat self.old }
        requires slot { IsSlotOf self.old key.now at }
        ensures flat { IsFlat self.new }
        ensures offers { Offers (flat_paths self.old) (flat_paths self.new) key.now None }
        ensures paths { NoKeyComes (flat_paths self.old) (flat_paths self.new) }
    {
        self.put_at(at, key, 0, NO_HOP);
        if let Some(slot) = self.rows.bare_at(at) {
            self.trim(slot.peer);
        }
    }

    /// Drops a peer's last slots that offer nothing.
    fn trim(&mut self, peer: u32)
        requires { IsFlat self.old }
        ensures flat { IsFlat self.new }
        ensures paths { Thins (flat_paths self.old) (flat_paths self.new) }
    {
        for _ in 0..self.rows.slot_count() {
            if !self.drop_last(peer) {
                return;
            }
        }
    }

    /// The place of a peer's last slot, if it has one and nothing is offered there.
    fn last_free(&self, peer: u32) -> Option<usize>
        requires { IsFlat self.now }
        ensures { IfSome result (IsLastFree self.now peer) }
    {
        if peer == NO_PEER {
            return None;
        }
        let at = (self.end_of(peer as usize) as usize).checked_sub(1)?;
        let slot = self.rows.bare_at(at)?;
        if slot.hop != NO_HOP {
            return None;
        }
        Some(at)
    }

    /// Drops a peer's last slot if nothing is offered there, and returns whether it did: the slot is no path key any more, and
    /// the peer's chain begins with the slot before it.
    fn drop_last(&mut self, peer: u32) -> bool
        requires { IsFlat self.old }
        ensures flat { IsFlat self.new }
        ensures paths { Thins (flat_paths self.old) (flat_paths self.new) }
    {
        match self.last_free(peer) {
            Some(at) => {
                self.drop_at(at, peer);
                true
            }
            None => false,
        }
    }

    /// Drops a peer's last slot, at which nothing is offered.
    fn drop_at(&mut self, at: usize, peer: u32)
        requires flat { IsFlat self.old }
        requires last { IsLastFree self.old peer at }
        ensures flat { IsFlat self.new }
        ensures paths { Thins (flat_paths self.old) (flat_paths self.new) }
    {
        if let Some(slot) = self.rows.bare_at(at) {
            self.rows.empty(at);
            self.ends[peer as usize] = slot.link;
        }
    }

    /// Offers something whose hop has a number, at a path key, by the place of its slot.
    pub fn reoffer(&mut self, at: usize, key: &PathKey, attrs: &PathAttrs)
        requires flat { IsFlat self.old }
        requires slot { IsSlotOf self.old key.now at }
        requires hop { HasHop self.old.hops.keys attrs.now.hop }
        ensures flat { IsFlat self.new }
        ensures puts { Puts (flat_paths self.old) (flat_paths self.new) key.now (Some attrs.now) }
    {
        if let Some(hop) = self.hop_number(&attrs.hop()) {
            self.put_at(at, key, attrs.path(), hop);
        }
    }

    /// Offers something at a path key, by the place of its slot.
    pub fn attrs_to(
        &mut self,
        at: usize,
        key: &PathKey,
        attrs: &PathAttrs,
    ) -> Result<(), AllocError>
        requires flat { IsFlat self.old }
        requires slot { IsSlotOf self.old key.now at }
        ensures flat { IsFlat self.new }
        ensures ok { OnOk result (Puts (flat_paths self.old) (flat_paths self.new) key.now (Some attrs.now)) }
        ensures err { OnErr result (flat_paths self.new ≡ flat_paths self.old) }
        ensures grows { OnErr result (Grows self.old self.new) }
    {
        let hop = self.number_hop(&attrs.hop())?;
        self.put_at(at, key, attrs.path(), hop);
        Ok(())
    }

    /// The best candidate of a prefix, that of a path source left out: of all slots, and of the others, of which the best is given.
    pub fn best(
        &self,
        prefix: &Prefix,
        but: Option<Via>,
        other: Option<Candidate>,
    ) -> Option<Candidate>
        requires { IsFlat self.now }
        ensures { (over : Paths) → ShareNoKey (flat_paths self.now) over → IsBestHeld over but prefix.now other → IsBestHeld (paths_over self.now over) but prefix.now result }
    {
        match self.row_of(prefix) {
            Some(row) => self.best_in(row, prefix, but, other),
            None => other,
        }
    }

    /// The best candidate of a row's slots and the others.
    pub fn best_in(
        &self,
        row: usize,
        prefix: &Prefix,
        but: Option<Via>,
        other: Option<Candidate>,
    ) -> Option<Candidate>
        requires flat { IsFlat self.now }
        requires row { IsRowPlace self.now.rows.items prefix.now row }
        ensures { (over : Paths) → ShareNoKey (flat_paths self.now) over → IsBestHeld over but prefix.now other → IsBestHeld (paths_over self.now over) but prefix.now result }
    {
        let run = self.run_of(row);
        let mut best = None;
        for i in run.from..run.to {
            best = self.best_at(i, row, &but, best);
        }
        match best {
            Some(slot) => self.better(&slot, None, other),
            None => other,
        }
    }

    /// The best candidate of a prefix, as `best` has it, by a guess at the prefix's row that is tested.
    pub fn best_near(
        &self,
        near: usize,
        prefix: &Prefix,
        but: Option<Via>,
        other: Option<Candidate>,
    ) -> Option<Candidate>
        requires { IsFlat self.now }
        ensures { (over : Paths) → ShareNoKey (flat_paths self.now) over → IsBestHeld over but prefix.now other → IsBestHeld (paths_over self.now over) but prefix.now result }
    {
        match self.row_near(near, prefix) {
            Some(row) => self.best_in(row, prefix, but, other),
            None => other,
        }
    }

    /// The better of the slot at a place in a row's run and another one where something is offered. Slots are compared as they
    /// lie: the candidate is made once, of the best one.
    fn best_at(
        &self,
        at: usize,
        row: usize,
        but: &Option<Via>,
        best: Option<PathSlot>,
    ) -> Option<PathSlot>
        requires live { IfSome best (IsOffered self.now) }
        requires run { IsInRun self.now.rows.items row (length self.now.rows.slots) at }
        ensures live { IfSome result (IsOffered self.now) }
        ensures best { candidate_on self.now result ≡ best_step self.now.peers.keys self.now.hops.keys row but.now
            (slice_get self.now.rows.slots at) (candidate_on self.now best) }
    {
        match self.rows.slot_in(row, at) {
            Some(slot) => self.better_slot(&slot, but, best),
            None => best,
        }
    }

    /// The better of a slot and another one where something is offered: the other one, if the slot is of the path source that is
    /// left out or offers nothing.
    fn better_slot(
        &self,
        slot: &PathSlot,
        but: &Option<Via>,
        best: Option<PathSlot>,
    ) -> Option<PathSlot>
        requires { IfSome best (IsOffered self.now) }
        ensures live { IfSome result (IsOffered self.now) }
        ensures best { candidate_on self.now result ≡ better_on but.now (via_on self.now.peers.keys slot.now)
            (attrs_on self.now.hops.keys slot.now) (candidate_on self.now best) }
    {
        if !self.is_live(slot) || self.is_left_out(slot, but) {
            return best;
        }
        match best {
            Some(other) => {
                if self.is_preferred(slot, &other) {
                    return Some(*slot);
                }
                Some(other)
            }
            None => Some(*slot),
        }
    }

    /// Whether something is offered at a slot: its peer and its hop have numbers.
    fn is_live(&self, slot: &PathSlot) -> bool
        ensures { MatchBool result (IsOffered self.now slot.now) (candidate_on self.now (Some slot.now) ≡ None) }
    {
        (slot.peer as usize) < self.peers.len() && (slot.hop as usize) < self.hops.len()
    }

    /// Whether a slot is of the path source that is left out.
    fn is_left_out(&self, slot: &PathSlot, but: &Option<Via>) -> bool
        ensures { (q : code.Via) → via_on self.now.peers.keys slot.now ≡ Some q → result ≡ is_excluded but.now q }
    {
        match but {
            Some(via) => {
                if slot.id != via.id {
                    return false;
                }
                match self.peers.get_index(slot.peer as usize) {
                    Some(peer) => *peer == via.peer,
                    None => false,
                }
            }
            None => false,
        }
    }

    /// Whether what a slot offers is preferred to what another one offers: its path is shorter, or as long and its path source comes
    /// first.
    fn is_preferred(&self, slot: &PathSlot, other: &PathSlot) -> bool
        ensures { (c d : Candidate) → candidate_on self.now (Some slot.now) ≡ Some c
            → candidate_on self.now (Some other.now) ≡ Some d → result ≡ comes_before c d }
    {
        slot.path < other.path || (slot.path == other.path && self.is_way_before(slot, other))
    }

    /// Whether the path source of a slot comes before that of another one.
    fn is_way_before(&self, slot: &PathSlot, other: &PathSlot) -> bool
        ensures { (q v : code.Via) → via_on self.now.peers.keys slot.now ≡ Some q
            → via_on self.now.peers.keys other.now ≡ Some v → result ≡ is_lt (code_via_cmp q v) }
    {
        let peer = self.peers.get_index(slot.peer as usize);
        let held = self.peers.get_index(other.peer as usize);
        match (peer, held) {
            (Some(peer), Some(held)) => match peer.cmp(held) {
                Ordering::Less => true,
                Ordering::Equal => slot.id < other.id,
                Ordering::Greater => false,
            },
            _ => false,
        }
    }

    /// The path source of a slot.
    fn via_of(&self, slot: &PathSlot) -> Option<Via>
        ensures { result ≡ via_on self.now.peers.keys slot.now }
    {
        let peer = self.peers.get_index(slot.peer as usize)?;
        Some(Via {
            peer: *peer,
            id: slot.id,
        })
    }

    /// The better of what a slot offers and another candidate: the other one, if the slot is of the path source that is left out.
    fn better(
        &self,
        slot: &PathSlot,
        but: Option<Via>,
        best: Option<Candidate>,
    ) -> Option<Candidate>
        ensures { result ≡ better_on but (via_on self.now.peers.keys slot.now)
            (attrs_on self.now.hops.keys slot.now) best }
    {
        match (self.via_of(slot), self.attrs(slot)) {
            (Some(via), Some(attrs)) => {
                if but == Some(via) {
                    return best;
                }
                Some(better_one(&Candidate { via, attrs }, &best))
            }
            _ => best,
        }
    }

    /// The path key of a slot where something is offered.
    fn live_key(&self, slot: &PathSlot) -> Option<PathKey>
        ensures { result ≡ live_on self.now slot.now }
    {
        match (
            self.attrs(slot),
            self.via_of(slot),
            self.rows.get(slot.row as usize),
        ) {
            (Some(_), Some(via), Some(row)) => Some(PathKey::new(&via, &row.prefix())),
            _ => None,
        }
    }

    /// Adds the path key of a slot where something is offered.
    fn add_live(&self, slot: &PathSlot, paths: &mut BTreeSet<PathKey>) -> Result<(), AllocError>
        ensures { OnOk result ((s : PathKey) → is_among paths.new.keys s
            ≡ (is_among paths.old.keys s || is_key (live_on self.now slot.now) s)) }
    {
        if let Some(key) = self.live_key(slot) {
            paths.insert(key)?;
        }
        Ok(())
    }

    /// Adds the path keys of a peer where something is offered.
    ///
    /// # Errors
    ///
    /// Out of memory.
    pub fn add_paths_of(&self, peer: &Peer, paths: &mut BTreeSet<PathKey>) -> Result<(), AllocError>
        requires { IsFlat self.now }
        ensures { OnOk result ((s : PathKey) → is_among paths.new.keys s
            ≡ (is_among paths.old.keys s || is_offered_by peer.now (flat_paths self.now) s)) }
    {
        match self.number_of(peer) {
            Some(number) => self.add_chain(number, peer, paths),
            None => Ok(()),
        }
    }

    /// Adds the path keys of a peer's chain where something is offered. The next slot of a chain mostly lies in the row before.
    fn add_chain(
        &self,
        number: usize,
        peer: &Peer,
        paths: &mut BTreeSet<PathKey>,
    ) -> Result<(), AllocError>
        requires flat { IsFlat self.now }
        requires number { IsPeerNumber self.now.peers.keys peer.now number }
        ensures { OnOk result ((s : PathKey) → is_among paths.new.keys s
            ≡ (is_among paths.old.keys s || is_offered_by peer.now (flat_paths self.now) s)) }
    {
        let mut near = self.rows.len();
        let mut end = self.end_of(number);
        while end > 0 {
            let slot = self.rows.slot_at(near, end as usize - 1);
            self.add_live(&slot, paths)?;
            near = (slot.row as usize).saturating_sub(1);
            end = slot.link;
        }
        Ok(())
    }

    /// The number of a prefix's row: that one if it is the prefix's, a guess that is tested, in place of a search.
    fn row_near(&self, near: usize, prefix: &Prefix) -> Option<usize>
        requires { IsFlat self.now }
        ensures { MatchOption result (HasNoRow self.now.rows.items prefix.now) (IsRowPlace self.now.rows.items prefix.now) }
    {
        if let Some(held) = self.prefix_of(near) {
            if *prefix == held {
                return Some(near);
            }
        }
        self.row_of(prefix)
    }

    /// Adds what is offered for a prefix, by path source. If prefixes come in order, the row that one call returns is `near`
    /// in the next one, which hardly searches then.
    ///
    /// # Errors
    ///
    /// Out of memory.
    pub fn add_ways(
        &self,
        near: usize,
        prefix: &Prefix,
        ways: &mut ViaAttrs,
    ) -> Result<usize, AllocError>
        requires { IsFlat self.now }
        ensures { OnOk result (AddsWays (flat_paths self.now) prefix.now ways.old ways.new) }
    {
        match self.row_near(near, prefix) {
            Some(row) => {
                self.add_row(row, prefix, ways)?;
                Ok(row.saturating_add(1))
            }
            None => Ok(near),
        }
    }

    /// Adds what the slots of a row offer, by path source.
    fn add_row(&self, row: usize, prefix: &Prefix, ways: &mut ViaAttrs) -> Result<(), AllocError>
        requires flat { IsFlat self.now }
        requires row { IsRowPlace self.now.rows.items prefix.now row }
        ensures { OnOk result (AddsWays (flat_paths self.now) prefix.now ways.old ways.new) }
    {
        let run = self.run_of(row);
        for i in run.from..run.to {
            self.add_at(i, row, ways)?;
        }
        Ok(())
    }

    /// Adds what the slot at a place in a row's run offers.
    fn add_at(&self, at: usize, row: usize, ways: &mut ViaAttrs) -> Result<(), AllocError>
        requires { IsInRun self.now.rows.items row (length self.now.rows.slots) at }
        ensures { OnOk result ((v : code.Via) → way_attrs ways.new v ≡ way_step self.now.peers.keys
            self.now.hops.keys row (slice_get self.now.rows.slots at) v (way_attrs ways.old v)) }
    {
        match self.rows.slot_in(row, at) {
            Some(slot) => self.add_way(&slot, ways),
            None => Ok(()),
        }
    }

    /// Adds what a slot offers.
    fn add_way(&self, slot: &PathSlot, ways: &mut ViaAttrs) -> Result<(), AllocError>
        ensures { OnOk result ((v : code.Via) → way_attrs ways.new v ≡ way_put (via_on self.now.peers.keys slot.now)
            (attrs_on self.now.hops.keys slot.now) v (way_attrs ways.old v)) }
    {
        if let (Some(via), Some(attrs)) = (self.via_of(slot), self.attrs(slot)) {
            ways.put(via, attrs)?;
        }
        Ok(())
    }

    /// How many rows there are.
    pub fn row_count(&self) -> usize
        ensures { result ≡ length self.now.rows.items }
    {
        self.rows.len()
    }

    /// The prefix of a row.
    pub fn prefix_of(&self, row: usize) -> Option<Prefix>
        ensures { result ≡ option_map (λ (r : Row). r.prefix) (slice_get self.now.rows.items row) }
    {
        match self.rows.get(row) {
            Some(row) => Some(row.prefix()),
            None => None,
        }
    }
}

/// The better of two candidates.
fn better_one(one: &Candidate, best: &Option<Candidate>) -> Candidate
    ensures { result ≡ better one.now best.now }
{
    match best {
        None => *one,
        Some(other) => {
            let is_better = one.attrs.path() < other.attrs.path()
                || (one.attrs.path() == other.attrs.path() && one.via < other.via);
            if is_better { *one } else { *other }
        }
    }
}
