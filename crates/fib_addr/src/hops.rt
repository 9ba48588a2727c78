//! The numbers of next hops.
//!
//! Hops are numbered 1, 2, .. in the order in which they are first brought, and keep their number for good. They are kept
//! in a hash set in that order: a hop's number is its place there from 1. Asking costs one lookup, and so does numbering a
//! hop that is held; a new one costs two. A dump names few hops, each of them for many routes, so a hop's number is first
//! guessed by a few bits of its address: a guess is tested, and costs half of what the set does.

ghost use Rattle.std.specs.Prelude.{◌≡◌, ◌↔◌, ◌+◌, ◌<◌, ◌≤◌, [], length, map, option_map, Some, None, IsOk, IsErr, IsSome, IfSome, IfOk, OnOk, OnErr, IsErrOf};
ghost use Rattle.std.specs.List.{IsDistinct};
ghost use Rattle.table_model.specs.Address.{same_address};
ghost use Rattle.indexmap.specs.IndexSet.{spare};
ghost use Rattle.fib_addr.specs.Hops.{Hops, most_hops, number_of, hop_at, with_hop};
ghost use Rattle.fib_addr.specs.Views.{addr_as};
ghost use Rattle.fib_addr.specs.declared.hops.HopError.TheVariants as hop_error;

use crate::addr::Addr;
use crate::entry::Hop;
use indexmap::IndexSet;
use std::alloc::{AllocError, AllocFailed, Global};
use std::marker::Model;
use thiserror::Error;

/// How many different hops have numbers at most, a limit of this program: one fewer than a `u16` holds beside `Hop::NONE`.
pub const MOST_HOPS: usize = 65_534;

/// The hop is new, and 65,534 hops are held.
#[derive(Clone, Copy, Debug, PartialEq, Eq, Error)]
#[error("more than 65534 different next hops")]
pub struct HopsFull;

/// Why a hop got no number.
#[derive(Clone, Copy, Debug, PartialEq, Eq, Error)]
pub enum HopError {
    /// The address is new, and 65,534 hops are held.
    #[error("more than 65534 different next hops")]
    HopsFull,
    /// Memory ran out.
    #[error("no memory")]
    NoMemory,
}

impl<T: Drop> From<AllocFailed<T>> for HopError {
    ghost from_gives = { λ _ e. e ≡ hop_error.NoMemory };

    fn from(_e: AllocFailed<T>) -> HopError {
        HopError::NoMemory
    }
}

impl From<HopsFull> for HopError {
    ghost from_gives = { λ _ e. e ≡ hop_error.HopsFull };

    fn from(_e: HopsFull) -> HopError {
        HopError::HopsFull
    }
}

/// Next hops with their numbers. Contracts see the list of hops in the order of their numbers, in which none stands twice, and
/// how many more are numbered without memory.
#[derive(Drop)]
pub struct HopTable {
    hops: IndexSet<Addr>,
    /// A number for each way that a few bits of an address may be: that of the first hop of such bits, or `Hop::NONE`. It only
    /// says where to look first.
    guesses: [Hop; GUESSES],
}

impl Model for HopTable {
    ghost Value = { Hops };

    ghost view = { λ table. record { list = map addr_as table.hops.keys; spare = spare table.hops } };

    ghost invariant = { λ table. (length table.hops.keys ≤ most_hops) × IsDistinct same_address (map addr_as table.hops.keys) };
}

/// How many numbers are guessed.
const GUESSES: usize = 256;

/// The golden ratio's fraction in 128 bits: its products have the bits of a number mixed at their upper end.
const GOLDEN: u128 = 0x9e37_79b9_7f4a_7c15_f39c_c060_5ced_c835;

/// Which guess an address has.
fn guess_of(addr: &Addr) -> usize
    ensures { result < GUESSES }
{
    (addr.bits.wrapping_mul(GOLDEN) >> 120) as usize
}

/// Notes a hop's number as the guess for addresses like its own, unless an earlier hop is guessed there.
fn note(guesses: &mut [Hop; GUESSES], addr: &Addr, hop: Hop) {
    let guess = guess_of(addr);
    if guesses[guess] == Hop::NONE {
        guesses[guess] = hop;
    }
}

/// The number of the hop at a place.
fn hop_at_place(place: usize) -> Hop
    requires { place < MOST_HOPS }
    ensures { result.0 ≡ place + 1 }
{
    Hop(place as u16 + 1)
}

impl HopTable {
    /// A table with no hop.
    pub fn new(alloc: Global) -> HopTable
        ensures { result.list ≡ [] }
    {
        HopTable {
            hops: IndexSet::new(alloc),
            guesses: [Hop::NONE; GUESSES],
        }
    }

    /// Makes room for the next hop, so that it is numbered without memory. The hops stay as they are, and if there is
    /// room already it takes none.
    pub fn room(&mut self) -> Result<(), AllocError>
        ensures list { self.new.list ≡ self.old.list }
        ensures room { OnOk result (1 ≤ self.new.spare) }
        ensures spare { self.old.spare ≤ self.new.spare }
        ensures there { 1 ≤ self.old.spare → IsOk result }
    {
        self.hops.reserve(1)
    }

    /// The hop's number: its own if it is held, else the next. An `Err` changes no hop; `HopsFull` comes exactly if the
    /// hop is new and 65,534 are held, and a held hop always has its number and changes nothing. If there is room for one
    /// more (`room`), `NoMemory` doesn't come.
    pub fn number(&mut self, addr: &Addr) -> Result<Hop, HopError>
        ensures number { IfOk result (λ hop. number_of self.new.list (addr_as addr.now)
            ≡ Some hop.0) }
        ensures addr { IfOk result (λ hop. hop_at self.new.list hop.0 ≡ Some (addr_as addr.now)) }
        ensures distinct { IsDistinct same_address self.new.list }
        ensures hops { OnOk result (self.new.list ≡ with_hop self.old.list (addr_as addr.now)) }
        ensures few { OnOk result (length self.new.list ≤ most_hops) }

        ensures known { IsSome (number_of self.old.list (addr_as addr.now)) → IsOk result
            × (self.new ≡ self.old) }
        ensures full { IsErrOf result HopError.HopsFull ↔ (length self.old.list ≡ most_hops)
            × (number_of self.old.list (addr_as addr.now) ≡ None) }
        ensures err { OnErr result (self.new.list ≡ self.old.list) }

        ensures room { 1 ≤ self.old.spare → ¬ (IsErrOf result HopError.NoMemory) }
        ensures spare { self.old.spare ≤ self.new.spare + 1 }
        ensures err_spare { OnErr result (self.old.spare ≤ self.new.spare) }
    {
        if let Some(hop) = self.find(addr) {
            return Ok(hop);
        }
        let hop = self.fresh()?;
        self.hops.insert_full(*addr)?;
        note(&mut self.guesses, addr, hop);
        Ok(hop)
    }

    /// The hop's number, if it is held and guessed right.
    fn guessed(&self, addr: &Addr) -> Option<Hop>
        ensures number { IfSome result (λ hop. number_of self.now.list (addr_as addr.now)
            ≡ Some hop.0) }
        ensures addr { IfSome result (λ hop. hop_at self.now.list hop.0 ≡ Some (addr_as addr.now)) }
    {
        let hop = self.guesses[guess_of(addr)];
        let held = self.addr(hop)?;
        if held == *addr { Some(hop) } else { None }
    }

    /// The number that `number` would give the hop, memory aside. It takes no memory.
    pub fn next(&self, addr: &Addr) -> Result<Hop, HopsFull>
        ensures number { IfOk result (λ hop. number_of (with_hop self.now.list (addr_as addr.now))
            (addr_as addr.now) ≡ Some hop.0) }
        ensures addr { IfOk result (λ hop. hop_at (with_hop self.now.list (addr_as addr.now)) hop.0
            ≡ Some (addr_as addr.now)) }
        ensures full { IsErr result ↔ (length self.now.list ≡ most_hops)
            × (number_of self.now.list (addr_as addr.now) ≡ None) }
    {
        match self.find(addr) {
            Some(hop) => Ok(hop),
            None => self.fresh(),
        }
    }

    /// The number of the next new hop.
    fn fresh(&self) -> Result<Hop, HopsFull>
        ensures number { IfOk result (λ hop. hop.0 ≡ length self.now.list + 1) }
        ensures full { IsErr result ↔ (length self.now.list ≡ most_hops) }
    {
        if self.hops.len() == MOST_HOPS {
            return Err(HopsFull);
        }
        Ok(hop_at_place(self.hops.len()))
    }

    /// The hop's number, `None` exactly if it isn't held. `addr` of the number is the hop.
    pub fn find(&self, addr: &Addr) -> Option<Hop>
        ensures number { option_map (λ hop. hop.0) result ≡ number_of self.now.list
            (addr_as addr.now) }
        ensures addr { IfSome result (λ hop. hop_at self.now.list hop.0 ≡ Some (addr_as addr.now)) }
    {
        if let Some(hop) = self.guessed(addr) {
            return Some(hop);
        }
        let place = self.hops.get_index_of(addr)?;
        Some(hop_at_place(place))
    }

    /// The hop of a number, `None` exactly if no held hop has it: `Hop::NONE` is no hop's, and each number from 1 to that of
    /// the hops held is one's. `find` of the hop is the number, so different numbers have different hops.
    pub fn addr(&self, hop: Hop) -> Option<Addr>
        ensures addr { option_map addr_as result ≡ hop_at self.now.list hop.0 }
        ensures held { IsSome result ↔ (1 ≤ hop.0) × (hop.0 ≤ length self.now.list) }
        ensures number { IfSome result (λ addr. number_of self.now.list (addr_as addr)
            ≡ Some hop.0) }
    {
        let place = usize::from(hop.0).checked_sub(1)?;
        self.hops.get_index(place).copied()
    }
}
