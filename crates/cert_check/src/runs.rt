//! What the addresses of a family get from a table, as runs of addresses with one hop.
//!
//! A run is a first address and the hop of all addresses from there to the next run; before the first run addresses get no
//! hop. Neighbours have different hops, so equal answers are equal lists. The runs are found by going down the binary tree of
//! prefixes, as a radix sort does: at each prefix the entries within it are dealt out to its halves. That takes a step for
//! each bit of each entry, and goes 128 levels down at most.

ghost use Rattle.std.specs.Prelude.{◌≡◌, ◌↔◌, ◌+◌, ◌-◌, ◌<◌, ◌≤◌, ◌^◌, [], ◌∷◌, ◌++◌, drop, false, true, length, map, take, IfOk, OnOk};
ghost use Rattle.std.specs.List.{AllByRecursion};
ghost use Rattle.std.specs.Option.{option_or};
ghost use Rattle.table_model.specs.Width.{width};
ghost use Rattle.table_model.specs.Table.{root, half};
ghost use Rattle.table_model.specs.Entries.{Entries, of_family};
ghost use Rattle.cert_model.specs.Verdict.{all_get};
ghost use Rattle.fib_addr.specs.Views.{entry_as, prefix_as};
ghost use Rattle.cert_check.specs.Runs.{part_as, parts_table, Noted, Swept, AreRuns, RunsTell, CountsBegun, last_hop};

use fib_addr::{Entry, Family, Prefix, bit_at};
use std::alloc::{AllocError, Global};

/// A first address, and the hop of the addresses from there to the next run.
#[derive(Clone, Copy, Debug, PartialEq, Eq)]
pub struct Run {
    /// The first address's bits as a number.
    pub start: u128,
    /// The hop's number.
    pub hop: u16,
}

/// An entry within a region: its lowest bits as a number, and how many of those that the region's addresses have it fixes.
#[derive(Clone, Copy, Debug, PartialEq, Eq)]
pub struct Part {
    /// The entry's bits.
    bits: u128,
    /// How many more bits than the region's prefix the entry has.
    len: u8,
    /// The hop's number.
    hop: u16,
}

/// A region's entries: the hop of the one at its prefix, if there is one, and those within its halves.
#[derive(Drop)]
struct Halves {
    own: Option<u16>,
    low: Vec<Part>,
    high: Vec<Part>,
}

/// A table's entries of a family.
fn parts_of(alloc: Global, entries: &[Entry], family: Family) -> Result<Vec<Part>, AllocError>
    ensures { IfOk result (λ v. parts_table (width family) v.items
        ≡ of_family family (map entry_as entries.now)) }
{
    let mut parts = Vec::new(alloc);
    for entry in entries {
        if entry.prefix.family == family {
            parts.push(Part {
                bits: entry.prefix.bits,
                len: entry.prefix.len,
                hop: entry.hop.0,
            })?;
        }
    }
    Ok(parts)
}

impl Halves {
    /// Puts an entry where it belongs, after those that are there; the halves' addresses have `left` bits.
    fn put(&mut self, part: &Part, left: u8) -> Result<(), AllocError>
        requires { left < 128 }
        ensures own { OnOk result (self.new.own ≡ option_or self.old.own
            (root (part_as (left + 1) part.now ∷ []))) }
        ensures low { OnOk result (parts_table left self.new.low.items
            ≡ parts_table left self.old.low.items ++ half false (part_as (left + 1) part.now ∷ [])) }
        ensures high { OnOk result (parts_table left self.new.high.items
            ≡ parts_table left self.old.high.items ++ half true (part_as (left + 1) part.now ∷ [])) }
    {
        if part.len == 0 {
            self.own = self.own.or(Some(part.hop));
            return Ok(());
        }
        let rest = Part {
            bits: part.bits,
            len: part.len - 1,
            hop: part.hop,
        };
        if bit_at(part.bits, left) {
            self.high.push(rest)?;
        } else {
            self.low.push(rest)?;
        }
        Ok(())
    }
}

/// Deals the entries of a region out to its halves, whose addresses have `left` bits.
fn deal(alloc: Global, parts: Vec<Part>, left: u8) -> Result<Halves, AllocError>
    requires { left < 128 }
    ensures own { IfOk result (λ h. h.own ≡ root (parts_table (left + 1) parts.items)) }
    ensures low { IfOk result (λ h. parts_table left h.low.items
        ≡ half false (parts_table (left + 1) parts.items)) }
    ensures high { IfOk result (λ h. parts_table left h.high.items
        ≡ half true (parts_table (left + 1) parts.items)) }
{
    let mut halves = Halves {
        own: None,
        low: Vec::new(alloc),
        high: Vec::new(alloc),
    };
    for part in &parts {
        halves.put(part, left)?;
    }
    Ok(halves)
}

/// Adds a run if the hop isn't the last run's.
fn note(runs: &mut Vec<Run>, start: u128, hop: u16) -> Result<(), AllocError>
    ensures { OnOk result (Noted start hop runs.old.items runs.new.items) }
{
    let last = match runs.last() {
        Some(run) => run.hop,
        None => 0,
    };
    if last != hop {
        runs.push(Run { start, hop })?;
    }
    Ok(())
}

/// Adds the runs of such a region as `sweep` does, if it has this entry alone. It takes memory for runs alone.
fn sweep_alone(
    part: &Part,
    inherited: u16,
    start: u128,
    left: u8,
    runs: &mut Vec<Run>,
) -> Result<(), AllocError>
    requires left { left ≤ 128 }
    requires fits { start + 2 ^ left ≤ 2 ^ 128 }
    ensures { OnOk result (Swept left (part_as left part.now ∷ []) inherited start runs.old.items
        runs.new.items) }
{
    if part.len == 0 {
        return note(runs, start, part.hop);
    }
    if left == 0 {
        return note(runs, start, part.hop);
    }
    let at = left - 1;
    let middle = start + (1 << at);
    let rest = Part {
        bits: part.bits,
        len: part.len - 1,
        hop: part.hop,
    };
    if bit_at(part.bits, at) {
        note(runs, start, inherited)?;
        sweep_alone(&rest, inherited, middle, at, runs)?;
    } else {
        sweep_alone(&rest, inherited, start, at, runs)?;
        note(runs, middle, inherited)?;
    }
    Ok(())
}

/// Adds the runs of a region whose addresses are `2 ^ left` from `start` on, and which inherits a hop.
fn sweep(
    alloc: Global,
    parts: Vec<Part>,
    inherited: u16,
    start: u128,
    left: u8,
    runs: &mut Vec<Run>,
) -> Result<(), AllocError>
    requires left { left ≤ 128 }
    requires fits { start + 2 ^ left ≤ 2 ^ 128 }
    ensures { OnOk result (Swept left (parts_table left parts.items) inherited start runs.old.items
        runs.new.items) }
{
    if parts.is_empty() {
        return note(runs, start, inherited);
    }
    if parts.len() == 1 {
        return sweep_alone(&parts[0], inherited, start, left, runs);
    }
    if left == 0 {
        return note(runs, start, parts[0].hop);
    }
    let at = left - 1;
    let halves = deal(alloc, parts, at)?;
    let hop = halves.own.unwrap_or(inherited);
    sweep(alloc, halves.low, hop, start, at, runs)?;
    sweep(alloc, halves.high, hop, start + (1 << at), at, runs)?;
    Ok(())
}

/// The runs of a family's addresses that these entries make. They cost n log n in the entries.
///
/// # Errors
///
/// Out of memory.
pub fn runs_of(alloc: Global, entries: &[Entry], family: Family) -> Result<Vec<Run>, AllocError>
    ensures { IfOk result (λ v. RunsTell family (map entry_as entries.now) v.items) }
{
    let parts = parts_of(alloc, entries, family)?;
    let mut runs = Vec::new(alloc);
    // There are no more runs than that, so the list isn't copied as it grows.
    runs.reserve(parts.len().saturating_mul(2))?;
    sweep(alloc, parts, 0, 0, family.width(), &mut runs)?;
    Ok(runs)
}

/// The greatest number at which one of the first `place` runs begins, 0 for none.
fn last_start(runs: &[Run], place: usize) -> u128
    requires { place ≤ length runs.now }
    ensures { AreRuns 0 runs.now → AllByRecursion (λ r. r.start ≤ result) (take place runs.now) }
{
    if place == 0 { 0 } else { runs[place - 1].start }
}

/// Whether all runs but the first `place` begin after the number.
fn begin_after(runs: &[Run], place: usize, number: u128) -> bool
    requires { place ≤ length runs.now }
    ensures { AreRuns 0 runs.now → result ≡ true
        → AllByRecursion (λ r. number < r.start) (drop place runs.now) }
{
    if place == runs.len() {
        true
    } else {
        number < runs[place].start
    }
}

/// Whether `place` runs begin at the number or before it; false if it's hard to say.
fn are_begun(runs: &[Run], number: u128, place: usize) -> bool
    ensures bound { result ≡ true → place ≤ length runs.now }
    ensures begun { result ≡ true → AreRuns 0 runs.now → CountsBegun number runs.now place }
{
    place <= runs.len() && last_start(runs, place) <= number && begin_after(runs, place, number)
}

/// How many runs begin at the number or before it. It is quick if it is the guess or one more.
fn begun(runs: &[Run], number: u128, guess: usize) -> usize
    ensures bound { result ≤ length runs.now }
    ensures begun { AreRuns 0 runs.now → CountsBegun number runs.now result }
{
    if are_begun(runs, number, guess) {
        return guess;
    }
    let next = guess.saturating_add(1);
    if are_begun(runs, number, next) {
        return next;
    }
    runs.partition_point(|run| run.start <= number)
}

/// The hop of the last of the first `place` runs.
fn hop_before(runs: &[Run], place: usize) -> u16
    requires { place ≤ length runs.now }
    ensures { result ≡ last_hop (take place runs.now) }
{
    if place == 0 { 0 } else { runs[place - 1].hop }
}

/// Whether a number past the first address of the prefix is past all of them.
fn is_past(number: u128, prefix: &Prefix) -> bool
    ensures { prefix.now.bits < number → (result ≡ true) ↔
        (prefix.now.bits + 2 ^ (width prefix.now.family - prefix.now.len) ≤ number) }
{
    let unused = prefix.family.width() - prefix.len;
    unused < 128 && number >> unused != prefix.bits >> unused
}

/// Whether all addresses of the prefix get the hop. The place is how many runs begin at the prefix's first address or before
/// it; that of a prefix shortly before, given here, makes it quick.
pub fn holds(runs: &[Run], prefix: &Prefix, hop: u16, place: &mut usize) -> bool
    ensures { (L : Entries) → RunsTell prefix.now.family L runs.now
        → result ≡ all_get L (prefix_as prefix.now) hop }
{
    let here = begun(runs, prefix.bits, *place);
    *place = here;
    hop_before(runs, here) == hop && (here == runs.len() || is_past(runs[here].start, prefix))
}
