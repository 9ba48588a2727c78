//! Inputs in memory: pairs of a name and its octets, in the order in which they were given.
//!
//! A read goes over the pairs up to the first with that name, copies what fits, and takes no memory.

ghost use Rattle.std.specs.Prelude.{◌≡◌, ◌≤◌, ◌-◌, ◌^◌, ◌||◌, min, None, Some, unwrap_or, [], length, option_map, is_err, is_none, IfOk, IfSome};
ghost use Rattle.fib_io.specs.Causes.{HasReadCause};
ghost use Rattle.fib_io.specs.Held.{held_under};
ghost use Rattle.fib_io.specs.Octets.{AreAt};
ghost use Rattle.fib_io.specs.Reads.{IsOneRead, Makes};

use crate::plan::Plan;
use crate::{InFault, Inputs, count_fault};

/// The octets of the first pair with this name.
fn find_octets<'a>(names: &'a [(String, Vec<u8>)], name: &str) -> Option<&'a Vec<u8>>
    ensures { option_map (λ octets. octets.now.items) result ≡ held_under names.now name.now }
{
    for (key, octets) in names {
        if key.as_str() == name {
            return Some(octets);
        }
    }
    None
}

/// Copies the octets from this place on, as many as there are, as fit, and as `most` allows, and says how many.
fn copy_from(octets: &[u8], at: u64, most: usize, buf: &mut [u8]) -> usize
    requires { 1 ≤ most }
    ensures most { result ≤ length buf.new }
    ensures told { AreAt octets.now at buf.new result }
    ensures fit { result ≡ min (length octets.now - at) (min most (length buf.new)) }
{
    let from = if at < octets.len() as u64 {
        at as usize
    } else {
        octets.len()
    };
    let rest = &octets[from..];
    let n = rest.len().min(most.min(buf.len()));
    let part = &mut buf[..n];
    part.copy_from_slice(&rest[..n]);
    n
}

/// Octets by name, with the numbers of the reads that are to fail.
///
/// A name that isn't held is a fault, and has no known content. All names have one count of faults.
#[derive(Drop)]
pub struct MemInputs {
    names: Vec<(String, Vec<u8>)>,
    plan: Plan,
    faults: u64,
    // The most octets of a read.
    most: usize,
    ghost some: { 1 ≤ most },
}

impl MemInputs {
    ghost use Rattle.fib_io.specs.Plan.{IsNewPlan};
    ghost use Rattle.fib_io.specs.MemInputs.{read_most, read_plan};

    /// Holds these octets under these names. Of two pairs with one name the first counts. The reads with the
    /// numbers of `failing` fail; the first read has the number 1. It takes no memory.
    pub fn new(names: Vec<(String, Vec<u8>)>, failing: Vec<u64>) -> MemInputs
        ensures content { ⟦<MemInputs as Inputs>⟧.content result ≡ held_under names.items }
        ensures faults { ⟦<MemInputs as Inputs>⟧.faults result ≡ (λ _. 0) }
        ensures plan { IsNewPlan (read_plan result) failing.items }
        ensures most { read_most result ≡ 2 ^ 64 - 1 }
    {
        MemInputs {
            names,
            plan: Plan::new(failing),
            faults: 0,
            most: usize::MAX,
        }
    }

    /// From now on a read gives at most `n` octets; before the first such call it gives all that there are.
    pub fn at_most(&mut self, n: usize)
        requires { 1 ≤ n }
        ensures most { read_most self.new ≡ n }
        ensures same { ⟦<MemInputs as Inputs>⟧.content self.new
            ≡ ⟦<MemInputs as Inputs>⟧.content self.old }
        ensures faults { ⟦<MemInputs as Inputs>⟧.faults self.new
            ≡ ⟦<MemInputs as Inputs>⟧.faults self.old }
        ensures plan { read_plan self.new ≡ read_plan self.old }
    {
        self.most = n;
    }
}

impl Inputs for MemInputs {
    ghost use Rattle.fib_io.specs.Plan.{IsNextCall, fails_next};
    ghost use Rattle.fib_io.specs.MemInputs.{read_most, read_plan};

    ghost content = { λ s. held_under s.names.items };

    ghost faults = { λ s _. s.faults };

    ghost reads = { λ _. None };

    /// Gives all octets from the place on that there are, that fit and that `at_most` allows. It fails exactly if the plan says
    /// so or the name isn't held.
    fn read(&mut self, name: &str, at: u64, buf: &mut [u8]) -> Result<usize, InFault>
        ensures most { IfOk result (λ n. n ≤ length buf.new) }
        ensures told { IfOk result (λ n. IfSome (⟦<MemInputs as Inputs>⟧.content self.old name.now)
            (λ octets. AreAt octets at buf.new n)) }
        ensures same { ⟦<MemInputs as Inputs>⟧.content self.new
            ≡ ⟦<MemInputs as Inputs>⟧.content self.old }
        ensures cause { HasReadCause (⟦<MemInputs as Inputs>⟧.faults self.old)
            (⟦<MemInputs as Inputs>⟧.faults self.new) name.now result }
        ensures made { Makes (⟦<MemInputs as Inputs>⟧.reads self.old)
            (⟦<MemInputs as Inputs>⟧.reads self.new) (IsOneRead name.now at result) }
        ensures fit { IfOk result (λ n. IfSome (⟦<MemInputs as Inputs>⟧.content self.old name.now)
            (λ octets. n ≡ min (length octets - at) (min (read_most self.old) (length buf.new)))) }
        ensures kept { read_most self.new ≡ read_most self.old }
        ensures planned { is_err result ≡ (fails_next (read_plan self.old)
            || is_none (⟦<MemInputs as Inputs>⟧.content self.old name.now)) }
        ensures next { IsNextCall (read_plan self.old) (read_plan self.new) }
    {
        let is_failing = self.plan.is_next_failing();
        match find_octets(&self.names, name) {
            Some(octets) if !is_failing => Ok(copy_from(octets, at, self.most, buf)),
            _ => {
                count_fault(&mut self.faults);
                Err(InFault::Failed)
            }
        }
    }
}

/// Octets by name, which never fail. A name that isn't held is empty, and the count of faults is always 0.
#[derive(Drop)]
pub struct SureInputs {
    names: Vec<(String, Vec<u8>)>,
}

impl SureInputs {
    /// Holds these octets under these names. Of two pairs with one name the first counts. It takes no memory.
    pub fn new(names: Vec<(String, Vec<u8>)>) -> SureInputs
        ensures { ⟦<SureInputs as Inputs>⟧.content result ≡
            (λ name. Some (unwrap_or (held_under names.items name) [])) }
    {
        SureInputs { names }
    }
}

impl Inputs for SureInputs {
    ghost content = { λ s name. Some (unwrap_or (held_under s.names.items name) []) };

    ghost faults = { λ _ _. 0 };

    ghost reads = { λ _. None };

    fn read(&mut self, name: &str, at: u64, buf: &mut [u8]) -> Result<usize, InFault> {
        match find_octets(&self.names, name) {
            Some(octets) => Ok(copy_from(octets, at, usize::MAX, buf)),
            None => Ok(0),
        }
    }
}
