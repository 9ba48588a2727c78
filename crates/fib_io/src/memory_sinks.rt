//! Sinks in memory: one that keeps what it is given, and one that drops it.
//!
//! The room of a `MemSink` is the capacity of its vector, taken when it is made, so that no write takes memory.
//! A write costs a step for each octet that it takes.

ghost use Rattle.std.specs.Prelude.{◌≡◌, ◌≤◌, ◌<◌, ◌+◌, ◌-◌, ◌^◌, ◌==◌, ◌++◌, ◌||◌, ◌&&◌, min, not, Some, None, [], length, is_err, IfOk, OnErr, vec_capacity};
ghost use Rattle.fib_io.specs.Causes.{HasCause};
ghost use Rattle.fib_io.specs.Octets.{AddsFront};

use crate::plan::Plan;
use crate::{OutFault, Sink, count_fault};
use std::alloc::{AllocError, Global};

/// Appends the octets within the capacity, so that no memory is taken.
fn append_within(octets: &mut Vec<u8>, piece: &[u8])
    requires { length octets.old.items + length piece.now ≤ vec_capacity octets.old }
    ensures items { octets.new.items ≡ octets.old.items ++ piece.now }
    ensures capacity { vec_capacity octets.new ≡ vec_capacity octets.old }
{
    for octet in piece {
        octets.push_reserved(*octet);
    }
}

/// Keeps what is written, in room that was taken when it was made, with the numbers of the writes that are to fail.
#[derive(Drop)]
pub struct MemSink {
    octets: Vec<u8>,
    plan: Plan,
    faults: u64,
    // The most octets of a write.
    most: usize,
    ghost some: { 1 ≤ most },
}

impl MemSink {
    ghost use Rattle.fib_io.specs.Plan.{IsNewPlan};
    ghost use Rattle.fib_io.specs.MemSink.{room_left, write_most, write_plan};

    /// Takes memory for `room` octets. The writes with the numbers of `failing` fail; the first write has
    /// the number 1.
    pub fn new(alloc: Global, room: usize, failing: Vec<u64>) -> Result<MemSink, AllocError>
        ensures written { IfOk result (λ sink. ⟦<MemSink as Sink>⟧.written sink ≡ Some []) }
        ensures faults { IfOk result (λ sink. ⟦<MemSink as Sink>⟧.faults sink ≡ 0) }
        ensures room { IfOk result (λ sink. room_left sink ≡ room) }
        ensures plan { IfOk result (λ sink. IsNewPlan (write_plan sink) failing.items) }
        ensures most { IfOk result (λ sink. write_most sink ≡ 2 ^ 64 - 1) }
    {
        let octets = Vec::with_capacity(alloc, room)?;
        Ok(MemSink {
            octets,
            plan: Plan::new(failing),
            faults: 0,
            most: usize::MAX,
        })
    }

    /// From now on a write takes at most `n` octets; before the first such call it takes all that fit.
    pub fn at_most(&mut self, n: usize)
        requires { 1 ≤ n }
        ensures most { write_most self.new ≡ n }
        ensures same { ⟦<MemSink as Sink>⟧.written self.new
            ≡ ⟦<MemSink as Sink>⟧.written self.old }
        ensures faults { ⟦<MemSink as Sink>⟧.faults self.new
            ≡ ⟦<MemSink as Sink>⟧.faults self.old }
        ensures room { room_left self.new ≡ room_left self.old }
        ensures plan { write_plan self.new ≡ write_plan self.old }
    {
        self.most = n;
    }

    /// All that was written.
    pub fn written(&self) -> &[u8]
        ensures { ⟦<MemSink as Sink>⟧.written self.now ≡ Some result.now }
    {
        &self.octets
    }

    /// How many octets still fit.
    fn room(&self) -> usize
        ensures { result ≡ room_left self.now }
    {
        self.octets.capacity().saturating_sub(self.octets.len())
    }
}

impl Sink for MemSink {
    ghost use Rattle.fib_io.specs.Plan.{IsNextCall, fails_next};
    ghost use Rattle.fib_io.specs.MemSink.{room_left, write_most, write_plan};

    ghost written = { λ s. Some s.octets.items };

    ghost faults = { λ s. s.faults };

    /// Takes all octets that fit and that `at_most` allows, and no memory. It fails exactly if the plan says so or if no room
    /// is left for a piece that isn't empty.
    fn write(&mut self, piece: &[u8]) -> Result<usize, OutFault>
        ensures most { IfOk result (λ n. n ≤ length piece.now) }
        ensures some { IfOk result (λ n. 0 < length piece.now → 0 < n) }
        ensures ok { IfOk result (λ n. AddsFront (⟦<MemSink as Sink>⟧.written self.old)
            (⟦<MemSink as Sink>⟧.written self.new) piece.now n) }
        ensures err { OnErr result (⟦<MemSink as Sink>⟧.written self.new
            ≡ ⟦<MemSink as Sink>⟧.written self.old) }
        ensures cause { HasCause (⟦<MemSink as Sink>⟧.faults self.old)
            (⟦<MemSink as Sink>⟧.faults self.new) result }
        ensures fit { IfOk result (λ n. n
            ≡ min (room_left self.old) (min (write_most self.old) (length piece.now))) }
        ensures kept { write_most self.new ≡ write_most self.old }
        ensures room { IfOk result (λ n. room_left self.new + n ≡ room_left self.old) }
        ensures planned { is_err result ≡ (fails_next (write_plan self.old)
            || (room_left self.old == 0 && not (length piece.now == 0))) }
        ensures next { IsNextCall (write_plan self.old) (write_plan self.new) }
    {
        let is_failing = self.plan.is_next_failing();
        let room = self.room();
        if is_failing || (room == 0 && !piece.is_empty()) {
            count_fault(&mut self.faults);
            return Err(OutFault);
        }
        let taken = room.min(self.most.min(piece.len()));
        append_within(&mut self.octets, &piece[..taken]);
        Ok(taken)
    }
}

/// Takes all and keeps nothing. It never fails: its count of faults is always 0.
#[derive(Clone, Copy, Debug, Default)]
pub struct SureSink;

impl SureSink {
    /// A sink that says nothing of what it was given.
    pub fn new() -> SureSink
        ensures { ⟦<SureSink as Sink>⟧.written result ≡ None }
    {
        SureSink
    }
}

impl Sink for SureSink {
    ghost written = { λ _. None };

    ghost faults = { λ _. 0 };

    fn write(&mut self, piece: &[u8]) -> Result<usize, OutFault> {
        Ok(piece.len())
    }
}
