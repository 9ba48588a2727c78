//! The counts of an input: the reading by itself.

ghost use Rattle.std.specs.Prelude.{◌≡◌, ◌<◌, length, IfErr, IfOk, IfSome};
ghost use Rattle.mrt_read.specs.Whole.{FaultRose};
ghost use Rattle.part_count.specs.Counted.{CountsOctets, IsUncounted};

use fib_io::{Inputs, piece_room, read_piece};
use mrt_read::{Reader, WholeError};
use std::alloc::Global;

/// What was counted of an input.
#[derive(Clone, Copy, Debug, PartialEq, Eq)]
pub struct Counts {
    /// The records.
    pub records: u64,
    /// The skipped ones.
    pub skipped: u64,
    /// The events; 2^64 - 1 if there are more.
    pub events: u64,
    /// The messages treated as withdrawals (RFC 7606).
    pub treated: u64,
}

/// Counts through this room.
fn count_through<I: Inputs>(
    alloc: Global,
    inputs: &mut I,
    name: &str,
    room: &mut [u8],
) -> Result<Counts, WholeError>
    requires { 0 < length room.old }
    ensures counts { IfOk result (λ counts. IfSome (I.content inputs.old name.now)
        (CountsOctets counts)) }
    ensures refused { IfErr result (λ error. IfSome (I.content inputs.old name.now)
        (IsUncounted error)) }
    ensures same { I.content inputs.new ≡ I.content inputs.old }
    ensures cause { FaultRose (I.faults inputs.old) (I.faults inputs.new) name.now result }
{
    let mut reader = Reader::new(alloc);
    let mut more = Vec::new(alloc);
    let mut at = 0;
    let mut events: u64 = 0;
    loop {
        let n = read_piece(inputs, name, at, room)?;
        if n == 0 {
            reader.finish()?;
            return Ok(Counts {
                records: reader.records(),
                skipped: reader.skipped(),
                events,
                treated: reader.treated(),
            });
        }
        reader.feed(&room[..n])?;
        at += n as u64;
        while reader.read_events(&mut more)? {
            events = events.saturating_add(more.len() as u64);
        }
    }
}

/// Counts what an input's records say. It is read in pieces, each record before the next read; in memory are one record, its
/// events and the peer table.
pub fn count<I: Inputs>(alloc: Global, inputs: &mut I, name: &str) -> Result<Counts, WholeError>
    ensures counts { IfOk result (λ counts. IfSome (I.content inputs.old name.now)
        (CountsOctets counts)) }
    ensures refused { IfErr result (λ error. IfSome (I.content inputs.old name.now)
        (IsUncounted error)) }
    ensures same { I.content inputs.new ≡ I.content inputs.old }
    ensures cause { FaultRose (I.faults inputs.old) (I.faults inputs.new) name.now result }
{
    let mut room = piece_room(alloc)?;
    count_through(alloc, inputs, name, &mut room)
}
