//! What the program reads and writes, with counts of the faults that came up.
//!
//! `Inputs` gives octets by name and place, and `Sink` takes octets in order. Each keeps a count of its faults
//! that never falls, and a failure comes only if the count rose, so that none can be made up. Memory may run out
//! before a read, which leaves all counts. A contract names what an input holds or what a sink was given, if the
//! type says it.
//!
//! `MemInputs` and `MemSink` keep octets in memory and fail at the calls that are planned, `SureInputs` and
//! `SureSink` never fail, `FileInputs` and `StdSink` stand over files and over standard output and error.
//! A call of `write_all` makes as many writes as the sink takes pieces, and takes no memory of its own; `read_piece` reads
//! what comes next of an input, and `read_whole` an input to its end.
#![tactic(auto)]

ghost use Rattle.std.specs.Prelude.{◌≡◌, ℕ, ◌≤◌, ◌<◌, ◌+◌, ◌^◌, ◌-◌, min, Option, List, length, OnOk, OnErr, IfOk, IfSome};
ghost use Rattle.fib_io.specs.Causes.{HasCause, HasReadCause};
ghost use Rattle.fib_io.specs.Octets.{Adds, AddsFront, AddsSome, AreAt};
ghost use Rattle.fib_io.specs.Reads.{IsOneRead, Makes, Read};

use thiserror::Error;

mod files;
mod logged_inputs;
mod memory_inputs;
mod memory_sinks;
mod pieces;
mod plan;
mod streams;

pub use files::{ByName, FileInputs, ReadSeek, SystemFiles};
pub use logged_inputs::{LoggedInputs, LoggedRead};
pub use memory_inputs::{MemInputs, SureInputs};
pub use memory_sinks::{MemSink, SureSink};
pub use pieces::{MOST_OCTETS, ReadError, piece_room, read_piece, read_whole};
pub use streams::{FlushWrite, StdSink};

/// Why a read gave nothing.
#[derive(Clone, Copy, Debug, PartialEq, Eq, Error)]
pub enum InFault {
    /// The read failed. The count of the name that was read rose, unless it stood at the last value of a `u64`.
    #[error("a read failed")]
    Failed,
    /// Memory ran out. No read was made, and no count changed.
    #[error("no memory")]
    NoMemory,
}

/// A write failed. The sink's count rose, unless it stood at the last value of a `u64`.
#[derive(Clone, Copy, Debug, PartialEq, Eq, Error)]
#[error("a write failed")]
pub struct OutFault;

/// Octets that are read by name and place.
///
/// `content` is what each name holds, if the type says it. `faults` counts the faults of each name; a type may
/// give all names one count. `reads` is all reads that were made, in their order, if the type says them.
pub trait Inputs {
    ghost content: { Self → List ℕ → Option (List ℕ) };

    ghost faults: { Self → List ℕ → ℕ };

    ghost reads: { Self → Option (List Read) };

    /// Reads octets of `name` from the place `at` on, counted in octets from 0, into the first octets of `buf`.
    ///
    /// `Ok(n)` says how many octets were read: as many as the type likes, but 0 only at or past the end or if
    /// `buf` is empty. After an `Err` nothing is said of `buf`.
    fn read(&mut self, name: &str, at: u64, buf: &mut [u8]) -> Result<usize, InFault>
        ensures most { IfOk result (λ n. n ≤ length buf.new) }
        ensures told { IfOk result (λ n. IfSome (content self.old name.now)
            (λ octets. AreAt octets at buf.new n)) }
        ensures same { content self.new ≡ content self.old }
        ensures cause { HasReadCause (faults self.old) (faults self.new) name.now result }
        ensures made { Makes (reads self.old) (reads self.new) (IsOneRead name.now at result) };
}

/// Octets that are written one after another.
///
/// `written` is all that was taken so far, if the type says it. `faults` counts the faults.
pub trait Sink {
    ghost written: { Self → Option (List ℕ) };

    ghost faults: { Self → ℕ };

    /// Takes the first octets of `piece`, and returns how many: at least one, unless `piece` is empty.
    ///
    /// On `Err` none was added to `written`.
    fn write(&mut self, piece: &[u8]) -> Result<usize, OutFault>
        ensures most { IfOk result (λ n. n ≤ length piece.now) }
        ensures some { IfOk result (λ n. 0 < length piece.now → 0 < n) }
        ensures ok { IfOk result (λ n. AddsFront (written self.old)
            (written self.new) piece.now n) }
        ensures err { OnErr result (written self.new ≡ written self.old) }
        ensures cause { HasCause (faults self.old) (faults self.new) result };
}

/// Writes the whole piece, by as many writes as it takes. At the first fault it stops: then the first n octets of
/// the piece were written.
pub fn write_all<S: Sink>(sink: &mut S, piece: &[u8]) -> Result<(), OutFault>
    ensures ok { OnOk result (Adds (S.written sink.old) (S.written sink.new) piece.now) }
    ensures err { OnErr result (AddsSome (S.written sink.old) (S.written sink.new) piece.now) }
    ensures cause { HasCause (S.faults sink.old) (S.faults sink.new) result }
{
    let mut at = 0;
    while at < piece.len() {
        let rest = &piece[at..];
        let n = sink.write(rest)?;
        at += n;
    }
    Ok(())
}

/// Counts one more fault. At the last value of a `u64` the count stays.
fn count_fault(faults: &mut u64)
    ensures value { faults.new ≡ min (faults.old + 1) (2 ^ 64 - 1) }
    ensures later { faults.old ≤ faults.new }
{
    *faults = faults.saturating_add(1);
}
