//! Sinks over standard output and error.
//!
//! Each keeps a count of faults, a `u64`, which it raises at each error, and flushes each write. What became of octets
//! that the system took no contract can say. `FlushWrite` says what a writer may report, and the sink is proved over any:
//! a write adds the first octets that it says it took, and is flushed. What is trusted is the calls of standard output and
//! standard error, which say nothing.

ghost use Rattle.std.specs.Prelude.{◌≡◌, ℕ, ◌≤◌, ◌<◌, List, Option, None, length, take, IfOk, OnErr, OnOk};
ghost use Rattle.std.specs.Io.KnownBytes.{Appends, Keeps};
ghost use Rattle.fib_io.specs.Streams.{writer_of};
ghost use Rattle.fib_io.specs.Causes.{HasCause};
ghost use Rattle.fib_io.specs.Octets.{AddsFront};

use crate::{OutFault, Sink, count_fault};
use std::io::{self, Stderr, Stdout, Write};

/// A writer that says what was flushed, if it says what it took.
pub trait FlushWrite: Write {
    ghost flushed: { Self → Option (List ℕ) };

    /// Lets go of all that was taken.
    fn flush_all(&mut self) -> io::Result<()>
        ensures kept { Keeps (Self.contents self.old) (Self.contents self.new) }
        ensures all { OnOk result (flushed self.new ≡ Self.contents self.new) };
}

impl FlushWrite for Stdout {
    ghost flushed = { λ _. None };

    fn flush_all(&mut self) -> io::Result<()> {
        self.flush()
    }
}

impl FlushWrite for Stderr {
    ghost flushed = { λ _. None };

    fn flush_all(&mut self) -> io::Result<()> {
        self.flush()
    }
}

/// Writes once and flushes.
fn write_through<W: FlushWrite>(inner: &mut W, piece: &[u8]) -> io::Result<usize>
    ensures most { IfOk result (λ n. n ≤ length piece.now) }
    ensures adds { IfOk result
        (λ n. Appends (W.contents inner.old) (W.contents inner.new) (take n piece.now)) }
    ensures flushed { OnOk result (W.flushed inner.new ≡ W.contents inner.new) }
{
    let taken = inner.write(piece)?;
    inner.flush_all()?;
    Ok(taken)
}

/// A writer, flushed within each write. A failed write, a failed flush, an interrupted call of either, and a writer
/// that takes nothing of a piece that isn't empty are faults. After an `Err` some of the piece may have gone out: a
/// flush can fail after the write. So it says nothing of what was written, but that at `Ok` the writer took the first n octets.
#[derive(Drop)]
pub struct StdSink<W: FlushWrite + Drop> {
    inner: W,
    faults: u64,
}

impl<W: FlushWrite + Drop> StdSink<W> {
    /// Writes to this writer, which is standard output or standard error in the program.
    pub fn new(inner: W) -> StdSink<W>
        ensures { ⟦<StdSink<W> as Sink>⟧.faults result ≡ 0 }
    {
        StdSink { inner, faults: 0 }
    }
}

impl<W: FlushWrite + Drop> Sink for StdSink<W> {
    ghost written = { λ _. None };

    ghost faults = { λ s. s.faults };

    fn write(&mut self, piece: &[u8]) -> Result<usize, OutFault>
        ensures most { IfOk result (λ n. n ≤ length piece.now) }
        ensures some { IfOk result (λ n. 0 < length piece.now → 0 < n) }
        ensures ok { IfOk result
            (λ n. AddsFront (⟦<StdSink<W> as Sink>⟧.written self.old)
            (⟦<StdSink<W> as Sink>⟧.written self.new) piece.now n) }
        ensures err { OnErr result
            (⟦<StdSink<W> as Sink>⟧.written self.new ≡ ⟦<StdSink<W> as Sink>⟧.written self.old) }
        ensures cause { HasCause (⟦<StdSink<W> as Sink>⟧.faults self.old)
            (⟦<StdSink<W> as Sink>⟧.faults self.new) result }
        ensures adds { IfOk result
            (λ n. Appends (W.contents (writer_of self.old)) (W.contents (writer_of self.new))
            (take n piece.now)) }
        ensures flushed { OnOk result
            (W.flushed (writer_of self.new) ≡ W.contents (writer_of self.new)) }
    {
        match write_through(&mut self.inner, piece) {
            Ok(taken) if taken > 0 || piece.is_empty() => Ok(taken),
            _ => {
                count_fault(&mut self.faults);
                Err(OutFault)
            }
        }
    }
}
