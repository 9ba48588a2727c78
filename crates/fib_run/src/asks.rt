//! The addresses that are asked for: one on each line that isn't empty.

ghost use Rattle.std.specs.Prelude.{◌≡◌, ◌+◌, ◌++◌, ◌^◌, ◌<◌, List, [], ℕ, length, map};
ghost use Rattle.fib_addr.specs.Views.{addr_as};
ghost use Rattle.printed_text.specs.Texts.{line_texts};
ghost use Rattle.fib_due.specs.Asks.{asks_in};
ghost use Rattle.fib_run.specs.Asking.{AsksFed, AsksFrom, AsksStand, BringsAsks, ReadsLines, ask_of_input};
ghost use Rattle.fib_io.specs.Reads.{Makes, PassInTime};
ghost use Rattle.fib_due.specs.Due.{told_asks};
ghost use Rattle.fib_due.specs.InTime.{AsksMayGoOn};
ghost use Rattle.fib_run.specs.Feeds.{ask_end};
ghost use Rattle.fib_run.specs.Reads.{IsList};
ghost use Rattle.fib_run.specs.declared.asks.AskError.TheVariants.{NoMemory};

use bstr::ByteSlice;
use fib_io::{Inputs, ReadError, piece_room, read_piece};
use fib_prefix::{Addr, read_addr};
use std::alloc::{AllocError, AllocFailed, Global};
use thiserror::Error;

/// Why asks weren't read.
#[derive(Clone, Copy, Debug, PartialEq, Eq, Error)]
pub enum AskError {
    /// This line, counted from 1, is neither empty nor an address.
    #[error("line {0} is no address")]
    BadLine(u64),
    /// Memory ran out.
    #[error("no memory")]
    NoMemory,
    /// A read failed.
    #[error("a read failed")]
    Fault,
    /// The input has more than 2^36 octets.
    #[error("too large")]
    TooLarge,
}

impl From<ReadError> for AskError {
    ghost from_gives = { λ error e. e ≡ ask_of_input error };

    fn from(error: ReadError) -> AskError {
        match error {
            ReadError::Fault => AskError::Fault,
            ReadError::TooLarge => AskError::TooLarge,
            ReadError::NoMemory => AskError::NoMemory,
        }
    }
}

impl From<AllocError> for AskError {
    ghost from_gives = { λ _ e. e ≡ NoMemory };

    fn from(_e: AllocError) -> AskError {
        AskError::NoMemory
    }
}

impl<T: Drop> From<AllocFailed<T>> for AskError {
    ghost from_gives = { λ _ e. e ≡ NoMemory };

    fn from(_e: AllocFailed<T>) -> AskError {
        AskError::NoMemory
    }
}

/// Reads the addresses of a text's lines, after those of `lines` lines before it, and counts the lines on.
fn read_lines(text: &[u8], asks: &mut Vec<Addr>, lines: &mut u64) -> Result<(), AskError>
    requires { lines.old + length text.now < 2 ^ 64 }
    ensures { ReadsLines (map addr_as asks.old.items) lines.old (line_texts text.now)
        result (map addr_as asks.new.items) lines.new }
{
    for line in text.lines() {
        *lines += 1;
        if !line.is_empty() {
            let Some(ask) = read_addr(line) else {
                return Err(AskError::BadLine(*lines));
            };
            asks.push(ask)?;
        }
    }
    Ok(())
}

/// The asks of octets that come in pieces. Each line is read once it has its line feed; in memory are the addresses, and the
/// octets of the line that has none yet.
#[derive(Drop)]
pub struct AskReader {
    // The addresses of the lines that have ended.
    asks: Vec<Addr>,
    // The octets after these lines.
    held: Vec<u8>,
    // How many lines have ended.
    lines: u64,
}

impl AskReader {
    /// A reader that was fed nothing.
    fn new(alloc: Global) -> AskReader
        ensures { AsksStand [] result }
    {
        AskReader {
            asks: Vec::new(alloc),
            held: Vec::new(alloc),
            lines: 0,
        }
    }

    /// Takes the next octets, and reads each line that ends among them. It costs their number and, if a line ends, that
    /// of the octets held. After an `Err` the reader is of no use.
    fn feed(&mut self, piece: &[u8]) -> Result<(), AskError>
        requires { self.old.lines + length self.old.held.items + length piece.now < 2 ^ 64 }
        ensures { (fed : List ℕ) → AsksStand fed self.old
            → AsksFed (fed ++ piece.now) result self.new }
    {
        let Some(last) = piece.rfind_byte(b'\n') else {
            self.held.extend_from_slice(piece)?;
            return Ok(());
        };
        let (ended, rest) = piece.split_at(last + 1);
        self.held.extend_from_slice(ended)?;
        read_lines(&self.held, &mut self.asks, &mut self.lines)?;
        self.held.clear();
        self.held.extend_from_slice(rest)?;
        Ok(())
    }

    /// Ends the input, and returns the addresses: octets after the last line feed are a line.
    fn finish(self) -> Result<Vec<Addr>, AskError>
        requires { self.lines + length self.held.items < 2 ^ 64 }
        ensures { (fed : List ℕ) → AsksStand fed self
            → IsList (λ asks. map addr_as asks.items) result (asks_in fed) }
    {
        let AskReader {
            mut asks,
            held,
            mut lines,
        } = self;
        read_lines(&held, &mut asks, &mut lines)?;
        Ok(asks)
    }
}

/// Reads the asks through this room: each line, as soon as it has its line feed, before the next read.
fn read_through<I: Inputs>(
    alloc: Global,
    inputs: &mut I,
    name: &str,
    room: &mut [u8],
) -> Result<Vec<Addr>, AskError>
    requires { 0 < length room.old }
    ensures brings { BringsAsks result (told_asks (I.content inputs.old name.now)) }
    ensures same { I.content inputs.new ≡ I.content inputs.old }
    ensures cause { AsksFrom (I.faults inputs.old) (I.faults inputs.new) name.now result }
    ensures reads { Makes (I.reads inputs.old) (I.reads inputs.new)
        (PassInTime (I.content inputs.old name.now) AsksMayGoOn (ask_end result) name.now) }
{
    let mut reader = AskReader::new(alloc);
    let mut at = 0;
    loop {
        let n = read_piece(inputs, name, at, room)?;
        if n == 0 {
            return reader.finish();
        }
        reader.feed(&room[..n])?;
        at += n as u64;
    }
}

/// Reads the asks of an input in pieces: each line is judged before the next read, if it has its line feed, and the last
/// at the input's end. It costs the octets read; in memory are the asks, one line and one piece.
pub fn read_asks<I: Inputs>(
    alloc: Global,
    inputs: &mut I,
    name: &str,
) -> Result<Vec<Addr>, AskError>
    ensures brings { BringsAsks result (told_asks (I.content inputs.old name.now)) }
    ensures same { I.content inputs.new ≡ I.content inputs.old }
    ensures cause { AsksFrom (I.faults inputs.old) (I.faults inputs.new) name.now result }
    ensures reads { Makes (I.reads inputs.old) (I.reads inputs.new)
        (PassInTime (I.content inputs.old name.now) AsksMayGoOn (ask_end result) name.now) }
{
    let mut room = piece_room(alloc)?;
    read_through(alloc, inputs, name, &mut room)
}
