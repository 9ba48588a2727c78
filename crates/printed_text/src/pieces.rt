//! Printed texts that come in pieces.

ghost use Rattle.std.specs.Prelude.{◌≡◌, ◌<◌, ◌≤◌, ◌+◌, ◌^◌, ◌++◌, List, [], ℕ, length, IfOk};
ghost use Rattle.fib_addr.specs.Hops.{most_hops};

use crate::error::{BadRow, PrintedError};
use crate::printed::Printed;
use bstr::ByteSlice;
use std::alloc::{AllocError, Global};

/// What is read of a text that comes in pieces. Lines are read once a piece ends one; in memory is what a checker uses, and the
/// octets of the line that hasn't ended yet.
#[derive(Drop)]
pub struct PrintedReader {
    // What a checker uses of the lines that have ended.
    printed: Printed,
    // The octets after these lines.
    held: Vec<u8>,
    // How many lines have ended.
    lines: u64,
    ghost few: { length printed.hops.list ≤ most_hops },
    ghost counted: { lines + length held.items < 2 ^ 64 },
}

/// A printed text that comes in pieces: what is read of it so far, or its first bad line, which is kept until the text was fed to
/// its end.
#[derive(Drop)]
pub enum TextReader {
    /// No line that has ended is bad.
    Reading(PrintedReader),
    /// The first bad line.
    Refused(BadRow),
}

impl PrintedReader {
    ghost use Rattle.printed_text.specs.Pieces.{PrintedFed, PrintedStands, most_lines_read};
    ghost use Rattle.printed_text.specs.Printed.{IsRead};
    ghost use Rattle.printed_text.specs.Used.{printed_in};

    /// A reader that was fed nothing.
    fn new(alloc: Global) -> PrintedReader
        ensures none { most_lines_read result ≡ 0 }
        ensures stands { PrintedStands [] result }
    {
        PrintedReader {
            printed: Printed::new(alloc),
            held: Vec::new(alloc),
            lines: 0,
        }
    }

    /// Takes the next octets, and reads each line that ends among them. It costs their number and that of the octets held.
    fn feed(self, piece: &[u8]) -> Result<PrintedReader, PrintedError>
        requires { most_lines_read self + length piece.now < 2 ^ 64 }
        ensures counts { IfOk result
            (λ next. most_lines_read next ≤ most_lines_read self + length piece.now) }
        ensures stands { (fed : List ℕ) → PrintedStands fed self
            → PrintedFed (fed ++ piece.now) result }
    {
        let PrintedReader {
            mut printed,
            mut held,
            lines,
        } = self;
        let Some(last) = piece.rfind_byte(b'\n') else {
            held.extend_from_slice(piece)?;
            return Ok(PrintedReader {
                printed,
                held,
                lines,
            });
        };
        let (ended, rest) = piece.split_at(last + 1);
        held.extend_from_slice(ended)?;
        let lines = printed.take_lines(lines, &held)?;
        held.clear();
        held.extend_from_slice(rest)?;
        Ok(PrintedReader {
            printed,
            held,
            lines,
        })
    }

    /// Ends the text: octets after the last line feed are a line.
    fn finish(self) -> Result<Printed, PrintedError>
        ensures { (fed : List ℕ) → PrintedStands fed self → IsRead result (printed_in fed) }
    {
        let PrintedReader {
            mut printed,
            held,
            lines,
        } = self;
        printed.take_lines(lines, &held)?;
        Ok(printed)
    }
}

impl TextReader {
    ghost use Rattle.printed_text.specs.Pieces.{TextStands, most_lines};
    ghost use Rattle.printed_text.specs.Printed.{IsRead};
    ghost use Rattle.printed_text.specs.Used.{printed_in};

    /// A reader that was fed nothing.
    pub fn new(alloc: Global) -> TextReader
        ensures none { most_lines result ≡ 0 }
        ensures stands { TextStands [] result }
    {
        TextReader::Reading(PrintedReader::new(alloc))
    }

    /// Takes the next octets of the text, which has fewer than 2^64 in all, so that its lines can be counted. It costs their number
    /// and that of the line that hasn't ended. After a bad line it takes all octets.
    ///
    /// # Errors
    ///
    /// Out of memory.
    pub fn feed(self, piece: &[u8]) -> Result<TextReader, AllocError>
        requires { most_lines self + length piece.now < 2 ^ 64 }
        ensures counts { IfOk result (λ next. most_lines next ≤ most_lines self + length piece.now) }
        ensures stands { IfOk result (λ next. (fed : List ℕ) → TextStands fed self
            → TextStands (fed ++ piece.now) next) }
    {
        match self {
            TextReader::Refused(bad) => Ok(TextReader::Refused(bad)),
            TextReader::Reading(reader) => match reader.feed(piece) {
                Ok(reader) => Ok(TextReader::Reading(reader)),
                Err(PrintedError::BadRow(bad)) => Ok(TextReader::Refused(bad)),
                Err(PrintedError::NoMemory) => Err(AllocError),
            },
        }
    }

    /// Ends the text, and returns what a checker uses of it.
    ///
    /// # Errors
    ///
    /// The first line that is no row, or whose hop is one too many; or out of memory.
    pub fn finish(self) -> Result<Printed, PrintedError>
        ensures { (fed : List ℕ) → TextStands fed self → IsRead result (printed_in fed) }
    {
        match self {
            TextReader::Reading(reader) => reader.finish(),
            TextReader::Refused(bad) => Err(PrintedError::BadRow(bad)),
        }
    }
}
