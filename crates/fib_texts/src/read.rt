//! A printed text, read in pieces.

ghost use Rattle.std.specs.Prelude.{◌≡◌, ◌<◌, ◌≤◌, List, ℕ, length, IfErr, IfOk, IfSome, IsErrOf};
ghost use Rattle.fib_io.specs.Pieces.{IsReadOf};
ghost use Rattle.fib_io.specs.Reads.{Makes, Pass, whole_end};
ghost use Rattle.printed_text.specs.Pieces.{TextStands};
ghost use Rattle.printed_text.specs.Used.{printed_in};
ghost use Rattle.fib_texts.specs.Reads.{text_as};

use fib_io::{Inputs, MOST_OCTETS, ReadError, piece_room, read_piece};
use printed_text::{BadRow, Printed, PrintedError, TextReader};
use std::alloc::Global;

/// What a check uses of a text that was read to its end, or its first bad line.
pub type ReadText = Result<Printed, BadRow>;

/// Ends a text.
fn finish(reader: TextReader) -> Result<ReadText, ReadError>
    ensures text { IfOk result (λ text. (fed : List ℕ) → TextStands fed reader
        → printed_in fed ≡ text_as text) }
    ensures none { IfErr result (λ error. error ≡ ReadError.NoMemory) }
{
    match reader.finish() {
        Ok(printed) => Ok(Ok(printed)),
        Err(PrintedError::BadRow(bad)) => Ok(Err(bad)),
        Err(PrintedError::NoMemory) => Err(ReadError::NoMemory),
    }
}

/// The text of this name, read through this room.
fn read_through<I: Inputs>(
    alloc: Global,
    inputs: &mut I,
    name: &str,
    room: &mut [u8],
) -> Result<ReadText, ReadError>
    requires { 0 < length room.old }
    ensures text { IfOk result (λ text. IfSome (I.content inputs.old name.now)
        (λ octets. printed_in octets ≡ text_as text)) }
    ensures most { IfOk result (λ _. IfSome (I.content inputs.old name.now)
        (λ octets. length octets ≤ MOST_OCTETS)) }
    ensures large { IsErrOf result ReadError.TooLarge → IfSome (I.content inputs.old name.now)
        (λ octets. MOST_OCTETS < length octets) }
    ensures same { I.content inputs.new ≡ I.content inputs.old }
    ensures cause { IsReadOf (I.faults inputs.old) (I.faults inputs.new) name.now result }
    ensures made { Makes (I.reads inputs.old) (I.reads inputs.new)
        (Pass (whole_end result) name.now) }
{
    let mut reader = TextReader::new(alloc);
    let mut at = 0;
    loop {
        let n = read_piece(inputs, name, at, room)?;
        if n == 0 {
            return finish(reader);
        }
        reader = reader.feed(&room[..n])?;
        at += n as u64;
    }
}

/// The text of this name, of at most 2^36 octets, which is read to its end. In memory are what a check uses of the lines so far, a
/// piece of it, and the line that hasn't ended.
pub fn read_text<I: Inputs>(
    alloc: Global,
    inputs: &mut I,
    name: &str,
) -> Result<ReadText, ReadError>
    ensures text { IfOk result (λ text. IfSome (I.content inputs.old name.now)
        (λ octets. printed_in octets ≡ text_as text)) }
    ensures most { IfOk result (λ _. IfSome (I.content inputs.old name.now)
        (λ octets. length octets ≤ MOST_OCTETS)) }
    ensures large { IsErrOf result ReadError.TooLarge → IfSome (I.content inputs.old name.now)
        (λ octets. MOST_OCTETS < length octets) }
    ensures same { I.content inputs.new ≡ I.content inputs.old }
    ensures cause { IsReadOf (I.faults inputs.old) (I.faults inputs.new) name.now result }
    ensures made { Makes (I.reads inputs.old) (I.reads inputs.new)
        (Pass (whole_end result) name.now) }
{
    let mut room = piece_room(alloc)?;
    read_through(alloc, inputs, name, &mut room)
}
