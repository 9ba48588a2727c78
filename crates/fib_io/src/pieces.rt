//! An input, read in pieces from its start on.

ghost use Rattle.std.specs.Prelude.{◌≡◌, ◌≤◌, ◌<◌, ◌+◌, length, IfOk, IfSome, IsErrOf};
ghost use Rattle.fib_io.specs.Causes.{HasReadCause};
ghost use Rattle.fib_io.specs.Octets.{AreAt};
ghost use Rattle.fib_io.specs.Pieces.{ComeNext, IsEnd, IsLarge, IsReadOf, refusal_of};
ghost use Rattle.fib_io.specs.Reads.{IsPieceRead, IsOneRead, Makes, Pass, whole_end};
ghost use Rattle.fib_io.specs.declared.pieces.ReadError.TheVariants.{NoMemory};

use crate::{InFault, Inputs};
use std::alloc::{AllocError, AllocFailed, Global};
use thiserror::Error;

/// The most octets of an input.
pub const MOST_OCTETS: u64 = 1 << 36;

/// The most octets of a piece.
const MOST_PIECE: usize = 65_536;

/// Why an input wasn't read to its end.
#[derive(Clone, Copy, Debug, PartialEq, Eq, Error)]
pub enum ReadError {
    /// A read failed.
    #[error("a read failed")]
    Fault,
    /// It has more than 2^36 octets.
    #[error("too large")]
    TooLarge,
    /// Memory ran out.
    #[error("no memory")]
    NoMemory,
}

impl From<InFault> for ReadError {
    ghost from_gives = { λ fault e. e ≡ refusal_of fault };

    fn from(fault: InFault) -> ReadError {
        match fault {
            InFault::Failed => ReadError::Fault,
            InFault::NoMemory => ReadError::NoMemory,
        }
    }
}

impl From<AllocError> for ReadError {
    ghost from_gives = { λ _ e. e ≡ NoMemory };

    fn from(_e: AllocError) -> ReadError {
        ReadError::NoMemory
    }
}

impl<T: Drop> From<AllocFailed<T>> for ReadError {
    ghost from_gives = { λ _ e. e ≡ NoMemory };

    fn from(_e: AllocFailed<T>) -> ReadError {
        ReadError::NoMemory
    }
}

/// Room for a piece: 65,536 octets.
pub fn piece_room(alloc: Global) -> Result<Vec<u8>, AllocError>
    ensures { IfOk result (λ room. 0 < length room.items) }
{
    vec![in alloc; 0u8; MOST_PIECE]
}

/// Reads once, into the buffer's first octets; a read that begins before octet 2^36 doesn't cross it.
fn read_within<I: Inputs>(
    inputs: &mut I,
    name: &str,
    at: u64,
    buf: &mut [u8],
) -> Result<usize, InFault>
    requires some { 0 < length buf.old }
    requires within { at ≤ MOST_OCTETS }
    ensures most { IfOk result (λ n. n ≤ length buf.new) }
    ensures small { IfOk result (λ n. at < MOST_OCTETS → at + n ≤ MOST_OCTETS) }
    ensures told { IfOk result
        (λ n. IfSome (I.content inputs.old name.now) (λ octets. AreAt octets at buf.new n)) }
    ensures some { 0 < length buf.new }
    ensures same { I.content inputs.new ≡ I.content inputs.old }
    ensures cause { HasReadCause (I.faults inputs.old) (I.faults inputs.new) name.now result }
    ensures made { Makes (I.reads inputs.old) (I.reads inputs.new) (IsOneRead name.now at result) }
{
    let left = MOST_OCTETS - at;
    if 0 < left && left < buf.len() as u64 {
        inputs.read(name, at, &mut buf[..left as usize])
    } else {
        inputs.read(name, at, buf)
    }
}

/// Reads the octets that come next, from the place `at` on, into the first octets of the room, and returns how many: 0 at the
/// input's end.
///
/// Octets are read up to octet 2^36 and no further: if all of these were read, one more read says whether the input ends
/// there or is too large.
pub fn read_piece<I: Inputs>(
    inputs: &mut I,
    name: &str,
    at: u64,
    room: &mut [u8],
) -> Result<usize, ReadError>
    requires some { 0 < length room.old }
    requires within { at ≤ MOST_OCTETS }
    ensures some { 0 < length room.new }
    ensures most { IfOk result (λ n. n ≤ length room.new) }
    ensures within { IfOk result (λ n. at + n ≤ MOST_OCTETS) }
    ensures comes { IfOk result (λ n. IfSome (I.content inputs.old name.now)
        (λ octets. ComeNext octets at room.new n)) }
    ensures end { IfOk result (λ n. n ≡ 0 → IfSome (I.content inputs.old name.now)
        (λ octets. IsEnd octets at)) }
    ensures large { IsErrOf result ReadError.TooLarge → IfSome (I.content inputs.old name.now)
        (λ octets. IsLarge octets at) }
    ensures same { I.content inputs.new ≡ I.content inputs.old }
    ensures cause { IsReadOf (I.faults inputs.old) (I.faults inputs.new) name.now result }
    ensures made { Makes (I.reads inputs.old) (I.reads inputs.new)
        (IsPieceRead name.now at result) }
{
    let n = read_within(inputs, name, at, room)?;
    if 0 < n && at == MOST_OCTETS {
        return Err(ReadError::TooLarge);
    }
    Ok(n)
}

/// All octets of an input, read through this room.
fn read_through<I: Inputs>(
    alloc: Global,
    inputs: &mut I,
    name: &str,
    room: &mut [u8],
) -> Result<Vec<u8>, ReadError>
    requires { 0 < length room.old }
    ensures whole { IfOk result
        (λ v. IfSome (I.content inputs.old name.now) (λ octets. v.items ≡ octets)) }
    ensures most { IfOk result (λ v. length v.items ≤ MOST_OCTETS) }
    ensures large { IsErrOf result ReadError.TooLarge → IfSome (I.content inputs.old name.now)
        (λ octets. MOST_OCTETS < length octets) }
    ensures same { I.content inputs.new ≡ I.content inputs.old }
    ensures cause { IsReadOf (I.faults inputs.old) (I.faults inputs.new) name.now result }
    ensures made { Makes (I.reads inputs.old) (I.reads inputs.new)
        (Pass (whole_end result) name.now) }
{
    let mut octets = Vec::new(alloc);
    loop {
        let at = octets.len() as u64;
        let n = read_piece(inputs, name, at, room)?;
        if n == 0 {
            return Ok(octets);
        }
        octets.extend_from_slice(&room[..n])?;
    }
}

/// All octets of an input, at most 2^36, read in pieces of at most 65,536.
pub fn read_whole<I: Inputs>(
    alloc: Global,
    inputs: &mut I,
    name: &str,
) -> Result<Vec<u8>, ReadError>
    ensures whole { IfOk result
        (λ v. IfSome (I.content inputs.old name.now) (λ octets. v.items ≡ octets)) }
    ensures most { IfOk result (λ v. length v.items ≤ MOST_OCTETS) }
    ensures large { IsErrOf result ReadError.TooLarge → IfSome (I.content inputs.old name.now)
        (λ octets. MOST_OCTETS < length octets) }
    ensures same { I.content inputs.new ≡ I.content inputs.old }
    ensures cause { IsReadOf (I.faults inputs.old) (I.faults inputs.new) name.now result }
    ensures made { Makes (I.reads inputs.old) (I.reads inputs.new)
        (Pass (whole_end result) name.now) }
{
    let mut room = piece_room(alloc)?;
    read_through(alloc, inputs, name, &mut room)
}
