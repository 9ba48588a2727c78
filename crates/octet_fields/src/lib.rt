//! Readers of the field with which octets begin, each with its definition. A reader returns a value and what follows it, or the
//! caller's fault if the field is cut.
//!
//! Numbers are big-endian, as MRT (RFC 6396, section 2) and BGP-4 (RFC 4271, section 4) have them, and `byteorder`
//! reads them. The fault is passed by the caller, which knows what a cut means at its place; so the order of the
//! fields is the order of the faults. Each call costs its field alone and takes no memory.
#![tactic(auto)]

ghost use Rattle.std.specs.Prelude.{◌≡◌, ◌+◌, ◌<◌, length, IfOk};
ghost use Rattle.octet_fields.specs.Gives.{Gives};
ghost use Rattle.octet_fields.specs.Field.{octet_at, octets_at, number_at};

use byteorder::{BigEndian, ByteOrder};

/// One octet.
pub fn octet<E: Drop>(fault: E, bytes: &[u8]) -> Result<(u8, &[u8]), E>
    ensures value { Gives (λ x. (x.0, x.1.now)) result (octet_at fault bytes.now) }
    ensures shorter { IfOk result (λ x. length x.1.now < length bytes.now) }
{
    match bytes {
        [first, rest @ ..] => Ok((*first, rest)),
        [] => Err(fault),
    }
}

/// So many octets.
pub fn octets<E: Drop>(fault: E, count: usize, bytes: &[u8]) -> Result<(&[u8], &[u8]), E>
    ensures value { Gives (λ x. (x.0.now, x.1.now)) result (octets_at fault count bytes.now) }
    ensures parts { IfOk result (λ x. length x.0.now + length x.1.now ≡ length bytes.now) }
{
    bytes.split_at_checked(count).ok_or(fault)
}

/// A number of two octets.
pub fn u16_at<E: Drop>(fault: E, bytes: &[u8]) -> Result<(u16, &[u8]), E>
    ensures value { Gives (λ x. (x.0, x.1.now)) result (number_at fault 2 bytes.now) }
    ensures shorter { IfOk result (λ x. length x.1.now < length bytes.now) }
{
    let (front, rest) = octets(fault, 2, bytes)?;
    Ok((BigEndian::read_u16(front), rest))
}

/// A number of four octets.
pub fn u32_at<E: Drop>(fault: E, bytes: &[u8]) -> Result<(u32, &[u8]), E>
    ensures value { Gives (λ x. (x.0, x.1.now)) result (number_at fault 4 bytes.now) }
    ensures shorter { IfOk result (λ x. length x.1.now < length bytes.now) }
{
    let (front, rest) = octets(fault, 4, bytes)?;
    Ok((BigEndian::read_u32(front), rest))
}
