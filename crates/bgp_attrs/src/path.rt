//! What an AS_PATH says: how long it is, and where the route originates.

ghost use Rattle.std.specs.Prelude.{◌≡◌, ◌+◌, ◌*◌, ◌≤◌, ◌<◌, ◌^◌, length, IfOk};
ghost use Rattle.octet_fields.specs.Gives.{Gives};
ghost use Rattle.wire_model.specs.Path.{segment_length, segment_origin, segment_at, as_size, no_path, path_of, path_length_of, path_origin_of};
ghost use Rattle.bgp_attrs.specs.Views.{path_as};

use crate::Rule;
use byteorder::{BigEndian, ByteOrder};
use octet_fields::{octet, octets};

/// A segment of AS numbers in no order.
const AS_SET: u8 = 1;

/// A segment of AS numbers in the order in which they were passed.
const AS_SEQUENCE: u8 = 2;

/// The greatest segment type (RFC 5065, section 3).
const AS_CONFED_SET: u8 = 4;

/// What an AS_PATH says of a route.
#[derive(Clone, Copy)]
pub struct Path {
    /// How long the path is.
    pub length: u32,
    /// The AS in which the route originates; None if the path doesn't give it.
    pub origin: Option<u32>,
}

impl Path {
    /// A path without segments.
    #[inline(always)]
    pub fn empty() -> Path
        ensures { path_as result ≡ no_path }
    {
        Path {
            length: 0,
            origin: None,
        }
    }
}

/// What a segment counts in the path length.
#[inline(always)]
fn weight_of(kind: u8, count: u8) -> u32
    ensures { result ≡ segment_length kind count }
{
    match kind {
        AS_SEQUENCE => u32::from(count),
        AS_SET => u32::from(count.min(1)),
        _ => 0,
    }
}

/// The origin if this segment is the path's last (RFC 6811, section 2): the last AS number of a sequence.
#[inline(always)]
fn origin_of(kind: u8, count: u8, numbers: &[u8], wide: bool) -> Option<u32>
    requires { length numbers.now ≡ count * as_size wide }
    ensures { result ≡ segment_origin (as_size wide) kind numbers.now }
{
    if kind != AS_SEQUENCE || count == 0 {
        return None;
    }
    if wide {
        Some(BigEndian::read_u32(&numbers[numbers.len() - 4..]))
    } else {
        let last = BigEndian::read_u16(&numbers[numbers.len() - 2..]);
        Some(u32::from(last))
    }
}

/// The path with one segment more, and what follows the segment.
#[tactic(auto, unfolding(wire_model::specs::Path::segment_at))]
#[inline(always)]
fn segment(so_far: Path, bytes: &[u8], wide: bool) -> Result<(Path, &[u8]), Rule>
    requires { so_far.length + length bytes.now < 2 ^ 32 }
    ensures value { Gives (λ x. (path_as x.0, x.1.now)) result (segment_at
        (as_size wide) (path_as so_far) bytes.now) }
    ensures shorter { IfOk result (λ x. length x.1.now < length bytes.now) }
    ensures fits { IfOk result (λ x. x.0.length + length x.1.now
        ≤ so_far.length + length bytes.now) }
{
    let (kind, rest) = octet(Rule::AttributeValue, bytes)?;
    if !matches!(kind, AS_SET..=AS_CONFED_SET) {
        return Err(Rule::AttributeValue);
    }
    let (count, rest) = octet(Rule::AttributeValue, rest)?;
    let size = if wide { 4 } else { 2 };
    let (numbers, rest) = octets(Rule::AttributeValue, usize::from(count) * size, rest)?;
    let path = Path {
        length: so_far.length + weight_of(kind, count),
        origin: origin_of(kind, count, numbers, wide),
    };
    Ok((path, rest))
}

/// What an AS_PATH's value says, whose AS numbers have four octets if it is wide and else two. A wrong segment breaks
/// `AttributeValue`.
///
/// The octets are fewer than 2^32, so that the length fits.
#[inline(always)]
pub fn read_path(bytes: &[u8], wide: bool) -> Result<Path, Rule>
    requires { length bytes.now < 2 ^ 32 }
    ensures { Gives path_as result (path_of (as_size wide) bytes.now) }
{
    let mut path = Path::empty();
    let mut rest = bytes;
    while !rest.is_empty() {
        (path, rest) = segment(path, rest, wide)?;
    }
    Ok(path)
}

/// The path length of an AS_PATH's value, whose AS numbers have four octets if it is wide and else two: the AS numbers
/// in its sequences, and 1 for each set that isn't empty; confederation segments count nothing (RFC 4271, section 9.1.2.2 a;
/// RFC 5065, section 5.3). A wrong segment breaks `AttributeValue`.
///
/// The octets are fewer than 2^32, so that the length fits.
pub fn path_length(bytes: &[u8], wide: bool) -> Result<u32, Rule>
    requires { length bytes.now < 2 ^ 32 }
    ensures { Gives (λ x. x) result (path_length_of (as_size wide) bytes.now) }
{
    Ok(read_path(bytes, wide)?.length)
}

/// The AS in which a route originates by an AS_PATH's value (RFC 6811, section 2): the last AS number of the last segment, if
/// that is a sequence that isn't empty, else none. AS numbers have four octets if the path is wide and else two. A wrong
/// segment breaks `AttributeValue`.
///
/// The octets are fewer than 2^32, so that the path's length fits.
pub fn path_origin(bytes: &[u8], wide: bool) -> Result<Option<u32>, Rule>
    requires { length bytes.now < 2 ^ 32 }
    ensures { Gives (λ x. x) result (path_origin_of (as_size wide) bytes.now) }
{
    Ok(read_path(bytes, wide)?.origin)
}
