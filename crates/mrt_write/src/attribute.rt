//! The path attributes of a candidate.

ghost use Rattle.std.specs.Prelude.{◌≡◌, ◌≤◌, ◌<◌, ◌+◌, ◌*◌, ◌^◌, ◌++◌, ◌∷◌, [], length, flat_map, replicate, OnOk};
ghost use Rattle.wire_model.specs.Octets.{number_octets, as_path_octets};
ghost use Rattle.fib_addr.specs.Views.{addr_as};
ghost use Rattle.mrt_write.specs.Views.{as_path_of};
ghost use Rattle.mrt_write.specs.Entries.{path_octets, path_attribute, hop_attribute};

use crate::field::put_addr;
use fib_addr::{Addr, Family};
use std::alloc::AllocError;
use wire_model::{put_behind_length, put_sequence};

/// A path below this is one sequence of less than 256 octets.
pub const SHORT_PATH: u32 = 64;

/// Puts path / 255 sequences of 255, and one of the rest.
fn put_path(asn: u32, path: u32, out: &mut Vec<u8>) -> Result<(), AllocError>
    ensures { OnOk result (out.new.items ≡ out.old.items ++ path_octets asn path) }
{
    for _ in 0..path / 255 {
        put_sequence(asn, 255, out)?;
    }
    let rest = path % 255;
    if rest == 0 {
        return Ok(());
    }
    put_sequence(asn, rest as u8, out)
}

/// Puts an AS_PATH of this value, whose length takes two octets if it doesn't fit into one.
fn put_value(value: &[u8], out: &mut Vec<u8>) -> Result<(), AllocError>
    requires { length value.now < 2 ^ 16 }
    ensures { OnOk result (out.new.items ≡ out.old.items ++ as_path_of value.now) }
{
    if value.len() < 256 {
        out.push(0x40)?;
        out.push(2)?;
        out.push(value.len() as u8)?;
        out.extend_from_slice(value)
    } else {
        out.extend_from_slice(&[0x50, 2])?;
        put_behind_length(value, out)
    }
}

/// Puts the AS_PATH of a path of 1 to 63: one sequence, whose length takes one octet.
fn put_short_path(asn: u32, path: u8, out: &mut Vec<u8>) -> Result<(), AllocError>
    requires some { 0 < path }
    requires short { path < 64 }
    ensures { OnOk result (out.new.items ≡ out.old.items ++ path_attribute asn path) }
{
    out.push(0x40)?;
    out.push(2)?;
    out.push(4 * path + 2)?;
    put_sequence(asn, path, out)
}

/// Puts AS_PATH, none of a path of length 0. There is `value` to put the value of one that isn't short.
pub fn put_as_path(
    asn: u32,
    path: u32,
    value: &mut Vec<u8>,
    out: &mut Vec<u8>,
) -> Result<(), AllocError>
    requires { path ≤ 15000 }
    ensures { OnOk result (out.new.items ≡ out.old.items ++ path_attribute asn path) }
{
    if path == 0 {
        return Ok(());
    }
    if path < SHORT_PATH {
        return put_short_path(asn, path as u8, out);
    }
    value.clear();
    put_path(asn, path, value)?;
    put_value(value, out)
}

/// Puts NEXT_HOP, or for an IPv6 next hop MP_REACH_NLRI in its short form (RFC 6396, section 4.3.4).
pub fn put_hop(hop: &Addr, out: &mut Vec<u8>) -> Result<(), AllocError>
    ensures { OnOk result (out.new.items ≡ out.old.items ++ hop_attribute (addr_as hop.now)) }
{
    match hop.family {
        Family::V4 => {
            out.push(0x40)?;
            out.push(3)?;
            out.push(4)?;
        }
        Family::V6 => out.extend_from_slice(&[0x80, 14, 17, 16])?,
    }
    put_addr(hop, out)
}
