//! The path attributes of an offer.

ghost use Rattle.std.specs.Prelude.{◌≡◌, ◌<◌, ◌≤◌, ◌+◌, ◌++◌, ◌∷◌, [], length, OnOk};
ghost use Rattle.made_input.specs.Drawn as drawn;
ghost use Rattle.wire_model.specs.Octets.{attribute_octets, as_path_octets};
ghost use Rattle.made_input.specs.Files.{attrs_attributes};
ghost use Rattle.made_input.specs.Views.{drawn_attrs_as};

use crate::route::PathAttrs;
use std::alloc::AllocError;
use wire_model::put_sequence;

/// The flags of a well-known attribute: it is transitive (RFC 4271, section 4.3).
const WELL_KNOWN: u8 = 0x40;

/// The types of ORIGIN, AS_PATH and NEXT_HOP (RFC 4271, section 5.1).
const ORIGIN: u8 = 1;

const AS_PATH: u8 = 2;

const NEXT_HOP: u8 = 3;

/// The AS of a peer, one of those for documentation (RFC 5398, section 4).
pub fn peer_as(peer: u8) -> u32
    ensures { result ≡ drawn.made_asn peer }
{
    64_500 + u32::from(peer)
}

/// The address of a peer, one of those for documentation (RFC 5737, section 3).
pub fn peer_octets(peer: u8) -> [u8; 4]
    requires { peer < 8 }
    ensures { result ≡ drawn.peer_octets peer }
{
    [192, 0, 2, 1 + peer]
}

/// A next hop, one of those for documentation (RFC 5737, section 3).
fn hop_octets(hop: u8) -> [u8; 4]
    requires { hop < 16 }
    ensures { result ≡ drawn.hop_octets hop }
{
    [198, 51, 100, 1 + hop]
}

/// Puts an attribute.
fn put_attribute(kind: u8, value: &[u8], out: &mut Vec<u8>) -> Result<(), AllocError>
    requires { length value.now < 256 }
    ensures { OnOk result (out.new.items ≡ out.old.items ++ attribute_octets kind value.now) }
{
    out.extend_from_slice(&[WELL_KNOWN, kind, value.len() as u8])?;
    out.extend_from_slice(value)
}

/// Puts an AS_PATH that has one AS `count` times.
fn put_as_path(asn: u32, count: u8, out: &mut Vec<u8>) -> Result<(), AllocError>
    requires { count ≤ 63 }
    ensures { OnOk result (out.new.items ≡ out.old.items
        ++ attribute_octets 2 (as_path_octets asn count)) }
{
    out.extend_from_slice(&[WELL_KNOWN, AS_PATH, 2 + 4 * count])?;
    put_sequence(asn, count, out)
}

/// Puts the attributes of an offer by a peer: ORIGIN, which is IGP, AS_PATH, NEXT_HOP.
pub fn put_attributes(peer: u8, attrs: &PathAttrs, out: &mut Vec<u8>) -> Result<(), AllocError>
    ensures { OnOk result (out.new.items ≡ out.old.items
        ++ attrs_attributes peer (drawn_attrs_as attrs.now)) }
{
    put_attribute(ORIGIN, &[0], out)?;
    put_as_path(peer_as(peer), attrs.path, out)?;
    put_attribute(NEXT_HOP, &hop_octets(attrs.hop), out)
}
