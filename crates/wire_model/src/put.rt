//! Fields, each put after what was written before it. The few octets of a number are pushed one by one, which costs a third of
//! what a copy of so few does.

ghost use Rattle.std.specs.Prelude.{◌≡◌, ◌<◌, ◌≤◌, ◌++◌, ◌∷◌, ◌^◌, length, take, OnOk};
ghost use Rattle.wire_model.specs.Wire.{octets_for};
ghost use Rattle.wire_model.specs.Octets.{number_octets, behind_length, as_path_octets, record_octets};

use std::alloc::AllocError;

/// The segment type of an AS_SEQUENCE (RFC 4271, section 4.3).
const AS_SEQUENCE: u8 = 2;

/// Puts a number in two octets.
pub fn put_u16(number: u16, out: &mut Vec<u8>) -> Result<(), AllocError>
    ensures { OnOk result (out.new.items ≡ out.old.items ++ number_octets 2 number) }
{
    let octets = number.to_be_bytes();
    out.push(octets[0])?;
    out.push(octets[1])?;
    Ok(())
}

/// Puts a number in four octets.
pub fn put_u32(number: u32, out: &mut Vec<u8>) -> Result<(), AllocError>
    ensures { OnOk result (out.new.items ≡ out.old.items ++ number_octets 4 number) }
{
    let octets = number.to_be_bytes();
    out.push(octets[0])?;
    out.push(octets[1])?;
    out.push(octets[2])?;
    out.push(octets[3])?;
    Ok(())
}

/// Puts octets after their number in two octets.
pub fn put_behind_length(part: &[u8], out: &mut Vec<u8>) -> Result<(), AllocError>
    requires { length part.now < 2 ^ 16 }
    ensures { OnOk result (out.new.items ≡ out.old.items ++ behind_length part.now) }
{
    put_u16(part.len() as u16, out)?;
    out.extend_from_slice(part)
}

/// Puts a prefix of `len` bits: the length, then the octets of its address that hold them (RFC 4271, section 4.3).
pub fn put_bits(len: u8, address: &[u8], out: &mut Vec<u8>) -> Result<(), AllocError>
    requires { octets_for len ≤ length address.now }
    ensures { OnOk result (out.new.items
        ≡ out.old.items ++ len ∷ take (octets_for len) address.now) }
{
    out.push(len)?;
    out.extend_from_slice(&address[..usize::from(len.div_ceil(8))])
}

/// Puts an AS_SEQUENCE that has one AS `count` times, each in four octets (RFC 4271, section 4.3).
pub fn put_sequence(asn: u32, count: u8, out: &mut Vec<u8>) -> Result<(), AllocError>
    ensures { OnOk result (out.new.items ≡ out.old.items ++ as_path_octets asn count) }
{
    out.push(AS_SEQUENCE)?;
    out.push(count)?;
    for _ in 0..count {
        put_u32(asn, out)?;
    }
    Ok(())
}

/// Puts an MRT record of time 0 (RFC 6396, section 2).
pub fn put_record(kind: u16, subtype: u16, body: &[u8], out: &mut Vec<u8>) -> Result<(), AllocError>
    requires { length body.now < 2 ^ 32 }
    ensures { OnOk result (out.new.items ≡ out.old.items ++ record_octets kind subtype body.now) }
{
    put_u32(0, out)?;
    put_u16(kind, out)?;
    put_u16(subtype, out)?;
    put_u32(body.len() as u32, out)?;
    out.extend_from_slice(body)
}
