//! Addresses and prefixes, put after what was written before.

ghost use Rattle.std.specs.Prelude.{◌≡◌, ◌++◌, OnOk};
ghost use Rattle.fib_addr.specs.Views.{addr_as, prefix_as};
ghost use Rattle.wire_model.specs.Octets.{address_octets, prefix_octets};

use fib_addr::{Addr, Family, Prefix};
use std::alloc::AllocError;
use wire_model::{put_bits, put_u32};

/// Puts an address.
pub fn put_addr(addr: &Addr, out: &mut Vec<u8>) -> Result<(), AllocError>
    ensures { OnOk result (out.new.items ≡ out.old.items ++ address_octets (addr_as addr.now)) }
{
    match addr.family {
        Family::V4 => put_u32(addr.bits as u32, out),
        Family::V6 => out.extend_from_slice(&addr.bits.to_be_bytes()),
    }
}

/// Puts a prefix: its length in bits and the octets that hold them (RFC 4271, section 4.3).
pub fn put_prefix(prefix: &Prefix, out: &mut Vec<u8>) -> Result<(), AllocError>
    ensures { OnOk result (out.new.items ≡ out.old.items ++ prefix_octets (prefix_as prefix.now)) }
{
    match prefix.family {
        Family::V4 => put_bits(prefix.len, &(prefix.bits as u32).to_be_bytes(), out),
        Family::V6 => put_bits(prefix.len, &prefix.bits.to_be_bytes(), out),
    }
}
