//! Addresses.

ghost use Rattle.std.specs.Prelude.{◌≡◌, ◌^◌, ◌*◌, ◌<◌, length};
ghost use Rattle.table_model.specs.Width.{width};

use byteorder::{BigEndian, ByteOrder};
use table_model::Family;

/// An address: the number of its bits, below 2 to the family's width.
#[derive(Clone, Copy, Debug, PartialEq, Eq, PartialOrd, Ord, Hash)]
pub struct Addr {
    /// The family.
    pub family: Family,
    /// The bits as a number.
    pub bits: u128,
    ghost below: { bits < 2 ^ width family },
}

impl Addr {
    ghost use Rattle.table_model.specs.Bits.{bits_of, octet_bits};
    ghost use Rattle.table_model.specs.declared.family.Family.TheVariants.{V4, V6};
    ghost use Rattle.fib_addr.specs.Views.{addr_as};

    /// The IPv4 address of these bits.
    pub fn v4(bits: u32) -> Addr
        ensures { addr_as result ≡ record { family = V4; bits = bits_of 32 bits } }
    {
        Addr {
            family: Family::V4,
            bits: u128::from(bits),
        }
    }

    /// The IPv6 address of these bits.
    pub fn v6(bits: u128) -> Addr
        ensures { addr_as result ≡ record { family = V6; bits = bits_of 128 bits } }
    {
        Addr {
            family: Family::V6,
            bits,
        }
    }

    /// The address in as many octets as the family's addresses have, the highest first.
    pub fn from_octets(family: Family, octets: &[u8]) -> Addr
        requires { 8 * length octets.now ≡ width family }
        ensures { addr_as result ≡ record { family = family; bits = octet_bits octets.now } }
    {
        Addr {
            family,
            bits: BigEndian::read_uint128(octets, octets.len()),
        }
    }
}
