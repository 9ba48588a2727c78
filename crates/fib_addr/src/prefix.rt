//! Prefixes.

ghost use Rattle.std.specs.Prelude.{◌≡◌, ◌==◌, ◌≤◌, ◌+◌, ◌-◌, ◌*◌, ◌/◌, ◌%◌, ◌^◌, ◌<◌, [], if◌then◌else◌, length, take};
ghost use Rattle.std.specs.Int as Int;
ghost use Rattle.table_model.specs.Bits.{bits_of, octet_bits};
ghost use Rattle.table_model.specs.Width.{width};

use crate::addr::Addr;
use byteorder::{BigEndian, ByteOrder};
use std::cmp::Ordering;
use table_model::Family;

/// A prefix: its first `len` bits filled with zeros as a number. Prefixes are ordered by family, then by that number, then
/// the shorter first. The number stands first here, so that a prefix takes 32 octets.
#[derive(Clone, Copy, Debug, PartialEq, Eq, Hash)]
pub struct Prefix {
    /// The bits as a number; those past the length are 0.
    pub bits: u128,
    /// The family.
    pub family: Family,
    /// How many bits it has, at most the family's width.
    pub len: u8,
    ghost fits: { len ≤ width family },
    ghost below: { bits < 2 ^ width family },
    ghost cleared: { bits % 2 ^ (width family - len) ≡ 0 },
}

impl Ord for Prefix {
    ghost use Rattle.std.proofs.Common.{refl};
    ghost use Rattle.fib_addr.specs.Order.{code_cmp};
    ghost use Rattle.fib_addr.specs.OrderLaws.{code_total, tied};

    ghost cmp = { code_cmp };

    ghost total = { code_total };

    ghost matches_partial_cmp = { λ p q. refl };

    ghost matches_eq = { tied };

    #[tactic(auto, using(table_model::proofs::Families::family_order))]
    fn cmp(&self, other: &Prefix) -> Ordering {
        match self.family.cmp(&other.family) {
            Ordering::Equal => match self.bits.cmp(&other.bits) {
                Ordering::Equal => self.len.cmp(&other.len),
                order => order,
            },
            order => order,
        }
    }
}

impl PartialOrd for Prefix {
    ghost use Rattle.std.specs.Ordering.{as_partial_cmp};
    ghost use Rattle.std.specs.Cmp.{po};
    ghost use Rattle.fib_addr.specs.Order.{code_cmp};
    ghost use Rattle.fib_addr.specs.OrderLaws.{code_total, tied};

    ghost partial_cmp = { as_partial_cmp code_cmp };

    ghost laws = { po code_total tied };

    fn partial_cmp(&self, other: &Prefix) -> Option<Ordering> {
        Some(self.cmp(other))
    }
}

/// The bits without the lowest `unused` ones.
fn upper(bits: u128, unused: u8) -> u128
    requires { unused ≤ 128 }
    ensures { result ≡ bits / 2 ^ unused }
{
    bits.unbounded_shr(u32::from(unused))
}

/// The bits with the lowest `unused` ones cleared.
fn clear_low(bits: u128, unused: u8) -> u128
    requires { unused ≤ 128 }
    ensures { result ≡ bits / 2 ^ unused * 2 ^ unused }
{
    upper(bits, unused).unbounded_shl(u32::from(unused))
}

/// The first `len` bits of octets, as the first of `width` bits.
fn front_bits(octets: &[u8], len: u8, width: u8) -> u128
    requires fits { len ≤ width }
    requires wide { width ≤ 128 }
    requires hold { length octets.now ≡ (len + 7) / 8 }
    ensures bits { take len (bits_of width result) ≡ take len (octet_bits octets.now) }
    ensures below { result < 2 ^ width }
    ensures cleared { result % 2 ^ (width - len) ≡ 0 }
{
    if len == 0 {
        return 0;
    }
    let number = BigEndian::read_uint128(octets, octets.len());
    let unused = 8 * octets.len() - usize::from(len);
    (number >> unused) << (width - len)
}

/// The bits with this one at a place, counted from the lowest, that has only zeros from it down.
fn with_bit(bits: u128, place: u8, bit: bool) -> u128
    requires within { place < 128 }
    requires cleared { bits % 2 ^ (place + 1) ≡ 0 }
    ensures { result ≡ bits + (if bit then 2 ^ place else 0) }
{
    if bit { bits + (1 << place) } else { bits }
}

/// The bit at a place, counted from the lowest, which is place 0.
pub fn bit_at(bits: u128, place: u8) -> bool
    requires { place < 128 }
    ensures { result ≡ (Int.bit_at bits place == 1) }
{
    (bits >> place) & 1 == 1
}

impl Prefix {
    ghost use Rattle.table_model.specs.Address.{contains, first_bits};
    ghost use Rattle.table_model.specs.Halves.{half_at, is_within};
    ghost use Rattle.fib_addr.specs.Views.{addr_as, prefix_as};
    ghost use Rattle.fib_addr.specs.Text.{first_address};

    /// The prefix of all addresses of the family.
    pub fn whole(family: Family) -> Prefix
        ensures { prefix_as result ≡ record { family = family; bits = [] } }
    {
        Prefix {
            family,
            bits: 0,
            len: 0,
        }
    }

    /// The first `len` bits of an address.
    pub fn new(addr: &Addr, len: u8) -> Prefix
        requires { len ≤ width addr.now.family }
        ensures { prefix_as result ≡ first_bits len (addr_as addr.now) }
    {
        let bits = clear_low(addr.bits, addr.family.width() - len);
        Prefix {
            family: addr.family,
            bits,
            len,
        }
    }

    /// The prefix in the fewest octets that hold its `len` bits, the highest first; bits past the length have no meaning.
    pub fn from_front(family: Family, len: u8, octets: &[u8]) -> Prefix
        requires fits { len ≤ width family }
        requires hold { length octets.now ≡ (len + 7) / 8 }
        ensures { prefix_as result ≡ record {
          family = family;
          bits = take len
              (octet_bits octets.now);
        } }
    {
        let bits = front_bits(octets, len, family.width());
        Prefix { family, bits, len }
    }

    /// Whether the address begins with the prefix.
    pub fn contains(&self, addr: &Addr) -> bool
        ensures { result ≡ contains (prefix_as self.now) (addr_as addr.now) }
    {
        let unused = self.family.width() - self.len;
        self.family == addr.family && upper(self.bits, unused) == upper(addr.bits, unused)
    }

    /// The first address of the prefix's region: its bits, and zeros past its length.
    pub fn first_addr(&self) -> Addr
        ensures { addr_as result ≡ first_address (prefix_as self.now) }
    {
        Addr {
            family: self.family,
            bits: self.bits,
        }
    }

    /// Whether the prefix's region is within the other's: whether it begins with its bits. A prefix is within itself.
    pub fn is_within(&self, prefix: &Prefix) -> bool
        ensures { result ≡ is_within (prefix_as self.now) (prefix_as prefix.now) }
    {
        prefix.len <= self.len && prefix.contains(&self.first_addr())
    }

    /// The half of the prefix's region that has this bit next.
    pub fn half(&self, bit: bool) -> Prefix
        requires { self.now.len < width self.now.family }
        ensures { prefix_as result ≡ half_at bit (prefix_as self.now) }
    {
        let place = self.family.width() - self.len - 1;
        Prefix {
            bits: with_bit(self.bits, place, bit),
            family: self.family,
            len: self.len + 1,
        }
    }
}
