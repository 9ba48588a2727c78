//! Entries in half the memory.

ghost use Rattle.std.specs.Prelude.{◌≡◌, ◌<◌, ◌≤◌, ◌+◌, ◌-◌, ◌*◌, ◌/◌, ◌%◌, ◌^◌};
ghost use Rattle.table_model.specs.Width.{width};

use fib_addr::{Entry, Family, Hop, Prefix};

/// How many numbers have 64 bits.
const HALF: u128 = 1 << 64;

/// The upper 64 bits of a number.
fn upper(bits: u128) -> u64
    ensures { result ≡ bits / 2 ^ 64 }
{
    (bits / HALF) as u64
}

/// The lower 64 bits of a number.
fn lower(bits: u128) -> u64
    ensures { result ≡ bits % 2 ^ 64 }
{
    (bits % HALF) as u64
}

/// The number of these bits.
fn joined(high: u64, low: u64) -> u128
    ensures { result ≡ high * 2 ^ 64 + low }
{
    u128::from(high) * HALF + u128::from(low)
}

/// An entry in 24 octets. The number of the prefix's bits lies in two halves, so that nothing is filled up.
#[derive(Clone, Copy, Debug, PartialEq, Eq)]
pub struct PackedEntry {
    // The upper half of the prefix's bits.
    high: u64,
    // The lower half.
    low: u64,
    // The hop's number.
    hop: u16,
    family: Family,
    // How many bits the prefix has.
    len: u8,
    ghost fits: { len ≤ width family },
    ghost below: { high * 2 ^ 64 + low < 2 ^ width family },
    ghost cleared: { (high * 2 ^ 64 + low) % 2 ^ (width family - len) ≡ 0 },
}

impl PackedEntry {
    ghost use Rattle.fib_addr.specs.Views.{entry_as};
    ghost use Rattle.ortc.specs.Packed.{packed_entry_as};

    /// The same entry, packed.
    #[tactic(auto, using(crate::proofs::Packing::halves_join))]
    pub fn of(entry: &Entry) -> PackedEntry
        ensures { packed_entry_as result ≡ entry_as entry.now }
    {
        let prefix = &entry.prefix;
        PackedEntry {
            high: upper(prefix.bits),
            low: lower(prefix.bits),
            hop: entry.hop.0,
            family: prefix.family,
            len: prefix.len,
        }
    }

    /// The entry that it packs.
    pub fn entry(&self) -> Entry
        ensures { entry_as result ≡ packed_entry_as self.now }
    {
        let prefix = Prefix {
            bits: joined(self.high, self.low),
            family: self.family,
            len: self.len,
        };
        Entry {
            prefix,
            hop: Hop(self.hop),
        }
    }
}
