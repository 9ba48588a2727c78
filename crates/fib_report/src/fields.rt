//! The texts of fields.
//!
//! An address is written into a buffer of the caller's, which the longest text fits, and is a slice of it; a word is itself. No
//! call takes memory; each costs the length of its text.

ghost use Rattle.std.specs.Prelude.{◌≡◌, option_map};
ghost use Rattle.fib_addr.specs.Views.{addr_as};
ghost use Rattle.printed_text.specs.Rows.{count_name, family_name, hop_text, origin_text};
ghost use Rattle.printed_text.specs.Printed.{count_as};

use fib_addr::{Addr, Family, MOST_TEXT, addr_text};
use itoa::Buffer;
use printed_text::Count;

/// The address of a hop, or the word for none.
pub fn hop_field<'a>(buffer: &'a mut [u8; MOST_TEXT], hop: Option<Addr>, word: &'a [u8]) -> &'a [u8]
    ensures { result.now ≡ hop_text word.now (option_map addr_as hop) }
{
    match hop {
        Some(addr) => addr_text(buffer, &addr),
        None => word,
    }
}

/// The number of the AS in which a route originates, or `none`.
pub(crate) fn origin_field<'a>(digits: &'a mut Buffer, origin: Option<u64>) -> &'a [u8]
    ensures { result.now ≡ origin_text origin }
{
    match origin {
        Some(number) => digits.format(number).as_bytes(),
        None => b"none",
    }
}

/// The name of a count.
pub(crate) fn count_field(count: Count) -> &'static [u8]
    ensures { result.now ≡ count_name (count_as count) }
{
    match count {
        Count::Records => b"records",
        Count::Skipped => b"skipped",
        Count::Events => b"events",
        Count::Routes => b"routes",
        Count::Entries => b"entries",
        Count::Nodes => b"nodes",
        Count::Leaves => b"leaves",
        Count::Treated => b"treated",
    }
}

/// The number that a family is named by.
pub fn family_field(family: Family) -> &'static [u8]
    ensures { result.now ≡ family_name family }
{
    match family {
        Family::V4 => b"4",
        Family::V6 => b"6",
    }
}
