//! Hop numbers and table entries.

ghost use Rattle.std.specs.Prelude.{◌≡◌, ◌++◌, OnOk, map};
ghost use Rattle.std.specs.Option.{option_to_list};
ghost use Rattle.fib_addr.specs.Views.{entry_as, prefix_as};

use crate::prefix::Prefix;
use std::alloc::AllocError;

/// The number of a next hop in a `HopTable`, from 1; 0 is none, and in a table's entry it drops.
#[derive(Clone, Copy, Debug, PartialEq, Eq, PartialOrd, Ord, Hash)]
pub struct Hop(pub u16);

impl Hop {
    /// No hop.
    pub const NONE: Hop = Hop(0);
}

/// An entry of a table: addresses of the prefix go to the hop.
#[derive(Clone, Copy, Debug, PartialEq, Eq)]
pub struct Entry {
    /// The prefix.
    pub prefix: Prefix,
    /// The hop's number, or `Hop::NONE` for a drop entry.
    pub hop: Hop,
}

/// Adds the entry of a prefix with this hop, if it has one.
///
/// # Errors
///
/// Out of memory.
pub fn push_entry(prefix: Prefix, hop: Option<u16>, out: &mut Vec<Entry>) -> Result<(), AllocError>
    ensures { OnOk result (map entry_as out.new.items ≡ map entry_as out.old.items
        ++ map (λ h. (prefix_as prefix, h)) (option_to_list hop)) }
{
    if let Some(hop) = hop {
        out.push(Entry {
            prefix,
            hop: Hop(hop),
        })?;
    }
    Ok(())
}
