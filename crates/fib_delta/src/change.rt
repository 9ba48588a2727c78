//! Changes.

use fib_addr::{Hop, Prefix};

/// A change to a table.
#[derive(Clone, Copy, Debug, PartialEq, Eq)]
pub enum Change {
    /// An entry at a prefix that the table has none at.
    Add(Prefix, Hop),
    /// Another hop for the entry at the prefix.
    Replace(Prefix, Hop),
    /// The entry at the prefix goes.
    Remove(Prefix),
}
