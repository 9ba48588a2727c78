//! Rows.

use fib_addr::{Family, Hop, Prefix};

/// A row of a certificate, which proves that no table with the routes' answers has fewer entries.
#[derive(Clone, Copy, Debug, PartialEq, Eq)]
pub enum Row {
    /// All addresses of the prefix get this hop from the routes.
    Leaf(Prefix, Hop),
    /// The prefix's region, put together from its halves, and its k: what it costs under a hop of its set, in entries.
    Join(Prefix, u64),
    /// How many entries a least table of the family has.
    Bound(Family, u64),
}
