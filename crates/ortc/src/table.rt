//! What a fresh table comes with.

use cert_model::Row;
use fib_addr::Entry;

/// A fresh table.
#[derive(Drop)]
pub struct Fresh {
    /// The table's entries, in the order of prefixes.
    pub table: Vec<Entry>,
    /// The rows that prove it least: those of the regions, the lower half's and the upper half's before a region's own, and
    /// the bound.
    pub proof: Vec<Row>,
}
