//! The shortest list of changes with what proves it.

use cert_model::Row;
use fib_delta::Change;

/// The shortest list of changes that makes a tree's entries answer as its routes do.
#[derive(Drop)]
pub struct Near {
    /// The changes, in the order of prefixes.
    pub changes: Vec<Change>,
    /// How many there are: no table that answers as the routes do differs from the entries at fewer prefixes.
    pub bound: u64,
    /// The rows that prove it, of the regions within before the region's own, the bound last.
    pub rows: Vec<Row>,
}
