//! The sections whose rows are made of entries.

/// A section whose rows are made of entries.
#[derive(Clone, Copy, Debug, PartialEq, Eq)]
pub enum Section {
    /// The routes; one without a hop has no row.
    Routes,
    /// What the load adds to the table, which was empty: changes, all of event 0.
    Added,
    /// The table.
    Table,
    /// The least table.
    Least,
}
