//! Kinds of rows.

/// What a row says.
#[derive(Clone, Copy, Debug, PartialEq, Eq)]
pub(crate) enum RowKind {
    /// All addresses of a prefix get a hop.
    Leaf,
    /// A prefix's region is put together from its halves.
    Join,
    /// How many entries a least table of a family has.
    Bound,
}
