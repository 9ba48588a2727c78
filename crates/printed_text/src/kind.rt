/// A kind of printed rows that say the entries of a table.
#[derive(Clone, Copy, Debug, PartialEq, Eq)]
pub enum Kind {
    /// The chosen routes: `route,PREFIX,ADDR`.
    Route,
    /// The table to forward by: `table,PREFIX,HOP`.
    Table,
    /// The least table: `least,PREFIX,HOP`.
    Least,
}
