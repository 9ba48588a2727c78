//! A checker of lists of changes that trusts nobody. It reads an old table, routes, changes and rows, whoever wrote them. It
//! says yes only if the changes make the table answer as the routes do and no table that does differs from it at fewer
//! prefixes.
//!
//! The changed table and the routes are held as runs of addresses with one hop (`cert_check`). The rows are read once, with a
//! stack; the old table's entries are looked up in their order. Sorting aside, all of it is linear in the entries' bits and in the
//! rows times the bits of an address; no call goes more than 128 levels down.
#![tactic(auto)]

mod check;
mod old;
mod refusal;
mod rows;

pub use check::check_moves;
pub use refusal::{MovesError, NoMoves};
