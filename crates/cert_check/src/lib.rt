//! A checker of certificates that trusts nobody. It reads routes, a table and rows, whoever wrote them. It says yes only if
//! the table answers every address as the routes do and no table that does has fewer entries.
//!
//! Both tables are held as runs of addresses with one hop, which say where they first differ, and whether all addresses of
//! a leaf get its hop. The rows are read once, with a stack. Sorting aside, all of it is linear in the entries' bits and in
//! the rows times the bits of an address; no call goes more than 128 levels down.
#![tactic(auto)]

mod alike;
mod refusal;
mod repeats;
mod rows;
mod runs;
mod sets;
mod table_runs;
mod verdict;

pub use alike::{Differ, differ_in, same};
pub use refusal::{CheckError, No};
pub use repeats::first_twice;
pub use runs::{Run, holds, runs_of};
pub use table_runs::TableRuns;
pub use verdict::check;
