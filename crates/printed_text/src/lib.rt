//! Printed text, read: the rows of a run and of its certificate, or the first line that is none and why.
//!
//! A line is fields with commas between them; its first field names the row. The fields are judged from left to right, and
//! the first that fails says why (`why`). Rows may stand in any order, and those of one kind keep theirs. Lines end with a
//! line feed, which the last may lack; one carriage return before it is dropped; an empty line is no row, but is counted.
//!
//! Reading is linear in the text. Fields are slices of it, and only what is kept takes memory: the routes, the least
//! table, the rows of the certificate, and the numbers of their hops. A text may come in pieces.
//!
//! The definitions stand in `specs/`: rows, what each line says, and what a checker uses of a text.
#![tactic(auto)]

mod error;
pub mod fields;
mod invalid;
mod kind;
mod kind_rows;
mod pieces;
mod printed;
mod printed_laws;
mod printed_row;
pub mod why;

pub use cert_model::Row;
pub use cert_rows::{CertRows, RowsLeft};
pub use error::{BadRow, PrintedError};
pub use invalid::{Announced, PrintedVrp};
pub use kind::Kind;
pub use kind_rows::read_rows;
pub use pieces::{PrintedReader, TextReader};
pub use printed::{Printed, hop_refused, number_hop, read_printed, row_of};
pub use printed_laws::{kinds_law, numbers_law, printed_law, reading_law, written_law};
pub use printed_row::{Count, PrintedRow, read_row};
