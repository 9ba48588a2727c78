//! The report of a run as rows of text.
//!
//! A run is a few lists, routes, Invalid announcements, changes with their events' numbers, how many each event needed, answers
//! to lookups, a table, a least table and its certificate, and a few counts. Each item is a row, its fields joined by commas and
//! ended by a line feed; the format is our own, and stands in `rows`. Contracts see the run as the model's lists, and its text as
//! the text of the model's printed rows, which a checker reads again.
//!
//! Rows are written by csv's writer, without quotes, since no field holds a comma, a quote or a line end. Rows of a prefix, of which a
//! run has millions, are put together in a buffer on the stack and go to the writer as one field. Writing is linear in the rows; only
//! the text takes memory, and the texts of next hops, which are made once.
#![tactic(auto)]

mod fields;
mod hop_texts;
mod line;
mod printed_row;
mod rows;
mod run;
mod run_text;
mod section;
mod section_text;
mod whole_run;

pub use fields::{family_field, hop_field};
pub use printed_row::put_fields;
pub use rows::{report_text, row_text, row_writer};
pub use run::{Answer, Invalid, Moves, Report, Run};
pub use run_text::RunText;
pub use section::Section;
pub use section_text::SectionText;
pub use whole_run::write_run;
