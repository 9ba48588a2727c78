//! The script of a run in steps, read: a step on each line that isn't empty, or the first line that has none and why.
//!
//! A line is fields with one space between them; its first field is a word that names the step. The fields are judged from left to right, and
//! the first that fails says why (`printed_text::why`). Lines end with a line feed, which the last may lack; one carriage return before it is
//! dropped; an empty line has no step, but is counted.
#![tactic(auto)]

mod model_laws;
mod row;
mod script;
mod step;
mod text;

pub use model_laws::{number_law, version_law};
pub use printed_text::BadRow;
pub use row::Row;
pub use script::{ScriptError, read_script};
pub use step::{Step, read_step};
pub use text::StepText;
