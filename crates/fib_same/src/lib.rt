//! Whether printed tables are the same: texts are read one after another, and their rows of one kind compared with the first one's.
//!
//! Each text is read whole, judged, compared, and let go before the next one is read. In memory stay the first one's entries as runs of
//! addresses, the hops of all texts, and the least difference so far. Sorting aside, all of it is linear in the texts.
//!
//! `read_text` reads and judges a single text, for whoever does something else with its entries, and `octets_of` reads one without
//! judging it.
#![tactic(auto)]

mod compare;
mod error;
mod text;
mod texts_laws;

pub use compare::{Difference, compare_texts};
pub use error::SameError;
pub use text::{octets_of, read_text};
pub use texts_laws::{alike_law, found_law, least_law, next_law};
