//! A Poptrie that is changed beside its readers (Asai and Ohara, 'Poptrie', SIGCOMM 2015), in two sets.
//!
//! A set is a trie's direct words with both its arenas (`poptrie_set`). Lookups begin in the set that the selector names. An update
//! is made in that set beside the old version, and stored word by word; if it would fit into the set but not beside what is in
//! use, the new table's trie is built in the other set, and one store selects that. At such an update's end the set that was
//! replaced is retired whole, and is free once no lookup is open that started before that end.
//!
//! So a lookup that pauses between any two steps goes on in the version that it began with. Time is the number of ends so far.
#![tactic(auto)]

mod cursors;
mod laws;
mod live;
mod pending;

pub use cursors::{Cursors, CursorsFull, NotOpen};
pub use laws::{nobody_law, past_law, prepare_law, step_law};
pub use live::{At, Live};
pub use pending::{NotReady, Pending};
pub use poptrie_set::Oldest;
