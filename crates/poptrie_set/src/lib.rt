//! One set of a live Poptrie: a trie that is changed beside its readers, one word at a time (Asai and Ohara, 'Poptrie', SIGCOMM 2015).
//!
//! An update builds new arrays beside the old ones and stores direct words, one a step; all else is shared. So a lookup that pauses
//! between any two of these steps goes on in the version that it began with. What an update replaced is retired at its end, and is
//! given back once no lookup is open that started before that end. Time is the number of ends so far.
//!
//! An update is made ready beside the old version in the same arenas alone: if it fits into them but not beside what is in use,
//! it is refused. `poptrie_update` has two of these sets for that.
#![tactic(auto)]

mod crowd_laws;
mod merged_laws;
mod reading;
mod reasons;
mod rebuilding;
mod trie_set;

pub use crowd_laws::crowded_law;
pub use merged_laws::merged_law;
pub use reading::At;
pub use reasons::NotReady;
pub use trie_set::{Oldest, Pending, TrieSet};
