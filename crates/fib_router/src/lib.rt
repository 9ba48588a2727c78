//! The engine that a router runs on: events, their changes, and lookups that go on beside them.
//!
//! A `Router` has a loaded engine and a live Poptrie of each family's routes. An event is begun, which takes all the memory that it
//! needs; then the words of its family's trie are stored one by one, while lookups go on; and then it is ended, which makes its
//! changes, or cancelled, while no store was made. Contracts say what a lookup gives at each moment: the longest match in the routes
//! before the event, or in those after it once the words of its address were stored.
#![tactic(auto)]

mod error;
mod lives;
mod router;

pub use error::NotBegun;
pub use fib_engine::{EventChanges, FamilyNeeds, Needs, Sizes, TrieFull};
pub use poptrie_build::Found;
pub use poptrie_update::{Live, Oldest};
pub use router::{Begun, Router};
