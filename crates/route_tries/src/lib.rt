//! The tries of a forwarding table's routes, and what they need.
//!
//! Each family has a Poptrie (`poptrie_build`) with the same direct bits and arenas of the same orders. `Tries` are built from
//! the prefix trees that hold the routes, asked by halves: a region of a tree keeps its place there. While routes change no trie
//! is built: what the tries need is kept as numbers. A change at a prefix leaves what other addresses get as it was. So it
//! changes only the needs of the nodes on the way to the prefix and of what is within it; and above a node that lasts whatever
//! changes there it changes none. From the deepest such node on they are counted before and after the change.
#![tactic(auto)]

mod deep;
mod needs;
mod region;
mod sizes;
mod tries;
mod way;

pub use needs::{FamilyNeeds, need_after, need_at, need_of};
pub use poptrie_build::{Found, Needs};
pub use region::RouteRegion;
pub use sizes::{Sizes, TrieFull};
pub use tries::{Tries, TriesError};
