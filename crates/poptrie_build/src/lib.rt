//! A Poptrie (Asai and Ohara, 'Poptrie', SIGCOMM 2015, section 3): longest match by one array of direct words and a node of
//! 64 slots for each further six bits of an address.
//!
//! The first s bits of an address choose a direct word: a hop, or the place of a node (direct pointing). Each node has two vectors
//! of 64 bits, one a slot: `vector` marks the slots that have nodes, which lie side by side in the order of slots; `leafvec`
//! marks where a run of equal leaves begins, of which each is one leaf. So a slot's node or leaf is found by counting bits.
//! Arrays of nodes and of leaves lie in buddy arenas, each block with one parent.
//!
//! The trie is canonical: a region has a node exactly if two of its addresses get different hops. A node takes 24 octets, a
//! leaf 2.
#![tactic(auto)]

mod building;
mod counts;
mod direct;
mod direct_word;
mod filling;
mod key;
mod lookup;
mod making;
mod node;
mod putting;
mod slots;
mod surveying;
mod tally;
mod trie;

pub use counts::{Needs, count_words};
pub use direct_word::{DirectWord, HOP, hop_word};
pub use filling::{TrieFull, clear_all, fill_all};
pub use lookup::{Found, key_of};
pub use making::{Vectors, make_vectors};
pub use node::{Node, rank};
pub use slots::{ask, descend};
pub use tally::Tally;
pub use trie::{Trie, empty_words};
