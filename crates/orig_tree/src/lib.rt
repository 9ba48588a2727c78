//! The routes and the table's entries of one family, in a binary tree: each node is a prefix, with the hop of its route and
//! of its entry.
//!
//! A lookup, a change, the making of room and the question whether a whole prefix gets one hop walk down the prefix's bits,
//! 129 nodes at most, the root among them; many routes or entries are set in one walk, if they stand in the order of
//! prefixes. Contracts see two lists of entries in the order of prefixes. All nodes of a tree lie in one array, each at a place
//! of its own, which its parent links to; the place of one that is dropped is taken again.
//! Beside each node lies what it keeps of its region: the hops that are best there, and what the region costs under one of them.
//! That is mended when a route changes, on the way to its prefix and within it, and can be put back. A place takes 48 octets,
//! 24 of them the node's, so that a walk that asks for both reads them off one line of memory, or two.
#![tactic(auto)]

mod answers;
mod best;
mod build;
mod count;
mod counter;
mod cover;
mod drops;
mod load;
mod mend;
mod merge;
mod node;
mod node_ref;
mod parts;
mod path;
mod region;
mod source;
mod tree;
mod undo;
mod whole;

pub use answers::{EntriesOf, RoutesOf};
pub use counter::{Counter, Uncounted};
pub use node::Label;
pub use node_ref::NodeRef;
pub use path::path_bits;
pub use region::TreeRegion;
pub use source::EntrySource;
pub use tree::Tree;
