//! The arenas of a trie's nodes and leaves.

use buddy_arena::{Arena, Blocks};
use poptrie_build::Node;

/// The arenas of a trie, each with its blocks that belong to no present version, or won't.
#[derive(Drop)]
pub struct Arenas {
    /// The nodes below the direct words.
    pub nodes: Arena<Node>,
    /// Of their blocks, those that the pending update took and replaces, and the retired ones.
    pub node_blocks: Blocks,
    /// The hops of the nodes' leaves.
    pub leaves: Arena<u16>,
    /// Of their blocks, those that the pending update took and replaces, and the retired ones.
    pub leaf_blocks: Blocks,
}
