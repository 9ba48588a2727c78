//! How large tries are, and what is reported if one is too small.

ghost use Rattle.std.specs.Prelude.{◌≤◌};

use thiserror::Error;

/// How large the trie of each family is. The widths of words on the wire and in the arenas bound each size.
#[derive(Clone, Copy, Debug, PartialEq, Eq)]
pub struct Sizes {
    /// How many bits of an address are looked up directly, at most 18.
    pub direct: u8,
    /// The order of the arena of nodes, which has 2^order places; at most 24.
    pub nodes: u8,
    /// The order of the arena of leaves, at most 26.
    pub leaves: u8,
    ghost few_direct: { direct ≤ 18 },
    ghost few_nodes: { nodes ≤ 24 },
    ghost few_leaves: { leaves ≤ 26 },
}

/// The places of an arena are fewer than what the tries need.
#[derive(Clone, Copy, Debug, PartialEq, Eq, Error)]
#[error("arena {arena} needs {need} of {have}")]
pub struct TrieFull {
    /// The need, at most 2^64 - 1.
    pub need: u64,
    /// How many places there are.
    pub have: u64,
    /// 0 is the arena of IPv4's nodes, 1 of its leaves, 2 of IPv6's nodes, 3 of its leaves.
    pub arena: u8,
}
