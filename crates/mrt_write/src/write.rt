//! Why there is no checkpoint.

ghost use Rattle.std.specs.Prelude.{◌≡◌};
ghost use Rattle.mrt_write.specs.Answers.{no_memory};

use fib_addr::Prefix;
use std::alloc::AllocError;
use thiserror::Error;

/// The most peers of a table.
pub const MOST_PEERS: usize = 65_535;

/// The longest path that is written.
pub const MOST_PATH: u32 = 15_000;

/// Why candidates weren't written.
#[derive(Clone, Copy, Debug, PartialEq, Eq, Error)]
pub enum WriteError {
    /// So many peers have a candidate, more than a table holds.
    #[error("{0} peers have a candidate, and a table holds 65535")]
    PeersFull(u64),
    /// The path of a candidate of this prefix has this length, over the limit.
    #[error("a path of length {1}, and the longest that is written is 15000")]
    PathTooLong(Prefix, u32),
    /// Memory ran out.
    #[error("no memory")]
    NoMemory,
}

impl From<AllocError> for WriteError {
    ghost from_gives = { λ _ e. e ≡ no_memory };

    fn from(_e: AllocError) -> WriteError {
        WriteError::NoMemory
    }
}
