//! Why a certificate is refused.

ghost use Rattle.std.specs.Prelude.{◌≡◌};
ghost use Rattle.cert_check.specs.declared.refusal.CheckError.TheVariants as check_error;

use fib_addr::{Addr, Family, Hop, Prefix};
use std::alloc::AllocError;
use thiserror::Error;

/// What is wrong with a certificate. Rows are counted from 1.
#[derive(Clone, Copy, Debug, PartialEq, Eq, Error)]
pub enum No {
    /// The prefix stands twice in the routes, or else in the table.
    #[error("a prefix stands twice")]
    Twice {
        /// The first prefix that stands again later in its list.
        prefix: Prefix,
    },
    /// The table doesn't answer as the routes do.
    #[error("the table answers otherwise than the routes")]
    NotSame {
        /// The least such address, IPv4 before IPv6.
        addr: Addr,
        /// What it gets from the routes.
        want: Hop,
        /// What it gets from the table.
        has: Hop,
    },
    /// The row isn't one that may stand there, or the rows end before it.
    #[error("row {row} may not stand there")]
    Shape {
        /// The row.
        row: u64,
    },
    /// Some address of the leaf's region gets another hop from the routes.
    #[error("the leaf of row {row} is wrong")]
    LeafWrong {
        /// The row.
        row: u64,
    },
    /// The number of a join or of a bound isn't what its region gives.
    #[error("row {row} says {said} for {due}")]
    JoinWrong {
        /// The row.
        row: u64,
        /// The row's number.
        said: u64,
        /// The number that is due.
        due: u64,
    },
    /// A table that answers as the routes do has fewer entries of the family.
    #[error("{entries} entries, and a least table has {bound}")]
    NotLeast {
        /// The family.
        family: Family,
        /// How many entries the table has.
        entries: u64,
        /// How many a least table has.
        bound: u64,
    },
}

/// Why a certificate isn't taken.
#[derive(Clone, Copy, Debug, PartialEq, Eq, Error)]
pub enum CheckError {
    /// Something is wrong with it.
    #[error("no: {0}")]
    No(No),
    /// Memory ran out.
    #[error("no memory")]
    NoMemory,
}

impl From<AllocError> for CheckError {
    ghost from_gives = { λ _ e. e ≡ check_error.NoMemory };

    fn from(_e: AllocError) -> CheckError {
        CheckError::NoMemory
    }
}
