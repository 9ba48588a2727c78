//! The verdict on printed changes of both families.

use fib_addr::{Family, HopTable};
use moves_check::NoMoves;

/// What is wrong with printed changes, and in which family.
#[derive(Clone, Copy, Debug, PartialEq, Eq)]
pub struct WrongMoves {
    /// The family.
    pub family: Family,
    /// What is wrong with its changes or rows, which are counted from 1 among those of the family.
    pub no: NoMoves,
}

/// Whether printed changes are the fewest, and proved so.
#[derive(Drop)]
pub struct MovesVerdict {
    /// The first thing that is wrong, IPv4's before IPv6's; if none, the changes are the fewest, and the rows prove it.
    pub wrong: Option<WrongMoves>,
    /// The hops that the numbers in it stand for.
    pub hops: HopTable,
}
