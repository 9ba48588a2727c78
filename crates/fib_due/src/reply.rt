//! What is written at the end, and what it says is wrong.

use cert_check::No;
use fib_same::Difference;
use router_moves::WrongMoves;

/// What is wrong with a printed text, between two of them, or with what a router was told to change.
#[derive(Clone, Copy, Debug, PartialEq, Eq)]
pub enum Wrong {
    /// What a check of a text finds wrong.
    No(No),
    /// A text says another table than the first one.
    Differ(Difference),
    /// What a check of what a router was told to change finds wrong.
    MovesNo(WrongMoves),
}

/// A text to be written, and what is wrong if it says so.
#[derive(Drop)]
pub struct Reply {
    /// The text.
    pub text: Vec<u8>,
    /// What it says is wrong.
    pub wrong: Option<Wrong>,
}
