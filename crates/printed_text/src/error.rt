//! Why a printed text isn't read.

ghost use Rattle.std.specs.Prelude.{◌≡◌};
ghost use Rattle.printed_text.specs.declared.error.PrintedError.TheVariants as printed_error;

use std::alloc::AllocError;
use thiserror::Error;

/// A line that is no row.
#[derive(Clone, Copy, Debug, PartialEq, Eq, Error)]
#[error("bad line {line} why {why}")]
pub struct BadRow {
    /// The line's number; the first line is line 1, and empty lines count.
    pub line: u64,
    /// Why it is no row (`why`).
    pub why: u8,
}

/// Why a printed text isn't read.
#[derive(Clone, Copy, Debug, PartialEq, Eq, Error)]
pub enum PrintedError {
    /// A line is no row; it is the first such.
    #[error("{0}")]
    BadRow(BadRow),
    /// Memory ran out.
    #[error("no memory")]
    NoMemory,
}

impl From<AllocError> for PrintedError {
    ghost from_gives = { λ _ e. e ≡ printed_error.NoMemory };

    fn from(_e: AllocError) -> PrintedError {
        PrintedError::NoMemory
    }
}
