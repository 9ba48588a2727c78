//! Why texts aren't compared.

ghost use Rattle.std.specs.Prelude.{◌≡◌};
ghost use Rattle.fib_same.specs.declared.error.SameError.TheVariants as same_error;

use fib_addr::Prefix;
use std::alloc::AllocError;
use thiserror::Error;

/// Why texts aren't compared. Texts are numbered from 1.
#[derive(Clone, Copy, Debug, PartialEq, Eq, Error)]
pub enum SameError {
    /// A read failed.
    #[error("a read failed")]
    Fault,
    /// Memory ran out.
    #[error("no memory")]
    NoMemory,
    /// A text has more than 2^36 octets.
    #[error("text {text} is too large")]
    TooLarge {
        /// The text.
        text: u64,
    },
    /// A line of a text is no row, or its hop is one too many.
    #[error("text {text}: bad line {line} why {why}")]
    BadLine {
        /// The text.
        text: u64,
        /// The line's number, from 1.
        line: u64,
        /// Why it is bad (`printed_text::why`).
        why: u8,
    },
    /// A prefix stands twice in a text's rows of the kind that is compared.
    #[error("text {text}: a prefix stands twice")]
    Twice {
        /// The text.
        text: u64,
        /// The first prefix that stands again later.
        prefix: Prefix,
    },
}

impl From<AllocError> for SameError {
    ghost from_gives = { λ _ e. e ≡ same_error.NoMemory };

    fn from(_e: AllocError) -> SameError {
        SameError::NoMemory
    }
}
