//! Lists of VRPs, read.

ghost use Rattle.std.specs.Prelude.{◌≡◌};
ghost use Rattle.fib_rov.specs.Lines.{vrps_in};
ghost use Rattle.fib_rov.specs.Lists.{IsListed};

use crate::line::read_vrp;
use crate::vrp::Vrp;
use bstr::ByteSlice;
use printed_text::BadRow;
use std::alloc::{AllocError, AllocFailed, Global};
use thiserror::Error;

/// Why a list of VRPs isn't read.
#[derive(Clone, Copy, Debug, PartialEq, Eq, Error)]
pub enum RovError {
    /// A line is no VRP; it is the first such.
    #[error("{0}")]
    BadRow(BadRow),
    /// Memory ran out.
    #[error("no memory")]
    NoMemory,
}

impl From<AllocError> for RovError {
    ghost use Rattle.fib_rov.specs.declared.reading.RovError.TheVariants as error;

    ghost from_gives = { λ _ e. e ≡ error.NoMemory };

    fn from(_e: AllocError) -> RovError {
        RovError::NoMemory
    }
}

impl<T: Drop> From<AllocFailed<T>> for RovError {
    ghost use Rattle.fib_rov.specs.declared.reading.RovError.TheVariants as error;

    ghost from_gives = { λ _ e. e ≡ error.NoMemory };

    fn from(_e: AllocFailed<T>) -> RovError {
        RovError::NoMemory
    }
}

/// The VRPs of a text, one on each line that isn't empty. It costs the text's length.
#[tactic(auto, using(crate::proofs::ReadLines::starts))]
pub(crate) fn read_vrps(alloc: Global, text: &[u8]) -> Result<Vec<Vrp>, RovError>
    ensures { IsListed result (vrps_in text.now) }
{
    let mut list = Vec::new(alloc);
    let mut line_number = 0;
    for line in text.lines() {
        line_number += 1;
        if !line.is_empty() {
            match read_vrp(line) {
                Ok(vrp) => list.push(vrp)?,
                Err(why) => {
                    return Err(RovError::BadRow(BadRow {
                        line: line_number,
                        why,
                    }));
                }
            }
        }
    }
    Ok(list)
}
