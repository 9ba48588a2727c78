//! The events of an input.

ghost use Rattle.std.specs.Prelude.{◌≡◌, map, IfErr, IfOk, IfSome};
ghost use Rattle.fib_prefix.specs.Views.{event_as};
ghost use Rattle.fib_io.specs.Reads.{Makes, PassInTime};
ghost use Rattle.mrt_read.specs.Whole.{FaultRose, HasEvents, IsInputRefused, MayGoOn, end_of, of_input, of_read};
ghost use Rattle.mrt_read.specs.declared.whole.WholeError.TheVariants.{Malformed as IsMalformed, NoMemory as IsNoMemory};

use crate::{EventsError, InputReader, Malformed};
use fib_io::{Inputs, ReadError};
use fib_prefix::Event;
use std::alloc::{AllocError, AllocFailed, Global};
use thiserror::Error;

/// Why an input isn't read to its end.
#[derive(Clone, Copy, Debug, PartialEq, Eq, Error)]
pub enum WholeError {
    /// A record breaks a rule.
    #[error("{0}")]
    Malformed(Malformed),
    /// Memory ran out.
    #[error("no memory")]
    NoMemory,
    /// A read failed.
    #[error("a read failed")]
    Fault,
    /// The input has more than 2^36 octets.
    #[error("too large")]
    TooLarge,
}

impl From<ReadError> for WholeError {
    ghost from_gives = { λ error e. e ≡ of_input error };

    fn from(error: ReadError) -> WholeError {
        match error {
            ReadError::Fault => WholeError::Fault,
            ReadError::TooLarge => WholeError::TooLarge,
            ReadError::NoMemory => WholeError::NoMemory,
        }
    }
}

impl From<Malformed> for WholeError {
    ghost from_gives = { λ malformed e. e ≡ IsMalformed malformed };

    fn from(malformed: Malformed) -> WholeError {
        WholeError::Malformed(malformed)
    }
}

impl From<EventsError> for WholeError {
    ghost from_gives = { λ error e. e ≡ of_read error };

    fn from(error: EventsError) -> WholeError {
        match error {
            EventsError::Malformed(malformed) => WholeError::Malformed(malformed),
            EventsError::NoMemory => WholeError::NoMemory,
        }
    }
}

impl From<AllocError> for WholeError {
    ghost from_gives = { λ _ e. e ≡ IsNoMemory };

    fn from(_e: AllocError) -> WholeError {
        WholeError::NoMemory
    }
}

impl<T: Drop> From<AllocFailed<T>> for WholeError {
    ghost from_gives = { λ _ e. e ≡ IsNoMemory };

    fn from(_e: AllocFailed<T>) -> WholeError {
        WholeError::NoMemory
    }
}

/// All events of an input of records, which is read to its end, in pieces.
///
/// In memory are one record, the peer table and all events.
pub fn read_all_events<I: Inputs>(
    alloc: Global,
    inputs: &mut I,
    name: &str,
) -> Result<Vec<Event>, WholeError>
    ensures events { IfOk result (λ events. IfSome (I.content inputs.old name.now)
        (HasEvents (map event_as events.items))) }
    ensures refused { IfErr result (λ error. IfSome (I.content inputs.old name.now)
        (IsInputRefused error)) }
    ensures same { I.content inputs.new ≡ I.content inputs.old }
    ensures cause { FaultRose (I.faults inputs.old) (I.faults inputs.new) name.now result }
    ensures reads { Makes (I.reads inputs.old) (I.reads inputs.new)
        (PassInTime (I.content inputs.old name.now) MayGoOn (end_of result) name.now) }
{
    let mut reader = InputReader::new(alloc)?;
    let mut all = Vec::new(alloc);
    let mut more = Vec::new(alloc);
    while reader.read_events(inputs, name, &mut more)? {
        all.extend_from_slice(&more)?;
    }
    Ok(all)
}
