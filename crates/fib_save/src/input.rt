//! Inputs, taken into candidates.

ghost use Rattle.std.specs.Prelude.{◌≡◌, IfErr, IfSome, OnOk};
ghost use Rattle.fib_io.specs.Reads.{Makes, PassInTime};
ghost use Rattle.mrt_read.specs.Whole.{FaultRose, IsInputRefused, MayGoOn, end_of};
ghost use Rattle.fib_save.specs.Brings.{TakesInput};

use crate::take::take_events;
use fib_io::Inputs;
use mrt_read::{InputReader, WholeError};
use route_choice::Candidates;
use std::alloc::Global;

/// Takes all events of an input of records, which is read to its end, in pieces, each record before the next read.
pub fn take_input<I: Inputs>(
    alloc: Global,
    inputs: &mut I,
    name: &str,
    candidates: &mut Candidates,
) -> Result<(), WholeError>
    ensures takes { OnOk result (TakesInput (I.content inputs.old name.now)
        candidates.old.candidates candidates.new.candidates) }
    ensures refused { IfErr result (λ error. IfSome (I.content inputs.old name.now)
        (IsInputRefused error)) }
    ensures same { I.content inputs.new ≡ I.content inputs.old }
    ensures cause { FaultRose (I.faults inputs.old) (I.faults inputs.new) name.now result }
    ensures reads { Makes (I.reads inputs.old) (I.reads inputs.new)
        (PassInTime (I.content inputs.old name.now) MayGoOn (end_of result) name.now) }
{
    let mut reader = InputReader::new(alloc)?;
    let mut more = Vec::new(alloc);
    while reader.read_events(inputs, name, &mut more)? {
        take_events(candidates, &more)?;
    }
    Ok(())
}
