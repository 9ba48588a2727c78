//! What is read of one input, and the outcome if it isn't.

ghost use Rattle.std.specs.Prelude.{◌≡◌, ◌≤◌, ◌^◌, ◌∷◌, List, [], Ok, Some, None, length, map, IfErr, IfOk, IfSome, IsSome, OnErr, OnOk, option_to_list, true};
ghost use Rattle.fib_due.specs.Due.{input_at};
ghost use Rattle.fib_due.specs.Ends.{ReadsName};
ghost use Rattle.fib_io.specs.Reads.{Makes};
ghost use Rattle.fib_due.specs.InTime.{TextMayGoOn};
ghost use Rattle.fib_due.specs.Owned.{StopsAt};
ghost use Rattle.fib_due.specs.Passes.{ReadsOf};
ghost use Rattle.fib_due.specs.Stops.{GivesDue};
ghost use Rattle.fib_due.specs.Stepping.{refusal_by};

use crate::outcome::{MrtInput, Outcome, Which};
use fib_io::{Inputs, ReadError, read_whole};
use mrt_read::WholeError;
use std::alloc::Global;

/// The octets of an input.
#[tactic(auto, using(crate::proofs::Passes::input_begun, crate::proofs::Passes::input_fails, crate::proofs::Passes::input_large, crate::proofs::Passes::input_read), unfolding(crate::specs::Due::input_at, crate::specs::Stops::sized))]
pub fn octets_of<I: Inputs>(
    alloc: Global,
    inputs: &mut I,
    name: &str,
    which: Which,
) -> Result<Vec<u8>, Outcome>
    ensures due { GivesDue (λ v. v.items) result (input_at (I.content inputs.old) which name.now) }
    ensures stops { IfErr result (StopsAt which) }
    ensures most { IfOk result (λ v. length v.items ≤ 2 ^ 36) }
    ensures same { I.content inputs.new ≡ I.content inputs.old }
    ensures cause { ReadsName name.now (I.faults inputs.old) (I.faults inputs.new) result }
    ensures reads { Makes (I.reads inputs.old) (I.reads inputs.new)
        (ReadsOf (I.content inputs.old) TextMayGoOn ((which, name.now) ∷ []) result) }
{
    match read_whole(alloc, inputs, name) {
        Ok(octets) => Ok(octets),
        Err(ReadError::Fault) => Err(Outcome::ReadFault),
        Err(ReadError::NoMemory) => Err(Outcome::NoMemory),
        Err(ReadError::TooLarge) => Err(Outcome::TooLarge { input: which }),
    }
}

/// The outcome if an input of records isn't read to its end.
pub fn outcome_of_whole(which: MrtInput, error: WholeError) -> Outcome
    ensures { result ≡ refusal_by which error }
{
    match error {
        WholeError::Malformed(malformed) => Outcome::Malformed {
            input: which.which(),
            number: malformed.number,
            rule: malformed.rule.number(),
        },
        WholeError::NoMemory => Outcome::NoMemory,
        WholeError::Fault => Outcome::ReadFault,
        WholeError::TooLarge => Outcome::TooLarge {
            input: which.which(),
        },
    }
}
