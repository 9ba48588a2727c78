//! The top call over memory: what follows if nothing can fail, and the rows of the tests.
#![tactic(auto)]

ghost use Rattle.std.specs.Prelude.{◌≡◌, List, ℕ, map, Ok, Some, ◌++◌, ◌⊎◌};
ghost use Rattle.std.specs.String.{string_bytes};
ghost use Rattle.fib_due.specs.Due.{due, Output, output_text};
ghost use Rattle.fib_due.specs.Ends.{IsDue};

use fib_io::{Inputs, MemSink, Sink, SureInputs, SureSink};
use fib_main::{Outcome, run_fib};
use std::alloc::Global;

/// Over inputs and sinks that never fail, the due outcome comes or memory runs out.
#[tactic(auto, using(crate::proofs::Sure::none_rose))]
pub fn run_sure(
    alloc: Global,
    words: &[String],
    inputs: &mut SureInputs,
    out: &mut SureSink,
    err: &mut SureSink,
) -> Outcome
    ensures read { result ≡ Outcome.ReadFault → ⊥ }
    ensures write { result ≡ Outcome.WriteFault → ⊥ }
    ensures due { IsDue (due (map string_bytes words.now)
        (⟦<SureInputs as Inputs>⟧.content inputs.old)) result ⊎ (result ≡ Outcome.NoMemory) }
{
    run_fib(alloc, words, inputs, out, err)
}

/// What a sink in memory holds at Done is what it held before and the text that is due.
pub fn run_memory(
    alloc: Global,
    words: &[String],
    inputs: &mut SureInputs,
    out: &mut MemSink,
    err: &mut SureSink,
) -> Outcome
    ensures { (output : Output) → (before : List ℕ) → ⟦<MemSink as Sink>⟧.written out.old
        ≡ Some before → due (map string_bytes words.now)
        (⟦<SureInputs as Inputs>⟧.content inputs.old) ≡ Ok output → result ≡ Outcome.Done
        → ⟦<MemSink as Sink>⟧.written out.new ≡ Some (before ++ output_text output) }
{
    run_fib(alloc, words, inputs, out, err)
}

#[cfg(test)]
mod fewest;
#[cfg(test)]
mod harness;
#[cfg(test)]
mod hostile;
#[cfg(test)]
mod judged;
#[cfg(test)]
mod large;
#[cfg(test)]
mod moved;
#[cfg(test)]
mod reads;
#[cfg(test)]
mod records;
#[cfg(test)]
mod saves;
#[cfg(test)]
mod steps;
#[cfg(test)]
mod tests;
#[cfg(test)]
mod texts;
