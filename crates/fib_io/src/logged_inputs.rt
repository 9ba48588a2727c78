//! Inputs that keep the reads that were made of them.

ghost use Rattle.std.specs.Prelude.{◌≡◌, ◌∷◌, ◌++◌, [], Some, map, option_map, OnOk};
ghost use Rattle.fib_io.specs.LoggedInputs.{inputs_below, read_as, reads_kept};
ghost use Rattle.fib_io.specs.Reads.{read_of};

use crate::{InFault, Inputs};
use std::alloc::{AllocError, Global};

/// A read that was made.
#[derive(Drop)]
pub struct LoggedRead {
    /// The name that was read.
    pub name: String,
    /// The place from which on it was read, in octets from 0.
    pub at: u64,
    /// How many octets it gave; `None` if it failed.
    pub gave: Option<usize>,
}

/// Inputs over others, which keep every read that is made of these, in their order.
///
/// They read as those below do. A read for which memory ran out wasn't made, and isn't kept. If memory runs out for a read that
/// is to be kept, they say no reads from then on.
#[derive(Drop)]
pub struct LoggedInputs<I: Inputs + Drop> {
    alloc: Global,
    inputs: I,
    log: Vec<LoggedRead>,
    // Each read is in the log.
    is_whole: bool,
}

/// Adds a read to the log.
fn push_read(
    alloc: Global,
    log: &mut Vec<LoggedRead>,
    name: &str,
    at: u64,
    gave: Option<usize>,
) -> Result<(), AllocError>
    ensures { OnOk result (map read_as log.new.items
        ≡ map read_as log.old.items ++ read_of name.now at gave ∷ []) }
{
    let name = String::from_str(alloc, name)?;
    log.push(LoggedRead { name, at, gave })?;
    Ok(())
}

impl<I: Inputs + Drop> LoggedInputs<I> {
    /// Reads these inputs, of which no read was made yet.
    pub fn new(alloc: Global, inputs: I) -> LoggedInputs<I>
        ensures below { inputs_below result ≡ inputs }
        ensures none { ⟦<LoggedInputs<I> as Inputs>⟧.reads result ≡ Some [] }
    {
        LoggedInputs {
            alloc,
            inputs,
            log: Vec::new(alloc),
            is_whole: true,
        }
    }

    /// The reads that were made, in their order, if each of them was kept.
    pub fn reads(&self) -> Option<&[LoggedRead]>
        ensures { option_map (λ reads. map read_as reads.now) result
            ≡ ⟦<LoggedInputs<I> as Inputs>⟧.reads self.now }
    {
        if self.is_whole { Some(&self.log) } else { None }
    }
}

impl<I: Inputs + Drop> Inputs for LoggedInputs<I> {
    ghost content = { λ s. I.content s.inputs };

    ghost faults = { λ s. I.faults s.inputs };

    ghost reads = { reads_kept };

    fn read(&mut self, name: &str, at: u64, buf: &mut [u8]) -> Result<usize, InFault> {
        let result = self.inputs.read(name, at, buf);
        if self.is_whole && result != Err(InFault::NoMemory) {
            let kept = push_read(self.alloc, &mut self.log, name, at, result.ok());
            self.is_whole = kept.is_ok();
        }
        result
    }
}
