//! Whole scripts.

ghost use Rattle.std.specs.Prelude.{◌≡◌};
ghost use Rattle.step_script.specs.Script.{script_in};
ghost use Rattle.step_script.specs.Steps.{IsScriptRead};

use crate::step::{Step, read_step};
use bstr::ByteSlice;
use printed_text::BadRow;
use std::alloc::{AllocFailed, Global};
use thiserror::Error;

/// Why a script isn't read.
#[derive(Clone, Copy, Debug, PartialEq, Eq, Error)]
pub enum ScriptError {
    /// A line has no step; it is the first such.
    #[error("{0}")]
    BadLine(BadRow),
    /// Memory ran out.
    #[error("no memory")]
    NoMemory,
}

impl<T: Drop> From<AllocFailed<T>> for ScriptError {
    ghost use Rattle.step_script.specs.declared.script.ScriptError.TheVariants as error;

    ghost from_gives = { λ _ e. e ≡ error.NoMemory };

    fn from(_e: AllocFailed<T>) -> ScriptError {
        ScriptError::NoMemory
    }
}

/// Reads a script. It costs the text's length.
///
/// # Errors
///
/// `BadLine` names the first line that is neither empty nor a step; or out of memory.
#[tactic(auto, using(crate::proofs::Lines::starts))]
pub fn read_script(alloc: Global, text: &[u8]) -> Result<Vec<Step>, ScriptError>
    ensures { IsScriptRead result (script_in text.now) }
{
    let mut steps = Vec::new(alloc);
    let mut line_number = 0;
    for line in text.lines() {
        line_number += 1;
        if !line.is_empty() {
            match read_step(line) {
                Ok(step) => steps.push(step)?,
                Err(why) => {
                    return Err(ScriptError::BadLine(BadRow {
                        line: line_number,
                        why,
                    }));
                }
            }
        }
    }
    Ok(steps)
}
