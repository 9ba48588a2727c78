//! Checkpoints of inputs.

ghost use Rattle.std.specs.Prelude.{◌≡◌, option_map, IfErr, IfOk, OnOk};
ghost use Rattle.std.specs.List.{AllByRecursion};
ghost use Rattle.fib_prefix.specs.Views.{IsOfOctets};
ghost use Rattle.route_model.specs.Choice.{AreCandidates};
ghost use Rattle.fib_io.specs.Reads.{Makes};
ghost use Rattle.mrt_write.specs.Answers.{WriterAnswers};
ghost use Rattle.fib_save.specs.Brings.{Brings};
ghost use Rattle.fib_save.specs.Saves.{BringsNone, SaveAnswers, SaveFaults, SaveReads};

use crate::input::take_input;
use fib_io::Inputs;
use mrt_read::WholeError;
use mrt_write::{DumpPlan, WriteError};
use route_choice::Candidates;
use std::alloc::Global;
use thiserror::Error;

/// Why there is no checkpoint.
#[derive(Clone, Copy, Debug, PartialEq, Eq, Error)]
pub enum SaveError {
    /// The dump isn't read to its end.
    #[error("dump: {0}")]
    Dump(WholeError),
    /// The updates aren't read to their end.
    #[error("updates: {0}")]
    Updates(WholeError),
    /// The candidates aren't written.
    #[error("{0}")]
    Unwritten(WriteError),
}

/// The candidates that the dump brings, and then the updates, if they are named.
fn candidates_of<I: Inputs>(
    alloc: Global,
    inputs: &mut I,
    dump: &str,
    updates: Option<&str>,
) -> Result<Candidates, SaveError>
    ensures brings { IfOk result (λ candidates. Brings (I.content inputs.old) dump.now
        (option_map (λ n. n.now) updates.entry) candidates.candidates) }
    ensures none { IfErr result (BringsNone (I.content inputs.old) dump.now
        (option_map (λ n. n.now) updates.entry)) }
    ensures same { I.content inputs.new ≡ I.content inputs.old }
    ensures cause { SaveFaults (I.faults inputs.old) (I.faults inputs.new) dump.now
        (option_map (λ n. n.now) updates.entry) result }
    ensures reads { Makes (I.reads inputs.old) (I.reads inputs.new)
        (SaveReads (I.content inputs.old) dump.now (option_map (λ n. n.now) updates.entry) result) }
{
    let mut candidates = Candidates::new(alloc);
    if let Err(error) = take_input(alloc, inputs, dump, &mut candidates) {
        return Err(SaveError::Dump(error));
    }
    let Some(updates) = updates else {
        return Ok(candidates);
    };
    if let Err(error) = take_input(alloc, inputs, updates, &mut candidates) {
        return Err(SaveError::Updates(error));
    }
    Ok(candidates)
}

/// The checkpoint of candidates.
fn checkpoint(alloc: Global, candidates: &Candidates) -> Result<Vec<u8>, WriteError>
    ensures written { WriterAnswers candidates.now.candidates result }
    ensures octets { OnOk result (AllByRecursion IsOfOctets candidates.now.candidates) }
    ensures held { AreCandidates candidates.now.candidates }
{
    let mut plan = DumpPlan::new(alloc);
    candidates.emit_all(&mut plan)?;
    let mut dump = plan.begin()?;
    candidates.emit_all(&mut dump)?;
    let octets = dump.finish()?;
    Ok(octets)
}

/// The checkpoint of the candidates that the dump and then the updates, if they are named, bring: an MRT dump that is read as exactly
/// these (`saved_model`).
///
/// All is read before the candidates are passed on, which they are twice, one by one: first for what must be known before the
/// first octet, then to be written. In memory are one record and the peer table, until all is read; the candidates, 24 octets
/// each and 32 a prefix if they came in the order of prefixes; while they are passed on a list of their prefixes, 48 octets each;
/// and the octets that are written, some 30 a candidate. There is no list of candidates.
///
/// # Errors
///
/// The first input that isn't read to its end. Else more than 65,535 peers have a candidate, or a path is longer than 15,000, or
/// memory runs out.
pub fn save_inputs<I: Inputs>(
    alloc: Global,
    inputs: &mut I,
    dump: &str,
    updates: Option<&str>,
) -> Result<Vec<u8>, SaveError>
    ensures saves { SaveAnswers (I.content inputs.old) dump.now
        (option_map (λ n. n.now) updates.entry) result }
    ensures same { I.content inputs.new ≡ I.content inputs.old }
    ensures cause { SaveFaults (I.faults inputs.old) (I.faults inputs.new) dump.now
        (option_map (λ n. n.now) updates.entry) result }
    ensures reads { Makes (I.reads inputs.old) (I.reads inputs.new)
        (SaveReads (I.content inputs.old) dump.now (option_map (λ n. n.now) updates.entry) result) }
{
    let candidates = candidates_of(alloc, inputs, dump, updates)?;
    match checkpoint(alloc, &candidates) {
        Ok(octets) => Ok(octets),
        Err(error) => Err(SaveError::Unwritten(error)),
    }
}
