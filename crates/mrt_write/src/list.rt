//! The checkpoint of a list of candidates.

ghost use Rattle.std.specs.Prelude.{map, IfOk, OnOk};
ghost use Rattle.fib_prefix.specs.Views.{cand_as};
ghost use Rattle.route_model.specs.Choice.{AreCandidates};
ghost use Rattle.mrt_write.specs.Answers.{WriterAnswers};
ghost use Rattle.mrt_write.specs.Reads.{ReadsAs};

use crate::plan::DumpPlan;
use crate::write::WriteError;
use fib_prefix::{Cand, CandSink};
use std::alloc::{AllocError, Global};

/// Hands on the candidates of a list.
fn emit_list<S: CandSink>(cands: &[Cand], out: &mut S) -> Result<(), AllocError>
    requires { S.ready out.old }
    ensures ready { OnOk result (S.ready out.new) }
    ensures takes { OnOk result (S.takes out.old cands.now out.new) }
{
    for cand in cands {
        out.put(cand)?;
    }
    Ok(())
}

/// The checkpoint of a list of candidates. If they are in the order of prefixes, then of path sources, each once, as `Candidates::all` of
/// `route_choice` has them, it is an MRT dump that is read as exactly these; in any other order they are written in that order.
/// Its octets are in memory, some 30 a candidate.
///
/// # Errors
///
/// More than 65,535 peers have a candidate; else the first candidate whose path is longer than 15,000; else out of memory.
pub fn write_dump(alloc: Global, cands: &[Cand]) -> Result<Vec<u8>, WriteError>
    ensures written { WriterAnswers (map cand_as cands.now) result }
    ensures reads { AreCandidates (map cand_as cands.now)
        → IfOk result (λ octets. ReadsAs octets.items (map cand_as cands.now)) }
{
    let mut plan = DumpPlan::new(alloc);
    emit_list(cands, &mut plan)?;
    let mut dump = plan.begin()?;
    emit_list(cands, &mut dump)?;
    let octets = dump.finish()?;
    Ok(octets)
}
