//! What must be known of candidates before the first octet is written.

ghost use Rattle.std.specs.Prelude.{◌≡◌, ◌||◌, List, [], ◌∷◌, map, option_map, IfOk, OnOk};
ghost use Rattle.std.specs.Option.{option_or};
ghost use Rattle.fib_prefix.specs.declared.event.Cand.{Cand as CodeCand};
ghost use Rattle.fib_prefix.specs.Views.{cand_as};
ghost use Rattle.mrt_write.specs.Checkpoint.{has_ids};
ghost use Rattle.mrt_write.specs.Saved.{long_one};
ghost use Rattle.mrt_write.specs.Dumps.{CanPut};
ghost use Rattle.mrt_write.specs.Plans.{HasMet, PlansDump, Learns, PlanAnswers, learns_more, learns_none};

use crate::dump::DumpWriter;
use crate::met::Met;
use crate::peers::listed;
use crate::write::{MOST_PATH, MOST_PEERS, WriteError};
use fib_prefix::{Cand, CandSink, Peer};
use std::alloc::{AllocError, Global};
use std::collections::BTreeSet;

/// What a checkpoint must know of all candidates before its first octet: which peers have one, whether any has a path identifier,
/// and the first whose path is too long. It takes the candidates one by one, and keeps none of the others.
#[derive(Drop)]
pub struct DumpPlan {
    alloc: Global,
    peers: BTreeSet<Peer>,
    // some of them, so that one that is met again is found at once
    met: Met,
    ids: bool,
    long: Option<Cand>,
}

/// Whether any candidate has a path identifier other than 0: of those before, or this one.
fn any_id(before: bool, cand: &Cand) -> bool
    ensures { result ≡ (before || has_ids (cand_as cand.now ∷ [])) }
{
    before | (cand.via.id != 0)
}

/// Keeps a candidate whose path is too long, if none is kept yet.
fn keep_long(long: &mut Option<Cand>, cand: &Cand)
    ensures { option_map cand_as long.new
        ≡ option_or (option_map cand_as long.old) (long_one (cand_as cand.now ∷ [])) }
{
    if cand.path <= MOST_PATH {
        return;
    }
    if long.is_none() {
        *long = Some(*cand);
    }
}

impl DumpPlan {
    /// A plan for no candidate.
    pub fn new(alloc: Global) -> DumpPlan
        ensures knows { PlansDump result [] }
        ensures ready { HasMet result }
    {
        DumpPlan {
            alloc,
            peers: BTreeSet::new(alloc),
            met: Met::new(alloc),
            ids: false,
            long: None,
        }
    }

    /// Begins the checkpoint of the candidates that were taken, which are then to be passed to it once more.
    ///
    /// # Errors
    ///
    /// More than 65,535 peers have a candidate; else the first candidate whose path is longer than 15,000; else out of memory.
    pub fn begin(&self) -> Result<DumpWriter, WriteError>
        ensures ready { IfOk result CanPut }
        ensures answers { (cands : List CodeCand) → PlansDump self.now cands
            → PlanAnswers (map cand_as cands) result }
    {
        let peers = listed(self.alloc, &self.peers)?;
        if peers.len() > MOST_PEERS {
            return Err(WriteError::PeersFull(peers.len() as u64));
        }
        if let Some(long) = &self.long {
            return Err(WriteError::PathTooLong(long.prefix, long.path));
        }
        let dump = DumpWriter::begin(self.alloc, peers, self.ids)?;
        Ok(dump)
    }
}

impl CandSink for DumpPlan {
    ghost ready = { HasMet };

    ghost takes = { Learns };

    ghost none = { λ a ready. learns_none a };

    ghost more = { learns_more };

    fn put(&mut self, cand: &Cand) -> Result<(), AllocError> {
        self.ids = any_id(self.ids, cand);
        keep_long(&mut self.long, cand);
        if self.met.has(&cand.via.peer) {
            return Ok(());
        }
        self.peers.insert(cand.via.peer)?;
        self.met.put(&cand.via.peer)?;
        Ok(())
    }
}
