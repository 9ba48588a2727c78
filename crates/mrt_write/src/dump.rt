//! Whole checkpoints, of candidates that come one by one.

ghost use Rattle.std.specs.Prelude.{◌≡◌, ◌≤◌, ◌++◌, List, [], ◌∷◌, ℕ, Bool, None, length, map, OnOk, IfOk};
ghost use Rattle.std.specs.List.Sorted.{IsStrictlySortedBy};
ghost use Rattle.fib_prefix.specs.Order.{code_peer_cmp};
ghost use Rattle.fib_prefix.specs.Views.{cand_as, peer_as};
ghost use Rattle.mrt_write.specs.Entries.{entry_octets};
ghost use Rattle.mrt_write.specs.Checkpoint.{table_body};
ghost use Rattle.wire_model.specs.Octets.{record_octets};
ghost use Rattle.mrt_write.specs.Dumps.{IsTableWritten, CanPut, PutsCands, WritesDump, puts_more, puts_none};

use crate::entry::{Scratch, put_entry};
use crate::growing::{Open, opened};
use crate::index::index_near;
use crate::met::Guesses;
use crate::peers::put_table;
use crate::record::put_rib;
use crate::write::MOST_PATH;
use fib_prefix::{Cand, CandSink, Peer};
use std::alloc::{AllocError, Global};
use wire_model::put_record;

/// A checkpoint that candidates are being put into, in the order of prefixes, then of path sources, each once: an MRT dump that is read as
/// exactly these (`saved_model`). Its octets are in memory, some 30 a candidate.
///
/// A candidate of another peer than the plan's, or with a path that is too long, is left out.
#[derive(Drop)]
pub struct DumpWriter {
    alloc: Global,
    peers: Vec<Peer>,
    ids: bool,
    guesses: Guesses,
    open: Option<Open>,
    scratch: Scratch,
    // the octets of the next entry
    next: Vec<u8>,
    body: Vec<u8>,
    out: Vec<u8>,
}

impl DumpWriter {
    /// Begins a checkpoint with the table of these peers.
    pub(crate) fn begin(
        alloc: Global,
        peers: Vec<Peer>,
        ids: bool,
    ) -> Result<DumpWriter, AllocError>
        requires few { length peers.items ≤ 65535 }
        ensures { IfOk result (IsTableWritten peers.items ids) }
    {
        let mut body = Vec::new(alloc);
        put_table(&peers, &mut body)?;
        let mut out = Vec::new(alloc);
        put_record(13, 1, &body, &mut out)?;
        Ok(DumpWriter {
            alloc,
            peers,
            ids,
            guesses: Guesses::new(alloc)?,
            open: None,
            scratch: Scratch::new(alloc),
            next: Vec::new(alloc),
            body,
            out,
        })
    }

    /// Adds the entry of the next candidate, to the open record or to a new one.
    fn take_entry(&mut self, cand: &Cand) -> Result<(), AllocError>
        requires ready { CanPut self.old }
        requires short { length self.old.next.items ≤ 65548 }
        ensures ready { OnOk result (CanPut self.new) }
        ensures puts { OnOk result (self.old.next.items
            ≡ entry_octets (map peer_as self.old.peers.items) self.old.ids (cand_as cand.now)
            → PutsCands self.old (cand.now ∷ []) self.new) }
    {
        match &mut self.open {
            Some(open) => open.take(self.ids, cand, &self.next, &mut self.body, &mut self.out),
            None => {
                self.open = Some(opened(self.alloc, cand, &self.next)?);
                Ok(())
            }
        }
    }

    /// The octets of the whole checkpoint.
    ///
    /// # Errors
    ///
    /// Out of memory.
    pub fn finish(self) -> Result<Vec<u8>, AllocError>
        requires { CanPut self }
        ensures { IfOk result (λ octets. (whole : List ℕ) → WritesDump self [] whole → octets.items ≡ whole) }
    {
        let DumpWriter {
            ids,
            open,
            mut body,
            mut out,
            ..
        } = self;
        if let Some(open) = open {
            put_rib(
                open.number,
                ids,
                &open.prefix,
                open.count,
                &open.entries,
                &mut body,
                &mut out,
            )?;
        }
        Ok(out)
    }
}

impl CandSink for DumpWriter {
    ghost ready = { CanPut };

    ghost takes = { PutsCands };

    ghost none = { λ a ready. puts_none a };

    ghost more = { puts_more };

    fn put(&mut self, cand: &Cand) -> Result<(), AllocError> {
        if cand.path > MOST_PATH {
            return Ok(());
        }
        let peer = &cand.via.peer;
        let guess = self.guesses.guess(peer);
        let Some(index) = index_near(&self.peers, peer, guess) else {
            return Ok(());
        };
        self.guesses.note(peer, index);
        self.next.clear();
        put_entry(index, self.ids, cand, &mut self.scratch, &mut self.next)?;
        self.take_entry(cand)
    }
}
