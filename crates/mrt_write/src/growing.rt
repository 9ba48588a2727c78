//! The record that candidates are being put into.

ghost use Rattle.std.specs.Prelude.{◌≡◌, ◌≤◌, ◌<◌, ◌+◌, ◌^◌, ◌++◌, ◌∷◌, Bool, true, List, ℕ, length, flat_map, IfOk, OnOk};
ghost use Rattle.route_model.specs.Events.{Peer};
ghost use Rattle.route_model.specs.Choice.{Candidates};
ghost use Rattle.fib_addr.specs.Views.{prefix_as};
ghost use Rattle.mrt_write.specs.Entries.{entry_octets};
ghost use Rattle.mrt_write.specs.Checkpoint.{Piece, piece_records};
ghost use Rattle.mrt_write.specs.Saved.{has_place, pieces_from};
ghost use Rattle.fib_prefix.specs.Views.{cand_as};
ghost use Rattle.mrt_write.specs.Holds.{OpenHolds, OpenTakes};

use crate::record::put_rib;
use fib_addr::Prefix;
use fib_prefix::Cand;
use std::alloc::{AllocError, Global};

/// The most entries of a record, whose number has two octets.
const MOST_ENTRIES: u16 = 65_535;

/// The longest body that is read.
const MOST_BODY: usize = 16_777_216;

/// A record that isn't closed yet: its number, its prefix, and its entries so far.
#[derive(Drop)]
pub struct Open {
    /// Its number, of four octets: the first one's is 0.
    pub number: u32,
    /// The prefix.
    pub prefix: Prefix,
    /// How many entries.
    pub count: u16,
    /// Their octets.
    pub entries: Vec<u8>,
}

/// Whether a record of this prefix, with `count` entries of `octets` octets, takes one more of the candidate, which has `more`
/// octets.
fn has_room(prefix: &Prefix, count: u16, octets: usize, cand: &Cand, more: usize) -> bool
    requires few { octets + more < 2 ^ 60 }
    ensures room { result ≡ true → (count < 65535) × (octets + more ≤ 16777216) }
    ensures fits { (peers : List Peer) (ids : Bool) (p : Piece) → p.prefix ≡ prefix_as prefix.now → length p.candidates ≡ count
        → length (flat_map (entry_octets peers ids) p.candidates) ≡ octets
        → length (entry_octets peers ids (cand_as cand.now)) ≡ more
        → result ≡ has_place peers ids p (cand_as cand.now) }
{
    let same = *prefix == cand.prefix;
    let few = count < MOST_ENTRIES;
    let small = 7 + usize::from(prefix.len.div_ceil(8)) + octets + more <= MOST_BODY;
    same & few & small
}

/// The first record, of this candidate, whose entry has these octets.
pub fn opened(alloc: Global, cand: &Cand, entry: &[u8]) -> Result<Open, AllocError>
    ensures { IfOk result (λ o. (o.number ≡ 0) × (o.prefix ≡ cand.now.prefix) × (o.count ≡ 1)
        × (o.entries.items ≡ entry.now)) }
{
    let mut entries = Vec::new(alloc);
    entries.extend_from_slice(entry)?;
    Ok(Open {
        number: 0,
        prefix: cand.prefix,
        count: 1,
        entries,
    })
}

impl Open {
    /// Adds the entry of the next candidate, which has these octets: to this record if it has room, else to the next one, before
    /// which this one is put.
    pub fn take(
        &mut self,
        ids: bool,
        cand: &Cand,
        entry: &[u8],
        body: &mut Vec<u8>,
        out: &mut Vec<u8>,
    ) -> Result<(), AllocError>
        requires few { length self.old.entries.items ≤ 16777216 }
        requires short { length entry.now ≤ 65548 }
        ensures takes { OnOk result (OpenTakes ids (cand_as cand.now) entry.now
            self.old out.old.items self.new out.new.items) }
        ensures few { OnOk result (length self.new.entries.items ≤ 16777216) }
    {
        let octets: &[u8] = &self.entries;
        if has_room(&self.prefix, self.count, octets.len(), cand, entry.len()) {
            self.count += 1;
            return self.entries.extend_from_slice(entry);
        }
        put_rib(
            self.number,
            ids,
            &self.prefix,
            self.count,
            &self.entries,
            body,
            out,
        )?;
        self.number = self.number.wrapping_add(1);
        self.prefix = cand.prefix;
        self.count = 1;
        self.entries.clear();
        self.entries.extend_from_slice(entry)
    }
}
