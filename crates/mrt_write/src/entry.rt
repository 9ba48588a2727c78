//! Entries of RIB records.

ghost use Rattle.std.specs.Prelude.{◌≡◌, ◌≤◌, ◌<◌, ◌++◌, [], length, OnOk};
ghost use Rattle.fib_prefix.specs.Views.{cand_as, peer_as};
ghost use Rattle.std.specs.Prelude.{List};
ghost use Rattle.route_model.specs.Events.{Peer};
ghost use Rattle.wire_model.specs.Octets.{behind_length};
ghost use Rattle.mrt_write.specs.Entries.{attributes_of, entry_octets, id_octets, peer_index};

use crate::attribute::{SHORT_PATH, put_as_path, put_hop};
use fib_prefix::{Cand, Family};
use std::alloc::{AllocError, Global};
use wire_model::{put_behind_length, put_u16, put_u32};

/// Puts a candidate's attributes.
fn put_attributes(cand: &Cand, value: &mut Vec<u8>, out: &mut Vec<u8>) -> Result<(), AllocError>
    requires { cand.now.path ≤ 15000 }
    ensures { OnOk result (out.new.items ≡ out.old.items ++ attributes_of (cand_as cand.now)) }
{
    put_as_path(cand.via.peer.asn, cand.path, value, out)?;
    put_hop(&cand.hop, out)
}

/// How many octets the attributes of a candidate have, whose path is short.
fn short_length(cand: &Cand) -> u16
    requires { cand.now.path < 64 }
    ensures { result ≡ length (attributes_of (cand_as cand.now)) }
{
    let hop = match cand.hop.family {
        Family::V4 => 7,
        Family::V6 => 20,
    };
    if cand.path == 0 {
        return hop;
    }
    hop + 5 + 4 * cand.path as u16
}

/// Puts a path identifier, if entries have one.
fn put_id(ids: bool, id: u32, out: &mut Vec<u8>) -> Result<(), AllocError>
    ensures { OnOk result (out.new.items ≡ out.old.items ++ id_octets ids id) }
{
    if ids { put_u32(id, out) } else { Ok(()) }
}

/// Room that the parts of entries are put into before their lengths are known.
#[derive(Drop)]
pub struct Scratch {
    value: Vec<u8>,
    part: Vec<u8>,
}

impl Scratch {
    /// Empty room.
    pub fn new(alloc: Global) -> Scratch
        ensures value { result.value.items ≡ [] }
        ensures part { result.part.items ≡ [] }
    {
        Scratch {
            value: Vec::new(alloc),
            part: Vec::new(alloc),
        }
    }
}

/// Puts a candidate's attributes after their length, which is known before if the path is short.
fn put_part(cand: &Cand, scratch: &mut Scratch, out: &mut Vec<u8>) -> Result<(), AllocError>
    requires { cand.now.path ≤ 15000 }
    ensures { OnOk result (out.new.items ≡ out.old.items ++ behind_length (attributes_of (cand_as cand.now))) }
{
    if cand.path < SHORT_PATH {
        put_u16(short_length(cand), out)?;
        return put_attributes(cand, &mut scratch.value, out);
    }
    scratch.part.clear();
    put_attributes(cand, &mut scratch.value, &mut scratch.part)?;
    put_behind_length(&scratch.part, out)
}

/// Puts a candidate's entry, of a peer with this index.
pub fn put_entry(
    index: u16,
    ids: bool,
    cand: &Cand,
    scratch: &mut Scratch,
    out: &mut Vec<u8>,
) -> Result<(), AllocError>
    requires { cand.now.path ≤ 15000 }
    ensures { OnOk result ((peers : List Peer) → peer_index peers (peer_as cand.now.via.peer) ≡ index
        → out.new.items ≡ out.old.items ++ entry_octets peers ids (cand_as cand.now)) }
{
    put_u16(index, out)?;
    put_u32(0, out)?;
    put_id(ids, cand.via.id, out)?;
    put_part(cand, scratch, out)
}
