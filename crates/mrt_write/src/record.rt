//! RIB records.

ghost use Rattle.std.specs.Prelude.{◌≡◌, ◌≤◌, ◌<◌, ◌+◌, ◌^◌, ◌++◌, List, length, flat_map, OnOk};
ghost use Rattle.table_model.specs.Address.{Prefix};
ghost use Rattle.route_model.specs.Events.{Peer};
ghost use Rattle.fib_addr.specs.Views.{prefix_as};
ghost use Rattle.wire_model.specs.Octets.{record_octets};
ghost use Rattle.mrt_write.specs.Entries.{entry_octets};
ghost use Rattle.mrt_write.specs.Checkpoint.{Piece, piece_record, rib_subtype};

use crate::field::put_prefix;
use fib_addr::{Family, Prefix};
use std::alloc::AllocError;
use wire_model::{put_record, put_u16, put_u32};

/// The subtype of a RIB record.
fn subtype_of(ids: bool, family: Family) -> u16
    ensures { result ≡ rib_subtype ids family }
{
    match (ids, family) {
        (false, Family::V4) => 2,
        (false, Family::V6) => 4,
        (true, Family::V4) => 8,
        (true, Family::V6) => 10,
    }
}

/// Puts the record of a piece: of this prefix, with `count` entries in these octets. There is `body` for its body.
pub fn put_rib(
    number: u32,
    ids: bool,
    prefix: &Prefix,
    count: u16,
    entries: &[u8],
    body: &mut Vec<u8>,
    out: &mut Vec<u8>,
) -> Result<(), AllocError>
    requires { length entries.now + 32 < 2 ^ 32 }
    ensures { OnOk result ((peers : List Peer) (p : Piece) → p.prefix ≡ prefix_as prefix.now
        → length p.candidates ≡ count → entries.now ≡ flat_map (entry_octets peers ids) p.candidates
        → out.new.items ≡ out.old.items ++ piece_record peers ids number p) }
{
    body.clear();
    put_u32(number, body)?;
    put_prefix(prefix, body)?;
    put_u16(count, body)?;
    body.extend_from_slice(entries)?;
    put_record(13, subtype_of(ids, prefix.family), body, out)
}
