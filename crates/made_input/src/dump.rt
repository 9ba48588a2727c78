//! The dump: a peer table, then a RIB record for each route (RFC 6396, section 4.3).

ghost use Rattle.std.specs.Prelude.{◌≡◌, ◌<◌, ◌≤◌, ◌+◌, ◌*◌, ◌++◌, length, map, IfOk, OnOk};
ghost use Rattle.std.specs.List.{range_with_len};
ghost use Rattle.made_input.specs.Draws.{state_after};
ghost use Rattle.made_input.specs.Drawn.{route, entry_route};
ghost use Rattle.made_input.specs.Files.{peer_entry, peer_table_body, rib_body, dump_octets};
ghost use Rattle.made_input.specs.Views.{drawn_route_as, drawn_attrs_as, entry_record};

use crate::attribute::{peer_as, peer_octets, put_attributes};
use crate::generator::Generator;
use crate::prefix::put_prefix;
use crate::route::{PathAttrs, Route};
use crate::scratch::Scratch;
use std::alloc::{AllocError, Global};
use wire_model::{put_behind_length, put_record, put_u16, put_u32};

/// The type of the dump's records, TABLE_DUMP_V2.
const TABLE_DUMP_V2: u16 = 13;

/// The subtype of a peer table.
const PEER_INDEX_TABLE: u16 = 1;

/// The subtype of a prefix's entries.
const RIB_IPV4_UNICAST: u16 = 2;

/// A Peer Type: the address is IPv4, and the AS has four octets.
const AS_OF_FOUR_OCTETS: u8 = 0x02;

/// How many peers there are.
const PEERS: u8 = 8;

/// Puts a peer: its type, its BGP ID, its address and its AS.
fn put_peer(peer: u8, out: &mut Vec<u8>) -> Result<(), AllocError>
    requires { peer < 8 }
    ensures { OnOk result (out.new.items ≡ out.old.items ++ peer_entry peer) }
{
    let address = peer_octets(peer);
    out.push(AS_OF_FOUR_OCTETS)?;
    out.extend_from_slice(&address)?;
    out.extend_from_slice(&address)?;
    put_u32(peer_as(peer), out)
}

/// Puts the body of a peer table: Collector BGP ID, View Name Length, Peer Count and the peers.
fn put_peers(out: &mut Vec<u8>) -> Result<(), AllocError>
    ensures { OnOk result (out.new.items ≡ out.old.items ++ peer_table_body) }
{
    put_u32(0, out)?;
    put_u16(0, out)?;
    put_u16(u16::from(PEERS), out)?;
    for peer in 0..PEERS {
        put_peer(peer, out)?;
    }
    Ok(())
}

/// Puts the body of a RIB record: Sequence, the prefix, and one entry: Peer Index, Originated Time, the attributes, for which
/// there is `part`.
fn put_rib(
    number: u32,
    route: &Route,
    attrs: &PathAttrs,
    part: &mut Vec<u8>,
    out: &mut Vec<u8>,
) -> Result<(), AllocError>
    ensures { OnOk result (out.new.items ≡ out.old.items
        ++ rib_body number (drawn_route_as route.now) (drawn_attrs_as attrs.now)) }
{
    part.clear();
    put_attributes(route.peer, attrs, part)?;
    put_u32(number, out)?;
    put_prefix(route, out)?;
    put_u16(1, out)?;
    put_u16(u16::from(route.peer), out)?;
    put_u32(0, out)?;
    put_behind_length(part, out)
}

/// Draws the next entry and puts its record; the route.
fn put_entry(
    number: u32,
    from: &mut Generator,
    scratch: &mut Scratch,
    out: &mut Vec<u8>,
) -> Result<Route, AllocError>
    ensures route { IfOk result (λ r. drawn_route_as r ≡ route from.old.state) }
    ensures put { OnOk result (out.new.items ≡ out.old.items
        ++ entry_record number from.old.state) }
    ensures state { OnOk result (from.new.state ≡ state_after from.old.state 5) }
{
    let route = Route::draw(from);
    let attrs = PathAttrs::draw(from);
    scratch.body.clear();
    put_rib(number, &route, &attrs, &mut scratch.part, &mut scratch.body)?;
    put_record(TABLE_DUMP_V2, RIB_IPV4_UNICAST, &scratch.body, out)?;
    Ok(route)
}

/// Draws `count` routes; the dump and the routes.
pub fn make_dump(
    alloc: Global,
    count: u32,
    from: &mut Generator,
) -> Result<(Vec<u8>, Vec<Route>), AllocError>
    requires { count ≤ 200000 }
    ensures dump { IfOk result (λ made. made.0.items ≡ dump_octets from.old.state count) }
    ensures routes { IfOk result (λ made. map drawn_route_as made.1.items
        ≡ map (entry_route from.old.state) (range_with_len 0 count)) }
    ensures state { OnOk result (from.new.state ≡ state_after from.old.state (5 * count)) }
{
    let mut scratch = Scratch::new(alloc);
    let mut out = Vec::with_capacity(alloc, 124 + 62 * count as usize)?;
    let mut routes = Vec::with_capacity(alloc, count as usize)?;
    put_peers(&mut scratch.body)?;
    put_record(TABLE_DUMP_V2, PEER_INDEX_TABLE, &scratch.body, &mut out)?;
    for number in 0..count {
        let route = put_entry(number, from, &mut scratch, &mut out)?;
        routes.push(route)?;
    }
    Ok((out, routes))
}
