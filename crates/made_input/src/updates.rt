//! The updates: BGP4MP records of routes of the dump (RFC 6396, section 4.4.3).

ghost use Rattle.std.specs.Prelude.{◌≡◌, ◌<◌, ◌≤◌, ◌+◌, ◌*◌, ◌++◌, ℕ, length, map, IfOk, OnOk};
ghost use Rattle.std.specs.List.{range_with_len};
ghost use Rattle.made_input.specs.Draws.{state_after};
ghost use Rattle.made_input.specs.Drawn.{entry_route};
ghost use Rattle.made_input.specs.Files.{message_octets, session_body, update_body, updates_octets};
ghost use Rattle.made_input.specs.Views.{drawn_route_as, drawn_attrs_as, next_update};

use crate::attribute::{peer_as, peer_octets, put_attributes};
use crate::generator::Generator;
use crate::prefix::put_prefix;
use crate::route::{PathAttrs, Route};
use crate::scratch::Scratch;
use std::alloc::{AllocError, Global};
use wire_model::{put_behind_length, put_record, put_u16, put_u32};

/// The type of the updates' records, BGP4MP.
const BGP4MP: u16 = 16;

/// The subtype of a message whose AS numbers have four octets.
const BGP4MP_MESSAGE_AS4: u16 = 4;

/// The AS of the collector (RFC 5398, section 4).
const LOCAL_AS: u32 = 64_511;

/// The address of the collector (RFC 5737, section 3).
const LOCAL_ADDRESS: [u8; 4] = [192, 0, 2, 254];

/// The Address Family IPv4.
const IPV4: u16 = 1;

/// The octets of a message before its body: Marker, Length, Type (RFC 4271, section 4.1).
const HEADER: u16 = 19;

/// The type of an UPDATE.
const UPDATE: u8 = 2;

/// Puts the body of an UPDATE that withdraws the route or announces it with the offer; `part` is for what stands after its
/// length.
fn put_update_body(
    gone: bool,
    route: &Route,
    attrs: &PathAttrs,
    part: &mut Vec<u8>,
    out: &mut Vec<u8>,
) -> Result<(), AllocError>
    ensures { OnOk result (out.new.items ≡ out.old.items
        ++ update_body gone (drawn_route_as route.now) (drawn_attrs_as attrs.now)) }
{
    part.clear();
    if gone {
        put_prefix(route, part)?;
        put_behind_length(part, out)?;
        return put_u16(0, out);
    }
    put_attributes(route.peer, attrs, part)?;
    put_u16(0, out)?;
    put_behind_length(part, out)?;
    put_prefix(route, out)
}

/// Puts the message of an UPDATE, which has at most 4,096 octets (RFC 4271, section 4.1).
fn put_message(update: &[u8], out: &mut Vec<u8>) -> Result<(), AllocError>
    requires { length update.now ≤ 4077 }
    ensures { OnOk result (out.new.items ≡ out.old.items ++ message_octets update.now) }
{
    out.extend_from_slice(&[0xff; 16])?;
    put_u16(HEADER + update.len() as u16, out)?;
    out.push(UPDATE)?;
    out.extend_from_slice(update)
}

/// Puts the body of a record: the session, then the message of the UPDATE.
fn put_session(peer: u8, update: &[u8], out: &mut Vec<u8>) -> Result<(), AllocError>
    requires known { peer < 8 }
    requires short { length update.now ≤ 4077 }
    ensures { OnOk result (out.new.items ≡ out.old.items
        ++ session_body peer (message_octets update.now)) }
{
    put_u32(peer_as(peer), out)?;
    put_u32(LOCAL_AS, out)?;
    put_u16(0, out)?;
    put_u16(IPV4, out)?;
    out.extend_from_slice(&peer_octets(peer))?;
    out.extend_from_slice(&LOCAL_ADDRESS)?;
    put_message(update, out)
}

/// Draws the next update of these routes and puts its record.
fn put_update(
    routes: &[Route],
    from: &mut Generator,
    scratch: &mut Scratch,
    out: &mut Vec<u8>,
) -> Result<(), AllocError>
    requires { 0 < length routes.now }
    ensures put { OnOk result (out.new.items ≡ out.old.items
        ++ next_update (map drawn_route_as routes.now) from.old.state) }
    ensures state { OnOk result (from.new.state ≡ state_after from.old.state 4) }
{
    let pick = from.draw() as usize % routes.len();
    let route = routes[pick];
    let gone = from.draw() % 4 == 0;
    let attrs = PathAttrs::draw(from);
    scratch.update.clear();
    scratch.body.clear();
    put_update_body(gone, &route, &attrs, &mut scratch.part, &mut scratch.update)?;
    put_session(route.peer, &scratch.update, &mut scratch.body)?;
    put_record(BGP4MP, BGP4MP_MESSAGE_AS4, &scratch.body, out)
}

/// Draws half as many updates as there are routes.
pub fn make_updates(
    alloc: Global,
    routes: &[Route],
    from: &mut Generator,
) -> Result<Vec<u8>, AllocError>
    requires { length routes.now ≤ 200000 }
    ensures { IfOk result (λ out. (seed : ℕ)
        → map drawn_route_as routes.now ≡ map (entry_route seed) (range_with_len 0 (length routes.now))
        → from.old.state ≡ state_after seed (5 * length routes.now)
        → out.items ≡ updates_octets seed (length routes.now)) }
{
    let count = routes.len() / 2;
    let mut scratch = Scratch::new(alloc);
    let mut out = Vec::with_capacity(alloc, 91 * count)?;
    for _ in 0..count {
        put_update(routes, from, &mut scratch, &mut out)?;
    }
    Ok(out)
}
