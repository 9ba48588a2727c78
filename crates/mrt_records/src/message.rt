//! Messages.

ghost use Rattle.std.specs.Prelude.{map, []};
ghost use Rattle.fib_prefix.specs.Views.{peer_as, event_as};
ghost use Rattle.wire_model.specs.Update.{message};
ghost use Rattle.bgp_attrs.specs.Gives.{GivesInMemory};
ghost use Rattle.mrt_records.specs.AddsUpdate.{AddsSaid};

use crate::update::push_update;
use bgp_attrs::{Refusal, Rule};
use fib_prefix::{Event, Peer};
use octet_fields::{octet, octets, u16_at};
use std::alloc::Global;

/// The octets of a message's header.
const HEADER: usize = 19;

/// The type of an UPDATE.
const UPDATE_TYPE: u8 = 2;

/// Adds the events of one message of the peer, which fills the octets, none if it isn't an UPDATE; and returns whether it is
/// treated as a withdrawal (RFC 7606). AS numbers in it have four octets if it is wide, and else two; its prefixes have path
/// identifiers if `ids` says so. If it is refused, or memory runs out, some may have been added.
#[tactic(auto, using(crate::proofs::Adding::adds_none), unfolding(wire_model::specs::Update::message))]
pub fn push_message(
    events: &mut Vec<Event>,
    bytes: &[u8],
    wide: bool,
    ids: bool,
    peer: Peer,
) -> Result<bool, Refusal>
    ensures { AddsSaid (map event_as events.old.items) (map event_as events.new.items) result
        (message wide ids (peer_as peer) bytes.now) }
{
    if bytes.len() < HEADER {
        return Err(Refusal::Rule(Rule::MessageLength));
    }
    let (_marker, rest) = octets(Rule::MessageLength, 16, bytes)?;
    let (len, rest) = u16_at(Rule::MessageLength, rest)?;
    if usize::from(len) != bytes.len() {
        return Err(Refusal::Rule(Rule::MessageLength));
    }
    let (kind, rest) = octet(Rule::MessageLength, rest)?;
    if kind != UPDATE_TYPE {
        return Ok(false);
    }
    push_update(events, rest, wide, ids, peer)
}

/// The events of one message of the peer, and whether it is treated as a withdrawal, as `push_message` reads it.
pub fn read_message(
    alloc: Global,
    bytes: &[u8],
    wide: bool,
    ids: bool,
    peer: Peer,
) -> Result<(Vec<Event>, bool), Refusal>
    ensures { GivesInMemory (λ x. record { events = map event_as x.0.items; treated = x.1 }) result
        (message wide ids (peer_as peer) bytes.now) }
{
    let mut events = Vec::new(alloc);
    let treated = push_message(&mut events, bytes, wide, ids, peer)?;
    Ok((events, treated))
}
