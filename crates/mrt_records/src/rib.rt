//! Unicast RIB records.

ghost use Rattle.std.specs.Prelude.{◌≡◌, [], map};
ghost use Rattle.octet_fields.specs.Field.{one_more, times};
ghost use Rattle.fib_addr.specs.Views.{prefix_as};
ghost use Rattle.fib_prefix.specs.Views.{peer_as, event_as};
ghost use Rattle.wire_model.specs.Rib.{rib_entry_at, entry_hop, rib};
ghost use Rattle.bgp_attrs.specs.Views.{hop_as, rib_listed_as};
ghost use Rattle.bgp_attrs.specs.Gives.{GivesInMemory};
ghost use Rattle.mrt_records.specs.AddsUpdate.{AddsEvents};
ghost use Rattle.mrt_records.specs.Adds.{AddsEntries, AddsEntry};
ghost use Rattle.mrt_records.specs.Views.{peers_of};

use crate::peer_table::PeerTable;
use crate::push_event;
use bgp_attrs::{HopOctets, Refusal, RibAttrs, Rule, path_id, prefix, read_rib_attrs};
use fib_prefix::{Event, Family, Peer, Prefix, Via};
use octet_fields::{octets, u16_at};
use std::alloc::Global;

/// The next hop of an entry in a record of this family.
#[inline(always)]
fn hop_of_entry<'a>(family: Family, attrs: &RibAttrs<'a>) -> HopOctets<'a>
    ensures { hop_as result ≡ entry_hop family (rib_listed_as family attrs.now) }
{
    match family {
        Family::V4 => attrs.hop.or(attrs.reach),
        Family::V6 => attrs.reach.or(attrs.hop),
    }
}

/// Adds the event of the first entry, and returns what follows it.
#[tactic(auto, unfolding(wire_model::specs::Rib::rib_entry_at))]
#[inline(always)]
fn push_entry<'a>(
    events: &mut Vec<Event>,
    peers: &[Peer],
    ids: bool,
    family: Family,
    prefix: Prefix,
    bytes: &'a [u8],
) -> Result<&'a [u8], Refusal>
    ensures { AddsEntry (λ rest. rest.now) (map event_as events.old.items)
        (map event_as events.new.items) result (rib_entry_at (map peer_as peers.now)
        ids family (prefix_as prefix) bytes.now) }
{
    let (index, rest) = u16_at(Rule::RibForm, bytes)?;
    let Some(peer) = peers.get(usize::from(index)) else {
        return Err(Refusal::Rule(Rule::PeerIndex));
    };
    let (_time, rest) = octets(Rule::RibForm, 4, rest)?;
    let (id, rest) = path_id(Rule::RibForm, ids, rest)?;
    let (len, rest) = u16_at(Rule::RibForm, rest)?;
    let (area, rest) = octets(Rule::RibForm, usize::from(len), rest)?;
    let attrs = read_rib_attrs(area, family)?;
    let via = Via { peer: *peer, id };
    push_event(
        events,
        attrs.path,
        attrs.origin,
        hop_of_entry(family, &attrs).addr(),
        via,
        prefix,
    )?;
    Ok(rest)
}

/// Adds the events of `count` entries, in their order, and returns what follows them.
fn push_entries<'a>(
    events: &mut Vec<Event>,
    peers: &[Peer],
    ids: bool,
    family: Family,
    prefix: Prefix,
    count: u16,
    bytes: &'a [u8],
) -> Result<&'a [u8], Refusal>
    ensures { AddsEntries (λ rest. rest.now) (map event_as events.old.items)
        (map event_as events.new.items) result (times (one_more (rib_entry_at (map peer_as peers.now)
        ids family (prefix_as prefix))) count [] bytes.now) }
{
    let mut rest = bytes;
    for _ in 0..count {
        rest = push_entry(events, peers, ids, family, prefix, rest)?;
    }
    Ok(rest)
}

/// Adds an event for each entry of a RIB_IPV4_UNICAST or RIB_IPV6_UNICAST record after the peer table, in their order; with `ids`
/// of a RIB_IPV4_UNICAST_ADDPATH or RIB_IPV6_UNICAST_ADDPATH record (RFC 8050, section 4), whose entries have path identifiers.
/// If the record is refused, or memory runs out, some may have been added.
#[tactic(auto, unfolding(wire_model::specs::Rib::rib))]
pub fn push_rib(
    events: &mut Vec<Event>,
    body: &[u8],
    table: &PeerTable,
    family: Family,
    ids: bool,
) -> Result<(), Refusal>
    ensures { AddsEvents (map event_as events.old.items) (map event_as events.new.items) result
        (rib (peers_of table.now) ids family body.now) }
{
    let (_sequence, rest) = octets(Rule::RibForm, 4, body)?;
    let (prefix, rest) = prefix(Rule::RibForm, family, rest)?;
    let (count, rest) = u16_at(Rule::RibForm, rest)?;
    let rest = push_entries(events, &table.peers, ids, family, prefix, count, rest)?;
    if !rest.is_empty() {
        return Err(Refusal::Rule(Rule::RibForm));
    }
    Ok(())
}

/// The events of a RIB record, as `push_rib` reads it.
pub fn read_rib(
    alloc: Global,
    body: &[u8],
    table: &PeerTable,
    family: Family,
    ids: bool,
) -> Result<Vec<Event>, Refusal>
    ensures { GivesInMemory (λ events. map event_as events.items) result
        (rib (peers_of table.now) ids family body.now) }
{
    let mut events = Vec::new(alloc);
    push_rib(&mut events, body, table, family, ids)?;
    Ok(events)
}
