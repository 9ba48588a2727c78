//! Records, by their types and subtypes.

ghost use Rattle.std.specs.Prelude.{◌≡◌, ℕ, List, [], map, option_copied, IfOk, OnErr};
ghost use Rattle.fib_prefix.specs.Views.{event_as};
ghost use Rattle.bgp_attrs.specs.Gives.{GivesInMemory};
ghost use Rattle.wire_model.specs.Input as model;
ghost use Rattle.mrt_records.specs.Adds.{AddsSession};
ghost use Rattle.mrt_records.specs.Views.{behind_peers, peers_in, record_as, rib_says, session_record_says};

use crate::bgp4mp::push_bgp4mp;
use crate::peer_table::PeerTable;
use crate::rib::push_rib;
use bgp_attrs::{Refusal, Rule};
use fib_prefix::{Event, Family};
use std::alloc::Global;

// The types that are read (RFC 6396, section 4).

const TABLE_DUMP_V2: u16 = 13;

const BGP4MP: u16 = 16;

const BGP4MP_ET: u16 = 17;

// The subtypes of TABLE_DUMP_V2 that are read (section 4.3; RFC 8050, section 4).

const PEER_INDEX_TABLE: u16 = 1;

const RIB_IPV4_UNICAST: u16 = 2;

const RIB_IPV6_UNICAST: u16 = 4;

const RIB_IPV4_UNICAST_ADDPATH: u16 = 8;

const RIB_IPV6_UNICAST_ADDPATH: u16 = 10;

/// What a record said.
#[derive(Clone, Copy, Debug, PartialEq, Eq)]
pub enum RecordTold {
    /// Nothing: it is skipped.
    Skipped,
    /// Its events, if it has any.
    Events,
    /// The events of a message that is treated as a withdrawal (RFC 7606).
    Treated,
}

/// Whether the entries of a RIB record of this type and subtype have path identifiers, and its family; `None` if it is no RIB
/// record that is read.
fn rib_of(kind: u16, sub: u16) -> Option<(bool, Family)>
    ensures { (body : List ℕ) → result ≡ model.rib_of (record { kind = kind; subtype = sub; body = body }) }
{
    match (kind, sub) {
        (TABLE_DUMP_V2, RIB_IPV4_UNICAST) => Some((false, Family::V4)),
        (TABLE_DUMP_V2, RIB_IPV6_UNICAST) => Some((false, Family::V6)),
        (TABLE_DUMP_V2, RIB_IPV4_UNICAST_ADDPATH) => Some((true, Family::V4)),
        (TABLE_DUMP_V2, RIB_IPV6_UNICAST_ADDPATH) => Some((true, Family::V6)),
        _ => None,
    }
}

/// Adds the events of a RIB record after this peer table.
fn push_rib_behind(
    events: &mut Vec<Event>,
    table: Option<&PeerTable>,
    body: &[u8],
    family: Family,
    ids: bool,
) -> Result<Option<bool>, Refusal>
    ensures { AddsSession (map event_as events.old.items) (map event_as events.new.items) result
        (rib_says (peers_in (option_copied table.entry)) ids family body.now) }
{
    let Some(table) = table else {
        return Err(Refusal::Rule(Rule::NoPeerTable));
    };
    push_rib(events, body, table, family, ids)?;
    Ok(Some(false))
}

/// Adds the events of a record of a session, and returns whether its message is treated as a withdrawal; `None` if it is skipped.
fn push_session_record(
    events: &mut Vec<Event>,
    kind: u16,
    sub: u16,
    body: &[u8],
) -> Result<Option<bool>, Refusal>
    ensures { AddsSession (map event_as events.old.items) (map event_as events.new.items) result
        (session_record_says (record { kind = kind; subtype = sub; body = body.now })) }
{
    match kind {
        BGP4MP => push_bgp4mp(events, body, sub, false),
        BGP4MP_ET => push_bgp4mp(events, body, sub, true),
        _ => Ok(None),
    }
}

/// Adds the events of a record that is no peer table, and returns whether its message is treated as a withdrawal; `None` if it is
/// skipped.
fn push_behind(
    events: &mut Vec<Event>,
    table: Option<&PeerTable>,
    kind: u16,
    sub: u16,
    body: &[u8],
) -> Result<Option<bool>, Refusal>
    ensures { AddsSession (map event_as events.old.items) (map event_as events.new.items) result
        (behind_peers (peers_in (option_copied table.entry)) (record { kind = kind; subtype = sub; body = body.now })) }
{
    match rib_of(kind, sub) {
        Some((ids, family)) => push_rib_behind(events, table, body, family, ids),
        None => push_session_record(events, kind, sub, body),
    }
}

/// What the record said, whose events stand in `events`, which was empty.
#[tactic(auto, unfolding(wire_model::specs::Input::record_in))]
fn tell(
    alloc: Global,
    events: &mut Vec<Event>,
    table: &mut Option<PeerTable>,
    kind: u16,
    sub: u16,
    body: &[u8],
) -> Result<RecordTold, Refusal>
    requires { events.old.items ≡ [] }
    ensures value { GivesInMemory (λ told. record_as table.new told (map event_as events.new.items)) result
        (model.record_in (peers_in table.old) (record { kind = kind; subtype = sub; body = body.now })) }
    ensures skips { IfOk result (λ told. told ≡ RecordTold.Skipped → events.new.items ≡ []) }
    ensures err { OnErr result (table.new ≡ table.old) }
{
    match (kind, sub) {
        (TABLE_DUMP_V2, PEER_INDEX_TABLE) => {
            *table = Some(PeerTable::read(alloc, body)?);
            Ok(RecordTold::Events)
        }
        _ => match push_behind(events, table.as_ref(), kind, sub, body)? {
            None => Ok(RecordTold::Skipped),
            Some(false) => Ok(RecordTold::Events),
            Some(true) => Ok(RecordTold::Treated),
        },
    }
}

/// Reads the record of this type, subtype and body: its events take the place of what stood in `events`, and it returns what the
/// record said. What is read are TABLE_DUMP_V2's peer tables and unicast RIB records, and the state changes and messages of
/// BGP4MP and BGP4MP_ET, with path identifiers or without; all others are skipped.
///
/// RIB records are read after the latest peer table. A record that is one has no events, and takes its place.
///
/// # Errors
///
/// The rule that the first wrong field breaks, or out of memory; then the peer table is as it was, and `events` is empty.
pub fn read_record(
    alloc: Global,
    events: &mut Vec<Event>,
    table: &mut Option<PeerTable>,
    kind: u16,
    sub: u16,
    body: &[u8],
) -> Result<RecordTold, Refusal>
    ensures value { GivesInMemory (λ told. record_as table.new told (map event_as events.new.items)) result
        (model.record_in (peers_in table.old) (record { kind = kind; subtype = sub; body = body.now })) }
    ensures skips { IfOk result (λ told. told ≡ RecordTold.Skipped → events.new.items ≡ []) }
    ensures err { OnErr result (table.new ≡ table.old) }
    ensures none { OnErr result (events.new.items ≡ []) }
{
    events.clear();
    match tell(alloc, events, table, kind, sub, body) {
        Ok(told) => Ok(told),
        Err(refusal) => {
            events.clear();
            Err(refusal)
        }
    }
}
