//! BGP4MP records.

ghost use Rattle.std.specs.Prelude.{map, ◌≡◌, [], ◌∷◌, ◌++◌, if◌then◌else◌, OnOk, option_map};
ghost use Rattle.route_model.specs.Events.{Down};
ghost use Rattle.fib_prefix.specs.Views.{peer_as, event_as};
ghost use Rattle.wire_model.specs.Update as model;
ghost use Rattle.bgp_attrs.specs.Gives.{GivesInMemory};
ghost use Rattle.mrt_records.specs.AddsUpdate.{AddsSaid};
ghost use Rattle.mrt_records.specs.Adds.{AddsSession};
ghost use Rattle.mrt_records.specs.Views.{said_as};

use crate::number::as_number;
use crate::push_message;
use bgp_attrs::{Refusal, Rule, address, family_of};
use fib_prefix::{Event, Family, Peer};
use octet_fields::{octets, u16_at};
use std::alloc::{AllocError, Global};
use wire_model::Session;

// The subtypes that are read (RFC 6396, sections 4.4.1 to 4.4.6; RFC 8050, section 3).

const STATE_CHANGE: u16 = 0;

const MESSAGE: u16 = 1;

const MESSAGE_AS4: u16 = 4;

const STATE_CHANGE_AS4: u16 = 5;

const MESSAGE_LOCAL: u16 = 6;

const MESSAGE_AS4_LOCAL: u16 = 7;

const MESSAGE_ADDPATH: u16 = 8;

const MESSAGE_AS4_ADDPATH: u16 = 9;

const MESSAGE_LOCAL_ADDPATH: u16 = 10;

const MESSAGE_AS4_LOCAL_ADDPATH: u16 = 11;

/// The state of a session that is up.
const ESTABLISHED: u16 = 6;

/// Whether a change between these states loses the session.
fn loses(old: u16, new: u16) -> bool
    ensures { result ≡ model.is_lost old new }
{
    old == ESTABLISHED && new != ESTABLISHED
}

/// Adds the event of a session that is lost, if it is.
fn push_down(events: &mut Vec<Event>, peer: Peer, lost: bool) -> Result<(), AllocError>
    ensures { OnOk result (map event_as events.new.items ≡ map event_as events.old.items
        ++ (if lost then Down (peer_as peer) ∷ [] else [])) }
{
    if lost {
        events.push(Event::Down(peer))?;
    }
    Ok(())
}

/// Adds the event of a state change, if it is one. A state change is never treated as a withdrawal.
#[tactic(auto, unfolding(wire_model::specs::Update::state_change))]
fn push_change(events: &mut Vec<Event>, bytes: &[u8], peer: Peer) -> Result<bool, Refusal>
    ensures { AddsSaid (map event_as events.old.items) (map event_as events.new.items) result
        (model.state_change (peer_as peer) bytes.now) }
{
    let (old, rest) = u16_at(Rule::SessionForm, bytes)?;
    let (new, rest) = u16_at(Rule::SessionForm, rest)?;
    if !rest.is_empty() {
        return Err(Refusal::Rule(Rule::SessionForm));
    }
    push_down(events, peer, loses(old, new))?;
    Ok(false)
}

/// What records of this subtype hold, or `None` if they are skipped.
fn session_of(sub: u16) -> Option<Session>
    ensures { result ≡ model.session_of sub }
{
    let (wide, ids) = match sub {
        STATE_CHANGE => return Some(Session::StateChange { wide: false }),
        STATE_CHANGE_AS4 => return Some(Session::StateChange { wide: true }),
        MESSAGE | MESSAGE_LOCAL => (false, false),
        MESSAGE_AS4 | MESSAGE_AS4_LOCAL => (true, false),
        MESSAGE_ADDPATH | MESSAGE_LOCAL_ADDPATH => (false, true),
        MESSAGE_AS4_ADDPATH | MESSAGE_AS4_LOCAL_ADDPATH => (true, true),
        _ => return None,
    };
    Some(Session::Message { wide, ids })
}

/// Whether AS numbers have four octets.
fn has_wide_as(session: Session) -> bool
    ensures { result ≡ model.has_wide_as session }
{
    match session {
        Session::StateChange { wide } => wide,
        Session::Message { wide, .. } => wide,
    }
}

/// Adds the events of a state change or a message of the peer, and returns whether it is treated as a withdrawal.
fn push_said(
    events: &mut Vec<Event>,
    bytes: &[u8],
    session: Session,
    peer: Peer,
) -> Result<bool, Refusal>
    ensures { AddsSaid (map event_as events.old.items) (map event_as events.new.items) result
        (model.session_says session (peer_as peer) bytes.now) }
{
    match session {
        Session::StateChange { .. } => push_change(events, bytes, peer),
        Session::Message { wide, ids } => push_message(events, bytes, wide, ids, peer),
    }
}

/// Adds the events of a record after its Address Family; `None` if that is another one than IPv4 and IPv6.
#[tactic(auto, unfolding(wire_model::specs::Update::session_behind))]
fn push_session(
    events: &mut Vec<Event>,
    bytes: &[u8],
    session: Session,
    asn: u32,
    family: Option<Family>,
) -> Result<Option<bool>, Refusal>
    ensures { AddsSession (map event_as events.old.items) (map event_as events.new.items) result
        (model.session_behind session asn family bytes.now) }
{
    let Some(family) = family else {
        return Ok(None);
    };
    let (addr, rest) = address(Rule::SessionForm, family, bytes)?;
    let (_local, rest) = address(Rule::SessionForm, family, rest)?;
    let treated = push_said(events, rest, session, Peer { addr, asn })?;
    Ok(Some(treated))
}

/// Adds the events of a BGP4MP record of this subtype, or of a BGP4MP_ET record, which has microseconds before it, and returns
/// whether its message is treated as a withdrawal. `None` is a record that is skipped: its Address Family is neither IPv4 nor
/// IPv6, or its subtype is another one than `STATE_CHANGE` (0), `MESSAGE` (1), `MESSAGE_AS4` (4), `STATE_CHANGE_AS4` (5),
/// `MESSAGE_LOCAL` (6), `MESSAGE_AS4_LOCAL` (7) and the four with path identifiers (8 to 11, RFC 8050, section 3). If the record
/// is refused, or memory runs out, some events may have been added.
///
/// Messages of the LOCAL subtypes, which the recorder sent itself (RFC 6396, sections 4.4.5 and 4.4.6), are read as the others
/// are: their routes count as routes of the peer that they name.
#[tactic(auto, unfolding(wire_model::specs::Update::bgp4mp, wire_model::specs::Update::session_in))]
pub fn push_bgp4mp(
    events: &mut Vec<Event>,
    body: &[u8],
    sub: u16,
    micro: bool,
) -> Result<Option<bool>, Refusal>
    ensures { AddsSession (map event_as events.old.items) (map event_as events.new.items) result
        (model.bgp4mp sub micro body.now) }
{
    let Some(session) = session_of(sub) else {
        return Ok(None);
    };
    let (_time, rest) = octets(Rule::SessionForm, if micro { 4 } else { 0 }, body)?;
    let wide = has_wide_as(session);
    let (asn, rest) = as_number(Rule::SessionForm, wide, rest)?;
    let (_local, rest) = octets(Rule::SessionForm, if wide { 4 } else { 2 }, rest)?;
    let (_interface, rest) = octets(Rule::SessionForm, 2, rest)?;
    let (afi, rest) = u16_at(Rule::SessionForm, rest)?;
    push_session(events, rest, session, asn, family_of(afi))
}

/// The events of a BGP4MP record, and whether its message is treated as a withdrawal, as `push_bgp4mp` reads it; `None` if it is
/// skipped.
pub fn read_bgp4mp(
    alloc: Global,
    body: &[u8],
    sub: u16,
    micro: bool,
) -> Result<Option<(Vec<Event>, bool)>, Refusal>
    ensures { GivesInMemory (option_map said_as) result (model.bgp4mp sub micro body.now) }
{
    let mut events = Vec::new(alloc);
    match push_bgp4mp(&mut events, body, sub, micro)? {
        Some(treated) => Ok(Some((events, treated))),
        None => Ok(None),
    }
}
