//! UPDATE messages.

ghost use Rattle.std.specs.Prelude.{map, ◌≡◌, ◌++◌, IfErr, OnOk, option_map};
ghost use Rattle.fib_prefix.specs.Views.{peer_as, event_as};
ghost use Rattle.wire_model.specs.Update.{reach_events, unreach_events, update};
ghost use Rattle.bgp_attrs.specs.Views.{listed_as, unreached};
ghost use Rattle.mrt_records.specs.AddsUpdate.{AddsSaid};

use crate::event::{NlriArea, Saying, push_ipv4, push_routes};
use bgp_attrs::{Attrs, Place, Refusal, Rule, Unreach, read_attrs};
use fib_prefix::{Event, Peer};
use octet_fields::{octets, u16_at};

/// Adds the events of MP_UNREACH_NLRI. It fails only if memory runs out, since the octets hold entries of NLRI.
fn push_unreached(
    events: &mut Vec<Event>,
    peer: Peer,
    unreach: Option<Unreach<'_>>,
) -> Result<(), Refusal>
    ensures ok { OnOk result (map event_as events.new.items ≡ map event_as events.old.items
        ++ unreach_events (peer_as peer) (option_map unreached unreach.entry)) }
    ensures err { IfErr result (λ refusal. refusal ≡ Refusal.NoMemory) }
{
    let Some(unreach) = unreach else {
        return Ok(());
    };
    let area = NlriArea {
        octets: unreach.nlri,
        family: unreach.family,
        ids: unreach.ids,
        cut: Rule::AttributeValue,
    };
    let saying = Saying {
        peer,
        hop: None,
        path: 0,
        origin: None,
    };
    push_routes(events, area, saying)
}

/// Adds the events of MP_REACH_NLRI, withdrawals if the list is bad. It fails only if memory runs out, since the octets hold
/// entries of NLRI.
fn push_reached(events: &mut Vec<Event>, peer: Peer, attrs: &Attrs<'_>) -> Result<(), Refusal>
    ensures ok { OnOk result (map event_as events.new.items ≡ map event_as events.old.items
        ++ reach_events (peer_as peer) (listed_as attrs.now) (listed_as attrs.now).reach) }
    ensures err { IfErr result (λ refusal. refusal ≡ Refusal.NoMemory) }
{
    let Some(reach) = attrs.reach else {
        return Ok(());
    };
    let area = NlriArea {
        octets: reach.nlri,
        family: reach.family,
        ids: reach.ids,
        cut: Rule::AttributeValue,
    };
    let saying = Saying {
        peer,
        hop: if attrs.bad { None } else { Some(reach.hop) },
        path: attrs.path,
        origin: attrs.origin,
    };
    push_routes(events, area, saying)
}

/// Adds the events of an UPDATE after its header, in their order: withdrawn routes, MP_UNREACH_NLRI's, the NLRI's, and
/// MP_REACH_NLRI's; and returns whether the message is treated as a withdrawal. If it is refused, or memory runs out, some may
/// have been added.
#[tactic(auto, unfolding(wire_model::specs::Update::update))]
pub fn push_update(
    events: &mut Vec<Event>,
    bytes: &[u8],
    wide: bool,
    ids: bool,
    peer: Peer,
) -> Result<bool, Refusal>
    ensures { AddsSaid (map event_as events.old.items) (map event_as events.new.items) result
        (update wide ids (peer_as peer) bytes.now) }
{
    let (gone_len, rest) = u16_at(Rule::UpdateLengths, bytes)?;
    let (gone, rest) = octets(Rule::UpdateLengths, usize::from(gone_len), rest)?;
    push_ipv4(
        events,
        gone,
        ids,
        Saying {
            peer,
            hop: None,
            path: 0,
            origin: None,
        },
    )?;
    let (list_len, rest) = u16_at(Rule::UpdateLengths, rest)?;
    let (list, nlri) = octets(Rule::UpdateLengths, usize::from(list_len), rest)?;
    let attrs = read_attrs(list, Place::Update { wide, ids })?;
    push_unreached(events, peer, attrs.unreach)?;
    push_ipv4(
        events,
        nlri,
        ids,
        Saying {
            peer,
            hop: attrs.hop,
            path: attrs.path,
            origin: attrs.origin,
        },
    )?;
    push_reached(events, peer, &attrs)?;
    Ok(attrs.bad)
}
