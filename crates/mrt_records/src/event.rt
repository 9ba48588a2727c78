//! What is said of prefixes.

ghost use Rattle.std.specs.Prelude.{◌≡◌, ◌++◌, ◌∷◌, [], OnOk, option_map, map};
ghost use Rattle.wire_model.specs.Rib as model;
ghost use Rattle.table_model.specs.declared.family.Family.TheVariants.{V4};
ghost use Rattle.wire_model.specs.declared.rule.Rule.TheVariants.{UpdateLengths};
ghost use Rattle.wire_model.specs.Wire.{nlris};
ghost use Rattle.fib_addr.specs.Views.{addr_as, prefix_as};
ghost use Rattle.fib_prefix.specs.Views.{peer_as, via_as, event_as};
ghost use Rattle.mrt_records.specs.AddsUpdate.{AddsRoutes};
ghost use Rattle.mrt_records.specs.UpdateViews.{said_path};

use bgp_attrs::{Refusal, Rule, next_nlri};
use fib_prefix::{Addr, Event, Family, Peer, Prefix, Via};
use std::alloc::AllocError;

/// Adds the event of a prefix: Announce with this path length, origin and next hop, Withdraw if there is no next hop. It is
/// written once, where it stays.
#[inline(always)]
pub fn push_event(
    events: &mut Vec<Event>,
    path: u32,
    origin: Option<u32>,
    hop: Option<Addr>,
    via: Via,
    prefix: Prefix,
) -> Result<(), AllocError>
    ensures { OnOk result (map event_as events.new.items ≡ map event_as events.old.items
        ++ model.event_of (record { length = path; origin = origin }) (option_map addr_as hop)
        (via_as via) (prefix_as prefix) ∷ []) }
{
    events.reserve(1)?;
    match hop {
        Some(hop) => {
            events.push_reserved(Event::Announce(via, prefix, path, hop, origin));
            Ok(())
        }
        None => {
            events.push_reserved(Event::Withdraw(via, prefix));
            Ok(())
        }
    }
}

/// What a peer says of all prefixes of a list: how long their path is, where they originate, and their next hop, or none if
/// they are withdrawn.
#[derive(Clone, Copy, Debug)]
pub struct Saying {
    /// The peer.
    pub peer: Peer,
    /// The next hop.
    pub hop: Option<Addr>,
    /// The path's length.
    pub path: u32,
    /// The AS in which the routes originate; None if the path doesn't give it.
    pub origin: Option<u32>,
}

/// Where entries of NLRI stand.
#[derive(Clone, Copy, Debug)]
pub struct NlriArea<'a> {
    /// The octets, which they fill.
    pub octets: &'a [u8],
    /// The family of their prefixes.
    pub family: Family,
    /// Whether each has a path identifier.
    pub ids: bool,
    /// The rule that a cut breaks.
    pub cut: Rule,
}

/// Adds an event for each entry of NLRI in the area, in their order. If an entry is wrong or memory runs out, the events of those
/// before it were added.
pub fn push_routes(
    events: &mut Vec<Event>,
    area: NlriArea<'_>,
    saying: Saying,
) -> Result<(), Refusal>
    ensures { AddsRoutes (peer_as saying.peer) (said_path saying) (option_map addr_as saying.hop)
        (map event_as events.old.items) (map event_as events.new.items) result
        (nlris area.entry.cut area.entry.ids area.entry.family area.entry.octets.now) }
{
    let mut rest = area.octets;
    while !rest.is_empty() {
        let (nlri, after) = next_nlri(area.cut, area.ids, area.family, rest)?;
        let via = Via {
            peer: saying.peer,
            id: nlri.id,
        };
        push_event(
            events,
            saying.path,
            saying.origin,
            saying.hop,
            via,
            nlri.prefix,
        )?;
        rest = after;
    }
    Ok(())
}

/// Adds an event for each entry of the IPv4 NLRI or withdrawn routes in these octets of an UPDATE.
pub fn push_ipv4(
    events: &mut Vec<Event>,
    octets: &[u8],
    ids: bool,
    saying: Saying,
) -> Result<(), Refusal>
    ensures { AddsRoutes (peer_as saying.peer) (said_path saying) (option_map addr_as saying.hop)
        (map event_as events.old.items) (map event_as events.new.items) result
        (nlris UpdateLengths ids V4 octets.now) }
{
    let area = NlriArea {
        octets,
        family: Family::V4,
        ids,
        cut: Rule::UpdateLengths,
    };
    push_routes(events, area, saying)
}
