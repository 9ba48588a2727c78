//! Peer tables.

ghost use Rattle.std.specs.Prelude.{map, []};
ghost use Rattle.octet_fields.specs.Field.{one_more, times};
ghost use Rattle.octet_fields.specs.Gives.{Gives};
ghost use Rattle.fib_prefix.specs.Views.{peer_as};
ghost use Rattle.wire_model.specs.Rib.{peer_at, peer_table};
ghost use Rattle.bgp_attrs.specs.Gives.{GivesInMemory};

use crate::number::as_number;
use bgp_attrs::{Refusal, Rule, address};
use fib_prefix::{Family, Peer};
use octet_fields::{octet, octets, u16_at};
use std::alloc::Global;

/// Set in a Peer Type if the peer's address is IPv6: the bit I of RFC 6396, section 4.3.1.
const IS_IPV6: u8 = 0b01;

/// Set in a Peer Type if the peer's AS has four octets: the bit A.
const HAS_WIDE_AS: u8 = 0b10;

/// The peer that comes first, and what follows it.
#[tactic(auto, unfolding(wire_model::specs::Rib::peer_at))]
fn peer(bytes: &[u8]) -> Result<(Peer, &[u8]), Rule>
    ensures { Gives (λ x. (peer_as x.0, x.1.now)) result (peer_at bytes.now) }
{
    let (kind, rest) = octet(Rule::PeerTableForm, bytes)?;
    let (_id, rest) = octets(Rule::PeerTableForm, 4, rest)?;
    let family = if kind & IS_IPV6 == 0 {
        Family::V4
    } else {
        Family::V6
    };
    let (addr, rest) = address(Rule::PeerTableForm, family, rest)?;
    let (asn, rest) = as_number(Rule::PeerTableForm, kind & HAS_WIDE_AS != 0, rest)?;
    Ok((Peer { addr, asn }, rest))
}

/// So many peers, and what follows them.
fn peers(alloc: Global, count: u16, bytes: &[u8]) -> Result<(Vec<Peer>, &[u8]), Refusal>
    ensures { GivesInMemory (λ x. (map peer_as x.0.items, x.1.now)) result
        (times (one_more peer_at) count [] bytes.now) }
{
    let mut peers = Vec::new(alloc);
    let mut rest = bytes;
    for _ in 0..count {
        let (peer, after) = peer(rest)?;
        peers.push(peer)?;
        rest = after;
    }
    Ok((peers, rest))
}

/// The peers that RIB entries name by their index.
#[derive(Debug, Drop)]
pub struct PeerTable {
    pub(crate) peers: Vec<Peer>,
}

impl PeerTable {
    ghost use Rattle.mrt_records.specs.Views.{peers_of};

    /// Reads a PEER_INDEX_TABLE.
    #[tactic(auto, unfolding(wire_model::specs::Rib::peer_table))]
    pub fn read(alloc: Global, body: &[u8]) -> Result<PeerTable, Refusal>
        ensures { GivesInMemory peers_of result (peer_table body.now) }
    {
        let (_id, rest) = octets(Rule::PeerTableForm, 4, body)?;
        let (len, rest) = u16_at(Rule::PeerTableForm, rest)?;
        let (_name, rest) = octets(Rule::PeerTableForm, usize::from(len), rest)?;
        let (count, rest) = u16_at(Rule::PeerTableForm, rest)?;
        let (peers, rest) = peers(alloc, count, rest)?;
        if !rest.is_empty() {
            return Err(Refusal::Rule(Rule::PeerTableForm));
        }
        Ok(PeerTable { peers })
    }
}
