//! Next hops.

ghost use Rattle.std.specs.Prelude.{◌≡◌, IfOk, IsTrue, length};
ghost use Rattle.table_model.specs.declared.family.Family.TheVariants.{V4};
ghost use Rattle.octet_fields.specs.Gives.{Gives};
ghost use Rattle.wire_model.specs.Attribute.{full_hop, hop_of, is_hop_length, next_hop_at, rib_hop};
ghost use Rattle.fib_addr.specs.Views.{addr_as};
ghost use Rattle.bgp_attrs.specs.Views.{hop_as, hop_read};

use crate::hop_octets::HopOctets;
use crate::{Rule, family};
use byteorder::{BigEndian, ByteOrder};
use fib_addr::{Addr, Family};
use octet_fields::{octet, octets};

/// The address in the octets of a next hop: 4 are IPv4, and of 16 or 32 the first 16 are IPv6 (RFC 2545, section 3).
#[inline(always)]
pub fn next_hop(octets: &[u8]) -> Addr
    requires { IsTrue (is_hop_length V4 (length octets.now)) }
    ensures { addr_as result ≡ hop_of octets.now }
{
    if octets.len() == 4 {
        Addr::v4(BigEndian::read_u32(octets))
    } else {
        Addr::from_octets(Family::V6, &octets[..16])
    }
}

/// Whether a next hop for this family may have `len` octets (RFC 4271, section 5.1.3; RFC 2545, section 3; RFC 8950,
/// section 3).
#[inline(always)]
fn is_next_hop(family: Family, len: u8) -> bool
    ensures { result ≡ is_hop_length family len }
{
    match family {
        Family::V4 => len == 4 || len == 16 || len == 32,
        Family::V6 => len == 16 || len == 32,
    }
}

/// The octets of the next hop after its length, and what follows them.
#[tactic(auto, unfolding(wire_model::specs::Attribute::next_hop_at))]
#[inline(always)]
fn hop_octets_of(family: Family, bytes: &[u8]) -> Result<(&[u8], &[u8]), Rule>
    ensures value { Gives (λ x. (hop_of x.0.now, x.1.now)) result (next_hop_at family bytes.now) }
    ensures fits { IfOk result (λ x. IsTrue (is_hop_length V4 (length x.0.now))) }
{
    let (len, rest) = octet(Rule::AttributeValue, bytes)?;
    if !is_next_hop(family, len) {
        return Err(Rule::AttributeValue);
    }
    octets(Rule::AttributeValue, usize::from(len), rest)
}

/// The next hop after its length, and what follows it.
#[inline(always)]
pub fn next_hop_of(family: Family, bytes: &[u8]) -> Result<(Addr, &[u8]), Rule>
    ensures { Gives (λ x. (addr_as x.0, x.1.now)) result (next_hop_at family bytes.now) }
{
    let (hop, rest) = hop_octets_of(family, bytes)?;
    Ok((next_hop(hop), rest))
}

/// The octets of the next hop after AFI and SAFI, which have to name this family, and what follows them.
#[tactic(auto, unfolding(wire_model::specs::Attribute::full_hop))]
fn hop_octets_in_full(wanted: Family, value: &[u8]) -> Result<(&[u8], &[u8]), Rule>
    ensures value { Gives (λ x. (hop_of x.0.now, x.1.now)) result (full_hop wanted value.now) }
    ensures fits { IfOk result (λ x. IsTrue (is_hop_length V4 (length x.0.now))) }
{
    let (other, rest) = family(value)?;
    if other != Some(wanted) {
        return Err(Rule::AttributeValue);
    }
    hop_octets_of(wanted, rest)
}

/// The octets of the next hop in the MP_REACH_NLRI of a RIB entry, and what follows them: RFC 6396, section 4.3.4 has the next hop's
/// length and the next hop alone. A value that begins with 0 is RFC 4760's full form, as some daemons write it: no next hop has
/// length 0, and AFI 1 and 2 begin with 0.
#[tactic(auto, unfolding(wire_model::specs::Attribute::rib_hop))]
fn hop_octets_in_rib(family: Family, value: &[u8]) -> Result<(&[u8], &[u8]), Rule>
    ensures value { Gives (λ x. (hop_of x.0.now, x.1.now)) result (rib_hop family value.now) }
    ensures fits { IfOk result (λ x. IsTrue (is_hop_length V4 (length x.0.now))) }
{
    match value {
        [] => Err(Rule::AttributeValue),
        [0, ..] => hop_octets_in_full(family, value),
        _ => hop_octets_of(family, value),
    }
}

/// The next hop in the MP_REACH_NLRI of a RIB entry; none if it can't be read.
pub fn next_hop_in_rib(family: Family, value: &[u8]) -> HopOctets<'_>
    ensures { hop_as result ≡ hop_read (rib_hop family value.now) }
{
    match hop_octets_in_rib(family, value) {
        Ok((octets, _)) => HopOctets::new(octets),
        Err(_) => HopOctets::none(),
    }
}
