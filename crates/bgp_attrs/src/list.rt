//! Attribute lists.

ghost use Rattle.std.specs.Prelude.{◌≡◌, ◌<◌, ◌^◌, length, IfOk, option_map};
ghost use Rattle.octet_fields.specs.Gives.{Gives};
ghost use Rattle.wire_model.specs.Path.{as_size, path_of};
ghost use Rattle.wire_model.specs.Attribute.{attribute_at, attributes, is_bad, is_wide, judged, listed_from, next_hop_in, nothing_found, with_as_path, with_next_hop, with_reach, with_unreach, with_value};
ghost use Rattle.fib_addr.specs.Views.{addr_as};
ghost use Rattle.bgp_attrs.specs.Views.{found_as, ipv4_as, judged_as, listed_as};

use crate::kinds::{AS_PATH, MP_REACH_NLRI, MP_UNREACH_NLRI, NEXT_HOP, value_len};
use crate::multiprotocol::{Reach, Unreach};
use crate::path::{Path, read_path};
use crate::reach::{reach_in_rib, reach_in_update, unreach_in_update};
use crate::{Rule, family};
use byteorder::{BigEndian, ByteOrder};
use fib_addr::Addr;
use octet_fields::{octet, octets};
use wire_model::Place;

/// What an attribute list gives.
#[derive(Clone, Copy, Debug)]
pub struct Attrs<'a> {
    /// How long the path is; 0 without an AS_PATH, and if the list is bad.
    pub path: u32,
    /// The AS in which the route originates (RFC 6811, section 2); None without an AS_PATH, if it doesn't give the origin, and
    /// if the list is bad.
    pub origin: Option<u32>,
    /// NEXT_HOP; None if the list is bad.
    pub hop: Option<Addr>,
    /// MP_REACH_NLRI. None if it is missing or of a family that isn't read; in a RIB entry also if it can't be read
    /// or isn't of the record's family.
    pub reach: Option<Reach<'a>>,
    /// MP_UNREACH_NLRI. None if it is missing or of a family that isn't read, and in a RIB entry.
    pub unreach: Option<Unreach<'a>>,
    /// Whether, in an UPDATE, the first AS_PATH or the first NEXT_HOP isn't of its form, so that the message is treated as a withdrawal
    /// (RFC 7606, sections 7.2 and 7.3).
    pub bad: bool,
}

/// What stood in the list so far; of AS_PATH and NEXT_HOP the value, or none if it isn't of its form.
#[derive(Clone, Copy)]
struct Found<'a> {
    reach: Option<Reach<'a>>,
    unreach: Option<Unreach<'a>>,
    path: Option<Option<Path>>,
    // The bits of an IPv4 address.
    hop: Option<Option<u32>>,
    has_reach: bool,
    has_unreach: bool,
}

/// Nothing stood there.
#[inline(always)]
fn nothing<'a>() -> Found<'a>
    ensures { found_as result ≡ nothing_found }
{
    Found {
        reach: None,
        unreach: None,
        path: None,
        hop: None,
        has_reach: false,
        has_unreach: false,
    }
}

/// A value, or none if it isn't of its form in an UPDATE; in a RIB entry the rule that it breaks.
#[inline(always)]
fn judge<A: Drop>(place: Place, read: Result<A, Rule>) -> Result<Option<A>, Rule>
    ensures { result ≡ judged place read }
{
    match (read, place) {
        (Ok(value), _) => Ok(Some(value)),
        (Err(rule), Place::Rib(_)) => Err(rule),
        (Err(_), Place::Update { .. }) => Ok(None),
    }
}

/// Whether AS numbers have four octets.
#[inline(always)]
fn has_wide_as(place: Place) -> bool
    ensures { result ≡ is_wide place }
{
    match place {
        Place::Rib(_) => true,
        Place::Update { wide, .. } => wide,
    }
}

/// An AS_PATH; the first counts (RFC 7606, section 3 (g)).
#[tactic(auto, unfolding(wire_model::specs::Attribute::with_as_path))]
#[inline(always)]
fn take_as_path(found: &mut Found<'_>, place: Place, value: &[u8]) -> Result<(), Rule>
    requires { length value.now < 2 ^ 32 }
    ensures { Gives (λ x. found_as found.new) result
        (with_as_path place (found_as found.old) value.now) }
{
    if found.path.is_none() {
        found.path = Some(judge(place, read_path(value, has_wide_as(place)))?);
    }
    Ok(())
}

/// The bits of the address in a NEXT_HOP's value, which has four octets.
#[inline(always)]
fn ipv4_hop(value: &[u8]) -> Result<u32, Rule>
    ensures { Gives ipv4_as result (next_hop_in value.now) }
{
    if value.len() != 4 {
        return Err(Rule::AttributeValue);
    }
    Ok(BigEndian::read_u32(value))
}

/// A NEXT_HOP; the first counts (RFC 7606, section 3 (g)).
#[tactic(auto, unfolding(wire_model::specs::Attribute::with_next_hop))]
#[inline(always)]
fn take_next_hop(found: &mut Found<'_>, place: Place, value: &[u8]) -> Result<(), Rule>
    ensures { Gives (λ x. found_as found.new) result
        (with_next_hop place (found_as found.old) value.now) }
{
    if found.hop.is_none() {
        found.hop = Some(judge(place, ipv4_hop(value))?);
    }
    Ok(())
}

/// An MP_REACH_NLRI.
#[tactic(auto, unfolding(wire_model::specs::Attribute::with_reach))]
#[inline(always)]
fn take_mp_reach<'a>(found: &mut Found<'a>, place: Place, value: &'a [u8]) -> Result<(), Rule>
    ensures { Gives (λ x. found_as found.new) result
        (with_reach place (found_as found.old) value.now) }
{
    found.reach = match place {
        Place::Rib(family) => reach_in_rib(family, value),
        Place::Update { ids, .. } => {
            let (family, rest) = family(value)?;
            reach_in_update(ids, family, rest)?
        }
    };
    found.has_reach = true;
    Ok(())
}

/// An MP_UNREACH_NLRI, which a RIB entry doesn't use.
#[tactic(auto, unfolding(wire_model::specs::Attribute::with_unreach))]
fn take_mp_unreach<'a>(found: &mut Found<'a>, place: Place, value: &'a [u8]) -> Result<(), Rule>
    ensures { Gives (λ x. found_as found.new) result
        (with_unreach place (found_as found.old) value.now) }
{
    if let Place::Update { ids, .. } = place {
        let (family, rest) = family(value)?;
        found.unreach = unreach_in_update(ids, family, rest)?;
        found.has_unreach = true;
    }
    Ok(())
}

/// An attribute of this type.
#[tactic(auto, unfolding(wire_model::specs::Attribute::with_value))]
#[inline(always)]
fn take_value<'a>(
    found: &mut Found<'a>,
    place: Place,
    kind: u8,
    value: &'a [u8],
) -> Result<(), Rule>
    requires { length value.now < 2 ^ 32 }
    ensures { Gives (λ x. found_as found.new) result
        (with_value place (found_as found.old) kind value.now) }
{
    match kind {
        AS_PATH => take_as_path(found, place, value),
        NEXT_HOP => take_next_hop(found, place, value),
        MP_REACH_NLRI => take_mp_reach(found, place, value),
        MP_UNREACH_NLRI => take_mp_unreach(found, place, value),
        _ => Ok(()),
    }
}

/// Takes the first attribute, and returns what follows it.
#[tactic(auto, unfolding(wire_model::specs::Attribute::attribute_at))]
#[inline(always)]
fn take_attribute<'a>(
    found: &mut Found<'a>,
    place: Place,
    bytes: &'a [u8],
) -> Result<&'a [u8], Rule>
    ensures value { Gives (λ x. (found_as found.new, x.now)) result
        (attribute_at place (found_as found.old) bytes.now) }
    ensures shorter { IfOk result (λ x. length x.now < length bytes.now) }
{
    let (flags, rest) = octet(Rule::AttributeCut, bytes)?;
    let (kind, rest) = octet(Rule::AttributeCut, rest)?;
    // A second one breaks a rule (RFC 7606, section 3 (g)).
    if found.has_reach && kind == MP_REACH_NLRI || found.has_unreach && kind == MP_UNREACH_NLRI {
        return Err(Rule::SecondMp);
    }
    let (len, rest) = value_len(flags, rest)?;
    let (value, rest) = octets(Rule::AttributeCut, usize::from(len), rest)?;
    take_value(found, place, kind, value)?;
    Ok(rest)
}

/// The IPv4 address of these bits, if there is one.
#[inline(always)]
fn ipv4_addr(bits: Option<u32>) -> Option<Addr>
    ensures { option_map addr_as result ≡ judged_as bits }
{
    match bits {
        Some(bits) => Some(Addr::v4(bits)),
        None => None,
    }
}

/// What the list as a whole gives.
#[inline(always)]
fn attrs_of(found: Found<'_>) -> Attrs<'_>
    ensures { listed_as result ≡ listed_from (found_as found.entry) }
{
    let bad = matches!(found.path, Some(None)) || matches!(found.hop, Some(None));
    let hop = ipv4_addr(found.hop.flatten());
    let path = if bad {
        Path::empty()
    } else {
        found.path.flatten().unwrap_or(Path::empty())
    };
    Attrs {
        path: path.length,
        origin: path.origin,
        hop: if bad { None } else { hop },
        reach: found.reach,
        unreach: found.unreach,
        bad,
    }
}

/// What an attribute list gives at this place, or the rule that its first wrong field breaks.
#[tactic(auto, unfolding(wire_model::specs::Attribute::attributes))]
#[inline(always)]
pub fn read_attrs(bytes: &[u8], place: Place) -> Result<Attrs<'_>, Rule>
    ensures { Gives listed_as result (attributes place bytes.now) }
{
    let mut found = nothing();
    let mut rest = bytes;
    while !rest.is_empty() {
        rest = take_attribute(&mut found, place, rest)?;
    }
    Ok(attrs_of(found))
}
