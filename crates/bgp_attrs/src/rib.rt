//! Attribute lists of RIB entries (RFC 6396, section 4.3.4).

ghost use Rattle.std.specs.Prelude.{◌≡◌, ◌<◌, ◌^◌, length, IfOk, Ok};
ghost use Rattle.octet_fields.specs.Gives.{Gives};
ghost use Rattle.wire_model.specs.declared.place.Place.TheVariants.{Rib as InRib};
ghost use Rattle.wire_model.specs.Attribute.{attribute_at, attributes, listed_from, nothing_found, with_as_path, with_next_hop, with_reach, with_value};
ghost use Rattle.bgp_attrs.specs.Views.{rib_found_as, rib_listed_as};

use crate::Rule;
use crate::hop_octets::HopOctets;
use crate::hops::next_hop_in_rib;
use crate::kinds::{AS_PATH, MP_REACH_NLRI, NEXT_HOP, value_len};
use crate::path::{Path, read_path};
use fib_addr::Family;
use octet_fields::{octet, octets};

/// What the attribute list of a RIB entry gives. Its next hops are the octets where they lie, since only one of them is used.
#[derive(Clone, Copy, Debug)]
pub struct RibAttrs<'a> {
    /// How long the path is; 0 without an AS_PATH.
    pub path: u32,
    /// The AS in which the route originates (RFC 6811, section 2); None without an AS_PATH, and if it doesn't give the origin.
    pub origin: Option<u32>,
    /// NEXT_HOP.
    pub hop: HopOctets<'a>,
    /// The next hop of MP_REACH_NLRI; none if that is missing, can't be read or isn't of the record's family.
    pub reach: HopOctets<'a>,
}

/// What stood in the list so far.
#[derive(Clone, Copy)]
struct Found<'a> {
    path: Option<Path>,
    hop: HopOctets<'a>,
    reach: Option<HopOctets<'a>>,
}

/// An AS_PATH, whose AS numbers have four octets; the first counts (RFC 7606, section 3 (g)).
#[tactic(auto, unfolding(wire_model::specs::Attribute::with_as_path))]
#[inline(always)]
fn take_as_path(found: &mut Found<'_>, family: Family, value: &[u8]) -> Result<(), Rule>
    requires { length value.now < 2 ^ 32 }
    ensures { Gives (λ x. rib_found_as family found.new) result
        (with_as_path (InRib family) (rib_found_as family found.old) value.now) }
{
    if found.path.is_none() {
        found.path = Some(read_path(value, true)?);
    }
    Ok(())
}

/// A NEXT_HOP, which has four octets; the first counts (RFC 7606, section 3 (g)).
#[tactic(auto, unfolding(wire_model::specs::Attribute::with_next_hop))]
#[inline(always)]
fn take_next_hop<'a>(found: &mut Found<'a>, family: Family, value: &'a [u8]) -> Result<(), Rule>
    ensures { Gives (λ x. rib_found_as family found.new) result
        (with_next_hop (InRib family) (rib_found_as family found.old) value.now) }
{
    if found.hop.is_none() {
        if value.len() != 4 {
            return Err(Rule::AttributeValue);
        }
        found.hop = HopOctets::new(value);
    }
    Ok(())
}

/// An MP_REACH_NLRI.
#[tactic(auto, unfolding(wire_model::specs::Attribute::with_reach))]
#[inline(always)]
fn take_mp_reach<'a>(found: &mut Found<'a>, family: Family, value: &'a [u8])
    ensures { with_reach (InRib family) (rib_found_as family found.old) value.now
        ≡ Ok (rib_found_as family found.new) }
{
    found.reach = Some(next_hop_in_rib(family, value));
}

/// An attribute of this type.
#[tactic(auto, unfolding(wire_model::specs::Attribute::with_value, wire_model::specs::Attribute::with_unreach))]
#[inline(always)]
fn take_value<'a>(
    found: &mut Found<'a>,
    family: Family,
    kind: u8,
    value: &'a [u8],
) -> Result<(), Rule>
    requires { length value.now < 2 ^ 32 }
    ensures { Gives (λ x. rib_found_as family found.new) result
        (with_value (InRib family) (rib_found_as family found.old) kind value.now) }
{
    match kind {
        AS_PATH => take_as_path(found, family, value)?,
        NEXT_HOP => take_next_hop(found, family, value)?,
        MP_REACH_NLRI => take_mp_reach(found, family, value),
        _ => {}
    }
    Ok(())
}

/// Takes the first attribute, and returns what follows it.
#[tactic(auto, unfolding(wire_model::specs::Attribute::attribute_at))]
#[inline(always)]
fn take_attribute<'a>(
    found: &mut Found<'a>,
    family: Family,
    bytes: &'a [u8],
) -> Result<&'a [u8], Rule>
    ensures value { Gives (λ x. (rib_found_as family found.new, x.now)) result
        (attribute_at (InRib family) (rib_found_as family found.old) bytes.now) }
    ensures shorter { IfOk result (λ x. length x.now < length bytes.now) }
{
    let (flags, rest) = octet(Rule::AttributeCut, bytes)?;
    let (kind, rest) = octet(Rule::AttributeCut, rest)?;
    // A second one breaks a rule (RFC 7606, section 3 (g)).
    if found.reach.is_some() && kind == MP_REACH_NLRI {
        return Err(Rule::SecondMp);
    }
    let (len, rest) = value_len(flags, rest)?;
    let (value, rest) = octets(Rule::AttributeCut, usize::from(len), rest)?;
    take_value(found, family, kind, value)?;
    Ok(rest)
}

/// What the list as a whole gives.
#[inline(always)]
fn attrs_of<'a>(family: Family, found: &Found<'a>) -> RibAttrs<'a>
    ensures { rib_listed_as family result ≡ listed_from (rib_found_as family found.now) }
{
    let path = found.path.unwrap_or(Path::empty());
    RibAttrs {
        path: path.length,
        origin: path.origin,
        hop: found.hop,
        reach: found.reach.unwrap_or(HopOctets::none()),
    }
}

/// What the attribute list of an entry gives in a RIB record of this family, or the rule that its first wrong field breaks.
#[tactic(auto, unfolding(wire_model::specs::Attribute::attributes))]
#[inline(always)]
pub fn read_rib_attrs(bytes: &[u8], family: Family) -> Result<RibAttrs<'_>, Rule>
    ensures { Gives (rib_listed_as family) result (attributes (InRib family) bytes.now) }
{
    let mut found = Found {
        path: None,
        hop: HopOctets::none(),
        reach: None,
    };
    let mut rest = bytes;
    while !rest.is_empty() {
        rest = take_attribute(&mut found, family, rest)?;
    }
    Ok(attrs_of(family, &found))
}
