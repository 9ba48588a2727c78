//! Reading MP_REACH_NLRI and MP_UNREACH_NLRI (RFC 4760, sections 3 and 4).

ghost use Rattle.std.specs.Prelude.{◌≡◌, option_map};
ghost use Rattle.octet_fields.specs.Gives.{Gives};
ghost use Rattle.wire_model.specs.Attribute.{reach_in, reach_of_rib, rib_hop, unreach_in};
ghost use Rattle.bgp_attrs.specs.Views.{reached, unreached};

use crate::hops::{next_hop_in_rib, next_hop_of};
use crate::multiprotocol::{Reach, Unreach};
use crate::{Rule, check_nlri};
use fib_addr::Family;
use octet_fields::octet;

/// MP_REACH_NLRI of a RIB entry; one that can't be read gives nothing.
#[tactic(auto, unfolding(wire_model::specs::Wire::nlris, octet_fields::specs::Field::steps))]
pub fn reach_in_rib<'a>(family: Family, value: &'a [u8]) -> Option<Reach<'a>>
    ensures { option_map reached result ≡ reach_of_rib family (rib_hop family value.now) }
{
    match next_hop_in_rib(family, value).addr() {
        Some(hop) => Some(Reach {
            family,
            hop,
            ids: false,
            nlri: &[],
        }),
        None => None,
    }
}

/// MP_REACH_NLRI of an UPDATE after its AFI and SAFI; another family gives nothing.
#[tactic(auto, unfolding(wire_model::specs::Attribute::reach_in))]
pub fn reach_in_update(
    ids: bool,
    family: Option<Family>,
    bytes: &[u8],
) -> Result<Option<Reach<'_>>, Rule>
    ensures { Gives (λ x. option_map reached x) result (reach_in ids family bytes.now) }
{
    let Some(family) = family else {
        return Ok(None);
    };
    let (hop, rest) = next_hop_of(family, bytes)?;
    let (_reserved, nlri) = octet(Rule::AttributeValue, rest)?;
    check_nlri(Rule::AttributeValue, ids, family, nlri)?;
    Ok(Some(Reach {
        family,
        hop,
        ids,
        nlri,
    }))
}

/// MP_UNREACH_NLRI of an UPDATE after its AFI and SAFI; another family gives nothing.
#[tactic(auto, unfolding(wire_model::specs::Attribute::unreach_in))]
pub fn unreach_in_update(
    ids: bool,
    family: Option<Family>,
    nlri: &[u8],
) -> Result<Option<Unreach<'_>>, Rule>
    ensures { Gives (λ x. option_map unreached x) result (unreach_in ids family nlri.now) }
{
    let Some(family) = family else {
        return Ok(None);
    };
    check_nlri(Rule::AttributeValue, ids, family, nlri)?;
    Ok(Some(Unreach { family, ids, nlri }))
}
