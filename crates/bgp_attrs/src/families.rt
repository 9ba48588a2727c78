//! Families and addresses.

ghost use Rattle.std.specs.Prelude.{◌≡◌, ◌<◌};
ghost use Rattle.octet_fields.specs.Gives.{Gives};
ghost use Rattle.wire_model.specs.Wire as model;
ghost use Rattle.fib_addr.specs.Views.{addr_as};

use fib_addr::{Addr, Family};
use octet_fields::{octet, octets, u16_at};
use wire_model::Rule;

/// The SAFI of unicast (RFC 4760, section 6).
const UNICAST: u8 = 1;

/// The family of an AFI (RFC 4760, section 3), if it is IPv4 or IPv6.
pub fn family_of(afi: u16) -> Option<Family>
    ensures { result ≡ model.family_of afi }
{
    match afi {
        1 => Some(Family::V4),
        2 => Some(Family::V6),
        _ => None,
    }
}

/// The family that AFI and SAFI name, `None` if the AFI is unknown or the SAFI isn't unicast; and what follows them.
///
/// A cut breaks `AttributeValue`.
#[tactic(auto, unfolding(wire_model::specs::Wire::family_at))]
pub fn family(bytes: &[u8]) -> Result<(Option<Family>, &[u8]), Rule>
    ensures { Gives (λ x. (x.0, x.1.now)) result (model.family_at bytes.now) }
{
    let (afi, rest) = u16_at(Rule::AttributeValue, bytes)?;
    let (safi, rest) = octet(Rule::AttributeValue, rest)?;
    let family = if safi == UNICAST {
        family_of(afi)
    } else {
        None
    };
    Ok((family, rest))
}

/// An address of as many octets as its family has, and what follows it. A cut breaks the rule.
#[tactic(auto, unfolding(wire_model::specs::Wire::address_at))]
pub fn address(rule: Rule, family: Family, bytes: &[u8]) -> Result<(Addr, &[u8]), Rule>
    ensures { Gives (λ x. (addr_as x.0, x.1.now)) result (model.address_at rule family bytes.now) }
{
    let count = match family {
        Family::V4 => 4,
        Family::V6 => 16,
    };
    let (front, rest) = octets(rule, count, bytes)?;
    Ok((Addr::from_octets(family, front), rest))
}
