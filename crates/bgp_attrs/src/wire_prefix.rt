//! Prefixes and entries of NLRI.

ghost use Rattle.std.specs.Prelude.{ℕ, ◌≤◌, ◌<◌, length, IfOk};
ghost use Rattle.octet_fields.specs.Field.{number_at};
ghost use Rattle.octet_fields.specs.Gives.{Gives};
ghost use Rattle.wire_model.specs.declared.rule.Rule.{Rule as IsRule};
ghost use Rattle.wire_model.specs.Wire.{id_size, nlri_at, prefix_at};
ghost use Rattle.fib_addr.specs.Views.{prefix_as};
ghost use Rattle.bgp_attrs.specs.Gives.{GivesNlri, GivesPrefix, nlri_as};

use fib_addr::{Family, Prefix};
use octet_fields::u32_at;
use thiserror::Error;
use wire_model::Rule;

/// What is wrong with a prefix on the wire.
#[derive(Clone, Copy, Debug, PartialEq, Eq, Error)]
pub enum WireFault {
    /// Its path identifier, its length or its octets are cut.
    #[error("the prefix is cut")]
    Cut,
    /// It has more bits than its family's addresses.
    #[error("the prefix has more bits than an address")]
    TooLong,
}

/// An entry of NLRI: a prefix, with the path identifier that tells a peer's routes of it apart (RFC 7911, section 3).
#[derive(Clone, Copy, Debug, PartialEq, Eq)]
pub struct Nlri {
    /// The prefix.
    pub prefix: Prefix,
    /// The path identifier, 0 if there is none.
    pub id: u32,
}

/// The prefix that comes first (RFC 4271, section 4.3), and how many octets it takes: its length in bits, and the fewest octets
/// that hold them. Bits past the length are dropped.
#[tactic(auto, unfolding(wire_model::specs::Wire::prefix_at))]
fn prefix_in(bytes: &[u8], family: Family) -> Result<(Prefix, usize), WireFault>
    ensures value { (cut : IsRule) → GivesPrefix cut bytes.now result (prefix_at cut family bytes.now) }
    ensures some { IfOk result (λ x. 0 < x.1) }
    ensures within { IfOk result (λ x. x.1 ≤ length bytes.now) }
{
    let [len, rest @ ..] = bytes else {
        return Err(WireFault::Cut);
    };
    let len = *len;
    if family.width() < len {
        return Err(WireFault::TooLong);
    }
    let count = usize::from(len).div_ceil(8);
    if rest.len() < count {
        return Err(WireFault::Cut);
    }
    Ok((Prefix::from_front(family, len, &rest[..count]), 1 + count))
}

/// The path identifier that comes first, or 0 if there is none (RFC 7911, section 3), and what follows it.
pub fn path_id<E: Drop>(fault: E, ids: bool, bytes: &[u8]) -> Result<(u32, &[u8]), E>
    ensures value { Gives (λ x. (x.0, x.1.now)) result (number_at fault (id_size ids) bytes.now) }
    ensures within { IfOk result (λ x. length x.1.now ≤ length bytes.now) }
{
    if ids {
        u32_at(fault, bytes)
    } else {
        Ok((0, bytes))
    }
}

/// The entry of NLRI that comes first, and what follows it: the path identifier, if entries have one, then the prefix. A cut
/// breaks the rule, and a length over the family's `PrefixLength`.
#[tactic(auto, unfolding(wire_model::specs::Wire::nlri_at))]
pub fn next_nlri(cut: Rule, ids: bool, family: Family, bytes: &[u8]) -> Result<(Nlri, &[u8]), Rule>
    ensures value { Gives (λ x. (nlri_as x.0, x.1.now)) result (nlri_at cut ids family bytes.now) }
    ensures shorter { IfOk result (λ x. length x.1.now < length bytes.now) }
{
    let (id, rest) = path_id(cut, ids, bytes)?;
    let (prefix, rest) = prefix(cut, family, rest)?;
    Ok((Nlri { prefix, id }, rest))
}

/// The path identifier that comes first, or 0 if prefixes have none (RFC 7911, section 3), the prefix after it, and how many
/// octets both take. A cut identifier is reported before a length that is too long.
#[tactic(auto, unfolding(wire_model::specs::Wire::nlri_at))]
pub fn read_wire_prefix(
    bytes: &[u8],
    family: Family,
    ids: bool,
) -> Result<(u32, Prefix, usize), WireFault>
    ensures value { (cut : IsRule) → GivesNlri cut bytes.now result (nlri_at cut ids family bytes.now) }
    ensures some { IfOk result (λ x. 0 < x.2) }
    ensures within { IfOk result (λ x. x.2 ≤ length bytes.now) }
{
    let (id, rest) = path_id(WireFault::Cut, ids, bytes)?;
    let (prefix, taken) = prefix_in(rest, family)?;
    Ok((id, prefix, bytes.len() - rest.len() + taken))
}

/// The prefix that comes first, and what follows it. A cut breaks the rule, and a length over the family's `PrefixLength`.
pub fn prefix(cut: Rule, family: Family, bytes: &[u8]) -> Result<(Prefix, &[u8]), Rule>
    ensures value { Gives (λ x. (prefix_as x.0, x.1.now)) result (prefix_at cut family bytes.now) }
    ensures shorter { IfOk result (λ x. length x.1.now < length bytes.now) }
{
    match prefix_in(bytes, family) {
        Ok((prefix, taken)) => Ok((prefix, &bytes[taken..])),
        Err(WireFault::Cut) => Err(cut),
        Err(WireFault::TooLong) => Err(Rule::PrefixLength),
    }
}
