//! AS numbers.

ghost use Rattle.octet_fields.specs.Field.{number_at};
ghost use Rattle.octet_fields.specs.Gives.{Gives};
ghost use Rattle.wire_model.specs.Path.{as_size};

use bgp_attrs::Rule;
use octet_fields::{u16_at, u32_at};

/// An AS number, in four octets if it is wide and else in two.
pub fn as_number(rule: Rule, wide: bool, bytes: &[u8]) -> Result<(u32, &[u8]), Rule>
    ensures { Gives (λ x. (x.0, x.1.now)) result (number_at rule (as_size wide) bytes.now) }
{
    if wide {
        return u32_at(rule, bytes);
    }
    let (number, rest) = u16_at(rule, bytes)?;
    Ok((u32::from(number), rest))
}
