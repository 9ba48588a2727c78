//! The types of the attributes that are used, and the lengths of their values.

ghost use Rattle.std.specs.Prelude.{◌<◌, ◌==◌, length, IfOk, bit_and, if◌then◌else◌};
ghost use Rattle.octet_fields.specs.Field.{number_at};
ghost use Rattle.octet_fields.specs.Gives.{Gives};
ghost use Rattle.wire_model.specs.declared.rule.Rule.TheVariants.{AttributeCut};

use crate::Rule;
use octet_fields::{octet, u16_at};

/// The type of AS_PATH (RFC 4271, section 5.1.2).
pub const AS_PATH: u8 = 2;

/// The type of NEXT_HOP (RFC 4271, section 5.1.3).
pub const NEXT_HOP: u8 = 3;

/// The type of MP_REACH_NLRI (RFC 4760, section 3).
pub const MP_REACH_NLRI: u8 = 14;

/// The type of MP_UNREACH_NLRI (RFC 4760, section 4).
pub const MP_UNREACH_NLRI: u8 = 15;

/// The flag of an attribute whose length has two octets.
const EXTENDED_LENGTH: u8 = 0x10;

/// The length of a value, in two octets if the flags say so.
#[inline(always)]
pub fn value_len(flags: u8, bytes: &[u8]) -> Result<(u16, &[u8]), Rule>
    ensures value { Gives (λ x. (x.0, x.1.now)) result (number_at AttributeCut
        (if bit_and flags 16 == 0 then 1 else 2) bytes.now) }
    ensures shorter { IfOk result (λ x. length x.1.now < length bytes.now) }
{
    if flags & EXTENDED_LENGTH != 0 {
        return u16_at(Rule::AttributeCut, bytes);
    }
    let (len, rest) = octet(Rule::AttributeCut, bytes)?;
    Ok((u16::from(len), rest))
}
