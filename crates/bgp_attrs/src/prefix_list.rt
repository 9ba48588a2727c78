//! Entries of NLRI to the end of their octets.

ghost use Rattle.wire_model.specs.Wire.{nlris};
ghost use Rattle.bgp_attrs.specs.Gives.{Passes};

use crate::wire_prefix::next_nlri;
use fib_addr::Family;
use wire_model::Rule;

/// Whether entries of NLRI fill the octets, or the rule that the first wrong one breaks.
pub fn check_nlri(cut: Rule, ids: bool, family: Family, bytes: &[u8]) -> Result<(), Rule>
    ensures { Passes result (nlris cut ids family bytes.now) }
{
    let mut rest = bytes;
    while !rest.is_empty() {
        (_, rest) = next_nlri(cut, ids, family, rest)?;
    }
    Ok(())
}
