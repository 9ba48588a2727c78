//! What MP_REACH_NLRI and MP_UNREACH_NLRI give (RFC 4760, sections 3 and 4).

ghost use Rattle.std.specs.Prelude.{◌≡◌, true};
ghost use Rattle.std.specs.Result.{is_ok};
ghost use Rattle.wire_model.specs.declared.rule.Rule.TheVariants.{AttributeValue};
ghost use Rattle.wire_model.specs.Wire.{nlris};

use fib_addr::{Addr, Family};

/// What MP_REACH_NLRI gives: a next hop for the routes in these octets.
#[derive(Clone, Copy, Debug)]
pub struct Reach<'a> {
    /// The family of the prefixes.
    pub family: Family,
    /// The next hop.
    pub hop: Addr,
    /// Whether each prefix has a path identifier.
    pub ids: bool,
    /// The entries of NLRI, as octets that `crate::next_nlri` reads to their end without a fault; empty in a RIB entry.
    pub nlri: &'a [u8],
    pub ghost filled: { is_ok (nlris AttributeValue ids family nlri.now) ≡ true },
}

/// What MP_UNREACH_NLRI gives: the routes in these octets are withdrawn.
#[derive(Clone, Copy, Debug)]
pub struct Unreach<'a> {
    /// The family of the prefixes.
    pub family: Family,
    /// Whether each prefix has a path identifier.
    pub ids: bool,
    /// The entries of NLRI, as octets that `crate::next_nlri` reads to their end without a fault.
    pub nlri: &'a [u8],
    pub ghost filled: { is_ok (nlris AttributeValue ids family nlri.now) ≡ true },
}
