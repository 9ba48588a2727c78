//! VRPs with their numbers.

ghost use Rattle.std.specs.Prelude.{◌≡◌, ◌≤◌, ◌<◌, ◌-◌, ◌%◌, ◌^◌};
ghost use Rattle.table_model.specs.Width.{width};

use crate::vrp::Vrp;
use fib_addr::{Family, Prefix};
use std::cmp::Ordering;

/// A VRP with its number in a list. Its prefix isn't kept as one, so that it takes 32 octets: two stand in a cache line.
#[derive(Clone, Copy)]
pub(crate) struct Numbered {
    bits: u128,
    /// Its number.
    pub(crate) number: usize,
    asn: u32,
    family: Family,
    len: u8,
    maxlen: u8,
    ghost fits: { len ≤ width family },
    ghost below: { bits < 2 ^ width family },
    ghost cleared: { bits % 2 ^ (width family - len) ≡ 0 },
}

impl Numbered {
    ghost use Rattle.table_model.specs.Address.{same_prefix};
    ghost use Rattle.table_model.specs.Order.{prefix_cmp};
    ghost use Rattle.fib_addr.specs.Views.{prefix_as};
    ghost use Rattle.fib_rov.specs.Index.{vrp_covers, prefix_of, stands_up_to, vrp_of, with_number};

    /// The VRP with this number.
    pub(crate) fn new(number: usize, vrp: &Vrp) -> Numbered
        ensures { result ≡ with_number number vrp.now }
    {
        Numbered {
            bits: vrp.prefix.bits,
            number,
            asn: vrp.asn,
            family: vrp.prefix.family,
            len: vrp.prefix.len,
            maxlen: vrp.maxlen,
        }
    }

    /// Its prefix.
    pub(crate) fn prefix(&self) -> Prefix
        ensures { result ≡ prefix_of self.now }
    {
        Prefix {
            bits: self.bits,
            family: self.family,
            len: self.len,
        }
    }

    /// The VRP.
    pub(crate) fn vrp(&self) -> Vrp
        ensures { result ≡ vrp_of self.now }
    {
        Vrp {
            prefix: self.prefix(),
            maxlen: self.maxlen,
            asn: self.asn,
        }
    }

    /// Whether its prefix is the other's.
    #[tactic(auto, using(crate::proofs::Same::test_is))]
    pub(crate) fn has_prefix_of(&self, other: &Numbered) -> bool
        ensures { result ≡ same_prefix (prefix_as (prefix_of self.now)) (prefix_as (prefix_of other.now)) }
    {
        self.prefix() == other.prefix()
    }

    /// Whether its prefix contains this one.
    pub(crate) fn covers(&self, prefix: &Prefix) -> bool
        ensures { result ≡ vrp_covers (prefix_as prefix.now) self.now }
    {
        prefix.is_within(&self.prefix())
    }

    /// Whether its prefix comes before this one in the order of prefixes, or is this one.
    #[tactic(auto, using(fib_addr::proofs::Ordering::cmp_is))]
    pub(crate) fn stands_up_to(&self, prefix: &Prefix) -> bool
        ensures { result ≡ stands_up_to (prefix_as prefix.now) self.now }
    {
        self.prefix().cmp(prefix).is_le()
    }

    /// The order of their prefixes.
    #[tactic(auto, using(fib_addr::proofs::Ordering::cmp_is))]
    pub(crate) fn compare(&self, other: &Numbered) -> Ordering
        ensures { result ≡ prefix_cmp (prefix_as (prefix_of self.now)) (prefix_as (prefix_of other.now)) }
    {
        self.prefix().cmp(&other.prefix())
    }
}
