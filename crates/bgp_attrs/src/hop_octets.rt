//! Next hops where they lie.

ghost use Rattle.std.specs.Prelude.{◌≡◌, ◌==◌, ◌||◌, IsTrue, length};
ghost use Rattle.table_model.specs.declared.family.Family.TheVariants.{V4};
ghost use Rattle.wire_model.specs.Attribute.{is_hop_length};

use crate::hops::next_hop;
use fib_addr::Addr;

/// The octets of a next hop, where they lie; none if there is no next hop.
#[derive(Clone, Copy, Debug)]
pub struct HopOctets<'a> {
    octets: &'a [u8],
    ghost fits: { IsTrue (length octets.now == 0 || is_hop_length V4 (length octets.now)) },
}

impl<'a> HopOctets<'a> {
    ghost use Rattle.std.specs.Prelude.{◌↔◌, Some, None, option_map};
    ghost use Rattle.std.specs.Option.{option_or};
    ghost use Rattle.wire_model.specs.Attribute.{hop_of};
    ghost use Rattle.fib_addr.specs.Views.{addr_as};
    ghost use Rattle.bgp_attrs.specs.Views.{hop_as};

    /// No next hop.
    #[inline(always)]
    pub fn none() -> HopOctets<'a>
        ensures { hop_as result ≡ None }
    {
        HopOctets { octets: &[] }
    }

    /// The next hop in these octets.
    #[inline(always)]
    pub fn new(octets: &'a [u8]) -> HopOctets<'a>
        requires { IsTrue (is_hop_length V4 (length octets.now)) }
        ensures { hop_as result ≡ Some (hop_of octets.entry.now) }
    {
        HopOctets { octets }
    }

    /// Whether there is no next hop.
    #[inline(always)]
    pub fn is_none(&self) -> bool
        ensures { IsTrue result ↔ (hop_as self.now ≡ None) }
    {
        self.octets.is_empty()
    }

    /// This next hop, or the other if there is none.
    #[inline(always)]
    pub fn or(self, other: HopOctets<'a>) -> HopOctets<'a>
        ensures { hop_as result ≡ option_or (hop_as self.entry) (hop_as other.entry) }
    {
        if self.is_none() { other } else { self }
    }

    /// The address.
    #[inline(always)]
    pub fn addr(&self) -> Option<Addr>
        ensures { option_map addr_as result ≡ hop_as self.now }
    {
        if self.is_none() {
            return None;
        }
        Some(next_hop(self.octets))
    }
}
