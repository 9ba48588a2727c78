//! Prefixes.

ghost use Rattle.std.specs.Prelude.{◌≡◌, ◌++◌, OnOk};
ghost use Rattle.wire_model.specs.Octets.{prefix_octets};
ghost use Rattle.made_input.specs.Views.{drawn_route_as};

use crate::route::Route;
use std::alloc::AllocError;
use wire_model::put_bits;

/// Puts the route's prefix.
pub fn put_prefix(route: &Route, out: &mut Vec<u8>) -> Result<(), AllocError>
    ensures { OnOk result (out.new.items ≡ out.old.items
        ++ prefix_octets (drawn_route_as route.now).prefix) }
{
    put_bits(route.len, &route.address.to_be_bytes(), out)
}
