//! Routes, and what is offered for them.

ghost use Rattle.std.specs.Prelude.{◌≡◌, ◌<◌, ◌≤◌, ◌-◌, ◌%◌, ◌^◌};

use crate::generator::Generator;

/// Which IPv4 prefix of which of the eight peers. Eight octets, of which a long list is kept.
#[derive(Clone, Copy)]
pub struct Route {
    /// The least address of the prefix.
    pub address: u32,
    /// How many bits the prefix has.
    pub len: u8,
    /// The peer's number, from 0.
    pub peer: u8,
    ghost few: { len ≤ 24 },
    ghost below: { address < 2 ^ 32 },
    ghost cleared: { address % 2 ^ (32 - len) ≡ 0 },
    ghost known: { peer < 8 },
}

/// The length of a path and a next hop.
#[derive(Clone, Copy)]
pub struct PathAttrs {
    /// How many AS numbers the path has.
    pub path: u8,
    /// The next hop's number, from 0.
    pub hop: u8,
    ghost short: { path ≤ 4 },
    ghost some: { 0 < path },
    ghost known: { hop < 16 },
}

impl Route {
    ghost use Rattle.made_input.specs.Draws.{state_after};
    ghost use Rattle.made_input.specs.Drawn as drawn;
    ghost use Rattle.made_input.specs.Views.{drawn_route_as};

    /// The route of the next three draws: the prefix's length, its address, the peer.
    pub fn draw(from: &mut Generator) -> Route
        ensures value { drawn_route_as result ≡ drawn.route from.old.state }
        ensures state { from.new.state ≡ state_after from.old.state 3 }
    {
        let len = 8 + (from.draw() % 17) as u8;
        let address = from.draw() % (1 << 24) * 256;
        let peer = (from.draw() % 8) as u8;
        let spare = 32 - len;
        Route {
            address: address >> spare << spare,
            len,
            peer,
        }
    }
}

impl PathAttrs {
    ghost use Rattle.made_input.specs.Draws.{state_after};
    ghost use Rattle.made_input.specs.Drawn as drawn;
    ghost use Rattle.made_input.specs.Views.{drawn_attrs_as};

    /// The offer of the next two draws: the path's length, the next hop.
    pub fn draw(from: &mut Generator) -> PathAttrs
        ensures value { drawn_attrs_as result ≡ drawn.attrs from.old.state }
        ensures state { from.new.state ≡ state_after from.old.state 2 }
    {
        let path = 1 + (from.draw() % 4) as u8;
        let hop = (from.draw() % 16) as u8;
        PathAttrs { path, hop }
    }
}
