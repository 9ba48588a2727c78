//! What peers say of prefixes.

ghost use Rattle.std.specs.Prelude.{◌<◌, ◌^◌};

use fib_addr::{Addr, Prefix};

/// A peer: its address and its AS number. Peers are ordered by address, IPv4 before IPv6, then by AS number.
#[derive(Clone, Copy, Debug, PartialEq, Eq, PartialOrd, Ord, Hash)]
pub struct Peer {
    /// The address.
    pub addr: Addr,
    /// The AS number.
    pub asn: u32,
}

/// The path source of a route: its peer, and the path identifier that tells the peer's routes of one prefix apart (RFC 7911, 3).
/// Ways are ordered by peer, then by path identifier.
#[derive(Clone, Copy, Debug, PartialEq, Eq, PartialOrd, Ord, Hash)]
pub struct Via {
    /// The peer.
    pub peer: Peer,
    /// The path identifier, 0 if the peer sends none.
    pub id: u32,
}

/// What a peer says.
#[derive(Clone, Copy, Debug, PartialEq, Eq)]
pub enum Event {
    /// A route of a prefix, with the length of its path, its next hop, and the AS in which it originates, if its path says it
    /// (RFC 6811, section 2).
    Announce(Via, Prefix, u32, Addr, Option<u32>),
    /// A route is gone.
    Withdraw(Via, Prefix),
    /// The session is lost, and all of the peer's routes with it.
    Down(Peer),
}

/// What is said of one prefix and one way.
#[derive(Clone, Copy, Debug, PartialEq, Eq)]
pub enum Elem {
    /// This is the candidate from that path source from now on, with the length of its path and its next hop.
    Put(Via, Prefix, u32, Addr),
    /// There is none from that path source from now on.
    Cut(Via, Prefix),
}

/// A candidate: the route that comes from a path source for a prefix.
#[derive(Clone, Copy, Debug, PartialEq, Eq)]
pub struct Cand {
    /// The prefix.
    pub prefix: Prefix,
    /// The path source.
    pub via: Via,
    /// The length of the path.
    pub path: u32,
    /// The next hop.
    pub hop: Addr,
    ghost asn: { via.peer.asn < 2 ^ 32 },
    ghost id: { via.id < 2 ^ 32 },
}
