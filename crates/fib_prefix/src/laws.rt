//! Laws: each function does nothing, and its clauses hold for all values.

ghost use Rattle.std.specs.Prelude.{◌≡◌};
ghost use Rattle.fib_prefix.specs.Order.{code_peer_cmp, code_via_cmp};
ghost use Rattle.fib_prefix.specs.Views.{IsOfOctets, cand_as, peer_as, via_as};
ghost use Rattle.fib_prefix.specs.declared.event.Cand as code_cand;
ghost use Rattle.fib_prefix.specs.declared.event.Peer as code_peer;
ghost use Rattle.fib_prefix.specs.declared.event.Via as code_via;
ghost use Rattle.route_model.specs.Events.{peer_cmp, via_cmp};

/// `cmp` of peers is their order: by address, IPv4 before IPv6, then by AS number.
pub fn peer_order_law()
    ensures { (p q : code_peer.Peer) → code_peer_cmp p q ≡ peer_cmp (peer_as p) (peer_as q) }
{}

/// `cmp` of path sources is their order: by peer, then by path identifier.
pub fn via_order_law()
    ensures { (v u : code_via.Via) → code_via_cmp v u ≡ via_cmp (via_as v) (via_as u) }
{}

/// A candidate has an AS number and a path identifier of four octets, and its next hop is an address.
pub fn candidate_law()
    ensures { (c : code_cand.Cand) → IsOfOctets (cand_as c) }
{}
