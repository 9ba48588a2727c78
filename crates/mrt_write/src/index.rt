//! The places of peers in a table.

ghost use Rattle.std.specs.Prelude.{◌≡◌, ◌≤◌, Bool, false, length, map, MatchOption};
ghost use Rattle.std.specs.List.{list_any};
ghost use Rattle.std.specs.List.Sorted.{IsStrictlySortedBy};
ghost use Rattle.route_model.specs.Events.{same_peer};
ghost use Rattle.fib_prefix.specs.Order.{code_peer_cmp};
ghost use Rattle.fib_prefix.specs.Views.{peer_as};
ghost use Rattle.mrt_write.specs.Dumps.{IsPeerIndex, HasNoIndex};

use fib_prefix::Peer;

/// The place of a peer in a list in the order of peers, if it is there.
fn index_of(list: &[Peer], peer: &Peer) -> Option<u16>
    requires sorted { IsStrictlySortedBy code_peer_cmp list.now }
    requires few { length list.now ≤ 65535 }
    ensures { MatchOption result (HasNoIndex (map peer_as list.now) (peer_as peer.now))
        (IsPeerIndex (map peer_as list.now) (peer_as peer.now)) }
{
    match list.binary_search(peer) {
        Ok(place) => Some(place as u16),
        Err(_) => None,
    }
}

/// The place of a peer, which is searched if it isn't the one that is tried first.
pub fn index_near(list: &[Peer], peer: &Peer, guess: u16) -> Option<u16>
    requires sorted { IsStrictlySortedBy code_peer_cmp list.now }
    requires few { length list.now ≤ 65535 }
    ensures { MatchOption result (HasNoIndex (map peer_as list.now) (peer_as peer.now))
        (IsPeerIndex (map peer_as list.now) (peer_as peer.now)) }
{
    let near = usize::from(guess);
    if near < list.len() && list[near].cmp(peer).is_eq() {
        return Some(near as u16);
    }
    index_of(list, peer)
}
