//! Peers that were met before, and their indices, found without a search.

ghost use Rattle.std.specs.Prelude.{◌≡◌, true, List, [], OnOk};
ghost use Rattle.std.specs.List.{list_any};
ghost use Rattle.route_model.specs.Events.{Peer as ModelPeer, same_peer};
ghost use Rattle.fib_prefix.specs.Views.{peer_as};
ghost use Rattle.mrt_write.specs.Met.{AreAmong};

use fib_prefix::Peer;
use std::alloc::{AllocError, Global};

/// At most 256 peers, each at a place that its address and its AS determine. A candidate's peer is nearly always there, since a
/// dump has some tens of peers and each of them has candidates for most prefixes.
#[derive(Drop)]
pub struct Met {
    places: Vec<Peer>,
}

/// The place of a peer.
fn place_of(peer: &Peer) -> usize {
    let low = (peer.addr.bits % (1 << 32)) as u32 ^ peer.asn;
    ((low ^ (low >> 8)) % 256) as usize
}

impl Met {
    /// No peers.
    pub fn new(alloc: Global) -> Met
        ensures { result.places.items ≡ [] }
    {
        Met {
            places: Vec::new(alloc),
        }
    }

    /// Whether the peer is at its place.
    pub fn has(&self, peer: &Peer) -> bool
        ensures { (peers : List ModelPeer) → AreAmong peers self.now → result ≡ true
            → list_any (same_peer (peer_as peer.now)) peers ≡ true }
    {
        let at = place_of(peer);
        at < self.places.len() && self.places[at].cmp(peer).is_eq()
    }

    /// Puts a peer at its place, or after the last one if there are no more places.
    pub fn put(&mut self, peer: &Peer) -> Result<(), AllocError>
        ensures { OnOk result ((peers : List ModelPeer) → AreAmong peers self.old
            → list_any (same_peer (peer_as peer.now)) peers ≡ true → AreAmong peers self.new) }
    {
        let at = place_of(peer);
        if at < self.places.len() {
            self.places[at] = *peer;
        } else {
            self.places.push(*peer)?;
        }
        Ok(())
    }
}

/// For each place the index of a peer that has it, which is tried before a search.
#[derive(Drop)]
pub struct Guesses {
    places: Vec<u16>,
}

impl Guesses {
    /// Guesses of 0.
    pub fn new(alloc: Global) -> Result<Guesses, AllocError> {
        Ok(Guesses {
            places: vec![in alloc; 0u16; 256]?,
        })
    }

    /// What is to be tried for a peer.
    pub fn guess(&self, peer: &Peer) -> u16 {
        match self.places.get(place_of(peer)) {
            Some(index) => *index,
            None => 0,
        }
    }

    /// Notes the index of a peer.
    pub fn note(&mut self, peer: &Peer, index: u16) {
        let at = place_of(peer);
        if at < self.places.len() {
            self.places[at] = index;
        }
    }
}
