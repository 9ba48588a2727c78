//! What a route is found by, how preferred it is, and what it offers.

ghost use Rattle.std.specs.Prelude.{◌≡◌, ◌≤◌, ◌-◌, ◌%◌, ◌^◌, ◌<◌, false};
ghost use Rattle.table_model.specs.Width.{width};

use fib_prefix::{Addr, Family, Peer, Prefix, Via};
use std::cmp::Ordering;
use std::marker::Model;

/// The least path source.
const LEAST_VIA: Via = Via {
    peer: Peer {
        addr: Addr {
            family: Family::V4,
            bits: 0,
        },
        asn: 0,
    },
    id: 0,
};

/// The least prefix.
const LEAST_PREFIX: Prefix = Prefix {
    family: Family::V4,
    bits: 0,
    len: 0,
};

/// Where a route is found: by peer, then by prefix, then by path identifier. Contracts see its path source and its prefix; the
/// numbers stand first here, so that a path key takes 48 octets.
#[derive(Clone, Copy)]
pub struct PathKey {
    bits: u128,
    peer_bits: u128,
    asn: u32,
    id: u32,
    family: Family,
    len: u8,
    peer_family: Family,
    ghost fits: { len ≤ width family },
    ghost below: { bits < 2 ^ width family },
    ghost cleared: { bits % 2 ^ (width family - len) ≡ 0 },
    ghost peer_below: { peer_bits < 2 ^ width peer_family },
}

impl Model for PathKey {
    ghost use Rattle.adj_rib_in.specs.Keys.{PathKeyView};

    ghost Value = { PathKeyView };

    ghost view = { λ s. record { via = record { peer = record { addr = record { family = s.peer_family; bits = s.peer_bits; below = s.peer_below }; asn = s.asn }; id = s.id }; prefix = record { family = s.family; bits = s.bits; len = s.len; fits = s.fits; below = s.below; cleared = s.cleared } } };

    ghost inverse = { λ k. record { bits = k.prefix.bits; peer_bits = k.via.peer.addr.bits; asn = k.via.peer.asn; id = k.via.id; family = k.prefix.family; len = k.prefix.len; peer_family = k.via.peer.addr.family; fits = k.prefix.fits; below = k.prefix.below; cleared = k.prefix.cleared; peer_below = k.via.peer.addr.below } };
}

impl PartialEq for PathKey {
    ghost use Rattle.std.specs.Cmp.{partial_equiv_from_equiv};
    ghost use Rattle.std.specs.Ordering.{nat_cmp, on, then_cmp, eq_by_cmp};
    ghost use Rattle.std.proofs.lemmas.Cmp.{nat_cmp_total, on_total, then_total, eq_by_cmp_equiv};
    ghost use Rattle.fib_addr.specs.Order.{code_cmp};
    ghost use Rattle.fib_prefix.specs.Order.{code_peer_cmp};
    ghost use Rattle.fib_prefix.proofs.Peers.{peer_total, prefix_total};
    ghost use Rattle.adj_rib_in.specs.Keys.{PathKeyView};

    ghost eq = { eq_by_cmp (then_cmp (on (λ (s : PathKeyView). s.via.peer) code_peer_cmp) (then_cmp (on (λ (s : PathKeyView). s.prefix) code_cmp) (on (λ (s : PathKeyView). s.via.id) nat_cmp))) };

    ghost laws = { partial_equiv_from_equiv (eq_by_cmp_equiv (then_total (on_total (λ (s : PathKeyView). s.via.peer) peer_total) (then_total (on_total (λ (s : PathKeyView). s.prefix) prefix_total) (on_total (λ (s : PathKeyView). s.via.id) nat_cmp_total)))) };

    fn eq(&self, other: &PathKey) -> bool {
        self.cmp(other).is_eq()
    }
}

impl Eq for PathKey {
    ghost use Rattle.std.specs.Ordering.{nat_cmp, on, then_cmp, eq_by_cmp};
    ghost use Rattle.std.proofs.lemmas.Cmp.{nat_cmp_total, on_total, then_total, eq_by_cmp_equiv};
    ghost use Rattle.fib_prefix.proofs.Peers.{peer_total, prefix_total};
    ghost use Rattle.adj_rib_in.specs.Keys.{PathKeyView};

    ghost laws = { eq_by_cmp_equiv (then_total (on_total (λ (s : PathKeyView). s.via.peer) peer_total) (then_total (on_total (λ (s : PathKeyView). s.prefix) prefix_total) (on_total (λ (s : PathKeyView). s.via.id) nat_cmp_total))) };
}

impl Ord for PathKey {
    ghost use Rattle.std.specs.Ordering.{nat_cmp, on, then_cmp};
    ghost use Rattle.std.proofs.Common.{refl};
    ghost use Rattle.std.proofs.lemmas.Cmp.{nat_cmp_total, on_total, then_total};
    ghost use Rattle.fib_addr.specs.Order.{code_cmp};
    ghost use Rattle.fib_prefix.specs.Order.{code_peer_cmp};
    ghost use Rattle.fib_prefix.proofs.Peers.{peer_total, prefix_total};
    ghost use Rattle.adj_rib_in.specs.Keys.{PathKeyView};

    ghost cmp = { then_cmp (on (λ (s : PathKeyView). s.via.peer) code_peer_cmp) (then_cmp (on (λ (s : PathKeyView). s.prefix) code_cmp) (on (λ (s : PathKeyView). s.via.id) nat_cmp)) };

    ghost total = { then_total (on_total (λ (s : PathKeyView). s.via.peer) peer_total) (then_total (on_total (λ (s : PathKeyView). s.prefix) prefix_total) (on_total (λ (s : PathKeyView). s.via.id) nat_cmp_total)) };

    ghost matches_partial_cmp = { λ s t. refl };

    ghost matches_eq = { λ s t. refl };

    fn cmp(&self, other: &PathKey) -> Ordering {
        match self.peer().cmp(&other.peer()) {
            Ordering::Equal => match self.prefix().cmp(&other.prefix()) {
                Ordering::Equal => self.id.cmp(&other.id),
                order => order,
            },
            order => order,
        }
    }
}

impl PartialOrd for PathKey {
    ghost use Rattle.std.specs.Ordering.{nat_cmp, on, then_cmp, as_partial_cmp};
    ghost use Rattle.std.specs.Cmp.{po};
    ghost use Rattle.std.proofs.Common.{refl};
    ghost use Rattle.fib_addr.specs.Order.{code_cmp};
    ghost use Rattle.fib_prefix.specs.Order.{code_peer_cmp};
    ghost use Rattle.std.proofs.lemmas.Cmp.{nat_cmp_total, on_total, then_total};
    ghost use Rattle.fib_prefix.proofs.Peers.{peer_total, prefix_total};
    ghost use Rattle.adj_rib_in.specs.Keys.{PathKeyView};

    ghost partial_cmp = { as_partial_cmp (then_cmp (on (λ (s : PathKeyView). s.via.peer) code_peer_cmp) (then_cmp (on (λ (s : PathKeyView). s.prefix) code_cmp) (on (λ (s : PathKeyView). s.via.id) nat_cmp))) };

    ghost laws = { po (then_total (on_total (λ (s : PathKeyView). s.via.peer) peer_total) (then_total (on_total (λ (s : PathKeyView). s.prefix) prefix_total) (on_total (λ (s : PathKeyView). s.via.id) nat_cmp_total))) (λ x y. refl) };

    fn partial_cmp(&self, other: &PathKey) -> Option<Ordering> {
        Some(self.cmp(other))
    }
}

/// What a peer's route for a prefix offers. Contracts see the length of its path and its next hop.
#[derive(Clone, Copy)]
pub struct PathAttrs {
    bits: u128,
    path: u32,
    family: Family,
    ghost below: { bits < 2 ^ width family },
}

impl Model for PathAttrs {
    ghost use Rattle.adj_rib_in.specs.Keys.{PathAttrsView};

    ghost Value = { PathAttrsView };

    ghost view = { λ o. record { path = o.path; hop = record { family = o.family; bits = o.bits; below = o.below } } };

    ghost inverse = { λ k. record { bits = k.hop.bits; path = k.path; family = k.hop.family; below = k.hop.below } };
}

/// A route's preference: of two routes for a prefix the preferred one comes first. Contracts see the prefix, the length of
/// the path and the path source; the numbers stand first here, so that a rank takes 48 octets.
#[derive(Clone, Copy)]
pub struct Rank {
    bits: u128,
    peer_bits: u128,
    path: u32,
    asn: u32,
    id: u32,
    family: Family,
    len: u8,
    peer_family: Family,
    ghost fits: { len ≤ width family },
    ghost below: { bits < 2 ^ width family },
    ghost cleared: { bits % 2 ^ (width family - len) ≡ 0 },
    ghost peer_below: { peer_bits < 2 ^ width peer_family },
}

impl Model for Rank {
    ghost use Rattle.adj_rib_in.specs.Keys.{RankView};

    ghost Value = { RankView };

    ghost view = { λ r. record { prefix = record { family = r.family; bits = r.bits; len = r.len; fits = r.fits; below = r.below; cleared = r.cleared }; path = r.path; via = record { peer = record { addr = record { family = r.peer_family; bits = r.peer_bits; below = r.peer_below }; asn = r.asn }; id = r.id } } };

    ghost inverse = { λ k. record { bits = k.prefix.bits; peer_bits = k.via.peer.addr.bits; path = k.path; asn = k.via.peer.asn; id = k.via.id; family = k.prefix.family; len = k.prefix.len; peer_family = k.via.peer.addr.family; fits = k.prefix.fits; below = k.prefix.below; cleared = k.prefix.cleared; peer_below = k.via.peer.addr.below } };
}

impl PartialEq for Rank {
    ghost use Rattle.std.specs.Cmp.{partial_equiv_from_equiv};
    ghost use Rattle.std.specs.Ordering.{nat_cmp, on, then_cmp, eq_by_cmp};
    ghost use Rattle.std.proofs.lemmas.Cmp.{nat_cmp_total, on_total, then_total, eq_by_cmp_equiv};
    ghost use Rattle.fib_addr.specs.Order.{code_cmp};
    ghost use Rattle.fib_prefix.specs.Order.{code_via_cmp};
    ghost use Rattle.fib_prefix.proofs.Peers.{via_total, prefix_total};
    ghost use Rattle.adj_rib_in.specs.Keys.{RankView};

    ghost eq = { eq_by_cmp (then_cmp (on (λ (r : RankView). r.prefix) code_cmp) (then_cmp (on (λ (r : RankView). r.path) nat_cmp) (on (λ (r : RankView). r.via) code_via_cmp))) };

    ghost laws = { partial_equiv_from_equiv (eq_by_cmp_equiv (then_total (on_total (λ (r : RankView). r.prefix) prefix_total) (then_total (on_total (λ (r : RankView). r.path) nat_cmp_total) (on_total (λ (r : RankView). r.via) via_total)))) };

    fn eq(&self, other: &Rank) -> bool {
        self.cmp(other).is_eq()
    }
}

impl Eq for Rank {
    ghost use Rattle.std.specs.Ordering.{nat_cmp, on, then_cmp, eq_by_cmp};
    ghost use Rattle.std.proofs.lemmas.Cmp.{nat_cmp_total, on_total, then_total, eq_by_cmp_equiv};
    ghost use Rattle.fib_prefix.proofs.Peers.{via_total, prefix_total};
    ghost use Rattle.adj_rib_in.specs.Keys.{RankView};

    ghost laws = { eq_by_cmp_equiv (then_total (on_total (λ (r : RankView). r.prefix) prefix_total) (then_total (on_total (λ (r : RankView). r.path) nat_cmp_total) (on_total (λ (r : RankView). r.via) via_total))) };
}

impl Ord for Rank {
    ghost use Rattle.std.specs.Ordering.{nat_cmp, on, then_cmp};
    ghost use Rattle.std.proofs.Common.{refl};
    ghost use Rattle.std.proofs.lemmas.Cmp.{nat_cmp_total, on_total, then_total};
    ghost use Rattle.fib_addr.specs.Order.{code_cmp};
    ghost use Rattle.fib_prefix.specs.Order.{code_via_cmp};
    ghost use Rattle.fib_prefix.proofs.Peers.{via_total, prefix_total};
    ghost use Rattle.adj_rib_in.specs.Keys.{RankView};

    ghost cmp = { then_cmp (on (λ (r : RankView). r.prefix) code_cmp) (then_cmp (on (λ (r : RankView). r.path) nat_cmp) (on (λ (r : RankView). r.via) code_via_cmp)) };

    ghost total = { then_total (on_total (λ (r : RankView). r.prefix) prefix_total) (then_total (on_total (λ (r : RankView). r.path) nat_cmp_total) (on_total (λ (r : RankView). r.via) via_total)) };

    ghost matches_partial_cmp = { λ s t. refl };

    ghost matches_eq = { λ s t. refl };

    fn cmp(&self, other: &Rank) -> Ordering {
        match self.prefix().cmp(&other.prefix()) {
            Ordering::Equal => match self.path.cmp(&other.path) {
                Ordering::Equal => self.via().cmp(&other.via()),
                order => order,
            },
            order => order,
        }
    }
}

impl PartialOrd for Rank {
    ghost use Rattle.std.specs.Ordering.{nat_cmp, on, then_cmp, as_partial_cmp};
    ghost use Rattle.std.specs.Cmp.{po};
    ghost use Rattle.std.proofs.Common.{refl};
    ghost use Rattle.fib_addr.specs.Order.{code_cmp};
    ghost use Rattle.fib_prefix.specs.Order.{code_via_cmp};
    ghost use Rattle.std.proofs.lemmas.Cmp.{nat_cmp_total, on_total, then_total};
    ghost use Rattle.fib_prefix.proofs.Peers.{via_total, prefix_total};
    ghost use Rattle.adj_rib_in.specs.Keys.{RankView};

    ghost partial_cmp = { as_partial_cmp (then_cmp (on (λ (r : RankView). r.prefix) code_cmp) (then_cmp (on (λ (r : RankView). r.path) nat_cmp) (on (λ (r : RankView). r.via) code_via_cmp))) };

    ghost laws = { po (then_total (on_total (λ (r : RankView). r.prefix) prefix_total) (then_total (on_total (λ (r : RankView). r.path) nat_cmp_total) (on_total (λ (r : RankView). r.via) via_total))) (λ x y. refl) };

    fn partial_cmp(&self, other: &Rank) -> Option<Ordering> {
        Some(self.cmp(other))
    }
}

/// A route for some prefix.
#[derive(Clone, Copy)]
pub struct Candidate {
    /// Its path source.
    pub via: Via,
    /// What it offers.
    pub attrs: PathAttrs,
}

impl PathKey {
    ghost use Rattle.std.specs.Ordering.{is_gt};
    ghost use Rattle.std.specs.declared.cmp.Ordering.TheVariants.{Equal};
    ghost use Rattle.adj_rib_in.specs.Orders.{key_cmp};
    ghost use Rattle.fib_prefix.specs.Order.{code_peer_cmp};
    ghost use Rattle.adj_rib_in.specs.Paths.{rank_at};

    /// The path key of a path source and a prefix.
    pub fn new(via: &Via, prefix: &Prefix) -> PathKey
        ensures { result ≡ record { via = via.now; prefix = prefix.now } }
    {
        PathKey {
            bits: prefix.bits,
            peer_bits: via.peer.addr.bits,
            asn: via.peer.asn,
            id: via.id,
            family: prefix.family,
            len: prefix.len,
            peer_family: via.peer.addr.family,
        }
    }

    /// The peer's address.
    fn addr(&self) -> Addr
        ensures { result ≡ self.now.via.peer.addr }
    {
        Addr {
            family: self.peer_family,
            bits: self.peer_bits,
        }
    }

    /// The peer.
    pub fn peer(&self) -> Peer
        ensures { result ≡ self.now.via.peer }
    {
        Peer {
            addr: self.addr(),
            asn: self.asn,
        }
    }

    /// The path identifier.
    pub fn id(&self) -> u32
        ensures { result ≡ self.now.via.id }
    {
        self.id
    }

    /// The path source.
    pub fn via(&self) -> Via
        ensures { result ≡ self.now.via }
    {
        Via {
            peer: self.peer(),
            id: self.id,
        }
    }

    /// The prefix.
    pub fn prefix(&self) -> Prefix
        ensures { result ≡ self.now.prefix }
    {
        Prefix {
            family: self.family,
            bits: self.bits,
            len: self.len,
        }
    }

    /// The least path key of a peer.
    pub fn first(peer: &Peer) -> PathKey
        ensures peer { result.via.peer ≡ peer.now }
        ensures least { (s : PathKey) → code_peer_cmp peer.now s.via.peer ≡ Equal
            → is_gt (key_cmp result s) ≡ false }
    {
        PathKey::new(&Via { peer: *peer, id: 0 }, &LEAST_PREFIX)
    }

    /// The rank of what is offered here with this path.
    pub fn rank(&self, path: u32) -> Rank
        ensures { result ≡ rank_at self.now path }
    {
        Rank {
            bits: self.bits,
            peer_bits: self.peer_bits,
            path,
            asn: self.asn,
            id: self.id,
            family: self.family,
            len: self.len,
            peer_family: self.peer_family,
        }
    }
}

impl PathAttrs {
    /// An offer of this path and hop.
    pub fn new(path: u32, hop: &Addr) -> PathAttrs
        ensures { result ≡ record { path = path; hop = hop.now } }
    {
        PathAttrs {
            bits: hop.bits,
            path,
            family: hop.family,
        }
    }

    /// The length of the path.
    pub fn path(&self) -> u32
        ensures { result ≡ self.now.path }
    {
        self.path
    }

    /// The next hop.
    pub fn hop(&self) -> Addr
        ensures { result ≡ self.now.hop }
    {
        Addr {
            family: self.family,
            bits: self.bits,
        }
    }
}

impl Rank {
    ghost use Rattle.std.specs.Ordering.{is_gt};
    ghost use Rattle.std.specs.declared.cmp.Ordering.TheVariants.{Equal};
    ghost use Rattle.fib_addr.specs.Order.{code_cmp};
    ghost use Rattle.adj_rib_in.specs.Orders.{rank_cmp};
    ghost use Rattle.adj_rib_in.specs.Paths.{key_of};

    /// The rank that is preferred to all others of a prefix.
    pub fn first(prefix: &Prefix) -> Rank
        ensures prefix { result.prefix ≡ prefix.now }
        ensures least { (r : Rank) → code_cmp prefix.now r.prefix ≡ Equal
            → is_gt (rank_cmp result r) ≡ false }
    {
        PathKey::new(&LEAST_VIA, prefix).rank(0)
    }

    /// The path source.
    pub fn via(&self) -> Via
        ensures { result ≡ self.now.via }
    {
        Via {
            peer: self.peer(),
            id: self.id,
        }
    }

    /// The prefix.
    pub fn prefix(&self) -> Prefix
        ensures { result ≡ self.now.prefix }
    {
        Prefix {
            family: self.family,
            bits: self.bits,
            len: self.len,
        }
    }

    /// The length of the path.
    pub fn path(&self) -> u32
        ensures { result ≡ self.now.path }
    {
        self.path
    }

    /// The peer's address.
    fn addr(&self) -> Addr
        ensures { result ≡ self.now.via.peer.addr }
    {
        Addr {
            family: self.peer_family,
            bits: self.peer_bits,
        }
    }

    /// The peer.
    fn peer(&self) -> Peer
        ensures { result ≡ self.now.via.peer }
    {
        Peer {
            addr: self.addr(),
            asn: self.asn,
        }
    }

    /// The path key of the route.
    pub fn key(&self) -> PathKey
        ensures { result ≡ key_of self.now }
    {
        PathKey::new(&self.via(), &self.prefix())
    }
}
