//! What all addresses of a region get, kept beside each label of a node: a question about them all costs no walk below it.
//!
//! A cover says it without knowing what the region inherits, so a change above a region leaves its cover.

/// The hops that addresses of a region get from entries of the region.
#[derive(Clone, Copy)]
pub(crate) enum Hops {
    /// No address gets one.
    Zero,
    /// Those that get one all get this.
    One(u16),
    /// Two get different ones.
    Many,
}

/// What the addresses of a region get from its entries.
#[derive(Clone, Copy)]
pub(crate) struct Cover {
    /// Whether some address is within no entry of the region, and gets what the region inherits.
    pub(crate) passes: bool,
    /// What the others get.
    pub(crate) hops: Hops,
}

/// How many hops a kept cover has.
#[derive(Clone, Copy, PartialEq, Eq)]
pub(crate) enum Kind {
    /// None.
    Empty,
    /// One, which stands beside it.
    Single,
    /// Two or more.
    Mixed,
}

/// A cover as a node keeps it, in four octets.
#[derive(Clone, Copy, PartialEq, Eq)]
pub(crate) struct Kept {
    passes: bool,
    kind: Kind,
    hop: u16,
}

/// A label of a node, and what the addresses of the node's region get from that label's entries there, its own counted in.
#[derive(Clone, Copy)]
pub(crate) struct Slot {
    /// The hop of the node's own route or entry.
    pub(crate) hop: Option<u16>,
    /// The cover of the region.
    pub(crate) kept: Kept,
}

impl Kept {
    ghost use Rattle.std.specs.Prelude.{◌≡◌, true};
    ghost use Rattle.orig_tree.specs.Packed.{opened};

    /// Whether the two are one.
    pub(crate) fn is_same(self, other: Kept) -> bool
        ensures { result ≡ true → self ≡ other }
    {
        self == other
    }

    /// The cover.
    pub(crate) fn open(self) -> Cover
        ensures { result ≡ opened self }
    {
        Cover {
            passes: self.passes,
            hops: match self.kind {
                Kind::Empty => Hops::Zero,
                Kind::Single => Hops::One(self.hop),
                Kind::Mixed => Hops::Many,
            },
        }
    }
}

impl Hops {
    ghost use Rattle.std.specs.Prelude.{◌≡◌};
    ghost use Rattle.orig_tree.specs.Cover.{both};

    /// The hops of two regions together.
    fn and(self, other: Hops) -> Hops
        ensures { result ≡ both self other }
    {
        match (self, other) {
            (Hops::Zero, hops) | (hops, Hops::Zero) => hops,
            (Hops::One(hop), Hops::One(same)) if hop == same => Hops::One(hop),
            _ => Hops::Many,
        }
    }
}

impl Cover {
    ghost use Rattle.std.specs.Prelude.{◌≡◌};
    ghost use Rattle.orig_tree.specs.Cover.{covered, only_of};

    /// The cover of a region with this hop of its own, from those of its halves.
    pub(crate) fn over(hop: Option<u16>, low: Cover, high: Cover) -> Cover
        ensures { result ≡ covered hop low high }
    {
        let passes = low.passes || high.passes;
        let hops = low.hops.and(high.hops);
        match hop {
            Some(hop) => Cover {
                passes: false,
                hops: if passes {
                    hops.and(Hops::One(hop))
                } else {
                    hops
                },
            },
            None => Cover { passes, hops },
        }
    }

    /// The one hop of all the region's addresses, if it inherits this one.
    pub(crate) fn only(self, inherited: u16) -> Option<u16>
        ensures { result ≡ only_of self inherited }
    {
        match self.hops {
            Hops::Zero => Some(inherited),
            Hops::One(hop) if self.passes && hop != inherited => None,
            Hops::One(hop) => Some(hop),
            Hops::Many => None,
        }
    }
}

impl Slot {
    ghost use Rattle.std.specs.Prelude.{◌≡◌, Option};
    ghost use Rattle.orig_tree.specs.Packed.{cover_slot, bare_slot};

    /// A hop with a cover.
    pub(crate) fn over(hop: Option<u16>, cover: Cover) -> Slot
        ensures { result ≡ cover_slot hop cover }
    {
        let kept = match cover.hops {
            Hops::Zero => Kept {
                passes: cover.passes,
                kind: Kind::Empty,
                hop: 0,
            },
            Hops::One(one) => Kept {
                passes: cover.passes,
                kind: Kind::Single,
                hop: one,
            },
            Hops::Many => Kept {
                passes: cover.passes,
                kind: Kind::Mixed,
                hop: 0,
            },
        };
        Slot { hop, kept }
    }

    /// No hop, and no entry in the region.
    pub(crate) fn bare() -> Slot
        ensures { result ≡ bare_slot }
    {
        Slot {
            hop: None,
            kept: Kept {
                passes: true,
                kind: Kind::Empty,
                hop: 0,
            },
        }
    }
}
