//! The bits of an address, in a number as wide as its family's addresses.

use fib_prefix::{Addr, Hop, Prefix};

/// The bits of an address.
pub trait Key: Copy {
    /// Those of a prefix, and after them the last of these.
    fn within(prefix: &Prefix, further: u128) -> Self;

    /// The address.
    fn addr(self) -> Addr;

    /// Its lowest bits changed where the number of a hop has ones.
    fn changed_by(self, hop: Hop) -> Self;
}

impl Key for u32 {
    fn within(prefix: &Prefix, further: u128) -> u32 {
        let first = u32::try_from(prefix.bits).unwrap_or(0);
        let further = (further & u128::from(u32::MAX)) as u32;
        first | further.checked_shr(u32::from(prefix.len)).unwrap_or(0)
    }

    fn addr(self) -> Addr {
        Addr::v4(self)
    }

    fn changed_by(self, hop: Hop) -> u32 {
        self ^ u32::from(hop.0)
    }
}

impl Key for u128 {
    fn within(prefix: &Prefix, further: u128) -> u128 {
        prefix.bits | further.checked_shr(u32::from(prefix.len)).unwrap_or(0)
    }

    fn addr(self) -> Addr {
        Addr::v6(self)
    }

    fn changed_by(self, hop: Hop) -> u128 {
        self ^ u128::from(hop.0)
    }
}
