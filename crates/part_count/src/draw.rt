//! Addresses that are drawn within routes.

use crate::key::Key;
use fib_prefix::{Entry, Family};
use std::alloc::Global;

/// Draws of a linear congruential generator modulo 2^64, with the multiplier and the increment of Knuth's MMIX (*The Art of Computer
/// Programming*, volume 2, section 3.3.4).
#[derive(Drop)]
struct Draws {
    state: u64,
}

impl Draws {
    /// The highest bits of the next state.
    fn next(&mut self) -> u64 {
        self.state = self
            .state
            .wrapping_mul(6_364_136_223_846_793_005)
            .wrapping_add(1_442_695_040_888_963_407);
        self.state >> 32
    }

    /// So many bits, at most 128.
    fn bits(&mut self) -> u128 {
        let parts = [self.next(), self.next(), self.next(), self.next()];
        let mut bits: u128 = 0;
        for part in parts {
            bits = bits << 32 | u128::from(part);
        }
        bits
    }
}

/// So many addresses within the routes of the family, of which there must be some.
///
/// # Errors
///
/// The family has no route; or out of memory.
pub fn draw_keys<K: Key>(
    alloc: Global,
    routes: &[Entry],
    family: Family,
    count: usize,
) -> anyhow::Result<Vec<K>> {
    let mut of_family = Vec::new(alloc);
    for route in routes {
        if route.prefix.family == family {
            of_family.push(*route)?;
        }
    }
    let mut keys = Vec::with_capacity(alloc, count)?;
    let mut draws = Draws { state: 1 };
    for _ in 0..count {
        let Some(route) = of_family.get((draws.next() % (of_family.len() as u64).max(1)) as usize)
        else {
            anyhow::bail!("no route of the family");
        };
        keys.push(K::within(&route.prefix, draws.bits()))?;
    }
    Ok(keys)
}
