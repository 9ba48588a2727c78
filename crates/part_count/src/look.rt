//! The lookups.

ghost use Rattle.std.specs.Prelude.{◌≡◌, true};

use crate::key::Key;
use fib_addr::Steps;
use fib_engine::{Engine, Found, Tries};
use fib_prefix::{Addr, Hop};
use fib_router::Router;
use std::alloc::{AllocError, Global};
use std::marker::Brand;
use std::sync::ledger::{Blank, Ledger};

/// Where addresses are looked up.
pub trait Lookups {
    /// The hop of an address, and how many nodes were visited for it.
    fn find<L: Ledger>(&self, addr: &Addr, steps: &mut Steps<L>) -> Found;
}

impl<'a> Lookups for Tries<'a> {
    fn find<L: Ledger>(&self, addr: &Addr, steps: &mut Steps<L>) -> Found {
        self.lookup(addr, steps)
    }
}

impl Lookups for Router {
    fn find<L: Ledger>(&self, addr: &Addr, steps: &mut Steps<L>) -> Found {
        self.lookup(addr, steps)
    }
}

/// How often all addresses are looked up, in each way.
#[derive(Clone, Copy, Debug, PartialEq, Eq)]
pub struct Rounds {
    /// Each by itself, so that a processor may begin one before the last one ends.
    pub apart: u64,
    /// Each changed by the answer before it, for which it has to wait.
    pub chained: u64,
}

/// What lookups came to.
#[derive(Clone, Copy, Debug, PartialEq, Eq)]
pub struct Told {
    /// How many nodes they visited; of more than 64 bits the lowest ones.
    pub visits: u64,
    /// The sum of the numbers of their hops, likewise.
    pub hops: u64,
}

/// What the lookups of each way came to.
#[derive(Clone, Copy, Debug, PartialEq, Eq)]
pub struct Looked {
    /// Those by themselves.
    pub apart: Told,
    /// Those that wait for each other.
    pub chained: Told,
}

impl Told {
    /// One lookup more.
    fn add(&mut self, found: Found) {
        self.visits = self.visits.wrapping_add(u64::from(found.visits));
        self.hops = self.hops.wrapping_add(u64::from(found.hop.0));
    }
}

/// Looks each address up by itself, once a round.
#[inline(never)]
fn look_apart<K: Key, T: Lookups, L: Ledger>(
    tries: &T,
    keys: &[K],
    rounds: u64,
    steps: &mut Steps<L>,
) -> Told {
    let mut told = Told { visits: 0, hops: 0 };
    for _ in 0..rounds {
        for key in keys {
            told.add(tries.find(&key.addr(), steps));
        }
    }
    told
}

/// Looks each address up, changed by the answer before it, once a round.
#[inline(never)]
fn look_chained<K: Key, T: Lookups, L: Ledger>(
    tries: &T,
    keys: &[K],
    rounds: u64,
    steps: &mut Steps<L>,
) -> Told {
    let mut told = Told { visits: 0, hops: 0 };
    let mut last = Hop::NONE;
    for _ in 0..rounds {
        for key in keys {
            let found = tries.find(&key.changed_by(last).addr(), steps);
            last = found.hop;
            told.add(found);
        }
    }
    told
}

/// Looks addresses up in both ways, and counts the steps.
fn look_through<K: Key, T: Lookups, L: Ledger>(
    tries: &T,
    keys: &[K],
    rounds: &Rounds,
    blank: Blank,
) -> Looked
    requires name { blank.name ≡ L.name }
    requires parts { (blank.parts ≡ L.parts) × (blank.parts ≡ 1) }
{
    let mut steps = Steps::<L>::start(blank);
    let apart = look_apart(tries, keys, rounds.apart, &mut steps);
    let chained = look_chained(tries, keys, rounds.chained, &mut steps);
    Looked { apart, chained }
}

/// Looks addresses up in both ways.
pub fn look_up<K: Key, T: Lookups>(tries: &T, keys: &[K], rounds: &Rounds) -> Looked {
    look_through::<K, T, Brand>(tries, keys, rounds, Blank::new(1))
}

/// Looks addresses up in both ways in the live tries of a router over an engine.
///
/// # Errors
///
/// No memory.
pub fn look_up_routed<K: Key>(
    alloc: Global,
    engine: Engine,
    keys: &[K],
    rounds: &Rounds,
) -> Result<Looked, AllocError>
    requires { engine.loaded ≡ true }
{
    let router = Router::new(alloc, engine)?;
    let looked = look_up(&router, keys, rounds);
    drop(router);
    Ok(looked)
}
