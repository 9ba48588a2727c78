//! Lookups that pause between their reads.

ghost use Rattle.std.specs.Prelude.{◌≡◌, IfOk};
ghost use Rattle.fib_router.specs.Router.{Routing};
ghost use Rattle.poptrie_update.specs.Cursors.{IsFirst};
ghost use Rattle.poptrie_update.specs.Reads.{IsShowing};
ghost use Rattle.router_example.specs.Beside.{GoOnBeside, GoOn, IsTrieOf, lookups_of};
ghost use Rattle.table_model.specs.declared.family.Family.TheVariants.{V4, V6};

use fib_prefix::{Addr, Family, Hop};
use fib_router::{Live, Oldest, Router};
use poptrie_update::Cursors;
use std::alloc::{AllocError, Global};

/// The lookups of both families that are open in a router's tries.
#[derive(Drop)]
pub struct Lookups {
    v4: Cursors,
    v6: Cursors,
}

/// A lookup that was begun. From its first read on it goes on in the routes that it found then.
#[derive(Clone, Copy)]
pub enum Lookup {
    /// It pauses before its next read, by this number.
    Paused(u8),
    /// It has its answer.
    Answered(Hop),
}

/// Begins a lookup by its first read, that of the selector and the direct word.
fn begin(lookups: &mut Cursors, live: &Live, addr: &Addr) -> anyhow::Result<Lookup>
    requires trie { IsTrieOf addr.now.family live.now }
    requires on { GoOn live.now lookups.old }
    ensures on { GoOn live.now lookups.new }
{
    let number = lookups.start(live, addr)?;
    Ok(match lookups.go(live, number)? {
        None => Lookup::Paused(number),
        Some(hop) => Lookup::Answered(hop),
    })
}

/// Goes on with a lookup until it has its answer: each read is of one node.
fn finish(lookups: &mut Cursors, live: &Live, number: u8) -> anyhow::Result<Hop>
    requires showing { IsShowing live.now }
    requires on { GoOn live.now lookups.old }
    ensures on { GoOn live.now lookups.new }
{
    // no way has more nodes
    for _ in 0..22 {
        if let Some(hop) = lookups.go(live, number)? {
            return Ok(hop);
        }
    }
    anyhow::bail!("a lookup goes on without end")
}

impl Lookups {
    /// None is open.
    ///
    /// # Errors
    ///
    /// Out of memory.
    pub fn new(alloc: Global) -> Result<Lookups, AllocError>
        ensures { IfOk result (λ t. (r : Routing) → IsTrieOf V4 r.lives.v4 → IsTrieOf V6 r.lives.v6
            → GoOnBeside r t) }
    {
        let v4 = Cursors::new(alloc)?;
        let v6 = Cursors::new(alloc)?;
        Ok(Lookups { v4, v6 })
    }

    /// The oldest that is open in a family's trie: what was replaced since it started isn't given back.
    pub fn oldest(&self, family: Family) -> Oldest
        ensures { IsFirst result (lookups_of family self.now) }
    {
        match family {
            Family::V4 => self.v4.oldest(),
            Family::V6 => self.v6.oldest(),
        }
    }

    /// Begins a lookup of an address.
    ///
    /// # Errors
    ///
    /// 64 lookups of the family are open.
    pub fn begin(&mut self, router: &Router, addr: &Addr) -> anyhow::Result<Lookup>
        requires { GoOnBeside router.now self.old }
        ensures { GoOnBeside router.now self.new }
    {
        match addr.family {
            Family::V4 => begin(&mut self.v4, router.live(Family::V4), addr),
            Family::V6 => begin(&mut self.v6, router.live(Family::V6), addr),
        }
    }

    /// Goes on with a lookup of a family until it has its answer.
    ///
    /// # Errors
    ///
    /// It isn't open.
    pub fn finish(&mut self, router: &Router, family: Family, lookup: Lookup) -> anyhow::Result<Hop>
        requires { GoOnBeside router.now self.old }
        ensures { GoOnBeside router.now self.new }
    {
        match (lookup, family) {
            (Lookup::Answered(hop), _) => Ok(hop),
            (Lookup::Paused(number), Family::V4) => {
                finish(&mut self.v4, router.live(Family::V4), number)
            }
            (Lookup::Paused(number), Family::V6) => {
                finish(&mut self.v6, router.live(Family::V6), number)
            }
        }
    }
}
