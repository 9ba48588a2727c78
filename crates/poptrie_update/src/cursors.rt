//! Lookups that pause between their reads.

ghost use Rattle.poptrie_update.specs.Stages.{IsEarlier};

use crate::{At, Live, Oldest};
use fib_addr::{Addr, Hop};
use std::alloc::{AllocError, Global};
use std::marker::Model;
use thiserror::Error;

/// How many lookups may be open at a time.
const MOST: usize = 64;

/// What an open lookup reads next.
#[derive(Clone, Copy, Debug, PartialEq, Eq)]
pub(crate) enum Stage {
    /// The selector and the direct word of its address.
    Word,
    /// A node.
    Node {
        /// The node's place.
        node: u32,
        /// The number of its set.
        set: u8,
        /// How many nodes stand before it on the way.
        stride: u8,
    },
}

/// A lookup that is open.
#[derive(Clone, Copy, Debug, PartialEq, Eq)]
pub(crate) struct Lookup {
    addr: Addr,
    /// The number of ends that were over when it was opened.
    since: u64,
    stage: Stage,
}

impl Lookup {
    ghost use Rattle.std.specs.Prelude.{◌≡◌};
    ghost use Rattle.poptrie_update.specs.Stages.{CanGo, IsStageRead};

    /// What it reads next: the selector and a direct word, or a node.
    fn read(&self, live: &Live) -> At
        requires family { self.now.addr.family ≡ live.now.selected.family }
        requires can { CanGo live.now self.now.addr self.now.stage }
        ensures { IsStageRead result live.now self.now.addr self.now.stage }
    {
        match self.stage {
            Stage::Word => live.first(&self.addr),
            Stage::Node { node, set, stride } => live.next(set, node, stride, &self.addr),
        }
    }
}

/// No number is left: as many lookups are open as may be.
#[derive(Clone, Copy, Debug, PartialEq, Eq, Error)]
#[error("64 lookups are open")]
pub struct CursorsFull;

/// The number is of no open lookup.
#[derive(Clone, Copy, Debug, PartialEq, Eq, Error)]
#[error("no such lookup is open")]
pub struct NotOpen;

/// The lookups that are open in one live trie, by number: 64 at most. Each goes on in the version that was published to its address
/// at its first go, whatever steps an update makes in between.
#[derive(Drop)]
pub struct Cursors {
    lookups: Vec<Option<Lookup>>,
}

impl Model for Cursors {
    ghost use Rattle.std.specs.Prelude.{◌≡◌, length};
    ghost use Rattle.poptrie_update.specs.Cursors.{OpenLookups};

    ghost Value = { OpenLookups };

    ghost view = { λ c. c.lookups.items };

    ghost invariant = { λ c. length c.lookups.items ≡ 64 };
}

/// The earlier of the oldest lookup so far and this one, whose number is greater.
fn earlier(oldest: Oldest, cursor: u8, since: u64) -> Oldest
    ensures { IsEarlier oldest cursor since result }
{
    match oldest {
        Oldest::Started {
            cursor: first,
            since: start,
        } if start <= since => oldest,
        _ => Oldest::Started { cursor, since },
    }
}

impl Cursors {
    ghost use Rattle.std.specs.Prelude.{◌≡◌, ℕ, None, Some, replicate, IfOk, OnOk, OnErr};
    ghost use Rattle.table_model.specs.Entries.{Entries};
    ghost use Rattle.poptrie_update.specs.Lives.{Living, Shows};
    ghost use Rattle.poptrie_update.specs.Fits.{IsOldest};
    ghost use Rattle.poptrie_update.specs.Reads.{published_entries};
    ghost use Rattle.poptrie_update.specs.Cursors.{Dues, due_of, lookup_of, opens_of, FitsAll, IsStarted, IsFull, IsFirst, GoesAsDue, GoesFurther};
    ghost use Rattle.poptrie_update.specs.Stages.{Moves};
    ghost use Rattle.poptrie_update.specs.declared.cursors.Lookup.{Lookup};
    ghost use Rattle.poptrie_update.specs.declared.cursors.Stage.TheVariants as Stage;

    /// No lookup is open.
    ///
    /// # Errors
    ///
    /// Out of memory.
    pub fn new(alloc: Global) -> Result<Cursors, AllocError>
        ensures none { IfOk result (λ c. c ≡ replicate 64 None) }
        ensures fits { IfOk result (λ c. (l : Living) (due : Dues) → FitsAll l c due) }
    {
        let mut lookups = Vec::new(alloc);
        lookups.resize(MOST, None)?;
        Ok(Cursors { lookups })
    }

    /// Opens a lookup of an address, and returns its number: the least that isn't open.
    ///
    /// # Errors
    ///
    /// 64 lookups are open; nothing has changed.
    pub fn start(&mut self, live: &Live, addr: &Addr) -> Result<u8, CursorsFull>
        requires family { addr.now.family ≡ live.now.selected.family }
        ensures started { IfOk result (IsStarted live.now addr.now self.old self.new) }
        ensures full { OnErr result (IsFull self.old × (self.new ≡ self.old)) }
        ensures fits { (due : Dues) → FitsAll live.now self.old due
            → FitsAll live.now self.new due }
    {
        let Some(number) = self.lookups.iter().position(|lookup| lookup.is_none()) else {
            return Err(CursorsFull);
        };
        self.lookups[number] = Some(Lookup {
            addr: *addr,
            since: live.time(),
            stage: Stage::Word,
        });
        Ok(number as u8)
    }

    /// The next read of an open lookup: first the selector and the direct word of its address, then a node each time. It returns
    /// the answer if that is a leaf, and then the lookup is closed.
    ///
    /// # Errors
    ///
    /// No lookup of this number is open; nothing has changed.
    pub fn go(&mut self, live: &Live, number: u8) -> Result<Option<Hop>, NotOpen>
        requires fits { (due : Dues) × FitsAll live.now self.old due }
        ensures not_open { OnErr result ((lookup_of self.old number ≡ None)
            × (self.new ≡ self.old)) }
        ensures is_open { OnOk result ((k : Lookup) × (lookup_of self.old number ≡ Some k)) }
        ensures first { IfOk result (λ r. (k : Lookup) → lookup_of self.old number ≡ Some k
            → k.stage ≡ Stage.Word → (L M : Entries) (due : Dues) → Shows live.now L M
            → FitsAll live.now self.old due
            → GoesAsDue r (due_of live.now.selected.direct_bits (published_entries live.now L M k.addr) k.addr)
            number live.now self.old self.new due) }
        ensures further { IfOk result (λ r. (k : Lookup) → lookup_of self.old number ≡ Some k
            → (k.stage ≡ Stage.Word → ⊥) → (due : Dues) → FitsAll live.now self.old due
            → GoesFurther r (due number) number live.now self.old self.new due) }
    {
        let Some(Some(lookup)) = self.lookups.get(number as usize).copied() else {
            return Err(NotOpen);
        };
        let at = lookup.read(live);
        Ok(self.go_on(number, lookup, at))
    }

    /// What becomes of an open lookup that read this: it is closed if that is the answer, else it goes on from there.
    fn go_on(&mut self, number: u8, lookup: Lookup, at: At) -> Option<Hop>
        requires { lookup_of self.old number ≡ Some lookup }
        ensures { Moves result at lookup number self.old self.new }
    {
        match at {
            At::Answer(hop) => {
                self.lookups[number as usize] = None;
                Some(hop)
            }
            At::Node { node, set, stride } => {
                self.lookups[number as usize] = Some(Lookup {
                    stage: Stage::Node { node, set, stride },
                    ..lookup
                });
                None
            }
        }
    }

    /// The open lookup that started first; of several such, the one with the least number.
    pub fn oldest(&self) -> Oldest
        ensures first { IsFirst result self.now }
        ensures oldest { (s : ℕ) (due : Dues) → IsOldest result (opens_of s self.now due) }
    {
        let mut oldest = Oldest::Nobody;
        for (number, lookup) in self.lookups.iter().enumerate() {
            if let Some(lookup) = lookup {
                oldest = earlier(oldest, number as u8, lookup.since);
            }
        }
        oldest
    }
}
