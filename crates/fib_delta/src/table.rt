//! The table of a router, which takes changes.
//!
//! Its entries stand in a map by prefix: a change costs one lookup, an addition two.

ghost use Rattle.std.specs.Prelude.{◌≡◌, ◌↔◌, [], map, true, IfOk, OnOk, OnErr, IsOk, Some, IsErrOf};
ghost use Rattle.std.specs.Map.{remove_entry};
ghost use Rattle.table_model.specs.Address.{same_prefix};
ghost use Rattle.table_model.specs.Entries.{with_entry};
ghost use Rattle.table_model.specs.Changes.{is_held, after_change};
ghost use Rattle.fib_addr.specs.Views.{prefix_as, entry_as};
ghost use Rattle.fib_delta.specs.Views.{change_as, InPlace};
ghost use Rattle.fib_delta.specs.Refusals.{is_not_there, is_already};
ghost use Rattle.fib_delta.specs.declared.table.ApplyError.TheVariants as error;

use crate::change::Change;
use fib_addr::{Entry, Hop, Prefix};
use std::alloc::{AllocError, AllocFailed, Global};
use std::collections::BTreeMap;
use std::marker::Model;
use thiserror::Error;

/// Why a table didn't take a change.
#[derive(Clone, Copy, Debug, PartialEq, Eq, Error)]
pub enum ApplyError {
    /// It is to replace or to remove, and the table has no entry at its prefix.
    #[error("no entry at the prefix")]
    NotThere,
    /// It is to add, and the table has an entry at its prefix.
    #[error("an entry at the prefix already")]
    Already,
    /// Memory ran out.
    #[error("no memory")]
    NoMemory,
}

impl From<AllocError> for ApplyError {
    ghost from_gives = { λ _ e. e ≡ error.NoMemory };

    fn from(_e: AllocError) -> ApplyError {
        ApplyError::NoMemory
    }
}

/// A table of both families. Contracts see its entries in the order of prefixes.
#[derive(Drop)]
pub struct Table {
    alloc: Global,
    held: BTreeMap<Prefix, Hop>,
}

impl Model for Table {
    ghost use Rattle.table_model.specs.Entries.{Entries};
    ghost use Rattle.fib_delta.specs.Views.{held_as};

    ghost Value = { Entries };

    ghost view = { λ t. held_as t.held.entries };
}

impl Table {
    /// A table with no entry.
    pub fn new(alloc: Global) -> Table
        ensures { result ≡ [] }
    {
        Table {
            alloc,
            held: BTreeMap::new(alloc),
        }
    }

    /// Whether the table has an entry at the prefix.
    pub fn contains(&self, prefix: &Prefix) -> bool
        ensures { result ≡ is_held (prefix_as prefix.now) self.now }
    {
        self.held.contains_key(prefix)
    }

    /// Sets the entry's hop at its prefix, and adds the entry if there is none.
    ///
    /// # Errors
    ///
    /// Out of memory, only if none is there; then nothing has changed.
    pub(crate) fn put(&mut self, entry: &Entry) -> Result<(), AllocError>
        ensures ok { OnOk result (self.new ≡ with_entry self.old (entry_as entry.now)) }
        ensures err { OnErr result (self.new ≡ self.old) }
        ensures held { is_held (prefix_as entry.now.prefix) self.old ≡ true → IsOk result }
    {
        self.held.insert(entry.prefix, entry.hop)?;
        Ok(())
    }

    /// Takes the entry at the prefix away, if there is one.
    fn take(&mut self, prefix: &Prefix)
        ensures { self.new ≡ remove_entry (same_prefix (prefix_as prefix.now)) self.old }
    {
        self.held.remove(prefix);
    }

    /// Makes a change: adds an entry if there is none at its prefix, or replaces or removes one that is there.
    ///
    /// # Errors
    ///
    /// `NotThere` exactly if it is to replace or to remove what isn't there, `Already` exactly if it is to add what is
    /// there, or out of memory. Then the table is as it was.
    pub fn apply(&mut self, change: &Change) -> Result<(), ApplyError>
        ensures ok { OnOk result (after_change (change_as change.now) self.old ≡ Some self.new) }
        ensures err { OnErr result (self.new ≡ self.old) }
        ensures not_there { IsErrOf result ApplyError.NotThere ↔ (is_not_there (change_as change.now) self.old ≡ true) }
        ensures already { IsErrOf result ApplyError.Already ↔ (is_already (change_as change.now) self.old ≡ true) }
    {
        match *change {
            Change::Add(prefix, hop) => {
                if self.contains(&prefix) {
                    return Err(ApplyError::Already);
                }
                self.put(&Entry { prefix, hop })?;
            }
            Change::Replace(prefix, hop) => {
                if !self.contains(&prefix) {
                    return Err(ApplyError::NotThere);
                }
                self.put(&Entry { prefix, hop })?;
            }
            Change::Remove(prefix) => {
                if !self.contains(&prefix) {
                    return Err(ApplyError::NotThere);
                }
                self.take(&prefix);
            }
        }
        Ok(())
    }

    /// The entries, in the order of prefixes.
    ///
    /// # Errors
    ///
    /// Out of memory.
    pub fn entries(&self) -> Result<Vec<Entry>, AllocError>
        ensures order { InPlace self.now }
        ensures entries { IfOk result (λ v. map entry_as v.items ≡ self.now) }
    {
        let mut entries = Vec::with_capacity(self.alloc, self.held.len())?;
        for (prefix, hop) in self.held.iter() {
            entries.push(Entry {
                prefix: *prefix,
                hop: *hop,
            })?;
        }
        Ok(entries)
    }
}
