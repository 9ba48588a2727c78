//! Packed tables.

ghost use Rattle.std.specs.Prelude.{◌≡◌, ◌++◌, ◌∷◌, [], map, drop, IfOk, OnOk};
ghost use Rattle.std.specs.List.{AllByRecursion};
ghost use Rattle.std.specs.Map.{keys_of};
ghost use Rattle.table_model.specs.Address.{IsPrefix};
ghost use Rattle.fib_addr.specs.Views.{entry_as};
ghost use Rattle.ortc.specs.Packed.{packed_entry_as};

use crate::packed::PackedEntry;
use fib_addr::{Entry, EntrySink};
use orig_tree::EntrySource;
use std::alloc::{AllocError, Global};
use std::marker::Model;

/// Entries one after the other, each in 24 octets. Contracts see them as a list.
#[derive(Drop)]
pub struct PackedTable {
    entries: Vec<PackedEntry>,
}

impl Model for PackedTable {
    ghost use Rattle.std.specs.Prelude.{map};
    ghost use Rattle.table_model.specs.Entries.{Entries};
    ghost use Rattle.ortc.specs.Packed.{packed_entry_as};

    ghost Value = { Entries };

    ghost view = { λ t. map packed_entry_as t.entries.items };
}

impl EntrySink for PackedTable {
    ghost use Rattle.fib_addr.specs.Taken.{taken_more, taken_none};

    ghost ready = { λ _. Unit {0} };

    ghost takes = { λ t entries u. u ≡ t ++ entries };

    ghost none = { λ a ready. taken_none a };

    ghost more = { λ a b c entries more first next. taken_more a b c entries more first next };

    fn put(&mut self, entry: Entry) -> Result<(), AllocError> {
        self.entries.push(PackedEntry::of(&entry))?;
        Ok(())
    }
}

/// Hands on packed entries.
fn emit_all<S: EntrySink>(entries: &[PackedEntry], out: &mut S) -> Result<(), AllocError>
    requires { S.ready out.old }
    ensures ready { OnOk result (S.ready out.new) }
    ensures takes { OnOk result (S.takes out.old (map packed_entry_as entries.now) out.new) }
{
    for entry in entries {
        out.put(entry.entry())?;
    }
    Ok(())
}

/// Packs entries.
fn pack_all(entries: &[Entry], packed: &mut Vec<PackedEntry>) -> Result<(), AllocError>
    ensures { OnOk result (map packed_entry_as packed.new.items
        ≡ map packed_entry_as packed.old.items ++ map entry_as entries.now) }
{
    packed.reserve(entries.len())?;
    for entry in entries {
        packed.push(PackedEntry::of(entry))?;
    }
    Ok(())
}

impl PackedTable {
    /// No entries.
    pub fn new(alloc: Global) -> PackedTable
        ensures { result ≡ [] }
    {
        PackedTable {
            entries: Vec::new(alloc),
        }
    }

    /// These entries, packed.
    ///
    /// # Errors
    ///
    /// Out of memory.
    pub fn of(alloc: Global, entries: &[Entry]) -> Result<PackedTable, AllocError>
        ensures { IfOk result (λ t. t ≡ map entry_as entries.now) }
    {
        let mut packed = Vec::new(alloc);
        pack_all(entries, &mut packed)?;
        Ok(PackedTable { entries: packed })
    }

    /// Adds the entries of another table after its own.
    ///
    /// # Errors
    ///
    /// Out of memory.
    pub fn append(&mut self, other: &PackedTable) -> Result<(), AllocError>
        ensures { OnOk result (self.new ≡ self.old ++ other.now) }
    {
        self.entries.extend_from_slice(&other.entries)?;
        Ok(())
    }

    /// Hands on the entries one by one, in their order.
    ///
    /// # Errors
    ///
    /// Out of memory; then the first n entries were taken, for some n.
    pub fn emit<S: EntrySink>(&self, out: &mut S) -> Result<(), AllocError>
        requires { S.ready out.old }
        ensures ready { OnOk result (S.ready out.new) }
        ensures takes { OnOk result (S.takes out.old self.now out.new) }
    {
        emit_all(&self.entries, out)?;
        Ok(())
    }

    /// The entries, to be given one by one.
    pub fn source(&self) -> PackedEntries<'_>
        ensures left { result ≡ self.now }
        ensures prefixes { AllByRecursion IsPrefix (keys_of self.now) }
    {
        PackedEntries {
            rest: &self.entries,
        }
    }
}

/// The packed entries that are left of a table, as a source of them. Contracts see them as a list.
#[derive(Drop)]
pub struct PackedEntries<'a> {
    rest: &'a [PackedEntry],
}

impl<'a> Model for PackedEntries<'a> {
    ghost use Rattle.std.specs.Prelude.{map};
    ghost use Rattle.table_model.specs.Entries.{Entries};
    ghost use Rattle.ortc.specs.Packed.{packed_entry_as};

    ghost Value = { Entries };

    ghost view = { λ s. map packed_entry_as s.rest.now };
}

impl<'a> EntrySource for PackedEntries<'a> {
    ghost left = { λ s. s };

    fn first(&self) -> Option<Entry> {
        match self.rest {
            [first, ..] => Some(first.entry()),
            _ => None,
        }
    }

    fn pass(&mut self) {
        if let [_, rest @ ..] = self.rest {
            self.rest = rest;
        }
    }
}
