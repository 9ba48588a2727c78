//! A table as runs, with which other tables are compared.

ghost use Rattle.std.specs.Prelude.{◌≡◌, ◌^◌, IfOk, map, option_map};
ghost use Rattle.table_model.specs.Width.{width};
ghost use Rattle.table_model.specs.Entries.{Entries};
ghost use Rattle.cert_model.specs.Verdict.{not_same, not_same_in};
ghost use Rattle.fib_addr.specs.Views.{entry_as};
ghost use Rattle.cert_check.specs.Runs.{AreOfBoth, AreRuns, Below, RunsTell, TellsBoth};
ghost use Rattle.cert_check.specs.Views.{differ_as};

use crate::alike::{Differ, differ_in};
use crate::runs::{Run, runs_of};
use fib_addr::{Entry, Family};
use std::alloc::{AllocError, Global};

/// What the addresses of both families get from a table, as runs of addresses with one hop. The runs of a table that is compared
/// with several others are found once.
#[derive(Drop)]
pub struct TableRuns {
    v4: Vec<Run>,
    v6: Vec<Run>,
}

impl TableRuns {
    /// The runs of these entries. They cost n log n in the entries, and take as many runs as there are entries twice, at most.
    ///
    /// # Errors
    ///
    /// Out of memory.
    pub fn new(alloc: Global, entries: &[Entry]) -> Result<TableRuns, AllocError>
        ensures tells { IfOk result (TellsBoth (map entry_as entries.now)) }
        ensures runs { IfOk result AreOfBoth }
    {
        Ok(TableRuns {
            v4: runs_of(alloc, entries, Family::V4)?,
            v6: runs_of(alloc, entries, Family::V6)?,
        })
    }

    /// The runs of a family.
    pub(crate) fn of(&self, family: Family) -> &[Run]
        ensures tells { (R : Entries) → TellsBoth R self.now → RunsTell family R result.now }
        ensures runs { AreOfBoth self.now → AreRuns 0 result.now }
        ensures below { AreOfBoth self.now → Below (2 ^ width family) result.now }
    {
        match family {
            Family::V4 => &self.v4,
            Family::V6 => &self.v6,
        }
    }

    /// The least address that gets different hops from this table and from these entries, IPv4 before IPv6; none exactly if
    /// the two are alike in both families. An entry that drops answers as no entry does. It costs n log n in the entries, and of
    /// this table no more runs than they have.
    ///
    /// # Errors
    ///
    /// Out of memory.
    pub fn first_differ(
        &self,
        alloc: Global,
        entries: &[Entry],
    ) -> Result<Option<Differ>, AllocError>
        requires { AreOfBoth self.now }
        ensures { IfOk result (λ d. (R : Entries) → TellsBoth R self.now
            → option_map differ_as d ≡ not_same R (map entry_as entries.now)) }
    {
        if let Some(differ) = self.first_differ_in(alloc, entries, Family::V4)? {
            return Ok(Some(differ));
        }
        self.first_differ_in(alloc, entries, Family::V6)
    }

    /// So of a family. The runs of the entries are let go.
    fn first_differ_in(
        &self,
        alloc: Global,
        entries: &[Entry],
        family: Family,
    ) -> Result<Option<Differ>, AllocError>
        requires { AreOfBoth self.now }
        ensures { IfOk result (λ d. (R : Entries) → TellsBoth R self.now
            → option_map differ_as d ≡ not_same_in R (map entry_as entries.now) family) }
    {
        let other = runs_of(alloc, entries, family)?;
        Ok(differ_in(self.of(family), &other, family))
    }
}
