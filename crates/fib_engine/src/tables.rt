//! The kept tables of both families.

ghost use Rattle.std.specs.Prelude.{◌≡◌, ◌≤◌, [], ◌∷◌, ◌++◌, IfOk, OnOk, OnErr, length, map};
ghost use Rattle.std.specs.List.{AllByRecursion};
ghost use Rattle.std.specs.Map.{keys_of};
ghost use Rattle.table_model.specs.Address.{IsPrefix};
ghost use Rattle.table_model.specs.Entries.{in_order};
ghost use Rattle.table_model.specs.declared.family.Family.TheVariants.{V4, V6};
ghost use Rattle.table_model.specs.Both.{aggregate_in};
ghost use Rattle.cert_model.specs.Rows.{family_rows};
ghost use Rattle.fib_addr.specs.Views.{entry_as};
ghost use Rattle.fib_delta.specs.Views.{change_as};
ghost use Rattle.cert_model.specs.Views.{row_as};
ghost use Rattle.smalta_keep.specs.Views.{moved_of};
ghost use Rattle.route_tries.specs.Sizes.{told_needs};
ghost use Rattle.fib_engine.specs.Tables.{AreAlike, AreBoth, AreTold, ArePlanned, ArePut, AreUndone, Given, both_firsts, gathered, needs_in, route_in, labels_of, table_of, both_routes, only, KeepRoutes, KeepTables, MadeBy};

use cert_model::RowSink;
use fib_addr::EntrySink;
use fib_delta::Change;
use fib_prefix::{Entry, Family, Hop, Prefix};
use orig_tree::{EntrySource, Tree};
use ortc::{Fresh, PackedTable};
use route_tries::FamilyNeeds;
use smalta_keep::{Keep, Moved, Repair};
use std::alloc::{AllocError, Global};
use std::marker::Model;

/// The kept table of each family. Contracts see both.
#[derive(Drop)]
pub struct Tables {
    v4: Keep,
    v6: Keep,
}

impl Model for Tables {
    ghost use Rattle.fib_engine.specs.Tables.{Both};

    ghost Value = { Both };

    ghost view = { λ t. record { v4 = t.v4; v6 = t.v6 } };
}

/// The changes of an elementary event.
#[derive(Drop)]
pub struct EventChanges {
    /// Those of the first step, a repair or those to the nearest table, then those of the snapshot; both in the order of prefixes.
    pub changes: Vec<Change>,
    /// How many of them are the first step's.
    pub first: usize,
}

impl EventChanges {
    ghost use Rattle.std.specs.Prelude.{◌≡◌, []};

    /// No changes.
    pub(crate) fn none(alloc: Global) -> EventChanges
        ensures changes { result.changes.items ≡ [] }
        ensures first { result.first ≡ 0 }
    {
        EventChanges {
            changes: Vec::new(alloc),
            first: 0,
        }
    }
}

/// What is planned of both tables, and all changes that it will make.
#[derive(Drop)]
pub struct Plan {
    pub(crate) v4: Repair,
    pub(crate) v6: Repair,
    pub(crate) changes: EventChanges,
}

/// The route, if it is of the family.
fn route_of(route: Option<(Prefix, Hop)>, family: Family) -> Option<(Prefix, Hop)>
    ensures { result ≡ route_in family route }
{
    match route {
        Some((prefix, hop)) if prefix.family == family => Some((prefix, hop)),
        _ => None,
    }
}

/// The changes of both first steps, then those of both snapshots; IPv4 first.
fn gather(alloc: Global, v4: &Moved, v6: &Moved) -> Result<EventChanges, AllocError>
    ensures changes { IfOk result (λ e. map change_as e.changes.items ≡ gathered v4.now v6.now) }
    ensures first { IfOk result (λ e. e.first ≡ length (both_firsts v4.now v6.now)) }
{
    let mut changes = Vec::new(alloc);
    changes.extend_from_slice(&v4.repair)?;
    changes.extend_from_slice(&v6.repair)?;
    let first = changes.len();
    changes.extend_from_slice(&v4.snapshot)?;
    changes.extend_from_slice(&v6.snapshot)?;
    Ok(EventChanges { changes, first })
}

impl Tables {
    /// Empty tables of no routes.
    pub fn new(alloc: Global) -> Tables
        ensures { result ≡ record {
          v4 = record { family = V4; routes = []; entries = []; nodes = [] ∷ []; before = [] };
          v6 = record { family = V6; routes = []; entries = []; nodes = [] ∷ []; before = [] };
        } }
    {
        Tables {
            v4: Keep::new(alloc, Family::V4),
            v6: Keep::new(alloc, Family::V6),
        }
    }

    /// Empty tables of these routes, of which none is that of no hop. A tree is made of all routes at once.
    ///
    /// # Errors
    ///
    /// Out of memory.
    pub fn load(alloc: Global, routes: &[Entry]) -> Result<Tables, AllocError>
        requires { AllByRecursion (λ r. 1 ≤ r.1) (map entry_as routes.now) }
        ensures both { IfOk result AreBoth }
        ensures given { IfOk result (Given (map entry_as routes.now)) }
        ensures empty { IfOk result (λ t. (t.v4.entries ≡ []) × (t.v6.entries ≡ [])) }
    {
        let v4 = Keep::load(alloc, Family::V4, routes)?;
        let v6 = Keep::load(alloc, Family::V6, routes)?;
        Ok(Tables { v4, v6 })
    }

    /// Empty tables of the routes that two sources give, one of each family, of which none is that of no hop. No list of them is made.
    ///
    /// # Errors
    ///
    /// Out of memory.
    pub fn load_from<S: EntrySource>(
        alloc: Global,
        v4: &mut S,
        v6: &mut S,
    ) -> Result<Tables, AllocError>
        requires prefixes { AllByRecursion IsPrefix (keys_of (S.left v4.old))
            × AllByRecursion IsPrefix (keys_of (S.left v6.old)) }
        requires hops { AllByRecursion (λ r. 1 ≤ r.1) (S.left v4.old)
            × AllByRecursion (λ r. 1 ≤ r.1) (S.left v6.old) }
        ensures both { IfOk result AreBoth }
        ensures v4 { IfOk result (λ t. t.v4.routes ≡ in_order (only V4 (S.left v4.old))) }
        ensures v6 { IfOk result (λ t. t.v6.routes ≡ in_order (only V6 (S.left v6.old))) }
        ensures empty { IfOk result (λ t. (t.v4.entries ≡ []) × (t.v6.entries ≡ [])) }
    {
        let v4 = Keep::load_from(alloc, Family::V4, v4)?;
        let v6 = Keep::load_from(alloc, Family::V6, v6)?;
        Ok(Tables { v4, v6 })
    }

    /// The same tables, which keep marks of what changes, or don't, as if no snapshot is to come.
    pub fn marked_if(self, marked: bool) -> Tables
        ensures { result ≡ self }
    {
        Tables {
            v4: self.v4.marked_if(marked),
            v6: self.v6.marked_if(marked),
        }
    }

    /// The routes with their least tables in place of empty ones, and the entries of both, IPv4 first.
    ///
    /// # Errors
    ///
    /// Out of memory.
    pub fn filled(self) -> Result<(Tables, PackedTable), AllocError>
        requires both { AreBoth self }
        requires empty { (self.v4.entries ≡ []) × (self.v6.entries ≡ []) }
        ensures routes { IfOk result (λ r. KeepRoutes self r.0) }
        ensures v4 { IfOk result (λ r. r.0.v4.entries ≡ aggregate_in V4 self.v4.routes []) }
        ensures v6 { IfOk result (λ r. r.0.v6.entries ≡ aggregate_in V6 self.v6.routes []) }
        ensures entries { IfOk result (λ r. r.1 ≡ table_of r.0) }
    {
        let (v4, mut entries) = self.v4.filled_packed()?;
        let (v6, others) = self.v6.filled_packed()?;
        entries.append(&others)?;
        Ok((Tables { v4, v6 }, entries))
    }

    /// The routes with their least tables in place of empty ones. No list of their entries is left.
    ///
    /// # Errors
    ///
    /// Out of memory.
    pub fn filled_alone(self) -> Result<Tables, AllocError>
        requires both { AreBoth self }
        requires empty { (self.v4.entries ≡ []) × (self.v6.entries ≡ []) }
        ensures routes { IfOk result (KeepRoutes self) }
        ensures v4 { IfOk result (λ t. t.v4.entries ≡ aggregate_in V4 self.v4.routes []) }
        ensures v6 { IfOk result (λ t. t.v6.entries ≡ aggregate_in V6 self.v6.routes []) }
    {
        let (v4, entries) = self.v4.filled_packed()?;
        drop(entries);
        let (v6, _) = self.v6.filled_packed()?;
        Ok(Tables { v4, v6 })
    }

    /// Plans the repair if a route changes, or the fewest changes that its family's table needs then, and a
    /// snapshot of both, if it is due: the table of the route's family has the route then, and all memory is taken. The plan is
    /// to be committed before anything else changes.
    ///
    /// # Errors
    ///
    /// Out of memory; then routes and tables are as they were.
    pub fn plan(
        &mut self,
        alloc: Global,
        route: Option<(Prefix, Hop)>,
        snapshot: bool,
        fewest: bool,
    ) -> Result<Plan, AllocError>
        requires both { AreBoth self.old }
        requires alike { AreAlike self.old }
        ensures tables { KeepTables self.old self.new }
        ensures put { OnOk result (ArePut route self.old self.new) }
        ensures planned { IfOk result (ArePlanned self.new) }
        ensures told { IfOk result (λ p. AreTold self.new fewest route snapshot p.v4 p.v6) }
        ensures undone { IfOk result (λ p. AreUndone p self.new self.old) }
        ensures changes { IfOk result (λ p. map change_as p.changes.changes.items
            ≡ gathered (moved_of p.v4) (moved_of p.v6)) }
        ensures first { IfOk result (λ p. p.changes.first
            ≡ length (both_firsts (moved_of p.v4) (moved_of p.v6))) }
        ensures err { OnErr result (KeepRoutes self.old self.new) }
    {
        let v4 = self.v4.plan(route_of(route, Family::V4), snapshot, fewest)?;
        let v6 = match self.v6.plan(route_of(route, Family::V6), snapshot, fewest) {
            Ok(v6) => v6,
            Err(failed) => {
                self.v4.undo(v4);
                return Err(failed);
            }
        };
        match gather(alloc, v4.moved(), v6.moved()) {
            Ok(changes) => Ok(Plan { v4, v6, changes }),
            Err(failed) => {
                self.v4.undo(v4);
                self.v6.undo(v6);
                Err(failed)
            }
        }
    }

    /// Puts the route of a plan back, if nothing changed since: routes and tables are as they were before it. It takes no
    /// memory.
    pub fn undo(&mut self, plan: Plan)
        requires { ArePlanned self.old plan }
        ensures tables { KeepTables self.old self.new }
        ensures undone { AreUndone plan self.old self.new }
    {
        self.v4.undo(plan.v4);
        self.v6.undo(plan.v6);
    }

    /// Makes what was planned, if nothing changed since, and returns the changes. It takes no memory.
    pub fn commit(&mut self, plan: Plan) -> EventChanges
        requires { ArePlanned self.old plan }
        ensures routes { KeepRoutes self.old self.new }
        ensures v4 { MadeBy plan.v4 self.old.v4 self.new.v4 }
        ensures v6 { MadeBy plan.v6 self.old.v6 self.new.v6 }
        ensures changes { result ≡ plan.changes }
    {
        self.v4.commit(plan.v4);
        self.v6.commit(plan.v6);
        plan.changes
    }

    /// The tree of a family's routes and entries.
    pub fn tree(&self, family: Family) -> &Tree
        ensures { result.now ≡ labels_of family self.now }
    {
        match family {
            Family::V4 => self.v4.tree(),
            Family::V6 => self.v6.tree(),
        }
    }

    /// What tries of the routes need.
    pub fn needs(&self, direct: u8) -> FamilyNeeds
        requires both { AreBoth self.now }
        requires few { direct ≤ 18 }
        ensures { result ≡ told_needs (needs_in direct self.now) }
    {
        FamilyNeeds::of(self.v4.tree(), self.v6.tree(), direct)
    }

    /// Both tables, IPv4 first.
    pub fn table(&self) -> Result<Vec<Entry>, AllocError>
        ensures { IfOk result (λ v. map entry_as v.items ≡ table_of self.now) }
    {
        let mut table = self.v4.table()?;
        table.extend_from_slice(&self.v6.table()?)?;
        Ok(table)
    }

    /// Hands on the routes of both, IPv4 first.
    pub fn emit_routes<S: EntrySink>(&self, out: &mut S) -> Result<(), AllocError>
        requires { S.ready out.old }
        ensures ready { OnOk result (S.ready out.new) }
        ensures takes { OnOk result (S.takes out.old (both_routes self.now) out.new) }
    {
        self.v4.tree().emit_routes(out)?;
        self.v6.tree().emit_routes(out)?;
        Ok(())
    }

    /// Hands on the entries of both tables, IPv4 first.
    pub fn emit_table<S: EntrySink>(&self, out: &mut S) -> Result<(), AllocError>
        requires { S.ready out.old }
        ensures ready { OnOk result (S.ready out.new) }
        ensures takes { OnOk result (S.takes out.old (table_of self.now) out.new) }
    {
        self.v4.emit_table(out)?;
        self.v6.emit_table(out)?;
        Ok(())
    }

    /// Hands on the entries of the least tables of the routes, with the kept ones as the old tables; IPv4 first.
    pub fn emit_least<S: EntrySink>(&self, out: &mut S) -> Result<(), AllocError>
        requires both { AreBoth self.now }
        requires ready { S.ready out.old }
        ensures ready { OnOk result (S.ready out.new) }
        ensures takes { OnOk result (S.takes out.old (aggregate_in V4 self.now.v4.routes
            self.now.v4.entries ++ aggregate_in V6 self.now.v6.routes self.now.v6.entries)
            out.new) }
    {
        self.v4.emit_least(out)?;
        self.v6.emit_least(out)?;
        Ok(())
    }

    /// Passes on the rows that prove tables of the routes least; IPv4 first. Each is let go once its rows are passed on.
    pub fn certify<S: RowSink>(self, out: &mut S) -> Result<(), AllocError>
        requires both { AreBoth self }
        requires ready { S.ready out.old }
        ensures ready { OnOk result (S.ready out.new) }
        ensures takes { OnOk result (S.takes out.old (family_rows V4 self.v4.routes
            ++ family_rows V6 self.v6.routes) out.new) }
    {
        self.v4.certify(out)?;
        drop(self.v4);
        self.v6.certify(out)?;
        Ok(())
    }

    /// The least tables of the routes, with the kept ones as the old tables, and the rows that prove them least; IPv4 first.
    pub fn least(&self) -> Result<Fresh, AllocError>
        requires { AreBoth self.now }
        ensures table { IfOk result (λ v. map entry_as v.table.items
            ≡ aggregate_in V4 self.now.v4.routes self.now.v4.entries
            ++ aggregate_in V6 self.now.v6.routes self.now.v6.entries) }
        ensures proof { IfOk result (λ v. map row_as v.proof.items
            ≡ family_rows V4 self.now.v4.routes ++ family_rows V6 self.now.v6.routes) }
    {
        let mut least = self.v4.least()?;
        let v6 = self.v6.least()?;
        least.table.extend_from_slice(&v6.table)?;
        least.proof.extend_from_slice(&v6.proof)?;
        Ok(least)
    }
}
