//! The kept table.

ghost use Rattle.std.specs.Prelude.{◌≡◌, ◌≤◌, filter, ◌∷◌, ◌++◌, [], true, false, Some, None, IfOk, OnOk, OnErr, map};
ghost use Rattle.std.specs.Option.{ForSome};
ghost use Rattle.std.specs.List.{AllByRecursion};
ghost use Rattle.std.specs.Map.{keys_of};
ghost use Rattle.table_model.specs.Address.{IsPrefix, same_family};
ghost use Rattle.table_model.specs.Entries.{in_order};
ghost use Rattle.table_model.specs.Changes.{after_changes};
ghost use Rattle.table_model.specs.Both.{aggregate_in};
ghost use Rattle.cert_model.specs.Rows.{family_rows};
ghost use Rattle.kept_model.specs.Between.{between};
ghost use Rattle.kept_model.specs.Patched.{with_route, patch_of};
ghost use Rattle.fib_addr.specs.Views.{prefix_as, entry_as};
ghost use Rattle.cert_model.specs.Views.{row_as};
ghost use Rattle.fib_delta.specs.Views.{change_as};
ghost use Rattle.orig_tree.specs.Views.{InPlace};
ghost use Rattle.ortc.specs.Proved.{ProveLeast};
ghost use Rattle.smalta_keep.specs.Views.{moved_of, repair_as, snapshot_as, undone_by, with_planned, place_in};
ghost use Rattle.smalta_keep.specs.Plans.{IsRepairPlanned, Tells};
ghost use Rattle.smalta_keep.specs.Answers.{IsAlike, IsAlikeFor, IsLeast, IsFewestWithin};

use crate::dirty::DirtySet;
use crate::entries::apply_all;
use crate::held::{leave, prefix_held};
use crate::idle::{trim_at, trim_cleared, trim_last, trim_left};
use crate::plan::{Due, plan_moves};
use crate::repair::{Moved, Repair};
use crate::routes::{former_prefix, planned_prefix, put_back_planned, set};
use cert_model::RowSink;
use fib_addr::{Entry, EntrySink, Family, Hop, Prefix};
use fib_delta::Change;
use orig_tree::{EntrySource, Tree};
use ortc::{Fresh, PackedTable, certify, emit_least, fresh, least_packed, least_table};
use std::alloc::{AllocError, Global};
use std::marker::Model;

/// The routes and the kept table of one family. Contracts see both in the order of prefixes: the table's entries are the
/// tree's.
#[derive(Drop)]
pub struct Keep {
    alloc: Global,
    tree: Tree,
    dirty: DirtySet,
    // the prefix of the plan that is to be committed or undone, if it counts as wide dirty meanwhile
    held: Option<Prefix>,
}

impl Model for Keep {
    ghost use Rattle.orig_tree.specs.Views.{Labels};
    ghost use Rattle.std.specs.Prelude.{option_map};
    ghost use Rattle.fib_addr.specs.Views.{prefix_as};
    ghost use Rattle.smalta_keep.specs.Known.{IsKnownHeld};

    ghost Value = { Labels };

    ghost view = { λ k. k.tree };

    ghost invariant = { λ k. IsKnownHeld (option_map prefix_as k.held) k.tree k.dirty.tree };
}

/// Whether a plan with this route, if it has one, changes nothing.
fn changes_nothing(route: Option<(Prefix, Hop)>, snapshot: bool) -> bool
    ensures route { result ≡ true → route ≡ None }
    ensures snapshot { result ≡ true → snapshot ≡ false }
{
    route.is_none() && !snapshot
}

impl Keep {
    /// No routes, and an empty table.
    pub fn new(alloc: Global, family: Family) -> Keep
        ensures { result ≡ record {
          family = family;
          routes = [];
          entries = [];
          nodes = [] ∷ [];
          before = [];
        } }
    {
        Keep {
            alloc,
            tree: Tree::new(alloc, family),
            dirty: DirtySet::all(),
            held: None,
        }
    }

    /// Those of the routes that are of the family, the last at each prefix, and an empty table. It costs the tree's nodes, if
    /// the routes stand in the order of prefixes; a `put` for each would cost the nodes on each way with their sets of hops.
    ///
    /// # Errors
    ///
    /// Out of memory.
    pub fn load(alloc: Global, family: Family, routes: &[Entry]) -> Result<Keep, AllocError>
        requires { AllByRecursion (λ r. 1 ≤ r.1) (map entry_as routes.now) }
        ensures family { IfOk result (λ k. k.family ≡ family) }
        ensures routes { IfOk result (λ k. k.routes ≡ in_order (filter (λ e. same_family family
            e.0.family) (map entry_as routes.now))) }
        ensures table { IfOk result (λ k. k.entries ≡ []) }
    {
        let tree = Tree::load(alloc, family, routes)?;
        Ok(Keep {
            alloc,
            tree,
            dirty: DirtySet::all(),
            held: None,
        })
    }

    /// Those of the routes that a source gives that are of the family, and an empty table, as `load` makes it of a list: none is made.
    ///
    /// # Errors
    ///
    /// Out of memory.
    pub fn load_from<S: EntrySource>(
        alloc: Global,
        family: Family,
        routes: &mut S,
    ) -> Result<Keep, AllocError>
        requires prefixes { AllByRecursion IsPrefix (keys_of (S.left routes.old)) }
        requires hops { AllByRecursion (λ r. 1 ≤ r.1) (S.left routes.old) }
        ensures family { IfOk result (λ k. k.family ≡ family) }
        ensures routes { IfOk result (λ k. k.routes ≡ in_order (filter (λ e. same_family family
            e.0.family) (S.left routes.old))) }
        ensures table { IfOk result (λ k. k.entries ≡ []) }
    {
        let tree = Tree::load_from(alloc, family, routes)?;
        Ok(Keep {
            alloc,
            tree,
            dirty: DirtySet::all(),
            held: None,
        })
    }

    /// The same routes and table, which keeps marks of what changes, or doesn't. Without them a change costs less, but its repair
    /// goes over all regions within its prefix, and a snapshot over the whole tree: they don't pay if no snapshot is to come.
    /// A table keeps marks unless this is said.
    pub fn marked_if(self, marked: bool) -> Keep
        ensures { result ≡ self }
    {
        Keep {
            alloc: self.alloc,
            tree: self.tree,
            dirty: DirtySet::all_if(marked),
            held: None,
        }
    }

    /// The routes with their least table in place of an empty one, and its entries. It costs the tree's nodes, while a snapshot
    /// would cost each entry's length too.
    ///
    /// # Errors
    ///
    /// Out of memory.
    pub fn filled(self) -> Result<(Keep, Vec<Entry>), AllocError>
        requires { self.entries ≡ [] }
        ensures family { IfOk result (λ r. r.0.family ≡ self.family) }
        ensures routes { IfOk result (λ r. r.0.routes ≡ self.routes) }
        ensures table { IfOk result (λ r. r.0.entries ≡ aggregate_in self.family self.routes []) }
        ensures least { IfOk result (λ r. IsLeast r.0) }
        ensures entries { IfOk result (λ r. map entry_as r.1.items ≡ r.0.entries) }
    {
        let (keep, packed) = self.filled_packed()?;
        let mut entries = Vec::new(keep.alloc);
        packed.emit(&mut entries)?;
        Ok((keep, entries))
    }

    /// The same, with the entries in half the memory.
    ///
    /// # Errors
    ///
    /// Out of memory.
    pub fn filled_packed(self) -> Result<(Keep, PackedTable), AllocError>
        requires { self.entries ≡ [] }
        ensures family { IfOk result (λ r. r.0.family ≡ self.family) }
        ensures routes { IfOk result (λ r. r.0.routes ≡ self.routes) }
        ensures table { IfOk result (λ r. r.0.entries ≡ aggregate_in self.family self.routes []) }
        ensures least { IfOk result (λ r. IsLeast r.0) }
        ensures entries { IfOk result (λ r. r.1 ≡ r.0.entries) }
    {
        let family = self.tree.family();
        let least = least_packed(self.alloc, &self.tree)?;
        let mut left = least.source();
        let tree = self.tree.insert_entries_from(&mut left)?;
        let mut dirty = self.dirty;
        dirty.leave(self.alloc, family, true, false, None);
        let keep = Keep {
            alloc: self.alloc,
            tree,
            dirty,
            held: None,
        };
        Ok((keep, least))
    }

    /// Gives a prefix this route, or with `Hop::NONE` none. The table stays.
    ///
    /// # Errors
    ///
    /// Out of memory; then nothing has changed.
    pub fn put(&mut self, prefix: &Prefix, hop: Hop) -> Result<(), AllocError>
        requires { prefix.now.family ≡ self.old.family }
        ensures family { self.new.family ≡ self.old.family }
        ensures table { self.new.entries ≡ self.old.entries }
        ensures routes { OnOk result (self.new.routes
            ≡ with_route (prefix_as prefix.now) hop.0 self.old.routes) }
        ensures err { OnErr result (self.new ≡ self.old) }
    {
        // the routes stand in order
        let _family = self.tree.family();
        self.dirty.keep(self.held);
        self.held = None;
        self.dirty.mark(prefix)?;
        set(&mut self.tree, prefix, hop)?;
        if hop == Hop::NONE {
            self.tree.trim(prefix);
        }
        Ok(())
    }

    /// Plans a repair and a snapshot: gives the route's prefix this route, if there is one, or with `Hop::NONE` none, and returns
    /// the changes of the repair at that prefix, and then those of the snapshot, if it is due. The repair stays within the prefix,
    /// or is to have the fewest changes: then one of them may be at a prefix that holds it. The table stays. It takes all
    /// memory: the plan is to be committed or undone before anything else changes.
    ///
    /// # Errors
    ///
    /// Out of memory; then routes and table are as they were.
    pub fn plan(
        &mut self,
        route: Option<(Prefix, Hop)>,
        snapshot: bool,
        fewest: bool,
    ) -> Result<Repair, AllocError>
        requires family { ForSome route (λ r. r.0.family ≡ self.old.family) }
        requires alike { IsAlikeFor fewest route self.old }
        ensures family { self.new.family ≡ self.old.family }
        ensures table { self.new.entries ≡ self.old.entries }
        ensures routes { OnOk result (self.new.routes ≡ with_planned route self.old.routes) }
        ensures planned { IfOk result (IsRepairPlanned self.new) }
        ensures moved { IfOk result (λ r. Tells self.new fewest (place_in route) snapshot (moved_of r)) }
        ensures undone { IfOk result (λ r. undone_by r self.new.routes ≡ self.old.routes) }
        ensures err { OnErr result (self.new.routes ≡ self.old.routes) }
    {
        // the routes stand in order
        let _family = self.tree.family();
        if changes_nothing(route, snapshot) {
            return Ok(Repair::nothing(self.alloc, fewest));
        }
        let at = planned_prefix(route);
        self.dirty.keep(self.held);
        self.held = None;
        self.dirty.expect(at);
        let due = Due { fewest, snapshot };
        match plan_moves(self.alloc, &mut self.tree, &mut self.dirty, route, due) {
            Ok(repair) => {
                self.held = prefix_held(at, snapshot, fewest);
                Ok(repair)
            }
            Err(failed) => {
                trim_at(&mut self.tree, at);
                Err(failed)
            }
        }
    }

    /// Makes the changes that were planned, if nothing changed since. It takes no memory.
    pub fn commit(&mut self, repair: Repair) -> Moved
        requires { IsRepairPlanned self.old repair }
        ensures family { self.new.family ≡ self.old.family }
        ensures routes { self.new.routes ≡ self.old.routes }
        ensures table { after_changes (repair_as (moved_of repair) ++ snapshot_as (moved_of repair))
            self.old.entries ≡ Some self.new.entries }
        ensures moved { result ≡ moved_of repair }
    {
        let family = self.tree.family();
        let at = former_prefix(&repair.former);
        let reach = repair.reach;
        let due = repair.due;
        let fewest = repair.fewest;
        let cleared = repair.cleared;
        let moved = repair.moved;
        apply_all(&mut self.tree, &moved.repair);
        apply_all(&mut self.tree, &moved.snapshot);
        trim_cleared(&mut self.tree, at, cleared);
        trim_left(&mut self.tree, &moved.repair, true);
        trim_left(&mut self.tree, &moved.snapshot, true);
        leave(
            &mut self.dirty,
            self.held,
            self.alloc,
            family,
            due,
            fewest,
            reach,
        );
        self.held = None;
        moved
    }

    /// Puts the route back, if nothing changed since the plan: routes and table are as they were before it. It takes no
    /// memory.
    pub fn undo(&mut self, repair: Repair)
        requires { IsRepairPlanned self.old repair }
        ensures family { self.new.family ≡ self.old.family }
        ensures routes { self.new.routes ≡ undone_by repair self.old.routes }
        ensures table { self.new.entries ≡ self.old.entries }
    {
        // the routes stand in order
        let _family = self.tree.family();
        put_back_planned(&mut self.tree, &repair.former);
        trim_last(&mut self.tree, former_prefix(&repair.former));
        trim_left(&mut self.tree, &repair.moved.repair, false);
        trim_left(&mut self.tree, &repair.moved.snapshot, false);
        self.dirty.keep(self.held);
        self.held = None;
        self.dirty.keep(former_prefix(&repair.former));
    }

    /// Makes the table least for the routes, with the table as the old one, and returns the changes.
    ///
    /// # Errors
    ///
    /// Out of memory; then routes and table are as they were.
    pub fn snapshot(&mut self) -> Result<Vec<Change>, AllocError>
        ensures family { self.new.family ≡ self.old.family }
        ensures routes { self.new.routes ≡ self.old.routes }
        ensures table { OnOk result (self.new.entries
            ≡ aggregate_in self.old.family self.old.routes self.old.entries) }
        ensures changes { IfOk result (λ v. map change_as v.items
            ≡ between self.old.entries self.new.entries) }
        ensures least { OnOk result (IsLeast self.new) }
        ensures err { OnErr result (self.new.entries ≡ self.old.entries) }
    {
        let repair = self.plan(None, true, false)?;
        Ok(self.commit(repair).snapshot)
    }

    /// Gives a prefix this route, or with `Hop::NONE` none, and repairs the table within the prefix; returns the changes. A table
    /// that answered as the routes still does.
    ///
    /// # Errors
    ///
    /// Out of memory; then routes and table are as they were.
    pub fn change(&mut self, prefix: &Prefix, now: Hop) -> Result<Vec<Change>, AllocError>
        requires { prefix.now.family ≡ self.old.family }
        ensures family { self.new.family ≡ self.old.family }
        ensures routes { OnOk result (self.new.routes
            ≡ with_route (prefix_as prefix.now) now.0 self.old.routes) }
        ensures table { OnOk result (self.new.entries
            ≡ patch_of self.new.routes (prefix_as prefix.now) self.old.entries) }
        ensures changes { IfOk result (λ v. map change_as v.items
            ≡ between self.old.entries self.new.entries) }
        ensures alike { OnOk result (IsAlike self.old → IsAlike self.new) }
        ensures fewest { OnOk result (IsFewestWithin (prefix_as prefix.now) self.old.entries self.new) }
        ensures err { OnErr result ((self.new.routes ≡ self.old.routes)
            × (self.new.entries ≡ self.old.entries)) }
    {
        // routes and entries stand in order
        let _family = self.tree.family();
        let repair = self.plan(Some((*prefix, now)), false, false)?;
        Ok(self.commit(repair).repair)
    }

    /// The table, in the order of prefixes.
    ///
    /// # Errors
    ///
    /// Out of memory.
    pub fn table(&self) -> Result<Vec<Entry>, AllocError>
        ensures order { InPlace self.now.entries }
        ensures table { IfOk result (λ v. map entry_as v.items ≡ self.now.entries) }
    {
        self.tree.entries()
    }

    /// The least table of the routes, with the kept one as the old table, and the rows that prove it least.
    ///
    /// # Errors
    ///
    /// Out of memory.
    pub fn least(&self) -> Result<Fresh, AllocError>
        ensures table { IfOk result (λ v. map entry_as v.table.items
            ≡ aggregate_in self.now.family self.now.routes self.now.entries) }
        ensures proof { IfOk result (λ v. map row_as v.proof.items
            ≡ family_rows self.now.family self.now.routes) }
        ensures certificate { IfOk result (λ v. ProveLeast self.now.family self.now.routes
            (map entry_as v.table.items) (map row_as v.proof.items)) }
    {
        fresh(self.alloc, &self.tree)
    }

    /// The least table of the routes alone, with the kept one as the old table.
    ///
    /// # Errors
    ///
    /// Out of memory.
    pub fn least_table(&self) -> Result<Vec<Entry>, AllocError>
        ensures { IfOk result (λ v. map entry_as v.items
            ≡ aggregate_in self.now.family self.now.routes self.now.entries) }
    {
        least_table(self.alloc, &self.tree)
    }

    /// Hands on the table's entries one by one, in the order of prefixes.
    ///
    /// # Errors
    ///
    /// Out of memory; then the first n entries were taken, for some n.
    pub fn emit_table<S: EntrySink>(&self, out: &mut S) -> Result<(), AllocError>
        requires { S.ready out.old }
        ensures ready { OnOk result (S.ready out.new) }
        ensures takes { OnOk result (S.takes out.old self.now.entries out.new) }
    {
        self.tree.emit_entries(out)
    }

    /// Hands on the entries of the least table of the routes, with the kept one as the old table, one by one.
    ///
    /// # Errors
    ///
    /// Out of memory; then the first n entries were taken, for some n.
    pub fn emit_least<S: EntrySink>(&self, out: &mut S) -> Result<(), AllocError>
        requires { S.ready out.old }
        ensures ready { OnOk result (S.ready out.new) }
        ensures takes { OnOk result (S.takes out.old
            (aggregate_in self.now.family self.now.routes self.now.entries) out.new) }
    {
        emit_least(&self.tree, out)
    }

    /// Hands on the rows that prove a table of the routes least, one by one.
    ///
    /// # Errors
    ///
    /// Out of memory; then the first n rows were taken, for some n.
    pub fn certify<S: RowSink>(&self, out: &mut S) -> Result<(), AllocError>
        requires { S.ready out.old }
        ensures ready { OnOk result (S.ready out.new) }
        ensures takes { OnOk result (S.takes out.old
            (family_rows self.now.family self.now.routes) out.new) }
    {
        certify(&self.tree, out)
    }

    /// The tree of the routes and the table's entries.
    pub fn tree(&self) -> &Tree
        ensures { result.now ≡ self.now }
    {
        &self.tree
    }
}
