//! The changes of repairs and snapshots, found before they are made.

ghost use Rattle.std.specs.Prelude.{◌≡◌, [], false, Some, IfOk, cond, map, option_map};
ghost use Rattle.std.specs.Option.{ForSome};
ghost use Rattle.table_model.specs.Width.{width};
ghost use Rattle.table_model.specs.Entries.{of_family};
ghost use Rattle.kept_model.specs.Between.{AreEntries, between};
ghost use Rattle.kept_model.specs.Patched.{patch_of};
ghost use Rattle.moves_model.specs.Rows.{near_in};
ghost use Rattle.fib_moves.specs.Event.{AlikeBefore};
ghost use Rattle.fib_addr.specs.Views.{prefix_as, entry_as};
ghost use Rattle.fib_delta.specs.Views.{change_as};
ghost use Rattle.smalta_keep.specs.KnownBelow.{IsKnownBefore};
ghost use Rattle.smalta_keep.specs.Known.{IsKnownToMend};
ghost use Rattle.smalta_keep.specs.Plans.{IsMend, IsBeforeAt, repaired_table};

use crate::back::taken_back_if;
use crate::differing_within;
use crate::reach::reach_of;
use fib_addr::{Entry, Prefix};
use fib_delta::{Change, between};
use fib_moves::near_after;
use orig_tree::Tree;
use std::alloc::{AllocError, Global};

/// The changes of a repair, and those that take them back.
#[derive(Debug, Drop)]
pub struct Mend {
    /// The changes.
    pub there: Vec<Change>,
    /// Those that take them back, if they were asked for.
    pub back: Vec<Change>,
    /// The prefix that all of them are within, if there is one.
    pub reach: Option<Prefix>,
}

/// The changes between two tables, if they are asked for.
fn between_if(
    alloc: Global,
    asked: bool,
    old: &[Entry],
    new: &[Entry],
) -> Result<Vec<Change>, AllocError>
    requires old { AreEntries (map entry_as old.now) }
    requires new { AreEntries (map entry_as new.now) }
    ensures { IfOk result (λ v. map change_as v.items
        ≡ cond asked (between (map entry_as old.now) (map entry_as new.now)) []) }
{
    if asked {
        between(alloc, old, new)
    } else {
        Ok(Vec::new(alloc))
    }
}

/// The changes of a repair within a prefix, and back. It goes over the regions there that may change (delta_pass).
fn mend_within(
    alloc: Global,
    tree: &Tree,
    dirty: &Option<Tree>,
    prefix: &Prefix,
    back: bool,
) -> Result<Mend, AllocError>
    requires family { prefix.now.family ≡ tree.now.family }
    requires known { IsKnownBefore (prefix_as prefix.now) tree.now dirty.now }
    ensures mend { IfOk result (IsMend tree.now.family back tree.now.entries
        (patch_of tree.now.routes (prefix_as prefix.now) tree.now.entries)) }
    ensures reach { IfOk result (λ m. m.reach ≡ Some prefix.now) }
{
    // the entries are of the family
    let _root = tree.root();
    let tables = differing_within(alloc, tree, dirty, prefix)?;
    Ok(Mend {
        there: between(alloc, &tables.had, &tables.gets)?,
        back: between_if(alloc, back, &tables.gets, &tables.had)?,
        reach: Some(*prefix),
    })
}

/// The shortest list of changes after the route at a prefix changed, and back.
fn mend_near(alloc: Global, tree: &Tree, prefix: &Prefix, back: bool) -> Result<Mend, AllocError>
    requires family { prefix.now.family ≡ tree.now.family }
    requires before { AlikeBefore (width tree.now.family) (prefix_as prefix.now).bits
        (of_family tree.now.family tree.now.routes) (of_family tree.now.family tree.now.entries) }
    ensures { IfOk result (IsMend tree.now.family back tree.now.entries
        (near_in tree.now.family tree.now.routes tree.now.entries)) }
{
    // the entries stand in order, and are of the family
    let _family = tree.family();
    let _root = tree.root();
    let there = near_after(alloc, tree, prefix)?;
    let back = taken_back_if(alloc, back, tree, &there)?;
    let reach = Some(reach_of(prefix, &there));
    Ok(Mend { there, back, reach })
}

/// The changes of a repair at a prefix, if there is one, and back, if these are asked for: within the prefix, or as few as can be.
pub fn mend_at(
    alloc: Global,
    tree: &Tree,
    dirty: &Option<Tree>,
    at: Option<Prefix>,
    fewest: bool,
    back: bool,
) -> Result<Mend, AllocError>
    requires family { ForSome at (λ p. p.family ≡ tree.now.family) }
    requires before { IsBeforeAt fewest (option_map prefix_as at) tree.now }
    requires known { IsKnownToMend fewest (option_map prefix_as at) tree.now dirty.now }
    ensures mend { IfOk result (IsMend tree.now.family back tree.now.entries
        (repaired_table fewest tree.now (option_map prefix_as at))) }
    ensures reach { IfOk result (λ m. fewest ≡ false → m.reach ≡ at) }
{
    // the entries stand in order
    let _family = tree.family();
    match at {
        Some(prefix) => {
            if fewest {
                mend_near(alloc, tree, &prefix, back)
            } else {
                mend_within(alloc, tree, dirty, &prefix, back)
            }
        }
        None => Ok(Mend {
            there: Vec::new(alloc),
            back: Vec::new(alloc),
            reach: None,
        }),
    }
}
