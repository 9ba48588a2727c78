//! One family's table and routes.

ghost use Rattle.std.specs.Prelude.{◌≡◌, IfOk, length, map};
ghost use Rattle.std.specs.List.Sorted.{IsStrictlySortedBy};
ghost use Rattle.table_model.specs.Order.{prefix_cmp};
ghost use Rattle.kept_model.specs.Between.{place_of};
ghost use Rattle.fib_addr.specs.Views.{entry_as};
ghost use Rattle.fib_delta.specs.Views.{change_as};
ghost use Rattle.cert_model.specs.Views.{row_as};
ghost use Rattle.moves_model.specs.Both.{family_changes, proving_rows, told_in};
ghost use Rattle.router_moves.specs.Views.{IsShortest};

use crate::asked::Asked;
use fib_addr::Family;
use fib_delta::{Change, put_in_steady_order};
use fib_moves::{Near, near};
use orig_tree::Tree;
use std::alloc::{AllocError, Global};

/// Leaves changes in the order of prefixes, or puts them in steady order.
fn put_in_order(changes: &mut [Change], steady: bool)
    ensures same { length changes.new ≡ length changes.old }
    ensures told { IsStrictlySortedBy prefix_cmp (map place_of (map change_as changes.old))
        → map change_as changes.new ≡ told_in steady (map change_as changes.old) }
{
    if steady {
        put_in_steady_order(changes);
    }
}

/// The shortest list of changes that makes a table of the family answer as its routes do, in the order of prefixes or in steady order. It
/// costs n log n in both.
pub(crate) fn family_moves(
    alloc: Global,
    family: Family,
    asked: &Asked,
    steady: bool,
) -> Result<Near, AllocError>
    ensures changes { IfOk result (λ n. map change_as n.changes.items ≡ told_in steady (family_changes
        family (map entry_as asked.now.routes.items) (map entry_as asked.now.table.items))) }
    ensures rows { IfOk result (λ n. map row_as n.rows.items ≡ proving_rows family
        (map entry_as asked.now.routes.items) (map entry_as asked.now.table.items)) }
    ensures shortest { IfOk result (IsShortest family (map entry_as asked.now.routes.items)
        (map entry_as asked.now.table.items)) }
{
    let tree = Tree::load(alloc, family, &asked.routes)?;
    let tree = tree.insert_entries(&asked.table)?;
    let mut moves = near(alloc, &tree)?;
    put_in_order(&mut moves.changes, steady);
    Ok(moves)
}
