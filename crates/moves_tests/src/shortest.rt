//! Shortest lists of changes with their rows, of whole trees and after an event. What is expected comes from another program,
//! written from the definitions, which finds it by counting the changes for every hop.

ghost use Rattle.std.specs.Prelude.{◌≡◌, IfOk};
ghost use Rattle.table_model.specs.declared.family.Family.TheVariants.{V4};

use crate::common::{Net, Step, Told, changes_of, entries_of, prefix, rows_of};
use fib_addr::{Family, Hop};
use fib_delta::Change;
use fib_moves::{near, near_at};
use moves_check::{MovesError, check_moves};
use orig_tree::Tree;
use std::alloc::{AllocError, Global};

/// Old entries and routes, the shortest changes, and the rows that prove it, the bound last.
struct Case<'a> {
    family: Family,
    entries: &'a [Net],
    routes: &'a [Net],
    changes: &'a [Told],
    rows: &'a [Step],
}

const CASES: [Case<'static>; 9] = [
    // the routes' 0.0.0.0/0 gets another hop: one change will do
    Case {
        family: Family::V4,
        entries: &[(0x00000000, 0, 1), (0x40000000, 2, 2), (0xc0000000, 2, 2)],
        routes: &[(0x00000000, 0, 3), (0x40000000, 2, 2), (0xc0000000, 2, 2)],
        changes: &[Told::Replace(0x00000000, 0, 3)],
        rows: &[
            Step::Leaf(0x00000000, 2, 3),
            Step::Leaf(0x40000000, 2, 2),
            Step::Join(0x00000000, 1, 0),
            Step::Leaf(0x80000000, 2, 3),
            Step::Leaf(0xc0000000, 2, 2),
            Step::Join(0x80000000, 1, 0),
            Step::Join(0x00000000, 0, 1),
            Step::Bound(1),
        ],
    },
    // 0.0.0.0/0 goes from the routes, and nothing changes
    Case {
        family: Family::V4,
        entries: &[(0x00000000, 0, 2)],
        routes: &[(0x00000000, 1, 2), (0x80000000, 1, 2)],
        changes: &[],
        rows: &[Step::Leaf(0x00000000, 0, 2), Step::Bound(0)],
    },
    // nothing on either side
    Case {
        family: Family::V4,
        entries: &[],
        routes: &[],
        changes: &[],
        rows: &[Step::Leaf(0x00000000, 0, 0), Step::Bound(0)],
    },
    // an entry without a hop stays, one too many goes
    Case {
        family: Family::V4,
        entries: &[(0x00000000, 0, 0), (0x80000000, 1, 1), (0x80000000, 2, 2)],
        routes: &[(0x80000000, 1, 1)],
        changes: &[Told::Remove(0x80000000, 2)],
        rows: &[
            Step::Leaf(0x00000000, 1, 0),
            Step::Leaf(0x80000000, 2, 1),
            Step::Leaf(0xc0000000, 2, 1),
            Step::Join(0x80000000, 1, 1),
            Step::Join(0x00000000, 0, 1),
            Step::Bound(1),
        ],
    },
    Case {
        family: Family::V4,
        entries: &[
            (0x00000000, 0, 3),
            (0x00000000, 2, 3),
            (0x00000000, 3, 2),
            (0x80000000, 1, 0),
            (0xc0000000, 2, 3),
            (0xc0000000, 3, 1),
        ],
        routes: &[(0x00000000, 0, 1), (0x00000000, 1, 1), (0x80000000, 1, 3)],
        changes: &[
            Told::Replace(0x00000000, 0, 1),
            Told::Remove(0x00000000, 2),
            Told::Remove(0x00000000, 3),
            Told::Replace(0x80000000, 1, 3),
            Told::Remove(0xc0000000, 3),
        ],
        rows: &[
            Step::Leaf(0x00000000, 3, 1),
            Step::Leaf(0x20000000, 3, 1),
            Step::Join(0x00000000, 2, 2),
            Step::Leaf(0x40000000, 2, 1),
            Step::Join(0x00000000, 1, 2),
            Step::Leaf(0x80000000, 2, 3),
            Step::Leaf(0xc0000000, 3, 3),
            Step::Leaf(0xe0000000, 3, 3),
            Step::Join(0xc0000000, 2, 1),
            Step::Join(0x80000000, 1, 2),
            Step::Join(0x00000000, 0, 5),
            Step::Bound(5),
        ],
    },
    Case {
        family: Family::V4,
        entries: &[(0x00000000, 0, 2), (0x00000000, 1, 1), (0x80000000, 2, 0)],
        routes: &[(0x00000000, 0, 3)],
        changes: &[
            Told::Replace(0x00000000, 0, 3),
            Told::Remove(0x00000000, 1),
            Told::Remove(0x80000000, 2),
        ],
        rows: &[
            Step::Leaf(0x00000000, 1, 3),
            Step::Leaf(0x80000000, 2, 3),
            Step::Leaf(0xc0000000, 2, 3),
            Step::Join(0x80000000, 1, 1),
            Step::Join(0x00000000, 0, 3),
            Step::Bound(3),
        ],
    },
    Case {
        family: Family::V4,
        entries: &[
            (0x00000000, 1, 0),
            (0x60000000, 3, 1),
            (0x80000000, 1, 2),
            (0x80000000, 2, 2),
        ],
        routes: &[
            (0x00000000, 1, 1),
            (0x40000000, 2, 3),
            (0x80000000, 1, 1),
            (0x80000000, 3, 3),
        ],
        changes: &[
            Told::Replace(0x00000000, 1, 1),
            Told::Add(0x40000000, 2, 3),
            Told::Remove(0x60000000, 3),
            Told::Replace(0x80000000, 1, 1),
            Told::Remove(0x80000000, 2),
            Told::Add(0x80000000, 3, 3),
        ],
        rows: &[
            Step::Leaf(0x00000000, 2, 1),
            Step::Leaf(0x40000000, 3, 3),
            Step::Leaf(0x60000000, 3, 3),
            Step::Join(0x40000000, 2, 1),
            Step::Join(0x00000000, 1, 3),
            Step::Leaf(0x80000000, 3, 3),
            Step::Leaf(0xa0000000, 3, 1),
            Step::Join(0x80000000, 2, 2),
            Step::Leaf(0xc0000000, 2, 1),
            Step::Join(0x80000000, 1, 3),
            Step::Join(0x00000000, 0, 6),
            Step::Bound(6),
        ],
    },
    Case {
        family: Family::V6,
        entries: &[
            (0x00000000, 0, 0),
            (0x00000000, 1, 1),
            (0x40000000, 2, 2),
            (0x80000000, 2, 2),
        ],
        routes: &[(0x00000000, 3, 1)],
        changes: &[
            Told::Add(0x20000000, 3, 0),
            Told::Replace(0x40000000, 2, 0),
            Told::Remove(0x80000000, 2),
        ],
        rows: &[
            Step::Leaf(0x00000000, 3, 1),
            Step::Leaf(0x20000000, 3, 0),
            Step::Join(0x00000000, 2, 1),
            Step::Leaf(0x40000000, 2, 0),
            Step::Join(0x00000000, 1, 2),
            Step::Leaf(0x80000000, 2, 0),
            Step::Leaf(0xc0000000, 2, 0),
            Step::Join(0x80000000, 1, 1),
            Step::Join(0x00000000, 0, 3),
            Step::Bound(3),
        ],
    },
    // a single address
    Case {
        family: Family::V4,
        entries: &[(0x00000000, 0, 2), (0x80000000, 1, 3), (0xb38f0f82, 32, 1)],
        routes: &[(0x00000000, 0, 3), (0xb38f0f82, 31, 1)],
        changes: &[
            Told::Replace(0x00000000, 0, 3),
            Told::Add(0xb38f0f82, 31, 1),
        ],
        rows: &[
            Step::Leaf(0x00000000, 1, 3),
            Step::Leaf(0x80000000, 3, 3),
            Step::Leaf(0xa0000000, 4, 3),
            Step::Leaf(0xb0000000, 7, 3),
            Step::Leaf(0xb2000000, 8, 3),
            Step::Leaf(0xb3000000, 9, 3),
            Step::Leaf(0xb3800000, 13, 3),
            Step::Leaf(0xb3880000, 14, 3),
            Step::Leaf(0xb38c0000, 15, 3),
            Step::Leaf(0xb38e0000, 16, 3),
            Step::Leaf(0xb38f0000, 21, 3),
            Step::Leaf(0xb38f0800, 22, 3),
            Step::Leaf(0xb38f0c00, 23, 3),
            Step::Leaf(0xb38f0e00, 24, 3),
            Step::Leaf(0xb38f0f00, 25, 3),
            Step::Leaf(0xb38f0f80, 31, 3),
            Step::Leaf(0xb38f0f82, 32, 1),
            Step::Leaf(0xb38f0f83, 32, 1),
            Step::Join(0xb38f0f82, 31, 0),
            Step::Join(0xb38f0f80, 30, 1),
            Step::Leaf(0xb38f0f84, 30, 3),
            Step::Join(0xb38f0f80, 29, 1),
            Step::Leaf(0xb38f0f88, 29, 3),
            Step::Join(0xb38f0f80, 28, 1),
            Step::Leaf(0xb38f0f90, 28, 3),
            Step::Join(0xb38f0f80, 27, 1),
            Step::Leaf(0xb38f0fa0, 27, 3),
            Step::Join(0xb38f0f80, 26, 1),
            Step::Leaf(0xb38f0fc0, 26, 3),
            Step::Join(0xb38f0f80, 25, 1),
            Step::Join(0xb38f0f00, 24, 1),
            Step::Join(0xb38f0e00, 23, 1),
            Step::Join(0xb38f0c00, 22, 1),
            Step::Join(0xb38f0800, 21, 1),
            Step::Join(0xb38f0000, 20, 1),
            Step::Leaf(0xb38f1000, 20, 3),
            Step::Join(0xb38f0000, 19, 1),
            Step::Leaf(0xb38f2000, 19, 3),
            Step::Join(0xb38f0000, 18, 1),
            Step::Leaf(0xb38f4000, 18, 3),
            Step::Join(0xb38f0000, 17, 1),
            Step::Leaf(0xb38f8000, 17, 3),
            Step::Join(0xb38f0000, 16, 1),
            Step::Join(0xb38e0000, 15, 1),
            Step::Join(0xb38c0000, 14, 1),
            Step::Join(0xb3880000, 13, 1),
            Step::Join(0xb3800000, 12, 1),
            Step::Leaf(0xb3900000, 12, 3),
            Step::Join(0xb3800000, 11, 1),
            Step::Leaf(0xb3a00000, 11, 3),
            Step::Join(0xb3800000, 10, 1),
            Step::Leaf(0xb3c00000, 10, 3),
            Step::Join(0xb3800000, 9, 1),
            Step::Join(0xb3000000, 8, 1),
            Step::Join(0xb2000000, 7, 1),
            Step::Join(0xb0000000, 6, 1),
            Step::Leaf(0xb4000000, 6, 3),
            Step::Join(0xb0000000, 5, 1),
            Step::Leaf(0xb8000000, 5, 3),
            Step::Join(0xb0000000, 4, 1),
            Step::Join(0xa0000000, 3, 1),
            Step::Join(0x80000000, 2, 1),
            Step::Leaf(0xc0000000, 2, 3),
            Step::Join(0x80000000, 1, 1),
            Step::Join(0x00000000, 0, 2),
            Step::Bound(2),
        ],
    },
];

fn tree_of(alloc: Global, case: &Case<'_>) -> Result<Tree, AllocError>
    ensures { IfOk result (λ t. t.family ≡ case.now.family) }
{
    let mut tree = Tree::new(alloc, case.family);
    for (bits, len, hop) in case.routes {
        tree.set_route(&prefix(case.family, *bits, *len), Hop(*hop))?;
    }
    for (bits, len, hop) in case.entries {
        tree.set_entry(&prefix(case.family, *bits, *len), Hop(*hop))?;
    }
    Ok(tree)
}

#[test]
fn shortest_changes_stand(rt: HostRuntime) -> Result<(), AllocError> {
    for case in &CASES {
        let tree = tree_of(rt.alloc(), case)?;
        let told = near(rt.alloc(), &tree)?;
        let changes = changes_of(rt.alloc(), case.family, case.changes)?;
        let rows = rows_of(rt.alloc(), case.family, case.rows)?;
        assert_eq!(rt; told.changes.as_slice(), changes.as_slice());
        assert_eq!(rt; told.bound, changes.len() as u64);
        assert_eq!(rt; told.rows.as_slice(), rows.as_slice());
    }
    Ok(())
}

#[test]
fn their_rows_prove_them(rt: HostRuntime) -> Result<(), MovesError> {
    for case in &CASES {
        let old = entries_of(rt.alloc(), case.family, case.entries)?;
        let routes = entries_of(rt.alloc(), case.family, case.routes)?;
        let changes = changes_of(rt.alloc(), case.family, case.changes)?;
        let rows = rows_of(rt.alloc(), case.family, case.rows)?;
        check_moves(rt.alloc(), case.family, &old, &routes, &changes, &rows)?;
    }
    Ok(())
}

#[test]
fn a_first_route_adds_its_entry(rt: HostRuntime) -> Result<(), AllocError> {
    let mut tree = Tree::new(rt.alloc(), Family::V4);
    let upper = prefix(Family::V4, 0x8000_0000, 1);
    tree.set_route(&upper, Hop(1))?;
    let changes = near_at(rt.alloc(), &tree, &upper)?;
    assert_eq!(rt; changes.as_slice(), [Change::Add(upper, Hop(1))].as_slice());
    Ok(())
}
