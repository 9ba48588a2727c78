//! What is said of changes and rows, right ones and wrong ones. What is expected comes from another program, written from the
//! definitions.

use crate::common::{Net, Step, Told, changes_of, entries_of, prefix, rows_of};
use fib_addr::{Addr, Family, Hop};
use moves_check::{MovesError, NoMoves, check_moves};
use std::alloc::{AllocError, Global};

/// What is said.
#[derive(Clone, Copy)]
enum Said {
    Yes,
    Twice(u32, u8),
    Apply(u64),
    NotSame(u32, u16, u16),
    Shape(u64),
    LeafWrong(u64),
    JoinWrong(u64, u64, u64),
    NotShortest(u64, u64),
}

/// Old entries and routes, changes and rows, and what is said of them.
struct Check<'a> {
    old: &'a [Net],
    routes: &'a [Net],
    changes: &'a [Told],
    rows: &'a [Step],
    said: Said,
}

/// If the rows are right, or aren't reached.
const TABLES: [Check<'static>; 11] = [
    // right
    Check {
        old: &[(0x00000000, 0, 1), (0x40000000, 2, 2), (0xc0000000, 2, 2)],
        routes: &[(0x00000000, 0, 3), (0x40000000, 2, 2), (0xc0000000, 2, 2)],
        changes: &[Told::Replace(0x00000000, 0, 3)],
        rows: &[
            Step::Leaf(0x00000000, 2, 3),
            Step::Leaf(0x40000000, 2, 2),
            Step::Join(0x00000000, 1, 0),
            Step::Leaf(0x80000000, 2, 3),
            Step::Leaf(0xc0000000, 2, 2),
            Step::Join(0x80000000, 1, 0),
            Step::Join(0x00000000, 0, 1),
            Step::Bound(1),
        ],
        said: Said::Yes,
    },
    // the patch: right, and four changes too many
    Check {
        old: &[(0x00000000, 0, 1), (0x40000000, 2, 2), (0xc0000000, 2, 2)],
        routes: &[(0x00000000, 0, 3), (0x40000000, 2, 2), (0xc0000000, 2, 2)],
        changes: &[
            Told::Replace(0x00000000, 0, 2),
            Told::Add(0x00000000, 2, 3),
            Told::Remove(0x40000000, 2),
            Told::Add(0x80000000, 2, 3),
            Told::Remove(0xc0000000, 2),
        ],
        rows: &[
            Step::Leaf(0x00000000, 2, 3),
            Step::Leaf(0x40000000, 2, 2),
            Step::Join(0x00000000, 1, 0),
            Step::Leaf(0x80000000, 2, 3),
            Step::Leaf(0xc0000000, 2, 2),
            Step::Join(0x80000000, 1, 0),
            Step::Join(0x00000000, 0, 1),
            Step::Bound(1),
        ],
        said: Said::NotShortest(5, 1),
    },
    // a change that is taken back
    Check {
        old: &[(0x00000000, 0, 1), (0x40000000, 2, 2), (0xc0000000, 2, 2)],
        routes: &[(0x00000000, 0, 3), (0x40000000, 2, 2), (0xc0000000, 2, 2)],
        changes: &[
            Told::Replace(0x00000000, 0, 3),
            Told::Add(0x00000000, 2, 3),
            Told::Remove(0x00000000, 2),
        ],
        rows: &[
            Step::Leaf(0x00000000, 2, 3),
            Step::Leaf(0x40000000, 2, 2),
            Step::Join(0x00000000, 1, 0),
            Step::Leaf(0x80000000, 2, 3),
            Step::Leaf(0xc0000000, 2, 2),
            Step::Join(0x80000000, 1, 0),
            Step::Join(0x00000000, 0, 1),
            Step::Bound(1),
        ],
        said: Said::NotShortest(3, 1),
    },
    // a prefix twice in the old table
    Check {
        old: &[
            (0x00000000, 0, 1),
            (0x40000000, 2, 2),
            (0xc0000000, 2, 2),
            (0x40000000, 2, 2),
        ],
        routes: &[(0x00000000, 0, 3), (0x40000000, 2, 2), (0xc0000000, 2, 2)],
        changes: &[Told::Replace(0x00000000, 0, 3)],
        rows: &[
            Step::Leaf(0x00000000, 2, 3),
            Step::Leaf(0x40000000, 2, 2),
            Step::Join(0x00000000, 1, 0),
            Step::Leaf(0x80000000, 2, 3),
            Step::Leaf(0xc0000000, 2, 2),
            Step::Join(0x80000000, 1, 0),
            Step::Join(0x00000000, 0, 1),
            Step::Bound(1),
        ],
        said: Said::Twice(0x40000000, 2),
    },
    // a prefix twice in the routes
    Check {
        old: &[(0x00000000, 0, 1), (0x40000000, 2, 2), (0xc0000000, 2, 2)],
        routes: &[
            (0x00000000, 0, 3),
            (0x40000000, 2, 2),
            (0xc0000000, 2, 2),
            (0xc0000000, 2, 2),
        ],
        changes: &[Told::Replace(0x00000000, 0, 3)],
        rows: &[
            Step::Leaf(0x00000000, 2, 3),
            Step::Leaf(0x40000000, 2, 2),
            Step::Join(0x00000000, 1, 0),
            Step::Leaf(0x80000000, 2, 3),
            Step::Leaf(0xc0000000, 2, 2),
            Step::Join(0x80000000, 1, 0),
            Step::Join(0x00000000, 0, 1),
            Step::Bound(1),
        ],
        said: Said::Twice(0xc0000000, 2),
    },
    // in both: the old table's first
    Check {
        old: &[
            (0x00000000, 0, 1),
            (0x40000000, 2, 2),
            (0xc0000000, 2, 2),
            (0x00000000, 0, 2),
        ],
        routes: &[
            (0x00000000, 0, 3),
            (0x40000000, 2, 2),
            (0xc0000000, 2, 2),
            (0x40000000, 2, 2),
        ],
        changes: &[Told::Replace(0x00000000, 0, 3)],
        rows: &[
            Step::Leaf(0x00000000, 2, 3),
            Step::Leaf(0x40000000, 2, 2),
            Step::Join(0x00000000, 1, 0),
            Step::Leaf(0x80000000, 2, 3),
            Step::Leaf(0xc0000000, 2, 2),
            Step::Join(0x80000000, 1, 0),
            Step::Join(0x00000000, 0, 1),
            Step::Bound(1),
        ],
        said: Said::Twice(0x00000000, 0),
    },
    // what stands is added
    Check {
        old: &[(0x00000000, 0, 1), (0x40000000, 2, 2), (0xc0000000, 2, 2)],
        routes: &[(0x00000000, 0, 3), (0x40000000, 2, 2), (0xc0000000, 2, 2)],
        changes: &[Told::Add(0x00000000, 0, 3)],
        rows: &[
            Step::Leaf(0x00000000, 2, 3),
            Step::Leaf(0x40000000, 2, 2),
            Step::Join(0x00000000, 1, 0),
            Step::Leaf(0x80000000, 2, 3),
            Step::Leaf(0xc0000000, 2, 2),
            Step::Join(0x80000000, 1, 0),
            Step::Join(0x00000000, 0, 1),
            Step::Bound(1),
        ],
        said: Said::Apply(1),
    },
    // what doesn't stand is removed
    Check {
        old: &[(0x00000000, 0, 1), (0x40000000, 2, 2), (0xc0000000, 2, 2)],
        routes: &[(0x00000000, 0, 3), (0x40000000, 2, 2), (0xc0000000, 2, 2)],
        changes: &[Told::Replace(0x00000000, 0, 3), Told::Remove(0x80000000, 1)],
        rows: &[
            Step::Leaf(0x00000000, 2, 3),
            Step::Leaf(0x40000000, 2, 2),
            Step::Join(0x00000000, 1, 0),
            Step::Leaf(0x80000000, 2, 3),
            Step::Leaf(0xc0000000, 2, 2),
            Step::Join(0x80000000, 1, 0),
            Step::Join(0x00000000, 0, 1),
            Step::Bound(1),
        ],
        said: Said::Apply(2),
    },
    // what doesn't stand is replaced
    Check {
        old: &[(0x00000000, 0, 1), (0x40000000, 2, 2), (0xc0000000, 2, 2)],
        routes: &[(0x00000000, 0, 3), (0x40000000, 2, 2), (0xc0000000, 2, 2)],
        changes: &[
            Told::Replace(0x00000000, 0, 3),
            Told::Replace(0x80000000, 1, 3),
        ],
        rows: &[
            Step::Leaf(0x00000000, 2, 3),
            Step::Leaf(0x40000000, 2, 2),
            Step::Join(0x00000000, 1, 0),
            Step::Leaf(0x80000000, 2, 3),
            Step::Leaf(0xc0000000, 2, 2),
            Step::Join(0x80000000, 1, 0),
            Step::Join(0x00000000, 0, 1),
            Step::Bound(1),
        ],
        said: Said::Apply(2),
    },
    // a change that isn't possible comes before a wrong row
    Check {
        old: &[(0x00000000, 0, 1), (0x40000000, 2, 2), (0xc0000000, 2, 2)],
        routes: &[(0x00000000, 0, 3), (0x40000000, 2, 2), (0xc0000000, 2, 2)],
        changes: &[Told::Replace(0x00000000, 0, 3), Told::Remove(0x80000000, 1)],
        rows: &[
            Step::Leaf(0x00000000, 2, 3),
            Step::Leaf(0x40000000, 2, 2),
            Step::Join(0x00000000, 1, 0),
            Step::Leaf(0x80000000, 2, 3),
            Step::Leaf(0xc0000000, 2, 2),
            Step::Join(0x80000000, 1, 0),
            Step::Join(0x00000000, 0, 1),
        ],
        said: Said::Apply(2),
    },
    // no change: the least address that is answered otherwise
    Check {
        old: &[(0x00000000, 0, 1), (0x40000000, 2, 2), (0xc0000000, 2, 2)],
        routes: &[(0x00000000, 0, 3), (0x40000000, 2, 2), (0xc0000000, 2, 2)],
        changes: &[],
        rows: &[
            Step::Leaf(0x00000000, 2, 3),
            Step::Leaf(0x40000000, 2, 2),
            Step::Join(0x00000000, 1, 0),
            Step::Leaf(0x80000000, 2, 3),
            Step::Leaf(0xc0000000, 2, 2),
            Step::Join(0x80000000, 1, 0),
            Step::Join(0x00000000, 0, 1),
            Step::Bound(1),
        ],
        said: Said::NotSame(0x00000000, 3, 1),
    },
];

/// If a row is wrong.
const ROWS: [Check<'static>; 10] = [
    // another hop in the last quarter
    Check {
        old: &[(0x00000000, 0, 1), (0x40000000, 2, 2), (0xc0000000, 2, 2)],
        routes: &[(0x00000000, 0, 3), (0x40000000, 2, 2), (0xc0000000, 2, 2)],
        changes: &[
            Told::Replace(0x00000000, 0, 3),
            Told::Replace(0xc0000000, 2, 1),
        ],
        rows: &[
            Step::Leaf(0x00000000, 2, 3),
            Step::Leaf(0x40000000, 2, 2),
            Step::Join(0x00000000, 1, 0),
            Step::Leaf(0x80000000, 2, 3),
            Step::Leaf(0xc0000000, 2, 2),
            Step::Join(0x80000000, 1, 0),
            Step::Join(0x00000000, 0, 1),
            Step::Bound(1),
        ],
        said: Said::NotSame(0xc0000000, 2, 1),
    },
    // no bound
    Check {
        old: &[(0x00000000, 0, 1), (0x40000000, 2, 2), (0xc0000000, 2, 2)],
        routes: &[(0x00000000, 0, 3), (0x40000000, 2, 2), (0xc0000000, 2, 2)],
        changes: &[Told::Replace(0x00000000, 0, 3)],
        rows: &[
            Step::Leaf(0x00000000, 2, 3),
            Step::Leaf(0x40000000, 2, 2),
            Step::Join(0x00000000, 1, 0),
            Step::Leaf(0x80000000, 2, 3),
            Step::Leaf(0xc0000000, 2, 2),
            Step::Join(0x80000000, 1, 0),
            Step::Join(0x00000000, 0, 1),
        ],
        said: Said::Shape(8),
    },
    // no rows
    Check {
        old: &[(0x00000000, 0, 1), (0x40000000, 2, 2), (0xc0000000, 2, 2)],
        routes: &[(0x00000000, 0, 3), (0x40000000, 2, 2), (0xc0000000, 2, 2)],
        changes: &[Told::Replace(0x00000000, 0, 3)],
        rows: &[],
        said: Said::Shape(1),
    },
    // a row after the bound
    Check {
        old: &[(0x00000000, 0, 1), (0x40000000, 2, 2), (0xc0000000, 2, 2)],
        routes: &[(0x00000000, 0, 3), (0x40000000, 2, 2), (0xc0000000, 2, 2)],
        changes: &[Told::Replace(0x00000000, 0, 3)],
        rows: &[
            Step::Leaf(0x00000000, 2, 3),
            Step::Leaf(0x40000000, 2, 2),
            Step::Join(0x00000000, 1, 0),
            Step::Leaf(0x80000000, 2, 3),
            Step::Leaf(0xc0000000, 2, 2),
            Step::Join(0x80000000, 1, 0),
            Step::Join(0x00000000, 0, 1),
            Step::Bound(1),
            Step::Leaf(0x00000000, 2, 3),
        ],
        said: Said::Shape(9),
    },
    // a leaf too many
    Check {
        old: &[(0x00000000, 0, 1), (0x40000000, 2, 2), (0xc0000000, 2, 2)],
        routes: &[(0x00000000, 0, 3), (0x40000000, 2, 2), (0xc0000000, 2, 2)],
        changes: &[Told::Replace(0x00000000, 0, 3)],
        rows: &[
            Step::Leaf(0x00000000, 2, 3),
            Step::Leaf(0x00000000, 2, 3),
            Step::Leaf(0x40000000, 2, 2),
            Step::Join(0x00000000, 1, 0),
            Step::Leaf(0x80000000, 2, 3),
            Step::Leaf(0xc0000000, 2, 2),
            Step::Join(0x80000000, 1, 0),
            Step::Join(0x00000000, 0, 1),
            Step::Bound(1),
        ],
        said: Said::Shape(9),
    },
    // a join of other halves
    Check {
        old: &[(0x00000000, 0, 1), (0x40000000, 2, 2), (0xc0000000, 2, 2)],
        routes: &[(0x00000000, 0, 3), (0x40000000, 2, 2), (0xc0000000, 2, 2)],
        changes: &[Told::Replace(0x00000000, 0, 3)],
        rows: &[
            Step::Leaf(0x00000000, 2, 3),
            Step::Leaf(0x40000000, 2, 2),
            Step::Join(0x80000000, 1, 0),
            Step::Leaf(0x80000000, 2, 3),
            Step::Leaf(0xc0000000, 2, 2),
            Step::Join(0x80000000, 1, 0),
            Step::Join(0x00000000, 0, 1),
            Step::Bound(1),
        ],
        said: Said::Shape(3),
    },
    // a half is missing
    Check {
        old: &[(0x00000000, 0, 1), (0x40000000, 2, 2), (0xc0000000, 2, 2)],
        routes: &[(0x00000000, 0, 3), (0x40000000, 2, 2), (0xc0000000, 2, 2)],
        changes: &[Told::Replace(0x00000000, 0, 3)],
        rows: &[
            Step::Leaf(0x00000000, 2, 3),
            Step::Join(0x00000000, 1, 0),
            Step::Leaf(0x80000000, 2, 3),
            Step::Leaf(0xc0000000, 2, 2),
            Step::Join(0x80000000, 1, 0),
            Step::Join(0x00000000, 0, 1),
            Step::Bound(1),
        ],
        said: Said::Shape(2),
    },
    // the bound of two regions
    Check {
        old: &[(0x00000000, 0, 1), (0x40000000, 2, 2), (0xc0000000, 2, 2)],
        routes: &[(0x00000000, 0, 3), (0x40000000, 2, 2), (0xc0000000, 2, 2)],
        changes: &[Told::Replace(0x00000000, 0, 3)],
        rows: &[
            Step::Leaf(0x00000000, 2, 3),
            Step::Leaf(0x40000000, 2, 2),
            Step::Join(0x00000000, 1, 0),
            Step::Leaf(0x80000000, 2, 3),
            Step::Leaf(0xc0000000, 2, 2),
            Step::Join(0x80000000, 1, 0),
            Step::Bound(1),
        ],
        said: Said::Shape(7),
    },
    // a leaf with two answers
    Check {
        old: &[(0x00000000, 0, 1), (0x40000000, 2, 2), (0xc0000000, 2, 2)],
        routes: &[(0x00000000, 0, 3), (0x40000000, 2, 2), (0xc0000000, 2, 2)],
        changes: &[Told::Replace(0x00000000, 0, 3)],
        rows: &[
            Step::Leaf(0x00000000, 1, 3),
            Step::Leaf(0x80000000, 2, 3),
            Step::Leaf(0xc0000000, 2, 2),
            Step::Join(0x80000000, 1, 0),
            Step::Join(0x00000000, 0, 1),
            Step::Bound(1),
        ],
        said: Said::LeafWrong(1),
    },
    // a leaf with another hop
    Check {
        old: &[(0x00000000, 0, 1), (0x40000000, 2, 2), (0xc0000000, 2, 2)],
        routes: &[(0x00000000, 0, 3), (0x40000000, 2, 2), (0xc0000000, 2, 2)],
        changes: &[Told::Replace(0x00000000, 0, 3)],
        rows: &[
            Step::Leaf(0x00000000, 2, 1),
            Step::Leaf(0x40000000, 2, 2),
            Step::Join(0x00000000, 1, 0),
            Step::Leaf(0x80000000, 2, 3),
            Step::Leaf(0xc0000000, 2, 2),
            Step::Join(0x80000000, 1, 0),
            Step::Join(0x00000000, 0, 1),
            Step::Bound(1),
        ],
        said: Said::LeafWrong(1),
    },
];

/// If a number is wrong, or an old entry stands within a leaf.
const NUMBERS: [Check<'static>; 8] = [
    // right
    Check {
        old: &[(0x00000000, 0, 2), (0x00000000, 1, 2), (0x00000000, 2, 2)],
        routes: &[(0x00000000, 0, 2)],
        changes: &[],
        rows: &[
            Step::Leaf(0x00000000, 2, 2),
            Step::Leaf(0x40000000, 2, 2),
            Step::Join(0x00000000, 1, 0),
            Step::Leaf(0x80000000, 1, 2),
            Step::Join(0x00000000, 0, 0),
            Step::Bound(0),
        ],
        said: Said::Yes,
    },
    // an old entry stands strictly within a leaf
    Check {
        old: &[(0x00000000, 0, 2), (0x00000000, 1, 2), (0x00000000, 2, 2)],
        routes: &[(0x00000000, 0, 2)],
        changes: &[],
        rows: &[
            Step::Leaf(0x00000000, 1, 2),
            Step::Leaf(0x80000000, 1, 2),
            Step::Join(0x00000000, 0, 0),
            Step::Bound(0),
        ],
        said: Said::LeafWrong(1),
    },
    // another k
    Check {
        old: &[(0x00000000, 0, 1), (0x40000000, 2, 2), (0xc0000000, 2, 2)],
        routes: &[(0x00000000, 0, 3), (0x40000000, 2, 2), (0xc0000000, 2, 2)],
        changes: &[Told::Replace(0x00000000, 0, 3)],
        rows: &[
            Step::Leaf(0x00000000, 2, 3),
            Step::Leaf(0x40000000, 2, 2),
            Step::Join(0x00000000, 1, 1),
            Step::Leaf(0x80000000, 2, 3),
            Step::Leaf(0xc0000000, 2, 2),
            Step::Join(0x80000000, 1, 0),
            Step::Join(0x00000000, 0, 1),
            Step::Bound(1),
        ],
        said: Said::JoinWrong(3, 1, 0),
    },
    // the entry of the region itself isn't counted
    Check {
        old: &[(0x00000000, 0, 1), (0x40000000, 2, 2), (0xc0000000, 2, 2)],
        routes: &[(0x00000000, 0, 3), (0x40000000, 2, 2), (0xc0000000, 2, 2)],
        changes: &[Told::Replace(0x00000000, 0, 3)],
        rows: &[
            Step::Leaf(0x00000000, 2, 3),
            Step::Leaf(0x40000000, 2, 2),
            Step::Join(0x00000000, 1, 0),
            Step::Leaf(0x80000000, 2, 3),
            Step::Leaf(0xc0000000, 2, 2),
            Step::Join(0x80000000, 1, 0),
            Step::Join(0x00000000, 0, 0),
            Step::Bound(1),
        ],
        said: Said::JoinWrong(7, 0, 1),
    },
    // another bound
    Check {
        old: &[(0x00000000, 0, 1), (0x40000000, 2, 2), (0xc0000000, 2, 2)],
        routes: &[(0x00000000, 0, 3), (0x40000000, 2, 2), (0xc0000000, 2, 2)],
        changes: &[Told::Replace(0x00000000, 0, 3)],
        rows: &[
            Step::Leaf(0x00000000, 2, 3),
            Step::Leaf(0x40000000, 2, 2),
            Step::Join(0x00000000, 1, 0),
            Step::Leaf(0x80000000, 2, 3),
            Step::Leaf(0xc0000000, 2, 2),
            Step::Join(0x80000000, 1, 0),
            Step::Join(0x00000000, 0, 1),
            Step::Bound(0),
        ],
        said: Said::JoinWrong(8, 0, 1),
    },
    // a bound for five changes
    Check {
        old: &[(0x00000000, 0, 1), (0x40000000, 2, 2), (0xc0000000, 2, 2)],
        routes: &[(0x00000000, 0, 3), (0x40000000, 2, 2), (0xc0000000, 2, 2)],
        changes: &[Told::Replace(0x00000000, 0, 3)],
        rows: &[
            Step::Leaf(0x00000000, 2, 3),
            Step::Leaf(0x40000000, 2, 2),
            Step::Join(0x00000000, 1, 0),
            Step::Leaf(0x80000000, 2, 3),
            Step::Leaf(0xc0000000, 2, 2),
            Step::Join(0x80000000, 1, 0),
            Step::Join(0x00000000, 0, 1),
            Step::Bound(5),
        ],
        said: Said::JoinWrong(8, 5, 1),
    },
    // right
    Check {
        old: &[(0x00000000, 1, 1)],
        routes: &[(0x00000000, 1, 1), (0x80000000, 1, 2)],
        changes: &[Told::Add(0x00000000, 0, 2)],
        rows: &[
            Step::Leaf(0x00000000, 1, 1),
            Step::Leaf(0x80000000, 1, 2),
            Step::Join(0x00000000, 0, 0),
            Step::Bound(1),
        ],
        said: Said::Yes,
    },
    // the bound without the one more
    Check {
        old: &[(0x00000000, 1, 1)],
        routes: &[(0x00000000, 1, 1), (0x80000000, 1, 2)],
        changes: &[Told::Add(0x00000000, 0, 2)],
        rows: &[
            Step::Leaf(0x00000000, 1, 1),
            Step::Leaf(0x80000000, 1, 2),
            Step::Join(0x00000000, 0, 0),
            Step::Bound(0),
        ],
        said: Said::JoinWrong(4, 0, 1),
    },
];

/// The same as the checker answers it.
fn answer(said: Said) -> Result<(), MovesError> {
    Err(MovesError::NoMoves(match said {
        Said::Yes => return Ok(()),
        Said::Twice(bits, len) => NoMoves::Twice {
            prefix: prefix(Family::V4, bits, len),
        },
        Said::Apply(index) => NoMoves::Apply { index },
        Said::NotSame(bits, want, has) => NoMoves::NotSame {
            addr: Addr::v4(bits),
            want: Hop(want),
            has: Hop(has),
        },
        Said::Shape(row) => NoMoves::Shape { row },
        Said::LeafWrong(row) => NoMoves::LeafWrong { row },
        Said::JoinWrong(row, said, due) => NoMoves::JoinWrong { row, said, due },
        Said::NotShortest(changes, bound) => NoMoves::NotShortest { changes, bound },
    }))
}

fn judge(alloc: Global, check: &Check<'_>) -> Result<Result<(), MovesError>, AllocError> {
    let old = entries_of(alloc, Family::V4, check.old)?;
    let routes = entries_of(alloc, Family::V4, check.routes)?;
    let changes = changes_of(alloc, Family::V4, check.changes)?;
    let rows = rows_of(alloc, Family::V4, check.rows)?;
    Ok(check_moves(alloc, Family::V4, &old, &routes, &changes, &rows))
}

#[test]
fn tables_and_changes_are_judged(rt: HostRuntime) -> Result<(), AllocError> {
    for check in &TABLES {
        let said = judge(rt.alloc(), check)?;
        assert_eq!(rt; said, answer(check.said));
    }
    Ok(())
}

#[test]
fn rows_are_judged(rt: HostRuntime) -> Result<(), AllocError> {
    for check in &ROWS {
        let said = judge(rt.alloc(), check)?;
        assert_eq!(rt; said, answer(check.said));
    }
    Ok(())
}

#[test]
fn numbers_are_judged(rt: HostRuntime) -> Result<(), AllocError> {
    for check in &NUMBERS {
        let said = judge(rt.alloc(), check)?;
        assert_eq!(rt; said, answer(check.said));
    }
    Ok(())
}
