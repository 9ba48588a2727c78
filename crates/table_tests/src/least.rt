//! Least tables of whole trees and of regions, and their proofs. What is expected comes from another program, written from
//! the definitions.

ghost use Rattle.std.specs.Prelude.{◌≡◌, IfOk};
ghost use Rattle.table_model.specs.declared.family.Family.TheVariants.{V4};

use crate::common::Seen;
use fib_addr::{Addr, Entry, Family, Hop, Prefix};
use orig_tree::Tree;
use ortc::{fresh, within, within_counted};
use std::alloc::{AllocError, Global};

/// A prefix's bits and length, and a hop.
type Row = (u32, u8, u16);

/// A row of a proof: a leaf with its hop, a join with its k, or the bound.
enum Step {
    Leaf(u32, u8, u16),
    Join(u32, u8, u64),
    Bound(u64),
}

/// Routes, old entries, a region, what it inherits, and its least table; of some whole trees the proof too.
struct Case<'a> {
    routes: &'a [Row],
    entries: &'a [Row],
    region: (u32, u8),
    inherited: u16,
    table: &'a [Row],
    proof: &'a [Step],
}

fn prefix(bits: u32, len: u8) -> Prefix
    ensures { result.family ≡ V4 }
{
    Prefix::new(&Addr::v4(bits), len.min(32))
}

fn tree_of(alloc: Global, case: &Case<'_>) -> Result<Tree, AllocError>
    ensures { IfOk result (λ t. t.family ≡ V4) }
{
    let mut tree = Tree::new(alloc, Family::V4);
    for (bits, len, hop) in case.routes {
        tree.set_route(&prefix(*bits, *len), Hop(*hop))?;
    }
    for (bits, len, hop) in case.entries {
        tree.set_entry(&prefix(*bits, *len), Hop(*hop))?;
    }
    Ok(tree)
}

fn listed(alloc: Global, rows: &[Row]) -> Result<Vec<Entry>, AllocError> {
    let mut list = Vec::new(alloc);
    for (bits, len, hop) in rows {
        list.push(Entry {
            prefix: prefix(*bits, *len),
            hop: Hop(*hop),
        })?;
    }
    Ok(list)
}

fn proof_of(alloc: Global, steps: &[Step]) -> Result<Vec<cert_model::Row>, AllocError> {
    let mut rows = Vec::new(alloc);
    for step in steps {
        rows.push(match step {
            Step::Leaf(bits, len, hop) => cert_model::Row::Leaf(prefix(*bits, *len), Hop(*hop)),
            Step::Join(bits, len, k) => cert_model::Row::Join(prefix(*bits, *len), *k),
            Step::Bound(entries) => cert_model::Row::Bound(Family::V4, *entries),
        })?;
    }
    Ok(rows)
}

const CASES: [Case<'static>; 15] = [
    // no routes
    Case {
        routes: &[],
        entries: &[(0x0a00_0000, 8, 1)],
        region: (0x0000_0000, 0),
        inherited: 0,
        table: &[],
        proof: &[Step::Leaf(0x0000_0000, 0, 0), Step::Bound(0)],
    },
    // an old entry decides a tie
    Case {
        routes: &[(0x0a00_0000, 9, 1), (0x0a80_0000, 9, 2)],
        entries: &[(0x0a00_0000, 8, 2)],
        region: (0x0000_0000, 0),
        inherited: 0,
        table: &[(0x0a00_0000, 8, 2), (0x0a00_0000, 9, 1)],
        proof: &[],
    },
    // without it the least hop
    Case {
        routes: &[(0x0a00_0000, 9, 2), (0x0a80_0000, 9, 1)],
        entries: &[],
        region: (0x0000_0000, 0),
        inherited: 0,
        table: &[(0x0a00_0000, 8, 1), (0x0a00_0000, 9, 2)],
        proof: &[],
    },
    // an old hop that isn't best
    Case {
        routes: &[(0x0a00_0000, 9, 2), (0x0a80_0000, 9, 1)],
        entries: &[(0x0a00_0000, 8, 7)],
        region: (0x0000_0000, 0),
        inherited: 0,
        table: &[(0x0a00_0000, 8, 1), (0x0a00_0000, 9, 2)],
        proof: &[],
    },
    // halves that share a hop
    Case {
        routes: &[
            (0x0a00_0000, 10, 1),
            (0x0a40_0000, 10, 2),
            (0x0a80_0000, 10, 2),
            (0x0ac0_0000, 10, 3),
        ],
        entries: &[(0x0a00_0000, 8, 1)],
        region: (0x0000_0000, 0),
        inherited: 0,
        table: &[
            (0x0a00_0000, 8, 2),
            (0x0a00_0000, 10, 1),
            (0x0ac0_0000, 10, 3),
        ],
        proof: &[
            Step::Leaf(0x0000_0000, 5, 0),
            Step::Leaf(0x0800_0000, 7, 0),
            Step::Leaf(0x0a00_0000, 10, 1),
            Step::Leaf(0x0a40_0000, 10, 2),
            Step::Join(0x0a00_0000, 9, 1),
            Step::Leaf(0x0a80_0000, 10, 2),
            Step::Leaf(0x0ac0_0000, 10, 3),
            Step::Join(0x0a80_0000, 9, 1),
            Step::Join(0x0a00_0000, 8, 2),
            Step::Leaf(0x0b00_0000, 8, 0),
            Step::Join(0x0a00_0000, 7, 3),
            Step::Join(0x0800_0000, 6, 3),
            Step::Leaf(0x0c00_0000, 6, 0),
            Step::Join(0x0800_0000, 5, 3),
            Step::Join(0x0000_0000, 4, 3),
            Step::Leaf(0x1000_0000, 4, 0),
            Step::Join(0x0000_0000, 3, 3),
            Step::Leaf(0x2000_0000, 3, 0),
            Step::Join(0x0000_0000, 2, 3),
            Step::Leaf(0x4000_0000, 2, 0),
            Step::Join(0x0000_0000, 1, 3),
            Step::Leaf(0x8000_0000, 1, 0),
            Step::Join(0x0000_0000, 0, 3),
            Step::Bound(3),
        ],
    },
    // a hole gets a drop entry
    Case {
        routes: &[
            (0x0000_0000, 1, 1),
            (0x8000_0000, 2, 1),
            (0xc000_0000, 3, 1),
        ],
        entries: &[],
        region: (0x0000_0000, 0),
        inherited: 0,
        table: &[(0x0000_0000, 0, 1), (0xe000_0000, 3, 0)],
        proof: &[
            Step::Leaf(0x0000_0000, 1, 1),
            Step::Leaf(0x8000_0000, 2, 1),
            Step::Leaf(0xc000_0000, 3, 1),
            Step::Leaf(0xe000_0000, 3, 0),
            Step::Join(0xc000_0000, 2, 1),
            Step::Join(0x8000_0000, 1, 1),
            Step::Join(0x0000_0000, 0, 1),
            Step::Bound(2),
        ],
    },
    // none as good as a hop
    Case {
        routes: &[(0x0000_0000, 1, 3)],
        entries: &[],
        region: (0x0000_0000, 0),
        inherited: 0,
        table: &[(0x0000_0000, 1, 3)],
        proof: &[
            Step::Leaf(0x0000_0000, 1, 3),
            Step::Leaf(0x8000_0000, 1, 0),
            Step::Join(0x0000_0000, 0, 1),
            Step::Bound(1),
        ],
    },
    // more hops than are kept in place
    Case {
        routes: &[
            (0x0a00_0000, 12, 20),
            (0x0a10_0000, 12, 19),
            (0x0a20_0000, 12, 18),
            (0x0a30_0000, 12, 17),
            (0x0a40_0000, 12, 16),
            (0x0a50_0000, 12, 15),
            (0x0a60_0000, 12, 14),
            (0x0a70_0000, 12, 13),
            (0x0a80_0000, 12, 12),
            (0x0a90_0000, 12, 11),
            (0x0aa0_0000, 12, 10),
            (0x0ab0_0000, 12, 9),
            (0x0ac0_0000, 12, 8),
            (0x0ad0_0000, 12, 7),
            (0x0ae0_0000, 12, 6),
            (0x0af0_0000, 12, 5),
        ],
        entries: &[(0x0a00_0000, 8, 9), (0x0a00_0000, 9, 9)],
        region: (0x0000_0000, 0),
        inherited: 0,
        table: &[
            (0x0a00_0000, 8, 9),
            (0x0a00_0000, 9, 13),
            (0x0a00_0000, 10, 17),
            (0x0a00_0000, 11, 19),
            (0x0a00_0000, 12, 20),
            (0x0a20_0000, 12, 18),
            (0x0a40_0000, 11, 15),
            (0x0a40_0000, 12, 16),
            (0x0a60_0000, 12, 14),
            (0x0a80_0000, 11, 11),
            (0x0a80_0000, 12, 12),
            (0x0aa0_0000, 12, 10),
            (0x0ac0_0000, 10, 5),
            (0x0ac0_0000, 11, 7),
            (0x0ac0_0000, 12, 8),
            (0x0ae0_0000, 12, 6),
        ],
        proof: &[],
    },
    // the route above holds in the region
    Case {
        routes: &[(0x0a00_0000, 8, 1), (0x0a00_0000, 16, 2)],
        entries: &[],
        region: (0x0a00_0000, 12),
        inherited: 0,
        table: &[(0x0a00_0000, 12, 1), (0x0a00_0000, 16, 2)],
        proof: &[],
    },
    // what it inherits is best
    Case {
        routes: &[(0x0a00_0000, 8, 1), (0x0a00_0000, 16, 2)],
        entries: &[],
        region: (0x0a00_0000, 12),
        inherited: 1,
        table: &[(0x0a00_0000, 16, 2)],
        proof: &[],
    },
    // a region without a node
    Case {
        routes: &[(0x0a00_0000, 8, 1)],
        entries: &[],
        region: (0x0a01_0000, 16),
        inherited: 0,
        table: &[(0x0a01_0000, 16, 1)],
        proof: &[],
    },
    // which needs no entry
    Case {
        routes: &[(0x0a00_0000, 8, 1)],
        entries: &[],
        region: (0x0a01_0000, 16),
        inherited: 1,
        table: &[],
        proof: &[],
    },
    // no route below what it inherits
    Case {
        routes: &[(0x0b00_0000, 8, 1)],
        entries: &[],
        region: (0x0a00_0000, 8),
        inherited: 5,
        table: &[(0x0a00_0000, 8, 0)],
        proof: &[],
    },
    // old entries within the region
    Case {
        routes: &[
            (0x0a00_0000, 9, 1),
            (0x0a80_0000, 9, 2),
            (0x0b00_0000, 8, 1),
        ],
        entries: &[(0x0a00_0000, 8, 2), (0x0b00_0000, 8, 3)],
        region: (0x0a00_0000, 7),
        inherited: 0,
        table: &[(0x0a00_0000, 7, 1), (0x0a80_0000, 9, 2)],
        proof: &[],
    },
    // an address
    Case {
        routes: &[(0x0a00_0001, 32, 4)],
        entries: &[],
        region: (0x0a00_0001, 32),
        inherited: 3,
        table: &[(0x0a00_0001, 32, 4)],
        proof: &[],
    },
];

/// Whether the region's least table is the case's; of the whole space `fresh` too, with the proof if the case has one.
fn is_least(alloc: Global, case: &Case<'_>) -> Result<bool, AllocError> {
    let tree = tree_of(alloc, case)?;
    let table = listed(alloc, case.table)?;
    let (bits, len) = case.region;
    let part = within(alloc, &tree, &prefix(bits, len), Hop(case.inherited))?;
    if len != 0 {
        return Ok(part.as_slice() == table.as_slice());
    }
    let whole = fresh(alloc, &tree)?;
    let proof = proof_of(alloc, case.proof)?;
    Ok(
        part.as_slice() == table.as_slice()
            && whole.table.as_slice() == table.as_slice()
            && (proof.is_empty() || whole.proof.as_slice() == proof.as_slice()),
    )
}

#[test]
fn the_tables_are_least(rt: HostRuntime) -> Result<(), AllocError> {
    for (place, case) in CASES.iter().enumerate() {
        assert!(rt; is_least(rt.alloc(), case)?, "case {place}");
    }
    Ok(())
}

/// Four routes that tie, and those three that are left if the second is taken away.
const TIE: Case<'static> = Case {
    routes: &[
        (0x0000_0000, 2, 1),
        (0x4000_0000, 2, 2),
        (0x8000_0000, 2, 1),
        (0xc000_0000, 2, 2),
    ],
    entries: &[],
    region: (0, 0),
    inherited: 0,
    table: &[],
    proof: &[],
};

const THREE: Case<'static> = Case {
    routes: &[
        (0x0000_0000, 2, 1),
        (0x8000_0000, 2, 1),
        (0xc000_0000, 2, 2),
    ],
    entries: &[],
    region: (0, 0),
    inherited: 0,
    table: &[],
    proof: &[],
};

/// Whether the four routes without the second have the three routes' least table, of three entries, with its proof.
fn is_mended(alloc: Global) -> Result<bool, AllocError> {
    let mut tree = tree_of(alloc, &TIE)?;
    tree.clear_route(&prefix(0x4000_0000, 2))?;
    let mended = fresh(alloc, &tree)?;
    let three = fresh(alloc, &tree_of(alloc, &THREE)?)?;
    Ok(
        mended.table.as_slice() == three.table.as_slice()
            && mended.proof.as_slice() == three.proof.as_slice(),
    )
}

#[test]
fn what_nodes_keep_is_mended(rt: HostRuntime) -> Result<(), AllocError> {
    assert!(rt; is_mended(rt.alloc())?);
    Ok(())
}

#[test]
fn a_table_costs_its_regions(rt: HostRuntime) -> Result<(), AllocError> {
    let tree = tree_of(rt.alloc(), &TIE)?;
    for (bits, len, steps) in [(0, 0, 7), (0x4000_0000, 3, 4)] {
        let mut seen = Seen { steps: 0 };
        within_counted(rt.alloc(), &tree, &prefix(bits, len), Hop::NONE, &mut seen)?;
        assert_eq!(rt; seen.steps, steps);
    }
    Ok(())
}
