//! Certificates of four routes that tie, right ones and wrong ones.

use cert_check::{CheckError, Differ, No, check, same};
use cert_model::Row;
use cert_rows::CertRows;
use fib_addr::{Addr, Entry, Family, Hop, Prefix};
use std::alloc::{AllocError, Global};
use std::test::Fail;

/// A prefix's bits and length, and a hop.
type Net = (u32, u8, u16);

/// A row of a certificate; the last is the leaf of all IPv6 addresses, which get no hop.
#[derive(Clone, Copy)]
enum Step {
    Leaf(u32, u8, u16),
    Join(u32, u8, u64),
    Bound(Family, u64),
    NoneOfSix,
}

const A: u32 = 0x0000_0000;

const B: u32 = 0x4000_0000;

const C: u32 = 0x8000_0000;

const D: u32 = 0xc000_0000;

const ROUTES: &[Net] = &[(A, 2, 1), (B, 2, 2), (C, 2, 1), (D, 2, 2)];

const LEAST: &[Net] = &[(A, 0, 1), (B, 2, 2), (D, 2, 2)];

const ONE_MORE: &[Net] = &[(A, 0, 1), (B, 2, 2), (B, 3, 2), (D, 2, 2)];

const OTHER_HOP: &[Net] = &[(A, 0, 1), (B, 2, 2), (D, 2, 1)];

const TWICE: &[Net] = &[(A, 0, 1), (B, 2, 2), (D, 2, 2), (B, 2, 2)];

/// The certificate of the least table.
const ROWS: [Step; 10] = [
    Step::Leaf(A, 2, 1),
    Step::Leaf(B, 2, 2),
    Step::Join(A, 1, 1),
    Step::Leaf(C, 2, 1),
    Step::Leaf(D, 2, 2),
    Step::Join(C, 1, 1),
    Step::Join(A, 0, 2),
    Step::Bound(Family::V4, 3),
    Step::NoneOfSix,
    Step::Bound(Family::V6, 0),
];

fn prefix(bits: u32, len: u8) -> Prefix {
    Prefix::new(&Addr::v4(bits), len.min(32))
}

fn entries_of(alloc: Global, nets: &[Net]) -> Result<Vec<Entry>, AllocError> {
    let mut entries = Vec::new(alloc);
    for (bits, len, hop) in nets {
        entries.push(Entry {
            prefix: prefix(*bits, *len),
            hop: Hop(*hop),
        })?;
    }
    Ok(entries)
}

fn row_of(step: Step) -> Row {
    match step {
        Step::Leaf(bits, len, hop) => Row::Leaf(prefix(bits, len), Hop(hop)),
        Step::Join(bits, len, k) => Row::Join(prefix(bits, len), k),
        Step::Bound(family, entries) => Row::Bound(family, entries),
        Step::NoneOfSix => Row::Leaf(Prefix::whole(Family::V6), Hop::NONE),
    }
}

/// The first rows of the certificate, of which one may be another.
fn rows_of(
    alloc: Global,
    count: usize,
    other: Option<(usize, Step)>,
) -> Result<CertRows, AllocError> {
    let mut rows = CertRows::new(alloc);
    for (place, step) in ROWS.iter().take(count).enumerate() {
        let step = match other {
            Some((at, other)) if at == place => other,
            _ => *step,
        };
        rows.push(&row_of(step))?;
    }
    Ok(rows)
}

/// What is said of a table for the routes, and of that certificate.
fn judge(
    alloc: Global,
    table: &[Net],
    count: usize,
    other: Option<(usize, Step)>,
) -> Result<(), CheckError> {
    let routes = entries_of(alloc, ROUTES)?;
    let table = entries_of(alloc, table)?;
    let rows = rows_of(alloc, count, other)?;
    check(alloc, &routes, &table, &rows)
}

#[test]
fn certificates_are_judged(rt: HostRuntime) {
    let other_join = Some((6, Step::Join(A, 0, 1)));
    let other_leaf = Some((4, Step::Leaf(C, 1, 1)));
    let early_bound = Some((4, Step::Bound(Family::V6, 3)));
    let more = No::NotLeast {
        family: Family::V4,
        entries: 4,
        bound: 3,
    };
    let differs = No::NotSame {
        addr: Addr::v4(D),
        want: Hop(2),
        has: Hop(1),
    };
    let join = No::JoinWrong {
        row: 7,
        said: 1,
        due: 2,
    };
    let twice = No::Twice {
        prefix: prefix(B, 2),
    };
    for (name, table, count, other, no) in [
        ("the least table", LEAST, 10, None, None),
        ("an entry more", ONE_MORE, 10, None, Some(more)),
        ("another hop", OTHER_HOP, 10, None, Some(differs)),
        ("an entry twice", TWICE, 10, None, Some(twice)),
        ("a join that says less", LEAST, 10, other_join, Some(join)),
        ("no last bound", LEAST, 9, None, Some(No::Shape { row: 10 })),
        ("no bound", LEAST, 7, None, Some(No::Shape { row: 8 })),
        (
            "a leaf of two hops",
            LEAST,
            10,
            other_leaf,
            Some(No::LeafWrong { row: 5 }),
        ),
        (
            "a bound in a join",
            LEAST,
            10,
            early_bound,
            Some(No::Shape { row: 5 }),
        ),
    ] {
        let due = match no {
            Some(no) => Err(CheckError::No(no)),
            None => Ok(()),
        };
        assert_eq!(rt; judge(rt.alloc(), table, count, other), due, "{name}");
    }
}

/// Where a table first differs from the routes.
fn differ(alloc: Global, table: &[Net]) -> Result<Option<Differ>, AllocError> {
    same(
        alloc,
        &entries_of(alloc, ROUTES)?,
        &entries_of(alloc, table)?,
    )
}

#[test]
fn tables_are_compared(rt: HostRuntime) -> Result<(), AllocError> {
    let at_d = Differ {
        addr: Addr::v4(D),
        first: Hop(2),
        second: Hop(1),
    };
    for (table, due) in [(LEAST, None), (ONE_MORE, None), (OTHER_HOP, Some(at_d))] {
        assert_eq!(rt; differ(rt.alloc(), table)?, due);
    }
    Ok(())
}

#[test]
fn refusals_have_their_numbers_in_place(rt: HostRuntime) -> Result<(), Fail> {
    let join = No::JoinWrong {
        row: 7,
        said: 1,
        due: 2,
    };
    let more = No::NotLeast {
        family: Family::V4,
        entries: 4,
        bound: 3,
    };
    let alloc = rt.alloc();
    for (no, text) in [
        (No::Shape { row: 5 }, "row 5 may not stand there"),
        (join, "row 7 says 1 for 2"),
        (more, "4 entries, and a least table has 3"),
    ] {
        assert_eq!(rt; format!(in alloc; "{no}")?.as_str(), text);
    }
    Ok(())
}
