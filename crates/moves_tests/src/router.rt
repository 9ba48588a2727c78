//! A router's table against printed routes. What is expected comes from another program, written from the definitions.

use crate::common::{Step, Told, changes_of, prefix, rows_of};
use fib_addr::{Addr, Family, Hop};
use fib_io::SureInputs;
use fib_moves::Near;
use fib_same::SameError;
use router_moves::{RouterMoves, moves_to_routes};
use std::alloc::Global;
use std::test::Fail;

/// The changes of a family and the rows that prove them, the bound last.
struct Due<'a> {
    changes: &'a [Told],
    rows: &'a [Step],
}

/// Two texts, and what they come to.
struct Case<'a> {
    name: &'a str,
    router: &'a str,
    printed: &'a str,
    v4: Due<'a>,
    v6: Due<'a>,
    /// The last octets of the hops, in the order of their numbers.
    hops: &'a [u32],
}

/// A family in which nothing is said.
const NOTHING: Due<'static> = Due {
    changes: &[],
    rows: &[Step::Leaf(0x00000000, 0, 0), Step::Bound(0)],
};

const CASES: [Case<'static>; 6] = [
    Case {
        name: "an empty router gets all",
        router: "",
        printed: "route,0.0.0.0/1,192.0.2.1",
        v4: Due {
            changes: &[Told::Add(0x00000000, 1, 1)],
            rows: &[
                Step::Leaf(0x00000000, 1, 1),
                Step::Leaf(0x80000000, 1, 0),
                Step::Join(0x00000000, 0, 1),
                Step::Bound(1),
            ],
        },
        v6: NOTHING,
        hops: &[1],
    },
    Case {
        name: "a router that is right gets nothing",
        router: "least,0.0.0.0/1,192.0.2.1",
        printed: "route,0.0.0.0/1,192.0.2.1",
        v4: Due {
            changes: &[],
            rows: &[
                Step::Leaf(0x00000000, 1, 1),
                Step::Leaf(0x80000000, 1, 0),
                Step::Join(0x00000000, 0, 0),
                Step::Bound(0),
            ],
        },
        v6: NOTHING,
        hops: &[1],
    },
    Case {
        name: "a specific that is wrong is replaced",
        router: "least,0.0.0.0/0,192.0.2.1\nleast,192.0.0.0/2,192.0.2.2\n",
        printed: "route,0.0.0.0/0,192.0.2.1\nroute,192.0.0.0/2,192.0.2.3\n",
        v4: Due {
            changes: &[Told::Replace(0xc0000000, 2, 3)],
            rows: &[
                Step::Leaf(0x00000000, 1, 1),
                Step::Leaf(0x80000000, 2, 1),
                Step::Leaf(0xc0000000, 2, 3),
                Step::Join(0x80000000, 1, 1),
                Step::Join(0x00000000, 0, 1),
                Step::Bound(1),
            ],
        },
        v6: NOTHING,
        hops: &[1, 2, 3],
    },
    Case {
        name: "an entry that drops may stay; IPv6 alone",
        router: "least,::/0,drop\n",
        printed: "route,8000::/1,192.0.2.1\n",
        v4: NOTHING,
        v6: Due {
            changes: &[Told::Add(0x80000000, 1, 1)],
            rows: &[
                Step::Leaf(0x00000000, 1, 0),
                Step::Leaf(0x80000000, 1, 1),
                Step::Join(0x00000000, 0, 1),
                Step::Bound(1),
            ],
        },
        hops: &[1],
    },
    Case {
        name: "of two hops that serve, the one that the router's text says first",
        router: "least,0.0.0.0/0,192.0.2.1\nleast,0.0.0.0/3,192.0.2.2\n",
        printed: "route,0.0.0.0/1,192.0.2.3\nroute,128.0.0.0/1,192.0.2.2\n",
        v4: Due {
            changes: &[
                Told::Replace(0x00000000, 0, 2),
                Told::Add(0x00000000, 1, 3),
                Told::Remove(0x00000000, 3),
            ],
            rows: &[
                Step::Leaf(0x00000000, 3, 3),
                Step::Leaf(0x20000000, 3, 3),
                Step::Join(0x00000000, 2, 1),
                Step::Leaf(0x40000000, 2, 3),
                Step::Join(0x00000000, 1, 1),
                Step::Leaf(0x80000000, 1, 2),
                Step::Join(0x00000000, 0, 3),
                Step::Bound(3),
            ],
        },
        v6: NOTHING,
        hops: &[1, 2, 3],
    },
    Case {
        name: "rows in any order, other rows and both families",
        router: "least,8000::/1,192.0.2.1\nroute,::/0,192.0.2.8\nleast,128.0.0.0/1,drop\n",
        printed: "least,0.0.0.0/1,192.0.2.9\nroute,8000::/1,192.0.2.2\nroute,::/0,192.0.2.1\nroute,0.0.0.0/1,192.0.2.2\n",
        v4: Due {
            changes: &[Told::Add(0x00000000, 0, 2)],
            rows: &[
                Step::Leaf(0x00000000, 1, 2),
                Step::Leaf(0x80000000, 1, 0),
                Step::Join(0x00000000, 0, 0),
                Step::Bound(1),
            ],
        },
        v6: Due {
            changes: &[Told::Add(0x00000000, 0, 1), Told::Replace(0x80000000, 1, 2)],
            rows: &[
                Step::Leaf(0x00000000, 1, 1),
                Step::Leaf(0x80000000, 1, 2),
                Step::Join(0x00000000, 0, 1),
                Step::Bound(2),
            ],
        },
        hops: &[1, 2],
    },
];

/// What a router with the one text must change for the other's routes.
fn moves(
    alloc: Global,
    router: &str,
    printed: &str,
    steady: bool,
) -> Result<Result<RouterMoves, SameError>, Fail> {
    let mut names = Vec::new(alloc);
    for (name, text) in [("router", router), ("printed", printed)] {
        let name = String::from_str(alloc, name)?;
        names.push((name, Vec::from_slice(alloc, text.as_bytes())?))?;
    }
    let mut inputs = SureInputs::new(names);
    Ok(moves_to_routes(alloc, &mut inputs, "router", "printed", steady))
}

/// Whether a family's changes and rows are these.
fn are_due(alloc: Global, family: Family, near: &Near, due: &Due<'_>) -> Result<bool, Fail> {
    let changes = changes_of(alloc, family, due.changes)?;
    let rows = rows_of(alloc, family, due.rows)?;
    Ok(
        near.changes.as_slice() == changes.as_slice()
            && near.bound == changes.len() as u64
            && near.rows.as_slice() == rows.as_slice(),
    )
}

/// The address of a hop whose last octet this is.
fn hop_addr(octet: u32) -> Option<Addr> {
    Some(Addr::v4(0xc000_0200 | octet))
}

#[test]
fn routers_get_the_fewest_changes(rt: HostRuntime) -> Result<(), Fail> {
    let alloc = rt.alloc();
    for case in &CASES {
        let told = moves(alloc, case.router, case.printed, false)??;
        assert!(rt;
            are_due(alloc, Family::V4, &told.v4, &case.v4)?,
            "{}",
            case.name
        );
        assert!(rt;
            are_due(alloc, Family::V6, &told.v6, &case.v6)?,
            "{}",
            case.name
        );
        let count = told.v4.bound.saturating_add(told.v6.bound);
        assert!(rt; told.count() == count, "{}", case.name);
        let mut number: u16 = 1;
        for octet in case.hops {
            assert_eq!(rt;
                told.hops.addr(Hop(number)),
                hop_addr(*octet),
                "{}",
                case.name
            );
            number = number.saturating_add(1);
        }
        assert_eq!(rt; told.hops.addr(Hop(number)), None, "{}", case.name);
    }
    Ok(())
}

/// What sets an entry comes first, from the longest prefix to the shortest, and each family's own changes stay together.
#[test]
fn changes_may_be_told_in_steady_order(rt: HostRuntime) -> Result<(), Fail> {
    let alloc = rt.alloc();
    let router = "least,0.0.0.0/0,192.0.2.1\nleast,0.0.0.0/3,192.0.2.2\nleast,8000::/1,192.0.2.1\n";
    let printed =
        "route,0.0.0.0/1,192.0.2.3\nroute,128.0.0.0/1,192.0.2.2\nroute,8000::/1,192.0.2.2\nroute,::/0,192.0.2.1\n";
    let told = moves(alloc, router, printed, true)??;
    let four = [
        Told::Add(0x00000000, 1, 3),
        Told::Replace(0x00000000, 0, 2),
        Told::Remove(0x00000000, 3),
    ];
    let six = [Told::Replace(0x80000000, 1, 2), Told::Add(0x00000000, 0, 1)];
    let v4 = changes_of(alloc, Family::V4, &four)?;
    let v6 = changes_of(alloc, Family::V6, &six)?;
    assert!(rt; told.v4.changes.as_slice() == v4.as_slice());
    assert!(rt; told.v6.changes.as_slice() == v6.as_slice());
    Ok(())
}

#[test]
fn texts_are_refused(rt: HostRuntime) -> Result<(), Fail> {
    let alloc = rt.alloc();
    let ten = prefix(Family::V4, 0x0a00_0000, 8);
    let whole = prefix(Family::V6, 0, 0);
    let cases = [
        (
            "the router's text is judged before the other is",
            "least,10.0.0.0/8,drop\nleast,10.0.0.0/8,192.0.2.1\n",
            "bad\n",
            SameError::Twice {
                text: 1,
                prefix: ten,
            },
        ),
        (
            "rows of other kinds may have a prefix twice",
            "route,10.0.0.0/8,192.0.2.1\nroute,10.0.0.0/8,192.0.2.1\n",
            "route,::/0,192.0.2.1\nroute,::/0,192.0.2.1\n",
            SameError::Twice {
                text: 2,
                prefix: whole,
            },
        ),
        (
            "a line that is no row",
            "least,10.0.0.0/8,drop\n",
            "bad\n",
            SameError::BadLine {
                text: 2,
                line: 1,
                why: 2,
            },
        ),
    ];
    for (case, router, printed, due) in cases {
        match moves(alloc, router, printed, false)? {
            Ok(_) => assert!(rt; false, "{case}"),
            Err(error) => assert!(rt; error == due, "{case}"),
        }
    }
    Ok(())
}
