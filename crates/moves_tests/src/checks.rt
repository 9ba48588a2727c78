//! Printed changes, checked. Texts and verdicts were worked out by hand.

use fib_addr::{Addr, Family, Hop};
use fib_io::SureInputs;
use fib_same::SameError;
use moves_check::NoMoves;
use router_moves::{MovesVerdict, WrongMoves, check_router_moves};
use std::alloc::Global;
use std::test::Fail;

/// A router whose entry at 192.0.0.0/2 is wrong, the routes, the change that mends it, and the rows that prove that one is needed.
const ROUTER: &str = "least,0.0.0.0/0,192.0.2.1\nleast,192.0.0.0/2,192.0.2.2\n";

const PRINTED: &str = "route,0.0.0.0/0,192.0.2.1\nroute,192.0.0.0/2,192.0.2.3\n";

const MENDS: &str = "change,1,=,192.0.0.0/2,192.0.2.3\nmoves,1,1\n";

const LEAVES: &str =
    "cert,leaf,0.0.0.0/1,192.0.2.1\ncert,leaf,128.0.0.0/2,192.0.2.1\ncert,leaf,192.0.0.0/2,192.0.2.3\n";

const JOINS: &str = "cert,join,128.0.0.0/1,1\ncert,join,0.0.0.0/0,1\n";

const BOUND: &str = "cert,bound,4,1\n";

/// The rows that prove that nothing is to change in IPv6.
const SIX: &str = "cert,leaf,::/0,none\ncert,bound,6,0\n";

/// The verdict on the parts of a text that follow one another, for that router and those routes.
#[derive(Drop)]
struct Case<'a> {
    name: &'a str,
    moves: &'a [&'a str],
    wrong: Option<WrongMoves>,
}

/// What is wrong in IPv4.
fn four(no: NoMoves) -> Option<WrongMoves> {
    let family = Family::V4;
    Some(WrongMoves { family, no })
}

/// What is wrong in IPv6.
fn six(no: NoMoves) -> Option<WrongMoves> {
    let family = Family::V6;
    Some(WrongMoves { family, no })
}

/// The verdict on the text of these parts.
fn verdict(
    alloc: Global,
    router: &str,
    printed: &str,
    moves: &[&str],
) -> Result<Result<MovesVerdict, SameError>, Fail> {
    let mut text = Vec::new(alloc);
    for part in moves {
        text.extend_from_slice(part.as_bytes())?;
    }
    let mut names = Vec::new(alloc);
    for (name, text) in [("router", router), ("printed", printed)] {
        let name = String::from_str(alloc, name)?;
        names.push((name, Vec::from_slice(alloc, text.as_bytes())?))?;
    }
    names.push((String::from_str(alloc, "moves")?, text))?;
    let mut inputs = SureInputs::new(names);
    Ok(check_router_moves(alloc, &mut inputs, "router", "printed", "moves"))
}

#[test]
fn printed_changes_are_judged(rt: HostRuntime) -> Result<(), Fail> {
    let alloc = rt.alloc();
    let cases = [
        Case {
            name: "what is printed for them",
            moves: &[MENDS, LEAVES, JOINS, BOUND, SIX],
            wrong: None,
        },
        Case {
            name: "families in any order, other rows between",
            moves: &[
                "cert,leaf,::/0,none\n",
                LEAVES,
                "route,::/0,192.0.2.9\n",
                JOINS,
                "cert,bound,6,0\n",
                BOUND,
                "change,7,=,192.0.0.0/2,192.0.2.3",
            ],
            wrong: None,
        },
        Case {
            name: "the change is left out",
            moves: &[LEAVES, JOINS, BOUND, SIX],
            wrong: four(NoMoves::NotSame {
                addr: Addr::v4(0xc000_0000),
                want: Hop(3),
                has: Hop(2),
            }),
        },
        Case {
            name: "a change is made that isn't needed",
            moves: &[
                MENDS,
                "change,1,+,0.0.0.0/1,192.0.2.1\n",
                LEAVES,
                JOINS,
                BOUND,
                SIX,
            ],
            wrong: four(NoMoves::NotShortest {
                changes: 2,
                bound: 1,
            }),
        },
        Case {
            name: "it is made twice",
            moves: &[
                MENDS,
                "change,1,-,192.0.0.0/2\nchange,1,-,192.0.0.0/2\n",
                LEAVES,
                JOINS,
                BOUND,
                SIX,
            ],
            wrong: four(NoMoves::Apply { index: 3 }),
        },
        Case {
            name: "a join says too little",
            moves: &[
                MENDS,
                LEAVES,
                "cert,join,128.0.0.0/1,0\ncert,join,0.0.0.0/0,1\n",
                BOUND,
                SIX,
            ],
            wrong: four(NoMoves::JoinWrong {
                row: 4,
                said: 0,
                due: 1,
            }),
        },
        Case {
            name: "no rows",
            moves: &[MENDS],
            wrong: four(NoMoves::Shape { row: 1 }),
        },
        Case {
            name: "no bound for IPv6",
            moves: &[MENDS, LEAVES, JOINS, BOUND, "cert,leaf,::/0,none\n"],
            wrong: six(NoMoves::Shape { row: 2 }),
        },
    ];
    for case in &cases {
        let verdict = verdict(alloc, ROUTER, PRINTED, case.moves)??;
        assert!(rt; verdict.wrong == case.wrong, "{}", case.name);
    }
    Ok(())
}

/// The five changes that would mend the least table afresh, although one will do.
#[test]
fn more_changes_than_are_needed_are_refused(rt: HostRuntime) -> Result<(), Fail> {
    let alloc = rt.alloc();
    let router =
        "least,0.0.0.0/0,192.0.2.1\nleast,64.0.0.0/2,192.0.2.2\nleast,192.0.0.0/2,192.0.2.2\n";
    let printed =
        "route,0.0.0.0/0,192.0.2.3\nroute,64.0.0.0/2,192.0.2.2\nroute,192.0.0.0/2,192.0.2.2\n";
    let five =
        "change,1,=,0.0.0.0/0,192.0.2.2\nchange,1,+,0.0.0.0/2,192.0.2.3\nchange,1,-,64.0.0.0/2\nchange,1,+,128.0.0.0/2,192.0.2.3\nchange,1,-,192.0.0.0/2\n";
    let one = "change,1,=,0.0.0.0/0,192.0.2.3\n";
    let low =
        "cert,leaf,0.0.0.0/2,192.0.2.3\ncert,leaf,64.0.0.0/2,192.0.2.2\ncert,join,0.0.0.0/1,0\n";
    let high =
        "cert,leaf,128.0.0.0/2,192.0.2.3\ncert,leaf,192.0.0.0/2,192.0.2.2\ncert,join,128.0.0.0/1,0\n";
    let whole = "cert,join,0.0.0.0/0,1\ncert,bound,4,1\n";
    let due = NoMoves::NotShortest {
        changes: 5,
        bound: 1,
    };
    let many = verdict(alloc, router, printed, &[five, low, high, whole, SIX])??;
    assert!(rt; many.wrong == four(due));
    let few = verdict(alloc, router, printed, &[one, low, high, whole, SIX])??;
    assert!(rt; few.wrong == None);
    Ok(())
}

#[test]
fn texts_are_judged_in_their_order(rt: HostRuntime) -> Result<(), Fail> {
    let alloc = rt.alloc();
    let bad = |text| SameError::BadLine {
        text,
        line: 1,
        why: 2,
    };
    for (router, printed, moves, due) in [
        ("bad\n", "bad\n", "bad\n", bad(1)),
        (ROUTER, "bad\n", "bad\n", bad(2)),
        (ROUTER, PRINTED, "bad\n", bad(3)),
    ] {
        match verdict(alloc, router, printed, &[moves])? {
            Ok(_) => assert!(rt; false),
            Err(error) => assert!(rt; error == due),
        }
    }
    Ok(())
}
