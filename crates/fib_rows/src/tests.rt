//! Rows over inputs and sinks in memory: what goes in, and the outcome, the status and all that comes out.

use crate::harness::ALL;
use crate::harness::CHECK;
use crate::harness::Expected;
use crate::harness::FIRST;
use crate::harness::Given;
use crate::harness::READ_FAULT;
use crate::harness::Record;
use crate::harness::Rows;
use crate::harness::USAGE;
use crate::harness::WITH_FEWEST;
use crate::harness::WITH_SNAPSHOTS;
use crate::harness::WITH_UPDATES;
use crate::harness::WORDS;
use crate::harness::YES;
use crate::harness::compare;
use crate::harness::inputs_of;
use crate::harness::malformed;
use crate::harness::rows_named;
use crate::harness::run_on;
use crate::harness::text_of;
use crate::records::ALL_AND_HALVES;
use crate::records::ALL_AND_QUARTERS;
use crate::records::ALL_TO_C;
use crate::records::ALL_TWICE;
use crate::records::ALL_WITHDRAWN;
use crate::records::GONE_AND_BACK;
use crate::records::HALVES;
use crate::records::LONG_HEADER;
use crate::records::LONGER;
use crate::records::LOST;
use crate::records::LOWER_HALF;
use crate::records::ONE_ADDRESS;
use crate::records::ONE_OF_SIX;
use crate::records::OTHER;
use crate::records::PATH_CUT;
use crate::records::PATH_WITHDRAWN;
use crate::records::PEERS;
use crate::records::PREFIX_OF_33;
use crate::records::QUARTER_WITHDRAWN;
use crate::records::QUARTERS;
use crate::records::SET_OF_THREE;
use crate::records::SEVEN_EIGHTHS;
use crate::records::SHORT_HOP;
use crate::records::SIX;
use crate::records::TEN;
use crate::records::TEN_LONG_ORIGIN;
use crate::records::TEN_OF_TWO;
use crate::records::TEN_ONE;
use crate::records::TEN_ONE_BY_A;
use crate::records::TEN_SHORT_SEGMENT;
use crate::records::TEN_TO_A;
use crate::records::TEN_TO_B;
use crate::records::TEN_TWICE;
use crate::records::TEN_WRONG_SEGMENT;
use crate::records::TOO_WIDE;
use crate::records::TWO_PATHS;
use crate::records::TWO_PEERS;
use crate::records::UPPER_HALF;
use crate::records::WIDE_WITHDRAWN;
use crate::records::WITH_A_GAP;
use crate::records::WRONG_LENGTH;
use crate::records::WRONG_SEGMENT;
use crate::records::WRONG_SEGMENT_AND_FLAGS;
use crate::texts::CERTIFICATE_OF_NONE;
use crate::texts::PRINTED_TIE;
use crate::texts::REPORT_OF_MADE;
use crate::texts::REPORT_OF_ONE_MADE;
use crate::texts::ROWS_IN_STEADY_ORDER;
use crate::texts::ROWS_OF_BOTH;
use crate::texts::ROWS_OF_DROP;
use crate::texts::ROWS_OF_DROP_BEFORE_HOP;
use crate::texts::ROWS_OF_FEWEST;
use crate::texts::ROWS_OF_GONE_AND_BACK;
use crate::texts::ROWS_OF_KEPT_HOP;
use crate::texts::ROWS_OF_LATER_SNAPSHOT;
use crate::texts::ROWS_OF_LONGER;
use crate::texts::ROWS_OF_LOST;
use crate::texts::ROWS_OF_LOST_PATHS;
use crate::texts::ROWS_OF_MEET;
use crate::texts::ROWS_OF_NO_CHANGE;
use crate::texts::ROWS_OF_NO_SUCH_PATH;
use crate::texts::ROWS_OF_OTHER_PATH;
use crate::texts::ROWS_OF_REDUNDANT;
use crate::texts::ROWS_OF_REPAIR;
use crate::texts::ROWS_OF_SET;
use crate::texts::ROWS_OF_SIX;
use crate::texts::ROWS_OF_SNAPSHOT;
use crate::texts::ROWS_OF_TEN;
use crate::texts::ROWS_OF_TIE;
use crate::texts::ROWS_OF_TREATED;
use crate::texts::TIE_BOUNDS;
use crate::texts::TIE_LEAST;
use crate::texts::TIE_LEAVES;
use crate::texts::TIE_ROUTES;
use crate::texts::WRONG_JOIN;
use crate::texts::WRONG_LEAST;
use fib_addr::Addr;
use fib_addr::Family;
use fib_addr::Hop;
use fib_addr::Prefix;
use fib_io::MemInputs;
use fib_main::No;
use fib_main::Outcome;
use fib_main::Which;
use made_input::generate;
use std::alloc::Global;
use std::process::Abort;
use std::test::Fail;

/// Words that are no command.
const NO_COMMANDS: [&[&str]; 21] = [
    &[],
    &["fib", "run"],
    &["fib", "run", "dump", "--direct", "19"],
    &["fib", "run", "dump", "--direct", "05"],
    &["fib", "run", "dump", "--nodes", "25"],
    &["fib", "run", "dump", "--nodes", "+5"],
    &["fib", "run", "dump", "--leaves", "27"],
    &["fib", "run", "dump", "--every", "4294967296"],
    &["fib", "run", "dump", "--every", "18446744073709551616"],
    &["fib", "make", "0", "--seed", "1"],
    &["fib", "make", "200001", "--seed", "1"],
    &["fib", "make", "1", "--seed", "18446744073709551616"],
    &["fib", "make", "1", "--seed", "01"],
    &["fib", "make", "1"],
    &["fib", "make", "--seed", "1"],
    &["fib", "run", "-dump", "--ask", "asks"],
    &["fib", "run", "dump", "--ask", "asks", "more"],
    &["fib", "help"],
    &["fib", "run", "--help"],
    &["fib", "check"],
    &["fib", "check", "printed", "more"],
];

#[test]
fn rows_of_routes_and_updates(rt: HostRuntime) -> Result<(), Fail> {
    let updated = Given {
        words: WITH_UPDATES,
        ..FIRST
    };
    let cases = [
        ("first run", FIRST, ROWS_OF_TEN),
        (
            "an octet at a time",
            Given {
                at_most: 1,
                ..FIRST
            },
            ROWS_OF_TEN,
        ),
        (
            "nested prefixes, out of order",
            Given {
                dump: &[PEERS, TEN_ONE, OTHER, TEN],
                asks: b"10.1.2.3\r\n\n10.2.0.1",
                ..FIRST
            },
            ROWS_OF_BOTH,
        ),
        (
            "lines that reads cut, before a line feed and before a carriage return",
            Given {
                dump: &[PEERS, TEN_ONE, OTHER, TEN],
                asks: b"10.1.2.3\r\n\n10.2.0.1",
                at_most: 8,
                ..FIRST
            },
            ROWS_OF_BOTH,
        ),
        (
            "IPv6",
            Given {
                dump: &[PEERS, SIX],
                asks: b"2001:db8::5\n::\n",
                ..FIRST
            },
            ROWS_OF_SIX,
        ),
        (
            "a longer path",
            Given {
                dump: &[TWO_PEERS, TEN_TWICE],
                updates: &[LONGER],
                ..updated
            },
            ROWS_OF_LONGER,
        ),
        (
            "a set counts as one",
            Given {
                dump: &[TWO_PEERS, SET_OF_THREE],
                asks: b"",
                ..FIRST
            },
            ROWS_OF_SET,
        ),
        (
            "withdrawn and announced",
            Given {
                updates: &[GONE_AND_BACK],
                ..updated
            },
            ROWS_OF_GONE_AND_BACK,
        ),
        (
            "a session is lost",
            Given {
                dump: &[PEERS, TEN_ONE, TEN],
                updates: &[LOST, LOST],
                ..updated
            },
            ROWS_OF_LOST,
        ),
    ];
    for (name, given, out) in cases {
        let done = Expected {
            outcome: Outcome::Done,
            status: 0,
            out,
            out_len: ALL,
            err: b"",
        };
        compare(&rt, name, &given, &done)?;
    }
    Ok(())
}

#[test]
fn rows_of_kept_and_least_tables(rt: HostRuntime) -> Result<(), Fail> {
    let given = Given {
        words: WITH_UPDATES,
        ..FIRST
    };
    let cases = [
        (
            "a tie of hops",
            Given {
                dump: &[TWO_PEERS, QUARTERS],
                ..given
            },
            ROWS_OF_TIE,
        ),
        (
            "a drop entry",
            Given {
                dump: &[TWO_PEERS, SEVEN_EIGHTHS],
                ..given
            },
            ROWS_OF_DROP,
        ),
        (
            "two halves meet",
            Given {
                dump: &[TWO_PEERS, HALVES],
                ..given
            },
            ROWS_OF_MEET,
        ),
        (
            "a redundant prefix",
            Given {
                dump: &[PEERS, TEN, TEN_ONE_BY_A],
                ..given
            },
            ROWS_OF_REDUNDANT,
        ),
        (
            "a repair stays within its prefix",
            Given {
                dump: &[TWO_PEERS, LOWER_HALF],
                updates: &[UPPER_HALF],
                ..given
            },
            ROWS_OF_REPAIR,
        ),
        (
            "a snapshot after each event",
            Given {
                words: WITH_SNAPSHOTS,
                dump: &[TWO_PEERS, LOWER_HALF],
                updates: &[UPPER_HALF],
                ..given
            },
            ROWS_OF_SNAPSHOT,
        ),
        (
            "changes in steady order",
            Given {
                words: &[
                    "fib",
                    "run",
                    "--steady",
                    "dump",
                    "--updates",
                    "updates",
                    "--every",
                    "1",
                ],
                dump: &[TWO_PEERS, QUARTERS],
                updates: &[QUARTER_WITHDRAWN],
                ..given
            },
            ROWS_IN_STEADY_ORDER,
        ),
        (
            "the fewest changes",
            Given {
                words: WITH_FEWEST,
                dump: &[PEERS, ALL_AND_QUARTERS],
                updates: &[ALL_TO_C],
                ..given
            },
            ROWS_OF_FEWEST,
        ),
        (
            "no change is the fewest",
            Given {
                words: WITH_FEWEST,
                dump: &[PEERS, ALL_AND_HALVES],
                updates: &[ALL_WITHDRAWN],
                ..given
            },
            ROWS_OF_NO_CHANGE,
        ),
        (
            "a snapshot after two events",
            Given {
                words: &["fib", "run", "dump", "--updates", "updates", "--every", "2"],
                dump: &[TWO_PEERS, LOWER_HALF],
                updates: &[UPPER_HALF, UPPER_HALF],
                ..given
            },
            ROWS_OF_LATER_SNAPSHOT,
        ),
        (
            "the old hop is kept",
            Given {
                dump: &[TWO_PEERS, ALL_TWICE],
                updates: &[UPPER_HALF],
                ..given
            },
            ROWS_OF_KEPT_HOP,
        ),
        (
            "none comes before a hop",
            Given {
                dump: &[TWO_PEERS, WITH_A_GAP],
                ..given
            },
            ROWS_OF_DROP_BEFORE_HOP,
        ),
    ];
    for (name, given, out) in cases {
        let done = Expected {
            outcome: Outcome::Done,
            status: 0,
            out,
            out_len: ALL,
            err: b"",
        };
        compare(&rt, name, &given, &done)?;
    }
    Ok(())
}

#[test]
fn words_that_are_no_command(rt: HostRuntime) -> Result<(), Fail> {
    for words in NO_COMMANDS {
        // Nothing is read: the first read would fail.
        let given = Given {
            words,
            failing_read: 1,
            ..FIRST
        };
        compare(&rt, "usage", &given, &USAGE)?;
    }
    Ok(())
}

/// The peer table of 33 octets, and a header of 12 whose Length is over the limit: no read is made once it is there.
#[test]
fn no_read_after_a_refusal(rt: HostRuntime) -> Result<(), Fail> {
    let given = Given {
        words: &["fib", "run", "dump"],
        dump: &[PEERS, &["00000000 000d 0002 01000001"]],
        at_most: 1,
        ..FIRST
    };
    let refused = Given {
        failing_read: 46,
        ..given
    };
    let malformed = Expected {
        outcome: Outcome::Malformed {
            input: Which::Dump,
            number: 1,
            rule: 3,
        },
        status: 5,
        out: &[],
        out_len: 0,
        err: b"fib: malformed dump record 1 rule 3\n",
    };
    compare(&rt, "45 octets were read", &refused, &malformed)?;
    let unread = Given {
        failing_read: 45,
        ..given
    };
    compare(&rt, "the 45th read fails", &unread, &READ_FAULT)
}

/// A line of asks is judged once it has its line feed, and the last at the input's end: no read is made after it. The dump
/// isn't held, and isn't read.
#[test]
fn no_read_after_a_bad_line(rt: HostRuntime) -> Result<(), Fail> {
    // The asks, the read that makes the line whole, and the line.
    let cases: [(&str, &[u8], u64, u64, &[u8]); 3] = [
        (
            "a line before others",
            b"10.1.2\n10.1.2.3\n",
            7,
            1,
            b"fib: bad line asks 1 why 1\n",
        ),
        (
            "a line behind empty ones",
            b"\n\r\n::1 \n::\n",
            8,
            3,
            b"fib: bad line asks 3 why 1\n",
        ),
        (
            "a last line with a carriage return",
            b"::\n::1\r",
            8,
            2,
            b"fib: bad line asks 2 why 1\n",
        ),
    ];
    for (name, asks, whole, line, err) in cases {
        let given = Given {
            dump: &[],
            asks,
            failing_read: whole + 1,
            at_most: 1,
            ..FIRST
        };
        let refused = Expected {
            outcome: Outcome::BadLine {
                input: Which::Asks,
                line,
                why: 1,
            },
            status: 8,
            out: &[],
            out_len: 0,
            err,
        };
        compare(&rt, name, &given, &refused)?;
        let unread = Given {
            failing_read: whole,
            ..given
        };
        compare(&rt, name, &unread, &READ_FAULT)?;
    }
    Ok(())
}

#[test]
fn faults(rt: HostRuntime) -> Result<(), Fail> {
    for failing_read in [1, 2, 3, 4] {
        for words in [WORDS, WITH_UPDATES] {
            let given = Given {
                words,
                updates: &[LONGER],
                failing_read,
                ..FIRST
            };
            compare(&rt, "a read fails", &given, &READ_FAULT)?;
        }
    }
    let cases = [(1, 1000, 0), (0, 10, 10), (2, 10, 10), (0, 0, 0)];
    for (failing_write, room, written) in cases {
        let given = Given {
            failing_write,
            room,
            ..FIRST
        };
        let expected = Expected {
            outcome: Outcome::WriteFault,
            status: 4,
            out: ROWS_OF_TEN,
            out_len: written,
            err: b"fib: write fault\n",
        };
        compare(&rt, "a write fails", &given, &expected)?;
    }
    Ok(())
}

#[test]
fn malformed_records(rt: HostRuntime) -> Result<(), Fail> {
    let cases: [(&str, &[Record], usize, &[Record], Outcome, &[u8]); 12] = [
        (
            "a peer index that isn't there",
            &[PEERS, TOO_WIDE],
            ALL,
            &[],
            malformed(Which::Dump, 1, 7),
            b"fib: malformed dump record 1 rule 7\n",
        ),
        (
            "a prefix of 33 bits",
            &[PEERS, PREFIX_OF_33],
            ALL,
            &[],
            malformed(Which::Dump, 1, 6),
            b"fib: malformed dump record 1 rule 6\n",
        ),
        (
            "a Length over the limit",
            &[LONG_HEADER],
            ALL,
            &[],
            malformed(Which::Dump, 0, 3),
            b"fib: malformed dump record 0 rule 3\n",
        ),
        (
            "no peer table",
            &[TEN],
            ALL,
            &[],
            malformed(Which::Dump, 0, 5),
            b"fib: malformed dump record 0 rule 5\n",
        ),
        (
            "a message's Length",
            &[PEERS, TEN],
            ALL,
            &[WRONG_LENGTH],
            malformed(Which::Updates, 0, 13),
            b"fib: malformed updates record 0 rule 13\n",
        ),
        (
            "withdrawn routes that take an octet more",
            &[PEERS, TEN],
            ALL,
            &[WIDE_WITHDRAWN],
            malformed(Which::Updates, 0, 14),
            b"fib: malformed updates record 0 rule 14\n",
        ),
        (
            "a cut path withdrawn",
            &[PEERS, TWO_PATHS],
            ALL,
            &[PATH_CUT],
            malformed(Which::Updates, 0, 14),
            b"fib: malformed updates record 0 rule 14\n",
        ),
        (
            "wrong flags after all that is treated",
            &[PEERS, TEN],
            ALL,
            &[WRONG_SEGMENT_AND_FLAGS],
            malformed(Which::Updates, 0, 9),
            b"fib: malformed updates record 0 rule 9\n",
        ),
        (
            "a wrong segment in a RIB",
            &[PEERS, TEN_WRONG_SEGMENT],
            ALL,
            &[],
            malformed(Which::Dump, 1, 10),
            b"fib: malformed dump record 1 rule 10\n",
        ),
        (
            "two entries of which one is there",
            &[PEERS, TEN_OF_TWO],
            ALL,
            &[],
            malformed(Which::Dump, 1, 8),
            b"fib: malformed dump record 1 rule 8\n",
        ),
        (
            "an ORIGIN longer than its list",
            &[PEERS, TEN_LONG_ORIGIN],
            ALL,
            &[],
            malformed(Which::Dump, 1, 9),
            b"fib: malformed dump record 1 rule 9\n",
        ),
        (
            "a segment of two AS numbers of which one is there",
            &[PEERS, TEN_SHORT_SEGMENT],
            ALL,
            &[],
            malformed(Which::Dump, 1, 10),
            b"fib: malformed dump record 1 rule 10\n",
        ),
    ];
    for (name, dump, dump_len, updates, outcome, err) in cases {
        let given = Given {
            words: WITH_UPDATES,
            dump,
            dump_len,
            updates,
            ..FIRST
        };
        let expected = Expected {
            outcome,
            status: 5,
            out: &[],
            out_len: 0,
            err,
        };
        compare(&rt, name, &given, &expected)?;
    }
    Ok(())
}

#[test]
fn a_bad_ask(rt: HostRuntime) -> Result<(), Fail> {
    // The dump isn't held, and isn't read.
    let given = Given {
        dump: &[],
        asks: b"10.1.2.3\n10.1.2\n",
        ..FIRST
    };
    let expected = Expected {
        outcome: Outcome::BadLine {
            input: Which::Asks,
            line: 2,
            why: 1,
        },
        status: 8,
        out: &[],
        out_len: 0,
        err: b"fib: bad line asks 2 why 1\n",
    };
    compare(&rt, "a bad ask", &given, &expected)
}

#[test]
fn certificates_that_are_right(rt: HostRuntime) -> Result<(), Fail> {
    let cases: [(&str, Rows); 3] = [
        ("a whole text", PRINTED_TIE),
        ("no routes", &[CERTIFICATE_OF_NONE]),
        (
            "kinds in another order",
            &[
                TIE_LEAST,
                TIE_LEAVES,
                &[""],
                TIE_BOUNDS,
                &["\r"],
                TIE_ROUTES,
            ],
        ),
    ];
    for (name, printed) in cases {
        for at_most in [1, 100_000] {
            let given = Given {
                printed,
                at_most,
                ..CHECK
            };
            compare(&rt, name, &given, &YES)?;
        }
    }
    Ok(())
}

#[test]
fn certificates_that_are_wrong(rt: HostRuntime) -> Result<(), Fail> {
    let cases: [(&str, Rows, No, &str); 8] = [
        (
            "an entry too many",
            &[
                TIE_ROUTES,
                TIE_LEAST,
                &["least,64.0.0.0/3,192.0.2.2"],
                TIE_LEAVES,
                TIE_BOUNDS,
            ],
            No::NotLeast {
                family: Family::V4,
                entries: 4,
                bound: 3,
            },
            "no,notleast,4,4,3",
        ),
        (
            "another hop in an entry",
            &[TIE_ROUTES, WRONG_LEAST, TIE_LEAVES, TIE_BOUNDS],
            No::NotSame {
                addr: Addr::v4(0xc000_0000),
                want: Hop(2),
                has: Hop(1),
            },
            "no,notsame,192.0.0.0,192.0.2.2,192.0.2.1",
        ),
        (
            "a join that says too little",
            &[TIE_ROUTES, TIE_LEAST, TIE_LEAVES, WRONG_JOIN],
            No::JoinWrong {
                row: 7,
                said: 1,
                due: 2,
            },
            "no,joinwrong,7,1,2",
        ),
        ("nothing", &[], No::Shape { row: 1 }, "no,shape,1"),
        (
            "a leaf with another hop",
            &[&[
                "cert,leaf,0.0.0.0/0,192.0.2.1",
                "cert,bound,4,0",
                "cert,leaf,::/0,none",
                "cert,bound,6,0",
            ]],
            No::LeafWrong { row: 1 },
            "no,leafwrong,1",
        ),
        (
            "a row after the last bound",
            &[CERTIFICATE_OF_NONE, &["cert,leaf,::/0,none"]],
            No::Shape { row: 5 },
            "no,shape,5",
        ),
        (
            "a route that stands twice",
            &[&["route,10.0.0.0/8,192.0.2.1", "route,10.0.0.0/8,192.0.2.1"]],
            No::Twice {
                prefix: Prefix::new(&Addr::v4(0x0a00_0000), 8),
            },
            "no,twice,10.0.0.0/8",
        ),
        (
            "an entry of an address without a route",
            &[&["least,2001:db8::/32,2001:db8::1"]],
            No::NotSame {
                addr: Addr {
                    family: Family::V6,
                    bits: 0x2001_0db8_0000_0000_0000_0000_0000_0000,
                },
                want: Hop::NONE,
                has: Hop(1),
            },
            "no,notsame,2001:db8::,none,2001:db8::1",
        ),
    ];
    for (name, printed, no, out) in cases {
        let expected = Expected {
            outcome: Outcome::CheckNo(no),
            status: 1,
            out: &[&[out]],
            out_len: ALL,
            err: b"fib: no\n",
        };
        compare(&rt, name, &Given { printed, ..CHECK }, &expected)?;
    }
    Ok(())
}

#[test]
fn faults_of_a_check(rt: HostRuntime) -> Result<(), Fail> {
    let unread = Given {
        failing_read: 2,
        ..CHECK
    };
    compare(&rt, "a read fails", &unread, &READ_FAULT)?;
    let cases: [(Rows, &str); 2] = [(PRINTED_TIE, "yes"), (&[], "no")];
    for (printed, out) in cases {
        let unwritten = Given {
            printed,
            room: 2,
            ..CHECK
        };
        let expected = Expected {
            outcome: Outcome::WriteFault,
            status: 4,
            out: &[&[out]],
            out_len: 2,
            err: b"fib: write fault\n",
        };
        compare(&rt, "a write fails", &unwritten, &expected)?;
    }
    Ok(())
}

#[test]
fn rows_of_paths_and_treated_messages(rt: HostRuntime) -> Result<(), Fail> {
    let paths: &[Record] = &[PEERS, TWO_PATHS];
    let ten: &[Record] = &[PEERS, TEN];
    let cases = [
        (
            "a path is withdrawn",
            paths,
            PATH_WITHDRAWN,
            ROWS_OF_OTHER_PATH,
        ),
        ("all paths are lost", paths, LOST, ROWS_OF_LOST_PATHS),
        ("no such path", ten, PATH_WITHDRAWN, ROWS_OF_NO_SUCH_PATH),
        ("a short next hop", ten, SHORT_HOP, ROWS_OF_TREATED),
        ("a wrong segment", ten, WRONG_SEGMENT, ROWS_OF_TREATED),
    ];
    for (name, dump, update, out) in cases {
        let given = Given {
            words: WITH_UPDATES,
            dump,
            updates: &[update],
            ..FIRST
        };
        let done = Expected {
            outcome: Outcome::Done,
            status: 0,
            out,
            out_len: ALL,
            err: b"",
        };
        compare(&rt, name, &given, &done)?;
    }
    Ok(())
}

/// Runs and compares the rows of lookups' visits and of nodes and leaves.
fn compare_visits<R: Abort + Alloc<A = Global>>(
    rt: &R,
    given: &Given,
    rows: &[&str],
) -> Result<(), Fail> {
    let alloc = rt.alloc();
    let came = run_on(alloc, given, inputs_of(alloc, given)?)?;
    assert_eq!(rt; came.outcome, Outcome::Done);
    let names: &[&str] = &["visits", "report,nodes", "report,leaves"];
    let told = rows_named(alloc, came.out.written(), names)?;
    let expected = text_of(alloc, &[rows])?;
    assert_eq!(rt; told.as_slice(), expected.as_slice());
    Ok(())
}

#[test]
fn visits_and_needs(rt: HostRuntime) -> Result<(), Fail> {
    let asks: &[u8] = b"10.1.2.3\n11.0.0.1\n192.0.0.1\n";
    let cases: [(&[&str], &[Record], &[u8], &[&str]); 7] = [
        (
            &["fib", "run", "dump", "--ask", "asks", "--direct", "0"],
            &[PEERS, TEN],
            asks,
            &[
                "visits,10.1.2.3,2",
                "visits,11.0.0.1,2",
                "visits,192.0.0.1,1",
                "report,nodes,2",
                "report,leaves,5",
            ],
        ),
        (
            &[
                "fib", "run", "dump", "--direct", "0", "--nodes", "1", "--leaves", "3",
            ],
            &[PEERS, TEN],
            b"",
            &["report,nodes,2", "report,leaves,5"],
        ),
        (
            &["fib", "run", "dump", "--ask", "asks", "--direct", "16"],
            &[PEERS, TEN],
            asks,
            &[
                "visits,10.1.2.3,0",
                "visits,11.0.0.1,0",
                "visits,192.0.0.1,0",
                "report,nodes,0",
                "report,leaves,0",
            ],
        ),
        (
            WORDS,
            &[PEERS, ONE_ADDRESS],
            b"10.0.0.1\n",
            &["visits,10.0.0.1,3", "report,nodes,3", "report,leaves,6"],
        ),
        (
            &["fib", "run", "dump", "--ask", "asks", "--direct=18"],
            &[PEERS, ONE_ADDRESS],
            b"10.0.0.1\n",
            &["visits,10.0.0.1,3", "report,nodes,3", "report,leaves,6"],
        ),
        (
            WORDS,
            &[PEERS, ONE_OF_SIX],
            b"2001:db8::1\n",
            &[
                "visits,2001:db8::1,19",
                "report,nodes,19",
                "report,leaves,22",
            ],
        ),
        (
            &["fib", "run", "dump", "--ask", "asks", "--direct", "18"],
            &[PEERS, ONE_OF_SIX],
            b"2001:db8::1\n",
            &[
                "visits,2001:db8::1,19",
                "report,nodes,19",
                "report,leaves,22",
            ],
        ),
    ];
    for (words, dump, asks, rows) in cases {
        let given = Given {
            words,
            dump,
            asks,
            ..FIRST
        };
        compare_visits(&rt, &given, rows)?;
    }
    Ok(())
}

#[test]
fn a_hundred_updates_of_one_prefix(rt: HostRuntime) -> Result<(), Fail> {
    let alloc = rt.alloc();
    let mut updates: Vec<Record> = Vec::new(alloc);
    for _ in 0..50 {
        updates.push(TEN_TO_B)?;
        updates.push(TEN_TO_A)?;
    }
    let given = Given {
        words: &[
            "fib",
            "run",
            "dump",
            "--updates",
            "updates",
            "--every",
            "1",
            "--direct",
            "0",
            "--nodes",
            "1",
            "--leaves",
            "3",
        ],
        updates: &updates,
        room: 100_000,
        ..FIRST
    };
    let came = run_on(alloc, &given, inputs_of(alloc, &given)?)?;
    assert_eq!(&rt; came.outcome, Outcome::Done);
    let text = came.out.written();
    let changes = text
        .split(|octet| *octet == b'\n')
        .filter(|row| row.starts_with(b"change,") && row.contains(&b'='))
        .count();
    assert_eq!(&rt; changes, 100);
    let names = &["report,events,", "report,nodes,", "report,leaves,"];
    let told = rows_named(alloc, text, names)?;
    let expected: &[&str] = &["report,events,101", "report,nodes,2", "report,leaves,5"];
    assert_eq!(&rt; told.as_slice(), text_of(alloc, &[expected])?.as_slice());
    Ok(())
}

#[test]
fn tries_that_are_too_small(rt: HostRuntime) -> Result<(), Fail> {
    let routes: &[Record] = &[PEERS, TEN];
    let six: &[Record] = &[PEERS, SIX];
    let cases: [(&[&str], &[Record], (u64, u8, u64, u64), &[u8]); 6] = [
        (
            &["fib", "run", "dump", "--direct", "0", "--nodes", "0"],
            routes,
            (0, 0, 2, 1),
            b"fib: trie full at event 0: arena 0 needs 2 of 1\n",
        ),
        (
            &[
                "fib", "run", "dump", "--direct", "0", "--nodes", "1", "--leaves", "2",
            ],
            routes,
            (0, 1, 5, 4),
            b"fib: trie full at event 0: arena 1 needs 5 of 4\n",
        ),
        (
            &["fib", "run", "dump", "--nodes", "1"],
            six,
            (0, 2, 3, 2),
            b"fib: trie full at event 0: arena 2 needs 3 of 2\n",
        ),
        (
            &["fib", "run", "dump", "--leaves", "2"],
            six,
            (0, 3, 6, 4),
            b"fib: trie full at event 0: arena 3 needs 6 of 4\n",
        ),
        (
            // The load is judged before the updates are read.
            &[
                "fib",
                "run",
                "dump",
                "--direct",
                "0",
                "--nodes",
                "0",
                "--updates",
                "none",
            ],
            routes,
            (0, 0, 2, 1),
            b"fib: trie full at event 0: arena 0 needs 2 of 1\n",
        ),
        (
            // It is withdrawn, which changes nothing, and then announced.
            &[
                "fib",
                "run",
                "dump",
                "--direct",
                "0",
                "--nodes",
                "0",
                "--updates",
                "updates",
            ],
            &[PEERS],
            (2, 0, 2, 1),
            b"fib: trie full at event 2: arena 0 needs 2 of 1\n",
        ),
    ];
    for (words, dump, (event, arena, need, have), err) in cases {
        let given = Given {
            words,
            dump,
            updates: &[GONE_AND_BACK],
            ..FIRST
        };
        let full = Expected {
            outcome: Outcome::TrieFull {
                event,
                need,
                have,
                arena,
            },
            status: 6,
            out: &[],
            out_len: 0,
            err,
        };
        compare(&rt, "a trie is full", &given, &full)?;
    }
    Ok(())
}

#[test]
fn made_inputs(rt: HostRuntime) -> Result<(), Fail> {
    let cases: [(&[&str], &[&str]); 2] = [
        (&["fib", "make", "1", "--seed", "0"], REPORT_OF_ONE_MADE),
        (&["fib", "make", "200", "--seed", "7"], REPORT_OF_MADE),
    ];
    for (words, rows) in cases {
        let done = Expected {
            outcome: Outcome::Done,
            status: 0,
            out: &[rows],
            out_len: ALL,
            err: b"",
        };
        // Nothing is read.
        let given = Given {
            words,
            failing_read: 1,
            ..FIRST
        };
        compare(&rt, "made inputs", &given, &done)?;
    }
    Ok(())
}

#[test]
fn made_inputs_are_run_alike(rt: HostRuntime) -> Result<(), Fail> {
    let alloc = rt.alloc();
    let (dump, updates) = generate(alloc, 200, 7)?;
    let mut names = Vec::new(alloc);
    names.push((String::from_str(alloc, "dump")?, dump))?;
    names.push((String::from_str(alloc, "updates")?, updates))?;
    let given = Given {
        words: &[
            "fib",
            "run",
            "dump",
            "--updates",
            "updates",
            "--every",
            "1000",
            "--direct",
            "16",
            "--nodes",
            "20",
            "--leaves",
            "22",
        ],
        room: 1_000_000,
        ..FIRST
    };
    let came = run_on(alloc, &given, MemInputs::new(names, Vec::new(alloc)))?;
    assert_eq!(rt; came.outcome, Outcome::Done);
    let report = rows_named(alloc, came.out.written(), &["report"])?;
    assert_eq!(rt;
        report.as_slice(),
        text_of(alloc, &[REPORT_OF_MADE])?.as_slice()
    );
    Ok(())
}
