//! Inputs cut anywhere, a fault at each read and each write, and lines that aren't those of a printed text.

use crate::harness::{
    ALL, CHECK, Expected, FIRST, Given, READ_FAULT, compare, inputs_of, malformed, run_on,
};
use crate::texts::ROWS_OF_TEN;
use fib_main::{Outcome, Which};
use std::test::Fail;

/// The reads of the first run if each gives one octet: 18 of the asks and 81 of the dump, and one at the end of each.
const READS: u64 = 101;

/// The octets of its rows.
const TEXT: usize = 792;

/// A text that isn't a printed one: the number of its first bad line, why it is bad, and the line of the refusal.
type BadLine = (&'static [u8], u64, u8, &'static [u8]);

/// A line of each kind that isn't printed.
const BAD_LINES: [BadLine; 10] = [
    (b"foo", 1, 2, b"fib: bad line printed 1 why 2\n"),
    (
        b"route,10.0.0.0/8",
        1,
        3,
        b"fib: bad line printed 1 why 3\n",
    ),
    (
        b"route,10.0.0.0/33,192.0.2.1",
        1,
        4,
        b"fib: bad line printed 1 why 4\n",
    ),
    (
        b"route,10.0.0.1/8,192.0.2.1",
        1,
        4,
        b"fib: bad line printed 1 why 4\n",
    ),
    (
        b"route,10.0.0.0/8,drop",
        1,
        1,
        b"fib: bad line printed 1 why 1\n",
    ),
    (
        b"cert,join,10.0.0.0/7,01",
        1,
        5,
        b"fib: bad line printed 1 why 5\n",
    ),
    (b"cert,bound,5,1", 1, 2, b"fib: bad line printed 1 why 2\n"),
    (
        b"\nroute,10.0.0.0/8,drop\n",
        2,
        1,
        b"fib: bad line printed 2 why 1\n",
    ),
    (
        b"cert,leaf,10.0.0.0/8\n",
        1,
        3,
        b"fib: bad line printed 1 why 3\n",
    ),
    (b"cert,bound,4,01", 1, 5, b"fib: bad line printed 1 why 5\n"),
];

/// The peer table and a route, cut after each of their octets: 33 octets are the peer table, 81 both.
#[test]
fn cut_dumps(rt: HostRuntime) -> Result<(), Fail> {
    // From a length up to another: the record that is cut, and the rule it breaks.
    let cases: [(usize, usize, u64, u8, &[u8]); 4] = [
        (1, 12, 0, 1, b"fib: malformed dump record 0 rule 1\n"),
        (12, 33, 0, 2, b"fib: malformed dump record 0 rule 2\n"),
        (34, 45, 1, 1, b"fib: malformed dump record 1 rule 1\n"),
        (45, 81, 1, 2, b"fib: malformed dump record 1 rule 2\n"),
    ];
    for (from, to, number, rule, err) in cases {
        let refused = Expected {
            outcome: malformed(Which::Dump, number, rule),
            status: 5,
            out: &[],
            out_len: 0,
            err,
        };
        for dump_len in from..to {
            let given = Given { dump_len, ..FIRST };
            compare(&rt, "a cut dump", &given, &refused)?;
        }
    }
    for dump_len in [0, 33, 81] {
        let given = Given { dump_len, ..FIRST };
        let came = run_on(rt.alloc(), &given, inputs_of(rt.alloc(), &given)?)?;
        assert_eq!(rt; came.outcome, Outcome::Done);
    }
    Ok(())
}

#[test]
fn each_read_fails(rt: HostRuntime) -> Result<(), Fail> {
    for failing_read in 1..READS + 1 {
        let given = Given {
            failing_read,
            at_most: 1,
            ..FIRST
        };
        compare(&rt, "a read fails", &given, &READ_FAULT)?;
    }
    let unread = Given {
        failing_read: READS + 1,
        at_most: 1,
        ..FIRST
    };
    let done = Expected {
        outcome: Outcome::Done,
        status: 0,
        out: ROWS_OF_TEN,
        out_len: ALL,
        err: b"",
    };
    compare(&rt, "no read fails", &unread, &done)
}

#[test]
fn each_write_fails(rt: HostRuntime) -> Result<(), Fail> {
    for out_len in 0..TEXT {
        let given = Given {
            failing_write: out_len as u64 + 1,
            at_most: 1,
            ..FIRST
        };
        let unwritten = Expected {
            outcome: Outcome::WriteFault,
            status: 4,
            out: ROWS_OF_TEN,
            out_len,
            err: b"fib: write fault\n",
        };
        compare(&rt, "a write fails", &given, &unwritten)?;
    }
    Ok(())
}

#[test]
fn lines_that_are_not_printed(rt: HostRuntime) -> Result<(), Fail> {
    for (printed_end, line, why, err) in BAD_LINES {
        let expected = Expected {
            outcome: Outcome::BadLine {
                input: Which::Printed,
                line,
                why,
            },
            status: 8,
            out: &[],
            out_len: 0,
            err,
        };
        for at_most in [1, 100_000] {
            let given = Given {
                printed: &[],
                printed_end,
                at_most,
                ..CHECK
            };
            compare(&rt, "a bad line", &given, &expected)?;
        }
    }
    Ok(())
}
