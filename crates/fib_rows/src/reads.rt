//! The reads that a run makes, one by one.

use crate::harness::{FIRST, Given, inputs_of, words_of};
use crate::records::{PEERS, TEN};
use fib_io::{LoggedInputs, MemSink};
use fib_main::{Outcome, Which, run_fib};
use std::alloc::Global;
use std::process::Abort;
use std::test::Fail;

/// A read: of which name, from which place on, and how many octets it gave.
type Row<'a> = (&'a str, u64, Option<usize>);

/// Runs and compares the outcome and the reads.
fn compare_reads<R: Abort + Alloc<A = Global>>(
    rt: &R,
    name: &str,
    given: &Given,
    outcome: Outcome,
    rows: &[Row],
) -> Result<(), Fail> {
    let alloc = rt.alloc();
    let words = words_of(alloc, given.words)?;
    let mut inputs = LoggedInputs::new(alloc, inputs_of(alloc, given)?);
    let mut out = MemSink::new(alloc, given.room, Vec::new(alloc))?;
    let mut err = MemSink::new(alloc, 100, Vec::new(alloc))?;
    let came = run_fib(alloc, &words, &mut inputs, &mut out, &mut err);
    assert_eq!(rt; came, outcome, "{name}");
    let reads = inputs.reads().unwrap_or(&[]);
    assert_eq!(rt; reads.len(), rows.len(), "{name}");
    for (read, row) in reads.iter().zip(rows) {
        assert_eq!(rt; read.name.as_str(), row.0, "{name}");
        assert_eq!(rt; read.at, row.1, "{name}");
        assert_eq!(rt; read.gave, row.2, "{name}");
    }
    Ok(())
}

/// The asks have 18 octets, and the dump 81; a read gives 50 at most.
#[test]
fn reads_in_order(rt: HostRuntime) -> Result<(), Fail> {
    let given = Given {
        dump: &[PEERS, TEN],
        at_most: 50,
        ..FIRST
    };
    let asks = ("asks", 0, Some(18));
    let asks_end = ("asks", 18, Some(0));
    let first = ("dump", 0, Some(50));
    let second = ("dump", 50, Some(31));
    let dump_end = ("dump", 81, Some(0));
    compare_reads(
        &rt,
        "the asks, and then the dump",
        &given,
        Outcome::Done,
        &[asks, asks_end, first, second, dump_end],
    )?;
    let twice = Given {
        words: &["fib", "run", "dump", "--updates", "dump"],
        ..given
    };
    compare_reads(
        &rt,
        "a name that stands for two inputs",
        &twice,
        Outcome::Done,
        &[first, second, dump_end, first, second, dump_end],
    )?;
    let faulty = Given {
        failing_read: 4,
        ..given
    };
    compare_reads(
        &rt,
        "a read that fails",
        &faulty,
        Outcome::ReadFault,
        &[asks, asks_end, first, ("dump", 50, None)],
    )
}

/// Neither the rest of the input that is refused nor the one after it is read.
#[test]
fn reads_up_to_a_refusal(rt: HostRuntime) -> Result<(), Fail> {
    let bad_line = Given {
        asks: b"10.1.2\n::\n",
        at_most: 4,
        ..FIRST
    };
    compare_reads(
        &rt,
        "a line that is no address",
        &bad_line,
        Outcome::BadLine {
            input: Which::Asks,
            line: 1,
            why: 1,
        },
        &[("asks", 0, Some(4)), ("asks", 4, Some(4))],
    )?;
    let bad_record = Given {
        words: &["fib", "run", "dump", "--updates", "updates"],
        dump: &[PEERS, &["00000000 000d 0002 01000001"], TEN],
        at_most: 40,
        ..FIRST
    };
    compare_reads(
        &rt,
        "a header that breaks a rule",
        &bad_record,
        Outcome::Malformed {
            input: Which::Dump,
            number: 1,
            rule: 3,
        },
        &[("dump", 0, Some(40)), ("dump", 40, Some(40))],
    )
}
