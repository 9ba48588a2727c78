//! What a row is given and what it is to come to, over inputs and sinks in memory.

use crate::records::{PEERS, TEN};
use crate::texts::PRINTED_TIE;
use fib_io::{MemInputs, MemSink};
use fib_main::{Outcome, Which, run_fib};
use std::alloc::Global;
use std::process::Abort;
use std::test::Fail;

/// The fields of a record, in hexadecimal digits.
pub type Record<'a> = &'a [&'a str];

/// Rows of text, a list after the other.
pub type Rows<'a> = &'a [&'a [&'a str]];

/// What a run or a check is given. Reads and writes are counted from 1, and 0 fails none.
#[derive(Clone, Copy)]
pub struct Given<'a> {
    pub words: &'a [&'a str],
    pub dump: &'a [Record<'a>],
    // this many octets of the dump are there
    pub dump_len: usize,
    pub updates: &'a [Record<'a>],
    pub asks: &'a [u8],
    pub script: &'a [u8],
    pub printed: Rows<'a>,
    // follows the printed rows
    pub printed_end: &'a [u8],
    pub failing_read: u64,
    pub failing_write: u64,
    pub room: usize,
    // the most octets that a read gives and a write takes
    pub at_most: usize,
}

/// What it is to come to.
#[derive(Clone, Copy)]
pub struct Expected<'a> {
    pub outcome: Outcome,
    pub status: u8,
    pub out: Rows<'a>,
    // this many octets of the rows are there
    pub out_len: usize,
    pub err: &'a [u8],
}

pub const WORDS: &[&str] = &["fib", "run", "dump", "--ask", "asks"];

pub const CHECK_WORDS: &[&str] = &["fib", "check", "printed"];

pub const WITH_UPDATES: &[&str] = &["fib", "run", "--updates=updates", "dump"];

pub const WITH_SNAPSHOTS: &[&str] = &["fib", "run", "dump", "--updates", "updates", "--every", "1"];

/// The words of a run with updates that asks for the fewest changes.
pub const WITH_FEWEST: &[&str] = &["fib", "run", "dump", "--updates", "updates", "--fewest"];

/// No limit to a length.
pub const ALL: usize = usize::MAX;

/// The first run.
pub const FIRST: Given<'static> = Given {
    words: WORDS,
    dump: &[PEERS, TEN],
    dump_len: ALL,
    updates: &[],
    asks: b"10.1.2.3\n11.0.0.1\n",
    script: b"",
    printed: &[],
    printed_end: b"",
    failing_read: 0,
    failing_write: 0,
    room: 10_000,
    at_most: 100_000,
};

/// The check of a printed text that is proved.
pub const CHECK: Given<'static> = Given {
    words: CHECK_WORDS,
    printed: PRINTED_TIE,
    ..FIRST
};

pub const YES: Expected<'static> = Expected {
    outcome: Outcome::Done,
    status: 0,
    out: &[&["yes"]],
    out_len: ALL,
    err: b"",
};

pub const USAGE: Expected<'static> = Expected {
    outcome: Outcome::Usage,
    status: 2,
    out: &[],
    out_len: 0,
    err: b"fib: usage\n",
};

pub const READ_FAULT: Expected<'static> = Expected {
    outcome: Outcome::ReadFault,
    status: 3,
    out: &[],
    out_len: 0,
    err: b"fib: read fault\n",
};

/// The words, in memory.
pub(crate) fn words_of(alloc: Global, texts: &[&str]) -> Result<Vec<String>, Fail> {
    let mut words = Vec::new(alloc);
    for text in texts {
        words.push(String::from_str(alloc, text)?)?;
    }
    Ok(words)
}

/// Adds the octets of hexadecimal digits, two of each; all else is passed over.
pub(crate) fn push_hex(octets: &mut Vec<u8>, text: &str) -> Result<(), Fail> {
    let mut high = None;
    for digit in text.chars().filter_map(|c| c.to_digit(16)) {
        let digit = digit as u8;
        match high.take() {
            None => high = Some(digit),
            Some(high) => octets.push(high << 4 | digit)?,
        }
    }
    Ok(())
}

/// The octets of records, one after another.
pub(crate) fn octets_of(alloc: Global, records: &[Record]) -> Result<Vec<u8>, Fail> {
    let mut octets = Vec::new(alloc);
    for record in records {
        for field in *record {
            push_hex(&mut octets, field)?;
        }
    }
    Ok(octets)
}

/// The text of rows, a line feed after each.
pub(crate) fn text_of(alloc: Global, rows: Rows) -> Result<Vec<u8>, Fail> {
    let mut text = Vec::new(alloc);
    for list in rows {
        for row in *list {
            text.extend_from_slice(row.as_bytes())?;
            text.push(b'\n')?;
        }
    }
    Ok(text)
}

/// The inputs `dump`, `updates`, `asks`, `script` and `printed`; the dump isn't held if it has no records.
pub(crate) fn inputs_of(alloc: Global, given: &Given) -> Result<MemInputs, Fail> {
    let mut names = Vec::new(alloc);
    let asks = Vec::from_slice(alloc, given.asks)?;
    names.push((String::from_str(alloc, "asks")?, asks))?;
    let script = Vec::from_slice(alloc, given.script)?;
    names.push((String::from_str(alloc, "script")?, script))?;
    let updates = octets_of(alloc, given.updates)?;
    names.push((String::from_str(alloc, "updates")?, updates))?;
    let mut printed = text_of(alloc, given.printed)?;
    printed.extend_from_slice(given.printed_end)?;
    names.push((String::from_str(alloc, "printed")?, printed))?;
    if !given.dump.is_empty() {
        let mut dump = octets_of(alloc, given.dump)?;
        dump.truncate(given.dump_len);
        names.push((String::from_str(alloc, "dump")?, dump))?;
    }
    let failing = Vec::from_slice(alloc, &[given.failing_read])?;
    let mut inputs = MemInputs::new(names, failing);
    inputs.at_most(given.at_most.max(1));
    Ok(inputs)
}

/// What a run or a check came to, and what it wrote.
#[derive(Drop)]
pub struct Came {
    pub outcome: Outcome,
    pub out: MemSink,
    pub err: MemSink,
}

/// Runs on these inputs.
pub(crate) fn run_on(alloc: Global, given: &Given, mut inputs: MemInputs) -> Result<Came, Fail> {
    let words = words_of(alloc, given.words)?;
    let failing = Vec::from_slice(alloc, &[given.failing_write])?;
    let mut out = MemSink::new(alloc, given.room, failing)?;
    out.at_most(given.at_most.max(1));
    let mut err = MemSink::new(alloc, 100, Vec::new(alloc))?;
    let outcome = run_fib(alloc, &words, &mut inputs, &mut out, &mut err);
    Ok(Came { outcome, out, err })
}

/// Runs and compares all that comes out.
pub(crate) fn compare<R: Abort + Alloc<A = Global>>(
    rt: &R,
    name: &str,
    given: &Given,
    expected: &Expected,
) -> Result<(), Fail> {
    let alloc = rt.alloc();
    let came = run_on(alloc, given, inputs_of(alloc, given)?)?;
    assert_eq!(rt; came.outcome, expected.outcome, "{name}");
    assert_eq!(rt; came.outcome.status(), expected.status, "{name}");
    let mut text = text_of(alloc, expected.out)?;
    text.truncate(expected.out_len);
    assert_eq!(rt; came.out.written(), text.as_slice(), "{name}");
    assert_eq!(rt; came.err.written(), expected.err, "{name}");
    Ok(())
}

/// A record of this input is refused by this rule.
pub(crate) const fn malformed(input: Which, number: u64, rule: u8) -> Outcome {
    Outcome::Malformed {
        input,
        number,
        rule,
    }
}

/// The rows of a text that begin with one of these words, in their order.
pub(crate) fn rows_named(alloc: Global, text: &[u8], names: &[&str]) -> Result<Vec<u8>, Fail> {
    let mut rows = Vec::new(alloc);
    for row in text.split_inclusive(|octet| *octet == b'\n') {
        if names.iter().any(|name| row.starts_with(name.as_bytes())) {
            rows.extend_from_slice(row)?;
        }
    }
    Ok(rows)
}
