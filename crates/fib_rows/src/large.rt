//! Large inputs, for which memory suffices: no clause says that it does.

use crate::harness::{FIRST, Given, Record, inputs_of, octets_of, rows_named, run_on, text_of};
use crate::records::{ALL_TO_B, LOST, OF_16_BITS, PEERS};
use fib_addr::{Addr, MOST_TEXT, addr_text};
use fib_io::MemInputs;
use fib_main::Outcome;
use itoa::Buffer;
use std::alloc::Global;
use std::test::Fail;

/// The addresses from 10.0.0.0 on.
fn asks_of(alloc: Global, count: u16) -> Result<Vec<u8>, Fail> {
    let mut asks = Vec::new(alloc);
    for number in 0..count {
        let mut buffer = [0; MOST_TEXT];
        let addr = Addr::v4(0x0a00_0000 + u32::from(number));
        asks.extend_from_slice(addr_text(&mut buffer, &addr))?;
        asks.push(b'\n')?;
    }
    Ok(asks)
}

#[test]
fn two_thousand_asks(rt: HostRuntime) -> Result<(), Fail> {
    let alloc = rt.alloc();
    let asks = asks_of(alloc, 2_000)?;
    let given = Given {
        asks: &asks,
        room: 200_000,
        ..FIRST
    };
    let came = run_on(alloc, &given, inputs_of(alloc, &given)?)?;
    assert_eq!(rt; came.outcome, Outcome::Done);
    let rows = came.out.written().split(|octet| *octet == b'\n');
    let answers = rows.filter(|row| row.starts_with(b"answer,10.0.")
        && row.ends_with(b",192.0.2.1"));
    assert_eq!(rt; answers.count(), 2_000);
    Ok(())
}

/// A dump of the first peer's routes of 0.0.0.0/16, 0.1.0.0/16 and so on.
fn dump_of(alloc: Global, count: u16) -> Result<Vec<u8>, Fail> {
    let mut dump = octets_of(alloc, &[PEERS])?;
    let (before, behind) = OF_16_BITS;
    let before = octets_of(alloc, &[before])?;
    let behind = octets_of(alloc, &[behind])?;
    for number in 0..count {
        dump.extend_from_slice(&before)?;
        dump.extend_from_slice(&number.to_be_bytes())?;
        dump.extend_from_slice(&behind)?;
    }
    Ok(dump)
}

/// A dump of `routes` routes, and updates of these records.
fn large_inputs(alloc: Global, routes: u16, updates: &[Record]) -> Result<MemInputs, Fail> {
    let mut names = Vec::new(alloc);
    names.push((String::from_str(alloc, "dump")?, dump_of(alloc, routes)?))?;
    let updates = octets_of(alloc, updates)?;
    names.push((String::from_str(alloc, "updates")?, updates))?;
    Ok(MemInputs::new(names, Vec::new(alloc)))
}

#[test]
fn a_lost_session_of_20_000_routes(rt: HostRuntime) -> Result<(), Fail> {
    let alloc = rt.alloc();
    let given = Given {
        words: &[
            "fib",
            "run",
            "dump",
            "--updates",
            "updates",
            "--every",
            "20000",
        ],
        room: 4_000_000,
        ..FIRST
    };
    let came = run_on(alloc, &given, large_inputs(alloc, 20_000, &[LOST])?)?;
    assert_eq!(rt; came.outcome, Outcome::Done);
    // A route and a cut of each, and a snapshot after the last.
    let due: &[&str] = &["report,events,40000", "report,routes,0", "report,entries,0"];
    let names = &["report,events", "report,routes", "report,entries"];
    let told = rows_named(alloc, came.out.written(), names)?;
    assert_eq!(rt; told.as_slice(), text_of(alloc, &[due])?.as_slice());
    Ok(())
}

/// With 16 direct bits a route of 0.0.0.0/0 stores a word for each 16 bits that no address of 10.0.0.0/8 begins with.
const WORDS_STORED: usize = 65_536 - 256;

/// The first and the last rows of its steps.
const FIRST_ROWS: &[u8] = b"step,1,prepared\nstep,2,stored\n";

const LAST_ROWS: &[u8] =
    b"step,65281,stored\nstep,65282,nothing\nstep,65283,ended\nstep,65284,open,0\nstep,65285,hop,0,192.0.2.2\n";

#[test]
fn an_update_of_all_addresses_in_steps(rt: HostRuntime) -> Result<(), Fail> {
    let alloc = rt.alloc();
    let mut script = Vec::from_slice(alloc, b"prepare\n")?;
    for _ in 0..WORDS_STORED {
        script.extend_from_slice(b"store\n")?;
    }
    script.extend_from_slice(b"store\nend\nopen 11.0.0.1\ngo 0\n")?;
    let given = Given {
        words: &["fib", "steps", "dump", "updates", "script"],
        updates: &[ALL_TO_B],
        script: &script,
        room: 2_000_000,
        ..FIRST
    };
    let came = run_on(alloc, &given, inputs_of(alloc, &given)?)?;
    assert_eq!(rt; came.outcome, Outcome::Done);
    assert!(rt; came.out.written().starts_with(FIRST_ROWS));
    assert!(rt; came.out.written().ends_with(LAST_ROWS));
    Ok(())
}

/// Adds a row of a run in steps, after those so far.
fn push_row(rows: &mut Vec<u8>, count: &mut u64, row: &[&str]) -> Result<(), Fail> {
    *count = count.saturating_add(1);
    let mut buffer = Buffer::new();
    rows.extend_from_slice(b"step,")?;
    rows.extend_from_slice(buffer.format(*count).as_bytes())?;
    rows.push(b',')?;
    for part in row {
        rows.extend_from_slice(part.as_bytes())?;
    }
    rows.push(b'\n')?;
    Ok(())
}

/// Ten routes are lost with their session: ten events of one store each, and then there is none.
#[test]
fn a_lost_session_in_steps(rt: HostRuntime) -> Result<(), Fail> {
    let alloc = rt.alloc();
    let mut script = Vec::new(alloc);
    let mut due = Vec::new(alloc);
    let mut count = 0;
    for _ in 0..10 {
        script.extend_from_slice(b"prepare\nstore\nstore\nend\n")?;
        for row in ["prepared", "stored", "nothing", "ended"] {
            push_row(&mut due, &mut count, &[row])?;
        }
    }
    script.extend_from_slice(b"prepare\n")?;
    push_row(&mut due, &mut count, &["nothing"])?;
    let mut names = Vec::new(alloc);
    names.push((String::from_str(alloc, "dump")?, dump_of(alloc, 10)?))?;
    names.push((
        String::from_str(alloc, "updates")?,
        octets_of(alloc, &[LOST])?,
    ))?;
    names.push((String::from_str(alloc, "script")?, script))?;
    let given = Given {
        words: &["fib", "steps", "dump", "updates", "script"],
        ..FIRST
    };
    let came = run_on(alloc, &given, MemInputs::new(names, Vec::new(alloc)))?;
    assert_eq!(rt; came.outcome, Outcome::Done);
    assert_eq!(rt; came.out.written(), due.as_slice());
    Ok(())
}
