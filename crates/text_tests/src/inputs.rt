//! Checkpoints of a dump of one route, alone and with updates of it.

use crate::save::{NONE, ONE};
use fib_io::MemInputs;
use fib_save::{SaveError, WholeError, save_inputs};
use std::alloc::{AllocError, Global};
use std::test::Fail;

/// A peer table of one peer, and its route of 10.0.0.0/8.
const DUMP: &[u8] = b"\x00\x00\x00\x00\x00\x0d\x00\x01\x00\x00\x00\x15\
    \x00\x00\x00\x00\x00\x00\x00\x01\x02\xc0\x00\x02\x01\xc0\x00\x02\x01\x00\x00\xfb\xf4\
    \x00\x00\x00\x00\x00\x0d\x00\x02\x00\x00\x00\x24\
    \x00\x00\x00\x00\x08\x0a\x00\x01\x00\x00\x00\x00\x00\x00\x00\x14\
    \x40\x01\x01\x00\x40\x02\x06\x02\x01\x00\x00\xfb\xf4\x40\x03\x04\xc0\x00\x02\x01";

/// The peer withdraws and announces 10.0.0.0/8 in one UPDATE, and its session goes from state 6 to 1.
const UPDATES: &[u8] = b"\x00\x00\x00\x00\x00\x10\x00\x04\x00\x00\x00\x43\
    \x00\x00\xfb\xf4\x00\x00\xfb\xff\x00\x00\x00\x01\xc0\x00\x02\x01\xc0\x00\x02\xfe\
    \xff\xff\xff\xff\xff\xff\xff\xff\xff\xff\xff\xff\xff\xff\xff\xff\x00\x2f\x02\
    \x00\x02\x08\x0a\x00\x14\
    \x40\x01\x01\x00\x40\x02\x06\x02\x01\x00\x00\xfb\xf4\x40\x03\x04\xc0\x00\x02\x01\x08\x0a\
    \x00\x00\x00\x00\x00\x10\x00\x05\x00\x00\x00\x18\
    \x00\x00\xfb\xf4\x00\x00\xfb\xff\x00\x00\x00\x01\xc0\x00\x02\x01\xc0\x00\x02\xfe\x00\x06\x00\x01";

/// How many octets the first of the updates has.
const FIRST_UPDATE: usize = 79;

/// These octets as the dump and as the updates; each read gives at most 7 of them.
fn inputs_of(alloc: Global, dump: &[u8], updates: &[u8]) -> Result<MemInputs, AllocError> {
    let mut names = Vec::new(alloc);
    for (name, octets) in [("dump", dump), ("updates", updates)] {
        let name = String::from_str(alloc, name)?;
        names.push((name, Vec::from_slice(alloc, octets)?))?;
    }
    let mut inputs = MemInputs::new(names, Vec::new(alloc));
    inputs.at_most(7);
    Ok(inputs)
}

#[test]
fn saves_what_both_inputs_bring(rt: HostRuntime) -> Result<(), Fail> {
    let alloc = rt.alloc();
    for (dump, updates, saved) in [
        (b"".as_slice(), None, NONE.as_slice()),
        (DUMP, None, ONE.as_slice()),
        (DUMP, Some(&UPDATES[..FIRST_UPDATE]), ONE.as_slice()),
        (DUMP, Some(UPDATES), NONE.as_slice()),
    ] {
        let mut inputs = inputs_of(alloc, dump, updates.unwrap_or(b""))?;
        let names = updates.map(|_| "updates");
        match save_inputs(alloc, &mut inputs, "dump", names) {
            Ok(octets) => assert_eq!(rt; octets.as_slice(), saved),
            Err(error) => assert!(rt; false, "{error}"),
        }
    }
    Ok(())
}

#[test]
fn tells_which_input_is_refused(rt: HostRuntime) -> Result<(), Fail> {
    let alloc = rt.alloc();
    let mut inputs = inputs_of(alloc, DUMP, b"")?;
    for (dump, updates, error) in [
        ("other", "updates", SaveError::Dump(WholeError::Fault)),
        ("dump", "other", SaveError::Updates(WholeError::Fault)),
    ] {
        match save_inputs(alloc, &mut inputs, dump, Some(updates)) {
            Ok(octets) => assert!(rt; false, "{} octets", octets.len()),
            Err(came) => assert_eq!(rt; came, error),
        }
    }
    Ok(())
}
