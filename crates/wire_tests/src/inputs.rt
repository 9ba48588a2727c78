//! A dump of one route, and updates of it that end with a lost session; the dump also cut, and not read.

use fib_io::MemInputs;
use fib_prefix::{Addr, Event, Family, Peer, Prefix, Via};
use mrt_read::{Malformed, WholeError, read_all_events};
use std::alloc::{AllocError, Global};
use std::test::Fail;
use wire_model::Rule;

/// A peer table of one peer, and its route of 10.0.0.0/8.
const DUMP: &[u8] = b"\x00\x00\x00\x00\x00\x0d\x00\x01\x00\x00\x00\x15\
    \x00\x00\x00\x00\x00\x00\x00\x01\x02\xc0\x00\x02\x01\xc0\x00\x02\x01\x00\x00\xfb\xf4\
    \x00\x00\x00\x00\x00\x0d\x00\x02\x00\x00\x00\x24\
    \x00\x00\x00\x00\x08\x0a\x00\x01\x00\x00\x00\x00\x00\x00\x00\x14\
    \x40\x01\x01\x00\x40\x02\x06\x02\x01\x00\x00\xfb\xf4\x40\x03\x04\xc0\x00\x02\x01";

/// The peer withdraws and announces 10.0.0.0/8 in one UPDATE, and its session goes from state 6 to 1.
const UPDATES: &[u8] = b"\x00\x00\x00\x00\x00\x10\x00\x04\x00\x00\x00\x43\
    \x00\x00\xfb\xf4\x00\x00\xfb\xff\x00\x00\x00\x01\xc0\x00\x02\x01\xc0\x00\x02\xfe\
    \xff\xff\xff\xff\xff\xff\xff\xff\xff\xff\xff\xff\xff\xff\xff\xff\x00\x2f\x02\
    \x00\x02\x08\x0a\x00\x14\
    \x40\x01\x01\x00\x40\x02\x06\x02\x01\x00\x00\xfb\xf4\x40\x03\x04\xc0\x00\x02\x01\x08\x0a\
    \x00\x00\x00\x00\x00\x10\x00\x05\x00\x00\x00\x18\
    \x00\x00\xfb\xf4\x00\x00\xfb\xff\x00\x00\x00\x01\xc0\x00\x02\x01\xc0\x00\x02\xfe\x00\x06\x00\x01";

/// An input of these octets, under the name 'input'; each read gives at most 7 of them.
fn input_of(alloc: Global, octets: &[u8]) -> Result<MemInputs, AllocError> {
    let mut names = Vec::new(alloc);
    let name = String::from_str(alloc, "input")?;
    names.push((name, Vec::from_slice(alloc, octets)?))?;
    let mut inputs = MemInputs::new(names, Vec::new(alloc));
    inputs.at_most(7);
    Ok(inputs)
}

#[test]
fn gives_the_events_of_all_records(rt: HostRuntime) -> Result<(), Fail> {
    let alloc = rt.alloc();
    let addr = Addr::v4(0xc000_0201);
    let peer = Peer { addr, asn: 64500 };
    let via = Via { peer, id: 0 };
    let ten = Prefix::from_front(Family::V4, 8, &[10]);
    let route = Event::Announce(via, ten, 1, addr, Some(64500));
    let said = [Event::Withdraw(via, ten), route, Event::Down(peer)];
    for (octets, events) in [
        (b"".as_slice(), &said[..0]),
        (DUMP, &said[1..2]),
        (UPDATES, &said[..]),
    ] {
        let read = read_all_events(alloc, &mut input_of(alloc, octets)?, "input")?;
        assert_eq!(rt; read.as_slice(), events);
    }
    Ok(())
}

#[test]
fn gives_none_where_a_record_is_cut_or_a_read_fails(rt: HostRuntime) -> Result<(), Fail> {
    let alloc = rt.alloc();
    let mut cut = input_of(alloc, &DUMP[..DUMP.len() - 1])?;
    let malformed = Malformed {
        number: 1,
        rule: Rule::BodyCut,
    };
    for (name, error) in [
        ("input", WholeError::Malformed(malformed)),
        ("other", WholeError::Fault),
    ] {
        match read_all_events(alloc, &mut cut, name) {
            Ok(events) => assert!(rt; false, "{} events", events.len()),
            Err(came) => assert_eq!(rt; came, error),
        }
    }
    Ok(())
}
