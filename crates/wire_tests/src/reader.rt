//! An input of six records in pieces of several sizes, and inputs that end or break off wrongly.
ghost use Rattle.std.specs.Prelude.{◌+◌, ◌<◌, ◌≤◌, length, OnOk};
ghost use Rattle.mrt_read.specs.Standing.{ReaderIsUsedUp, reader_left, reader_records};

use fib_prefix::{Addr, Event, Family, Peer, Prefix, Via};
use mrt_read::{EventsError, Malformed, Reader};
use std::alloc::Global;
use std::test::Fail;
use wire_model::Rule;

/// A table of one peer, 192.0.2.1 of AS 64500.
const PEERS: &[u8] = b"\x00\x00\x00\x00\x00\x0d\x00\x01\x00\x00\x00\x15\
    \x00\x00\x00\x00\x00\x00\x00\x01\x02\xc0\x00\x02\x01\xc0\x00\x02\x01\x00\x00\xfb\xf4";

/// 10.0.0.0/8 by 192.0.2.1.
const ROUTE: &[u8] = b"\x00\x00\x00\x00\x00\x0d\x00\x02\x00\x00\x00\x24\
    \x00\x00\x00\x00\x08\x0a\x00\x01\x00\x00\x00\x00\x00\x00\x00\x14\
    \x40\x01\x01\x00\x40\x02\x06\x02\x01\x00\x00\xfb\xf4\x40\x03\x04\xc0\x00\x02\x01";

/// 2001:db8::/32 by 192.0.2.1, its next hop alone in MP_REACH_NLRI (RFC 6396, section 4.3.4).
const ROUTE_OF_IPV6: &[u8] = b"\x00\x00\x00\x00\x00\x0d\x00\x04\x00\x00\x00\x30\
    \x00\x00\x00\x00\x20\x20\x01\x0d\xb8\x00\x01\x00\x00\x00\x00\x00\x00\x00\x1d\
    \x40\x02\x06\x02\x01\x00\x00\xfb\xf4\
    \x80\x0e\x11\x10\x20\x01\x0d\xb8\x00\x00\x00\x00\x00\x00\x00\x00\x00\x00\x00\x01";

/// A record of another type.
const OTHER: &[u8] = b"\x00\x00\x00\x00\x00\x20\x00\x00\x00\x00\x00\x03\x01\x02\x03";

/// The session is lost, and the microsecond was given.
const LOST: &[u8] = b"\x00\x00\x00\x00\x00\x11\x00\x05\x00\x00\x00\x1c\x00\x00\x00\x07\
    \x00\x00\xfb\xf4\x00\x00\xfb\xff\x00\x00\x00\x01\xc0\x00\x02\x01\xc0\x00\x02\xfe\x00\x06\x00\x01";

/// A state change of another family.
const OTHER_FAMILY: &[u8] = b"\x00\x00\x00\x00\x00\x10\x00\x05\x00\x00\x00\x0c\
    \x00\x00\xfb\xf4\x00\x00\xfb\xff\x00\x00\x00\x03";

/// A header whose Length is 16,777,217.
const LONG: &[u8] = b"\x00\x00\x00\x00\x00\x0d\x00\x01\x01\x00\x00\x01";

/// 10.0.0.0/8 with flags alone in its attribute list.
const CUT: &[u8] = b"\x00\x00\x00\x00\x00\x0d\x00\x02\x00\x00\x00\x11\
    \x00\x00\x00\x00\x08\x0a\x00\x01\x00\x00\x00\x00\x00\x00\x00\x01\x40";

/// Takes the events of all whole records.
fn take_all(reader: &mut Reader, events: &mut Vec<Event>) -> Result<(), Fail>
    ensures used { OnOk result (ReaderIsUsedUp reader.new) }
    ensures few { OnOk result (reader_records reader.new + length (reader_left reader.new)
        ≤ reader_records reader.old + length (reader_left reader.old)) }
{
    while let Some(more) = reader.take_events()? {
        events.extend_from_slice(&more)?;
    }
    Ok(())
}

/// A reader that was fed the input in pieces of this size, of which the events were taken.
fn take_in_pieces(
    alloc: Global,
    input: &[u8],
    size: usize,
    events: &mut Vec<Event>,
) -> Result<Reader, Fail>
    requires { 0 < size }
{
    let mut reader = Reader::new(alloc);
    let mut at = 0;
    while at < input.len() {
        let n = size.min(input.len() - at);
        reader.feed(&input[at..at + n])?;
        take_all(&mut reader, events)?;
        at += n;
    }
    Ok(reader)
}

/// A reader that was fed this.
fn fed(alloc: Global, octets: &[u8]) -> Result<Reader, Fail> {
    let mut reader = Reader::new(alloc);
    reader.feed(octets)?;
    Ok(reader)
}

/// What is said of the input's end, once the events of all whole records are taken.
fn end_of(reader: &mut Reader) -> Result<(), EventsError> {
    while let Some(_events) = reader.take_events()? {}
    match reader.finish() {
        Ok(()) => Ok(()),
        Err(malformed) => Err(EventsError::Malformed(malformed)),
    }
}

#[test]
fn tells_the_same_from_pieces_of_any_size(rt: HostRuntime) -> Result<(), Fail> {
    let addr = Addr::from_octets(Family::V4, &[192, 0, 2, 1]);
    let peer = Peer { addr, asn: 64500 };
    let ten = Prefix::from_front(Family::V4, 8, &[10]);
    let long = Prefix::from_front(Family::V6, 32, &[0x20, 0x01, 0x0d, 0xb8]);
    let hop = Addr {
        family: Family::V6,
        bits: 0x2001_0db8_0000_0000_0000_0000_0000_0001,
    };
    let via = Via { peer, id: 0 };
    let expected = [
        Event::Announce(via, ten, 1, addr, Some(64500)),
        Event::Announce(via, long, 1, hop, Some(64500)),
        Event::Down(peer),
    ];
    let mut input = Vec::from_slice(rt.alloc(), PEERS)?;
    for record in [ROUTE, ROUTE_OF_IPV6, OTHER, LOST, OTHER_FAMILY] {
        input.extend_from_slice(record)?;
    }
    for size in [1, 2, 3, 7, 64, 1000] {
        let mut events = Vec::new(rt.alloc());
        let mut reader = take_in_pieces(rt.alloc(), &input, size, &mut events)?;
        take_all(&mut reader, &mut events)?;
        assert_eq!(rt; reader.finish(), Ok(()), "in pieces of {size}");
        assert_eq!(rt;
            events.as_slice(),
            expected.as_slice(),
            "in pieces of {size}"
        );
        assert_eq!(rt; reader.records(), 6, "in pieces of {size}");
        assert_eq!(rt; reader.skipped(), 2, "in pieces of {size}");
    }
    for (name, [first, second], number, rule) in [
        (
            "a route before the peers",
            [ROUTE, PEERS],
            0,
            Rule::NoPeerTable,
        ),
        (
            "a header that is cut",
            [PEERS, &ROUTE[..11]],
            1,
            Rule::HeaderCut,
        ),
        (
            "a body that is cut",
            [PEERS, &ROUTE[..20]],
            1,
            Rule::BodyCut,
        ),
        ("a long body", [PEERS, LONG], 1, Rule::TooLong),
        (
            "an attribute that is cut",
            [PEERS, CUT],
            1,
            Rule::AttributeCut,
        ),
    ] {
        let mut input = Vec::from_slice(rt.alloc(), first)?;
        input.extend_from_slice(second)?;
        let mut reader = fed(rt.alloc(), &input)?;
        let refused = Err(EventsError::Malformed(Malformed { number, rule }));
        assert_eq!(rt; end_of(&mut reader), refused, "{name}");
        assert_eq!(rt; end_of(&mut reader), refused, "{name}, asked again");
    }
    Ok(())
}
