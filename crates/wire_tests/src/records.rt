//! A peer table, RIB records of both families, an UPDATE and a state change of each subtype, and records that are skipped or
//! refused.

use fib_prefix::{Addr, Event, Family, Peer, Prefix, Via};
use mrt_records::{PeerTable, Refusal, read_bgp4mp, read_rib};
use std::alloc::{AllocError, Global};
use std::test::Fail;
use wire_model::Rule;

/// A table of one peer, 192.0.2.1 of AS 64500.
const PEERS: &[u8] =
    b"\x00\x00\x00\x00\x00\x00\x00\x01\x02\xc0\x00\x02\x01\xc0\x00\x02\x01\x00\x00\xfb\xf4";

/// 10.0.0.0/8 by 192.0.2.1.
const RIB_V4: &[u8] = b"\x00\x00\x00\x00\x08\x0a\x00\x01\x00\x00\x00\x00\x00\x00\x00\x14\
    \x40\x01\x01\x00\x40\x02\x06\x02\x01\x00\x00\xfb\xf4\x40\x03\x04\xc0\x00\x02\x01";

/// 2001:db8::/32 by 2001:db8::1, in the short form of MP_REACH_NLRI and after a NEXT_HOP.
const RIB_V6: &[u8] =
    b"\x00\x00\x00\x00\x20\x20\x01\x0d\xb8\x00\x01\x00\x00\x00\x00\x00\x00\x00\x1b\
    \x40\x03\x04\xc0\x00\x02\x01\
    \x80\x0e\x11\x10\x20\x01\x0d\xb8\x00\x00\x00\x00\x00\x00\x00\x00\x00\x00\x00\x01";

/// 10.0.0.0/8 is withdrawn and announced.
const MESSAGE_AS4: &[u8] =
    b"\x00\x00\xfb\xf4\x00\x00\xfb\xff\x00\x00\x00\x01\xc0\x00\x02\x01\xc0\x00\x02\xfe\
    \xff\xff\xff\xff\xff\xff\xff\xff\xff\xff\xff\xff\xff\xff\xff\xff\x00\x2f\x02\x00\x02\x08\x0a\x00\x14\
    \x40\x01\x01\x00\x40\x02\x06\x02\x01\x00\x00\xfb\xf4\x40\x03\x04\xc0\x00\x02\x01\x08\x0a";

/// The same with AS numbers of two octets.
const MESSAGE: &[u8] = b"\xfb\xf4\xfb\xff\x00\x00\x00\x01\xc0\x00\x02\x01\xc0\x00\x02\xfe\
    \xff\xff\xff\xff\xff\xff\xff\xff\xff\xff\xff\xff\xff\xff\xff\xff\x00\x2d\x02\x00\x02\x08\x0a\x00\x12\
    \x40\x01\x01\x00\x40\x02\x04\x02\x01\xfb\xf4\x40\x03\x04\xc0\x00\x02\x01\x08\x0a";

/// A session that is lost.
const LOST_AS4: &[u8] =
    b"\x00\x00\xfb\xf4\x00\x00\xfb\xff\x00\x00\x00\x01\xc0\x00\x02\x01\xc0\x00\x02\xfe\x00\x06\x00\x01";

/// The same with AS numbers of two octets.
const LOST: &[u8] =
    b"\xfb\xf4\xfb\xff\x00\x00\x00\x01\xc0\x00\x02\x01\xc0\x00\x02\xfe\x00\x06\x00\x01";

/// A session of family 3, and nothing more.
const OTHER_AS4: &[u8] = b"\x00\x00\xfb\xf4\x00\x00\xfb\xff\x00\x00\x00\x03";

/// The octets, and one more.
fn longer(alloc: Global, octets: &[u8]) -> Result<Vec<u8>, AllocError> {
    let mut longer = Vec::from_slice(alloc, octets)?;
    longer.push(0)?;
    Ok(longer)
}

#[test]
fn tells_what_the_records_say(rt: HostRuntime) -> Result<(), Fail> {
    let alloc = rt.alloc();
    let v4 = Addr::from_octets(Family::V4, &[192, 0, 2, 1]);
    let v6 = Addr::from_octets(
        Family::V6,
        &[0x20, 0x01, 0x0d, 0xb8, 0, 0, 0, 0, 0, 0, 0, 0, 0, 0, 0, 1],
    );
    let peer = Peer {
        addr: v4,
        asn: 64500,
    };
    let via = Via { peer, id: 0 };
    let ten = Prefix::from_front(Family::V4, 8, &[10]);
    let db8 = Prefix::from_front(Family::V6, 32, &[0x20, 0x01, 0x0d, 0xb8]);
    let table = PeerTable::read(alloc, PEERS)?;
    let route = Event::Announce(via, ten, 1, v4, Some(64500));
    let both = [Event::Withdraw(via, ten), route];
    let lost = [Event::Down(peer)];
    let wide = [route];
    let long = [Event::Announce(via, db8, 0, v6, None)];
    let rib = longer(alloc, RIB_V4)?;
    for (body, family, expected) in [
        (RIB_V4, Family::V4, Ok(wide.as_slice())),
        (RIB_V6, Family::V6, Ok(&long)),
        (&rib, Family::V4, Err(Refusal::Rule(Rule::RibForm))),
    ] {
        match read_rib(alloc, body, &table, family, false) {
            Ok(events) => assert_eq!(rt; Ok(events.as_slice()), expected, "{family:?}"),
            Err(refusal) => assert_eq!(rt; Err(refusal), expected, "{family:?}"),
        }
    }
    let session = longer(alloc, LOST_AS4)?;
    for (body, sub, expected) in [
        (LOST, 0, Ok(Some(lost.as_slice()))),
        (MESSAGE, 1, Ok(Some(both.as_slice()))),
        (MESSAGE_AS4, 4, Ok(Some(both.as_slice()))),
        (LOST_AS4, 5, Ok(Some(lost.as_slice()))),
        (MESSAGE, 6, Ok(Some(both.as_slice()))),
        (MESSAGE_AS4, 7, Ok(Some(both.as_slice()))),
        (MESSAGE_AS4, 12, Ok(None)),
        (OTHER_AS4, 4, Ok(None)),
        (&session, 5, Err(Refusal::Rule(Rule::SessionForm))),
        (&LOST_AS4[..23], 5, Err(Refusal::Rule(Rule::SessionForm))),
    ] {
        match read_bgp4mp(alloc, body, sub, false) {
            Ok(Some((events, _treated))) => {
                assert_eq!(rt; Ok(Some(events.as_slice())), expected, "subtype {sub}")
            }
            Ok(None) => assert_eq!(rt; Ok(None), expected, "subtype {sub}"),
            Err(refusal) => assert_eq!(rt; Err(refusal), expected, "subtype {sub}"),
        }
    }
    let peers = longer(alloc, PEERS)?;
    assert_eq!(rt;
        PeerTable::read(alloc, &peers).err(),
        Some(Refusal::Rule(Rule::PeerTableForm))
    );
    Ok(())
}
