//! An UPDATE of both families with each kind of events, also with a malformed path; one with a path identifier; and messages that aren't as long as they say.

use fib_prefix::{Addr, Event, Family, Peer, Prefix, Via};
use mrt_records::{Refusal, read_message};
use std::test::Fail;
use wire_model::Rule;

/// Withdraws 10.128.0.0/9, whose octets have further bits, and 2001:db8::/32; announces 11.0.0.0/8 and 2001:db9::/32.
const UPDATE: [u8; 84] = [
    0xff, 0xff, 0xff, 0xff, 0xff, 0xff, 0xff, 0xff, 0xff, 0xff, 0xff, 0xff, 0xff, 0xff, 0xff, 0xff,
    0x00, 0x54, 0x02, 0x00, 0x03, 0x09, 0x0a, 0xff, 0x00, 0x38, 0x40, 0x02, 0x06, 0x02, 0x01, 0x00,
    0x00, 0xfb, 0xf4, 0x40, 0x03, 0x04, 0xc0, 0x00, 0x02, 0x01, 0x80, 0x0f, 0x08, 0x00, 0x02, 0x01,
    0x20, 0x20, 0x01, 0x0d, 0xb8, 0x80, 0x0e, 0x1a, 0x00, 0x02, 0x01, 0x10, 0x20, 0x01, 0x0d, 0xb8,
    0x00, 0x00, 0x00, 0x00, 0x00, 0x00, 0x00, 0x00, 0x00, 0x00, 0x00, 0x01, 0x00, 0x20, 0x20, 0x01,
    0x0d, 0xb9, 0x08, 0x0b,
];

/// The place of the type of its AS_PATH's segment.
const SEGMENT_TYPE: usize = 29;

/// Withdraws 10.0.0.0/8 of path identifier 1.
const WITH_ID: [u8; 29] = [
    0xff, 0xff, 0xff, 0xff, 0xff, 0xff, 0xff, 0xff, 0xff, 0xff, 0xff, 0xff, 0xff, 0xff, 0xff, 0xff,
    0x00, 0x1d, 0x02, 0x00, 0x06, 0x00, 0x00, 0x00, 0x01, 0x08, 0x0a, 0x00, 0x00,
];

#[test]
fn tells_all_that_an_update_says_in_its_order(rt: HostRuntime) -> Result<(), Fail> {
    let v4 = Addr::from_octets(Family::V4, &[192, 0, 2, 1]);
    let v6 = Addr::from_octets(
        Family::V6,
        &[0x20, 0x01, 0x0d, 0xb8, 0, 0, 0, 0, 0, 0, 0, 0, 0, 0, 0, 1],
    );
    let peer = Peer {
        addr: v4,
        asn: 64500,
    };
    let via = Via { peer, id: 0 };
    let ten_half = Prefix::from_front(Family::V4, 9, &[10, 128]);
    let eleven = Prefix::from_front(Family::V4, 8, &[11]);
    let db8 = Prefix::from_front(Family::V6, 32, &[0x20, 0x01, 0x0d, 0xb8]);
    let db9 = Prefix::from_front(Family::V6, 32, &[0x20, 0x01, 0x0d, 0xb9]);
    let reached = [
        Event::Withdraw(via, ten_half),
        Event::Withdraw(via, db8),
        Event::Announce(via, eleven, 1, v4, Some(64500)),
        Event::Announce(via, db9, 1, v6, Some(64500)),
    ];
    let treated = [
        Event::Withdraw(via, ten_half),
        Event::Withdraw(via, db8),
        Event::Withdraw(via, eleven),
        Event::Withdraw(via, db9),
    ];
    let ten = Prefix::from_front(Family::V4, 8, &[10]);
    let with_id = [Event::Withdraw(Via { peer, id: 1 }, ten)];
    let mut malformed = UPDATE;
    malformed[SEGMENT_TYPE] = 5;
    for (name, bytes, ids, is_treated, due) in [
        (
            "both families",
            UPDATE.as_slice(),
            false,
            false,
            reached.as_slice(),
        ),
        ("a malformed path", &malformed, false, true, &treated),
        ("a path identifier", &WITH_ID, true, false, &with_id),
    ] {
        let told = read_message(rt.alloc(), bytes, true, ids, peer)?;
        assert_eq!(rt; (told.0.as_slice(), told.1), (due, is_treated), "{name}");
    }
    for bytes in [&UPDATE[..18], &UPDATE[..83], &UPDATE[..19]] {
        match read_message(rt.alloc(), bytes, true, false, peer) {
            Ok(_) => assert!(rt; false, "a message of {} octets", bytes.len()),
            Err(refusal) => assert_eq!(rt; refusal, Refusal::Rule(Rule::MessageLength)),
        }
    }
    Ok(())
}
