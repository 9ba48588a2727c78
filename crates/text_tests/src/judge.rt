//! Lists of VRPs that are read, and what they leave of announcements.

use fib_addr::{Addr, Prefix};
use fib_prefix::{Event, Peer, Via};
use fib_rov::{RovError, Vrps};
use std::test::Fail;

/// What comes of a text and of an announcement: the announcement, its withdrawal with the number of a VRP, or the line that is no VRP and
/// why.
#[derive(Clone, Copy, PartialEq, Eq)]
enum Came {
    Kept,
    Gone(u64),
    Bad(u64, u8),
    NoMemory,
}

/// A list of VRPs, the second octet and the length of a route 10.x.0.0, and what comes of its announcement by AS 64500.
type Row = (&'static [u8], u8, u8, Came);

const ROWS: &[Row] = &[
    (b"10.0.0.0/8,8,64500\n", 0, 8, Came::Kept),
    (b"10.0.0.0/8,8,64501\n", 0, 8, Came::Gone(0)),
    (b"10.0.0.0/16,24,64501\n", 0, 8, Came::Kept),
    (b"10.0.0.0/8,8,64500\n", 1, 16, Came::Gone(0)),
    (
        b"\r\n11.0.0.0/8,8,64500\r\n\n10.0.0.0/8,16,64501",
        1,
        16,
        Came::Gone(1),
    ),
    (b"::/0,0,64501\n::/0,128,4294967295\n", 0, 8, Came::Kept),
    (b"", 0, 8, Came::Kept),
    (b"10.0.0.0/8,7,64500", 0, 8, Came::Bad(1, 7)),
    (b"10.0.0.0/8,33,64500\n", 0, 8, Came::Bad(1, 7)),
    (
        b"\n10.0.0.0/8,8,64500\n10.0.0.0/8,8\n",
        0,
        8,
        Came::Bad(3, 3),
    ),
    (b"x,8,64500,\n", 0, 8, Came::Bad(1, 3)),
    (b"10.0.0.1/8,x,64500\n", 0, 8, Came::Bad(1, 4)),
    (b"10.0.0.0/8,256,64500\n", 0, 8, Came::Bad(1, 5)),
    (b"10.0.0.0/8,7,4294967296\n", 0, 8, Came::Bad(1, 5)),
    (b"10.0.0.0/8,8,64500\r", 0, 8, Came::Bad(1, 5)),
];

/// The way of AS 64500 at 192.0.2.1.
fn via() -> Via {
    let peer = Peer {
        addr: Addr::v4(0xc000_0201),
        asn: 64_500,
    };
    Via { peer, id: 0 }
}

/// What the list leaves of the announcement of a prefix by AS 64500.
fn judged(vrps: &Vrps, prefix: Prefix) -> Option<Came> {
    let hop = Addr::v4(0xc000_0201);
    let announced = Event::Announce(via(), prefix, 1, hop, Some(64_500));
    let (event, number) = vrps.judge(&announced);
    match number {
        Some(number) if event == Event::Withdraw(via(), prefix) => Some(Came::Gone(number)),
        None if event == announced => Some(Came::Kept),
        _ => None,
    }
}

#[test]
fn reads_lists_and_judges_announcements(rt: HostRuntime) -> Result<(), Fail> {
    for (text, octet, len, due) in ROWS {
        let address = (10 << 24) | (u32::from(*octet) << 16);
        let prefix = Prefix::new(&Addr::v4(address), (*len).min(32));
        let came = match Vrps::read(rt.alloc(), text) {
            Ok(vrps) => judged(&vrps, prefix),
            Err(RovError::BadRow(bad)) => Some(Came::Bad(bad.line, bad.why)),
            Err(RovError::NoMemory) => Some(Came::NoMemory),
        };
        assert!(rt; came == Some(*due));
    }
    Ok(())
}

#[test]
fn leaves_other_events(rt: HostRuntime) {
    let vrps = Vrps::read(rt.alloc(), b"0.0.0.0/0,0,64501\n");
    let withdrawn = Event::Withdraw(via(), Prefix::new(&Addr::v4(10 << 24), 8));
    let down = Event::Down(via().peer);
    let is_right = match vrps {
        Ok(vrps) => {
            vrps.judge(&withdrawn) == (withdrawn, None) && vrps.judge(&down) == (down, None)
        }
        Err(_) => false,
    };
    assert!(rt; is_right);
}
