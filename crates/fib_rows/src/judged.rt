//! Announcements that a list of validated ROA payloads (VRPs) calls Invalid.

use crate::harness::octets_of;
use crate::records::{PEERS, TEN, TEN_ONE};
use crate::saves::{add_input, run_on};
use std::test::Fail;

/// A list, and what a run on one route says of it: the status, the first line of its rows, how many elementary events it counts, and
/// the line that reports its outcome.
#[derive(Clone, Copy)]
struct Judged<'a> {
    dump: &'a [&'a [&'a str]],
    vrps: &'a [u8],
    status: u8,
    first: &'a [u8],
    last: &'a [u8],
    err: &'a [u8],
}

/// 10.0.0.0/8 with origin 64500, which is Valid.
const VALID: Judged<'static> = Judged {
    dump: &[PEERS, TEN],
    vrps: b"10.0.0.0/8,8,64500\n",
    status: 0,
    first: b"route,10.0.0.0/8,192.0.2.1\nchange,0,+,10.0.0.0/8,192.0.2.1\n",
    last: b"report,treated,0\n",
    err: b"",
};

/// What each list comes to.
const JUDGED: [Judged; 7] = [
    VALID,
    // another AS
    Judged {
        vrps: b"10.0.0.0/8,8,64501\n",
        first: b"invalid,10.0.0.0/8,192.0.2.1,64500,64500,10.0.0.0/8,8,64501\ncert,leaf,0.0.0.0/0,none\n",
        last: b"report,events,1\nreport,routes,0\nreport,entries,0\nreport,nodes,0\nreport,leaves,0\nreport,treated,0\n",
        ..VALID
    },
    // no VRP covers the route
    Judged {
        vrps: b"10.0.0.0/16,24,64501\n",
        ..VALID
    },
    // a route that is too long
    Judged {
        dump: &[PEERS, TEN_ONE],
        first: b"invalid,10.1.0.0/16,192.0.2.1,64500,64500,10.0.0.0/8,8,64500\n",
        ..VALID
    },
    // an empty list
    Judged { vrps: b"", ..VALID },
    Judged {
        vrps: b"10.0.0.0/8,7,64500\n",
        status: 8,
        first: b"",
        last: b"",
        err: b"fib: bad line vrps 1 why 7\n",
        ..VALID
    },
    // an empty line is counted
    Judged {
        vrps: b"\n10.0.0.0/8,8\n",
        status: 8,
        first: b"",
        last: b"",
        err: b"fib: bad line vrps 2 why 3\n",
        ..VALID
    },
];

#[test]
fn lists_of_vrps(rt: HostRuntime) -> Result<(), Fail> {
    let alloc = rt.alloc();
    for row in &JUDGED {
        let dump = octets_of(alloc, row.dump)?;
        let mut names = Vec::new(alloc);
        add_input(alloc, &mut names, "dump", &dump)?;
        add_input(alloc, &mut names, "vrps", row.vrps)?;
        let came = run_on(alloc, &["fib", "run", "dump", "--vrps", "vrps"], names)?;
        assert_eq!(rt; came.status, row.status);
        assert!(rt; came.out.written().starts_with(row.first));
        assert!(rt; came.out.written().ends_with(row.last));
        assert_eq!(rt; came.err.written(), row.err);
    }
    Ok(())
}
