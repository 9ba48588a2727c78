//! Candidates that came out of order, as a list.

use fib_prefix::{Addr, Cand, Elem, Peer, Prefix, Via};
use route_choice::Candidates;
use std::test::Fail;

/// 10.0.0.0 with `len` bits.
fn ten(len: u8) -> Prefix {
    Prefix::new(&Addr::v4(10 << 24), len.min(32))
}

/// The route of a prefix by 192.0.2.n, AS 64500, with this path identifier and a path of one AS.
fn route(prefix: Prefix, n: u8, id: u32) -> Cand {
    let addr = Addr::v4(0xc000_0200 | u32::from(n));
    let peer = Peer { addr, asn: 64_500 };
    Cand {
        prefix,
        via: Via { peer, id },
        path: 1,
        hop: addr,
    }
}

#[test]
fn lists_what_came_out_of_order(rt: HostRuntime) -> Result<(), Fail> {
    let listed = [
        route(ten(8), 1, 0),
        route(ten(8), 1, 7),
        route(ten(8), 2, 0),
        route(ten(16), 1, 0),
    ];
    let mut candidates = Candidates::new(rt.alloc());
    for i in [3, 1, 2, 0, 1] {
        let cand: Cand = listed[i];
        candidates.load(&Elem::Put(cand.via, cand.prefix, cand.path, cand.hop))?;
    }
    let cands = candidates.all()?;
    assert_eq!(rt; cands.as_slice(), listed.as_slice());
    Ok(())
}
