//! States of routes, by lists of VRPs (RFC 6811, section 2).

use fib_addr::{Addr, Prefix};
use fib_rov::{State, Vrp, Vrps};
use std::alloc::{AllocError, Global};
use std::test::Fail;

/// How many bits of 10.0.0.0 a VRP has, how many a route may have, and its AS.
type Roa = (u8, u8, u32);

/// A list of VRPs, how many bits of 10.0.0.0 a route has, its origin, and its state.
type Row = (&'static [Roa], u8, Option<u32>, State);

/// One VRP before another of the same prefix, and shorter ones.
const LIST: &[Roa] = &[
    (16, 16, 1),
    (8, 24, 64_501),
    (8, 16, 64_500),
    (0, 32, 64_500),
];

const ROWS: &[Row] = &[
    (&[(8, 8, 64_500)], 8, Some(64_500), State::Valid(0)),
    (&[(8, 8, 64_501)], 8, Some(64_500), State::Invalid(0)),
    (&[(16, 24, 64_501)], 8, Some(64_500), State::NotFound),
    (&[(8, 8, 64_500)], 16, Some(64_500), State::Invalid(0)),
    (&[(8, 8, 64_500)], 8, None, State::Invalid(0)),
    (&[(8, 8, 0)], 8, Some(0), State::Invalid(0)),
    (&[], 8, Some(64_500), State::NotFound),
    (LIST, 16, Some(64_500), State::Valid(2)),
    (LIST, 24, Some(64_500), State::Valid(3)),
    (LIST, 24, Some(1), State::Invalid(0)),
    (LIST, 12, Some(1), State::Invalid(1)),
];

/// 10.0.0.0 with `len` bits.
fn ten(len: u8) -> Prefix {
    Prefix::new(&Addr::v4(10 << 24), len.min(32))
}

/// The VRPs of a list.
fn listed(alloc: Global, roas: &[Roa]) -> Result<Vrps, AllocError> {
    let mut list = Vec::new(alloc);
    for (len, maxlen, asn) in roas {
        list.push(Vrp {
            prefix: ten(*len),
            maxlen: *maxlen,
            asn: *asn,
        })?;
    }
    Vrps::new(alloc, list)
}

#[test]
fn judges_routes(rt: HostRuntime) -> Result<(), Fail> {
    for (roas, len, origin, state) in ROWS {
        let vrps = listed(rt.alloc(), roas)?;
        assert_eq!(rt; vrps.state(&ten(*len), *origin), *state);
    }
    Ok(())
}

#[test]
fn has_each_vrp_by_its_number(rt: HostRuntime) -> Result<(), Fail> {
    let vrps = listed(rt.alloc(), LIST)?;
    let last = Vrp {
        prefix: ten(0),
        maxlen: 32,
        asn: 64_500,
    };
    assert!(rt; vrps.get(3) == Some(&last));
    assert!(rt; vrps.get(4).is_none());
    Ok(())
}
