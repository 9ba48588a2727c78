//! Attribute lists, hostile ones too: their path length and whether they are bad, or the rule of their first wrong field.

use bgp_attrs::{Place, read_attrs};
use fib_addr::Family;
use std::test::Fail;

const RIB: Place = Place::Rib(Family::V4);

const WIDE: Place = Place::Update {
    wide: true,
    ids: false,
};

const NARROW: Place = Place::Update {
    wide: false,
    ids: false,
};

const IDS: Place = Place::Update {
    wide: true,
    ids: true,
};

#[test]
fn tells_the_path_length_or_the_rule_of_the_first_wrong_field(rt: HostRuntime) -> Result<(), Fail> {
    for (name, list, place, expected) in [
        ("no attribute", b"".as_slice(), WIDE, Ok((0, false))),
        ("flags alone", b"\x40", WIDE, Err(9)),
        ("no length", b"\x40\x02", WIDE, Err(9)),
        ("half a length", b"\x50\x02\x00", WIDE, Err(9)),
        (
            "a value that is cut",
            b"\x40\x02\x06\x02\x01\x00\x00\xfb",
            WIDE,
            Err(9),
        ),
        (
            "a sequence of 1",
            b"\x40\x02\x06\x02\x01\x00\x00\xfb\xf4",
            WIDE,
            Ok((1, false)),
        ),
        (
            "two octets of an AS",
            b"\x40\x02\x04\x02\x01\xfb\xf4",
            NARROW,
            Ok((1, false)),
        ),
        (
            "a long form",
            b"\x50\x02\x00\x04\x02\x01\xfb\xf4",
            NARROW,
            Ok((1, false)),
        ),
        (
            "a set of 2, a sequence of 1",
            b"\x40\x02\x0a\x01\x02\x00\x01\x00\x02\x02\x01\x00\x03",
            NARROW,
            Ok((2, false)),
        ),
        (
            "confederation segments",
            b"\x40\x02\x08\x03\x01\x00\x01\x04\x01\x00\x02",
            NARROW,
            Ok((0, false)),
        ),
        (
            "empty segments",
            b"\x40\x02\x04\x01\x00\x02\x00",
            WIDE,
            Ok((0, false)),
        ),
        (
            "a segment of type 0",
            b"\x40\x02\x02\x00\x00",
            WIDE,
            Ok((0, true)),
        ),
        (
            "a segment of type 5",
            b"\x40\x02\x02\x05\x00",
            WIDE,
            Ok((0, true)),
        ),
        (
            "a segment that is cut",
            b"\x40\x02\x04\x02\x01\x00\x00",
            WIDE,
            Ok((0, true)),
        ),
        (
            "a wrong second path",
            b"\x40\x02\x04\x02\x01\xfb\xf4\x40\x02\x01\x09",
            NARROW,
            Ok((1, false)),
        ),
        (
            "a next hop of 5 octets",
            b"\x40\x03\x05\xc0\x00\x02\x01\x00",
            WIDE,
            Ok((0, true)),
        ),
        ("no SAFI", b"\x80\x0e\x02\x00\x01", WIDE, Err(10)),
        (
            "multicast",
            b"\x80\x0e\x03\x00\x01\x02",
            WIDE,
            Ok((0, false)),
        ),
        (
            "a second behind multicast, without its length",
            b"\x80\x0e\x03\x00\x01\x02\x80\x0e",
            WIDE,
            Err(11),
        ),
        (
            "33 bits before a cut attribute",
            b"\x80\x0e\x0a\x00\x01\x01\x04\xc0\x00\x02\x01\x00\x21\x40",
            WIDE,
            Err(6),
        ),
        (
            "a next hop of 5 octets for IPv6",
            b"\x80\x0e\x09\x00\x02\x01\x05\xc0\x00\x02\x01\x00",
            WIDE,
            Err(10),
        ),
        (
            "a withdrawn prefix that is cut",
            b"\x80\x0f\x04\x00\x01\x01\x08",
            WIDE,
            Err(10),
        ),
        (
            "two MP_UNREACH_NLRI",
            b"\x80\x0f\x03\x00\x01\x01\x80\x0f\x00",
            WIDE,
            Err(11),
        ),
        (
            "two MP_UNREACH_NLRI of a RIB entry",
            b"\x80\x0f\x00\x80\x0f\x00",
            RIB,
            Ok((0, false)),
        ),
        (
            "an empty MP_REACH_NLRI of a RIB entry",
            b"\x80\x0e\x00",
            RIB,
            Ok((0, false)),
        ),
        (
            "two MP_REACH_NLRI of a RIB entry",
            b"\x80\x0e\x00\x80\x0e\x00",
            RIB,
            Err(11),
        ),
        (
            "two octets of an AS in a RIB entry",
            b"\x40\x02\x04\x02\x01\xfb\xf4",
            RIB,
            Err(10),
        ),
        (
            "a good path after a bad one",
            b"\x40\x02\x02\x05\x00\x40\x02\x06\x02\x01\x00\x00\xfb\xf4",
            WIDE,
            Ok((0, true)),
        ),
        (
            "a good path and a next hop of 3 octets",
            b"\x40\x02\x06\x02\x01\x00\x00\xfb\xf4\x40\x03\x03\xc0\x00\x02",
            WIDE,
            Ok((0, true)),
        ),
        (
            "a cut attribute after a bad path",
            b"\x40\x02\x02\x05\x00\x50\x01\x01\x00",
            WIDE,
            Err(9),
        ),
        (
            "a segment of type 5 in a RIB entry",
            b"\x40\x02\x02\x05\x00",
            RIB,
            Err(10),
        ),
        (
            "a next hop of 3 octets in a RIB entry",
            b"\x40\x03\x03\xc0\x00\x02",
            RIB,
            Err(10),
        ),
        (
            "a withdrawn prefix with its identifier",
            b"\x80\x0f\x09\x00\x01\x01\x00\x00\x00\x01\x08\x0a",
            IDS,
            Ok((0, false)),
        ),
        (
            "an identifier that is cut",
            b"\x80\x0f\x05\x00\x01\x01\x00\x00",
            IDS,
            Err(10),
        ),
        (
            "33 bits after an identifier",
            b"\x80\x0f\x08\x00\x01\x01\x00\x00\x00\x01\x21",
            IDS,
            Err(6),
        ),
    ] {
        let told = match read_attrs(list, place) {
            Ok(attrs) => Ok((attrs.path, attrs.bad)),
            Err(rule) => Err(rule.number()),
        };
        assert_eq!(rt; told, expected, "{name}");
    }
    Ok(())
}
