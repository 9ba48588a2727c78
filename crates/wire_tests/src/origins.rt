//! Values of AS_PATH, with AS numbers of two octets and of four: the origin that each gives (RFC 6811, section 2), or the rule of
//! its first wrong field.

use bgp_attrs::path_origin;
use std::test::Fail;

#[test]
fn tells_the_last_as_number_of_a_last_sequence(rt: HostRuntime) -> Result<(), Fail> {
    for (name, value, wide, expected) in [
        ("no segment", b"".as_slice(), true, Ok(None)),
        (
            "a sequence of 1 and 64500",
            b"\x02\x02\x00\x00\x00\x01\x00\x00\xfb\xf4",
            true,
            Ok(Some(64500)),
        ),
        (
            "the same with two octets an AS",
            b"\x02\x02\x00\x01\xfb\xf4",
            false,
            Ok(Some(64500)),
        ),
        (
            "the greatest AS number",
            b"\x02\x01\xff\xff\xff\xff",
            true,
            Ok(Some(4_294_967_295)),
        ),
        (
            "two sequences",
            b"\x02\x01\x00\x01\x02\x02\x00\x02\x00\x03",
            false,
            Ok(Some(3)),
        ),
        (
            "a sequence after a set",
            b"\x01\x02\x00\x01\x00\x02\x02\x01\x00\x03",
            false,
            Ok(Some(3)),
        ),
        (
            "a set last",
            b"\x02\x01\x00\x01\x01\x01\x00\x02",
            false,
            Ok(None),
        ),
        (
            "an empty sequence last",
            b"\x02\x01\x00\x01\x02\x00",
            false,
            Ok(None),
        ),
        (
            "an empty set last",
            b"\x02\x01\x00\x01\x01\x00",
            false,
            Ok(None),
        ),
        (
            "a confederation's sequence last",
            b"\x02\x01\x00\x01\x03\x01\x00\x02",
            false,
            Ok(None),
        ),
        (
            "a confederation's set last",
            b"\x02\x01\x00\x00\x00\x01\x04\x01\x00\x00\x00\x02",
            true,
            Ok(None),
        ),
        (
            "a segment of type 5 last",
            b"\x02\x01\x00\x01\x05\x00",
            false,
            Err(10),
        ),
        (
            "a last segment that is cut",
            b"\x02\x01\x00\x01\x02\x01\x00",
            false,
            Err(10),
        ),
    ] {
        let told = match path_origin(value, wide) {
            Ok(origin) => Ok(origin),
            Err(rule) => Err(rule.number()),
        };
        assert_eq!(rt; told, expected, "{name}");
    }
    Ok(())
}
