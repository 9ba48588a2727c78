//! The text of addresses, prefixes and numbers, what lies within a prefix, and the numbers of hops up to the last.

use fib_addr::{
    Addr, Hop, HopError, HopTable, HopsFull, MOST_TEXT, Prefix, addr_text, bit_at, prefix_text,
    read_addr, read_number, read_prefix,
};

/// Texts of addresses, and the number of each address's bits.
const DOTTED: [(&str, Option<u32>); 33] = [
    ("0.0.0.0", Some(0)),
    ("192.0.2.1", Some(0xc000_0201)),
    ("1.20.255.10", Some(0x0114_ff0a)),
    ("255.255.255.255", Some(u32::MAX)),
    ("", None),
    ("1", None),
    ("1.2.3", None),
    ("1.2.3.4.5", None),
    ("01.2.3.4", None),
    ("1.2.3.04", None),
    ("1.00.3.4", None),
    ("256.0.0.1", None),
    ("1.2.3.256", None),
    ("1.2.3.4294967297", None),
    ("1.2.3.18446744073709551617", None),
    (" 1.2.3.4", None),
    ("1.2.3.4 ", None),
    ("1. 2.3.4", None),
    ("+1.2.3.4", None),
    ("1.2.3.-4", None),
    ("1.2.3.4.", None),
    (".1.2.3.4", None),
    ("1..2.3", None),
    ("1.2..3.4", None),
    ("...", None),
    ("0x1.2.3.4", None),
    ("c0.0.2.1", None),
    ("1,2,3,4", None),
    ("1.2.3.4/32", None),
    ("1.2.3.4\n", None),
    ("1.2.3.4\0", None),
    ("::ffff:1.2.3.4", None),
    ("1.2.3.4::", None),
];

/// The same of IPv6 addresses (RFC 4291, section 2.2).
const GROUPS: [(&str, Option<u128>); 44] = [
    ("::", Some(0)),
    ("::1", Some(1)),
    ("1::", Some(1 << 112)),
    (
        "::2:3:4:5:6:7:8",
        Some(0x0002_0003_0004_0005_0006_0007_0008),
    ),
    (
        "2001:DB8:0:0:8:800:200C:417A",
        Some(0x2001_0db8_0000_0000_0008_0800_200c_417a),
    ),
    (
        "2001:0db8::0008:0800:200c:417a",
        Some(0x2001_0db8_0000_0000_0008_0800_200c_417a),
    ),
    (
        "1:2:3:4:5:6:7:8",
        Some(0x0001_0002_0003_0004_0005_0006_0007_0008),
    ),
    (
        "1:2:3::5:6:7:8",
        Some(0x0001_0002_0003_0000_0005_0006_0007_0008),
    ),
    (
        "1:2:3:4:5:6:7::",
        Some(0x0001_0002_0003_0004_0005_0006_0007_0000),
    ),
    ("ff01::101", Some(0xff01_0000_0000_0000_0000_0000_0000_0101)),
    ("ffff:ffff:ffff:ffff:ffff:ffff:ffff:ffff", Some(u128::MAX)),
    (":", None),
    (":::", None),
    ("::::", None),
    ("1:2:3:4:5:6:7", None),
    ("1:2:3:4:5:6:7:8:9", None),
    ("1:2:3:4:5:6:7:8:", None),
    (":1:2:3:4:5:6:7:8", None),
    ("1:2:3:4:5:6:7::8", None),
    ("1::2:3:4:5:6:7:8", None),
    ("::1:2:3:4:5:6:7:8", None),
    ("1:2:3:4:5:6:7:8::", None),
    ("1::2::3", None),
    ("1:::2", None),
    ("1:", None),
    (":1", None),
    ("1::2:", None),
    (":1::2", None),
    ("12345::", None),
    ("00001::", None),
    ("g::", None),
    ("::-1", None),
    ("::+1", None),
    ("::0x1", None),
    (" ::1", None),
    ("::1 ", None),
    (":: 1", None),
    ("fe80::1%0", None),
    ("fe80::1%eth0", None),
    ("[::1]", None),
    ("::/0", None),
    ("::1\n", None),
    ("::1\0", None),
    ("::1::", None),
];

/// Texts of prefixes, and what is written of each that is read.
const PREFIXES: [(&str, Option<&str>); 33] = [
    ("0.0.0.0/0", Some("0.0.0.0/0")),
    ("192.0.2.0/24", Some("192.0.2.0/24")),
    ("10.128.0.0/9", Some("10.128.0.0/9")),
    ("255.255.255.255/32", Some("255.255.255.255/32")),
    ("::/0", Some("::/0")),
    ("::1/128", Some("::1/128")),
    ("2001:0DB8:0:CD30:0:0:0:0/60", Some("2001:db8:0:cd30::/60")),
    ("2001:DB8:0:0:1:0:0:1/128", Some("2001:db8::1:0:0:1/128")),
    ("2001:0:0:1:0:0:0:1/128", Some("2001:0:0:1::1/128")),
    ("2001:db8::1:1:1:1:1/128", Some("2001:db8:0:1:1:1:1:1/128")),
    ("1:0:1:0:1:0:1:0/128", Some("1:0:1:0:1:0:1:0/128")),
    ("::ffff:102:304/128", Some("::ffff:102:304/128")),
    ("8000::/1", Some("8000::/1")),
    (
        "ffff:ffff:ffff:ffff:ffff:ffff:ffff:ffff/128",
        Some("ffff:ffff:ffff:ffff:ffff:ffff:ffff:ffff/128"),
    ),
    ("", None),
    ("/", None),
    ("/0", None),
    ("0.0.0.0", None),
    ("0.0.0.0/", None),
    ("0.0.0.0/00", None),
    ("0.0.0.0/+0", None),
    ("0.0.0.0/-0", None),
    ("0.0.0.0/ 0", None),
    ("0.0.0.0/0 ", None),
    ("0.0.0.0/0/0", None),
    ("0.0.0.0//0", None),
    ("0.0.0.0/33", None),
    ("0.0.0.0/256", None),
    ("0.0.0.0/18446744073709551616", None),
    ("192.0.2.1/24", None),
    ("::/129", None),
    ("::1/127", None),
    ("4000::/1", None),
];

/// Whether this text is written of the prefix.
fn is_written_as(prefix: &Prefix, text: &str) -> bool {
    let mut buffer = [0; MOST_TEXT];
    prefix_text(&mut buffer, prefix) == text.as_bytes()
}

#[test]
fn reads_and_writes_text(rt: HostRuntime) {
    for (text, bits) in DOTTED {
        assert_eq!(rt; read_addr(text.as_bytes()), bits.map(Addr::v4), "{text}");
    }
    for (text, bits) in GROUPS {
        assert_eq!(rt; read_addr(text.as_bytes()), bits.map(Addr::v6), "{text}");
    }
    for (text, written) in PREFIXES {
        let is_right = match (read_prefix(text.as_bytes()), written) {
            (Some(prefix), Some(written)) => is_written_as(&prefix, written),
            (None, None) => true,
            _ => false,
        };
        assert!(rt; is_right, "{text}");
    }
}

#[test]
fn reads_numbers(rt: HostRuntime) {
    for (text, number) in [
        ("0", Some(0)),
        ("255", Some(255)),
        ("18446744073709551615", Some(u64::MAX)),
        ("18446744073709551616", None),
        ("", None),
        ("00", None),
        ("+1", None),
        ("-1", None),
        (" 1", None),
        ("1\n", None),
        ("0x1", None),
    ] {
        assert_eq!(rt; read_number(text.as_bytes(), u64::MAX), number, "{text}");
    }
    for (text, number) in [("128", Some(128)), ("129", None)] {
        assert_eq!(rt; read_number(text.as_bytes(), 128), number, "{text}");
    }
}

#[test]
fn lends_text(rt: HostRuntime) {
    let mut buffer = [0; MOST_TEXT];
    assert!(rt; addr_text(&mut buffer, &Addr::v6(1)) == b"::1".as_slice());
}

/// A prefix, an address, and whether it is in the prefix.
const ADDRESSES: [(&str, &str, bool); 10] = [
    ("10.0.0.0/8", "10.0.0.0", true),
    ("10.0.0.0/8", "10.255.255.255", true),
    ("10.0.0.0/8", "11.0.0.0", false),
    ("10.0.0.0/8", "9.255.255.255", false),
    ("10.0.0.0/8", "::aff:ffff", false),
    ("10.0.0.0/8", "a00::", false),
    ("::/0", "ffff:ffff:ffff:ffff:ffff:ffff:ffff:ffff", true),
    ("::/0", "0.0.0.0", false),
    ("::1/128", "::1", true),
    ("::1/128", "::", false),
];

/// Two prefixes, and whether the first is within the second.
const NESTED: [(&str, &str, bool); 5] = [
    ("10.128.0.0/9", "10.0.0.0/8", true),
    ("10.0.0.0/8", "10.128.0.0/9", false),
    ("10.0.0.0/8", "10.0.0.0/8", true),
    ("::1/128", "::/0", true),
    ("10.0.0.0/8", "::/0", false),
];

/// Whether the prefix contains the address, if both are read.
fn contains(prefix: &str, addr: &str) -> Option<bool> {
    let addr = read_addr(addr.as_bytes())?;
    Some(read_prefix(prefix.as_bytes())?.contains(&addr))
}

/// Whether the first prefix is within the second, if both are read.
fn is_within(inner: &str, outer: &str) -> Option<bool> {
    let outer = read_prefix(outer.as_bytes())?;
    Some(read_prefix(inner.as_bytes())?.is_within(&outer))
}

#[test]
fn tells_what_is_within_a_prefix(rt: HostRuntime) {
    for (prefix, addr, due) in ADDRESSES {
        assert_eq!(rt; contains(prefix, addr), Some(due), "{addr} in {prefix}");
    }
    for (inner, outer, due) in NESTED {
        assert_eq!(rt; is_within(inner, outer), Some(due), "{inner} in {outer}");
    }
}

/// The halves of the prefix, if it is read and has any.
fn halves_of(text: &str) -> Option<(Prefix, Prefix)> {
    let prefix = read_prefix(text.as_bytes())?;
    if prefix.len < prefix.family.width() {
        Some((prefix.half(false), prefix.half(true)))
    } else {
        None
    }
}

/// Whether the prefix has these halves.
fn has_halves(text: &str, low: &str, high: &str) -> bool {
    match halves_of(text) {
        Some(halves) => is_written_as(&halves.0, low) && is_written_as(&halves.1, high),
        None => false,
    }
}

#[test]
fn halves_prefixes(rt: HostRuntime) {
    for (text, low, high) in [
        ("0.0.0.0/0", "0.0.0.0/1", "128.0.0.0/1"),
        ("::2/127", "::2/128", "::3/128"),
    ] {
        assert!(rt; has_halves(text, low, high), "{text}");
    }
    assert_eq!(rt; halves_of("::2/128"), None);
    for (bits, place, due) in [(2, 1, true), (2, 0, false), (1 << 127, 127, true)] {
        assert_eq!(rt; bit_at(bits, place), due);
    }
}

#[test]
fn numbers_hops_in_the_order_of_their_first_use(rt: HostRuntime) {
    let mut hops = HopTable::new(rt.alloc());
    for (bits, number) in [(9, 1), (7, 2), (9, 1), (8, 3), (7, 2)] {
        assert_eq!(rt; hops.number(&Addr::v4(bits)), Ok(Hop(number)), "{bits}");
    }
    // what is found of it, and the number that it has or would get
    for (addr, found, next) in [
        (Addr::v4(8), Some(Hop(3)), Hop(3)),
        (Addr::v4(1), None, Hop(4)),
        (Addr::v6(8), None, Hop(4)),
    ] {
        assert_eq!(rt; hops.find(&addr), found);
        assert_eq!(rt; hops.next(&addr), Ok(next));
    }
    for (hop, addr) in [
        (Hop(2), Some(Addr::v4(7))),
        (Hop(4), None),
        (Hop::NONE, None),
    ] {
        assert_eq!(rt; hops.addr(hop), addr);
    }
    assert_eq!(rt; hops.room(), Ok(()));
}

#[test]
fn numbers_hops_up_to_the_last(rt: HostRuntime) {
    let mut hops = HopTable::new(rt.alloc());
    for number in 1..=65_534 {
        assert_eq!(rt; hops.number(&Addr::v4(u32::from(number))), Ok(Hop(number)));
    }
    for (bits, number) in [(65_535, Err(HopError::HopsFull)), (65_534, Ok(Hop(65_534)))] {
        assert_eq!(rt; hops.number(&Addr::v4(bits)), number);
    }
    assert_eq!(rt; hops.next(&Addr::v4(65_535)), Err(HopsFull));
    assert_eq!(rt; hops.find(&Addr::v4(65_535)), None);
}
