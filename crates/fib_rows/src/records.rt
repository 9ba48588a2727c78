//! The records of the rows in hexadecimal digits, field by field, as RFC 6396, sections 2, 4.3 and 4.4, and RFC 4271, section
//! 4.3, have them.

/// The header of a RIB_IPV4_UNICAST record with one entry after a prefix of one octet: Timestamp, Type, Subtype, Length.
const RIB: &str = "00000000 000d 0002 00000024";

/// The peer 192.0.2.1 of AS 64500 in a peer table: its type, BGP Identifier, address and AS number.
const FIRST_PEER: &str = "02 c0000201 c0000201 0000fbf4";

/// The peer 192.0.2.2 of AS 64501.
const SECOND_PEER: &str = "02 c0000202 c0000202 0000fbf5";

/// ORIGIN IGP.
const ORIGIN: &str = "400101 00";

/// AS_PATH of one sequence: 64500.
const PATH: &str = "400206 0201 0000fbf4";

/// AS_PATH of one sequence: 64501.
const OTHER_PATH: &str = "400206 0201 0000fbf5";

/// AS_PATH of one sequence: 64500 twice.
const LONG_PATH: &str = "40020a 0202 0000fbf4 0000fbf4";

/// NEXT_HOP 192.0.2.1.
const HOP_A: &str = "400304 c0000201";

/// NEXT_HOP 192.0.2.2.
const HOP_B: &str = "400304 c0000202";

/// The session of a BGP4MP record with AS numbers of four octets: the peer's, the local one, interface, family, both addresses.
const SESSION: &str = "0000fbf4 0000fbff 0000 0001 c0000201 c00002fe";

/// An entry of the first peer: its index, Originated Time, and the length of its attributes.
const FIRST_ENTRY: &str = "0000 00000000 0014";

/// An entry of the second peer.
const SECOND_ENTRY: &str = "0001 00000000 0014";

/// A peer table with the peer 192.0.2.1 of AS 64500.
pub const PEERS: &[&str] = &[
    "00000000 000d 0001 00000015",
    "00000000 0000 0001",
    FIRST_PEER,
];

/// 10.0.0.0/8 by 192.0.2.1.
pub const TEN: &[&str] = &[RIB, "00000000 08 0a 0001", FIRST_ENTRY, ORIGIN, PATH, HOP_A];

/// 10.1.0.0/16 by 192.0.2.2.
pub const TEN_ONE: &[&str] = &[
    "00000000 000d 0002 00000025",
    "00000000 10 0a01 0001",
    FIRST_ENTRY,
    ORIGIN,
    PATH,
    HOP_B,
];

/// 10.1.0.0/16 by 192.0.2.1.
pub const TEN_ONE_BY_A: &[&str] = &[
    "00000000 000d 0002 00000025",
    "00000000 10 0a01 0001",
    FIRST_ENTRY,
    ORIGIN,
    PATH,
    HOP_A,
];

/// 2001:db8::/32 by 2001:db8::1.
pub const SIX: &[&str] = &[
    "00000000 000d 0004 00000039",
    "00000000 20 20010db8 0001",
    "0000 00000000 0026",
    PATH,
    "800e1a 0002 01 10 20010db8000000000000000000000001 00 20 20010db8",
];

/// 10.0.0.1/32 by 192.0.2.1.
pub const ONE_ADDRESS: &[&str] = &[
    "00000000 000d 0002 00000027",
    "00000000 20 0a000001 0001",
    FIRST_ENTRY,
    ORIGIN,
    PATH,
    HOP_A,
];

/// 2001:db8::1/128 by 2001:db8::1, with the short form of MP_REACH_NLRI.
pub const ONE_OF_SIX: &[&str] = &[
    "00000000 000d 0004 0000003c",
    "00000000 80 20010db8000000000000000000000001 0001",
    "0000 00000000 001d",
    PATH,
    "800e11 10 20010db8000000000000000000000001",
];

/// The peers 192.0.2.1 of AS 64500 and 192.0.2.2 of AS 64501.
pub const TWO_PEERS: &[&str] = &[
    "00000000 000d 0001 00000022",
    "00000000 0000 0002",
    FIRST_PEER,
    SECOND_PEER,
];

/// 10.0.0.0/8 by 192.0.2.1 of the first peer and by 192.0.2.2 of the second, with paths of length 1.
pub const TEN_TWICE: &[&str] = &[
    "00000000 000d 0002 00000040",
    "00000000 08 0a 0002",
    FIRST_ENTRY,
    ORIGIN,
    PATH,
    HOP_A,
    SECOND_ENTRY,
    ORIGIN,
    OTHER_PATH,
    HOP_B,
];

/// The first peer announces 10.0.0.0/8 by 192.0.2.1 with a path of length 2.
pub const LONGER: &[&str] = &[
    "00000000 0010 0004 00000045",
    SESSION,
    "ffffffffffffffffffffffffffffffff 0031 02",
    "0000",
    "0018",
    ORIGIN,
    LONG_PATH,
    HOP_A,
    "08 0a",
];

/// The first peer announces 10.0.0.0/8 by 192.0.2.2.
pub const TEN_TO_B: &[&str] = &[
    "00000000 0010 0004 00000041",
    SESSION,
    "ffffffffffffffffffffffffffffffff 002d 02",
    "0000",
    "0014",
    ORIGIN,
    PATH,
    HOP_B,
    "08 0a",
];

/// The first peer announces 10.0.0.0/8 by 192.0.2.1.
pub const TEN_TO_A: &[&str] = &[
    "00000000 0010 0004 00000041",
    SESSION,
    "ffffffffffffffffffffffffffffffff 002d 02",
    "0000",
    "0014",
    ORIGIN,
    PATH,
    HOP_A,
    "08 0a",
];

/// The first peer announces 2001:db8::/32 by 2001:db8::2.
pub const SIX_TO_SECOND: &[&str] = &[
    "00000000 0010 0004 00000051",
    SESSION,
    "ffffffffffffffffffffffffffffffff 003d 02",
    "0000",
    "0026",
    PATH,
    "800e1a 0002 01 10 20010db8000000000000000000000002 00 20 20010db8",
];

/// The first peer announces 2001:db8::/32 by 2001:db8::3.
pub const SIX_TO_THIRD: &[&str] = &[
    "00000000 0010 0004 00000051",
    SESSION,
    "ffffffffffffffffffffffffffffffff 003d 02",
    "0000",
    "0026",
    PATH,
    "800e1a 0002 01 10 20010db8000000000000000000000003 00 20 20010db8",
];

/// The first peer withdraws 10.0.0.0/8 and announces it in one message.
pub const GONE_AND_BACK: &[&str] = &[
    "00000000 0010 0004 00000043",
    SESSION,
    "ffffffffffffffffffffffffffffffff 002f 02",
    "0002 08 0a",
    "0014",
    ORIGIN,
    PATH,
    HOP_A,
    "08 0a",
];

/// The first peer's session is lost.
pub const LOST: &[&str] = &["00000000 0010 0005 00000018", SESSION, "0006 0001"];

/// 10.0.0.0/8 in one octet more than it takes.
pub const TOO_WIDE: &[&str] = &[
    "00000000 000d 0002 00000025",
    "00000000 08 0aff 0001",
    FIRST_ENTRY,
    ORIGIN,
    PATH,
    HOP_A,
];

/// The longer path in a message whose Length is one too many.
pub const WRONG_LENGTH: &[&str] = &[
    "00000000 0010 0004 00000045",
    SESSION,
    "ffffffffffffffffffffffffffffffff 0032 02",
    "0000",
    "0018",
    ORIGIN,
    LONG_PATH,
    HOP_A,
    "08 0a",
];

/// 10.0.0.0/8 by 192.0.2.1 of the first peer, whose path is a sequence of two and a set of three, and by 192.0.2.2 of the second
/// with a sequence of three.
pub const SET_OF_THREE: &[&str] = &[
    "00000000 000d 0002 0000005a",
    "00000000 08 0a 0002",
    "0000 00000000 0026",
    ORIGIN,
    "400218 0202 0000fbf4 0000fbf6 0103 0000fbf7 0000fbf8 0000fbf9",
    HOP_A,
    "0001 00000000 001c",
    ORIGIN,
    "40020e 0203 0000fbf5 0000fbf6 0000fbf7",
    HOP_B,
];

/// A prefix of 33 bits.
pub const PREFIX_OF_33: &[&str] = &[RIB, "00000000 21 0a 0001", FIRST_ENTRY, ORIGIN, PATH, HOP_A];

/// A header whose Length is over the limit.
pub const LONG_HEADER: &[&str] = &["00000000 000d 0001 01000001"];

/// Withdrawn routes of three octets, the third of which begins the attributes' length.
pub const WIDE_WITHDRAWN: &[&str] = &[
    "00000000 0010 0004 00000043",
    SESSION,
    "ffffffffffffffffffffffffffffffff 002f 02",
    "0003 08 0a",
    "0014",
    ORIGIN,
    PATH,
    HOP_A,
    "08 0a",
];

/// 0.0.0.0/2 by 192.0.2.1, 64.0.0.0/2 by 192.0.2.2, 128.0.0.0/2 by 192.0.2.1, 192.0.0.0/2 by 192.0.2.2.
pub const QUARTERS: &[&str] = &[
    RIB,
    "00000000 02 00 0001",
    FIRST_ENTRY,
    ORIGIN,
    PATH,
    HOP_A,
    RIB,
    "00000001 02 40 0001",
    FIRST_ENTRY,
    ORIGIN,
    PATH,
    HOP_B,
    RIB,
    "00000002 02 80 0001",
    FIRST_ENTRY,
    ORIGIN,
    PATH,
    HOP_A,
    RIB,
    "00000003 02 c0 0001",
    FIRST_ENTRY,
    ORIGIN,
    PATH,
    HOP_B,
];

/// 0.0.0.0/3, 32.0.0.0/3 and so on to 192.0.0.0/3, all by 192.0.2.1.
pub const SEVEN_EIGHTHS: &[&str] = &[
    RIB,
    "00000000 03 00 0001",
    FIRST_ENTRY,
    ORIGIN,
    PATH,
    HOP_A,
    RIB,
    "00000001 03 20 0001",
    FIRST_ENTRY,
    ORIGIN,
    PATH,
    HOP_A,
    RIB,
    "00000002 03 40 0001",
    FIRST_ENTRY,
    ORIGIN,
    PATH,
    HOP_A,
    RIB,
    "00000003 03 60 0001",
    FIRST_ENTRY,
    ORIGIN,
    PATH,
    HOP_A,
    RIB,
    "00000004 03 80 0001",
    FIRST_ENTRY,
    ORIGIN,
    PATH,
    HOP_A,
    RIB,
    "00000005 03 a0 0001",
    FIRST_ENTRY,
    ORIGIN,
    PATH,
    HOP_A,
    RIB,
    "00000006 03 c0 0001",
    FIRST_ENTRY,
    ORIGIN,
    PATH,
    HOP_A,
];

/// 0.0.0.0/1 by 192.0.2.1.
pub const LOWER_HALF: &[&str] = &[RIB, "00000000 01 00 0001", FIRST_ENTRY, ORIGIN, PATH, HOP_A];

/// 0.0.0.0/1 and 128.0.0.0/1, both by 192.0.2.1.
pub const HALVES: &[&str] = &[
    RIB,
    "00000000 01 00 0001",
    FIRST_ENTRY,
    ORIGIN,
    PATH,
    HOP_A,
    RIB,
    "00000001 01 80 0001",
    FIRST_ENTRY,
    ORIGIN,
    PATH,
    HOP_A,
];

/// 0.0.0.0/1 and 128.0.0.0/2 by 192.0.2.1, 224.0.0.0/3 by 192.0.2.2.
pub const WITH_A_GAP: &[&str] = &[
    RIB,
    "00000000 01 00 0001",
    FIRST_ENTRY,
    ORIGIN,
    PATH,
    HOP_A,
    RIB,
    "00000001 02 80 0001",
    FIRST_ENTRY,
    ORIGIN,
    PATH,
    HOP_A,
    RIB,
    "00000002 03 e0 0001",
    FIRST_ENTRY,
    ORIGIN,
    PATH,
    HOP_B,
];

/// 0.0.0.0/0 by 192.0.2.1 of the second peer with a path of length 2, and then by 192.0.2.2 of the first, of length 1.
pub const ALL_TWICE: &[&str] = &[
    "00000000 000d 0002 00000043",
    "00000000 00 0002",
    "0001 00000000 0018",
    ORIGIN,
    "40020a 0202 0000fbf5 0000fbf5",
    HOP_A,
    FIRST_ENTRY,
    ORIGIN,
    PATH,
    HOP_B,
];

/// The first peer announces 128.0.0.0/1 by 192.0.2.1 with a path of length 1.
pub const UPPER_HALF: &[&str] = &[
    "00000000 0010 0004 00000041",
    SESSION,
    "ffffffffffffffffffffffffffffffff 002d 02",
    "0000",
    "0014",
    ORIGIN,
    PATH,
    HOP_A,
    "01 80",
];

/// The first peer withdraws 0.0.0.0/2.
pub const QUARTER_WITHDRAWN: &[&str] = &[
    "00000000 0010 0004 0000002d",
    SESSION,
    "ffffffffffffffffffffffffffffffff 0019 02",
    "0002",
    "02 00",
    "0000",
];

/// The first peer announces 0.0.0.0/0 by 192.0.2.2.
pub const ALL_TO_B: &[&str] = &[
    "00000000 0010 0004 00000040",
    SESSION,
    "ffffffffffffffffffffffffffffffff 002c 02",
    "0000",
    "0014",
    ORIGIN,
    PATH,
    HOP_B,
    "00",
];

/// 0.0.0.0/0 by 192.0.2.1, and within it 64.0.0.0/2 and 192.0.0.0/2 by 192.0.2.2.
pub const ALL_AND_QUARTERS: &[&str] = &[
    "00000000 000d 0002 00000023",
    "00000000 00 0001",
    FIRST_ENTRY,
    ORIGIN,
    PATH,
    HOP_A,
    RIB,
    "00000001 02 40 0001",
    FIRST_ENTRY,
    ORIGIN,
    PATH,
    HOP_B,
    RIB,
    "00000002 02 c0 0001",
    FIRST_ENTRY,
    ORIGIN,
    PATH,
    HOP_B,
];

/// 0.0.0.0/0 by 192.0.2.1, and within it 0.0.0.0/1 and 128.0.0.0/1 by 192.0.2.2.
pub const ALL_AND_HALVES: &[&str] = &[
    "00000000 000d 0002 00000023",
    "00000000 00 0001",
    FIRST_ENTRY,
    ORIGIN,
    PATH,
    HOP_A,
    RIB,
    "00000001 01 00 0001",
    FIRST_ENTRY,
    ORIGIN,
    PATH,
    HOP_B,
    RIB,
    "00000002 01 80 0001",
    FIRST_ENTRY,
    ORIGIN,
    PATH,
    HOP_B,
];

/// The first peer announces 0.0.0.0/0 by 192.0.2.3.
pub const ALL_TO_C: &[&str] = &[
    "00000000 0010 0004 00000040",
    SESSION,
    "ffffffffffffffffffffffffffffffff 002c 02",
    "0000",
    "0014",
    ORIGIN,
    PATH,
    "400304 c0000203",
    "00",
];

/// The first peer withdraws 0.0.0.0/0.
pub const ALL_WITHDRAWN: &[&str] = &[
    "00000000 0010 0004 0000002c",
    SESSION,
    "ffffffffffffffffffffffffffffffff 0018 02",
    "0001",
    "00",
    "0000",
];

/// A route of 16 bits by 192.0.2.1: what stands before the two octets of its prefix, and what stands after them.
pub const OF_16_BITS: (&[&str], &[&str]) = (
    &["00000000 000d 0002 00000025", "00000000 10"],
    &["0001", FIRST_ENTRY, ORIGIN, PATH, HOP_A],
);

/// A record of another type.
pub const OTHER: &[&str] = &["00000000 000c 0001 00000000"];

/// 10.0.0.0/8 of the first peer twice: path identifier 1 by 192.0.2.1, 2 by 192.0.2.2.
pub const TWO_PATHS: &[&str] = &[
    "00000000 000d 0008 00000048",
    "00000000 08 0a 0002",
    "0000 00000000 00000001 0014",
    ORIGIN,
    PATH,
    HOP_A,
    "0000 00000000 00000002 0014",
    ORIGIN,
    PATH,
    HOP_B,
];

/// The first peer withdraws path 1 of 10.0.0.0/8.
pub const PATH_WITHDRAWN: &[&str] = &[
    "00000000 0010 0009 00000031",
    SESSION,
    "ffffffffffffffffffffffffffffffff 001d 02",
    "0006 00000001 08 0a",
    "0000",
];

/// The same, with an octet of the withdrawn routes too few.
pub const PATH_CUT: &[&str] = &[
    "00000000 0010 0009 00000031",
    SESSION,
    "ffffffffffffffffffffffffffffffff 001d 02",
    "0005 00000001 08 0a",
    "0000",
];

/// 10.0.0.0/8 withdrawn and announced, with a NEXT_HOP of three octets.
pub const SHORT_HOP: &[&str] = &[
    "00000000 0010 0004 00000042",
    SESSION,
    "ffffffffffffffffffffffffffffffff 002e 02",
    "0002 08 0a",
    "0013",
    ORIGIN,
    PATH,
    "400303 c00002",
    "08 0a",
];

/// The same with a segment of type 5.
pub const WRONG_SEGMENT: &[&str] = &[
    "00000000 0010 0004 00000043",
    SESSION,
    "ffffffffffffffffffffffffffffffff 002f 02",
    "0002 08 0a",
    "0014",
    ORIGIN,
    "400206 0501 0000fbf4",
    HOP_A,
    "08 0a",
];

/// The same with the flags of ORIGIN wrong too.
pub const WRONG_SEGMENT_AND_FLAGS: &[&str] = &[
    "00000000 0010 0004 00000043",
    SESSION,
    "ffffffffffffffffffffffffffffffff 002f 02",
    "0002 08 0a",
    "0014",
    "500101 00",
    "400206 0501 0000fbf4",
    HOP_A,
    "08 0a",
];

/// A RIB entry with a segment of type 5.
pub const TEN_WRONG_SEGMENT: &[&str] = &[
    RIB,
    "00000000 08 0a 0001",
    FIRST_ENTRY,
    ORIGIN,
    "400206 0501 0000fbf4",
    HOP_A,
];

/// 10.0.0.0/8 with an Entry Count of two, of which one is there.
pub const TEN_OF_TWO: &[&str] = &[RIB, "00000000 08 0a 0002", FIRST_ENTRY, ORIGIN, PATH, HOP_A];

/// 10.0.0.0/8 if ORIGIN's flags give it a length of two octets, which is 256.
pub const TEN_LONG_ORIGIN: &[&str] = &[
    RIB,
    "00000000 08 0a 0001",
    FIRST_ENTRY,
    "500101 00",
    PATH,
    HOP_A,
];

/// 10.0.0.0/8 if AS_PATH's segment has two AS numbers.
pub const TEN_SHORT_SEGMENT: &[&str] = &[
    RIB,
    "00000000 08 0a 0001",
    FIRST_ENTRY,
    ORIGIN,
    "400206 0202 0000fbf4",
    HOP_A,
];
