//! Texts and the first bad line of each, one text read whole, and the most hops.

use fib_addr::{Addr, Entry, Family, Hop, MOST_TEXT, Prefix, addr_text};
use printed_text::{BadRow, PrintedError, Row, read_printed};
use std::test::Fail;

/// Texts, and the first line of each that is no row, with its why.
const TEXTS: [(&str, Option<(u64, u8)>); 67] = [
    ("foo\n", Some((1, 2))),
    ("route,10.0.0.0/8\n", Some((1, 3))),
    ("route,10.0.0.0/33,192.0.2.1\n", Some((1, 4))),
    ("route,10.0.0.1/8,192.0.2.1\n", Some((1, 4))),
    ("route,10.0.0.0/8,drop\n", Some((1, 1))),
    ("cert,join,10.0.0.0/7,01\n", Some((1, 5))),
    ("cert,bound,5,1\n", Some((1, 2))),
    ("\n\r\nchange", Some((3, 3))),
    ("\n\r\nchange,1", Some((3, 3))),
    ("\n\r\nchange,x", Some((3, 5))),
    ("\n\r\nchange,1,*", Some((3, 2))),
    ("\n\r\nchange,1,-,::/0,::", Some((3, 3))),
    ("\n\r\ncert", Some((3, 3))),
    ("\n\r\ncert,leaf", Some((3, 3))),
    ("\n\r\ncert,foo,::/0,::", Some((3, 2))),
    ("\n\r\nreport,records,1,2", Some((3, 3))),
    ("\n\r\nreport,foo,1", Some((3, 2))),
    ("\n\r\nanswer,10.0.0.1,drop", Some((3, 1))),
    ("\n\r\ntable,10.0.0.0/8,none", Some((3, 1))),
    ("\n\r\nvisits,1.2.3.4,18446744073709551616", Some((3, 5))),
    ("\n\r\nroute,10.0.0.0/08,::", Some((3, 4))),
    ("cert,bound,5", Some((1, 3))),
    ("report,foo", Some((1, 3))),
    ("report,invalid,1", Some((1, 2))),
    (",", Some((1, 2))),
    ("route,10.0.0.0/8,192.0.2.1,", Some((1, 3))),
    ("change,1,+,::/0", Some((1, 3))),
    ("change,01,*", Some((1, 5))),
    ("change,1,+,x,y", Some((1, 4))),
    ("table,x,y", Some((1, 4))),
    ("visits,x,y", Some((1, 1))),
    ("answer,x,y", Some((1, 1))),
    ("cert,join,x,y", Some((1, 4))),
    ("cert,bound,x,y", Some((1, 2))),
    ("report,x,y", Some((1, 2))),
    ("cert,leaf,x,y", Some((1, 4))),
    ("least,::/0,none", Some((1, 1))),
    ("cert,leaf,::/0,drop", Some((1, 1))),
    ("moves", Some((1, 3))),
    ("moves,1", Some((1, 3))),
    ("moves,1,2,3", Some((1, 3))),
    ("moves,x,02", Some((1, 5))),
    ("moves,1,02", Some((1, 5))),
    ("moves,1,0\nmoves,18446744073709551615,2", None),
    ("invalid", Some((1, 3))),
    ("invalid,x,y,z,none,x,y", Some((1, 3))),
    ("invalid,x,y,z,none,x,y,z,", Some((1, 3))),
    ("invalid,x,y,z,drop,x,y,z", Some((1, 4))),
    ("invalid,10.0.0.0/8,y,z,drop,x,y,z", Some((1, 1))),
    ("invalid,10.0.0.0/8,::1,z,drop,x,y,z", Some((1, 5))),
    ("invalid,10.0.0.0/8,::1,1,drop,x,y,z", Some((1, 5))),
    ("invalid,10.0.0.0/8,::1,1,none,x,y,z", Some((1, 4))),
    ("invalid,10.0.0.0/8,::1,1,none,::/0,y,z", Some((1, 5))),
    ("invalid,10.0.0.0/8,::1,1,none,::/0,1,none", Some((1, 5))),
    (
        "invalid,10.0.0.0/8,192.0.2.1,64500,18446744073709551616,10.0.0.0/8,8,64501",
        Some((1, 5)),
    ),
    (
        "invalid,10.0.0.0/8,192.0.2.1,64500,64500,10.0.0.0/8,8,64501",
        None,
    ),
    (
        "invalid,10.0.0.0/8,::1,0,none,::/0,999,18446744073709551615",
        None,
    ),
    ("", None),
    ("\n\r\n\n", None),
    (
        "change,1,-,::/0\nchange,18446744073709551615,+,::/0,drop\r\n\nchange,1,=,10.0.0.0/8,::1\nanswer,::,none\nvisits,::,0\ntable,::/0,drop\nreport,leaves,7",
        None,
    ),
    (
        "change,1,-,::/0\nchange,18446744073709551615,+,::/0,drop\r\n\nchange,1,=,10.0.0.0/8,::1\nanswer,::,none\nvisits,::,0\ntable,::/0,drop\nreport,leaves,7\r",
        Some((8, 5)),
    ),
    (
        "change,1,-,::/0\nchange,18446744073709551615,+,::/0,drop\r\n\nchange,1,=,10.0.0.0/8,::1\nanswer,::,none\nvisits,::,0\ntable,::/0,drop\nreport,leaves,7\r\r\n",
        Some((8, 5)),
    ),
    (
        "change,1,-,::/0\nchange,18446744073709551615,+,::/0,drop\r\n\nchange,1,=,10.0.0.0/8,::1\nanswer,::,none\nvisits,::,0\ntable,::/0,drop\nreport,leaves,7\n\nfoo\r\nfoo",
        Some((10, 2)),
    ),
    ("route,::/0,::1\r\nfoo", Some((2, 2))),
    ("foo\rfoo", Some((1, 2))),
    (" route,::/0,::1", Some((1, 2))),
    ("route,::/0,::1\0", Some((1, 1))),
];

#[test]
fn bad_lines(rt: HostRuntime) -> Result<(), Fail> {
    for (text, bad) in TEXTS {
        let expected = bad.map(|(line, why)| PrintedError::BadRow(BadRow { line, why }));
        assert_eq!(rt;
            read_printed(rt.alloc(), text.as_bytes()).err(),
            expected,
            "{text}"
        );
    }
    Ok(())
}

#[test]
fn whole_text(rt: HostRuntime) -> Result<(), Fail> {
    let text = "\
cert,leaf,0.0.0.0/1,none
route,128.0.0.0/2,192.0.2.2
table,0.0.0.0/0,192.0.2.9

least,128.0.0.0/1,192.0.2.1\r
least,0.0.0.0/1,drop
route,192.0.0.0/2,192.0.2.1
cert,leaf,128.0.0.0/2,192.0.2.2
cert,join,0.0.0.0/0,1
cert,bound,6,2
report,events,3";
    let printed = read_printed(rt.alloc(), text.as_bytes())?;
    let low = Prefix::new(&Addr::v4(0), 1);
    let high = Prefix::new(&Addr::v4(0x8000_0000), 1);
    let third = Prefix::new(&Addr::v4(0x8000_0000), 2);
    let fourth = Prefix::new(&Addr::v4(0xc000_0000), 2);
    let routes = [
        Entry {
            prefix: third,
            hop: Hop(1),
        },
        Entry {
            prefix: fourth,
            hop: Hop(2),
        },
    ];
    let least = [
        Entry {
            prefix: high,
            hop: Hop(2),
        },
        Entry {
            prefix: low,
            hop: Hop::NONE,
        },
    ];
    let rows = [
        Row::Leaf(low, Hop::NONE),
        Row::Leaf(third, Hop(1)),
        Row::Join(Prefix::new(&Addr::v4(0), 0), 1),
        Row::Bound(Family::V6, 2),
    ];
    assert_eq!(rt; printed.routes.as_slice(), routes.as_slice());
    assert_eq!(rt; printed.least.as_slice(), least.as_slice());
    let mut left = printed.rows.rows();
    for row in rows {
        assert_eq!(rt; left.next(), Some(row));
    }
    assert_eq!(rt; left.next(), None);
    assert_eq!(rt; printed.hops.addr(Hop(1)), Some(Addr::v4(0xc000_0202)));
    assert_eq!(rt; printed.hops.addr(Hop(3)), None);
    Ok(())
}

#[test]
fn most_hops(rt: HostRuntime) -> Result<(), Fail> {
    let mut text = Vec::new(rt.alloc());
    for n in 0..65_534 {
        let mut buffer = [0; MOST_TEXT];
        let addr = addr_text(&mut buffer, &Addr::v4(0x0b00_0000 + n));
        text.extend_from_slice(b"route,0.0.0.0/0,")?;
        text.extend_from_slice(addr)?;
        text.push(b'\n')?;
    }
    let printed = read_printed(rt.alloc(), &text)?;
    assert_eq!(rt;
        printed.hops.find(&Addr::v4(0x0b00_fffd)),
        Some(Hop(65_534))
    );
    text.extend_from_slice(b"table,::/0,::1\nleast,::/0,::1")?;
    let bad = PrintedError::BadRow(BadRow {
        line: 65_536,
        why: 6,
    });
    assert_eq!(rt; read_printed(rt.alloc(), &text).err(), Some(bad));
    Ok(())
}

#[test]
fn a_refusal_has_its_numbers_in_place(rt: HostRuntime) -> Result<(), Fail> {
    let alloc = rt.alloc();
    let bad = PrintedError::BadRow(BadRow { line: 3, why: 5 });
    assert_eq!(rt; format!(in alloc; "{bad}")?.as_str(), "bad line 3 why 5");
    Ok(())
}
