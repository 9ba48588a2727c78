//! A whole text, written out by hand.

use cert_model::Row;
use fib_addr::{Addr, Entry, Family, Hop, HopTable, Prefix};
use fib_delta::Change;
use fib_report::{Answer, Invalid, Moves, Report, Run, RunText, report_text, write_run};
use std::test::Fail;

#[test]
fn one_route(rt: HostRuntime) -> Result<(), Fail> {
    let ten = Prefix::new(&Addr::v4(0x0a00_0000), 8);
    let all = Prefix::new(&Addr::v4(0), 0);
    let low = Prefix::new(&Addr::v4(0), 1);
    let high = Prefix::new(&Addr::v4(0x8000_0000), 1);
    let mut hops = HopTable::new(rt.alloc());
    let hop = hops.number(&Addr::v4(0xc000_0201))?;
    let run = Run {
        routes: vec![in rt.alloc(); Entry { prefix: ten, hop }]?,
        invalid: Vec::new(rt.alloc()),
        changes: vec![in rt.alloc(); (0, Change::Add(ten, hop))]?,
        moves: vec![in rt.alloc();
            Moves { event: 1, count: 5 },
            Moves {
                event: u64::MAX,
                count: 0
            },
        ]?,
        answers: vec![in rt.alloc();
            Answer {
                addr: Addr::v4(0x0a01_0203),
                hop,
                visits: 2
            },
            Answer {
                addr: Addr::v4(0x0b00_0001),
                hop: Hop::NONE,
                visits: 0
            },
        ]?,
        table: vec![in rt.alloc(); Entry { prefix: ten, hop }]?,
        least: vec![in rt.alloc(); Entry { prefix: ten, hop }]?,
        cert: vec![in rt.alloc();
            Row::Leaf(low, Hop::NONE),
            Row::Leaf(high, hop),
            Row::Join(all, 1),
            Row::Bound(Family::V4, 2),
            Row::Bound(Family::V6, 0),
        ]?,
        report: Report {
            records: 2,
            skipped: 0,
            events: 1,
            routes: 1,
            entries: 1,
            nodes: 2,
            leaves: 5,
            treated: 3,
        },
    };
    let mut out = Vec::new(rt.alloc());
    write_run(rt.alloc(), &mut out, &run, &hops)?;
    let want = "\
route,10.0.0.0/8,192.0.2.1
change,0,+,10.0.0.0/8,192.0.2.1
moves,1,5
moves,18446744073709551615,0
answer,10.1.2.3,192.0.2.1
visits,10.1.2.3,2
answer,11.0.0.1,none
visits,11.0.0.1,0
table,10.0.0.0/8,192.0.2.1
least,10.0.0.0/8,192.0.2.1
cert,leaf,0.0.0.0/1,none
cert,leaf,128.0.0.0/1,192.0.2.1
cert,join,0.0.0.0/0,1
cert,bound,4,2
cert,bound,6,0
report,records,2
report,skipped,0
report,events,1
report,routes,1
report,entries,1
report,nodes,2
report,leaves,5
report,treated,3
";
    assert_eq!(rt; out.as_slice(), want.as_bytes());
    let report = report_text(rt.alloc(), &run.report)?;
    assert!(rt; want.as_bytes().ends_with(&report));
    assert!(rt; report.starts_with(b"report,records,2\n"));
    Ok(())
}

#[test]
fn invalid_announcements(rt: HostRuntime) -> Result<(), Fail> {
    let ten = Prefix::new(&Addr::v4(0x0a00_0000), 8);
    let hops = HopTable::new(rt.alloc());
    let mut text = RunText::new(rt.alloc(), &hops);
    text.invalids(&[
        Invalid {
            prefix: ten,
            vrp_prefix: ten,
            peer: Addr::v4(0xc000_0201),
            origin: Some(64_500),
            peer_as: 64_500,
            vrp_as: 64_501,
            maxlen: 8,
        },
        Invalid {
            prefix: Prefix::new(&Addr::v6(0x2001_0db8 << 96), 32),
            vrp_prefix: Prefix::new(&Addr::v6(0), 0),
            peer: Addr::v6(1),
            origin: None,
            peer_as: u32::MAX,
            vrp_as: 0,
            maxlen: 128,
        },
    ])?;
    let text = text.finish()?;
    let want = "\
invalid,10.0.0.0/8,192.0.2.1,64500,64500,10.0.0.0/8,8,64501
invalid,2001:db8::/32,::1,4294967295,none,::/0,128,0
";
    assert_eq!(rt; text.as_slice(), want.as_bytes());
    Ok(())
}
