//! Printed texts that are compared with the first.

use fib_addr::Addr;
use fib_io::SureInputs;
use fib_same::{Difference, compare_texts};
use printed_text::Kind;
use std::alloc::Global;
use std::test::Fail;

/// Texts by name.
const TEXTS: [(&str, &str); 4] = [
    ("whole", "table,0.0.0.0/0,192.0.2.1"),
    ("half", "table,0.0.0.0/1,192.0.2.1"),
    ("empty", ""),
    ("drop", "table,10.0.0.0/8,drop"),
];

/// The texts, in memory.
fn texts(alloc: Global) -> Result<SureInputs, Fail> {
    let mut names = Vec::new(alloc);
    for (name, text) in TEXTS {
        let name = String::from_str(alloc, name)?;
        names.push((name, Vec::from_slice(alloc, text.as_bytes())?))?;
    }
    Ok(SureInputs::new(names))
}

/// The text of this number has no hop for the upper half of the addresses.
fn half(text: u64) -> Option<Difference> {
    Some(Difference {
        text,
        addr: Addr::v4(0x8000_0000),
        first: Some(Addr::v4(0xc000_0201)),
        other: None,
    })
}

#[test]
fn names_the_least_address_and_its_first_text(rt: HostRuntime) -> Result<(), Fail> {
    let alloc = rt.alloc();
    let cases: [(&str, &str, &[&str], Option<Difference>); 3] = [
        ("half of it is missing", "whole", &["half"], half(2)),
        ("a drop is as no entry", "empty", &["drop"], None),
        ("a copy is alike", "whole", &["whole", "half"], half(3)),
    ];
    for (case, first, rest, due) in cases {
        let mut inputs = texts(alloc)?;
        let found = compare_texts(alloc, &mut inputs, first, rest, Kind::Table);
        assert!(rt; found == Ok(due), "{case}");
    }
    Ok(())
}
