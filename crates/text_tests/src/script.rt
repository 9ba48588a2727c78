//! Scripts and the first bad line of each, and one read whole.

use fib_addr::Addr;
use std::test::Fail;
use step_script::{BadRow, ScriptError, Step, read_script};

/// Scripts, and the first line of each that has no step, with its why.
const SCRIPTS: [(&str, Option<(u64, u8)>); 34] = [
    ("open 10.1.2.3\n", None),
    ("open ::1", None),
    ("go 0\n", None),
    ("go 127", None),
    ("prepare\r\nstore\nend\ncancel", None),
    ("", None),
    ("\n\r\n\n", None),
    ("foo", Some((1, 2))),
    ("Open ::1", Some((1, 2))),
    ("open", Some((1, 3))),
    ("open 10.1.2", Some((1, 1))),
    ("open 10.1.2.3 ", Some((1, 3))),
    ("open 10.1.2.3 4", Some((1, 3))),
    ("open  10.1.2.3", Some((1, 3))),
    ("go", Some((1, 3))),
    ("go 128", Some((1, 5))),
    ("go 00", Some((1, 5))),
    ("go 07", Some((1, 5))),
    ("go x", Some((1, 5))),
    ("go -1", Some((1, 5))),
    ("go 1 2", Some((1, 3))),
    ("go ", Some((1, 5))),
    ("prepare ", Some((1, 3))),
    ("prepare now", Some((1, 3))),
    ("store 1", Some((1, 3))),
    ("end 0", Some((1, 3))),
    ("cancel cancel", Some((1, 3))),
    (" go 1", Some((1, 2))),
    ("go\t1", Some((1, 2))),
    ("\n\r\nopen ::1\n\ngo 300\nfoo", Some((5, 5))),
    ("open ::1\r", Some((1, 1))),
    ("go 1\r\r\n", Some((1, 5))),
    ("end\rend", Some((1, 2))),
    ("open fe80::1%1", Some((1, 1))),
];

#[test]
fn bad_lines(rt: HostRuntime) -> Result<(), Fail> {
    for (text, bad) in SCRIPTS {
        let expected = bad.map(|(line, why)| ScriptError::BadLine(BadRow { line, why }));
        assert_eq!(rt;
            read_script(rt.alloc(), text.as_bytes()).err(),
            expected,
            "{text}"
        );
    }
    Ok(())
}

#[test]
fn a_script(rt: HostRuntime) -> Result<(), Fail> {
    let text = "open 10.1.2.3\n\nopen ::1\r\nprepare\nstore\ngo 64\ngo 127\nend\ncancel";
    let steps = [
        Step::Open(Addr::v4(0x0a01_0203)),
        Step::Open(Addr::v6(1)),
        Step::Prepare,
        Step::Store,
        Step::Go(64),
        Step::Go(127),
        Step::End,
        Step::Cancel,
    ];
    match read_script(rt.alloc(), text.as_bytes()) {
        Ok(read) => assert!(rt; read.as_slice() == steps.as_slice()),
        Err(_) => assert!(rt; false, "not read"),
    }
    Ok(())
}
