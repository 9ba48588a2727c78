//! Rows and their text.

use fib_addr::Addr;
use std::alloc::{AllocError, Global};
use std::test::Fail;
use step_script::{Row, StepText};

/// The text of these rows.
fn text_of(alloc: Global, rows: &[Row]) -> Result<Vec<u8>, AllocError> {
    let mut text = StepText::new(alloc);
    for row in rows {
        text.put(*row)?;
    }
    text.finish()
}

#[test]
fn rows_are_numbered_from_one(rt: HostRuntime) -> Result<(), Fail> {
    // What stands after the number of a step.
    let cases: [(Row, &str); 17] = [
        (Row::Opened(0), "open,0"),
        (Row::Full, "full"),
        (Row::WentOn(63), "on,63"),
        (
            Row::Answered(5, Some(Addr::v4(0xc000_0201))),
            "hop,5,192.0.2.1",
        ),
        (
            Row::Answered(64, Some(Addr::v6(0x2001_0db8 << 96 | 1))),
            "hop,64,2001:db8::1",
        ),
        (Row::Answered(127, None), "hop,127,none"),
        (Row::NotOpen(66), "notopen,66"),
        (Row::Prepared, "prepared"),
        (Row::Pinned(10), "pinned,10"),
        (Row::Busy, "busy"),
        (Row::Stored, "stored"),
        (Row::Ended, "ended"),
        (Row::Left, "left"),
        (Row::Cancelled, "cancelled"),
        (Row::Late, "late"),
        (Row::Nothing, "nothing"),
        (Row::Opened(64), "open,64"),
    ];
    let alloc = rt.alloc();
    let mut rows = Vec::new(alloc);
    let mut expected = String::new(alloc);
    for (place, (row, fields)) in cases.iter().enumerate() {
        rows.push(*row)?;
        let line = format!(in alloc; "step,{},{fields}\n", place + 1)?;
        expected.push_str(&line)?;
        let text = text_of(alloc, &rows)?;
        assert_eq!(rt; text.as_slice(), expected.as_bytes());
    }
    Ok(())
}
