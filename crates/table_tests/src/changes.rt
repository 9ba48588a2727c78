//! Changes lead from one table to another.

use crate::common::prefix;
use fib_addr::{Entry, Hop};
use fib_delta::{ApplyError, Change, Table};

#[test]
fn a_router_takes_changes(rt: HostRuntime) -> Result<(), ApplyError> {
    let mut table = Table::new(rt.alloc());
    let tens = prefix(0x0a00_0000, 8);
    let elevens = prefix(0x0b00_0000, 8);
    for (change, due) in [
        (Change::Add(tens, Hop(1)), Ok(())),
        (Change::Add(tens, Hop(1)), Err(ApplyError::Already)),
        (Change::Remove(elevens), Err(ApplyError::NotThere)),
        (Change::Replace(elevens, Hop(2)), Err(ApplyError::NotThere)),
        (Change::Replace(tens, Hop(2)), Ok(())),
        (Change::Add(elevens, Hop(3)), Ok(())),
        (Change::Remove(elevens), Ok(())),
    ] {
        assert_eq!(rt; table.apply(&change), due);
    }
    let held = [Entry {
        prefix: tens,
        hop: Hop(2),
    }];
    assert_eq!(rt; table.entries()?.as_slice(), held.as_slice());
    Ok(())
}
