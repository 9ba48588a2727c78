//! A row.

use fib_addr::Addr;

/// What became of a step. A number is a lookup's printed one: those of IPv4 count from 0 and those of IPv6 from 64.
#[derive(Clone, Copy, Debug, PartialEq, Eq)]
pub enum Row {
    /// A lookup was opened, and got this number.
    Opened(u8),
    /// 64 lookups of the address's family are open.
    Full,
    /// The lookup was led on to a node.
    WentOn(u8),
    /// The lookup has its answer, the hop or none, and is closed.
    Answered(u8, Option<Addr>),
    /// No lookup of this number is open.
    NotOpen(u8),
    /// The next event is begun.
    Prepared,
    /// The lookup of this number holds what the next event would need.
    Pinned(u8),
    /// An event is begun already.
    Busy,
    /// A store was made.
    Stored,
    /// The event that was begun is over.
    Ended,
    /// The event that is begun has stores left.
    Left,
    /// The event that was begun is forgotten, and the next one again.
    Cancelled,
    /// The event that is begun made a store.
    Late,
    /// No event is left, none is begun, or no store is left.
    Nothing,
}
