//! What a run gives.
//!
//! Plain lists, in the order in which they are to be written. Hops stand as their numbers in a `HopTable`, which the report
//! is given beside the run. `specs/Views.antt` says what contracts see of it.

use fib_addr::{Addr, Entry, Hop, Prefix};
use fib_delta::Change;
use printed_text::Row;

/// What a run counted.
#[derive(Clone, Copy, Debug, PartialEq, Eq)]
pub struct Report {
    /// The records of the inputs, skipped ones too.
    pub records: u64,
    /// The records that were skipped.
    pub skipped: u64,
    /// The elementary events.
    pub events: u64,
    /// The routes.
    pub routes: u64,
    /// The entries of the table.
    pub entries: u64,
    /// The places that the nodes of both families' tries need.
    pub nodes: u64,
    /// The places that their leaves need.
    pub leaves: u64,
    /// The messages that were treated as withdrawals (RFC 7606, section 2).
    pub treated: u64,
}

/// An announcement that is Invalid by a list of validated ROA payloads (VRPs; RFC 6811, section 2), and a VRP that covers it.
#[derive(Clone, Copy, Debug, PartialEq, Eq)]
pub struct Invalid {
    /// The prefix that is announced.
    pub prefix: Prefix,
    /// The VRP's prefix.
    pub vrp_prefix: Prefix,
    /// The address of the peer that announces it.
    pub peer: Addr,
    /// The AS in which the route originates, if it has one.
    pub origin: Option<u32>,
    /// The peer's AS.
    pub peer_as: u32,
    /// The VRP's AS.
    pub vrp_as: u32,
    /// The most bits that the VRP allows.
    pub maxlen: u8,
}

/// How many changes an event needed.
#[derive(Clone, Copy, Debug, PartialEq, Eq)]
pub struct Moves {
    /// The event's number.
    pub event: u64,
    /// How many changes.
    pub count: u64,
}

/// An address that was asked for.
#[derive(Clone, Copy, Debug, PartialEq, Eq)]
pub struct Answer {
    /// The address.
    pub addr: Addr,
    /// Its hop's number, `Hop::NONE` if no hop was found.
    pub hop: Hop,
    /// How many nodes its lookup visits.
    pub visits: u8,
}

/// What a run gives: the routes that it ended with, the announcements that are Invalid, the changes with their events, how many
/// each event needed, the answers, the table, the least table with its certificate, and the counts.
#[derive(Debug, Drop)]
pub struct Run {
    /// The routes after the last event, in the order of prefixes.
    pub routes: Vec<Entry>,
    /// The announcements that are Invalid, in their order; none in a run without a list of VRPs.
    pub invalid: Vec<Invalid>,
    /// The changes to the table, each with its event's number.
    pub changes: Vec<(u64, Change)>,
    /// How many changes each event needed that changed a chosen hop; none in a run that doesn't ask for the fewest.
    pub moves: Vec<Moves>,
    /// The addresses asked for, with their answers.
    pub answers: Vec<Answer>,
    /// The table at the end.
    pub table: Vec<Entry>,
    /// The least table; `Hop::NONE` drops.
    pub least: Vec<Entry>,
    /// The rows that prove it least: those of IPv4 with its bound, then those of IPv6 with its bound.
    pub cert: Vec<Row>,
    /// What was counted.
    pub report: Report,
}
