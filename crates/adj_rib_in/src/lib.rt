//! The flat base of the Adj-RIBs-In, the candidates (RFC 4271, 3.2): routes that come in the order of prefixes, in a few octets each.
//!
//! A row for each prefix, in order, with a run of slots, one for each path source of it. A slot says in numbers
//! which peer's route it is, with its path identifier, the length of its path and its next hop, in 20 octets: its place implies
//! its row. A row takes 24 octets. The slots of a peer make a chain, so that a lost session costs what the peer has. A slot keeps
//! its place: if nothing is offered there any more it takes the next offer of its path source. Only when a peer's last slots
//! offer nothing they are dropped for good, so that a chain isn't walked twice over slots that a lost session emptied.
//!
//! Here are also the keys by which routes are found in other orders: path keys and ranks.
#![tactic(auto)]

mod flat;
mod keys;
mod row_list;
mod row_table;
mod rows;
mod slot;
mod ways;

pub use flat::Flat;
pub use keys::{Candidate, PathAttrs, PathKey, Rank};
pub use ways::ViaAttrs;
