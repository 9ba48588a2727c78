//! Peers and what they say of prefixes, over the addresses and prefixes of `fib_addr`, which come through here.
#![tactic(auto)]

mod event;
mod laws;
mod sink;

pub use event::{Cand, Elem, Event, Peer, Via};
pub use fib_addr::{
    Addr, Answers, Entry, Family, Hop, HopError, HopTable, HopsFull, MOST_HOPS, MOST_TEXT, Prefix,
    addr_text, bit_at, prefix_text, read_addr, read_ipv4, read_prefix,
};
pub use laws::{candidate_law, peer_order_law, via_order_law};
pub use sink::CandSink;
