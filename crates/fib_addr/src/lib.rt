//! Addresses, prefixes, their text, and the numbers of next hops; regions of addresses, asked by halves; who takes the entries
//! of a table, one by one; a count of steps.
//!
//! An address is the number of its bits, a prefix that of its first bits filled with zeros; contracts see both as lists
//! of bits, the most significant first (`table_model`). Prefixes are filled and cut in this crate; the trees above take
//! a prefix's bits one at a time.
//!
//! A walk that needs the answers of many parts of a table goes down from one region to its halves, and stops at a region that
//! has one answer. A structure that keeps its own place in a table implements `Region` by one step down; of any other table
//! `PrefixRegion` asks each prefix from the table's root.
#![tactic(auto)]

mod addr;
mod answers;
mod entry;
mod hop_set;
mod hops;
mod ipv6;
mod laws;
mod merge;
mod prefix;
mod region;
mod region_laws;
mod sink;
mod steps;
mod text;

pub use addr::Addr;
pub use answers::Answers;
pub use entry::{Entry, Hop, push_entry};
pub use hop_set::{HopSet, Joint};
pub use hops::{HopError, HopTable, HopsFull, MOST_HOPS};
pub use laws::{hops_law, order_law, prefix_text_law, text_law, uniform_law};
pub use prefix::{Prefix, bit_at};
pub use region::{PrefixRegion, Region};
pub use region_laws::{one_answer_law, part_law, table_law};
pub use sink::{EntrySink, emit_entry};
pub use steps::Steps;
pub use table_model::Family;
pub use text::{MOST_TEXT, addr_text, prefix_text, read_addr, read_ipv4, read_number, read_prefix};
