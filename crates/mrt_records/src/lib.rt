//! MRT records by their types: peer tables and RIB records of TABLE_DUMP_V2, and BGP4MP (RFC 6396, sections 4.3 and 4.4).
//!
//! `read_record` takes a record's type, subtype and body, after the latest peer table, and puts its events into a list that is
//! used again; records of other types and subtypes are skipped. `read_rib` and `read_bgp4mp` read bodies of one type.
//!
//! A body that can't be read gives the rule (`wire_model::Rule`) that its first wrong field breaks, and none of its events.
//! Reading costs the body's octets; the memory is that of its events.
#![tactic(auto)]

mod bgp4mp;
mod event;
mod message;
mod number;
mod peer_table;
mod record;
mod rib;
mod update;

pub use bgp_attrs::{Refusal, WireFault, read_wire_prefix};
pub use bgp4mp::{push_bgp4mp, read_bgp4mp};
pub use event::push_event;
pub use message::{push_message, read_message};
pub use peer_table::PeerTable;
pub use record::{RecordTold, read_record};
pub use rib::{push_rib, read_rib};
