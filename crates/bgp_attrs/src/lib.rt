//! BGP-4 path attributes: what an attribute list says of path, next hop and multiprotocol routes (RFC 4271, sections 4.3 and
//! 5; RFC 4760; RFC 6396, section 4.3.4).
//!
//! Everything is read where it lies: no memory is taken, and a list costs its octets. Used are AS_PATH, NEXT_HOP,
//! MP_REACH_NLRI and MP_UNREACH_NLRI; all other attributes are passed over unread. A list that can't be read gives the rule
//! (`wire_model::Rule`) that its first wrong field breaks.
#![tactic(auto)]

mod families;
mod hop_octets;
mod hops;
mod kinds;
mod list;
mod multiprotocol;
mod path;
mod prefix_list;
mod reach;
mod refusal;
mod rib;
mod wire_prefix;

pub use families::{address, family, family_of};
pub use hop_octets::HopOctets;
pub use list::{Attrs, read_attrs};
pub use multiprotocol::{Reach, Unreach};
pub use path::{path_length, path_origin};
pub use prefix_list::check_nlri;
pub use refusal::Refusal;
pub use rib::{RibAttrs, read_rib_attrs};
pub use wire_model::{Place, Rule};
pub use wire_prefix::{Nlri, WireFault, next_nlri, path_id, prefix, read_wire_prefix};
