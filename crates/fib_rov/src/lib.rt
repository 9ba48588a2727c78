//! Route origin validation (RFC 6811): what a list of validated ROA payloads (VRPs) says of a route.
//!
//! `Vrps` is such a list with an index by prefix. A route is judged by one search among the VRPs and by those that cover it.
//!
//! As text a list has a VRP `PREFIX,MAXLEN,AS` on each line that isn't empty. Lines end with a line feed, which the last may lack; one
//! carriage return before it is dropped; an empty line has no VRP, but is counted.
#![tactic(auto)]

mod index;
mod line;
mod numbered;
mod reading;
mod state;
mod vrp;
mod vrps;

pub use line::BAD_MAXLEN;
pub use printed_text::BadRow;
pub use reading::RovError;
pub use state::State;
pub use vrp::Vrp;
pub use vrps::Vrps;
