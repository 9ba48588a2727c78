//! What a command is due to come to, and its outcome.
//!
//! Here are the outcomes with their lines and statuses, and what is due of the words and of what the inputs hold, as definitions
//! over them. Laws say of what is due that a run's table is least and sends every address where its routes send it, that a check
//! decides, that a comparison of texts names where they differ, and that a router's changes are the fewest.
#![tactic(auto)]

mod outcome;
mod reading;
mod reply;

pub use cert_check::No;
pub use fib_same::Difference;
pub use outcome::{MOST_LINE, MrtInput, Outcome, Which};
pub use reading::{octets_of, outcome_of_whole};
pub use reply::{Reply, Wrong};
pub use router_moves::WrongMoves;
