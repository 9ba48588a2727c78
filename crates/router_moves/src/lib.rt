//! What a router must change to forward as a run's routes do. The router's table is read out of one printed text and the routes
//! out of another. The answer is the shortest list of changes, with the rows that prove that no fewer would do. Here is also the
//! checker of such an answer, whoever printed it.
//!
//! Each text is read whole, judged, and its octets let go before the next one is read. Sorting aside, all of it is linear in the texts.
#![tactic(auto)]

mod answer;
mod asked;
mod check;
mod family;
mod own;
mod read;
mod router;
mod verdict;

pub use answer::RouterMoves;
pub use check::check_router_moves;
pub use read::{PrintedMoves, read_moves};
pub use router::moves_to_routes;
pub use verdict::{MovesVerdict, WrongMoves};
