//! All under one event: the candidates, the numbers of next hops, and the kept tables of both families.
//!
//! An `Engine` takes elementary events. Those of a load go to the candidates alone; at its end the kept tables are made, least
//! ones for the chosen routes. From then on each event that changes a chosen hop is followed by a repair at its prefix, and
//! now and then by a snapshot of both families. If the fewest changes are asked for there is no repair: the table of the
//! prefix's family becomes the nearest one that answers as the routes. What takes memory comes first: an event that is refused
//! leaves the engine as it was.
//!
//! Lookups go to tries of the routes, which are built when they are asked for. What tries would need is kept as numbers from the
//! load's end on, so that an event after which an arena would be too small is refused at once.
//!
//! Who stores an event's changes word by word elsewhere takes a `Staged` engine: an event is planned there, and then made or undone.
//! `Engine::apply` goes through the very same plan, but for an event that changes no chosen hop and that no snapshot follows: it asks
//! no table.
//!
//! Once no more events come an engine settles: the candidates are let go, and what is left is read from the trees.
#![tactic(auto)]

mod engine;
mod error;
mod final_fib;
mod fitting;
mod laws;
mod numbers;
mod parts;
mod route_source;
mod staged;
mod tables;

pub use engine::{Engine, Limits};
pub use error::EngineError;
pub use final_fib::FinalFib;
pub use laws::one_state_law;
pub use ortc::PackedTable;
pub use route_tries::{FamilyNeeds, Found, Needs, Sizes, TrieFull, Tries};
pub use staged::{Planned, Staged};
pub use tables::EventChanges;
