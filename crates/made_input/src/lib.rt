//! A made input: a dump of routes and updates of them, drawn from a number, as the octets of two files.
//!
//! The same number gives the same octets, which any reader of MRT dumps takes. `specs/Drawn.antt` says which routes and updates they
//! are, how they are written, and proves that they are read as these.
#![tactic(auto)]

mod attribute;
mod dump;
mod generator;
mod made_laws;
mod make;
mod prefix;
mod route;
mod scratch;
mod updates;

pub use made_laws::{events_law, length_law, reading_law};
pub use make::generate;
