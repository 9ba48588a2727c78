//! A checkpoint of inputs: the candidates that a dump and updates bring, written as an MRT dump.
//!
//! Inputs are read in pieces, each record before the next read, as a run reads them. Each event goes into the candidates alone: no
//! table is made, and no next hop gets a number, so that neither runs out. What was said before isn't kept, but for the candidates.
#![tactic(auto)]

mod input;
mod save;
mod take;

pub use mrt_read::WholeError;
pub use mrt_write::WriteError;
pub use save::{SaveError, save_inputs};
