//! A run: from its inputs to the text of its rows.
//!
//! It reads the asks, the list of VRPs, the dump and the updates, chooses among the candidates of all peers, keeps a table for the
//! chosen routes, and gives the rows. A run in steps reads a script, the dump and the updates, makes the steps, and gives their rows.
//! Inputs that are made of a number are run alike.
#![tactic(auto)]

mod asks;
mod feed;
mod order;
mod report;
mod run;
mod state;
mod stepping;

pub use run::{made_for, run_for};
pub use stepping::steps_for;
