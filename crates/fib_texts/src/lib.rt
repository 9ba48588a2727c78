//! The commands on printed texts and checkpoints.
//!
//! A printed text is read, and whether its certificate proves its least table least is reported. Texts are compared; a checkpoint
//! of what a dump and updates bring is written; and what a router must change is reported, or whether what it was told to change
//! is that.
#![tactic(auto)]

mod check;
mod claims;
mod moves;
mod read;
mod same;
mod save;

pub use check::check_for;
pub use claims::check_moves_for;
pub use moves::moves_for;
pub use same::same_for;
pub use save::save_for;
