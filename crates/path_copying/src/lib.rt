//! A part of a Poptrie (`poptrie_build`) made anew beside the old one (path copying; Driscoll, Sarnak, Sleator and Tarjan, 'Making
//! data structures persistent', 1989).
//!
//! If an address of a node's region gets another answer, a new node is made beside the old one, with arrays of its own; each
//! child whose region's answers are as they were is shared, and all other blocks of the old node are put aside, for they are in use
//! until no reader is left that may be in them.
#![tactic(auto)]

mod arenas;
mod aside;
mod blocks;
mod children;
mod comparing;
mod copying;
mod slots;
mod way;
mod words;

pub use arenas::Arenas;
pub use blocks::Refusal;
pub use comparing::is_same;
pub use copying::copy_node;
pub use slots::{Store, copy_slots};
pub use way::Way;
pub use words::copy_word;
