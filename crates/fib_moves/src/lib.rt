//! The shortest list of changes that makes a tree's entries answer as its routes do, for a router that pays for each change: no
//! table with these answers differs from the entries at fewer prefixes. Rows prove it, to whoever trusts the rules for rows alone.
//!
//! From the regions within up: which hops a region's own entry should have, or what it inherits if it has none, and how many
//! changes it needs then. From the whole space down: where an old entry stays, goes or gets another hop, and where a new one
//! comes. A region without old entries within needs what the tree keeps of it (its best hops and its k). After one event the way
//! to its prefix and the prefix's region are enough (`near_at`). No call goes more than 128 levels down.
//!
//! Steps of these passes are offered to other passes: the way to a prefix (`walk`) with its turn (`list_turn`), what a region may
//! inherit (`may_inherit`), what its entry becomes (`due_hop`), and the entries that differ (`Differing`).
#![tactic(auto)]

mod after_event;
mod allowed;
mod answer;
mod before;
mod changes;
mod down;
mod event;
mod event_down;
mod found;
mod hops;
mod needs;
mod place;
mod rows;
mod shortest;
mod way;

pub use after_event::near_after;
pub use allowed::{AllowedHops, JointAllowed};
pub use answer::Near;
pub use before::route_law;
pub use changes::{one_more_if, sum};
pub use down::{Differing, below, if_differing, is_end};
pub use event::{list_turn, near_at};
pub use hops::{due_hop, may_inherit};
pub use place::Place;
pub use shortest::near;
pub use way::{LastBlocked, Way, is_filled, walk};
