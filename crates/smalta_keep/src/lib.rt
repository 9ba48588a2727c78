//! The kept table of a family: it answers as the routes do, and is repaired when they change (after Uzmi and others, 'SMALTA:
//! Practical and Near-Optimal FIB Aggregation', CoNEXT 2011; the rule of repair is our own).
//!
//! A `Keep` holds a tree with both labels: the routes, and the entries of the kept table. When the route of a prefix changes,
//! the entries within the prefix become the least ones under what is inherited there, and all others stay; a snapshot makes
//! the whole table least again. Both are listed as changes before they are made: `plan` takes all memory and changes no entry,
//! then `commit` makes the changes, or `undo` puts the route back.
//!
//! A plan may ask for the fewest changes instead: then the entries become those of the nearest table that answers as the routes
//! (event_moves), of which one at most, above the prefix, isn't within it. Such a table is seldom least within the prefix.
//!
//! A repair costs the prefix's length, and the regions within it that may change: those that no route of their own keeps from the
//! prefix's route, those that come to inherit another hop, and those with a dirty prefix strictly within them or a wide one around them.
//! Each prefix whose route changes is marked until the next snapshot, wide until its repair is made, or until then if that is
//! one of the fewest changes. The snapshot goes over the wide dirty prefixes, the way to each dirty prefix, and the regions that come to inherit
//! another hop (delta_pass). The first snapshot, and one that comes after more than 16,384 changes, goes over the whole tree.
#![tactic(auto)]

mod back;
mod dirty;
mod entries;
mod held;
mod idle;
mod keep;
mod pass;
mod place;
mod plan;
mod reach;
mod repair;
mod routes;
mod told;

pub use keep::Keep;
pub use pass::{Differing, differing_within, snapshot_delta};
pub use place::node_at;
pub use repair::{Moved, Repair};
