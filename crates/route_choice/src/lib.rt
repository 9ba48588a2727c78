//! The routes of all peers, and the one that is chosen for each prefix: that of the shortest AS_PATH, and among those
//! the one of the lowest peer, and of its routes the one of the lowest path identifier.
//!
//! These are the steps of BGP-4's decision process (RFC 4271, sections 9.1.1 and 9.1.2.2), and which of them are taken:
//!
//! - The degree of preference (9.1.1) isn't asked for: it is a router's own policy, or LOCAL_PREF, which has a meaning within
//!   one AS alone, and a collector's peers are of many.
//! - a) The shortest AS_PATH is preferred.
//! - b) The lowest ORIGIN and c) the lowest MULTI_EXIT_DISC aren't asked for: each peer sends them as its own policy set them,
//!   and c compares routes of one neighboring AS alone.
//! - d) EBGP before IBGP and e) the lowest interior cost aren't asked for: a collector's records don't carry them.
//! - f) The lowest BGP Identifier isn't asked for: a dump's peer table has it, and the messages of a session don't.
//! - g) The lowest peer address is preferred, IPv4 before IPv6, and of peers of one address the lowest AS.
//!   Of one peer's routes that of the lowest path identifier is preferred (RFC 7911, section 3, leaves it open).
//!
//! What is loaded in the order of prefixes lies in a flat base (`adj_rib_in`): a row for each prefix, with a run of slots, one for
//! each path source. What comes out of order, what updates bring for new places, and a prefix's routes past the 64th lie in two ordered
//! maps over it: a route has a path key there, by peer, then prefix, then path identifier, which says what is offered, and a rank, by
//! prefix and then by preference. So a peer's routes lie together, in the maps and by a chain in the base, and a prefix's routes lie
//! together. A change costs a few lookups and a run of slots at most, whatever the other routes are; what a lost session takes
//! costs its own routes.
#![tactic(auto)]

mod all;
mod both;
mod candidates;
mod choice;
mod down;
mod entries;
mod family_routes;
mod over;
mod plan;
mod prefixes;
mod routes;

pub use candidates::Candidates;
pub use choice::{Choice, Pick};
pub use family_routes::FamilyRoutes;
