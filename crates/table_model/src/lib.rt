//! The model of addresses and tables: over lists of bits, addresses, prefixes and their order; over plain lists, tables, longest
//! match, changes and their sum; least tables, with what a region costs, its best hops, and the one table that they fix.
//!
//! The definitions stand in `specs/`; the code is the family, and the laws of what is defined.
#![tactic(auto)]

mod address_laws;
mod family;
mod least_laws;
mod table_laws;

pub use address_laws::{family_order_law, path_law};
pub use family::Family;
pub use least_laws::{
    aggregate_law, aggregate_order_law, best_law, both_law, bound_law, cost_law, entry_law,
    fresh_law, halves_law, join_law, joining_law, kept_law, leaf_law, not_least_law, patch_alike,
    patch_law, patch_least, region_law, same_law,
};
pub use table_laws::{cutting_law, entry_order_law, parts_law, sum_law};
