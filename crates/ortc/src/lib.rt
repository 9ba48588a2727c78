//! Least tables by three passes over a tree (Draves, King, Venkatachary and Zill, 'Constructing Optimal IP Routing Tables',
//! INFOCOM 1999). The routes are pushed to the leaves. Each region gets the set of its best hops from those of its halves.
//! From the root down a region gets an entry if what it inherits isn't in its set. The regions, with the cost of each, are
//! the rows of a certificate: they prove the table least.
#![tactic(auto)]

mod down;
mod packed;
mod packed_table;
mod rows;
mod table;

pub use down::{emit_least, fresh, least_packed, least_table, own_hop, within, within_counted};
pub use packed_table::{PackedEntries, PackedTable};
pub use rows::certify;
pub use table::Fresh;
