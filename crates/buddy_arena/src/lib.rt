//! A buddy system (Knowlton, 'A fast storage allocator', 1965; Knuth, 'The Art of Computer Programming', volume 1, section 2.5)
//! over an array of cells.
//!
//! An arena of order n has 2 ^ n places, at first one free block. As long as nothing is given back, one block of each order is
//! free at most: its place is all that is kept, and `take` costs the orders that it splits. From then on two bits a place say
//! what is free, a word of 64 places a bit each, and above the words a mask of orders for each region: `take` and `give` cost the
//! order.
#![tactic(auto)]

mod arena;
mod blocks;
mod free;
mod fresh;
mod giving;
mod laws;
mod merges;
mod places;
mod pool_laws;
mod region;
mod splits;
mod word;

pub use arena::{Arena, Block, Full};
pub use blocks::{Blocks, Refused};
pub use laws::blocks_law;
pub use places::{block_size, order_for, put, take_places};
pub use pool_laws::up_law;
