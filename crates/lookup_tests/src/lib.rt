//! What arenas, tries, their lookups and a router offer, tested: of their own, since a crate with tests is proved twice.
#![tactic(auto)]

#[cfg(test)]
mod arena;
#[cfg(test)]
mod build;
#[cfg(test)]
mod choice;
#[cfg(test)]
mod common;
#[cfg(test)]
mod cursors;
#[cfg(test)]
mod engine;
#[cfg(test)]
mod keep;
#[cfg(test)]
mod live;
#[cfg(test)]
mod pairs;
#[cfg(test)]
mod router;
#[cfg(test)]
mod steps;
#[cfg(test)]
mod tries;
