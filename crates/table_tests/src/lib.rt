//! What addresses, tables and certificates offer, tested: of their own, since a crate with tests is proved twice.
#![tactic(auto)]

#[cfg(test)]
mod addrs;
#[cfg(test)]
mod changes;
#[cfg(test)]
mod check;
#[cfg(test)]
mod common;
#[cfg(test)]
mod least;
#[cfg(test)]
mod sets;
#[cfg(test)]
mod steady;
#[cfg(test)]
mod tree;
