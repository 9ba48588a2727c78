//! What the readers of inputs offer, tested: of their own, since a crate with tests is proved twice.
#![tactic(auto)]

#[cfg(test)]
mod attrs;
#[cfg(test)]
mod frames;
#[cfg(test)]
mod inputs;
#[cfg(test)]
mod made;
#[cfg(test)]
mod origins;
#[cfg(test)]
mod reader;
#[cfg(test)]
mod records;
#[cfg(test)]
mod updates;
