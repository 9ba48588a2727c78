//! What texts, rows, words and streams offer, tested: of their own, since a crate with tests is proved twice.
#![tactic(auto)]

#[cfg(test)]
mod candidates;
#[cfg(test)]
mod certs;
#[cfg(test)]
mod inputs;
#[cfg(test)]
mod judge;
#[cfg(test)]
mod report;
#[cfg(test)]
mod rov;
#[cfg(test)]
mod rows;
#[cfg(test)]
mod same;
#[cfg(test)]
mod save;
#[cfg(test)]
mod script;
#[cfg(test)]
mod streams;
#[cfg(test)]
mod words;
