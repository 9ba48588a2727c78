//! What shortest lists of changes, their checker, and what a router must change offer, tested.
#![tactic(auto)]

#[cfg(test)]
mod checks;
#[cfg(test)]
mod common;
#[cfg(test)]
mod router;
#[cfg(test)]
mod shortest;
#[cfg(test)]
mod verdicts;
