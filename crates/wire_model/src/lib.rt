//! The model of what stands on the wire: records of MRT input, prefixes, paths and attribute lists, as functions on lists of
//! octets, by cases in the order of the fields; and the rules that they may break.
//!
//! The definitions stand in `specs/`. The function here is a law: it does nothing, and its clauses hold for all values.
//! `Place` and `Rule` are declared here since the definitions speak of them.
#![tactic(auto)]

mod place;
mod put;
mod reading_laws;
mod rule;
mod session;
mod written_laws;

ghost use Rattle.wire_model.specs.Pieces.{StartsSo, FeedsOn, TakesOn, StaysTooLong, StaysBroken, EndsCut, EndsSo, KeepsFront};

pub use place::Place;
pub use put::{put_behind_length, put_bits, put_record, put_sequence, put_u16, put_u32};
pub use reading_laws::{end_law, events_law, reading_in_pieces};
pub use rule::Rule;
pub use session::Session;
pub use written_laws::written_law;

/// An input may come in pieces: what was taken of it and what is left determine what it is, however it was cut.
pub fn in_pieces()
    ensures starts { StartsSo }
    ensures feeds { FeedsOn }
    ensures takes { TakesOn }
    ensures too_long { StaysTooLong }
    ensures broken { StaysBroken }
    ensures ends_cut { EndsCut }
    ensures ends { EndsSo }
    ensures front { KeepsFront }
{}
