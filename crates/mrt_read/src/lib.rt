//! The events of an input of MRT records, record by record, however the input was cut into pieces.
//!
//! A `Reader` is fed the octets as they come. Each whole record is read by the rules of its type, after the latest peer
//! table; a record of a type that isn't read is skipped and counted. The first record that breaks a rule ends the
//! reading for good, and none of its events is given.
//!
//! An `InputReader` reads an input in pieces, as its records are asked for.
//!
//! `feed` costs its piece, `take_events` the record. The memory is that of the octets fed that no record has used up, and of the peer
//! table.
#![tactic(auto)]

mod framer;
mod input_reader;
mod reader;
mod whole;

pub use framer::{Framed, Framer, Malformed};
pub use input_reader::InputReader;
pub use reader::{EventsError, Reader};
pub use whole::{WholeError, read_all_events};
