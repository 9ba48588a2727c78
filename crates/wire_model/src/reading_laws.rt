//! The model of reading: what the records of MRT input say, event by event, as functions on lists of octets.
//!
//! The definitions stand in `specs/`. Each function here is a law: it does nothing, and its clauses hold for all values.
//! `Session` is declared here since the definitions speak of it.

ghost use Rattle.std.specs.Prelude.{◌≡◌, ℕ, Bool, List, Ok, Err};
ghost use Rattle.std.specs.List.{AllByRecursion};
ghost use Rattle.table_model.specs.declared.family.Family.{Family};
ghost use Rattle.route_model.specs.Events.{IsEvent};
ghost use Rattle.octet_fields.specs.Field.{one_more};
ghost use Rattle.wire_model.specs.Wire.{nlri_at};
ghost use Rattle.wire_model.specs.declared.place.Place.{Place};
ghost use Rattle.wire_model.specs.declared.rule.Rule.{Rule};
ghost use Rattle.wire_model.specs.Path.{segment_at};
ghost use Rattle.wire_model.specs.Attribute.{attribute_at};
ghost use Rattle.wire_model.specs.Record.{next_record};
ghost use Rattle.wire_model.specs.Input.{Progress, Stopped, read_record, input};
ghost use Rattle.wire_model.specs.End.{ReadsToEnd};
ghost use Rattle.wire_model.specs.Reading.{ReadsEvents, ReadingStarts, ReadingFeeds, ReadingTakes, ReadingBreaks, ReadingTooLong, ReadingStays, ReadingEndsCut, ReadingEnds};

/// An input may come in pieces: what was read of it and what is left determine what it says, however it was cut.
pub fn reading_in_pieces()
    ensures starts { ReadingStarts }
    ensures feeds { ReadingFeeds }
    ensures takes { ReadingTakes }
    ensures breaks { ReadingBreaks }
    ensures too_long { ReadingTooLong }
    ensures stays { ReadingStays }
    ensures ends_cut { ReadingEndsCut }
    ensures ends { ReadingEnds }
{}

/// If a definition reads to the end, nothing is left over: NLRI, the segments of a path, attributes, records, and a
/// whole input with all that it says.
pub fn end_law()
    ensures nlri { (cut : Rule) (ids : Bool) (family : Family) → ReadsToEnd (one_more (nlri_at cut ids family)) }
    ensures path { (size : ℕ) → ReadsToEnd (segment_at size) }
    ensures attributes { (place : Place) → ReadsToEnd (attribute_at place) }
    ensures records { ReadsToEnd next_record }
    ensures input { ReadsToEnd read_record }
{}

/// What is read is well formed, also if reading stops or goes on: each address has as many bits as its family, each
/// prefix at most as many.
pub fn events_law()
    ensures read { (octets : List ℕ) (read : Progress) → input octets ≡ Ok read
        → AllByRecursion IsEvent read.events }
    ensures stopped { (octets : List ℕ) (stopped : Stopped) → input octets ≡ Err stopped
        → AllByRecursion IsEvent stopped.read.events }
    ensures so_far { (fed left : List ℕ) (read : Progress) → ReadsEvents fed read left
        → AllByRecursion IsEvent read.events }
{}
