//! The model of a checkpoint: candidates as an MRT dump, and that it is read as exactly these.
//!
//! The definitions stand in `specs/`. Each function here is a law: it does nothing, and its clauses hold for all values.

ghost use Rattle.std.specs.Prelude.{◌≡◌, ◌≤◌, Bool, List, [], Some, None, Ok, length, map, ◌+◌, ◌++◌};
ghost use Rattle.route_model.specs.Events.{Event, Peer};
ghost use Rattle.route_model.specs.Choice.{Candidates, AreCandidates, after_elems, elems_after};
ghost use Rattle.wire_model.specs.Input.{input};
ghost use Rattle.std.specs.List.{AllByRecursion};
ghost use Rattle.mrt_write.specs.Checkpoint.{Piece, announced, checkpoint, has_ids};
ghost use Rattle.mrt_write.specs.Saved.{IsCode, long_one, most_peers, peers_with_candidates, pieces_of, saved};
ghost use Rattle.mrt_write.specs.Examples.{none_octets, one_held, one_octets, three_held, three_octets};
ghost use Rattle.mrt_write.specs.Writable.{AreWritable, all_of};

/// A checkpoint is read as its candidates: a record for each piece after the peer table, none of them skipped or treated as a
/// withdrawal, and an announcement for each candidate in order.
pub fn reading_law()
    ensures { (peers : List Peer) (ids : Bool) (pieces : List Piece) → AreWritable peers ids pieces
        → input (checkpoint peers ids pieces) ≡ Ok (record {
          peers = Some peers;
          events = map announced (all_of pieces);
          records = 1 + length pieces;
          skipped = 0;
          treated = 0;
        }) }
{}

/// The checkpoint of candidates is read as exactly these, if no more than 65,535 peers have one and no path is longer than
/// 15,000.
pub fn saved_law()
    ensures { (held : Candidates) → AreCandidates held → AllByRecursion IsCode held
        → length (peers_with_candidates held) ≤ most_peers → long_one held ≡ None
        → input (saved held) ≡ Ok (record {
          peers = Some (peers_with_candidates held);
          events = map announced held;
          records = 1 + length (pieces_of (peers_with_candidates held) (has_ids held) held);
          skipped = 0;
          treated = 0;
        }) }
{}

/// After these announcements the candidates are those that were saved.
pub fn candidates_law()
    ensures { (held : Candidates) → AreCandidates held
        → after_elems [] (elems_after [] (map announced held)) ≡ held }
{}

/// Whatever is said later, the candidates after it are the same after the checkpoint as after all that was said before.
pub fn replay_law()
    ensures { (said later : List Event) → AreCandidates (after_elems [] (elems_after [] said)) →
        after_elems [] (elems_after [] (map announced (after_elems [] (elems_after [] said)) ++ later))
        ≡ after_elems [] (elems_after [] (said ++ later)) }
{}

/// Checkpoints, octet for octet.
pub fn examples_law()
    ensures none { saved [] ≡ none_octets }
    ensures one { saved one_held ≡ one_octets }
    ensures three { saved three_held ≡ three_octets }
{}
