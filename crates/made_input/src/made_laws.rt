//! The model of a made input: a dump of routes and updates of them, drawn from a number, as events and as octets.
//!
//! The definitions stand in `specs/`. Each function here is a law: it does nothing, and its clauses hold for all values.

ghost use Rattle.std.specs.Prelude.{◌≡◌, ◌+◌, ◌*◌, ◌/◌, ◌≤◌, ◌^◌, ℕ, length, Some, None, Ok};
ghost use Rattle.std.specs.List.{AllByRecursion};
ghost use Rattle.route_model.specs.Events.{IsEvent};
ghost use Rattle.wire_model.specs.Input.{input};
ghost use Rattle.made_input.specs.Drawn.{made_peers, dump_events, update_events};
ghost use Rattle.made_input.specs.Files.{dump_octets, updates_octets};

/// What is made is read as exactly what was drawn: the dump as `1 + n` records that announce n routes of eight peers, the
/// updates as half as many records as there are routes, each with one event; none is skipped or treated as a withdrawal.
pub fn reading_law()
    ensures dump { (seed n : ℕ) → input (dump_octets seed n) ≡ Ok (record {
      peers = Some made_peers;
      events = dump_events seed n;
      records = 1 + n;
      skipped = 0;
      treated = 0;
    }) }
    ensures updates { (seed n : ℕ) → input (updates_octets seed n) ≡ Ok (record {
      peers = None;
      events = update_events seed n;
      records = n / 2;
      skipped = 0;
      treated = 0;
    }) }
{}

/// There are n events of the dump and half as many of the updates, rounded down; each address of them has as many bits as its
/// family, each prefix at most as many.
pub fn events_law()
    ensures dump_many { (seed n : ℕ) → length (dump_events seed n) ≡ n }
    ensures updates_many { (seed n : ℕ) → length (update_events seed n) ≡ n / 2 }
    ensures dump { (seed n : ℕ) → AllByRecursion IsEvent (dump_events seed n) }
    ensures updates { (seed n : ℕ) → AllByRecursion IsEvent (update_events seed n) }
{}

/// A made input is no longer than any that is read.
pub fn length_law()
    ensures dump { (seed n : ℕ) → length (dump_octets seed n) ≤ 124 + 62 * n }
    ensures updates { (seed n : ℕ) → length (updates_octets seed n) ≤ 91 * (n / 2) }
    ensures few { (seed n : ℕ) → n ≤ 200000 → length (dump_octets seed n) ≤ 2 ^ 36 }
    ensures few_updates { (seed n : ℕ) → n ≤ 200000 → length (updates_octets seed n) ≤ 2 ^ 36 }
{}
