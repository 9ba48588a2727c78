//! The model of what a router is told of a kept table over elementary events: its changes, in steady order if that is asked
//! for, and what the router answers while it makes them.
//!
//! The definitions stand in `specs/`. Each function here is a law: it does nothing, and its clauses hold for all values.

ghost use Rattle.std.specs.Prelude.{◌≡◌, ℕ, ◌+◌, [], ◌∷◌, ◌++◌, Bool, true, false, List, Some, length};
ghost use Rattle.std.specs.List.{AllByRecursion};
ghost use Rattle.std.specs.List.Sorted.{IsStrictlySortedBy};
ghost use Rattle.std.specs.Map.{keys_of};
ghost use Rattle.table_model.specs.Address.{Address, IsPrefix};
ghost use Rattle.table_model.specs.Order.{prefix_cmp};
ghost use Rattle.table_model.specs.Entries.{Entries, AlikeInBoth};
ghost use Rattle.table_model.specs.Changes.{after_changes, sum_of};
ghost use Rattle.route_model.specs.Events.{Elem};
ghost use Rattle.route_model.specs.Choice.{Candidates, AreCandidates, IsElem, after_elem, after_elems};
ghost use Rattle.kept_model.specs.Steady.{AnswerSteadily};
ghost use Rattle.kept_model.specs.Feed.{AreNumbered, at_event, changes_in, entries_of, hops_after};
ghost use Rattle.kept_model.specs.Kept.{AreNumberedAlong, kept_at_load, kept_by, kept_changes_from, kept_from, kept_load_changes};
ghost use Rattle.kept_model.specs.Told.{event_told, events_told, load_told, run_told};
ghost use Rattle.kept_model.specs.Meanwhile.{AnswerMeanwhile, earlier_routes, event_routes};

/// If steady order isn't asked for, the router is told the kept table's changes as they stand.
pub fn plain_law()
    ensures { (every : ℕ) (hops : List Address) (held : Candidates) (elems : List Elem) →
        run_told false every hops held elems ≡ kept_load_changes hops held
        ++ kept_changes_from every hops 1 held (kept_at_load hops held) elems }
{}

/// In either order the changes of the load and of the elementary events after it add up to the kept table.
pub fn told_sum_law()
    ensures { (steady : Bool) (every : ℕ) (hops : List Address) (held : Candidates)
        (elems : List Elem) → AreCandidates held → AllByRecursion IsElem elems →
        sum_of (changes_in (run_told steady every hops held elems))
        ≡ Some (kept_from every hops 1 held (kept_at_load hops held) elems) }
{}

/// What the router is told stays what it is as more hops get numbers, if those of all routes have them.
pub fn told_stays_law()
    ensures load { (steady : Bool) (hops : List Address) (more : List Elem) (held : Candidates) →
        AreNumbered hops held →
        load_told steady (hops_after hops more) held ≡ load_told steady hops held }
    ensures events { (steady : Bool) (every n : ℕ) (hops : List Address) (more : List Elem)
        (held : Candidates) (T : Entries) (elems : List Elem) → AreNumberedAlong hops held elems →
        events_told steady every (hops_after hops more) n held T elems
        ≡ events_told steady every hops n held T elems }
{}

/// What the router is told of one elementary event more comes after the rest.
pub fn told_step_law()
    ensures { (steady : Bool) (every : ℕ) (hops : List Address) (held : Candidates) (T : Entries)
        (elems : List Elem) (elem : Elem) →
        events_told steady every hops 1 held T (elems ++ elem ∷ [])
        ≡ events_told steady every hops 1 held T elems
        ++ at_event (length elems + 1) (event_told steady every hops (length elems + 1)
        (after_elems held elems) (kept_from every hops 1 held T elems) elem) }
{}

/// In steady order an elementary event's changes lead from the kept table before it to the one after it. Meanwhile each address
/// has its answer from the routes before the event or from those after it, and keeps the latter.
pub fn event_law()
    ensures sum { (every : ℕ) (hops : List Address) (n : ℕ) (held : Candidates) (T : Entries)
        (elem : Elem) → IsElem elem → AllByRecursion IsPrefix (keys_of T) →
        IsStrictlySortedBy prefix_cmp (keys_of T) →
        after_changes (event_told true every hops n held T elem) T
        ≡ Some (kept_by every hops n held T elem) }
    ensures answers { (every : ℕ) (hops : List Address) (n : ℕ) (held : Candidates) (T : Entries)
        (elem : Elem) → AreCandidates held → IsElem elem → AllByRecursion IsPrefix (keys_of T) →
        IsStrictlySortedBy prefix_cmp (keys_of T) → AlikeInBoth (entries_of hops held) T →
        AnswerSteadily (event_told true every hops n held T elem) T (entries_of hops held)
        (entries_of hops (after_elem held elem)) }
{}

/// While a router makes the changes of a run in steady order, it sends each address where the routes before the event at hand
/// send it or where those after it do, and never back.
pub fn meanwhile_law()
    ensures { (every : ℕ) (hops : List Address) (held : Candidates) (elems : List Elem) →
        AreCandidates held → AllByRecursion IsElem elems →
        AnswerMeanwhile (run_told true every hops held elems)
        (earlier_routes hops held elems) (event_routes hops held elems) }
{}
