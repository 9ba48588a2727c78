//! The model of a kept table over elementary events: what the table is after each of them, and the changes that led there.
//!
//! The definitions stand in `specs/`. Each function here is a law: it does nothing, and its clauses hold for all values.

ghost use Rattle.std.specs.Prelude.{◌≡◌, ℕ, ◌+◌, [], ◌∷◌, ◌++◌, List, Some, length};
ghost use Rattle.std.specs.List.{AllByRecursion};
ghost use Rattle.table_model.specs.Address.{Address};
ghost use Rattle.table_model.specs.Changes.{after_changes, sum_of};
ghost use Rattle.route_model.specs.Events.{Elem};
ghost use Rattle.table_model.specs.Entries.{Entries, AlikeInBoth};
ghost use Rattle.table_model.specs.Both.{LeastInBoth, aggregate_in_both};
ghost use Rattle.route_model.specs.Choice.{Candidates, AreCandidates, IsElem, after_elems};
ghost use Rattle.kept_model.specs.Feed.{AreNumbered, at_event, changes_in, entries_of, hops_after};
ghost use Rattle.kept_model.specs.Kept.{AreNumberedAlong, changes_by, kept_at_load, kept_by, kept_changes_from, kept_from, kept_load_changes, snapshot_of};

/// The changes of the load and of the elementary events after it add up to the kept table.
pub fn kept_sum_law()
    ensures { (every : ℕ) (hops : List Address) (held : Candidates) (elems : List Elem) →
        AreCandidates held → AllByRecursion IsElem elems →
        sum_of (changes_in (kept_load_changes hops held
        ++ kept_changes_from every hops 1 held (kept_at_load hops held) elems))
        ≡ Some (kept_from every hops 1 held (kept_at_load hops held) elems) }
{}

/// The kept table sends every address where the routes send it, and after a snapshot it is a least such table in both families.
pub fn kept_alike_law()
    ensures alike { (every : ℕ) (hops : List Address) (held : Candidates) (elems : List Elem) →
        AreCandidates held → AllByRecursion IsElem elems →
        AlikeInBoth (entries_of hops (after_elems held elems))
        (kept_from every hops 1 held (kept_at_load hops held) elems) }
    ensures least { (R T : Entries) → LeastInBoth R (snapshot_of R T) }
{}

/// The kept table and its changes stay what they are as more hops get numbers, if those of all routes have them.
pub fn kept_stays_law()
    ensures load { (hops : List Address) (more : List Elem) (held : Candidates) →
        AreNumbered hops held → kept_at_load (hops_after hops more) held ≡ kept_at_load hops held }
    ensures table { (every n : ℕ) (hops : List Address) (more : List Elem) (held : Candidates)
        (T : Entries) (elems : List Elem) → AreNumberedAlong hops held elems →
        kept_from every (hops_after hops more) n held T elems
        ≡ kept_from every hops n held T elems }
    ensures changes { (every n : ℕ) (hops : List Address) (more : List Elem) (held : Candidates)
        (T : Entries) (elems : List Elem) → AreNumberedAlong hops held elems →
        kept_changes_from every (hops_after hops more) n held T elems
        ≡ kept_changes_from every hops n held T elems }
{}

/// After one elementary event more the table is what that event makes of it, and its changes come after the others.
pub fn kept_step_law()
    ensures table { (every : ℕ) (hops : List Address) (held : Candidates) (T : Entries)
        (elems : List Elem) (elem : Elem) → kept_from every hops 1 held T (elems ++ elem ∷ [])
        ≡ kept_by every hops (length elems + 1) (after_elems held elems)
        (kept_from every hops 1 held T elems) elem }
    ensures changes { (every : ℕ) (hops : List Address) (held : Candidates) (T : Entries)
        (elems : List Elem) (elem : Elem) → kept_changes_from every hops 1 held T
        (elems ++ elem ∷ []) ≡ kept_changes_from every hops 1 held T elems
        ++ at_event (length elems + 1) (changes_by every hops (length elems + 1)
        (after_elems held elems) (kept_from every hops 1 held T elems) elem) }
{}

/// Among the numbers of all elementary events those of all routes on the way are found; so `kept_stays_law` holds of them.
pub fn kept_numbers_law()
    ensures { (load elems more : List Elem) → AreNumberedAlong
        (hops_after [] (load ++ (elems ++ more))) (after_elems [] load) elems }
{}

/// A snapshot is the aggregates of both families, which stand in the order of prefixes as they are.
pub fn snapshot_law()
    ensures { (R T : Entries) → snapshot_of R T ≡ aggregate_in_both R T }
{}
