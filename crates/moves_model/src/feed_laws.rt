//! The model of a kept table in a run that may ask for the fewest changes: what the table is after each elementary event, what a
//! router is told of it, and how many changes each event needed.
//!
//! The definitions stand in `specs/`. Each function here is a law: it does nothing, and its clauses hold for all values.

ghost use Rattle.std.specs.Prelude.{◌≡◌, ℕ, ◌+◌, [], ◌∷◌, ◌++◌, Bool, true, false, List, None, Some, length};
ghost use Rattle.std.specs.List.{AllByRecursion};
ghost use Rattle.std.specs.List.Sorted.{IsStrictlySortedBy};
ghost use Rattle.std.specs.Map.{keys_of};
ghost use Rattle.table_model.specs.Address.{Address, Prefix, IsPrefix};
ghost use Rattle.table_model.specs.Order.{prefix_cmp};
ghost use Rattle.table_model.specs.declared.family.Family.{Family};
ghost use Rattle.table_model.specs.declared.family.Family.TheVariants.{V4, V6};
ghost use Rattle.table_model.specs.Entries.{Entries, AlikeInBoth, in_order, of_family};
ghost use Rattle.table_model.specs.Changes.{after_changes, sum_of};
ghost use Rattle.table_model.specs.Both.{LeastInBoth};
ghost use Rattle.route_model.specs.Events.{Elem};
ghost use Rattle.route_model.specs.Choice.{Candidates, AreCandidates, IsElem, after_elem, after_elems};
ghost use Rattle.kept_model.specs.Between.{between};
ghost use Rattle.kept_model.specs.Steady.{AnswerSteadily};
ghost use Rattle.kept_model.specs.Patched.{IsPair};
ghost use Rattle.moves_model.specs.Shortest.{AreShortest};
ghost use Rattle.moves_model.specs.Rows.{near_in};
ghost use Rattle.kept_model.specs.Feed.{at_event, changes_in, entries_of, hops_after};
ghost use Rattle.kept_model.specs.Kept.{AreNumberedAlong, changed_at, is_due, kept_from};
ghost use Rattle.kept_model.specs.Told.{run_told};
ghost use Rattle.kept_model.specs.Meanwhile.{AnswerMeanwhile, earlier_routes, event_routes};
ghost use Rattle.moves_model.specs.Moved.{table_by, table_from, table_of_run, with_nearest};
ghost use Rattle.moves_model.specs.Reported.{first_changes, moves_from, moves_of, moves_of_run, told_from, told_of, told_of_run};
ghost use Rattle.moves_model.specs.Fewest.{IsFewest};

/// If the fewest changes aren't asked for, the table is the kept one that is repaired, and the router is told its changes.
pub fn repaired_law()
    ensures table { (every n : ℕ) (hops : List Address) (held : Candidates) (T : Entries)
        (elems : List Elem) →
        table_from false every hops n held T elems ≡ kept_from every hops n held T elems }
    ensures told { (steady : Bool) (every : ℕ) (hops : List Address) (held : Candidates)
        (elems : List Elem) →
        told_of_run false steady every hops held elems ≡ run_told steady every hops held elems }
{}

/// The table with the nearest in a family's place stands in order, and its changes are shortest: no table that answers as the
/// routes in that family differs from the old one at fewer prefixes.
pub fn nearest_law()
    ensures placed { (f : Family) (R T : Entries) → AllByRecursion IsPrefix (keys_of T) →
        IsStrictlySortedBy prefix_cmp (keys_of T) →
        AllByRecursion IsPrefix (keys_of (with_nearest f R T))
        × IsStrictlySortedBy prefix_cmp (keys_of (with_nearest f R T)) }
    ensures shortest { (f : Family) (R T : Entries) → AllByRecursion IsPrefix (keys_of T) →
        IsStrictlySortedBy prefix_cmp (keys_of T) →
        AreShortest f R T (between T (with_nearest f R T)) }
{}

/// Of tables of both families, IPv4 first, the nearest of one family takes the place of that family's table alone.
pub fn pair_law()
    ensures v4 { (R S A B : Entries) → IsPair A B → of_family V4 R ≡ of_family V4 S →
        with_nearest V4 R (A ++ B) ≡ in_order (near_in V4 S A) ++ B }
    ensures v6 { (R S A B : Entries) → IsPair A B → of_family V6 R ≡ of_family V6 S →
        with_nearest V6 R (A ++ B) ≡ A ++ in_order (near_in V6 S B) }
{}

/// The table stands in the order of prefixes, each prefix once.
pub fn order_law()
    ensures { (fewest : Bool) (every : ℕ) (hops : List Address) (held : Candidates)
        (elems : List Elem) → AllByRecursion IsElem elems →
        AllByRecursion IsPrefix (keys_of (table_of_run fewest every hops held elems))
        × IsStrictlySortedBy prefix_cmp (keys_of (table_of_run fewest every hops held elems)) }
{}

/// What the router is told of the load and of the elementary events after it adds up to the table.
pub fn told_sum_law()
    ensures { (fewest steady : Bool) (every : ℕ) (hops : List Address) (held : Candidates)
        (elems : List Elem) → AllByRecursion IsElem elems →
        sum_of (changes_in (told_of_run fewest steady every hops held elems))
        ≡ Some (table_of_run fewest every hops held elems) }
{}

/// The table sends every address where the routes send it, and after a snapshot it is a least such table in both families.
pub fn table_alike_law()
    ensures alike { (fewest : Bool) (every : ℕ) (hops : List Address) (held : Candidates)
        (elems : List Elem) → AreCandidates held → AllByRecursion IsElem elems →
        AlikeInBoth (entries_of hops (after_elems held elems))
        (table_of_run fewest every hops held elems) }
    ensures least { (fewest : Bool) (every n : ℕ) (hops : List Address) (held : Candidates)
        (T : Entries) (elem : Elem) → is_due every n ≡ true →
        LeastInBoth (entries_of hops (after_elem held elem))
        (table_by fewest every hops n held T elem) }
{}

/// With the fewest changes asked for, an elementary event that changes a chosen hop first makes a shortest list of changes: no
/// table that answers as the routes after the event differs from the one before at fewer prefixes. Just these events have rows,
/// each with the number of these changes. They are all that the router is told of the event if no snapshot is due.
pub fn shortest_law()
    ensures changes { (hops : List Address) (held : Candidates) (T : Entries) (elem : Elem)
        (p : Prefix) → AllByRecursion IsPrefix (keys_of T) →
        IsStrictlySortedBy prefix_cmp (keys_of T) → changed_at held elem ≡ Some p →
        AreShortest p.family (entries_of hops (after_elem held elem)) T
        (first_changes true hops held T elem) }
    ensures listed { (fewest : Bool) (n : ℕ) (hops : List Address) (held : Candidates) (T : Entries)
        (elem : Elem) (p : Prefix) → changed_at held elem ≡ Some p →
        moves_of fewest hops n held T elem
        ≡ (n, length (first_changes fewest hops held T elem)) ∷ [] }
    ensures left_out { (fewest : Bool) (n : ℕ) (hops : List Address) (held : Candidates) (T : Entries)
        (elem : Elem) → changed_at held elem ≡ None → moves_of fewest hops n held T elem ≡ [] }
    ensures told { (fewest steady : Bool) (every : ℕ) (hops : List Address) (n : ℕ)
        (held : Candidates) (T : Entries) (elem : Elem) → IsElem elem →
        AllByRecursion IsPrefix (keys_of T) → IsStrictlySortedBy prefix_cmp (keys_of T) →
        is_due every n ≡ false → length (told_of fewest steady every hops n held T elem)
        ≡ length (first_changes fewest hops held T elem) }
    ensures rows { (every : ℕ) (hops : List Address) (held : Candidates) (elems : List Elem) →
        AllByRecursion IsElem elems →
        AllByRecursion (IsFewest every hops held elems) (moves_of_run true every hops held elems) }
{}

/// The table, what the router is told and how many changes each event needed stay what they are as more hops get numbers, if
/// those of all routes have them.
pub fn told_stays_law()
    ensures table { (fewest : Bool) (every n : ℕ) (hops : List Address) (more : List Elem)
        (held : Candidates) (T : Entries) (elems : List Elem) → AreNumberedAlong hops held elems →
        table_from fewest every (hops_after hops more) n held T elems
        ≡ table_from fewest every hops n held T elems }
    ensures told { (fewest steady : Bool) (every n : ℕ) (hops : List Address) (more : List Elem)
        (held : Candidates) (T : Entries) (elems : List Elem) → AreNumberedAlong hops held elems →
        told_from fewest steady every (hops_after hops more) n held T elems
        ≡ told_from fewest steady every hops n held T elems }
    ensures moves { (fewest : Bool) (every n : ℕ) (hops : List Address) (more : List Elem)
        (held : Candidates) (T : Entries) (elems : List Elem) → AreNumberedAlong hops held elems →
        moves_from fewest every (hops_after hops more) n held T elems
        ≡ moves_from fewest every hops n held T elems }
{}

/// After one elementary event more the table is what that event makes of it, and what the router is told of it comes after the
/// rest.
pub fn told_step_law()
    ensures table { (fewest : Bool) (every : ℕ) (hops : List Address) (held : Candidates)
        (T : Entries) (elems : List Elem) (elem : Elem) →
        table_from fewest every hops 1 held T (elems ++ elem ∷ [])
        ≡ table_by fewest every hops (length elems + 1) (after_elems held elems)
        (table_from fewest every hops 1 held T elems) elem }
    ensures told { (fewest steady : Bool) (every : ℕ) (hops : List Address) (held : Candidates)
        (T : Entries) (elems : List Elem) (elem : Elem) →
        told_from fewest steady every hops 1 held T (elems ++ elem ∷ [])
        ≡ told_from fewest steady every hops 1 held T elems
        ++ at_event (length elems + 1) (told_of fewest steady every hops (length elems + 1)
        (after_elems held elems) (table_from fewest every hops 1 held T elems) elem) }
    ensures moves { (fewest : Bool) (every : ℕ) (hops : List Address) (held : Candidates)
        (T : Entries) (elems : List Elem) (elem : Elem) →
        moves_from fewest every hops 1 held T (elems ++ elem ∷ [])
        ≡ moves_from fewest every hops 1 held T elems
        ++ moves_of fewest hops (length elems + 1) (after_elems held elems)
        (table_from fewest every hops 1 held T elems) elem }
{}

/// More elementary events go on from the table after those before them, and what the router is told of them comes after the rest.
pub fn longer_law()
    ensures table { (fewest : Bool) (every : ℕ) (hops : List Address) (held : Candidates)
        (T : Entries) (elems more : List Elem) →
        table_from fewest every hops 1 held T (elems ++ more)
        ≡ table_from fewest every hops (length elems + 1) (after_elems held elems)
        (table_from fewest every hops 1 held T elems) more }
    ensures told { (fewest steady : Bool) (every : ℕ) (hops : List Address) (held : Candidates)
        (T : Entries) (elems more : List Elem) →
        told_from fewest steady every hops 1 held T (elems ++ more)
        ≡ told_from fewest steady every hops 1 held T elems
        ++ told_from fewest steady every hops (length elems + 1) (after_elems held elems)
        (table_from fewest every hops 1 held T elems) more }
    ensures moves { (fewest : Bool) (every : ℕ) (hops : List Address) (held : Candidates)
        (T : Entries) (elems more : List Elem) →
        moves_from fewest every hops 1 held T (elems ++ more)
        ≡ moves_from fewest every hops 1 held T elems
        ++ moves_from fewest every hops (length elems + 1) (after_elems held elems)
        (table_from fewest every hops 1 held T elems) more }
{}

/// An elementary event's changes lead from the table before it to the one after it, in either order. In steady order each address
/// meanwhile has its answer from the routes before the event or from those after it, and keeps the latter.
pub fn event_law()
    ensures sum { (fewest steady : Bool) (every : ℕ) (hops : List Address) (n : ℕ)
        (held : Candidates) (T : Entries) (elem : Elem) → IsElem elem →
        AllByRecursion IsPrefix (keys_of T) → IsStrictlySortedBy prefix_cmp (keys_of T) →
        after_changes (told_of fewest steady every hops n held T elem) T
        ≡ Some (table_by fewest every hops n held T elem) }
    ensures answers { (fewest : Bool) (every : ℕ) (hops : List Address) (n : ℕ)
        (held : Candidates) (T : Entries) (elem : Elem) → AreCandidates held → IsElem elem →
        AllByRecursion IsPrefix (keys_of T) → IsStrictlySortedBy prefix_cmp (keys_of T) →
        AlikeInBoth (entries_of hops held) T →
        AnswerSteadily (told_of fewest true every hops n held T elem) T (entries_of hops held)
        (entries_of hops (after_elem held elem)) }
{}

/// While a router makes the changes of a run in steady order, it sends each address where the routes before the event at hand
/// send it or where those after it do, and never back.
pub fn meanwhile_law()
    ensures { (fewest : Bool) (every : ℕ) (hops : List Address) (held : Candidates)
        (elems : List Elem) → AreCandidates held → AllByRecursion IsElem elems →
        AnswerMeanwhile (told_of_run fewest true every hops held elems)
        (earlier_routes hops held elems) (event_routes hops held elems) }
{}
