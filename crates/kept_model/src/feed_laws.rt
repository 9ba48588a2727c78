//! The model of a feed: what elementary events of routes come to, in numbers of next hops, a table and its changes.
//!
//! The definitions stand in `specs/`. Each function here is a law: it does nothing, and its clauses hold for all values.

ghost use Rattle.std.specs.Prelude.{◌≡◌, ◌≤◌, ℕ, ◌+◌, List, [], ◌∷◌, ◌++◌, Some, None, length, option_map};
ghost use Rattle.std.specs.List.{AllByRecursion, IsDistinct};
ghost use Rattle.table_model.specs.Address.{Address, Prefix, same_address};
ghost use Rattle.table_model.specs.Changes.{after_changes, sum_of};
ghost use Rattle.route_model.specs.Events.{Elem};
ghost use Rattle.route_model.specs.Choice.{Candidates, AreCandidates, IsElem, after_elem, after_elems, chosen_for, routes_of};
ghost use Rattle.fib_addr.specs.Hops.{most_hops, number_of};
ghost use Rattle.kept_model.specs.Feed.{hops_after, full_at, IsNumbered, AreNumbered, change_by, changes_from, changes_in, entries_of, load_changes, routes_in};

/// The changes of the load add up to the table of its routes, and those of later elementary events lead from there to the
/// table of the routes after them.
pub fn feed_sum_law()
    ensures load { (hops : List Address) (held : Candidates) → AreCandidates held
        → sum_of (changes_in (load_changes hops held)) ≡ Some (entries_of hops held) }
    ensures later { (hops : List Address) (n : ℕ) (held : Candidates) (elems : List Elem)
        → AreCandidates held → AllByRecursion IsElem elems → after_changes
        (changes_in (changes_from hops n held elems)) (entries_of hops held)
        ≡ Some (entries_of hops (after_elems held elems)) }
    ensures all { (hops : List Address) (held : Candidates) (elems : List Elem) → AreCandidates held
        → AllByRecursion IsElem elems → sum_of
        (changes_in (load_changes hops held ++ changes_from hops 1 held elems))
        ≡ Some (entries_of hops (after_elems held elems)) }
{}

/// A hop keeps its number, no hop gets two, each elementary event brings at most one hop more, and the hops of all routes have
/// numbers. So each entry's number is from 1 to the number of hops, the entries with the hops of their numbers are the routes,
/// and the entries and the changes stay what they are as more hops get numbers.
pub fn numbers_law()
    ensures more { (hops : List Address) (xs ys : List Elem)
        → hops_after hops (xs ++ ys) ≡ hops_after (hops_after hops xs) ys }
    ensures stays { (hops : List Address) (elems : List Elem) (a : Address) (n : ℕ)
        → number_of hops a ≡ Some n → number_of (hops_after hops elems) a ≡ Some n }
    ensures one_more { (hops : List Address) (elem : Elem)
        → (length hops ≤ length (hops_after hops (elem ∷ [])))
        × (length (hops_after hops (elem ∷ [])) ≤ length hops + 1) }
    ensures room { (hops : List Address) (elems : List Elem) → full_at hops elems ≡ None
        → length hops ≤ most_hops → length (hops_after hops elems) ≤ most_hops }
    ensures full_in_front { (hops : List Address) (xs ys : List Elem) (n : ℕ)
        → full_at hops xs ≡ Some n → full_at hops (xs ++ ys) ≡ Some n }
    ensures full_behind { (hops : List Address) (xs ys : List Elem) → full_at hops xs ≡ None
        → full_at hops (xs ++ ys) ≡ option_map (λ n. length xs + n)
        (full_at (hops_after hops xs) ys) }
    ensures routes { (elems : List Elem) → AreNumbered (hops_after [] elems)
        (after_elems [] elems) }
    ensures distinct { (elems : List Elem) → IsDistinct same_address (hops_after [] elems) }
    ensures entries { (elems : List Elem) → AllByRecursion (λ e. (1 ≤ e.1)
        × (e.1 ≤ length (hops_after [] elems))) (entries_of (hops_after [] elems)
        (after_elems [] elems)) }
    ensures back { (elems : List Elem) → routes_in (hops_after [] elems)
        (entries_of (hops_after [] elems) (after_elems [] elems))
        ≡ routes_of (after_elems [] elems) }
    ensures chosen { (elems : List Elem) (p : Prefix) (hop : Address)
        → chosen_for (after_elems [] elems) p ≡ Some hop → IsNumbered (hops_after [] elems) hop }
    ensures entries_stay { (hops : List Address) (held : Candidates) (elems : List Elem)
        → AreNumbered hops held → entries_of (hops_after hops elems) held ≡ entries_of hops held }
    ensures change_stays { (hops : List Address) (held : Candidates) (elem : Elem)
        (elems : List Elem) → AreNumbered hops (after_elem held elem)
        → change_by (hops_after hops elems) held elem ≡ change_by hops held elem }
{}
