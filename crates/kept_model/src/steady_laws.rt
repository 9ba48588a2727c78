//! The model of changes in an order in which no packet goes astray.
//!
//! A router that makes the changes of an event one by one, in whatever order they stand, can meanwhile send an address where it
//! went neither before the event nor after it. In steady order it can't: what sets an entry comes first, from the longest prefix
//! to the shortest, then what removes one, from the shortest to the longest.
//!
//! The definitions stand in `specs/`. Each function here is a law: it does nothing, and its clauses hold for all values.

ghost use Rattle.std.specs.Prelude.{◌≡◌, ◌++◌, List, Some, map};
ghost use Rattle.std.specs.List.{AllByRecursion};
ghost use Rattle.std.specs.List.Sorted.{IsPermutation, IsSorted, IsStrictlySortedBy};
ghost use Rattle.table_model.specs.Address.{IsPrefix};
ghost use Rattle.table_model.specs.Order.{prefix_cmp};
ghost use Rattle.table_model.specs.Entries.{Entries, AlikeInBoth, in_order};
ghost use Rattle.table_model.specs.Changes.{Change, after_changes};
ghost use Rattle.kept_model.specs.Between.{AreEntries, place_of, between};
ghost use Rattle.kept_model.specs.Steady.{in_steady_order, LeadSteadily};
ghost use Rattle.kept_model.specs.Turns.{AreInTurn, steady_cmp};

/// The changes between two tables, in steady order, lead steadily from the first to the second.
pub fn steady_law()
    ensures { (T U : Entries) → AreEntries T → AreEntries U →
        LeadSteadily (in_steady_order (between T U)) (in_order T) (in_order U) }
{}

/// In steady order stand the same changes, and none comes before one whose turn is earlier.
pub fn order_law()
    ensures same { (cs : List Change) → AllByRecursion IsPrefix (map place_of cs) →
        IsPermutation cs (in_steady_order cs) }
    ensures turns { (cs : List Change) → AllByRecursion IsPrefix (map place_of cs) →
        AreInTurn (in_steady_order cs) }
{}

/// Changes in the order of prefixes have one list in steady order: the one that is sorted by turns, and then by prefixes.
pub fn sorted_law()
    ensures { (cs ds : List Change) → IsStrictlySortedBy prefix_cmp (map place_of cs) →
        AllByRecursion IsPrefix (map place_of cs) → IsPermutation cs ds →
        IsSorted steady_cmp ds → ds ≡ in_steady_order cs }
{}

/// If both tables answer alike, no answer changes on the way.
pub fn quiet_law()
    ensures { (T U : Entries) → AreEntries T → AreEntries U →
        AlikeInBoth (in_order T) (in_order U) → (done left : List Change) (M : Entries) →
        in_steady_order (between T U) ≡ done ++ left → after_changes done (in_order T) ≡ Some M →
        AlikeInBoth (in_order T) M }
{}
