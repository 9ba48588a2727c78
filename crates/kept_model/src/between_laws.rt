//! The model of changes between two tables: one for each prefix at which they differ.
//!
//! The definitions stand in `specs/`. Each function here is a law: it does nothing, and its clauses hold for all values.

ghost use Rattle.std.specs.Prelude.{◌≡◌, ◌++◌, Bool, true, not, Some, map, filter};
ghost use Rattle.std.specs.List.{AllByRecursion};
ghost use Rattle.std.specs.List.Sorted.{IsStrictlySortedBy};
ghost use Rattle.std.specs.Map.{keys_of};
ghost use Rattle.table_model.specs.Address.{Prefix, same_prefix};
ghost use Rattle.table_model.specs.Order.{prefix_cmp};
ghost use Rattle.table_model.specs.Entries.{Entries, in_order};
ghost use Rattle.table_model.specs.Changes.{after_changes};
ghost use Rattle.kept_model.specs.Between.{AreEntries, place_of, entry_hop_at, change_at, between};

/// The changes between two tables make the second of the first.
pub fn sum_law()
    ensures { (old new : Entries) → AreEntries old → AreEntries new → after_changes (between old new) (in_order old) ≡ Some (in_order new) }
{}

/// They stand in the order of prefixes, one at each prefix at most: at a prefix stands what makes the first table's hop there
/// the second's, and nothing if both tables have the same.
pub fn places_law()
    ensures order { (old new : Entries) → IsStrictlySortedBy prefix_cmp (map place_of (between old new)) }
    ensures each { (old new : Entries) (p : Prefix) → AreEntries old → AreEntries new →
        filter (λ c. same_prefix p (place_of c)) (between old new) ≡ change_at p (entry_hop_at p old) (entry_hop_at p new) }
{}

/// If the entries that pass a test are replaced by others that do, the changes are those between these two parts alone.
pub fn part_law()
    ensures { (t : Prefix → Bool) (T W : Entries) → AreEntries T → IsStrictlySortedBy prefix_cmp (keys_of T) → AreEntries W → AllByRecursion (λ p. t p ≡ true) (keys_of W) →
        between T (in_order (filter (λ e. not (t e.0)) T ++ W)) ≡ between (filter (λ e. t e.0) T) W }
{}
