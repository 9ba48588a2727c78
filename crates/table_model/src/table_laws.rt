//! Laws of tables, longest match and changes: each function does nothing, and its clause holds for all values.

ghost use Rattle.std.specs.Prelude.{◌≡◌, ℕ, ◌+◌, List, Bool, false, true, ◌∷◌, length, Some};
ghost use Rattle.std.specs.List.{AllByRecursion, IsDistinct};
ghost use Rattle.std.specs.List.Sorted.{IsPermutation, IsStrictlySortedBy};
ghost use Rattle.std.specs.Map.{keys_of};
ghost use Rattle.table_model.specs.Address.{IsPrefix, same_prefix};
ghost use Rattle.table_model.specs.Order.{prefix_cmp};
ghost use Rattle.table_model.specs.Table.{Table, lpm, Distinct, half, root, inherit, here};
ghost use Rattle.table_model.specs.Entries.{Entries, in_order};
ghost use Rattle.table_model.specs.Changes.{additions, sum_of};

/// Longest match goes on in the half of the address's first bit, which inherits the entry at the root.
pub fn cutting_law()
    ensures { (L : Table) (b : Bool) (a : List Bool) (h : ℕ)
        → lpm L (b ∷ a) h ≡ lpm (half b L) a (inherit (root L) h) }
{}

/// A table has as many entries as its entry at the root, if any, and its halves together.
pub fn parts_law()
    ensures { (L : Table) → Distinct L → length L ≡ length (here (root L)) + length (half false L)
        + length (half true L) }
{}

/// Entries with distinct prefixes, put in order, stand in the order of prefixes and are the same entries; those that are in order
/// stay as they are.
pub fn entry_order_law()
    ensures sorted { (L : Entries) → IsStrictlySortedBy prefix_cmp (keys_of (in_order L)) }
    ensures same { (L : Entries) → AllByRecursion IsPrefix (keys_of L)
        → IsDistinct same_prefix (keys_of L) → IsPermutation L (in_order L) }
    ensures again { (L : Entries) → IsStrictlySortedBy prefix_cmp (keys_of L) → in_order L ≡ L }
{}

/// The sum of additions of entries in order is these entries.
pub fn sum_law()
    ensures { (L : Entries) → IsStrictlySortedBy prefix_cmp (keys_of L)
        → sum_of (additions L) ≡ Some L }
{}
