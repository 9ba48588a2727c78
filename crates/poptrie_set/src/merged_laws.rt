//! What a prepared update shows if the new table differs outside its prefix.

ghost use Rattle.std.specs.Prelude.{ℕ};
ghost use Rattle.table_model.specs.Address.{Prefix};
ghost use Rattle.table_model.specs.Entries.{Entries};
ghost use Rattle.poptrie_set.specs.Prepares.{MergesSlots, AgreeOutside};

/// For any two tables there is one that takes the slots that a prefix meets from the second and all else from the first; and if
/// both agree outside the prefix the second is one.
pub fn merged_law()
    ensures some { (p : Prefix) (s : ℕ) (L M : Entries) → (N : Entries) × MergesSlots p s L M N }
    ensures same { (p : Prefix) (s : ℕ) (L M : Entries) → AgreeOutside p L M
        → MergesSlots p s L M M }
{}
