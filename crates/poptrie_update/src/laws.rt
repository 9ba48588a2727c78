//! Laws: each function does nothing, and its clause holds for all values.

ghost use Rattle.std.specs.Prelude.{ℕ, List, [], ◌∷◌, ◌++◌};
ghost use Rattle.table_model.specs.Entries.{Entries};
ghost use Rattle.poptrie_build.specs.Tries.{node_need, leaf_need};
ghost use Rattle.poptrie_set.specs.declared.trie_set.Oldest.{Oldest};
ghost use Rattle.poptrie_set.specs.declared.trie_set.Oldest.TheVariants as Oldest;
ghost use Rattle.poptrie_update.specs.Lives.{Living, HasShapeOf, Past, PastTables};
ghost use Rattle.poptrie_update.specs.Cursors.{OpenLookups, Dues, FitsAll, IsFirst, KeepsReads, KeepsReadsSince};

/// The steps of an update from its first store on keep what is due of the open lookups: `Live::store`, `Live::end` and
/// `Live::cancel` keep reads.
pub fn step_law()
    ensures { (old new : Living) (cs : OpenLookups) (due : Dues) → KeepsReads old new
        → FitsAll old cs due → FitsAll new cs due }
{}

/// So does `Live::prepare`, Ok or not, that gets the oldest of the open lookups.
pub fn prepare_law()
    ensures { (first : Oldest) (old new : Living) (cs : OpenLookups) (due : Dues) → IsFirst first cs
        → KeepsReadsSince first old new → FitsAll old cs due → FitsAll new cs due }
{}

/// If no lookup is open, nothing is due: in any trie, and so after `Live::build` and `Live::fill`.
pub fn nobody_law()
    ensures { (l : Living) (cs : OpenLookups) (due : Dues) → IsFirst Oldest.Nobody cs
        → FitsAll l cs due }
{}

/// The needs that `Past` gets are those of the tables before each end. `Live::new` begins with none; `Live::end` adds the table
/// that was shown before it; each other call keeps the tables, as it keeps the needs whatever they are.
pub fn past_law()
    ensures none { (l : Living) → Past l [] [] → PastTables l [] }
    ensures ended { (old new : Living) (L : Entries) → HasShapeOf old new
        → ((ns ls : List ℕ) → Past old ns ls → Past new
        (ns ++ node_need old.selected.family old.selected.direct_bits L ∷ [])
        (ls ++ leaf_need old.selected.family old.selected.direct_bits L ∷ []))
        → (Ls : List Entries) → PastTables old Ls → PastTables new (Ls ++ L ∷ []) }
    ensures kept { (old new : Living) → HasShapeOf old new
        → ((ns ls : List ℕ) → Past old ns ls → Past new ns ls)
        → (Ls : List Entries) → PastTables old Ls → PastTables new Ls }
{}
