//! Laws of least tables: each function does nothing, and its clause holds for all values.
//!
//! The sets of the regions are those of ORTC (Draves, King, Venkatachary and Zill, 'Constructing Optimal IP Routing
//! Tables', INFOCOM 1999). What least means says nothing of them.

ghost use Rattle.std.specs.Prelude.{◌≡◌, ℕ, ◌+◌, ◌<◌, ◌≤◌, ◌↔◌, ◌⊎◌, IsTrue, List, Bool, true, false, [], ◌∷◌, ◌++◌, Option, cond, length};
ghost use Rattle.std.specs.List.Sorted.{IsStrictlySortedBy};
ghost use Rattle.std.specs.Map.{keys_of};
ghost use Rattle.table_model.specs.Bits.{begins};
ghost use Rattle.table_model.specs.Order.{prefix_cmp};
ghost use Rattle.table_model.specs.Width.{width};
ghost use Rattle.table_model.specs.declared.family.Family.{Family};
ghost use Rattle.table_model.specs.Table.{Table, lpm, IsTable, Alike, half, root};
ghost use Rattle.table_model.specs.Entries.{Entries, of_family, of_table};
ghost use Rattle.table_model.specs.Regions.{join, above, entry_at, SameOutside, SameEntries, InOrder};
ghost use Rattle.table_model.specs.Sets.{is_in, own, joint, apart};
ghost use Rattle.table_model.specs.Least.{Least, LeastWithin, IsCost, IsBest, IsAggregate, set_at, k_at, bound, aggregate, patch};
ghost use Rattle.table_model.specs.Kept.{Kept};
ghost use Rattle.table_model.specs.Both.{AggregateInBoth, aggregate_in, aggregate_in_both};

/// An entry at the root, if any, and two halves make a table.
pub fn joining_law()
    ensures { (o : Option ℕ) (w : ℕ) (L M : Table) → IsTable w L → IsTable w M →
        IsTable (w + 1) (join o L M) × (root (join o L M) ≡ o) × (half false (join o L M) ≡ L) × (half true (join o L M) ≡ M) }
{}

/// The cost of a region is its k if the inherited hop is in its set, else one more.
pub fn cost_law()
    ensures { (w : ℕ) (R : Table) (p : List Bool) (h : ℕ) → length p ≤ w →
        IsCost w R p h (cond (is_in h (set_at w R p)) (k_at w R p) (k_at w R p + 1)) }
{}

/// The set of a region is the list of its best hops.
pub fn best_law()
    ensures { (w : ℕ) (R : Table) (p : List Bool) (h : ℕ) → length p ≤ w
        → IsTrue (is_in h (set_at w R p)) ↔ IsBest w R p h }
{}

/// If all answers of a region are one, its set is that answer, and its k is 0.
pub fn leaf_law()
    ensures { (w : ℕ) (R : Table) (p : List Bool) (h : ℕ) → length p ≤ w → ((a : List Bool) → length (p ++ a) ≡ w → lpm R (p ++ a) 0 ≡ h) →
        (set_at w R p ≡ h ∷ []) × (k_at w R p ≡ 0) }
{}

/// A region that is no single address has the joint set of its halves.
pub fn join_law()
    ensures { (w : ℕ) (R : Table) (p : List Bool) → length p < w →
        (set_at w R p ≡ joint (set_at w R (p ++ (false ∷ []))) (set_at w R (p ++ (true ∷ []))))
        × (k_at w R p ≡ k_at w R (p ++ (false ∷ [])) + k_at w R (p ++ (true ∷ [])) + apart (set_at w R (p ++ (false ∷ []))) (set_at w R (p ++ (true ∷ [])))) }
{}

/// At each prefix within the region the aggregate has an entry exactly if the set lacks the hop that is inherited there.
pub fn entry_law()
    ensures { (w : ℕ) (R : Table) (p q : List Bool) (h : ℕ) (old : Table) → length (p ++ q) ≤ w →
        entry_at (p ++ q) (aggregate w R p h old) ≡ own (set_at w R (p ++ q)) (entry_at (p ++ q) old) (above (p ++ q) (aggregate w R p h old) h) }
{}

/// No table that answers as R has fewer entries than the bound.
pub fn bound_law()
    ensures { (w : ℕ) (R L : Table) → Alike w R L → bound w R ≤ length L }
{}

/// The aggregate of the whole space is a least table, with as many entries as the bound.
pub fn fresh_law()
    ensures { (w : ℕ) (R old : Table) →
        IsTable w (aggregate w R [] 0 old) × Least w R (aggregate w R [] 0 old) × (length (aggregate w R [] 0 old) ≡ bound w R) }
{}

/// The aggregate of a region answers there as R, in as many entries as the region costs: no table of the region has fewer.
pub fn region_law()
    ensures { (w : ℕ) (R : Table) (p : List Bool) (h : ℕ) (old : Table) → length p ≤ w →
        LeastWithin w R p h (aggregate w R p h old) × IsCost w R p h (length (aggregate w R p h old)) }
{}

/// The patch at p of a table that answers as R outside p answers as R.
pub fn patch_alike()
    ensures { (w : ℕ) (T R : Table) (p : List Bool) → length p ≤ w → IsTable w T → ((a : List Bool) → length a ≡ w → begins p a ≡ false → lpm T a 0 ≡ lpm R a 0) →
        IsTable w (patch w T R p) × Alike w R (patch w T R p) }
{}

/// Of the tables that answer as R and equal T outside p none has fewer entries than the patch of T at p.
pub fn patch_least()
    ensures { (w : ℕ) (T R L : Table) (p : List Bool) → length p ≤ w → IsTable w T → IsTable w L → Alike w R L → SameOutside p L T →
        length (patch w T R p) ≤ length L }
{}

/// More entries than the bound are too many: an alike table has fewer.
pub fn not_least_law()
    ensures { (w : ℕ) (R T : Table) → (bound w R < length T)
        ↔ ((L : Table) × IsTable w L × Alike w R L × (length L < length T)) }
{}

/// The aggregate is the one table that the best hops determine.
pub fn aggregate_law()
    ensures one { (w : ℕ) (R : Table) (p : List Bool) (h : ℕ) (old A : Table) → length p ≤ w → IsAggregate w R p h old A →
        (q : List Bool) → length (p ++ q) ≤ w → entry_at (p ++ q) A ≡ entry_at (p ++ q) (aggregate w R p h old) }
    ensures is { (w : ℕ) (R : Table) (p : List Bool) (h : ℕ) (old : Table) → length p ≤ w
        → IsAggregate w R p h old (aggregate w R p h old) }
{}

/// Tables of the same entries answer alike, are as long, and are least alike, whatever their order.
pub fn same_law()
    ensures answers { (L M : Table) → SameEntries L M → (a : List Bool) (h : ℕ)
        → lpm L a h ≡ lpm M a h }
    ensures length { (w : ℕ) (L M : Table) → IsTable w L → IsTable w M → SameEntries L M
        → length L ≡ length M }
    ensures least { (w : ℕ) (R L M : Table) → IsTable w L → IsTable w M → SameEntries L M
        → Least w R L → Least w R M }
{}

/// The patch has the entries of the table outside p, and those of the aggregate within.
pub fn patch_law()
    ensures keeps { (w : ℕ) (T R : Table) (p q : List Bool) → begins p q ≡ false
        → entry_at q (patch w T R p) ≡ entry_at q T }
    ensures repairs { (w : ℕ) (T R : Table) (p q : List Bool)
        → entry_at (p ++ q) (patch w T R p) ≡ entry_at (p ++ q) (aggregate w R p (above p T 0) T) }
{}

/// The aggregate stands in order, a table in order is given by its entries, and the entries of a family's table in order stand
/// in the order of prefixes.
pub fn aggregate_order_law()
    ensures aggregate { (w : ℕ) (R : Table) (p : List Bool) (h : ℕ) (old : Table)
        → InOrder (aggregate w R p h old) }
    ensures one { (w : ℕ) (L M : Table) → IsTable w L → IsTable w M → InOrder L → InOrder M
        → SameEntries L M → L ≡ M }
    ensures entries { (f : Family) (L : Table) → IsTable (width f) L → InOrder L
        → IsStrictlySortedBy prefix_cmp (keys_of (of_table f L)) }
{}

/// A family's aggregate, as a list of entries, is the aggregate by its definition. The table of both families' aggregates is the
/// aggregate in each, and stands in the order of prefixes; no other table does both.
pub fn both_law()
    ensures family { (f : Family) (R old : Entries) →
        IsAggregate (width f) (of_family f R) [] 0 (of_family f old) (of_family f (aggregate_in f R old)) }
    ensures aggregate { (R old : Entries) → AggregateInBoth R old (aggregate_in_both R old) }
    ensures order { (R old : Entries) → IsStrictlySortedBy prefix_cmp
        (keys_of (aggregate_in_both R old)) }
    ensures one { (R old T : Entries) → AggregateInBoth R old T → IsStrictlySortedBy prefix_cmp (keys_of T) →
        T ≡ aggregate_in_both R old }
{}

/// A table that is kept by snapshots and repairs answers as the routes.
pub fn kept_law()
    ensures { (w : ℕ) (R T : Table) → Kept w R T → IsTable w T × Alike w R T }
{}

/// The cost of a region is the least of what its halves cost without an entry at its prefix, and of one more with one.
pub fn halves_law()
    ensures { (w : ℕ) (R : Table) (p : List Bool) (h c : ℕ) (low high : ℕ → ℕ) → length p < w → IsCost w R p h c →
        ((g : ℕ) → IsCost w R (p ++ (false ∷ [])) g (low g)) → ((g : ℕ) → IsCost w R (p ++ (true ∷ [])) g (high g)) →
        (c ≤ low h + high h) × ((g : ℕ) → c ≤ 1 + low g + high g) × ((c ≡ low h + high h) ⊎ ((g : ℕ) × (c ≡ 1 + low g + high g))) }
{}
