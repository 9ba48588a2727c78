//! The model of a kept table, over plain lists of entries of both families. It defines the changes between two tables, what a
//! repair and a snapshot make of a table, what a pass over a least table leaves as it is, and what elementary events come to.
//!
//! The definitions stand in `specs/`. Each function here is a law: it does nothing, and its clauses hold for all values.
#![tactic(auto)]

mod between_laws;
mod feed_laws;
mod kept_laws;
mod stays_laws;
mod steady_feed_laws;
mod steady_laws;

ghost use Rattle.std.specs.Prelude.{◌≡◌, ◌≤◌, ◌++◌, List, Bool, false, length};
ghost use Rattle.std.specs.List.Sorted.{IsStrictlySortedBy};
ghost use Rattle.std.specs.Map.{keys_of};
ghost use Rattle.table_model.specs.Address.{Prefix, IsPrefix, same_family};
ghost use Rattle.table_model.specs.Bits.{begins};
ghost use Rattle.table_model.specs.Width.{width};
ghost use Rattle.table_model.specs.declared.family.Family.{Family};
ghost use Rattle.table_model.specs.Table.{lpm, Alike};
ghost use Rattle.table_model.specs.Regions.{SameEntries, SameOutside};
ghost use Rattle.table_model.specs.Order.{prefix_cmp};
ghost use Rattle.table_model.specs.Entries.{Entries, of_family};
ghost use Rattle.kept_model.specs.Between.{AreEntries, between};
ghost use Rattle.table_model.specs.declared.family.Family.TheVariants.{V4, V6};
ghost use Rattle.kept_model.specs.Patched.{entries_within, region_aggregate, patch_of, IsPair};

pub use between_laws::{part_law, places_law, sum_law};
pub use feed_laws::{feed_sum_law, numbers_law};
pub use kept_laws::{
    kept_alike_law, kept_numbers_law, kept_stays_law, kept_step_law, kept_sum_law, snapshot_law,
};
pub use stays_laws::{again_law, change_law, halves_law, mended_law, settled_law};
pub use steady_feed_laws::{
    event_law, meanwhile_law, plain_law, told_stays_law, told_step_law, told_sum_law,
};
pub use steady_laws::{order_law, quiet_law, sorted_law, steady_law};

/// The changes of a repair are those within its prefix, between what was there and the aggregate.
pub fn repair_law()
    ensures there { (R T : Entries) (p : Prefix) → IsPrefix p → AreEntries T →
        IsStrictlySortedBy prefix_cmp (keys_of T) →
        between T (patch_of R p T) ≡ between (entries_within p T) (region_aggregate R p T) }
    ensures back { (R T : Entries) (p : Prefix) → IsPrefix p → AreEntries T →
        IsStrictlySortedBy prefix_cmp (keys_of T) →
        between (patch_of R p T) T ≡ between (region_aggregate R p T) (entries_within p T) }
{}

/// The repair of a table that answers as the routes outside the prefix answers as the routes in the prefix's family. Of the
/// tables that do and have the same entries outside the prefix none has fewer. The other family's entries stay.
pub fn patched_law()
    ensures alike { (R T : Entries) (p : Prefix) → IsPrefix p → AreEntries T →
        IsStrictlySortedBy prefix_cmp (keys_of T) →
        ((a : List Bool) → length a ≡ width p.family → begins p.bits a ≡ false →
        lpm (of_family p.family T) a 0 ≡ lpm (of_family p.family R) a 0) →
        Alike (width p.family) (of_family p.family R) (of_family p.family (patch_of R p T)) }
    ensures least { (R T L : Entries) (p : Prefix) → IsPrefix p → AreEntries T →
        IsStrictlySortedBy prefix_cmp (keys_of T) → AreEntries L →
        Alike (width p.family) (of_family p.family R) (of_family p.family L) →
        SameOutside p.bits (of_family p.family L) (of_family p.family T) →
        length (of_family p.family (patch_of R p T)) ≤ length (of_family p.family L) }
    ensures elsewhere { (R T : Entries) (p : Prefix) (g : Family) → IsPrefix p → AreEntries T →
        IsStrictlySortedBy prefix_cmp (keys_of T) → same_family p.family g ≡ false →
        SameEntries (of_family g (patch_of R p T)) (of_family g T) }
{}

/// Of tables of both families, IPv4 first: the changes are those of IPv4, then those of IPv6, and a repair changes the table
/// of its prefix's family alone, by the routes of that family.
pub fn families_law()
    ensures changes { (A B C D : Entries) → IsPair A B → IsPair C D →
        between (A ++ B) (C ++ D) ≡ between A C ++ between B D }
    ensures v4 { (R S A B : Entries) (p : Prefix) → IsPrefix p → IsPair A B →
        of_family p.family R ≡ of_family p.family S → p.family ≡ V4 →
        patch_of R p (A ++ B) ≡ patch_of S p A ++ B }
    ensures v6 { (R S A B : Entries) (p : Prefix) → IsPrefix p → IsPair A B →
        of_family p.family R ≡ of_family p.family S → p.family ≡ V6 →
        patch_of R p (A ++ B) ≡ A ++ patch_of S p B }
{}
