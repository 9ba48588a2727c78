//! The model of what a router must change to forward as routes do, over both families, and of the verdict on such changes.
//!
//! The definitions stand in `specs/`. Each function here is a law: it does nothing, and its clause holds for all values.

ghost use Rattle.std.specs.Prelude.{◌≡◌, ◌↔◌, ◌++◌, Bool, List, None, true};
ghost use Rattle.std.specs.List.{AllByRecursion};
ghost use Rattle.std.specs.Map.{keys_of};
ghost use Rattle.table_model.specs.Address.{IsPrefix};
ghost use Rattle.table_model.specs.declared.family.Family.TheVariants.{V4, V6};
ghost use Rattle.table_model.specs.Entries.{Entries, in_order};
ghost use Rattle.table_model.specs.Changes.{Change};
ghost use Rattle.kept_model.specs.Between.{place_of};
ghost use Rattle.kept_model.specs.Steady.{AnswerSteadily};
ghost use Rattle.moves_model.specs.Shortest.{AreShortest};
ghost use Rattle.moves_model.specs.Both.{AreShortestInBoth, both_changes, family_table, told_in};
ghost use Rattle.moves_model.specs.Claims.{Claim, IsClaim, IsProved, claim_verdict};

/// Lists of changes that are shortest in each family, whoever wrote them, are shortest over both if they are made one after the other.
pub fn parts_law()
    ensures { (R T : Entries) (xs ys : List Change) →
        AllByRecursion IsPrefix (keys_of R) → AllByRecursion IsPrefix (keys_of T) →
        AllByRecursion (λ c. IsPrefix (place_of c) × ((place_of c).family ≡ V4)) xs →
        AllByRecursion (λ c. IsPrefix (place_of c) × ((place_of c).family ≡ V6)) ys →
        AreShortest V4 (family_table V4 R) (family_table V4 T) xs →
        AreShortest V6 (family_table V6 R) (family_table V6 T) ys →
        AreShortestInBoth (in_order R) (in_order T) (xs ++ ys) }
{}

/// The changes of both families, in the order in which the router gets them, are made one after another. They make of the
/// router's table one that answers as the routes do, and no table that does differs from it at fewer prefixes.
pub fn both_law()
    ensures { (R T : Entries) (steady : Bool) →
        AllByRecursion IsPrefix (keys_of R) → AllByRecursion IsPrefix (keys_of T) →
        AreShortestInBoth (in_order R) (in_order T) (told_in steady (both_changes R T)) }
{}

/// In steady order no packet goes astray. While a router makes the changes one by one, each address is answered as by its
/// table before or as by the routes. Once it is answered as by the routes it stays so.
pub fn claims_meanwhile_law()
    ensures { (R T : Entries) → AllByRecursion IsPrefix (keys_of R) → AllByRecursion IsPrefix (keys_of T) →
        AnswerSteadily (told_in true (both_changes R T)) (in_order T) (in_order T) (in_order R) }
{}

/// Nothing is wrong with a claim exactly if it is proved.
pub fn claim_law()
    ensures { (c : Claim) → IsClaim c → (claim_verdict c ≡ None) ↔ IsProved c }
{}
