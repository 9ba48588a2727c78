//! The model of several tables that are compared with the first, one after another.
//!
//! The definitions stand in `specs/`. Each function here is a law: it does nothing, and its clauses hold for all values.

ghost use Rattle.std.specs.Prelude.{◌≡◌, ℕ, List, [], ◌∷◌, ◌++◌, length, Option, Some, None};
ghost use Rattle.table_model.specs.Entries.{Entries, AlikeInBoth};
ghost use Rattle.fib_same.specs.Texts.{Difference, IsLeastDifference, IsDifferenceOf, ComparesTo, EveryTwo, SameBefore, difference_at, least_difference, lesser};

/// With one table more, the lesser of two addresses is the least at which any of them differs from the first: the one found so far, and
/// the least at which the new table does.
pub fn next_law()
    ensures { (first : Entries) (others : List Entries) (t : Entries) (best next : Option Difference)
        → ComparesTo first others best → IsDifferenceOf first (length others) t next
        → ComparesTo first (others ++ t ∷ []) (lesser best next) }
{}

/// What is computed of all tables is what comparing them comes to.
pub fn found_law()
    ensures one { (first : Entries) (n : ℕ) (t : Entries)
        → IsDifferenceOf first n t (difference_at first n t) }
    ensures all { (first : Entries) (others : List Entries)
        → ComparesTo first others (least_difference first others) }
{}

/// If none differs from the first, every two tables are alike.
pub fn alike_law()
    ensures { (first : Entries) (others : List Entries) → ComparesTo first others None
        → EveryTwo AlikeInBoth (first ∷ others) }
{}

/// Before the least address at which one differs from the first, every two tables answer alike.
pub fn least_law()
    ensures { (first : Entries) (others : List Entries) (x : Difference) → IsLeastDifference first others x
        → EveryTwo (λ t. SameBefore t x.addr) (first ∷ others) }
{}
