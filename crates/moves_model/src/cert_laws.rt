//! The model of rows that prove a list of changes shortest, whoever wrote them, and of the verdict on changes with such rows.
//!
//! The definitions stand in `specs/`. Each function here is a law: it does nothing, and its clause holds for all values.

ghost use Rattle.std.specs.Prelude.{◌≡◌, ◌≢◌, ◌<◌, ◌↔◌, ℕ, List, None, length};
ghost use Rattle.std.specs.List.{AllByRecursion, IsDistinct};
ghost use Rattle.std.specs.Map.{keys_of};
ghost use Rattle.table_model.specs.Width.{width};
ghost use Rattle.table_model.specs.Address.{IsPrefix, same_prefix};
ghost use Rattle.table_model.specs.declared.family.Family.{Family};
ghost use Rattle.table_model.specs.Table.{Table, IsTable, Alike};
ghost use Rattle.table_model.specs.Entries.{Entries, of_family};
ghost use Rattle.table_model.specs.Changes.{Change};
ghost use Rattle.kept_model.specs.Between.{AreEntries, place_of, between};
ghost use Rattle.cert_model.specs.Rows.{CertRow};
ghost use Rattle.cert_model.specs.Verdict.{RowFits};
ghost use Rattle.moves_model.specs.Dist.{distance};
ghost use Rattle.moves_model.specs.Nearest.{near_bound};
ghost use Rattle.moves_model.specs.Demands.{HaveChangeBound};
ghost use Rattle.moves_model.specs.Shortest.{AreProvedShortest, AreShortest};
ghost use Rattle.moves_model.specs.Rows.{near_in, near_rows};
ghost use Rattle.moves_model.specs.Verdict.{moves_verdict, too_many};

/// Right rows lead to the bound of the changes, whoever wrote them.
pub fn right_law()
    ensures { (R T : Entries) (f : Family) (rows : List CertRow) (n : ℕ) → HaveChangeBound R T f rows n →
        near_bound (width f) (of_family f R) (of_family f T) ≡ n }
{}

/// The changes between two tables of a family are as many as the prefixes at which they differ.
pub fn count_law()
    ensures { (f : Family) (old new : Entries) → AreEntries old → AreEntries new →
        AllByRecursion (λ p. p.family ≡ f) (keys_of old) → AllByRecursion (λ p. p.family ≡ f) (keys_of new) →
        length (between old new) ≡ distance (of_family f old) (of_family f new) }
{}

/// Changes that rows prove shortest are so, whoever wrote them; and the table that they make differs from the old one at just as
/// many prefixes as there are changes.
pub fn soundness_law()
    ensures shortest { (f : Family) (R T : Entries) (cs : List Change) (rows : List CertRow) →
        AreProvedShortest f R T cs rows → AreShortest f R T cs }
    ensures reached { (f : Family) (R T : Entries) (cs : List Change) (rows : List CertRow) (s : AreProvedShortest f R T cs rows) →
        AllByRecursion IsPrefix (keys_of T) → AllByRecursion (λ c. IsPrefix (place_of c)) cs →
        distance (of_family f T) (of_family f s.after) ≡ length cs }
{}

/// The changes to the nearest table are shortest, its rows prove it, and they are as many as the bound says.
pub fn cert_near_law()
    ensures proved { (f : Family) (R T : Entries) → AreEntries T → AllByRecursion (λ p. p.family ≡ f) (keys_of T) →
        IsDistinct same_prefix (keys_of R) → AreProvedShortest f R T (between T (near_in f R T)) (near_rows f R T) }
    ensures count { (f : Family) (R T : Entries) → AreEntries T → AllByRecursion (λ p. p.family ≡ f) (keys_of T) →
        length (between T (near_in f R T)) ≡ near_bound (width f) (of_family f R) (of_family f T) }
{}

/// There are too many changes exactly if some table that answers as the routes differs from the old one at fewer prefixes.
pub fn not_shortest_law()
    ensures { (f : Family) (R T : Entries) (cs : List Change) → AreEntries T → (too_many R T f cs ≢ None) ↔
        ((U : Table) × IsTable (width f) U × Alike (width f) (of_family f R) U × (distance (of_family f T) U < length cs)) }
{}

/// Nothing is wrong exactly if the rows prove the changes shortest.
pub fn verdict_law()
    ensures { (f : Family) (T R : Entries) (cs : List Change) (rows : List CertRow) → AllByRecursion RowFits rows
        → (moves_verdict f T R cs rows ≡ None) ↔ AreProvedShortest f R T cs rows }
{}
