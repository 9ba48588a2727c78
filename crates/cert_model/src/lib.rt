//! The model of certificates: rows that prove a table least for its routes, whoever wrote them.
//!
//! The definitions stand in `specs/`. Each function here is a law: it does nothing, and its clause holds for all values.
#![tactic(auto)]

mod kind;
mod packed;
mod row;
mod sink;

ghost use Rattle.std.specs.Prelude.{◌≡◌, ◌≢◌, ◌<◌, ◌≤◌, ℕ, ◌↔◌, List, Bool, Some, None, length};
ghost use Rattle.std.specs.List.{AllByRecursion, IsDistinct};
ghost use Rattle.std.specs.Map.{keys_of};
ghost use Rattle.table_model.specs.Width.{width};
ghost use Rattle.table_model.specs.Address.{Address, same_prefix};
ghost use Rattle.table_model.specs.declared.family.Family.{Family};
ghost use Rattle.table_model.specs.Table.{Table, IsTable, Alike};
ghost use Rattle.table_model.specs.Entries.{Entries, of_family, match_in, AlikeInBoth};
ghost use Rattle.table_model.specs.Least.{Least};
ghost use Rattle.table_model.specs.Both.{LeastInBoth};
ghost use Rattle.fib_addr.specs.Answers.{one_answer};
ghost use Rattle.cert_model.specs.Rows.{CertRow, whole_prefix, certificate_of};
ghost use Rattle.cert_model.specs.Right.{IsRight, bound_by, IsCertificate};
ghost use Rattle.cert_model.specs.Renamed.{renamed, renamed_rows, hops_of_entries, KeepsApart};
ghost use Rattle.cert_model.specs.Verdict.{No, NotSame, IsLeastDiffering, RowFits, twice, not_same, too_many_in, verdict};

pub use packed::PackedRow;
pub use row::Row;
pub use sink::RowSink;

/// The one answer of a region is found if there is one.
pub fn one_answer_law()
    ensures { (d : ℕ) (f : List Bool → ℕ) (h : ℕ) → (one_answer d f ≡ Some h)
        ↔ ((a : List Bool) → length a ≡ d → f a ≡ h) }
{}

/// By the rules for sets and k, an alike table with at most the bound's entries is least.
pub fn certificate_law()
    ensures { (R T : Entries) (f : Family) (S : List ℕ) (k : ℕ) → IsRight R (whole_prefix f) S k → Alike (width f) (of_family f R) (of_family f T) →
        length (of_family f T) ≤ bound_by S k → Least (width f) (of_family f R) (of_family f T) }
{}

/// A certificate proves its table least in both families, whoever wrote it.
pub fn soundness_law()
    ensures { (R T : Entries) (rows : List CertRow) → IsCertificate R T rows → LeastInBoth R T }
{}

/// The rows that routes have are a certificate for each table that is least in both families.
pub fn completeness_law()
    ensures { (R T : Entries) → IsDistinct same_prefix (keys_of R) → IsDistinct same_prefix (keys_of T) → LeastInBoth R T →
        IsCertificate R T (certificate_of R) }
{}

/// No prefix stands twice exactly if all prefixes are distinct.
pub fn twice_law()
    ensures { (L : Entries) → (twice L ≡ None) ↔ IsDistinct same_prefix (keys_of L) }
{}

/// No answers differ exactly if the tables are alike in both families; else the least address that gets different answers
/// is returned, with both.
pub fn not_same_law()
    ensures none { (R T : Entries) → (not_same R T ≡ None) ↔ AlikeInBoth R T }
    ensures some { (R T : Entries) (x : No) → not_same R T ≡ Some x → (a : Address)
        × (x ≡ NotSame a (match_in R a) (match_in T a)) × IsLeastDiffering R T a }
{}

/// A table has too many entries of a family exactly if an alike table has fewer.
pub fn not_least_law()
    ensures { (R T : Entries) (f : Family) → (too_many_in R T f ≢ None) ↔
        ((L : Table) × IsTable (width f) L × Alike (width f) (of_family f R) L × (length L < length (of_family f T))) }
{}

/// Nothing is wrong exactly if the rows are a certificate.
pub fn verdict_law()
    ensures { (R T : Entries) (rows : List CertRow) → AllByRecursion RowFits rows
        → (verdict R T rows ≡ None) ↔ IsCertificate R T rows }
{}

/// The numbers of hops don't matter: other numbers make a certificate of a certificate, if 0 stays 0, and the hops of the
/// routes keep numbers that differ from each other and from 0.
pub fn renaming_law()
    ensures { (to : ℕ → ℕ) (R T : Entries) (rows : List CertRow) → to 0 ≡ 0 → KeepsApart to (hops_of_entries R) →
        IsCertificate R T rows → IsCertificate (renamed to R) (renamed to T) (renamed_rows to rows) }
{}
