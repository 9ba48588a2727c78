//! Laws of printed text. Each function here does nothing, and its clauses hold for all values.

ghost use Rattle.std.specs.Prelude.{◌≡◌, ◌↔◌, ◌≤◌, List, ℕ, Ok, Err, Some, length, flat_map};
ghost use Rattle.std.specs.List.{AllByRecursion, IsDistinct};
ghost use Rattle.std.specs.Map.{keys_of};
ghost use Rattle.table_model.specs.Address.{Address, IsAddress, IsPrefix, same_address};
ghost use Rattle.table_model.specs.Entries.{Entries};
ghost use Rattle.cert_model.specs.Rows.{CertRow};
ghost use Rattle.cert_model.specs.Right.{IsCertificate};
ghost use Rattle.fib_addr.specs.Hops.{hop_at, most_hops};
ghost use Rattle.printed_text.specs.Rows.{PrintedRow, IsRow, fields_of, text_of};
ghost use Rattle.printed_text.specs.Reading.{row_in};
ghost use Rattle.printed_text.specs.Texts.{BadLine, hops_in, line_texts, numbered_hop, rows_by, rows_in};
ghost use Rattle.printed_text.specs.Kinds.{kind_hops};
ghost use Rattle.printed_text.specs.Numbered.{IsCertRow, IsOther, HaveHops, Proves, rows_with};
ghost use Rattle.printed_text.specs.Used.{hop_number, kind_hop, printed_in, used_of};
ghost use Rattle.printed_text.specs.Whole.{HaveRows, IsFirstBad};

use crate::kind::Kind;

/// What is written of a row is read as it. The text of rows is read as these rows, if their hops have numbers.
pub fn written_law()
    ensures row { (row : PrintedRow) → IsRow row → row_in (fields_of row) ≡ Ok row }
    ensures text { (rows : List PrintedRow) → AllByRecursion IsRow rows
        → length (hops_in rows) ≤ most_hops → rows_in (text_of rows) ≡ Ok rows }
{}

/// A text is read as rows exactly if each of its lines that isn't empty has one, and these are the rows, whose hops have
/// numbers. It is bad exactly at its first line that has none or brings one hop too many.
pub fn reading_law()
    ensures rows { (text : List ℕ) (rows : List PrintedRow) → rows_in text ≡ Ok rows
        ↔ HaveRows hops_in (line_texts text) rows }
    ensures bad { (text : List ℕ) (bad : BadLine) → rows_in text ≡ Err bad
        ↔ IsFirstBad hops_in (line_texts text) bad }
{}

/// Each hop that a route, least or leaf row brings has a number, and that number stands for it.
pub fn numbers_law()
    ensures { (rows : List PrintedRow) → AllByRecursion (λ a. hop_at (hops_in rows)
        (hop_number (hops_in rows) (Some a)) ≡ Some a) (flat_map numbered_hop rows) }
{}

/// So it is of the rows of one kind: only their hops get numbers, after those that have numbers before. Each hop that such a row
/// brings has a number then, which stands for it; and a number that stood for a hop before still does.
pub fn kinds_law()
    ensures rows { (kind : Kind) (before : List Address) (text : List ℕ) (rows : List PrintedRow) → length before ≤ most_hops
        → rows_by (kind_hops kind before) text ≡ Ok rows ↔ HaveRows (kind_hops kind before) (line_texts text) rows }
    ensures bad { (kind : Kind) (before : List Address) (text : List ℕ) (bad : BadLine) → length before ≤ most_hops
        → rows_by (kind_hops kind before) text ≡ Err bad ↔ IsFirstBad (kind_hops kind before) (line_texts text) bad }
    ensures numbers { (kind : Kind) (before : List Address) (rows : List PrintedRow) → AllByRecursion (λ a. hop_at (kind_hops kind before rows)
        (hop_number (kind_hops kind before rows) (Some a)) ≡ Some a) (flat_map (kind_hop kind) rows) }
    ensures stay { (kind : Kind) (before : List Address) (rows : List PrintedRow) (n : ℕ) (a : Address) → hop_at before n ≡ Some a
        → hop_at (kind_hops kind before rows) n ≡ Some a }
{}

/// The numbers of hops don't matter to a certificate. Take the printed rows of routes that have hops, of a table, and of a
/// certificate that proves it least. They prove a least table with the numbers that a reader gives the hops. The text of the rows
/// is read as them if the hops aren't too many. Rows of proper entries are proper.
pub fn printed_law()
    ensures proves { (hops : List Address) (R T : Entries) (C : List CertRow) (between after : List PrintedRow) → IsDistinct same_address hops → HaveHops hops R →
        AllByRecursion IsOther between → AllByRecursion IsOther after → IsCertificate R T C → Proves (used_of (rows_with hops R T C between after)) }
    ensures text { (hops : List Address) (R T : Entries) (C : List CertRow) (between after : List PrintedRow) → length hops ≤ most_hops →
        AllByRecursion IsOther between → AllByRecursion IsOther after → AllByRecursion IsRow (rows_with hops R T C between after) →
        printed_in (text_of (rows_with hops R T C between after)) ≡ Ok (used_of (rows_with hops R T C between after)) }
    ensures proper { (hops : List Address) (R T : Entries) (C : List CertRow) (between after : List PrintedRow) → AllByRecursion IsAddress hops →
        AllByRecursion IsPrefix (keys_of R) → AllByRecursion IsPrefix (keys_of T) → AllByRecursion IsCertRow C → AllByRecursion IsRow between → AllByRecursion IsRow after →
        AllByRecursion IsRow (rows_with hops R T C between after) }
{}
