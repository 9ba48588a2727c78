//! What the one answer of a region is, in terms of its addresses and of tables: each function does nothing, and its clauses
//! hold for all values.

ghost use Rattle.std.specs.Prelude.{◌≡◌, ◌↔◌, ℕ, ◌+◌, List, Bool, Some, None, length};
ghost use Rattle.table_model.specs.Address.{Prefix, IsPrefix};
ghost use Rattle.table_model.specs.Entries.{Entries};
ghost use Rattle.table_model.specs.Uniform.{AllGet, TwoDiffer};
ghost use Rattle.fib_addr.specs.Answers.{one_answer, part, answers_in, bits_in, Differ};

/// A region has one answer exactly if all its addresses get it, and none exactly if two of them get different ones.
pub fn one_answer_law()
    ensures one { (d : ℕ) (f : List Bool → ℕ) (h : ℕ)
        → (one_answer d f ≡ Some h) ↔ ((a : List Bool) → length a ≡ d → f a ≡ h) }
    ensures none { (d : ℕ) (f : List Bool → ℕ) → (one_answer d f ≡ None) ↔ Differ d f }
{}

/// A part of a region with one answer has that answer.
pub fn part_law()
    ensures { (d n : ℕ) (f : List Bool → ℕ) (h : ℕ) (p : List Bool) → length p + n ≡ d
        → one_answer d f ≡ Some h → one_answer n (part p f) ≡ Some h }
{}

/// A prefix has one answer if all its addresses get it by longest match, and none if two get different ones.
pub fn table_law()
    ensures one { (L : Entries) (p : Prefix) (h : ℕ) → IsPrefix p → AllGet L p h
        → one_answer (bits_in p) (answers_in L p) ≡ Some h }
    ensures none { (L : Entries) (p : Prefix) → TwoDiffer L p
        → one_answer (bits_in p) (answers_in L p) ≡ None }
{}
