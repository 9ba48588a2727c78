//! The model of a run in steps: lookups that pause between their reads, beside updates that are made store by store.
//!
//! The definitions stand in `specs/`: `Script` is the script and its grammar, `Rows` what is printed of each step, and `Machine` what a run
//! may do, defined over lists of routes alone. Each function here is a law: it does nothing, and its clauses hold for all values.

ghost use Rattle.std.specs.Prelude.{◌≡◌, ◌<◌, ℕ, Option, None, Some};
ghost use Rattle.table_model.specs.declared.family.Family.{Family};
ghost use Rattle.step_script.specs.Script.{Step};
ghost use Rattle.step_script.specs.Rows.{StepRow, printed_number};
ghost use Rattle.step_script.specs.Machine.{World, State, Lookup, Takes, Names, StaysOrEnds};

/// Each number below 128 is printed of one lookup alone: of a family, and numbered below 64 there.
pub fn number_law()
    ensures some { (c : ℕ) → c < 128 → (f : Family) × (n : ℕ) × Names c f n }
    ensures one { (c n m : ℕ) (f g : Family) → Names c f n → Names c g m → (f ≡ g) × (n ≡ m) }
{}

/// Whatever the step, an open lookup keeps its address and its start, and once it went on its version; or it has its answer, and
/// is closed.
pub fn version_law()
    ensures { (w : World) (s t : State) (step : Step) (row : StepRow) (f : Family) (n : ℕ) (k : Lookup) → Takes w s step row t → s.lookups f n ≡ Some k → StaysOrEnds k (t.lookups f n) }
{}
