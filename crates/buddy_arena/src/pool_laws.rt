//! What the definitions say: each function does nothing, and its clauses hold for all values.

ghost use Rattle.std.specs.Prelude.{◌≡◌, ℕ, ◌≤◌, ◌<◌, ◌^◌};
ghost use Rattle.buddy_arena.specs.Powers.{up};

/// `up` is the least power of two that is at least a number above 0, and 0 for 0.
pub fn up_law()
    ensures none { up 0 ≡ 0 }
    ensures least { (n : ℕ) → 0 < n → (k : ℕ) × (up n ≡ 2 ^ k) × (n ≤ up n)
        × ((j : ℕ) → n ≤ 2 ^ j → up n ≤ 2 ^ j) }
{}
