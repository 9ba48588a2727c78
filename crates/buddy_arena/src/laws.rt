//! What the definitions say: each function does nothing, and its clauses hold for all values.

ghost use Rattle.std.specs.Prelude.{ℕ, List, Bool};
ghost use Rattle.buddy_arena.specs.Space.{AreBlocks};

/// The free blocks of an arena are aligned, within it and apart from each other, and no block and its buddy are both free.
#[tactic(auto, using(crate::proofs::Tiling::are_blocks))]
pub fn blocks_law()
    ensures { (order : ℕ) (free : List Bool) → AreBlocks order free }
{}
