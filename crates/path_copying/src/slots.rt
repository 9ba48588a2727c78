//! The direct words of a region's slots, made anew beside the old ones.

ghost use Rattle.std.specs.Prelude.{◌≡◌, ℕ, ◌+◌, ◌-◌, ◌^◌, ◌<◌, ◌≤◌, OnOk, IfErr, drop, length, slice_index};
ghost use Rattle.table_model.specs.Bits.{bits_of};
ghost use Rattle.buddy_arena.specs.Space.{IsSized};
ghost use Rattle.fib_addr.specs.Answers.{part};
ghost use Rattle.poptrie_build.specs.Stands.{blank};
ghost use Rattle.path_copying.specs.Changes.{Gains};
ghost use Rattle.path_copying.specs.Ways.{bits_left, IsOldWord};
ghost use Rattle.path_copying.specs.Stores.{stored, AreStores, KeepsSlots, ReplacesWords};
ghost use Rattle.path_copying.specs.Asks.{MeetsSlots, MeetsNotSlots};

use crate::arenas::Arenas;
use crate::blocks::Refusal;
use crate::way::Way;
use crate::words::copy_word;
use fib_addr::Region;

/// A direct word to be stored.
#[derive(Clone, Copy, Debug, PartialEq, Eq)]
pub struct Store {
    /// Its slot.
    pub slot: u32,
    /// The word.
    pub word: u32,
}

/// Makes the direct words of a region's slots anew beside the old ones, of `depth` more bits from the first slot on, and lists
/// those that differ.
///
/// # Errors
///
/// Out of memory, or a block is refused. What was taken is listed, and what was to be replaced too.
pub fn copy_slots<R: Region>(
    region: &R,
    way: &Way,
    depth: u8,
    first: u32,
    words: &[u32],
    arenas: &mut Arenas,
    stores: &mut Vec<Store>,
) -> Result<(), Refusal>
    requires way { way.now.bits ≡ R.bits region.now }
    requires depth { depth ≤ way.now.bits }
    requires shallow { depth ≤ 18 }
    requires few { length words.now ≤ 2 ^ 18 }
    requires many { first + 2 ^ depth ≤ length words.now }
    requires nodes_sized { IsSized arenas.old.nodes }
    requires leaves_sized { IsSized arenas.old.leaves }
    requires nodes_time { arenas.old.node_blocks.time < 18446744073709551615 }
    requires leaves_time { arenas.old.leaf_blocks.time < 18446744073709551615 }
    requires words { (v : ℕ) → v < 2 ^ depth → IsOldWord arenas.old.nodes arenas.old.leaves
        (slice_index words.now (first + v)) (drop depth (bits_left way.now)) (R.bits region.now
        - depth) (part (bits_of depth v) (R.answers region.now)) }
    requires stores { AreStores words.now stores.old.items first }
    ensures nodes { Gains blank arenas.old.nodes arenas.old.node_blocks arenas.new.nodes
        arenas.new.node_blocks }
    ensures leaves { Gains 0 arenas.old.leaves arenas.old.leaf_blocks arenas.new.leaves
        arenas.new.leaf_blocks }
    ensures stores { OnOk result (AreStores words.now stores.new.items (first + 2 ^ depth)) }
    ensures replaces { OnOk result (ReplacesWords arenas.old.nodes arenas.old.node_blocks
        arenas.old.leaves arenas.old.leaf_blocks (stored stores.old.items words.now)
        arenas.new.nodes arenas.new.node_blocks arenas.new.leaves arenas.new.leaf_blocks (stored
        stores.new.items words.now) first depth (R.bits region.now - depth) (R.answers region.now)) }
    ensures kept { OnOk result (KeepsSlots arenas.old.nodes arenas.old.leaves words.now
        stores.old.items stores.new.items first depth (R.bits region.now - depth) (R.answers
        region.now)) }
    ensures met { OnOk result (MeetsSlots arenas.old.nodes arenas.old.leaves words.now
        arenas.new.nodes arenas.new.leaves first depth (R.bits region.now - depth) (R.answers
        region.now)) }
    ensures refused { IfErr result (λ e. MeetsNotSlots arenas.old.nodes arenas.old.leaves words.now
        first depth (R.bits region.now - depth) (R.answers region.now) e) }
{
    if depth == 0 {
        let word = words[first as usize];
        let new = copy_word(region, way, word, arenas)?;
        if new != word {
            stores.reserve(1)?;
            stores.push_reserved(Store {
                slot: first,
                word: new,
            });
        }
        return Ok(());
    }
    let below = depth - 1;
    copy_slots(
        &region.half(false),
        &way.below(1),
        below,
        first,
        words,
        arenas,
        stores,
    )?;
    copy_slots(
        &region.half(true),
        &way.below(1),
        below,
        first + (1 << below),
        words,
        arenas,
        stores,
    )
}
