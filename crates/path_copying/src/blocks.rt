//! Blocks that are taken for a new array, and those of an old one that are put aside.

ghost use Rattle.std.specs.Prelude.{◌≡◌, ℕ, ◌+◌, ◌*◌, ◌<◌, IfOk, IfErr, OnOk, OnErr, length};
ghost use Rattle.buddy_arena.specs.Space.{IsSized};
ghost use Rattle.buddy_arena.specs.Powers.{up};
ghost use Rattle.buddy_arena.specs.Places.{TakesPlaces, is_out, count_free};
ghost use Rattle.buddy_arena.specs.Refusals.{IsRefusal};
ghost use Rattle.path_copying.specs.Changes.{Gains};
ghost use Rattle.path_copying.specs.Aside.{with_aside};
ghost use Rattle.path_copying.specs.Asks.{MeetsCount};
ghost use Rattle.path_copying.specs.declared.blocks.Refusal.TheVariants as refusal;

use buddy_arena::{Arena, Block, Blocks, Full, Refused, order_for};
use std::alloc::AllocError;

/// Why a part of a trie isn't made anew.
#[derive(Clone, Copy, Debug, PartialEq, Eq)]
pub enum Refusal {
    /// Out of memory for the lists of blocks.
    Memory,
    /// No free block of the nodes' arena is large enough.
    Nodes(Full),
    /// No free block of the leaves' arena is large enough.
    Leaves(Full),
}

impl Refusal {
    ghost use Rattle.std.specs.Prelude.{◌≡◌};
    ghost use Rattle.path_copying.specs.Asks.{nodes_refusal, leaves_refusal};

    /// A refusal of the nodes' arena.
    pub(crate) fn of_nodes(refused: Refused) -> Refusal
        ensures { result ≡ nodes_refusal refused }
    {
        match refused {
            Refused::Memory => Refusal::Memory,
            Refused::Full(full) => Refusal::Nodes(full),
        }
    }

    /// A refusal of the leaves' arena.
    pub(crate) fn of_leaves(refused: Refused) -> Refusal
        ensures { result ≡ leaves_refusal refused }
    {
        match refused {
            Refused::Memory => Refusal::Memory,
            Refused::Full(full) => Refusal::Leaves(full),
        }
    }
}

impl From<AllocError> for Refusal {
    ghost from_gives = { λ _ e. e ≡ refusal.Memory };

    fn from(_error: AllocError) -> Refusal {
        Refusal::Memory
    }
}

/// Takes a block for `count` places, none for none.
///
/// # Errors
///
/// Out of memory, or no free block is large enough. Nothing has changed.
pub(crate) fn take_block<T: Copy>(
    arena: &mut Arena<T>,
    blocks: &mut Blocks,
    count: u32,
) -> Result<u32, Refused>
    requires { IsSized arena.old }
    ensures gains { (empty : T) → Gains empty arena.old blocks.old arena.new blocks.new }
    ensures replaced { blocks.new.replaced ≡ blocks.old.replaced }
    ensures takes { IfOk result (λ base. TakesPlaces base (up count) (is_out arena.old.free)
        (is_out arena.new.free) (length arena.new.cells)) }
    ensures aligned { IfOk result (λ base. (q : ℕ) × (base ≡ q * up count)) }
    ensures left { IfOk result (λ base. count_free arena.new + up count ≡ count_free arena.old) }
    ensures cells { arena.new.cells ≡ arena.old.cells }
    ensures met { IfOk result (λ base. MeetsCount count arena.old.order arena.old.free
        arena.new.free) }
    ensures err { OnErr result (arena.new ≡ arena.old) }
    ensures full { IfErr result (λ e. (0 < count) × IsRefusal e count arena.old) }
{
    if count == 0 {
        return Ok(0);
    }
    let block = blocks.take(arena, count)?;
    Ok(block.place)
}

/// Puts the block of `count` places aside, none for none.
///
/// # Errors
///
/// Out of memory. Nothing has changed.
pub(crate) fn set_aside_block(blocks: &mut Blocks, base: u32, count: u32) -> Result<(), AllocError>
    requires { blocks.old.time < 18446744073709551615 }
    ensures ok { OnOk result (blocks.new ≡ with_aside blocks.old base count) }
    ensures err { OnErr result (blocks.new ≡ blocks.old) }
{
    if count == 0 {
        return Ok(());
    }
    blocks.set_aside(Block {
        place: base,
        order: order_for(count),
    })
}
