//! Blocks that are given back.

ghost use Rattle.std.specs.Prelude.{◌≡◌, ◌≤◌, length, take, drop};
ghost use Rattle.buddy_arena.specs.Space.{IsSized};
ghost use Rattle.buddy_arena.specs.Places.{is_out};
ghost use Rattle.buddy_arena.specs.Arrays.{AreApart};
ghost use Rattle.buddy_arena.specs.Blocks.{GivesBack, arrays_of, blocks_of, retired_of, EndsAscend, IsCut};

use crate::blocks::Aside;
use crate::{Arena, Block};
use std::collections::VecDeque;

/// Gives blocks back that are out and share no place.
pub(crate) fn give_all<T: Copy>(arena: &mut Arena<T>, blocks: &[Block])
    requires sized { IsSized arena.old }
    requires out { AreApart (is_out arena.old.free) (arrays_of blocks.now) }
    ensures gives { GivesBack (arrays_of blocks.now) arena.old arena.new }
    ensures sized { IsSized arena.new }
{
    for i in 0..blocks.len() {
        arena.give(blocks[i]);
    }
}

/// Gives those of the first blocks back that were retired at an end no later than this time, and returns how many they are: they
/// go from the head of the queue.
pub(crate) fn release<T: Copy>(
    arena: &mut Arena<T>,
    aside: &mut VecDeque<Aside>,
    retired: usize,
    since: u64,
) -> usize
    requires sized { IsSized arena.old }
    requires many { retired ≤ length aside.old.items }
    requires out { AreApart (is_out arena.old.free)
        (blocks_of (retired_of (take retired aside.old.items))) }
    requires in_order { EndsAscend (take retired aside.old.items) }
    ensures few { result ≤ retired }
    ensures cut { IsCut (take retired aside.old.items) since result }
    ensures rest { aside.new.items ≡ drop result aside.old.items }
    ensures gives { GivesBack (blocks_of (retired_of (take result (take retired aside.old.items))))
        arena.old arena.new }
    ensures sized { IsSized arena.new }
{
    for given in 0..retired {
        let oldest = aside[0];
        if oldest.end > since {
            return given;
        }
        arena.give(oldest.block);
        aside.pop_front();
    }
    retired
}
