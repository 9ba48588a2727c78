//! Takes and gives in small arenas.

ghost use Rattle.std.specs.Prelude.{◌+◌, ◌^◌, ◌≤◌, ◌⊎◌};
ghost use Rattle.buddy_arena.specs.Space.{IsOut};

use buddy_arena::{Arena, Block, Full};
use std::alloc::{AllocError, Global};
use std::test::Fail;

/// A call on an arena, and what it is to come to.
#[derive(Clone, Copy)]
enum Call {
    /// Takes a block of this order: its place, or the order of the largest block that is free.
    Take(u8, Result<u32, Option<u8>>),
    Clear,
    /// How many places are free, and the order of the largest block of them.
    Free(u64, Option<u8>),
}

/// Calls on fresh arenas of these orders.
const CASES: [(&str, u8, &[Call]); 3] = [
    (
        "the lowest is taken",
        4,
        &[
            Call::Take(1, Ok(0)),
            Call::Take(2, Ok(4)),
            Call::Take(0, Ok(2)),
            Call::Take(1, Ok(8)),
            Call::Free(7, Some(2)),
            Call::Take(3, Err(Some(2))),
        ],
    ),
    (
        "above a word",
        8,
        &[
            Call::Free(256, Some(8)),
            Call::Take(6, Ok(0)),
            Call::Take(0, Ok(64)),
            Call::Take(7, Ok(128)),
            Call::Free(63, Some(5)),
            Call::Take(6, Err(Some(5))),
            Call::Take(5, Ok(96)),
            Call::Take(1, Ok(66)),
            Call::Take(0, Ok(65)),
            Call::Free(28, Some(4)),
            Call::Clear,
            Call::Free(256, Some(8)),
            Call::Take(8, Ok(0)),
            Call::Take(0, Err(None)),
        ],
    ),
    (
        "one place",
        0,
        &[
            Call::Take(0, Ok(0)),
            Call::Take(0, Err(None)),
            Call::Clear,
            Call::Free(1, Some(0)),
        ],
    ),
];

/// Makes the call, and returns whether it comes to what is due.
fn is_right(arena: &mut Arena<u16>, call: Call) -> bool {
    match call {
        Call::Take(order, due) => match arena.take(order) {
            Ok(block) => due == Ok(block.place),
            Err(full) => due == Err(full.largest),
        },
        Call::Clear => {
            arena.clear();
            true
        }
        Call::Free(places, largest) => {
            (u64::from(arena.free_total()), arena.largest()) == (places, largest)
        }
    }
}

/// The place of the first call that doesn't come to what is due, if there is one.
fn first_wrong(alloc: Global, order: u8, calls: &[Call]) -> Result<Option<usize>, AllocError> {
    let mut arena = Arena::new(alloc, order.min(26), 7u16)?;
    for (place, call) in calls.iter().enumerate() {
        if !is_right(&mut arena, *call) {
            return Ok(Some(place));
        }
    }
    Ok(None)
}

#[test]
fn blocks_are_taken(rt: HostRuntime) -> Result<(), Fail> {
    for (name, order, calls) in CASES {
        assert_eq!(rt; first_wrong(rt.alloc(), order, calls)?, None, "{name}");
    }
    Ok(())
}

fn place_of(taken: Result<Block, Full>) -> u32 {
    match taken {
        Ok(block) => block.place,
        Err(_) => 1_000_000_000,
    }
}

fn largest_of(taken: Result<Block, Full>) -> Option<u8> {
    match taken {
        Ok(_) => Some(99),
        Err(full) => full.largest,
    }
}

/// Gives three blocks back.
fn give_three(arena: &mut Arena<u16>, a: Block, b: Block, c: Block)
    requires outs { IsOut arena.old.order arena.old.free a.place a.order
        × IsOut arena.old.order arena.old.free b.place b.order
        × IsOut arena.old.order arena.old.free c.place c.order }
    requires apart { ((a.place + 2 ^ a.order ≤ b.place) ⊎ (b.place + 2 ^ b.order ≤ a.place))
        × ((a.place + 2 ^ a.order ≤ c.place) ⊎ (c.place + 2 ^ c.order ≤ a.place))
        × ((b.place + 2 ^ b.order ≤ c.place) ⊎ (c.place + 2 ^ c.order ≤ b.place)) }
{
    arena.give(c);
    arena.give(b);
    arena.give(a);
}

#[test]
fn order_three(rt: HostRuntime) -> Result<(), Fail> {
    let mut arena = Arena::new(rt.alloc(), 3, 0u16)?;
    if let Ok(first) = arena.take(2) {
        if let Ok(second) = arena.take(1) {
            let refused = largest_of(arena.take(2));
            if let Ok(third) = arena.take(1) {
                let none = largest_of(arena.take(0));
                assert_eq!(rt; first.place, 0);
                assert_eq!(rt; second.place, 4);
                assert_eq!(rt; refused, Some(1));
                assert_eq!(rt; third.place, 6);
                assert_eq!(rt; none, None);
                give_three(&mut arena, first, second, third);
            }
        }
    }
    assert_eq!(rt; arena.free_total(), 8);
    assert_eq!(rt; arena.largest(), Some(3));
    assert_eq!(rt; place_of(arena.take(3)), 0);
    Ok(())
}
