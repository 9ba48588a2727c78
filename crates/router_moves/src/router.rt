//! A router's table against printed routes.

ghost use Rattle.std.specs.Prelude.{◌≡◌, [], ◌∷◌, IfOk};
ghost use Rattle.fib_io.specs.Reads.{Makes};
ghost use Rattle.fib_same.specs.Gives.{ReturnsDue, ReadsNamedTexts};
ghost use Rattle.fib_same.specs.Passes.{ReadsOfTexts, numbered_texts};
ghost use Rattle.router_moves.specs.Due.{router_at, moves_at, names_asked};
ghost use Rattle.router_moves.specs.Views.{EndsShortest, shortest_as};

use crate::answer::RouterMoves;
use crate::asked::read_asked;
use crate::family::family_moves;
use fib_addr::{Family, HopTable};
use fib_io::Inputs;
use fib_same::SameError;
use std::alloc::Global;

/// The shortest list of changes that makes a router forward as printed routes do: its table is that of the `least` rows in the text of
/// the one name, and the routes are the `route` rows in the other. An entry that drops answers as no entry does, yet a change may add,
/// replace or remove one. Each family's changes stand in the order of prefixes, or, if `steady`, in an order in which no packet goes
/// astray: while the router makes them one by one, each address keeps the answer that it had until it has that of the routes.
///
/// The router's text is read to its end and judged before the other is read. It costs n log n in the octets of both texts.
///
/// # Errors
///
/// A text that is too large, or has a line that is no row or whose hop is the 65,535th of both texts, or has a prefix twice in its rows
/// of that kind: the first text that has, and in this order; the router's is text 1, the other text 2. A failed read, or out of
/// memory.
pub fn moves_to_routes<I: Inputs>(
    alloc: Global,
    inputs: &mut I,
    router: &str,
    printed: &str,
    steady: bool,
) -> Result<RouterMoves, SameError>
    ensures due { ReturnsDue shortest_as result
        (moves_at (I.content inputs.old) router.now printed.now steady) }
    ensures shortest { IfOk result (EndsShortest steady
        (router_at (I.content inputs.old) router.now printed.now)) }
    ensures same { I.content inputs.new ≡ I.content inputs.old }
    ensures cause { ReadsNamedTexts (names_asked (I.content inputs.old) router.now printed.now)
        (I.faults inputs.old) (I.faults inputs.new) result }
    ensures reads { Makes (I.reads inputs.old) (I.reads inputs.new)
        (ReadsOfTexts (numbered_texts 1 (router.now ∷ printed.now ∷ [])) result) }
{
    let mut hops = HopTable::new(alloc);
    let asked = read_asked(alloc, inputs, router, printed, &mut hops)?;
    let v4 = family_moves(alloc, Family::V4, &asked, steady)?;
    let v6 = family_moves(alloc, Family::V6, &asked, steady)?;
    Ok(RouterMoves { v4, v6, hops })
}
