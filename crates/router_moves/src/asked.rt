//! A router's table and the routes that it is to forward as, read out of two texts.

ghost use Rattle.std.specs.Prelude.{◌≡◌, ◌≤◌, ◌∷◌, [], length, OnOk};
ghost use Rattle.fib_addr.specs.Hops.{most_hops};
ghost use Rattle.fib_io.specs.Reads.{Makes};
ghost use Rattle.fib_same.specs.Gives.{ReturnsDue, ReadsNamedTexts};
ghost use Rattle.fib_same.specs.Passes.{ReadsOfTexts, numbered_texts};
ghost use Rattle.router_moves.specs.Due.{router_at, names_asked};
ghost use Rattle.router_moves.specs.Asking.{tables_as};

use fib_addr::{Entry, HopTable};
use fib_io::Inputs;
use fib_same::{SameError, read_text};
use printed_text::Kind;
use std::alloc::Global;

/// What two texts say.
#[derive(Drop)]
pub(crate) struct Asked {
    /// The router's table.
    pub(crate) table: Vec<Entry>,
    /// The routes that it is to forward as.
    pub(crate) routes: Vec<Entry>,
}

/// The table of the `least` rows in the router's text, which is text 1, and the routes of the `route` rows in the printed one, which is
/// text 2. The router's is read to its end and judged before the other is read, and its hops have their numbers first.
///
/// # Errors
///
/// The first text that is refused (`read_text`).
pub(crate) fn read_asked<I: Inputs>(
    alloc: Global,
    inputs: &mut I,
    router: &str,
    printed: &str,
    hops: &mut HopTable,
) -> Result<Asked, SameError>
    requires { hops.old.list ≡ [] }
    ensures due { ReturnsDue (λ a. tables_as a hops.new) result
        (router_at (I.content inputs.old) router.now printed.now) }
    ensures few { OnOk result (length hops.new.list ≤ most_hops) }
    ensures same { I.content inputs.new ≡ I.content inputs.old }
    ensures cause { ReadsNamedTexts (names_asked (I.content inputs.old) router.now printed.now)
        (I.faults inputs.old) (I.faults inputs.new) result }
    ensures reads { Makes (I.reads inputs.old) (I.reads inputs.new)
        (ReadsOfTexts (numbered_texts 1 (router.now ∷ printed.now ∷ [])) result) }
{
    let table = read_text(alloc, inputs, router, 1, Kind::Least, hops)?;
    let routes = read_text(alloc, inputs, printed, 2, Kind::Route, hops)?;
    Ok(Asked { table, routes })
}
