//! Printed changes of a router, checked.

ghost use Rattle.std.specs.Prelude.{◌≡◌, ◌≤◌, ◌∷◌, [], length, option_map, IfOk, IfSome, None};
ghost use Rattle.fib_addr.specs.Hops.{most_hops};
ghost use Rattle.fib_io.specs.Reads.{Makes};
ghost use Rattle.fib_same.specs.Gives.{ReturnsDue, IsOfText, ReadsNamedTexts};
ghost use Rattle.fib_same.specs.Passes.{ReadsOfTexts, numbered_texts};
ghost use Rattle.router_moves.specs.Said.{said_in};
ghost use Rattle.router_moves.specs.SaidViews.{said_moves_as};
ghost use Rattle.moves_model.specs.Claims.{IsProved, IsProvedIn, claim_verdict, wrong_claim};
ghost use Rattle.router_moves.specs.Checked.{claimed_at, lined_moves, names_claimed, said_moves_at, verdict_at};
ghost use Rattle.router_moves.specs.Judged.{EndsJudged, claim_as, verdict_as, wrong_moves_as};

use crate::asked::{Asked, read_asked};
use crate::own::{own_changes, own_entries, own_rows};
use crate::verdict::{MovesVerdict, WrongMoves};
use crate::{PrintedMoves, read_moves};
use fib_addr::{Family, HopTable};
use fib_io::Inputs;
use fib_same::{SameError, octets_of};
use moves_check::{MovesError, check_moves};
use printed_text::PrintedError;
use std::alloc::{AllocError, Global};

/// What is claimed: the changes make the table answer as the routes do, no fewer would, and the rows prove it.
#[derive(Drop)]
struct Claim {
    asked: Asked,
    said: PrintedMoves,
}

/// What is wrong with what is claimed of a family.
fn wrong_in(alloc: Global, family: Family, claim: &Claim) -> Result<Option<WrongMoves>, AllocError>
    ensures wrong { IfOk result (λ w. option_map wrong_moves_as w ≡ wrong_claim family (claim_as claim.now)) }
    ensures yes { IfOk result (λ w. w ≡ None → IsProvedIn family (claim_as claim.now)) }
    ensures no { IfOk result (λ w. IfSome w (λ x. IsProvedIn x.family (claim_as claim.now) → ⊥)) }
{
    let table = own_entries(alloc, family, &claim.asked.table)?;
    let routes = own_entries(alloc, family, &claim.asked.routes)?;
    let changes = own_changes(alloc, family, &claim.said.changes)?;
    let rows = own_rows(alloc, family, &claim.said.rows)?;
    match check_moves(alloc, family, &table, &routes, &changes, &rows) {
        Ok(()) => Ok(None),
        Err(error) => match error {
            MovesError::NoMoves(no) => Ok(Some(WrongMoves { family, no })),
            MovesError::NoMemory => Err(AllocError),
        },
    }
}

/// The first thing that is wrong, in IPv4 or else in IPv6.
fn first_wrong(alloc: Global, claim: &Claim) -> Result<Option<WrongMoves>, AllocError>
    ensures wrong { IfOk result (λ w. option_map wrong_moves_as w ≡ claim_verdict (claim_as claim.now)) }
    ensures yes { IfOk result (λ w. w ≡ None → IsProved (claim_as claim.now)) }
    ensures no { IfOk result (λ w. IfSome w (λ x. IsProvedIn x.family (claim_as claim.now) → ⊥)) }
{
    if let Some(wrong) = wrong_in(alloc, Family::V4, claim)? {
        return Ok(Some(wrong));
    }
    wrong_in(alloc, Family::V6, claim)
}

/// The changes and rows that a text with these octets says, which are let go once it is read. It is text 3.
fn said_of(alloc: Global, octets: Vec<u8>, hops: &mut HopTable) -> Result<PrintedMoves, SameError>
    requires { length hops.old.list ≤ most_hops }
    ensures due { ReturnsDue (λ s. said_moves_as s hops.new) result
        (lined_moves 3 (said_in hops.old.list octets.items)) }
    ensures of_text { IsOfText 3 result }
{
    match read_moves(alloc, &octets, hops) {
        Ok(said) => Ok(said),
        Err(PrintedError::BadRow(bad)) => Err(SameError::BadLine {
            text: 3,
            line: bad.line,
            why: bad.why,
        }),
        Err(PrintedError::NoMemory) => Err(SameError::NoMemory),
    }
}

/// The changes and rows that the text of this name says, which is text 3. It is read to its end and then judged.
#[tactic(auto, unfolding(crate::specs::Checked::said_moves_at))]
fn read_said<I: Inputs>(
    alloc: Global,
    inputs: &mut I,
    name: &str,
    hops: &mut HopTable,
) -> Result<PrintedMoves, SameError>
    requires { length hops.old.list ≤ most_hops }
    ensures due { ReturnsDue (λ s. said_moves_as s hops.new) result
        (said_moves_at (I.content inputs.old) hops.old.list 3 name.now) }
    ensures same { I.content inputs.new ≡ I.content inputs.old }
    ensures cause { ReadsNamedTexts (name.now ∷ []) (I.faults inputs.old) (I.faults inputs.new) result }
    ensures reads { Makes (I.reads inputs.old) (I.reads inputs.new)
        (ReadsOfTexts ((3, name.now) ∷ []) result) }
{
    let octets = octets_of(alloc, inputs, name, 3)?;
    said_of(alloc, octets, hops)
}

/// Checks printed changes of a router, whoever wrote them: that they make the router's table forward as printed routes do, that no fewer
/// would, and that the rows beside them prove it. The table is that of the `least` rows in the text of the first name, the routes are the
/// `route` rows in the second, and the changes and rows the `change` and `cert` rows in the third, each in their order there.
///
/// Each text is read to its end and judged before the next is read. It costs n log n in the octets of all texts.
///
/// # Errors
///
/// A text that is too large, or has a line that is no row or whose hop is the 65,535th of all texts, or, but for the last text, has a prefix
/// twice in its rows of that kind: the first text that has, and in this order; they are texts 1, 2 and 3. A failed read, or out
/// of memory.
pub fn check_router_moves<I: Inputs>(
    alloc: Global,
    inputs: &mut I,
    router: &str,
    printed: &str,
    moves: &str,
) -> Result<MovesVerdict, SameError>
    ensures due { ReturnsDue verdict_as result
        (verdict_at (I.content inputs.old) router.now printed.now moves.now) }
    ensures judged { IfOk result (EndsJudged
        (claimed_at (I.content inputs.old) router.now printed.now moves.now)) }
    ensures same { I.content inputs.new ≡ I.content inputs.old }
    ensures cause { ReadsNamedTexts (names_claimed (I.content inputs.old) router.now printed.now moves.now)
        (I.faults inputs.old) (I.faults inputs.new) result }
    ensures reads { Makes (I.reads inputs.old) (I.reads inputs.new)
        (ReadsOfTexts (numbered_texts 1 (router.now ∷ printed.now ∷ moves.now ∷ [])) result) }
{
    let mut hops = HopTable::new(alloc);
    let asked = read_asked(alloc, inputs, router, printed, &mut hops)?;
    let said = read_said(alloc, inputs, moves, &mut hops)?;
    let claim = Claim { asked, said };
    let wrong = first_wrong(alloc, &claim)?;
    Ok(MovesVerdict { wrong, hops })
}
