//! Texts that are compared with the first.

ghost use Rattle.std.specs.Prelude.{◌≡◌, ◌≤◌, ◌<◌, ◌+◌, ◌^◌, ◌∷◌, length, map, option_map, IfErr, IfOk};
ghost use Rattle.fib_same.specs.Texts.{lesser};
ghost use Rattle.fib_addr.specs.Hops.{most_hops};
ghost use Rattle.fib_io.specs.Reads.{Makes};
ghost use Rattle.cert_check.specs.Runs.{AreOfBoth};
ghost use Rattle.fib_same.specs.Due.{answer_at, same_at, texts_at};
ghost use Rattle.fib_same.specs.Gives.{RefusesDue, ReturnsDue, ReadsNamedTexts, names_at, names_due};
ghost use Rattle.fib_same.specs.Passes.{ReadsOfTexts, numbered_texts};
ghost use Rattle.fib_same.specs.Views.{ComesFrom, EndsCompared, IsOneOf, IsSmall, difference_as, text_difference_as, found_at, found_of};

use crate::error::SameError;
use crate::text::read_text;
use cert_check::{Differ, TableRuns};
use fib_addr::{Addr, HopTable};
use fib_io::Inputs;
use printed_text::Kind;
use std::alloc::Global;
use std::cmp::Ordering;

/// A text that differs from the first one.
#[derive(Clone, Copy, Debug, PartialEq, Eq)]
pub struct Difference {
    /// The text's number; the first text is text 1.
    pub text: u64,
    /// The least address at which any text differs from the first; IPv4 comes before IPv6.
    pub addr: Addr,
    /// The hop that the address gets from the first text, if any.
    pub first: Option<Addr>,
    /// The hop that it gets from this text, if any.
    pub other: Option<Addr>,
}

/// A text that differs from the first one, and where.
#[derive(Clone, Copy)]
pub struct Found {
    /// Its number among the others, from 0.
    place: u64,
    /// The least address at which it differs.
    differ: Differ,
}

/// Of two, the one at the lesser address; the first if that is the same.
fn lesser(best: Option<Found>, next: Option<Found>) -> Option<Found>
    ensures least { option_map text_difference_as result
        ≡ lesser (option_map text_difference_as best) (option_map text_difference_as next) }
    ensures one { IsOneOf result best next }
{
    match (best, next) {
        (None, _) => next,
        (Some(_), None) => best,
        (Some(x), Some(y)) => match y.differ.addr.cmp(&x.differ.addr) {
            Ordering::Less => next,
            Ordering::Equal | Ordering::Greater => best,
        },
    }
}

/// Where the text of this number among the others differs, if it does.
fn found_at(place: u64, differ: Option<Differ>) -> Option<Found>
    requires { place + 2 < 2 ^ 64 }
    ensures found { result ≡ found_at place differ }
    ensures small { IsSmall result }
{
    match differ {
        Some(differ) => Some(Found { place, differ }),
        None => None,
    }
}

/// The texts of these names against the first, whose runs these are: the least address at which one differs from it.
fn compare_others<I: Inputs>(
    alloc: Global,
    inputs: &mut I,
    names: &[&str],
    kind: Kind,
    hops: &mut HopTable,
    runs: &TableRuns,
) -> Result<Option<Found>, SameError>
    requires few { length hops.old.list ≤ most_hops }
    requires runs { AreOfBoth runs.now }
    ensures found { IfOk result (ComesFrom (I.content inputs.old) kind hops.old hops.new
        (map (λ name. name.now) names.now) runs.now) }
    ensures small { IfOk result IsSmall }
    ensures refused { IfErr result (λ e. RefusesDue e (texts_at (I.content inputs.old) kind
        hops.old.list 2 (map (λ name. name.now) names.now))) }
    ensures same { I.content inputs.new ≡ I.content inputs.old }
    ensures cause { ReadsNamedTexts (names_due (I.content inputs.old) kind hops.old.list 2
        (map (λ name. name.now) names.now)) (I.faults inputs.old) (I.faults inputs.new) result }
    ensures reads { Makes (I.reads inputs.old) (I.reads inputs.new)
        (ReadsOfTexts (numbered_texts 2 (map (λ name. name.now) names.now)) result) }
{
    let mut best = None;
    let mut place = 0;
    for name in names {
        let entries = read_text(alloc, inputs, name, place + 2, kind, hops)?;
        let differ = runs.first_differ(alloc, &entries)?;
        best = lesser(best, found_at(place, differ));
        place += 1;
    }
    Ok(best)
}

/// The difference that was found, with the addresses of its hops.
fn difference_of(found: &Found, hops: &HopTable) -> Difference
    requires { found.now.place + 2 < 2 ^ 64 }
    ensures { difference_as result ≡ found_of hops.now.list found.now }
{
    Difference {
        text: found.place + 2,
        addr: found.differ.addr,
        first: hops.addr(found.differ.first),
        other: hops.addr(found.differ.second),
    }
}

/// Whether the rows of this kind in the texts of these names are the same tables: `None` exactly if each text sends every address where
/// the first one does, in both families, so that every two texts do. Else the least address at which a text differs from the first, and
/// the least text that differs there. An entry that drops answers as no entry does.
///
/// The texts are read in their order, each to its end, and each is judged before the next is read. It costs n log n in the octets of all
/// texts.
///
/// # Errors
///
/// A text that is too large, or has a line that is no row or whose hop is the 65,535th of all texts, or has a prefix twice in its rows of
/// this kind: the first text that has, and in this order. A failed read, or out of memory.
pub fn compare_texts<I: Inputs>(
    alloc: Global,
    inputs: &mut I,
    first: &str,
    rest: &[&str],
    kind: Kind,
) -> Result<Option<Difference>, SameError>
    ensures due { ReturnsDue (option_map difference_as) result (answer_at (I.content inputs.old) kind
        first.now (map (λ name. name.now) rest.now)) }
    ensures answers { IfOk result (EndsCompared (same_at (I.content inputs.old) kind first.now
        (map (λ name. name.now) rest.now))) }
    ensures same { I.content inputs.new ≡ I.content inputs.old }
    ensures cause { ReadsNamedTexts (names_at (I.content inputs.old) kind first.now
        (map (λ name. name.now) rest.now)) (I.faults inputs.old) (I.faults inputs.new) result }
    ensures reads { Makes (I.reads inputs.old) (I.reads inputs.new)
        (ReadsOfTexts (numbered_texts 1 (first.now ∷ map (λ name. name.now) rest.now)) result) }
{
    let mut hops = HopTable::new(alloc);
    let entries = read_text(alloc, inputs, first, 1, kind, &mut hops)?;
    let runs = TableRuns::new(alloc, &entries)?;
    drop(entries);
    let found = compare_others(alloc, inputs, rest, kind, &mut hops, &runs)?;
    match found {
        Some(found) => Ok(Some(difference_of(&found, &hops))),
        None => Ok(None),
    }
}
