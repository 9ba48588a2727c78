//! Two parts of a run, each by itself, to be measured: reading, and lookups.
//!
//! `part_count FILE` reads a file of records, and prints how many records it has, how many are skipped, how many events they say, and
//! how many messages are treated as withdrawals. Nothing is chosen among the events, so a lost session is one event.
//!
//! `part_count FILE FAMILY COUNT APART CHAINED DIRECT [router]` loads a dump, and builds the tries of its routes with DIRECT direct
//! bits. It draws COUNT addresses within its routes of IPv4 (4) or IPv6 (6), and looks each of them up APART times by itself and
//! CHAINED times changed by the answer before it; with the word `router` in the live tries of a router. It prints how many places the
//! tries need, and of each way how many nodes the lookups visited and the sum of the numbers of their hops. What a round takes is the
//! difference of two runs.
#![tactic(auto)]

ghost use Rattle.std.specs.Prelude.{◌≡◌, true};

mod count;
mod draw;
mod key;
mod load;
mod look;

use count::{Counts, count};
use draw::draw_keys;
use fib_engine::{Engine, FamilyNeeds, Sizes};
use fib_io::{FileInputs, Inputs};
use fib_prefix::Family;
use key::Key;
use load::load;
use look::{Looked, Rounds, look_up, look_up_routed};
use std::alloc::Global;
use std::env::{self, Args};
use std::iter::Skip;

/// Which lookups are measured.
#[derive(Drop)]
struct Words {
    family: Family,
    count: usize,
    rounds: Rounds,
    sizes: Sizes,
    by_router: bool,
}

/// What is reported of them.
#[derive(Clone, Copy)]
struct Figures {
    needs: FamilyNeeds,
    looked: Looked,
}

/// The words of the command line that follow the program's name.
type Rest = Skip<Args>;

/// The next word.
fn word(words: &mut Rest) -> anyhow::Result<String> {
    match words.next() {
        Some(word) => Ok(word),
        None => anyhow::bail!("usage: part_count FILE [4|6 COUNT APART CHAINED DIRECT [router]]"),
    }
}

/// A word as a family: 4, or else IPv6.
fn family_of(word: &String) -> Family {
    if word.as_str() == "4" {
        Family::V4
    } else {
        Family::V6
    }
}

/// The next word as a number.
fn number(words: &mut Rest) -> anyhow::Result<u64> {
    let word = word(words)?;
    Ok(word.parse()?)
}

/// The next two words as the rounds.
fn rounds(words: &mut Rest) -> anyhow::Result<Rounds> {
    let apart = number(words)?;
    let chained = number(words)?;
    Ok(Rounds { apart, chained })
}

/// Room for a whole table of today, after as many direct bits as the next word says, 18 at most.
fn sizes(words: &mut Rest) -> anyhow::Result<Sizes> {
    let direct = number(words)?;
    if direct > 18 {
        anyhow::bail!("more than 18 direct bits");
    }
    Ok(Sizes {
        direct: direct as u8,
        nodes: 22,
        leaves: 24,
    })
}

/// What the words from the family on say.
fn read_words(family: &String, words: &mut Rest) -> anyhow::Result<Words> {
    let count = number(words)?;
    let rounds = rounds(words)?;
    let sizes = sizes(words)?;
    let by_router = words.next().is_some();
    Ok(Words {
        family: family_of(family),
        count: count as usize,
        rounds,
        sizes,
        by_router,
    })
}

/// Addresses that are drawn within an engine's routes.
fn drawn<K: Key>(alloc: Global, engine: &Engine, words: &Words) -> anyhow::Result<Vec<K>> {
    let routes = engine.routes()?;
    draw_keys::<K>(alloc, &routes, words.family, words.count)
}

/// Draws addresses within an engine's routes and looks them up in tries of these.
fn measure_tries<K: Key>(alloc: Global, engine: &Engine, words: &Words) -> anyhow::Result<Looked> {
    let keys = drawn::<K>(alloc, engine, words)?;
    let tries = engine.tries()?;
    Ok(look_up(&tries, &keys, &words.rounds))
}

/// Draws addresses within an engine's routes and looks them up in the live tries of a router.
fn measure_router<K: Key>(alloc: Global, engine: Engine, words: &Words) -> anyhow::Result<Looked>
    requires { engine.loaded ≡ true }
{
    let keys = drawn::<K>(alloc, &engine, words)?;
    Ok(look_up_routed(alloc, engine, &keys, &words.rounds)?)
}

/// Looks addresses up as the words say.
fn measure_drawn<K: Key>(alloc: Global, engine: Engine, words: &Words) -> anyhow::Result<Looked>
    requires { engine.loaded ≡ true }
{
    if words.by_router {
        return measure_router::<K>(alloc, engine, words);
    }
    let looked = measure_tries::<K>(alloc, &engine, words);
    drop(engine);
    looked
}

/// Loads the dump and looks addresses up.
fn measure<I: Inputs>(
    alloc: Global,
    inputs: &mut I,
    file: &str,
    words: &Words,
) -> anyhow::Result<Figures> {
    let engine = load(alloc, inputs, file, words.sizes)?;
    let needs = engine.needs();
    let looked = match words.family {
        Family::V4 => measure_drawn::<u32>(alloc, engine, words)?,
        Family::V6 => measure_drawn::<u128>(alloc, engine, words)?,
    };
    Ok(Figures { needs, looked })
}

/// Prints what was counted of an input.
fn print_counts(rt: &HostRuntime, counts: Counts) -> anyhow::Result<()> {
    println!(rt; "records,{}", counts.records)?;
    println!(rt; "skipped,{}", counts.skipped)?;
    println!(rt; "events,{}", counts.events)?;
    println!(rt; "treated,{}", counts.treated)?;
    Ok(())
}

/// Prints what lookups came to.
fn print_figures(rt: &HostRuntime, figures: Figures) -> anyhow::Result<()> {
    let Figures { needs, looked } = figures;
    println!(rt; "nodes,{},{}", needs.v4.nodes, needs.v6.nodes)?;
    println!(rt; "leaves,{},{}", needs.v4.leaves, needs.v6.leaves)?;
    println!(rt; "apart,{},{}", looked.apart.visits, looked.apart.hops)?;
    println!(rt; "chained,{},{}", looked.chained.visits, looked.chained.hops)?;
    Ok(())
}

fn main(rt: HostRuntime) -> anyhow::Result<()> {
    let alloc = rt.alloc();
    let mut words = env::args(&rt)?.skip(1);
    let file = word(&mut words)?;
    let mut inputs = FileInputs::new(alloc, &rt);
    let Some(family) = words.next() else {
        let counts = count(alloc, &mut inputs, &file)?;
        return print_counts(&rt, counts);
    };
    let words = read_words(&family, &mut words)?;
    let figures = measure(alloc, &mut inputs, &file, &words)?;
    print_figures(&rt, figures)
}
