//! The rows, read with a stack: a leaf is put on it, a join takes its halves from it and puts itself there, the bound takes
//! the family's whole region.

ghost use Rattle.std.specs.Prelude.{◌≡◌, ◌+◌, ◌&&◌, ◌∷◌, [], map, option_map, None, Some, true, false, IfOk, OnOk};
ghost use Rattle.table_model.specs.Address.{same_family, same_prefix};
ghost use Rattle.table_model.specs.Halves.{half_at};
ghost use Rattle.table_model.specs.Entries.{Entries};
ghost use Rattle.cert_model.specs.Rows.{leaf_row, join_row, bound_row, whole_prefix};
ghost use Rattle.cert_model.specs.Verdict.{all_get};
ghost use Rattle.fib_addr.specs.Views.{prefix_as, entry_as};
ghost use Rattle.cert_model.specs.Views.{row_as};
ghost use Rattle.moves_model.specs.Sets.{these};
ghost use Rattle.moves_model.specs.Demands.{demand_over, join_demand, change_bound, none_below};
ghost use Rattle.moves_model.specs.Verdict.{wrong_moves_row};
ghost use Rattle.moves_check.specs.Views.{no_moves_as, AreRowsOf, IsFamilyRow};
ghost use Rattle.moves_check.specs.Stack.{demand_as, demands_as, SameDemand, IsAsked, MovesRowRead, TakenOff, IsNumberOf, EndsWithBound};
ghost use Rattle.fib_moves.specs.Views.{allowed_as};
ghost use Rattle.fib_delta.specs.Views.{InPlace};

use crate::old::{hop_at, is_bare};
use crate::refusal::NoMoves;
use cert_check::{Run, holds};
use cert_model::Row;
use fib_addr::{Entry, Family, Hop, HopSet, Prefix};
use fib_moves::{AllowedHops, one_more_if, sum};
use std::alloc::{AllocError, Global};

/// A region on the stack, with the hops that it may inherit and how many changes it needs then.
#[derive(Drop)]
pub(crate) struct Demand {
    prefix: Prefix,
    hops: AllowedHops,
    k: u64,
}

/// The two regions that a join row puts together.
#[derive(Drop)]
struct Halves {
    low: Demand,
    high: Demand,
}

/// What the rows are read against.
#[derive(Drop)]
pub(crate) struct Against<'a> {
    pub(crate) family: Family,
    /// The old entries, in the order of prefixes.
    pub(crate) old: &'a [Entry],
    /// What addresses get from the routes.
    pub(crate) runs: &'a [Run],
}

/// How far the rows are read.
#[derive(Drop)]
pub(crate) struct Reading {
    pub(crate) stack: Vec<Demand>,
    /// The last leaf's place among the runs.
    pub(crate) place: usize,
    pub(crate) bound: Option<u64>,
}

/// What a region demands, from the hops that its own entry should have, or that it should inherit if it has none, and from the
/// number of changes strictly within it.
fn weigh(
    against: &Against<'_>,
    prefix: &Prefix,
    hops: AllowedHops,
    k: u64,
) -> Result<Demand, AllocError>
    requires { InPlace (map entry_as against.now.old.now) }
    ensures { IfOk result (λ i. demand_as i ≡ demand_over (map entry_as against.now.old.now)
        (prefix_as prefix.now) (allowed_as hops) k) }
{
    match hop_at(against.old, prefix) {
        None => Ok(Demand {
            prefix: *prefix,
            hops,
            k,
        }),
        Some(hop) => {
            let k = one_more_if(!hops.contains(hop), k)?;
            Ok(Demand {
                prefix: *prefix,
                hops: AllowedHops::Any,
                k,
            })
        }
    }
}

/// Puts a region on the stack.
fn push_demand(item: Demand, stack: &mut Vec<Demand>) -> Result<(), AllocError>
    ensures { OnOk result (demands_as stack.new.items ≡ demand_as item ∷ demands_as stack.old.items) }
{
    stack.push(item)?;
    Ok(())
}

/// Takes the top from the stack, if it isn't empty.
fn pop_demand(stack: &mut Vec<Demand>) -> Option<Demand>
    ensures { TakenOff (demands_as stack.old.items) (demands_as stack.new.items)
        (option_map demand_as result) }
{
    stack.pop()
}

/// Whether all addresses of the prefix get the hop, and no old entry stands strictly within it.
fn is_leaf(against: &Against<'_>, prefix: &Prefix, hop: Hop, place: &mut usize) -> bool
    requires old { InPlace (map entry_as against.now.old.now) }
    requires family { prefix.now.family ≡ against.now.family }
    ensures { (R T : Entries) → IsAsked against.now R T
        → result ≡ (all_get R (prefix_as prefix.now) hop.0 && none_below T (prefix_as prefix.now)) }
{
    if holds(against.runs, prefix, hop.0, place) {
        is_bare(against.old, prefix)
    } else {
        false
    }
}

/// Reads a leaf: what is wrong with it, if anything is.
fn read_leaf(
    against: &Against<'_>,
    prefix: &Prefix,
    hop: Hop,
    row: u64,
    stack: &mut Vec<Demand>,
    place: &mut usize,
) -> Result<Option<NoMoves>, AllocError>
    requires old { InPlace (map entry_as against.now.old.now) }
    requires family { prefix.now.family ≡ against.now.family }
    ensures { IfOk result (λ no. (R T : Entries) → IsAsked against.now R T → MovesRowRead R T
        against.now.family (leaf_row (prefix_as prefix.now) hop.0) row None
        (demands_as stack.old.items) None (demands_as stack.new.items) (option_map no_moves_as no)) }
{
    if !is_leaf(against, prefix, hop, place) {
        return Ok(Some(NoMoves::LeafWrong { row }));
    }
    let item = weigh(against, prefix, AllowedHops::These(HopSet::one(hop.0)), 0)?;
    push_demand(item, stack)?;
    Ok(None)
}

/// Whether two prefixes are one.
#[tactic(auto, using(cert_check::proofs::Later::prefix_same))]
pub(crate) fn is_same(p: &Prefix, q: &Prefix) -> bool
    ensures { result ≡ same_prefix (prefix_as p.now) (prefix_as q.now) }
{
    p.cmp(q).is_eq()
}

/// Whether these prefixes are the halves of this one, which has some if it isn't a single address.
fn have_halves(prefix: &Prefix, low: &Prefix, high: &Prefix) -> bool
    ensures { result ≡ (same_prefix (prefix_as low.now) (half_at false (prefix_as prefix.now))
        && same_prefix (prefix_as high.now) (half_at true (prefix_as prefix.now))) }
{
    if prefix.len == prefix.family.width() {
        return false;
    }
    is_same(low, &prefix.half(false)) && is_same(high, &prefix.half(true))
}

/// What the region of a join demands.
fn joint_demand(
    alloc: Global,
    against: &Against<'_>,
    prefix: &Prefix,
    halves: Halves,
) -> Result<Demand, AllocError>
    requires { InPlace (map entry_as against.now.old.now) }
    ensures { IfOk result (λ i. SameDemand (demand_as i) (join_demand (map entry_as against.now.old.now)
        (prefix_as prefix.now) (demand_as halves.low) (demand_as halves.high))) }
{
    let low = halves.low;
    let high = halves.high;
    let joined = AllowedHops::joint(alloc, low.hops, high.hops)?;
    let k = sum(low.k, high.k)?;
    let k = one_more_if(joined.apart, k)?;
    weigh(against, prefix, joined.hops, k)
}

/// Reads a join whose halves were taken from the stack.
fn read_halves(
    alloc: Global,
    against: &Against<'_>,
    prefix: &Prefix,
    said: u64,
    row: u64,
    halves: Halves,
    stack: &mut Vec<Demand>,
) -> Result<Option<NoMoves>, AllocError>
    requires { InPlace (map entry_as against.now.old.now) }
    ensures { IfOk result (λ no. (R T : Entries) → IsAsked against.now R T → MovesRowRead R T
        against.now.family (join_row (prefix_as prefix.now) said) row None
        (demand_as halves.high ∷ demand_as halves.low ∷ demands_as stack.old.items) None (demands_as stack.new.items)
        (option_map no_moves_as no)) }
{
    if !have_halves(prefix, &halves.low.prefix, &halves.high.prefix) {
        return Ok(Some(NoMoves::Shape { row }));
    }
    let item = joint_demand(alloc, against, prefix, halves)?;
    if said != item.k {
        return Ok(Some(NoMoves::JoinWrong {
            row,
            said,
            due: item.k,
        }));
    }
    push_demand(item, stack)?;
    Ok(None)
}

/// Reads a join, whose halves stand on the stack, the upper one on top.
fn read_join(
    alloc: Global,
    against: &Against<'_>,
    prefix: &Prefix,
    said: u64,
    row: u64,
    stack: &mut Vec<Demand>,
) -> Result<Option<NoMoves>, AllocError>
    requires { InPlace (map entry_as against.now.old.now) }
    ensures { IfOk result (λ no. (R T : Entries) → IsAsked against.now R T → MovesRowRead R T
        against.now.family (join_row (prefix_as prefix.now) said) row None
        (demands_as stack.old.items) None (demands_as stack.new.items) (option_map no_moves_as no)) }
{
    match pop_demand(stack) {
        None => Ok(Some(NoMoves::Shape { row })),
        Some(high) => match pop_demand(stack) {
            None => Ok(Some(NoMoves::Shape { row })),
            Some(low) => {
                let halves = Halves { low, high };
                read_halves(alloc, against, prefix, said, row, halves, stack)
            }
        },
    }
}

/// Whether the item is the whole space of the family, and the bound is of this family.
fn is_whole(item: &Demand, of: Family, family: Family) -> bool
    ensures { result ≡ (same_family of family && same_prefix (demand_as item.now).prefix
        (whole_prefix family)) }
{
    of == family && is_same(&item.prefix, &Prefix::whole(family))
}

/// How many changes the whole space needs, which inherits no hop.
fn bound_of(item: &Demand) -> Result<u64, AllocError>
    ensures { IfOk result (λ n. n ≡ change_bound (demand_as item.now).hops (demand_as item.now).k) }
{
    one_more_if(!item.hops.contains(Hop::NONE.0), item.k)
}

/// Reads the bound, if the item stood alone on the stack.
fn read_whole(
    family: Family,
    of: Family,
    said: u64,
    row: u64,
    item: &Demand,
    bound: &mut Option<u64>,
) -> Result<Option<NoMoves>, AllocError>
    requires { bound.old ≡ None }
    ensures read { IfOk result (λ no. (R T : Entries) → MovesRowRead R T family (bound_row of said) row None
        (demand_as item.now ∷ []) bound.new [] (option_map no_moves_as no)) }
    ensures of { IsNumberOf (bound_row of said) bound.new }
{
    if !is_whole(item, of, family) {
        return Ok(Some(NoMoves::Shape { row }));
    }
    let due = bound_of(item)?;
    if said != due {
        return Ok(Some(NoMoves::JoinWrong { row, said, due }));
    }
    *bound = Some(said);
    Ok(None)
}

/// Reads a bound: what is wrong with it, if anything is.
fn read_bound(
    family: Family,
    of: Family,
    said: u64,
    row: u64,
    stack: &mut Vec<Demand>,
    bound: &mut Option<u64>,
) -> Result<Option<NoMoves>, AllocError>
    requires { bound.old ≡ None }
    ensures read { IfOk result (λ no. (R T : Entries) → MovesRowRead R T family (bound_row of said) row None
        (demands_as stack.old.items) bound.new (demands_as stack.new.items) (option_map no_moves_as no)) }
    ensures of { IsNumberOf (bound_row of said) bound.new }
{
    match pop_demand(stack) {
        None => Ok(Some(NoMoves::Shape { row })),
        Some(item) => match pop_demand(stack) {
            Some(_) => Ok(Some(NoMoves::Shape { row })),
            None => read_whole(family, of, said, row, &item, bound),
        },
    }
}

/// Reads a row: what is wrong with it, if anything is.
fn read_row(
    alloc: Global,
    against: &Against<'_>,
    row: &Row,
    number: u64,
    reading: &mut Reading,
) -> Result<Option<NoMoves>, AllocError>
    requires old { InPlace (map entry_as against.now.old.now) }
    requires family { IsFamilyRow against.now.family (row_as row.now) }
    requires before { reading.old.bound ≡ None }
    ensures read { IfOk result (λ no. (R T : Entries) → IsAsked against.now R T → MovesRowRead R T
        against.now.family (row_as row.now) number None (demands_as reading.old.stack.items)
        reading.new.bound (demands_as reading.new.stack.items) (option_map no_moves_as no)) }
    ensures of { IsNumberOf (row_as row.now) reading.new.bound }
{
    match row {
        Row::Leaf(prefix, hop) => read_leaf(
            against,
            prefix,
            *hop,
            number,
            &mut reading.stack,
            &mut reading.place,
        ),
        Row::Join(prefix, k) => read_join(alloc, against, prefix, *k, number, &mut reading.stack),
        Row::Bound(of, bound) => read_bound(
            against.family,
            *of,
            *bound,
            number,
            &mut reading.stack,
            &mut reading.bound,
        ),
    }
}

/// Reads the rows to the first wrong one, or to their end, which the bound must be.
pub(crate) fn read_rows(
    alloc: Global,
    against: &Against<'_>,
    rows: &[Row],
    reading: &mut Reading,
) -> Result<Option<NoMoves>, AllocError>
    requires old { InPlace (map entry_as against.now.old.now) }
    requires family { AreRowsOf against.now.family (map row_as rows.now) }
    requires empty { demands_as reading.old.stack.items ≡ [] }
    requires before { reading.old.bound ≡ None }
    ensures read { IfOk result (λ no. (R T : Entries) → IsAsked against.now R T → option_map no_moves_as no
        ≡ wrong_moves_row R T against.now.family (map row_as rows.now) [] 1) }
    ensures told { IfOk result (λ no. no ≡ None → EndsWithBound (map row_as rows.now) reading.new.bound) }
{
    for i in 0..rows.len() {
        if reading.bound.is_some() {
            return Ok(Some(NoMoves::Shape { row: i as u64 + 1 }));
        }
        if let Some(no) = read_row(alloc, against, &rows[i], i as u64 + 1, reading)? {
            return Ok(Some(no));
        }
    }
    match reading.bound {
        Some(_) => Ok(None),
        None => Ok(Some(NoMoves::Shape {
            row: rows.len() as u64 + 1,
        })),
    }
}
