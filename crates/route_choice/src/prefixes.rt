//! The prefixes of all candidates.

ghost use Rattle.std.specs.Prelude.{◌≡◌, ◌++◌, IfOk, OnOk};
ghost use Rattle.std.specs.List.Sorted.{IsStrictlySortedBy};
ghost use Rattle.fib_addr.specs.Order.{code_cmp};
ghost use Rattle.route_choice.specs.Walks.{HasRows, HasRanks, row_prefixes, rank_prefixes};

use adj_rib_in::{Flat, Rank};
use fib_prefix::Prefix;
use std::alloc::{AllocError, Global};
use std::collections::BTreeSet;

/// The prefixes that have a row or a rank, each once, in their order. It costs no more than to look at each, if few have a rank:
/// those of rows and those of ranks are in order, and the sort merges them.
pub fn all_prefixes(
    alloc: Global,
    flat: &Flat,
    ranks: &BTreeSet<Rank>,
) -> Result<Vec<Prefix>, AllocError>
    ensures rows { IfOk result (λ prefixes. HasRows flat.now.rows.items prefixes.items) }
    ensures ranks { IfOk result (λ prefixes. HasRanks ranks.now.keys prefixes.items) }
    ensures sorted { IfOk result (λ prefixes. IsStrictlySortedBy code_cmp prefixes.items) }
{
    let mut prefixes = Vec::with_capacity(alloc, flat.row_count())?;
    add_rows(flat, &mut prefixes)?;
    add_ranks(ranks, &mut prefixes)?;
    prefixes.sort()?;
    prefixes.dedup();
    Ok(prefixes)
}

/// Adds the prefixes of all rows.
fn add_rows(flat: &Flat, prefixes: &mut Vec<Prefix>) -> Result<(), AllocError>
    ensures { OnOk result (prefixes.new.items ≡ prefixes.old.items ++ row_prefixes flat.now.rows.items) }
{
    for row in 0..flat.row_count() {
        if let Some(prefix) = flat.prefix_of(row) {
            prefixes.push(prefix)?;
        }
    }
    Ok(())
}

/// Adds the prefixes of all ranks.
fn add_ranks(ranks: &BTreeSet<Rank>, prefixes: &mut Vec<Prefix>) -> Result<(), AllocError>
    ensures { OnOk result (prefixes.new.items ≡ prefixes.old.items ++ rank_prefixes ranks.now.keys) }
{
    for rank in ranks.iter() {
        prefixes.push(rank.prefix())?;
    }
    Ok(())
}
