//! Sets of hops.
//!
//! Two sets are compared by marks: each hop of the one is marked with a number that no mark had before, and the other is
//! gone through. That takes one step for each hop. Most sets hold one to three hops: up to eight are kept in place.

ghost use Rattle.std.specs.Prelude.{◌≡◌, ◌+◌, ◌^◌, ◌++◌, ◌<◌, ℕ, get_or, replicate, nat_eq, IfOk};
ghost use Rattle.table_model.specs.Sets.{is_in, common, one_if_empty, or_else};
ghost use Rattle.cert_check.specs.Marks.{AreMarks};

use smallvec::SmallVec;
use std::alloc::{AllocError, Global};

/// Hops in a row, of which eight take no allocation.
pub(crate) type Hops = SmallVec<u16, 8>;

/// How many hops there are at most.
const HOPS: usize = 65_536;

/// So many zeros.
fn zeros(alloc: Global, count: usize) -> Result<Vec<u64>, AllocError>
    ensures { IfOk result (λ v. v.items ≡ replicate count 0) }
{
    vec![in alloc; 0; count]
}

/// A mark for each hop, at first 0.
pub(crate) fn no_marks(alloc: Global) -> Result<Vec<u64>, AllocError>
    ensures { IfOk result (λ v. AreMarks 1 v.items) }
{
    zeros(alloc, HOPS)
}

/// Marks the hops of a set.
fn mark(hops: &[u16], stamp: u64, marks: &mut Vec<u64>)
    requires marks { AreMarks stamp marks.old.items }
    requires more { stamp + 1 < 2 ^ 64 }
    ensures marks { AreMarks (stamp + 1) marks.new.items }
    ensures marked { (h : ℕ) → h < 65536 → nat_eq (get_or marks.new.items h 0) stamp
        ≡ is_in h hops.now }
{
    for hop in hops {
        marks[usize::from(*hop)] = stamp;
    }
}

/// The hops that both sets have. The stamp is above all marks.
pub(crate) fn common_hops(
    alloc: Global,
    low: &[u16],
    high: &[u16],
    stamp: u64,
    marks: &mut Vec<u64>,
) -> Result<Hops, AllocError>
    requires marks { AreMarks stamp marks.old.items }
    requires more { stamp + 1 < 2 ^ 64 }
    ensures marks { AreMarks (stamp + 1) marks.new.items }
    ensures common { IfOk result (λ v. v.items ≡ common low.now high.now) }
{
    mark(high, stamp, marks);
    let mut both = SmallVec::new(alloc);
    for hop in low {
        if marks[usize::from(*hop)] == stamp {
            both.push(*hop)?;
        }
    }
    Ok(both)
}

/// 1 for no hops.
pub(crate) fn one_if_none(hops: &[u16]) -> u64
    ensures { result ≡ one_if_empty hops.now }
{
    if hops.len() == 0 { 1 } else { 0 }
}

/// The common hops or, if there are none, all hops.
pub(crate) fn or_all(common: Hops, mut low: Hops, high: &[u16]) -> Result<Hops, AllocError>
    ensures { IfOk result (λ v. v.items ≡ or_else common.items (low.items ++ high.now)) }
{
    if common.is_empty() {
        low.extend_from_slice(high)?;
        return Ok(low);
    }
    Ok(common)
}
