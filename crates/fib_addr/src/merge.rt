//! Two sorted rows of hops are put together in one pass.

ghost use Rattle.std.specs.Prelude.{◌≡◌, ◌++◌, ◌↔◌, [], IsTrue, IfOk};
ghost use Rattle.table_model.specs.Sets.{common, joint};
ghost use Rattle.fib_addr.specs.HopSets.{Ascending, SameHops};

use smallvec::SmallVec;
use std::alloc::{AllocError, Global};

/// Hops in a row, of which eight take no allocation.
pub(crate) type Row = SmallVec<u16, 8>;

/// The hops that are in both rows.
fn common_hops(alloc: Global, low: &[u16], high: &[u16]) -> Result<Row, AllocError>
    requires low { Ascending low.now }
    requires high { Ascending high.now }
    ensures { IfOk result (λ v. v.items ≡ common low.now high.now) }
{
    let mut hops = SmallVec::new(alloc);
    let mut i = 0;
    let mut j = 0;
    while i < low.len() && j < high.len() {
        if low[i] < high[j] {
            i += 1;
        } else if high[j] < low[i] {
            j += 1;
        } else {
            hops.push(low[i])?;
            i += 1;
            j += 1;
        }
    }
    Ok(hops)
}

/// The hops that are in both rows or, if there are none, those of either; and whether there are none. A row is read once:
/// at the first common hop, what was collected before it is dropped, and the rest is read for common hops alone.
pub(crate) fn joint_hops(
    alloc: Global,
    low: &[u16],
    high: &[u16],
) -> Result<(Row, bool), AllocError>
    requires low { Ascending low.now }
    requires high { Ascending high.now }
    ensures order { IfOk result (λ v. Ascending v.0.items) }
    ensures hops { IfOk result (λ v. SameHops v.0.items (joint low.now high.now)) }
    ensures apart { IfOk result (λ v. IsTrue v.1 ↔ (common low.now high.now ≡ [])) }
{
    let mut hops = SmallVec::new(alloc);
    let mut i = 0;
    let mut j = 0;
    while i < low.len() && j < high.len() {
        if low[i] < high[j] {
            hops.push(low[i])?;
            i += 1;
        } else if high[j] < low[i] {
            hops.push(high[j])?;
            j += 1;
        } else {
            let met = common_hops(alloc, &low[i..], &high[j..])?;
            return Ok((met, false));
        }
    }
    hops.extend_from_slice(&low[i..])?;
    hops.extend_from_slice(&high[j..])?;
    Ok((hops, true))
}
