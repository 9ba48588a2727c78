//! Numbers of changes.

ghost use Rattle.std.specs.Prelude.{◌≡◌, ◌+◌, cond, IfOk};

use std::alloc::AllocError;

/// The sum of two numbers of changes. A list of changes takes memory, so no memory suffices if the sum passes 64 bits.
///
/// # Errors
///
/// Out of memory, if the sum is 2^64 or more.
pub fn sum(a: u64, b: u64) -> Result<u64, AllocError>
    ensures { IfOk result (λ n. n ≡ a + b) }
{
    a.checked_add(b).ok_or(AllocError)
}

/// The number of changes, with one more if there is.
///
/// # Errors
///
/// Out of memory, as in [`sum`].
pub fn one_more_if(more: bool, k: u64) -> Result<u64, AllocError>
    ensures { IfOk result (λ n. n ≡ cond more (k + 1) k) }
{
    if more { sum(k, 1) } else { Ok(k) }
}
