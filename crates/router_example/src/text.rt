//! What is printed.

use fib_delta::Change;
use fib_prefix::{Addr, Hop, HopTable, MOST_TEXT, Prefix, addr_text, prefix_text};
use std::alloc::{AllocError, Global};

/// A prefix as text.
fn prefix_string(alloc: Global, prefix: &Prefix) -> Result<String, AllocError> {
    let mut room = [0; MOST_TEXT];
    String::from_utf8_lossy(alloc, prefix_text(&mut room, prefix))
}

/// The address of the hop of this number, or `none`.
pub fn hop_string(alloc: Global, hops: &HopTable, hop: Hop) -> Result<String, AllocError> {
    let mut room = [0; MOST_TEXT];
    match hops.addr(hop) {
        Some(addr) => String::from_utf8_lossy(alloc, addr_text(&mut room, &addr)),
        None => String::from_str(alloc, "none"),
    }
}

/// A change for the hardware.
pub fn change_string(
    alloc: Global,
    hops: &HopTable,
    change: &Change,
) -> Result<String, AllocError> {
    match change {
        Change::Add(prefix, hop) => {
            let prefix = prefix_string(alloc, prefix)?;
            let hop = hop_string(alloc, hops, *hop)?;
            format!(in alloc; "add {prefix} {hop}")
        }
        Change::Replace(prefix, hop) => {
            let prefix = prefix_string(alloc, prefix)?;
            let hop = hop_string(alloc, hops, *hop)?;
            format!(in alloc; "replace {prefix} {hop}")
        }
        Change::Remove(prefix) => {
            let prefix = prefix_string(alloc, prefix)?;
            format!(in alloc; "remove {prefix}")
        }
    }
}
