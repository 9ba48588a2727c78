//! Sets that meet, and sets that don't.

use fib_addr::HopSet;
use std::alloc::{AllocError, Global};

/// The set of these hops, which are in order.
fn set_of(alloc: Global, hops: &[u16]) -> Result<HopSet, AllocError> {
    let mut set = HopSet::one(0);
    for (i, hop) in hops.iter().enumerate() {
        let one = HopSet::one(*hop);
        set = if i == 0 {
            one
        } else {
            HopSet::joint(alloc, &set, &one)?.set
        };
    }
    Ok(set)
}

/// Whether a set and its copy have these of the hops below 8, and no other.
fn has(alloc: Global, set: &HopSet, hops: &[u16]) -> Result<bool, AllocError> {
    let copy = set.copied(alloc)?;
    for hop in 0..8 {
        let is_in = hops.contains(&hop);
        if set.contains(hop) != is_in || copy.contains(hop) != is_in {
            return Ok(false);
        }
    }
    Ok(true)
}

#[test]
fn sets_are_put_together(rt: HostRuntime) -> Result<(), AllocError> {
    let alloc = rt.alloc();
    // two sets, what they come to, and whether they are apart
    let cases: [(&[u16], &[u16], &[u16], bool); 3] = [
        (&[1, 3, 5], &[2, 3, 5, 6], &[3, 5], false),
        (&[1, 4], &[2, 3, 5], &[1, 2, 3, 4, 5], true),
        (&[1], &[1], &[1], false),
    ];
    for (low, high, due, apart) in cases {
        let joint = HopSet::joint(alloc, &set_of(alloc, low)?, &set_of(alloc, high)?)?;
        assert_eq!(rt; joint.apart, apart);
        assert!(rt; has(alloc, &joint.set, due)?);
    }
    Ok(())
}

#[test]
fn a_region_has_an_entry_of_its_own(rt: HostRuntime) -> Result<(), AllocError> {
    let set = set_of(rt.alloc(), &[1, 2, 3, 4, 5])?;
    // the old entry's hop and the inherited one
    for (old, inherited, own) in [
        (Some(4), 3, None),
        (Some(4), 7, Some(4)),
        (Some(8), 7, Some(1)),
    ] {
        assert_eq!(rt; set.own(old, inherited), own);
    }
    Ok(())
}
