//! Where two tables first answer differently.

ghost use Rattle.std.specs.Prelude.{◌≡◌, ◌↔◌, ◌<◌, ◌^◌, None, IfOk, IfSome, map, option_map};
ghost use Rattle.table_model.specs.Width.{width};
ghost use Rattle.table_model.specs.Entries.{Entries, match_in, AlikeInBoth};
ghost use Rattle.cert_model.specs.Verdict.{IsLeastDiffering, not_same, not_same_in};
ghost use Rattle.fib_addr.specs.Views.{addr_as, entry_as};
ghost use Rattle.cert_check.specs.Runs.{AreRuns, Below, RunsTell};
ghost use Rattle.cert_check.specs.Apart.{next_apart, no_of, IsFirstApart};
ghost use Rattle.cert_check.specs.Views.{differ_as};

use crate::runs::Run;
use crate::table_runs::TableRuns;
use fib_addr::{Addr, Entry, Family, Hop};
use std::alloc::{AllocError, Global};
use std::cmp::Ordering;

/// An address that gets different hops from two tables.
#[derive(Clone, Copy, Debug, PartialEq, Eq)]
pub struct Differ {
    /// The address.
    pub addr: Addr,
    /// What it gets from the first table.
    pub first: Hop,
    /// What it gets from the second.
    pub second: Hop,
}

/// The number of an address that gets different hops, and these.
#[derive(Clone, Copy, Debug, PartialEq, Eq)]
pub struct Apart {
    start: u128,
    first: u16,
    second: u16,
}

/// The number from which runs answer differently that go on with these two, after runs that are the same and end with a hop.
fn next_apart(x: &Run, y: &Run, hop: u16) -> Apart
    ensures { result ≡ next_apart x.now y.now hop }
{
    match x.start.cmp(&y.start) {
        Ordering::Less => Apart {
            start: x.start,
            first: x.hop,
            second: hop,
        },
        Ordering::Greater => Apart {
            start: y.start,
            first: hop,
            second: y.hop,
        },
        Ordering::Equal => Apart {
            start: x.start,
            first: x.hop,
            second: y.hop,
        },
    }
}

/// The least number that gets different hops from two lists of runs.
fn first_apart(a: &[Run], b: &[Run]) -> Option<Apart>
    requires first { AreRuns 0 a.now }
    requires second { AreRuns 0 b.now }
    ensures { IsFirstApart a.now b.now result }
{
    let mut hop = 0;
    for i in 0..a.len() {
        let x = a[i];
        if i == b.len() {
            return Some(Apart {
                start: x.start,
                first: x.hop,
                second: hop,
            });
        }
        let y = b[i];
        if x != y {
            return Some(next_apart(&x, &y, hop));
        }
        hop = x.hop;
    }
    if a.len() < b.len() {
        let y = b[a.len()];
        return Some(Apart {
            start: y.start,
            first: hop,
            second: y.hop,
        });
    }
    None
}

/// The least address of a family that gets different hops from the tables with these runs.
fn differ_of(apart: Option<Apart>, family: Family) -> Option<Differ>
    requires { IfSome apart (λ x. x.start < 2 ^ width family) }
    ensures { option_map differ_as result ≡ no_of family apart }
{
    match apart {
        None => None,
        Some(apart) => Some(Differ {
            addr: Addr {
                family,
                bits: apart.start,
            },
            first: Hop(apart.first),
            second: Hop(apart.second),
        }),
    }
}

/// Where the runs of a family first answer differently.
pub fn differ_in(a: &[Run], b: &[Run], family: Family) -> Option<Differ>
    requires first { AreRuns 0 a.now }
    requires second { AreRuns 0 b.now }
    requires below { Below (2 ^ width family) a.now }
    requires below_too { Below (2 ^ width family) b.now }
    ensures { (L M : Entries) → RunsTell family L a.now → RunsTell family M b.now
        → option_map differ_as result ≡ not_same_in L M family }
{
    differ_of(first_apart(a, b), family)
}

/// The least address that gets different hops from two tables, IPv4 before IPv6; none exactly if the tables are alike in
/// both families. An entry that drops answers as no entry does.
///
/// # Errors
///
/// Out of memory.
pub fn same(alloc: Global, a: &[Entry], b: &[Entry]) -> Result<Option<Differ>, AllocError>
    ensures answer { IfOk result (λ d. option_map differ_as d
        ≡ not_same (map entry_as a.now) (map entry_as b.now)) }
    ensures none { IfOk result (λ d. (d ≡ None) ↔ AlikeInBoth (map entry_as a.now)
        (map entry_as b.now)) }
    ensures least { IfOk result (λ d. IfSome d (λ x. IsLeastDiffering (map entry_as a.now)
        (map entry_as b.now) (addr_as x.addr))) }
    ensures answers { IfOk result (λ d. IfSome d
        (λ x. (x.first.0 ≡ match_in (map entry_as a.now) (addr_as x.addr))
        × (x.second.0 ≡ match_in (map entry_as b.now) (addr_as x.addr)))) }
{
    let runs = TableRuns::new(alloc, a)?;
    runs.first_differ(alloc, b)
}
