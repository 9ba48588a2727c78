//! The index of a list of VRPs: they stand in the order of their prefixes, each with a link to the last one before it whose prefix
//! contains its own and is another.
//!
//! A VRP that covers a prefix doesn't stand after the prefix's place in this order, and covers all prefixes up to that place. So
//! whatever covers the prefix is found from its place by going back: by links, while VRPs don't cover it, which takes a step for each
//! length at most; and then from each that covers it to the one before it of the same prefix, or else by its link.

ghost use Rattle.std.specs.Prelude.{◌≡◌, ◌+◌, ◌-◌, ◌≤◌, ◌<◌, length, get_or, true, IfOk};
ghost use Rattle.std.specs.List.Sorted.{IsPermutation};
ghost use Rattle.table_model.specs.Address.{IsPrefix, Prefix as model_prefix};
ghost use Rattle.fib_addr.specs.Views.{prefix_as};
ghost use Rattle.fib_rov.specs.declared.numbered.Numbered as code;
ghost use Rattle.fib_rov.specs.Index.{AreLinked, AreSorted, AreUpTo, IsLast, IsVrpPlace, vrp_covers, encloses, numbered, prefix_of, stands_up_to};

use crate::numbered::Numbered;
use crate::vrp::Vrp;
use fib_addr::Prefix;
use std::alloc::{AllocError, Global};

/// The VRPs of a list with their numbers.
fn number(alloc: Global, list: &[Vrp]) -> Result<Vec<Numbered>, AllocError>
    ensures { IfOk result (λ vrps. vrps.items ≡ numbered 0 list.now) }
{
    let mut vrps = Vec::with_capacity(alloc, list.len())?;
    for (number, vrp) in list.iter().enumerate() {
        vrps.push(Numbered::new(number, vrp))?;
    }
    Ok(vrps)
}

/// The VRPs of a list with their numbers, in the order of their prefixes.
pub(crate) fn sort(alloc: Global, list: &[Vrp]) -> Result<Vec<Numbered>, AllocError>
    ensures same { IfOk result (λ sorted. IsPermutation (numbered 0 list.now) sorted.items) }
    ensures sorted { IfOk result (λ sorted. AreSorted sorted.items) }
{
    let mut vrps = number(alloc, list)?;
    vrps.sort_unstable_by(|a, b| a.compare(b));
    Ok(vrps)
}

/// How many VRPs there are up to the last of the first `count` that covers the prefix; 0 if none does.
fn last_cover(sorted: &[Numbered], links: &[usize], count: usize, prefix: &Prefix) -> usize
    requires sorted { AreSorted sorted.now }
    requires linked { AreLinked sorted.now count links.now }
    requires up_to { AreUpTo (prefix_as prefix.now) sorted.now count }
    ensures { IsLast (vrp_covers (prefix_as prefix.now)) sorted.now count result }
{
    let mut at = count;
    while at > 0 && !sorted[at - 1].covers(prefix) {
        at = links[at - 1];
    }
    at
}

/// The link of the VRP at a place, by the links of those before it.
fn link(sorted: &[Numbered], links: &[usize], place: usize) -> usize
    requires within { place < length sorted.now }
    requires sorted { AreSorted sorted.now }
    requires linked { AreLinked sorted.now place links.now }
    ensures { (r : code.Numbered) → IsLast (encloses (prefix_as (prefix_of (get_or sorted.now place r)))) sorted.now place result }
{
    let vrp = &sorted[place];
    let at = last_cover(sorted, links, place, &vrp.prefix());
    if at > 0 && sorted[at - 1].has_prefix_of(vrp) {
        links[at - 1]
    } else {
        at
    }
}

/// The link of each VRP. They cost a few steps each.
pub(crate) fn link_all(alloc: Global, sorted: &[Numbered]) -> Result<Vec<usize>, AllocError>
    requires { AreSorted sorted.now }
    ensures { IfOk result (λ links. AreLinked sorted.now (length sorted.now) links.items) }
{
    let mut links = Vec::with_capacity(alloc, sorted.len())?;
    for place in 0..sorted.len() {
        let link = link(sorted, &links, place);
        links.push(link)?;
    }
    Ok(links)
}

/// How many VRPs have a prefix up to this one in the order of prefixes.
fn place_of(sorted: &[Numbered], prefix: &Prefix) -> usize
    requires { AreSorted sorted.now }
    ensures bound { result ≤ length sorted.now }
    ensures placed { IsVrpPlace (prefix_as prefix.now) sorted.now result }
{
    sorted.partition_point(
        |vrp: &Numbered| -> bool
            ensures { result ≡ stands_up_to (prefix_as prefix.entry.now) vrp.now }
        { vrp.stands_up_to(prefix) },
    )
}

/// How many VRPs there are up to the last that covers the prefix; 0 if none does.
pub(crate) fn last_covering(sorted: &[Numbered], links: &[usize], prefix: &Prefix) -> usize
    requires sorted { AreSorted sorted.now }
    requires linked { AreLinked sorted.now (length sorted.now) links.now }
    ensures { IsLast (vrp_covers (prefix_as prefix.now)) sorted.now (length sorted.now) result }
{
    last_cover(sorted, links, place_of(sorted, prefix), prefix)
}

/// How many VRPs there are up to the last that covers a prefix and stands before the VRP of this number of them, which covers it.
pub(crate) fn covering_before(sorted: &[Numbered], links: &[usize], at: usize) -> usize
    requires some { 0 < at }
    requires within { at ≤ length sorted.now }
    requires sorted { AreSorted sorted.now }
    requires linked { AreLinked sorted.now (length sorted.now) links.now }
    ensures { (p : model_prefix) (r : code.Numbered) → IsPrefix p → vrp_covers p (get_or sorted.now (at - 1) r) ≡ true →
        IsLast (vrp_covers p) sorted.now (at - 1) result }
{
    if at > 1 && sorted[at - 2].has_prefix_of(&sorted[at - 1]) {
        at - 1
    } else {
        links[at - 1]
    }
}
