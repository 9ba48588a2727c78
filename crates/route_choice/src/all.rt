//! All candidates, in the order of prefixes, then of path sources, passed on one by one.

ghost use Rattle.std.specs.Prelude.{◌≡◌, ◌++◌, ◌∷◌, [], OnOk};
ghost use Rattle.std.specs.List.Sorted.{IsStrictlySortedBy};
ghost use Rattle.std.specs.BTreeMap as tree;
ghost use Rattle.fib_addr.specs.Order.{code_cmp};
ghost use Rattle.fib_prefix.specs.Order.{code_via_cmp};
ghost use Rattle.fib_prefix.specs.Views.{cand_as};
ghost use Rattle.fib_prefix.specs.Taken.{TakesCands};
ghost use Rattle.adj_rib_in.specs.Paths.{Paths, held_in};
ghost use Rattle.adj_rib_in.specs.Flat.{IsFlat, ShareNoKey, flat_paths, paths_over};
ghost use Rattle.adj_rib_in.specs.Ways.{AddsWays};
ghost use Rattle.route_choice.specs.Paths.{IsIndexed};
ghost use Rattle.route_choice.specs.Walks.{by_way, by_ways, held_at, held_for};

use crate::over::{add_list, add_ways, has_no_rank};
use crate::prefixes::all_prefixes;
use adj_rib_in::{Flat, PathAttrs, PathKey, Rank, ViaAttrs};
use fib_prefix::{Addr, Cand, CandSink, Peer, Prefix, Via};
use std::alloc::{AllocError, Global};
use std::collections::{BTreeMap, BTreeSet};

/// Hands on all candidates, in the order of prefixes, then of path sources.
pub fn emit_candidates<S: CandSink>(
    alloc: Global,
    flat: &Flat,
    paths: &BTreeMap<PathKey, Option<PathAttrs>>,
    ranks: &BTreeSet<Rank>,
    out: &mut S,
) -> Result<(), AllocError>
    requires flat { IsFlat flat.now }
    requires apart { ShareNoKey (flat_paths flat.now) paths.now.entries }
    requires indexed { IsIndexed paths.now.entries ranks.now.keys }
    requires ready { S.ready out.old }
    ensures ready { OnOk result (S.ready out.new) }
    ensures takes { OnOk result (TakesCands S.takes out.old
        (held_in (paths_over flat.now paths.now.entries)) out.new) }
{
    let prefixes = all_prefixes(alloc, flat, ranks)?;
    emit_prefixes(alloc, flat, paths, ranks, &prefixes, out)?;
    Ok(())
}

/// Passes on the candidates of these prefixes. The base's come row by row, without a search, if the prefixes are those of its
/// rows.
fn emit_prefixes<S: CandSink>(
    alloc: Global,
    flat: &Flat,
    paths: &BTreeMap<PathKey, Option<PathAttrs>>,
    ranks: &BTreeSet<Rank>,
    prefixes: &[Prefix],
    out: &mut S,
) -> Result<(), AllocError>
    requires flat { IsFlat flat.now }
    requires apart { ShareNoKey (flat_paths flat.now) paths.now.entries }
    requires indexed { IsIndexed paths.now.entries ranks.now.keys }
    requires ready { S.ready out.old }
    ensures ready { OnOk result (S.ready out.new) }
    ensures takes { OnOk result (TakesCands S.takes out.old
        (held_for (paths_over flat.now paths.now.entries) prefixes.now) out.new) }
{
    let mut ways = ViaAttrs::new(alloc);
    let mut more = BTreeMap::new(alloc);
    let mut row = 0;
    for prefix in prefixes {
        ways.clear();
        row = flat.add_ways(row, prefix, &mut ways)?;
        emit_prefix(paths, ranks, prefix, &ways, &mut more, out)?;
    }
    Ok(())
}

/// Passes on the candidates of a prefix, for which the base offers these. If it has ranks there is `more` to put both into the
/// order of path sources: there may be any number.
fn emit_prefix<S: CandSink>(
    paths: &BTreeMap<PathKey, Option<PathAttrs>>,
    ranks: &BTreeSet<Rank>,
    prefix: &Prefix,
    ways: &ViaAttrs,
    more: &mut BTreeMap<Via, PathAttrs>,
    out: &mut S,
) -> Result<(), AllocError>
    requires indexed { IsIndexed paths.now.entries ranks.now.keys }
    requires ready { S.ready out.old }
    ensures ready { OnOk result (S.ready out.new) }
    ensures takes { OnOk result ((base : Paths) → ShareNoKey base paths.now.entries
        → AddsWays base prefix.now [] ways.now
        → TakesCands S.takes out.old (held_at (base ++ paths.now.entries) prefix.now) out.new) }
{
    if has_no_rank(paths, ranks, prefix) {
        emit_list(prefix, ways.list(), out)?;
        return Ok(());
    }
    more.clear();
    add_list(ways.list(), more)?;
    add_ways(paths, ranks, prefix, more)?;
    emit_ways(prefix, more, out)?;
    Ok(())
}

/// Hands on what comes from path sources for a prefix, from a list.
fn emit_list<S: CandSink>(
    prefix: &Prefix,
    ways: &[(Via, PathAttrs)],
    out: &mut S,
) -> Result<(), AllocError>
    requires { S.ready out.old }
    ensures ready { OnOk result (S.ready out.new) }
    ensures takes { OnOk result (TakesCands S.takes out.old (by_ways prefix.now ways.now) out.new) }
{
    for way in ways {
        emit_way(prefix, &way.0, &way.1, out)?;
    }
    Ok(())
}

/// Hands on what comes from path sources for a prefix, from a map.
fn emit_ways<S: CandSink>(
    prefix: &Prefix,
    ways: &BTreeMap<Via, PathAttrs>,
    out: &mut S,
) -> Result<(), AllocError>
    requires { S.ready out.old }
    ensures ready { OnOk result (S.ready out.new) }
    ensures takes { OnOk result (TakesCands S.takes out.old (by_ways prefix.now ways.now.entries) out.new) }
    ensures ordered { tree.IsOrdered code_via_cmp ways.now }
{
    for (via, attrs) in ways.iter() {
        emit_way(prefix, via, attrs, out)?;
    }
    Ok(())
}

/// Hands on what comes from a path source for a prefix.
fn emit_way<S: CandSink>(
    prefix: &Prefix,
    via: &Via,
    attrs: &PathAttrs,
    out: &mut S,
) -> Result<(), AllocError>
    requires { S.ready out.old }
    ensures ready { OnOk result (S.ready out.new) }
    ensures takes { OnOk result (TakesCands S.takes out.old
        (by_way prefix.now (via.now, attrs.now) ∷ []) out.new) }
{
    let peer = via.peer;
    let cand = candidate(prefix, peer.addr, peer.asn, via.id, attrs);
    out.put(&cand)?;
    Ok(())
}

/// The candidate of a prefix and a path source, from the peer's address, its AS number and the path identifier.
fn candidate(prefix: &Prefix, addr: Addr, asn: u32, id: u32, attrs: &PathAttrs) -> Cand
    ensures { cand_as result ≡ by_way prefix.now
        (record { peer = record { addr = addr; asn = asn }; id = id }, attrs.now) }
{
    let peer = Peer { addr, asn };
    Cand {
        prefix: *prefix,
        via: Via { peer, id },
        path: attrs.path(),
        hop: attrs.hop(),
    }
}
