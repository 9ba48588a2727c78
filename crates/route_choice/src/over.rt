//! Path keys and ranks: the routes that lie in the two ordered maps over the base.

ghost use Rattle.std.specs.Prelude.{IfOk, ◌≡◌, [], ◌&&◌, ◌||◌, List, true, false, cond, is_some, Some, None, Bool, OnOk, OnErr};
ghost use Rattle.std.specs.Ordering.{is_eq};
ghost use Rattle.std.specs.BTreeMap as tree;
ghost use Rattle.std.specs.List.Sorted.{IsStrictlySortedBy};
ghost use Rattle.std.specs.Map.{keys_of};
ghost use Rattle.fib_prefix.specs.Order.{code_via_cmp};
ghost use Rattle.std.specs.BTreeSet as set;
ghost use Rattle.fib_prefix.specs.declared.event.Via as code;
ghost use Rattle.adj_rib_in.specs.Orders.{key_cmp, rank_cmp};
ghost use Rattle.adj_rib_in.specs.Paths.{attrs_at as offered};
ghost use Rattle.adj_rib_in.specs.Ways.{Ways, AddsWays, way_attrs, way_put};
ghost use Rattle.route_choice.specs.Paths.{IsIndexed, OfferHasRoom, has_rank, has_key, key_in, attrs_in};
ghost use Rattle.route_choice.specs.Kept.{PathsAreKept, StaysKept, KeepsBeside, EachKeyServes, EachRankServes, holds_key as key_held, holds_rank as rank_held};
ghost use Rattle.route_choice.specs.Walks.{attrs_ranked as ranked, first_in, better_of, cuts_in, ranks_of, paths_of};

use adj_rib_in::{Candidate, PathAttrs, PathKey, Rank};
use fib_prefix::{Addr, Elem, Peer, Prefix, Via};
use std::alloc::{AllocError, Global};
use std::collections::{BTreeMap, BTreeSet};

/// The path key that an elementary event is about.
pub fn key_of(elem: &Elem) -> PathKey
    ensures { result ≡ key_in elem.now }
{
    match *elem {
        Elem::Put(via, prefix, _, _) => PathKey::new(&via, &prefix),
        Elem::Cut(via, prefix) => PathKey::new(&via, &prefix),
    }
}

/// What it offers there.
pub fn attrs_of(elem: &Elem) -> Option<PathAttrs>
    ensures { result ≡ attrs_in elem.now }
{
    match *elem {
        Elem::Put(_, _, path, hop) => Some(PathAttrs::new(path, &hop)),
        Elem::Cut(_, _) => None,
    }
}

/// What is offered at a path key.
#[inline(never)]
pub fn attrs_at(paths: &BTreeMap<PathKey, Option<PathAttrs>>, key: &PathKey) -> Option<PathAttrs>
    ensures { result ≡ offered paths.now.entries key.now }
{
    match paths.get(key) {
        Some(attrs) => *attrs,
        None => None,
    }
}

/// The offer of a rank; none if the path key offers another path, or nothing.
pub fn attrs_ranked(paths: &BTreeMap<PathKey, Option<PathAttrs>>, rank: &Rank) -> Option<PathAttrs>
    ensures { result ≡ ranked paths.now.entries rank.now }
{
    match attrs_at(paths, &rank.key()) {
        Some(attrs) if attrs.path() == rank.path() => Some(attrs),
        _ => None,
    }
}

/// The preferred route for a prefix, that of a path source left out.
pub fn best_but(
    paths: &BTreeMap<PathKey, Option<PathAttrs>>,
    ranks: &BTreeSet<Rank>,
    prefix: &Prefix,
    but: Option<Via>,
) -> Option<Candidate>
    ensures first { result ≡ first_in paths.now.entries but (ranks_of prefix.now ranks.now.keys) }
    ensures ordered { set.IsOrdered rank_cmp ranks.now }
{
    for rank in ranks.range(Rank::first(prefix)..) {
        if *prefix != rank.prefix() {
            return None;
        }
        if but != Some(rank.via()) {
            if let Some(attrs) = attrs_ranked(paths, rank) {
                return Some(Candidate {
                    via: rank.via(),
                    attrs,
                });
            }
        }
    }
    None
}

/// Whether no rank is of a prefix: nothing is offered here for it then.
pub fn has_no_rank(
    paths: &BTreeMap<PathKey, Option<PathAttrs>>,
    ranks: &BTreeSet<Rank>,
    prefix: &Prefix,
) -> bool
    requires { IsIndexed paths.now.entries ranks.now.keys }
    ensures { result ≡ true → (ways : Ways) → AddsWays paths.now.entries prefix.now ways ways }
{
    match ranks.range(Rank::first(prefix)..).next() {
        Some(rank) => *prefix != rank.prefix(),
        None => true,
    }
}

/// Adds what comes from path sources in their order, if nothing came yet.
pub fn add_list(
    list: &[(Via, PathAttrs)],
    ways: &mut BTreeMap<Via, PathAttrs>,
) -> Result<(), AllocError>
    requires none { ways.old.entries ≡ [] }
    requires sorted { IsStrictlySortedBy code_via_cmp (keys_of list.now) }
    ensures { OnOk result ((v : code.Via) → way_attrs ways.new.entries v ≡ way_attrs list.now v) }
{
    for way in list {
        ways.insert(way.0, way.1)?;
    }
    Ok(())
}

/// Adds what is offered here for a prefix, by path source.
///
/// # Errors
///
/// Out of memory.
pub fn add_ways(
    paths: &BTreeMap<PathKey, Option<PathAttrs>>,
    ranks: &BTreeSet<Rank>,
    prefix: &Prefix,
    ways: &mut BTreeMap<Via, PathAttrs>,
) -> Result<(), AllocError>
    requires { IsIndexed paths.now.entries ranks.now.keys }
    ensures { OnOk result (AddsWays paths.now.entries prefix.now ways.old.entries ways.new.entries) }
{
    for rank in ranks.range(Rank::first(prefix)..) {
        if *prefix != rank.prefix() {
            return Ok(());
        }
        add_ranked(paths, rank, ways)?;
    }
    Ok(())
}

/// Adds the offer of a rank, if it has one.
fn add_ranked(
    paths: &BTreeMap<PathKey, Option<PathAttrs>>,
    rank: &Rank,
    ways: &mut BTreeMap<Via, PathAttrs>,
) -> Result<(), AllocError>
    ensures { OnOk result ((v : code.Via) → way_attrs ways.new.entries v ≡ way_put (Some rank.now.via)
        (ranked paths.now.entries rank.now) v (way_attrs ways.old.entries v)) }
{
    if let Some(attrs) = attrs_ranked(paths, rank) {
        ways.insert(rank.via(), attrs)?;
    }
    Ok(())
}

/// The next hop of the preferred one of the route by a path source and that of the others.
pub fn better_hop(via: Via, own: Option<PathAttrs>, others: &Option<Candidate>) -> Option<Addr>
    ensures { result ≡ better_of via own others.now }
{
    match (own, others) {
        (None, None) => None,
        (Some(attrs), None) => Some(attrs.hop()),
        (None, Some(other)) => Some(other.attrs.hop()),
        (Some(attrs), Some(other)) => {
            let is_own = attrs.path() < other.attrs.path()
                || (attrs.path() == other.attrs.path() && via < other.via);
            Some(if is_own {
                attrs.hop()
            } else {
                other.attrs.hop()
            })
        }
    }
}

/// A cut for each route of a peer that lies here, in the order of prefixes, then of path identifiers.
pub fn over_cuts(
    alloc: Global,
    paths: &BTreeMap<PathKey, Option<PathAttrs>>,
    peer: Peer,
) -> Result<Vec<Elem>, AllocError>
    ensures cuts { IfOk result (λ cuts. cuts.items ≡ cuts_in (paths_of peer paths.now.entries)) }
    ensures ordered { tree.IsOrdered key_cmp paths.now }
{
    let mut cuts = Vec::new(alloc);
    for (key, attrs) in paths.range(PathKey::first(&peer)..) {
        if peer != key.peer() {
            return Ok(cuts);
        }
        if attrs.is_some() {
            cuts.push(Elem::Cut(key.via(), key.prefix()))?;
        }
    }
    Ok(cuts)
}

/// Sets what is offered at a path key, which is there if anything is to be.
fn set_attrs(
    paths: &mut BTreeMap<PathKey, Option<PathAttrs>>,
    key: &PathKey,
    attrs: Option<PathAttrs>,
)
    requires { (o : PathAttrs) → attrs ≡ Some o → has_key paths.old.entries key.now ≡ true }
    ensures offers { (s : PathKey) → offered paths.new.entries s
        ≡ cond (is_eq (key_cmp key.now s)) attrs (offered paths.old.entries s) }
    ensures paths { (s : PathKey) → has_key paths.new.entries s
        ≡ cond (is_eq (key_cmp key.now s)) (is_some attrs) (has_key paths.old.entries s) }
{
    if attrs.is_none() {
        paths.remove(key);
    } else if let Some(place) = paths.get_mut(key) {
        *place = attrs;
    }
}

/// Carries out an elementary event for which there is room.
#[inline(never)]
pub fn carry_out(
    paths: &mut BTreeMap<PathKey, Option<PathAttrs>>,
    ranks: &mut BTreeSet<Rank>,
    elem: &Elem,
)
    requires { PathsAreKept paths.old.entries ranks.old.keys None (Some elem.now) }
    ensures offers { (s : PathKey) → offered paths.new.entries s
        ≡ cond (is_eq (key_cmp (key_in elem.now) s)) (attrs_in elem.now)
        (offered paths.old.entries s) }
    ensures kept { PathsAreKept paths.new.entries ranks.new.keys None None }
{
    let key = key_of(elem);
    let old = attrs_at(paths, &key);
    set_attrs(paths, &key, attrs_of(elem));
    if let Some(old) = old {
        prune_rank(paths, ranks, &key.rank(old.path()));
    }
}

/// Removes a rank that no offer has.
fn prune_rank(paths: &BTreeMap<PathKey, Option<PathAttrs>>, ranks: &mut BTreeSet<Rank>, rank: &Rank)
    ensures indexed { IsIndexed paths.now.entries ranks.old.keys
        → IsIndexed paths.now.entries ranks.new.keys }
    ensures serve { (held : Rank → Bool) → EachRankServes paths.now.entries ranks.old.keys
        (λ r. is_eq (rank_cmp rank.now r) || held r)
        → EachRankServes paths.now.entries ranks.new.keys held }
    ensures others { (r : Rank) → is_eq (rank_cmp rank.now r) ≡ false
        → has_rank ranks.new.keys r ≡ has_rank ranks.old.keys r }
{
    if attrs_ranked(paths, rank).is_none() {
        ranks.remove(rank);
    }
}

/// Removes a path key if nothing is offered there.
fn prune_key(paths: &mut BTreeMap<PathKey, Option<PathAttrs>>, key: &PathKey)
    ensures offers { (s : PathKey) → offered paths.new.entries s ≡ offered paths.old.entries s }
    ensures serve { (held : PathKey → Bool) → EachKeyServes paths.old.entries
        (λ s. is_eq (key_cmp key.now s) || held s) → EachKeyServes paths.new.entries held }
    ensures others { (s : PathKey) → is_eq (key_cmp key.now s) ≡ false
        → has_key paths.new.entries s ≡ has_key paths.old.entries s }
{
    if attrs_at(paths, key).is_none() {
        paths.remove(key);
    }
}

/// Whether the path key is held for the plan.
fn holds_key(plan: &Option<Elem>, key: &PathKey) -> bool
    ensures { result ≡ key_held plan.now key.now }
{
    match plan {
        Some(Elem::Put(via, prefix, _, _)) => PathKey::new(via, prefix) == *key,
        _ => false,
    }
}

/// Whether the rank is held for the plan.
fn holds_rank(plan: &Option<Elem>, rank: &Rank) -> bool
    ensures { result ≡ rank_held plan.now rank.now }
{
    match plan {
        Some(Elem::Put(via, prefix, path, _)) => PathKey::new(via, prefix).rank(*path) == *rank,
        _ => false,
    }
}

/// Gives back a rank of an earlier plan: removes it, but for an offer's and the plan's.
fn give_back_rank(
    paths: &BTreeMap<PathKey, Option<PathAttrs>>,
    ranks: &mut BTreeSet<Rank>,
    rank: &Rank,
    plan: &Option<Elem>,
)
    ensures indexed { IsIndexed paths.now.entries ranks.old.keys
        → IsIndexed paths.now.entries ranks.new.keys }
    ensures serve { EachRankServes paths.now.entries ranks.old.keys
        (λ r. is_eq (rank_cmp rank.now r) || rank_held plan.now r)
        → EachRankServes paths.now.entries ranks.new.keys (rank_held plan.now) }
    ensures room { OfferHasRoom paths.now.entries ranks.old.keys plan.now
        → OfferHasRoom paths.now.entries ranks.new.keys plan.now }
{
    if !holds_rank(plan, rank) {
        prune_rank(paths, ranks, rank);
    }
}

/// Gives back a path key of an earlier plan: removes it, unless something is offered there or it is held for the plan.
fn give_back_key(
    paths: &mut BTreeMap<PathKey, Option<PathAttrs>>,
    key: &PathKey,
    plan: &Option<Elem>,
)
    ensures offers { (s : PathKey) → offered paths.new.entries s ≡ offered paths.old.entries s }
    ensures serve { EachKeyServes paths.old.entries (λ s. is_eq (key_cmp key.now s)
        || key_held plan.now s) → EachKeyServes paths.new.entries (key_held plan.now) }
    ensures room { (ranks : List Rank) → OfferHasRoom paths.old.entries ranks plan.now
        → OfferHasRoom paths.new.entries ranks plan.now }
{
    if !holds_key(plan, key) {
        prune_key(paths, key);
    }
}

/// Gives back the room of an earlier plan.
pub fn give_back(
    paths: &mut BTreeMap<PathKey, Option<PathAttrs>>,
    ranks: &mut BTreeSet<Rank>,
    earlier: Option<Elem>,
    plan: &Option<Elem>,
)
    ensures offers { (s : PathKey) → offered paths.new.entries s ≡ offered paths.old.entries s }
    ensures kept { PathsAreKept paths.old.entries ranks.old.keys earlier plan.now
        → PathsAreKept paths.new.entries ranks.new.keys None plan.now }
{
    let Some(earlier) = earlier else {
        return;
    };
    if let Elem::Put(via, prefix, path, _) = earlier {
        let key = PathKey::new(&via, &prefix);
        give_back_rank(paths, ranks, &key.rank(path), plan);
        give_back_key(paths, &key, plan);
    }
}

/// Takes back a rank that was put, if it was new.
fn take_back(ranks: &mut BTreeSet<Rank>, rank: &Rank, is_new: bool)
    ensures { (r : Rank) → has_rank ranks.new.keys r ≡ cond
        (is_new && is_eq (rank_cmp rank.now r)) false (has_rank ranks.old.keys r) }
{
    if is_new {
        ranks.remove(rank);
    }
}

/// Makes room for a path key and a rank, if they aren't there. An `Err` leaves both as they were.
fn make_room(
    paths: &mut BTreeMap<PathKey, Option<PathAttrs>>,
    ranks: &mut BTreeSet<Rank>,
    key: &PathKey,
    rank: &Rank,
) -> Result<(), AllocError>
    ensures offers { (s : PathKey) → offered paths.new.entries s ≡ offered paths.old.entries s }
    ensures paths { OnOk result ((s : PathKey) → has_key paths.new.entries s
        ≡ cond (is_eq (key_cmp key.now s)) true (has_key paths.old.entries s)) }
    ensures ranks { OnOk result ((r : Rank) → has_rank ranks.new.keys r
        ≡ cond (is_eq (rank_cmp rank.now r)) true (has_rank ranks.old.keys r)) }
    ensures err_paths { OnErr result (paths.new.entries ≡ paths.old.entries) }
    ensures err_ranks { OnErr result ((r : Rank) → has_rank ranks.new.keys r
        ≡ has_rank ranks.old.keys r) }
{
    let is_new = ranks.insert(*rank)?;
    if paths.get(key).is_none() {
        match paths.insert(*key, None) {
            Ok(_) => {}
            Err(failed) => {
                take_back(ranks, rank, is_new);
                return Err(AllocError::from(failed));
            }
        }
    }
    Ok(())
}

/// Makes room for what an elementary event offers, beside that of the plan before it. An `Err` leaves all as it was.
#[inline(never)]
pub fn make_room_for(
    paths: &mut BTreeMap<PathKey, Option<PathAttrs>>,
    ranks: &mut BTreeSet<Rank>,
    elem: &Elem,
) -> Result<(), AllocError>
    ensures offers { (s : PathKey) → offered paths.new.entries s ≡ offered paths.old.entries s }
    ensures kept { OnOk result (KeepsBeside paths.old.entries ranks.old.keys paths.new.entries
        ranks.new.keys (Some elem.now)) }
    ensures err { OnErr result (StaysKept paths.old.entries ranks.old.keys paths.new.entries
        ranks.new.keys) }
{
    match *elem {
        Elem::Put(via, prefix, path, _) => {
            let key = PathKey::new(&via, &prefix);
            make_room(paths, ranks, &key, &key.rank(path))
        }
        Elem::Cut(_, _) => Ok(()),
    }
}

/// Offers something at a path key, beside the room of the plan. An `Err` leaves all as it was.
pub fn put_attrs(
    paths: &mut BTreeMap<PathKey, Option<PathAttrs>>,
    ranks: &mut BTreeSet<Rank>,
    key: &PathKey,
    attrs: PathAttrs,
) -> Result<(), AllocError>
    ensures ok { OnOk result ((s : PathKey) → offered paths.new.entries s
        ≡ cond (is_eq (key_cmp key.now s)) (Some attrs) (offered paths.old.entries s)) }
    ensures kept { OnOk result (KeepsBeside paths.old.entries ranks.old.keys paths.new.entries
        ranks.new.keys None) }
    ensures err_offers { OnErr result ((s : PathKey) → offered paths.new.entries s
        ≡ offered paths.old.entries s) }
    ensures err { OnErr result (StaysKept paths.old.entries ranks.old.keys paths.new.entries
        ranks.new.keys) }
{
    let rank = key.rank(attrs.path());
    let is_new = ranks.insert(rank)?;
    let old = match paths.insert(*key, Some(attrs)) {
        Ok(old) => old.flatten(),
        Err(failed) => {
            take_back(ranks, &rank, is_new);
            return Err(AllocError::from(failed));
        }
    };
    if let Some(old) = old {
        prune_rank(paths, ranks, &key.rank(old.path()));
    }
    Ok(())
}

/// Ends what is offered at a path key, beside the room of the plan.
pub fn cut_attrs(
    paths: &mut BTreeMap<PathKey, Option<PathAttrs>>,
    ranks: &mut BTreeSet<Rank>,
    key: &PathKey,
)
    ensures offers { (s : PathKey) → offered paths.new.entries s
        ≡ cond (is_eq (key_cmp key.now s)) None (offered paths.old.entries s) }
    ensures kept { KeepsBeside paths.old.entries ranks.old.keys paths.new.entries ranks.new.keys
        None }
{
    if let Some(old) = paths.remove(key).flatten() {
        prune_rank(paths, ranks, &key.rank(old.path()));
    }
}
