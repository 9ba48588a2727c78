//! Steps over the base and the ordered maps together. A path key for which the maps have an offer has no slot in the base.

ghost use Rattle.std.specs.Prelude.{◌≡◌, true, false, Some, None, MatchOption, IfOk, OnOk, OnErr};
ghost use Rattle.adj_rib_in.specs.Paths.{held_in, attrs_at as offered};
ghost use Rattle.adj_rib_in.specs.Flat.{IsFlat, ShareNoKey, Offers, SameOffers, HasNoKey, IsRowPlace, IsSlotOf, Grows, flat_paths, paths_over};
ghost use Rattle.adj_rib_in.specs.Bests.{IsBestHeld};
ghost use Rattle.route_choice.specs.Paths.{IsIndexed, key_in, attrs_in};
ghost use Rattle.route_choice.specs.Kept.{PathsAreKept, StaysKept, KeepsBeside};
ghost use Rattle.fib_prefix.specs.Views.{elem_as};
ghost use Rattle.route_choice.specs.Held.{IsChoice};
ghost use Rattle.route_choice.specs.Space.{HasPlace, HasHopNumber, HasSpace, HasSpaceAt, over_in, over_of as over};

use crate::choice::Choice;
use crate::over::{
    attrs_at, attrs_of, best_but, better_hop, carry_out, cut_attrs, key_of, make_room_for,
    put_attrs,
};
use crate::plan::{Plan, Spot};
use adj_rib_in::{Candidate, Flat, PathAttrs, PathKey, Rank};
use fib_prefix::{Addr, Elem, Prefix, Via};
use std::alloc::AllocError;
use std::collections::{BTreeMap, BTreeSet};

/// Where a path key lies in the base.
pub fn spot_of(flat: &Flat, key: &PathKey) -> Spot
    requires { IsFlat flat.now }
    ensures { MatchOption result.at (HasNoKey flat.now key.now) (IsSlotOf flat.now key.now) }
{
    match flat.row_of(&key.prefix()) {
        Some(row) => Spot {
            at: flat.find_in(row, key),
            row,
        },
        None => Spot { at: None, row: 0 },
    }
}

/// What is offered at a path key, whose slot has this place, if it has one.
fn offered_by(
    flat: &Flat,
    paths: &BTreeMap<PathKey, Option<PathAttrs>>,
    at: Option<usize>,
    key: &PathKey,
) -> Option<PathAttrs>
    requires flat { IsFlat flat.now }
    requires place { MatchOption at (HasNoKey flat.now key.now) (IsSlotOf flat.now key.now) }
    ensures { result ≡ offered (paths_over flat.now paths.now.entries) key.now }
{
    match at {
        Some(at) => flat.attrs_at(at, key),
        None => attrs_at(paths, key),
    }
}

/// The preferred route for a prefix, that of a path source left out.
pub fn best_of(
    flat: &Flat,
    paths: &BTreeMap<PathKey, Option<PathAttrs>>,
    ranks: &BTreeSet<Rank>,
    prefix: &Prefix,
    but: Option<Via>,
) -> Option<Candidate>
    requires flat { IsFlat flat.now }
    requires apart { ShareNoKey (flat_paths flat.now) paths.now.entries }
    requires indexed { IsIndexed paths.now.entries ranks.now.keys }
    ensures { IsBestHeld (paths_over flat.now paths.now.entries) but prefix.now result }
{
    let other = best_but(paths, ranks, prefix, but);
    flat.best(prefix, but, other)
}

/// The preferred route for the prefix of a row.
pub fn best_of_row(
    flat: &Flat,
    paths: &BTreeMap<PathKey, Option<PathAttrs>>,
    ranks: &BTreeSet<Rank>,
    row: usize,
    prefix: &Prefix,
) -> Option<Candidate>
    requires flat { IsFlat flat.now }
    requires apart { ShareNoKey (flat_paths flat.now) paths.now.entries }
    requires indexed { IsIndexed paths.now.entries ranks.now.keys }
    requires row { IsRowPlace flat.now.rows.items prefix.now row }
    ensures { IsBestHeld (paths_over flat.now paths.now.entries) None prefix.now result }
{
    let other = best_but(paths, ranks, prefix, None);
    flat.best_in(row, prefix, None, other)
}

/// The preferred route for the prefix of a path key, that of the path key's path source left out, by a guess at the prefix's row.
fn best_beside(
    flat: &Flat,
    paths: &BTreeMap<PathKey, Option<PathAttrs>>,
    ranks: &BTreeSet<Rank>,
    near: usize,
    key: &PathKey,
) -> Option<Candidate>
    requires flat { IsFlat flat.now }
    requires apart { ShareNoKey (flat_paths flat.now) paths.now.entries }
    requires indexed { IsIndexed paths.now.entries ranks.now.keys }
    ensures { IsBestHeld (paths_over flat.now paths.now.entries) (Some key.now.via) key.now.prefix result }
{
    let prefix = key.prefix();
    let but = Some(key.via());
    let other = best_but(paths, ranks, &prefix, but);
    flat.best_near(near, &prefix, but, other)
}

/// The choice that an elementary event at a path key would make, by where that lies.
pub fn choice_of(
    flat: &Flat,
    paths: &BTreeMap<PathKey, Option<PathAttrs>>,
    ranks: &BTreeSet<Rank>,
    elem: &Elem,
    key: &PathKey,
    spot: Spot,
) -> Choice
    requires flat { IsFlat flat.now }
    requires apart { ShareNoKey (flat_paths flat.now) paths.now.entries }
    requires indexed { IsIndexed paths.now.entries ranks.now.keys }
    requires key { key.now ≡ key_in elem.now }
    requires spot { MatchOption spot.at (HasNoKey flat.now key.now) (IsSlotOf flat.now key.now) }
    ensures { IsChoice (held_in (paths_over flat.now paths.now.entries)) (elem_as elem.now) result }
{
    let via = key.via();
    let own = offered_by(flat, paths, spot.at, key);
    let others = best_beside(flat, paths, ranks, spot.row, key);
    Choice {
        prefix: key.prefix(),
        before: better_hop(via, own, &others),
        after: better_hop(via, attrs_of(elem), &others),
    }
}

/// Makes room for an elementary event, beside that of the plan before it; `at` is the place of its path key's slot, if it has one.
/// An `Err` leaves all as it was.
pub fn make_space(
    flat: &mut Flat,
    paths: &mut BTreeMap<PathKey, Option<PathAttrs>>,
    ranks: &mut BTreeSet<Rank>,
    elem: &Elem,
    at: Option<usize>,
) -> Result<(), AllocError>
    requires flat { IsFlat flat.old }
    requires place { HasPlace flat.old at elem.now }
    ensures flat { IsFlat flat.new }
    ensures base { flat_paths flat.new ≡ flat_paths flat.old }
    ensures grows { Grows flat.old flat.new }
    ensures offers { SameOffers paths.old.entries paths.new.entries }
    ensures kept { OnOk result (KeepsBeside paths.old.entries ranks.old.keys paths.new.entries
        ranks.new.keys (over_in at elem.now)) }
    ensures space { OnOk result (HasSpaceAt flat.new at elem.now) }
    ensures err { OnErr result (StaysKept paths.old.entries ranks.old.keys paths.new.entries
        ranks.new.keys) }
{
    match at {
        Some(_) => {
            number_attrs(flat, elem)?;
            Ok(())
        }
        None => make_room_for(paths, ranks, elem),
    }
}

/// Gives the hop of what an elementary event offers a number.
fn number_attrs(flat: &mut Flat, elem: &Elem) -> Result<(), AllocError>
    requires { IsFlat flat.old }
    ensures flat { IsFlat flat.new }
    ensures base { flat_paths flat.new ≡ flat_paths flat.old }
    ensures grows { Grows flat.old flat.new }
    ensures number { OnOk result (HasHopNumber flat.new elem.now) }
{
    if let Some(attrs) = attrs_of(elem) {
        flat.number_hop(&attrs.hop())?;
    }
    Ok(())
}

/// Carries out what was planned. Takes no memory.
pub fn carry_one(
    flat: &mut Flat,
    paths: &mut BTreeMap<PathKey, Option<PathAttrs>>,
    ranks: &mut BTreeSet<Rank>,
    plan: &Plan,
)
    requires flat { IsFlat flat.old }
    requires apart { ShareNoKey (flat_paths flat.old) paths.old.entries }
    requires kept { PathsAreKept paths.old.entries ranks.old.keys None (over (Some plan.now)) }
    requires space { HasSpace flat.old (Some plan.now) }
    ensures flat { IsFlat flat.new }
    ensures apart { ShareNoKey (flat_paths flat.new) paths.new.entries }
    ensures kept { PathsAreKept paths.new.entries ranks.new.keys None None }
    ensures offers { Offers (paths_over flat.old paths.old.entries) (paths_over flat.new paths.new.entries)
        (key_in plan.now.elem) (attrs_in plan.now.elem) }
{
    match plan.at {
        Some(at) => carry_flat(flat, paths, at, &plan.elem),
        None => carry_out(paths, ranks, &plan.elem),
    }
}

/// Carries out an elementary event about a path key that has a slot.
fn carry_flat(flat: &mut Flat, paths: &BTreeMap<PathKey, Option<PathAttrs>>, at: usize, elem: &Elem)
    requires flat { IsFlat flat.old }
    requires apart { ShareNoKey (flat_paths flat.old) paths.now.entries }
    requires slot { IsSlotOf flat.old (key_in elem.now) at }
    requires number { HasHopNumber flat.old elem.now }
    ensures flat { IsFlat flat.new }
    ensures apart { ShareNoKey (flat_paths flat.new) paths.now.entries }
    ensures offers { Offers (paths_over flat.old paths.now.entries) (paths_over flat.new paths.now.entries)
        (key_in elem.now) (attrs_in elem.now) }
{
    let key = key_of(elem);
    match attrs_of(elem) {
        Some(attrs) => flat.reoffer(at, &key, &attrs),
        None => flat.cut_at(at, &key),
    }
}

/// Offers what an elementary event does, or ends what is offered there, beside the room of the plan. An `Err` leaves all as
/// it was.
pub fn load_elem(
    flat: &mut Flat,
    paths: &mut BTreeMap<PathKey, Option<PathAttrs>>,
    ranks: &mut BTreeSet<Rank>,
    elem: &Elem,
) -> Result<(), AllocError>
    requires flat { IsFlat flat.old }
    requires apart { ShareNoKey (flat_paths flat.old) paths.old.entries }
    ensures flat { IsFlat flat.new }
    ensures apart { ShareNoKey (flat_paths flat.new) paths.new.entries }
    ensures ok { OnOk result (Offers (paths_over flat.old paths.old.entries)
        (paths_over flat.new paths.new.entries) (key_in elem.now) (attrs_in elem.now)) }
    ensures kept { OnOk result (KeepsBeside paths.old.entries ranks.old.keys paths.new.entries
        ranks.new.keys None) }
    ensures err_base { OnErr result (flat_paths flat.new ≡ flat_paths flat.old) }
    ensures err_grows { OnErr result (Grows flat.old flat.new) }
    ensures err_offers { OnErr result (SameOffers paths.old.entries paths.new.entries) }
    ensures err { OnErr result (StaysKept paths.old.entries ranks.old.keys paths.new.entries
        ranks.new.keys) }
{
    match elem {
        Elem::Put(via, prefix, path, hop) => {
            put_route(flat, paths, ranks, via, prefix, *path, hop)?
        }
        Elem::Cut(via, prefix) => cut_one(flat, paths, ranks, &PathKey::new(via, prefix)),
    }
    Ok(())
}

/// Offers a route, beside the room of the plan: after all others of the base, if its place is there, without a search. An `Err`
/// leaves all as it was.
pub fn put_route(
    flat: &mut Flat,
    paths: &mut BTreeMap<PathKey, Option<PathAttrs>>,
    ranks: &mut BTreeSet<Rank>,
    via: &Via,
    prefix: &Prefix,
    path: u32,
    hop: &Addr,
) -> Result<(), AllocError>
    requires flat { IsFlat flat.old }
    requires apart { ShareNoKey (flat_paths flat.old) paths.old.entries }
    ensures flat { IsFlat flat.new }
    ensures apart { ShareNoKey (flat_paths flat.new) paths.new.entries }
    ensures ok { OnOk result (Offers (paths_over flat.old paths.old.entries)
        (paths_over flat.new paths.new.entries) (record { via = via.now; prefix = prefix.now })
        (Some (record { path = path; hop = hop.now }))) }
    ensures kept { OnOk result (KeepsBeside paths.old.entries ranks.old.keys paths.new.entries
        ranks.new.keys None) }
    ensures err_base { OnErr result (flat_paths flat.new ≡ flat_paths flat.old) }
    ensures err_grows { OnErr result (Grows flat.old flat.new) }
    ensures err_offers { OnErr result (SameOffers paths.old.entries paths.new.entries) }
    ensures err { OnErr result (StaysKept paths.old.entries ranks.old.keys paths.new.entries
        ranks.new.keys) }
{
    if put_behind(flat, paths, via, prefix, path, hop)? {
        return Ok(());
    }
    put_one(
        flat,
        paths,
        ranks,
        &PathKey::new(via, prefix),
        PathAttrs::new(path, hop),
    )?;
    Ok(())
}

/// Offers something at a path key, beside the room of the plan. An `Err` leaves all as it was.
fn put_one(
    flat: &mut Flat,
    paths: &mut BTreeMap<PathKey, Option<PathAttrs>>,
    ranks: &mut BTreeSet<Rank>,
    key: &PathKey,
    attrs: PathAttrs,
) -> Result<(), AllocError>
    requires flat { IsFlat flat.old }
    requires apart { ShareNoKey (flat_paths flat.old) paths.old.entries }
    ensures flat { IsFlat flat.new }
    ensures apart { ShareNoKey (flat_paths flat.new) paths.new.entries }
    ensures ok { OnOk result (Offers (paths_over flat.old paths.old.entries)
        (paths_over flat.new paths.new.entries) key.now (Some attrs)) }
    ensures kept { OnOk result (KeepsBeside paths.old.entries ranks.old.keys paths.new.entries
        ranks.new.keys None) }
    ensures err_base { OnErr result (flat_paths flat.new ≡ flat_paths flat.old) }
    ensures err_grows { OnErr result (Grows flat.old flat.new) }
    ensures err_offers { OnErr result (SameOffers paths.old.entries paths.new.entries) }
    ensures err { OnErr result (StaysKept paths.old.entries ranks.old.keys paths.new.entries
        ranks.new.keys) }
{
    match flat.find(key) {
        Some(at) => {
            flat.attrs_to(at, key, &attrs)?;
            Ok(())
        }
        None => {
            put_attrs(paths, ranks, key, attrs)?;
            Ok(())
        }
    }
}

/// Offers a route after all slots, if its place is there and the maps have no offer of its path source for its prefix; and
/// returns whether it did.
fn put_behind(
    flat: &mut Flat,
    paths: &BTreeMap<PathKey, Option<PathAttrs>>,
    via: &Via,
    prefix: &Prefix,
    path: u32,
    hop: &Addr,
) -> Result<bool, AllocError>
    requires flat { IsFlat flat.old }
    requires apart { ShareNoKey (flat_paths flat.old) paths.now.entries }
    ensures flat { IsFlat flat.new }
    ensures apart { ShareNoKey (flat_paths flat.new) paths.now.entries }
    ensures yes { IfOk result (λ b. b ≡ true → Offers (paths_over flat.old paths.now.entries)
        (paths_over flat.new paths.now.entries) (record { via = via.now; prefix = prefix.now })
        (Some (record { path = path; hop = hop.now }))) }
    ensures no { IfOk result (λ b. b ≡ false → flat_paths flat.new ≡ flat_paths flat.old) }
    ensures err { OnErr result (flat_paths flat.new ≡ flat_paths flat.old) }
    ensures grows { Grows flat.old flat.new }
{
    if has_attrs(paths, via, prefix) {
        return Ok(false);
    }
    let put = flat.put_behind(via, prefix, path, hop)?;
    Ok(put)
}

/// Whether the maps have an offer of a path source for a prefix. If they are empty no path key is made.
fn has_attrs(paths: &BTreeMap<PathKey, Option<PathAttrs>>, via: &Via, prefix: &Prefix) -> bool
    ensures { result ≡ false → offered paths.now.entries (record { via = via.now; prefix = prefix.now }) ≡ None }
{
    if paths.is_empty() {
        return false;
    }
    attrs_at(paths, &PathKey::new(via, prefix)).is_some()
}

/// Ends what is offered at a path key, beside the room of the plan.
fn cut_one(
    flat: &mut Flat,
    paths: &mut BTreeMap<PathKey, Option<PathAttrs>>,
    ranks: &mut BTreeSet<Rank>,
    key: &PathKey,
)
    requires flat { IsFlat flat.old }
    requires apart { ShareNoKey (flat_paths flat.old) paths.old.entries }
    ensures flat { IsFlat flat.new }
    ensures apart { ShareNoKey (flat_paths flat.new) paths.new.entries }
    ensures offers { Offers (paths_over flat.old paths.old.entries) (paths_over flat.new paths.new.entries)
        key.now None }
    ensures kept { KeepsBeside paths.old.entries ranks.old.keys paths.new.entries ranks.new.keys
        None }
{
    match flat.find(key) {
        Some(at) => flat.cut_at(at, key),
        None => cut_attrs(paths, ranks, key),
    }
}
