//! The prefix of a plan, which is held as one that counts as wide dirty until the plan's changes are made.
//!
//! To mark it wide, and then wide no more, would take walks of its own for each, with all covers above it. So a plan that no
//! snapshot follows marks its prefix once, and not wide; the prefix stands beside the dirty prefixes meanwhile. What ends a plan
//! in another way than by making its changes marks it wide.

ghost use Rattle.std.specs.Prelude.{◌≡◌, true, false, option_map};
ghost use Rattle.std.specs.Option.{ForSome};
ghost use Rattle.fib_addr.specs.Views.{prefix_as};
ghost use Rattle.smalta_keep.specs.Known.{IsOfFamily, AreNoted, AreLeftHeld, held_place};

use crate::dirty::{DirtySet, is_whole};
use fib_addr::{Family, Prefix};
use std::alloc::Global;

/// The prefix that is held once a plan is made: the plan's own, unless a snapshot follows or the changes are to be the fewest.
pub fn prefix_held(at: Option<Prefix>, snapshot: bool, fewest: bool) -> Option<Prefix>
    ensures { result ≡ held_place snapshot fewest at }
{
    if snapshot || fewest { None } else { at }
}

/// Marks what a plan that no snapshot follows is to change: its prefix, if it has one, which is held; or, if the changes are to be
/// the fewest, the prefix and what they reach, both wide.
pub fn note(dirty: &mut DirtySet, at: Option<Prefix>, reach: Option<Prefix>, fewest: bool)
    requires at { ForSome at (λ p. IsOfFamily p.family dirty.old.tree) }
    requires reach { ForSome reach (λ p. IsOfFamily p.family dirty.old.tree) }
    ensures { AreNoted false fewest (option_map prefix_as at) dirty.old.tree dirty.new.tree }
{
    if fewest {
        dirty.keep(at);
        dirty.keep(reach);
        return;
    }
    dirty.ease(at);
}

/// Whether both are one prefix, or there is none.
fn is_same(held: Option<Prefix>, at: Option<Prefix>) -> bool
    ensures { result ≡ true → option_map prefix_as held ≡ option_map prefix_as at }
{
    match held {
        Some(held) => at == Some(held),
        None => at.is_none(),
    }
}

/// Whether a plan's changes are those of a repair at the held prefix, which isn't the whole space.
fn is_made(held: Option<Prefix>, snapshot: bool, fewest: bool, at: Option<Prefix>) -> bool
    ensures snapshot { result ≡ true → snapshot ≡ false }
    ensures fewest { result ≡ true → fewest ≡ false }
    ensures held { result ≡ true → option_map prefix_as held ≡ option_map prefix_as at }
{
    if snapshot || fewest || is_whole(at) {
        return false;
    }
    is_same(held, at)
}

/// What is dirty once a plan's changes are made, with this prefix held: if they are those of a repair there, it is as it was
/// marked; else the held one is marked wide first.
pub fn leave(
    dirty: &mut DirtySet,
    held: Option<Prefix>,
    alloc: Global,
    family: Family,
    snapshot: bool,
    fewest: bool,
    at: Option<Prefix>,
)
    requires held { ForSome held (λ p. IsOfFamily p.family dirty.old.tree) }
    requires at { ForSome at (λ p. IsOfFamily p.family dirty.old.tree) }
    ensures { AreLeftHeld snapshot fewest family (option_map prefix_as at) (option_map prefix_as held)
        dirty.old.tree dirty.new.tree }
{
    if is_made(held, snapshot, fewest, at) {
        return;
    }
    dirty.keep(held);
    dirty.leave(alloc, family, snapshot, fewest, at);
}
