//! Changes of the tree's routes, which can be taken back.

ghost use Rattle.std.specs.Prelude.{◌≡◌, true, IfOk, OnOk, OnErr, option_map};
ghost use Rattle.std.specs.Option.{ForSome};
ghost use Rattle.std.specs.Map.{lookup};
ghost use Rattle.table_model.specs.Address.{same_prefix};
ghost use Rattle.orig_tree.specs.Views.{InPlace};
ghost use Rattle.orig_tree.specs.Walk.{has_node};
ghost use Rattle.fib_addr.specs.Views.{prefix_as};
ghost use Rattle.kept_model.specs.Patched.{with_route};
ghost use Rattle.smalta_keep.specs.Rooms.{KeepsEntries};
ghost use Rattle.smalta_keep.specs.Routes.{IsFormer, HasFormer, undone_in};
ghost use Rattle.smalta_keep.specs.Plans.{IsRouteSet};

use fib_addr::{Hop, Prefix};
use orig_tree::Tree;
use std::alloc::AllocError;

/// What a prefix had for a route.
#[derive(Clone, Copy, Debug, PartialEq, Eq)]
pub struct Former {
    /// The prefix.
    pub prefix: Prefix,
    /// The hop of its route, if it had one.
    pub hop: Option<Hop>,
}

/// Gives a prefix this route, or with `Hop::NONE` none.
pub fn set(tree: &mut Tree, prefix: &Prefix, hop: Hop) -> Result<(), AllocError>
    requires { prefix.now.family ≡ tree.old.family }
    ensures keeps { KeepsEntries tree.old tree.new }
    ensures routes { OnOk result (tree.new.routes
        ≡ with_route (prefix_as prefix.now) hop.0 tree.old.routes) }
    ensures before { has_node (prefix_as prefix.now).bits tree.old.nodes ≡ true
        → OnOk result (tree.new.before ≡ tree.old.routes) }
    ensures err { OnErr result (tree.new ≡ tree.old) }
{
    if hop == Hop::NONE {
        tree.clear_route(prefix)?;
    } else {
        tree.set_route(prefix, hop)?;
    }
    Ok(())
}

/// Gives a prefix this route, or with `Hop::NONE` none, and returns the hop of the route that it had, if any.
fn exchange(tree: &mut Tree, prefix: &Prefix, hop: Hop) -> Result<Option<Hop>, AllocError>
    requires { prefix.now.family ≡ tree.old.family }
    ensures keeps { KeepsEntries tree.old tree.new }
    ensures order { InPlace tree.old.routes }
    ensures former { IfOk result (λ had. option_map (λ h. h.0) had
        ≡ lookup (same_prefix (prefix_as prefix.now)) tree.old.routes) }
    ensures routes { OnOk result (tree.new.routes
        ≡ with_route (prefix_as prefix.now) hop.0 tree.old.routes) }
    ensures before { OnOk result (tree.new.before ≡ tree.old.routes) }
    ensures node { OnOk result (has_node (prefix_as prefix.now).bits tree.new.nodes ≡ true) }
    ensures err { OnErr result (tree.new.routes ≡ tree.old.routes) }
{
    if hop == Hop::NONE {
        let had = tree.replace_route(prefix, None)?;
        Ok(had)
    } else {
        let had = tree.replace_route(prefix, Some(hop))?;
        Ok(had)
    }
}

/// The same; what the prefix had is returned, and can be put back.
fn replace(tree: &mut Tree, prefix: &Prefix, hop: Hop) -> Result<Former, AllocError>
    requires { prefix.now.family ≡ tree.old.family }
    ensures keeps { KeepsEntries tree.old tree.new }
    ensures routes { OnOk result (tree.new.routes
        ≡ with_route (prefix_as prefix.now) hop.0 tree.old.routes) }
    ensures former { IfOk result (λ f. IsFormer f tree.old tree.new) }
    ensures at { IfOk result (λ f. f.prefix ≡ prefix.now) }
    ensures node { OnOk result (has_node (prefix_as prefix.now).bits tree.new.nodes ≡ true) }
    ensures err { OnErr result (tree.new.routes ≡ tree.old.routes) }
{
    let had = exchange(tree, prefix, hop)?;
    Ok(Former {
        prefix: *prefix,
        hop: had,
    })
}

/// Sets a plan's route, if it has one.
pub fn set_planned(
    tree: &mut Tree,
    route: Option<(Prefix, Hop)>,
) -> Result<Option<Former>, AllocError>
    requires { ForSome route (λ r. r.0.family ≡ tree.old.family) }
    ensures keeps { KeepsEntries tree.old tree.new }
    ensures set { IfOk result (IsRouteSet route tree.old.routes tree.new) }
    ensures err { OnErr result (tree.new.routes ≡ tree.old.routes) }
{
    match route {
        Some((prefix, hop)) => Ok(Some(replace(tree, &prefix, hop)?)),
        None => Ok(None),
    }
}

/// Puts back what a plan's prefix had for a route, if it had set one. It takes no memory.
pub fn put_back_planned(tree: &mut Tree, former: &Option<Former>)
    requires { HasFormer tree.old former.now }
    ensures keeps { KeepsEntries tree.old tree.new }
    ensures routes { tree.new.routes ≡ undone_in former.now tree.old.routes }
{
    if former.is_some() {
        tree.put_back();
    }
}

/// The prefix of a plan's route.
pub fn planned_prefix(route: Option<(Prefix, Hop)>) -> Option<Prefix>
    ensures { result ≡ option_map (λ r. r.0) route }
{
    match route {
        Some((prefix, _)) => Some(prefix),
        None => None,
    }
}

/// Whether a plan takes its prefix's route away.
pub fn clears(route: Option<(Prefix, Hop)>) -> bool {
    match route {
        Some((_, hop)) => hop == Hop::NONE,
        None => false,
    }
}

/// The prefix of the route that a plan set.
pub fn former_prefix(former: &Option<Former>) -> Option<Prefix>
    ensures { result ≡ option_map (λ f. f.prefix) former.now }
{
    match former {
        Some(former) => Some(former.prefix),
        None => None,
    }
}
