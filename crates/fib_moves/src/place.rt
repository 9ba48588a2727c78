//! A region with its node.

ghost use Rattle.std.specs.Prelude.{◌≡◌, ◌≢◌, ◌+◌, suc, true, false};
ghost use Rattle.table_model.specs.Width.{width};
ghost use Rattle.table_model.specs.Table.{root, half, inherit};
ghost use Rattle.orig_tree.specs.Walk.{behind};
ghost use Rattle.moves_model.specs.Demands.{is_bare};
ghost use Rattle.fib_moves.specs.Needs.{IsNodeOf};

use fib_addr::Prefix;
use orig_tree::{NodeRef, TreeRegion};

/// A region with its node in the tree, if it is one: below a region that is none no entry stands.
#[derive(Drop)]
pub struct Place<'a> {
    /// The region.
    pub region: TreeRegion<'a>,
    /// Its node.
    pub node: Option<NodeRef<'a>>,
}

fn half_node<'a>(node: &Option<NodeRef<'a>>, bit: bool) -> Option<NodeRef<'a>>
    ensures routes { (behind result).routes ≡ half bit (behind node.now).routes }
    ensures entries { (behind result).entries ≡ half bit (behind node.now).entries }
{
    match node {
        Some(node) => node.half(bit),
        None => None,
    }
}

impl<'a> Place<'a> {
    /// One half.
    pub fn half(&self, bit: bool) -> Place<'a>
        requires { self.now.region.bits ≢ 0 }
        ensures bits { suc result.region.bits ≡ self.now.region.bits }
        ensures routes { result.region.routes ≡ half bit self.now.region.routes }
        ensures entries { result.region.entries ≡ half bit self.now.region.entries }
        ensures hop { result.region.hop ≡ inherit (root self.now.region.routes) self.now.region.hop }
        ensures node { (behind result.node).entries ≡ half bit (behind self.now.node).entries }
        ensures node_routes { (behind result.node).routes ≡ half bit (behind self.now.node).routes }
    {
        Place {
            region: self.region.half(bit),
            node: half_node(&self.node, bit),
        }
    }

    /// Whether no node stands below its own, so that no old entry stands strictly within it.
    pub fn is_end(&self, prefix: &Prefix) -> bool
        requires bits { self.now.region.bits + prefix.now.len ≡ width prefix.now.family }
        requires place { IsNodeOf self.now }
        ensures end { result ≡ true → is_bare self.now.region.entries ≡ true }
        ensures more { result ≡ false → self.now.region.bits ≢ 0 }
    {
        if prefix.len == prefix.family.width() {
            return true;
        }
        self.node.is_none()
    }
}
