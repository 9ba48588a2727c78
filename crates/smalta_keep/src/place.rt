//! A region on the way down, beside its nodes in the tree and in the tree of dirty prefixes.

ghost use Rattle.std.specs.Prelude.{◌≡◌, ◌≢◌, ◌+◌, ◌||◌, ◌≤◌, suc, [], true, false, is_some, Bool};
ghost use Rattle.table_model.specs.Bits.{bits_of};
ghost use Rattle.table_model.specs.Width.{width};
ghost use Rattle.table_model.specs.Table.{IsTable, root, half, inherit, cut};
ghost use Rattle.table_model.specs.Entries.{of_family};
ghost use Rattle.table_model.specs.Regions.{above};
ghost use Rattle.fib_addr.specs.Views.{prefix_as};
ghost use Rattle.kept_model.specs.Parts.{HasNoHalves};
ghost use Rattle.kept_model.specs.Stays.{is_wide_mark, NoneAround};
ghost use Rattle.orig_tree.specs.Spots.{spot_answers};
ghost use Rattle.orig_tree.specs.Walk.{behind};
ghost use Rattle.smalta_keep.specs.Places.{half_rerouted, IsSheltered, IsUnmarked, IsClear, IsHalfClear};

use fib_addr::{Prefix, bit_at};
use orig_tree::{Label, NodeRef, Tree, TreeRegion, path_bits};

/// Where the routes differ from those for which the table's entries are known to stay.
#[derive(Clone, Copy)]
pub enum Rerouted {
    /// Nowhere.
    Nowhere,
    /// At the region's own prefix.
    Here,
    /// At a prefix that the region is strictly within: it may inherit another hop from the routes.
    Above,
}

/// A region on the way down.
#[derive(Drop)]
pub struct Place<'a> {
    pub region: TreeRegion<'a>,
    /// Its node in the tree, if it is one.
    pub node: Option<NodeRef<'a>>,
    /// Its node in the tree of dirty prefixes, if it is one.
    pub dirty: Option<NodeRef<'a>>,
    /// Whether it may be strictly within a wide dirty prefix.
    pub marked: bool,
    /// Where the routes differ.
    pub rerouted: Rerouted,
}

/// The node of a prefix, if it is one.
#[derive(Drop)]
pub struct Found<'a> {
    pub node: Option<NodeRef<'a>>,
    /// Whether there may be a wide dirty prefix on the way to it.
    pub marked: bool,
}

/// The node of one half, if there is one.
fn half_of<'a>(node: &Option<NodeRef<'a>>, bit: bool) -> Option<NodeRef<'a>>
    ensures routes { (behind result).routes ≡ half bit (behind node.now).routes }
    ensures entries { (behind result).entries ≡ half bit (behind node.now).entries }
{
    match node {
        Some(node) => node.half(bit),
        None => None,
    }
}

/// Whether there is a wide dirty prefix at a node.
fn is_wide(node: &NodeRef<'_>) -> bool
    ensures { result ≡ is_wide_mark (root node.now.entries) }
{
    match node.hop(Label::Entry) {
        Some(hop) => hop != 0,
        None => false,
    }
}

/// Whether a wide dirty prefix was met, or there is one at a node.
fn meets(node: &NodeRef<'_>, met: bool) -> bool
    ensures { result ≡ (met || is_wide_mark (root node.now.entries)) }
{
    met || is_wide(node)
}

/// Whether there is a wide dirty prefix at the node, if it is one.
fn has_wide(node: &Option<NodeRef<'_>>) -> bool
    ensures { result ≡ is_wide_mark (root (behind node.now).entries) }
{
    match node {
        Some(node) => is_wide(node),
        None => false,
    }
}

/// Whether a wide dirty prefix was met, or there is one at the node, if it is one.
fn meets_wide(node: &Option<NodeRef<'_>>, met: bool) -> bool
    ensures { result ≡ (met || is_wide_mark (root (behind node.now).entries)) }
{
    met || has_wide(node)
}

/// Whether there is a route at the node, if it is one.
fn has_route(node: &Option<NodeRef<'_>>) -> bool
    ensures { result ≡ is_some (root (behind node.now).routes) }
{
    match node {
        Some(node) => node.hop(Label::Route).is_some(),
        None => false,
    }
}

/// Whether a half of the node, if it is one, is no node.
fn lacks(node: &Option<NodeRef<'_>>, bit: bool) -> bool
    ensures { result ≡ true → half bit (behind node.now).entries ≡ [] }
{
    match half_of(node, bit) {
        Some(_) => false,
        None => true,
    }
}

/// Whether no half of the node, if it is one, is a node.
fn is_last(node: &Option<NodeRef<'_>>) -> bool
    ensures { result ≡ true → (bit : Bool) → half bit (behind node.now).entries ≡ [] }
{
    if lacks(node, false) {
        return lacks(node, true);
    }
    false
}

/// Whether the node, if it is one, has no wide dirty prefix, and there is no dirty prefix below it.
fn is_unmarked(node: &Option<NodeRef<'_>>) -> bool
    ensures { result ≡ true → IsUnmarked (behind node.now).entries }
{
    if has_wide(node) {
        return false;
    }
    is_last(node)
}

/// The node of a path of `left` bits below a node, if it is one, and whether a wide dirty prefix is on the way to it, or already was.
/// It ends at the last node on the way.
fn seek_below<'a>(mut node: NodeRef<'a>, q: u128, mut left: u8, mut marked: bool) -> Found<'a>
    requires { left ≤ 128 }
    ensures routes { (behind result.node).routes ≡ cut (bits_of left q) node.entry.routes }
    ensures entries { (behind result.node).entries ≡ cut (bits_of left q) node.entry.entries }
    ensures marked { result.marked ≡ false
        → (marked ≡ false) × NoneAround (bits_of left q) node.entry.entries }
{
    while left > 0 {
        left -= 1;
        marked = meets(&node, marked);
        match node.half(bit_at(q, left)) {
            Some(next) => node = next,
            None => return Found { node: None, marked },
        }
    }
    Found {
        node: Some(node),
        marked,
    }
}

/// The same below a node, if it is one.
pub fn seek<'a>(node: Option<NodeRef<'a>>, q: u128, left: u8, marked: bool) -> Found<'a>
    requires { left ≤ 128 }
    ensures routes { (behind result.node).routes ≡ cut (bits_of left q) (behind node.entry).routes }
    ensures entries { (behind result.node).entries ≡ cut (bits_of left q) (behind node.entry).entries }
    ensures marked { result.marked ≡ false
        → (marked ≡ false) × NoneAround (bits_of left q) (behind node.entry).entries }
{
    match node {
        Some(node) => seek_below(node, q, left, marked),
        None => Found { node: None, marked },
    }
}

/// Where a way down a tree ends.
#[derive(Drop)]
pub struct WayEnd<'a> {
    /// The node at the end of the way, if it is one.
    pub node: Option<NodeRef<'a>>,
    /// The hop of the longest entry that the end of the way is strictly within, or none.
    pub hop: u16,
}

/// The end of a path of `left` bits below a node. It costs the nodes on the way.
fn walk<'a>(mut node: NodeRef<'a>, q: u128, mut left: u8) -> WayEnd<'a>
    requires { left ≤ 128 }
    ensures routes { (behind result.node).routes ≡ cut (bits_of left q) node.entry.routes }
    ensures entries { (behind result.node).entries ≡ cut (bits_of left q) node.entry.entries }
    ensures hop { result.hop ≡ above (bits_of left q) node.entry.entries 0 }
{
    let mut hop = 0;
    while left > 0 {
        left -= 1;
        hop = node.hop(Label::Entry).unwrap_or(hop);
        match node.half(bit_at(q, left)) {
            Some(next) => node = next,
            None => return WayEnd { node: None, hop },
        }
    }
    WayEnd {
        node: Some(node),
        hop,
    }
}

/// The node of a prefix in a tree, if it is one, and what the prefix inherits from the entries above it, in one walk.
pub fn walk_to<'a>(tree: &'a Tree, prefix: &Prefix) -> WayEnd<'a>
    requires { prefix.now.family ≡ tree.now.family }
    ensures entries { (behind result.node).entries ≡ cut (prefix_as prefix.now).bits
        (of_family tree.now.family tree.now.entries) }
    ensures routes { (behind result.node).routes ≡ cut (prefix_as prefix.now).bits
        (of_family tree.now.family tree.now.routes) }
    ensures hop { result.hop ≡ above (prefix_as prefix.now).bits
        (of_family tree.now.family tree.now.entries) 0 }
{
    walk(tree.root(), path_bits(prefix), prefix.len)
}

/// The node of a prefix in a tree, if it is one.
pub fn node_at<'a>(tree: &'a Tree, prefix: &Prefix) -> Option<NodeRef<'a>>
    requires { prefix.now.family ≡ tree.now.family }
    ensures entries { (behind result).entries ≡ cut (prefix_as prefix.now).bits
        (of_family tree.now.family tree.now.entries) }
    ensures routes { (behind result).routes ≡ cut (prefix_as prefix.now).bits
        (of_family tree.now.family tree.now.routes) }
{
    walk_to(tree, prefix).node
}

impl Rerouted {
    /// The same of a half.
    fn half(self) -> Rerouted
        ensures { result ≡ half_rerouted self }
    {
        match self {
            Rerouted::Nowhere => Rerouted::Nowhere,
            Rerouted::Here => Rerouted::Above,
            Rerouted::Above => Rerouted::Above,
        }
    }
}

impl<'a> Place<'a> {
    /// One half.
    pub fn half(&self, bit: bool) -> Place<'a>
        requires { self.now.region.bits ≢ 0 }
        ensures bits { suc result.region.bits ≡ self.now.region.bits }
        ensures routes { result.region.routes ≡ half bit self.now.region.routes }
        ensures entries { result.region.entries ≡ half bit self.now.region.entries }
        ensures hop { result.region.hop ≡ inherit (root self.now.region.routes) self.now.region.hop }
        ensures paths { (behind result.node).routes ≡ half bit (behind self.now.node).routes }
        ensures node { (behind result.node).entries ≡ half bit (behind self.now.node).entries }
        ensures dirty { (behind result.dirty).entries ≡ half bit (behind self.now.dirty).entries }
        ensures marked { result.marked ≡ (self.now.marked
            || is_wide_mark (root (behind self.now.dirty).entries)) }
        ensures rerouted { result.rerouted ≡ half_rerouted self.now.rerouted }
    {
        Place {
            region: self.region.half(bit),
            node: half_of(&self.node, bit),
            dirty: half_of(&self.dirty, bit),
            marked: meets_wide(&self.dirty, self.marked),
            rerouted: self.rerouted.half(),
        }
    }

    /// Whether the region gets the hops from the routes that it got, whatever it inherits.
    fn is_sheltered(&self) -> bool
        ensures { result ≡ true → IsSheltered self.now.rerouted (behind self.now.node).routes }
    {
        match self.rerouted {
            Rerouted::Nowhere => true,
            Rerouted::Here => false,
            Rerouted::Above => has_route(&self.node),
        }
    }

    /// Whether the pass gives what the region has, under the hop that it inherits in the table.
    pub fn is_clear(&self) -> bool
        ensures { result ≡ true → IsClear self.now }
    {
        if self.marked {
            return false;
        }
        if !is_unmarked(&self.dirty) {
            return false;
        }
        self.is_sheltered()
    }

    /// Whether a half has no dirty prefix, and gets the hops from the routes that it got: then the pass gives what it has, under the
    /// hop that it inherits in the table. It is asked of the region, without a step to the half.
    pub fn is_half_clear(&self, bit: bool) -> bool
        ensures { result ≡ true → IsHalfClear bit self.now }
    {
        match self.rerouted {
            Rerouted::Nowhere => {
                if meets_wide(&self.dirty, self.marked) {
                    return false;
                }
                lacks(&self.dirty, bit)
            }
            _ => false,
        }
    }

    /// Whether neither table has entries below the region's own.
    pub fn is_end(&self, prefix: Prefix) -> bool
        requires bits { self.now.region.bits + prefix.len ≡ width prefix.family }
        requires node { (behind self.now.node).entries ≡ self.now.region.entries }
        requires table { IsTable self.now.region.bits self.now.region.entries }
        ensures end { result ≡ true
            → HasNoHalves self.now.region.bits (spot_answers self.now.region) self.now.region.entries }
        ensures more { result ≡ false → self.now.region.bits ≢ 0 }
    {
        if prefix.len == prefix.family.width() {
            return true;
        }
        if is_last(&self.node) {
            return self.region.leaf().is_some();
        }
        false
    }
}
