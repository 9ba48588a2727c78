//! The tree of a family.

ghost use Rattle.std.specs.Prelude.{◌≡◌, ◌≤◌, ◌+◌, [], ◌∷◌, true, List, length, Bool, OnOk, OnErr, IsOk, IfOk, IfSome, IfNone, map, filter, option_map};
ghost use Rattle.std.specs.List.{AllByRecursion};
ghost use Rattle.std.specs.Map.{keys_of, lookup, remove_entry};
ghost use Rattle.table_model.specs.Address.{IsPrefix, same_family, same_prefix};
ghost use Rattle.table_model.specs.Halves.{is_within};
ghost use Rattle.table_model.specs.Entries.{with_entry, in_order, match_in, of_family, of_table};
ghost use Rattle.table_model.specs.Uniform.{AllGet, TwoDiffer};
ghost use Rattle.table_model.specs.Table.{cut};
ghost use Rattle.table_model.specs.Sets.{answers};
ghost use Rattle.orig_tree.specs.Spots.{spot_answers};
ghost use Rattle.table_model.specs.Regions.{above};
ghost use Rattle.fib_addr.specs.Views.{addr_as, prefix_as, entry_as};
ghost use Rattle.table_model.specs.Width.{width};
ghost use Rattle.orig_tree.specs.Walk.{AreMadeTo, CanEdit, has_node, rows_of};
ghost use Rattle.orig_tree.specs.Edits.{routed};
ghost use Rattle.orig_tree.specs.Views.{InPlace, FitsWidth};
ghost use Rattle.orig_tree.specs.Arena.{cells_of, whole};
ghost use Rattle.orig_tree.specs.Trims.{AreTrimmed};
ghost use Rattle.orig_tree.specs.Within.{nodes_in, told};

use crate::best::Change;
use crate::count::count_within;
use crate::counter::{Counter, Uncounted};
use crate::load::{insert_all, load_all};
use crate::node::{Label, Nodes, answer, inherited, tell, uniform};
use crate::node_ref::NodeRef;
use crate::parts::{OwnRoute, route_at, seek, tell_within};
use crate::path::{Path, path_bits};
use crate::region::{TreeRegion, below};
use crate::source::EntrySource;
use crate::undo::{Undo, keep_if, room_of};
use crate::whole::{
    change, drop_unused, empty, insert_entry, insert_route, make_room, take_back, update_route,
};
use fib_addr::{Addr, Entry, EntrySink, Family, Hop, Prefix};
use std::alloc::{AllocError, Global};
use std::marker::Model;
use std::mem;

/// The routes and the entries of one family. Contracts see both in the order of prefixes, each prefix once, and the
/// prefixes that are nodes.
#[derive(Drop)]
pub struct Tree {
    alloc: Global,
    family: Family,
    nodes: Nodes,
    undo: Option<Undo>,
    /// Room for the changes of the next call.
    spare: Vec<Change>,
}

impl Model for Tree {
    ghost use Rattle.table_model.specs.Entries.{of_table};
    ghost use Rattle.orig_tree.specs.Views.{Labels, InPlace};

    ghost Value = { Labels };

    ghost use Rattle.orig_tree.specs.Arena.{cells_of, whole, IsArena};
    ghost use Rattle.orig_tree.specs.Bests.{best_in, KeepsBest};
    ghost use Rattle.orig_tree.specs.Undos.{routes_before, CanUndo};

    ghost view = { λ t. record { family = t.family; routes = of_table t.family (whole t.family (cells_of t.nodes)).routes; entries = of_table t.family (whole t.family (cells_of t.nodes)).entries; nodes = (whole t.family (cells_of t.nodes)).nodes; before = of_table t.family (routes_before t.undo (whole t.family (cells_of t.nodes)).routes) } };

    ghost invariant = { λ t. IsArena t.family (cells_of t.nodes) t.nodes.free × InPlace (of_table t.family (whole t.family (cells_of t.nodes)).routes) × InPlace (of_table t.family (whole t.family (cells_of t.nodes)).entries) × KeepsBest t.family (cells_of t.nodes) (best_in t.nodes) × CanUndo t.family (cells_of t.nodes) (best_in t.nodes) t.undo };
}

/// The number of a hop, if there is one.
fn number_of(hop: Option<Hop>) -> Option<u16>
    ensures { result ≡ option_map (λ h. h.0) hop }
{
    match hop {
        Some(hop) => Some(hop.0),
        None => None,
    }
}

/// The hop of a number, if there is one.
fn hop_of(number: Option<u16>) -> Option<Hop>
    ensures { option_map (λ h. h.0) result ≡ number }
{
    match number {
        Some(number) => Some(Hop(number)),
        None => None,
    }
}

/// Hands on the table of one label from the root on, in the order of prefixes.
fn tell_all<S: EntrySink>(
    family: Family,
    nodes: &Nodes,
    label: Label,
    out: &mut S,
) -> Result<(), AllocError>
    requires fits { FitsWidth (width family) (rows_of label (whole family (cells_of nodes.now))) }
    requires ready { S.ready out.old }
    ensures ready { OnOk result (S.ready out.new) }
    ensures takes { OnOk result (S.takes out.old (of_table family (rows_of label (whole family
        (cells_of nodes.now)))) out.new) }
{
    tell(nodes, 0, label, &Prefix::whole(family), out)?;
    Ok(())
}

impl Tree {
    /// A tree with no routes and no entries.
    pub fn new(alloc: Global, family: Family) -> Tree
        ensures { result ≡ record {
          family = family;
          routes = [];
          entries = [];
          nodes = [] ∷ [];
          before = [];
        } }
    {
        Tree {
            alloc,
            family,
            nodes: empty(alloc, family),
            undo: None,
            spare: Vec::new(alloc),
        }
    }

    /// A tree with those of the routes that are of its family, the last at each prefix. The first n of them that stand in the
    /// order of prefixes, each once, are built in one walk, which costs its nodes; any others are set after it, at the cost of
    /// their lengths too, and what the nodes keep is then computed anew.
    ///
    /// # Errors
    ///
    /// Out of memory, also if there would be 2^31 nodes or more.
    pub fn load(alloc: Global, family: Family, routes: &[Entry]) -> Result<Tree, AllocError>
        ensures family { IfOk result (λ t. t.family ≡ family) }
        ensures routes { IfOk result (λ t. t.routes ≡ in_order (filter (λ e. same_family family
            e.0.family) (map entry_as routes.now))) }
        ensures entries { IfOk result (λ t. t.entries ≡ []) }
        ensures before { IfOk result (λ t. t.before ≡ t.routes) }
    {
        let mut left = routes;
        Tree::load_from(alloc, family, &mut left)
    }

    /// A tree with those of the routes that a source gives that are of its family, as `load` makes it of a list: none is made.
    ///
    /// # Errors
    ///
    /// Out of memory, also if there would be 2^31 nodes or more.
    pub fn load_from<S: EntrySource>(
        alloc: Global,
        family: Family,
        routes: &mut S,
    ) -> Result<Tree, AllocError>
        requires { AllByRecursion IsPrefix (keys_of (S.left routes.old)) }
        ensures family { IfOk result (λ t. t.family ≡ family) }
        ensures routes { IfOk result (λ t. t.routes ≡ in_order (filter (λ e. same_family family
            e.0.family) (S.left routes.old))) }
        ensures entries { IfOk result (λ t. t.entries ≡ []) }
        ensures before { IfOk result (λ t. t.before ≡ t.routes) }
    {
        let mut nodes = empty(alloc, family);
        load_all(alloc, family, &mut nodes, routes)?;
        Ok(Tree {
            alloc,
            family,
            nodes,
            undo: None,
            spare: Vec::new(alloc),
        })
    }

    /// A tree without entries is given those of these entries that are of its family, the last at each prefix. It costs the
    /// nodes on the ways to them, each once if the entries stand in the order of prefixes. The last change of a route can't
    /// be put back any more.
    ///
    /// # Errors
    ///
    /// Out of memory, also if there would be 2^31 nodes or more.
    pub fn insert_entries(self, entries: &[Entry]) -> Result<Tree, AllocError>
        requires { self.entries ≡ [] }
        ensures family { IfOk result (λ t. t.family ≡ self.family) }
        ensures routes { IfOk result (λ t. t.routes ≡ self.routes) }
        ensures entries { IfOk result (λ t. t.entries ≡ in_order (filter (λ e. same_family self.family
            e.0.family) (map entry_as entries.now))) }
        ensures before { IfOk result (λ t. t.before ≡ t.routes) }
    {
        let mut left = entries;
        self.insert_entries_from(&mut left)
    }

    /// A tree without entries is given those of the entries of a source that are of its family, as `insert_entries` gives it those of
    /// a list: none is made.
    ///
    /// # Errors
    ///
    /// Out of memory, also if there would be 2^31 nodes or more.
    pub fn insert_entries_from<S: EntrySource>(self, entries: &mut S) -> Result<Tree, AllocError>
        requires empty { self.entries ≡ [] }
        requires prefixes { AllByRecursion IsPrefix (keys_of (S.left entries.old)) }
        ensures family { IfOk result (λ t. t.family ≡ self.family) }
        ensures routes { IfOk result (λ t. t.routes ≡ self.routes) }
        ensures entries { IfOk result (λ t. t.entries ≡ in_order (filter (λ e. same_family self.family
            e.0.family) (S.left entries.old))) }
        ensures before { IfOk result (λ t. t.before ≡ t.routes) }
    {
        let mut nodes = self.nodes;
        insert_all(self.family, &mut nodes, Label::Entry, entries)?;
        Ok(Tree {
            alloc: self.alloc,
            family: self.family,
            nodes,
            undo: None,
            spare: self.spare,
        })
    }

    /// The routes.
    pub fn routes(&self) -> Result<Vec<Entry>, AllocError>
        ensures order { InPlace self.now.routes }
        ensures routes { IfOk result (λ v. map entry_as v.items ≡ self.now.routes) }
    {
        let mut list = Vec::new(self.alloc);
        self.emit_routes(&mut list)?;
        Ok(list)
    }

    /// The entries.
    pub fn entries(&self) -> Result<Vec<Entry>, AllocError>
        ensures order { InPlace self.now.entries }
        ensures family { AllByRecursion (λ p. p.family ≡ self.now.family) (keys_of self.now.entries) }
        ensures entries { IfOk result (λ v. map entry_as v.items ≡ self.now.entries) }
    {
        let mut list = Vec::new(self.alloc);
        self.emit_entries(&mut list)?;
        Ok(list)
    }

    /// Passes the routes on one by one, in the order of prefixes: it takes no memory of its own, and costs the nodes.
    ///
    /// # Errors
    ///
    /// Out of memory; then the first n routes were taken, for some n.
    pub fn emit_routes<S: EntrySink>(&self, out: &mut S) -> Result<(), AllocError>
        requires { S.ready out.old }
        ensures ready { OnOk result (S.ready out.new) }
        ensures takes { OnOk result (S.takes out.old self.now.routes out.new) }
    {
        tell_all(self.family, &self.nodes, Label::Route, out)?;
        Ok(())
    }

    /// Passes the entries on one by one, in the order of prefixes: it takes no memory of its own, and costs the nodes.
    ///
    /// # Errors
    ///
    /// Out of memory; then the first n entries were taken, for some n.
    pub fn emit_entries<S: EntrySink>(&self, out: &mut S) -> Result<(), AllocError>
        requires { S.ready out.old }
        ensures ready { OnOk result (S.ready out.new) }
        ensures takes { OnOk result (S.takes out.old self.now.entries out.new) }
    {
        tell_all(self.family, &self.nodes, Label::Entry, out)?;
        Ok(())
    }

    /// The tree's family.
    pub fn family(&self) -> Family
        ensures family { result ≡ self.now.family }
        ensures order { InPlace self.now.routes × InPlace self.now.entries }
    {
        self.family
    }

    /// The node of the whole space, to walk down from.
    pub fn root(&self) -> NodeRef<'_>
        ensures routes { of_table self.now.family result.routes ≡ self.now.routes }
        ensures entries { of_table self.now.family result.entries ≡ self.now.entries }
        ensures order { InPlace self.now.routes × InPlace self.now.entries }
    {
        NodeRef {
            nodes: &self.nodes,
            place: 0,
            levels: self.family.width() + 1,
        }
    }

    /// The region of a prefix, to ask what is best for it.
    pub fn region(&self, prefix: &Prefix) -> TreeRegion<'_>
        requires { prefix.now.family ≡ self.now.family }
        ensures bits { result.bits + prefix.now.len ≡ width self.now.family }
        ensures answers { (a : List Bool) → spot_answers result a ≡ answers
            (of_family self.now.family self.now.routes) (prefix_as prefix.now).bits a }
        ensures entries { result.entries ≡ cut (prefix_as prefix.now).bits
            (of_family self.now.family self.now.entries) }
    {
        self.region_counted(prefix, &mut Uncounted)
    }

    /// `region` with a count of its steps. A step is a region on the way to the prefix: one for each of its bits.
    pub fn region_counted<C: Counter>(&self, prefix: &Prefix, steps: &mut C) -> TreeRegion<'_>
        requires { prefix.now.family ≡ self.now.family }
        ensures bits { result.bits + prefix.now.len ≡ width self.now.family }
        ensures answers { (a : List Bool) → spot_answers result a ≡ answers
            (of_family self.now.family self.now.routes) (prefix_as prefix.now).bits a }
        ensures entries { result.entries ≡ cut (prefix_as prefix.now).bits
            (of_family self.now.family self.now.entries) }
        ensures nodes { length result.nodes ≡ nodes_in (prefix_as prefix.now).bits self.now.nodes }
        ensures steps { C.count steps.new ≤ C.count steps.old + prefix.now.len }
    {
        let whole = TreeRegion {
            nodes: &self.nodes,
            place: Some(0),
            bits: self.family.width(),
            hop: 0,
        };
        let path = Path {
            bits: path_bits(prefix),
            left: prefix.len,
        };
        below(whole, path, steps)
    }

    /// How many nodes there are at the prefix and within it; 2^64 - 1 stands for all numbers that are greater. It takes no
    /// memory, and costs the prefix's length and those nodes.
    pub fn nodes_within(&self, prefix: &Prefix) -> u64
        requires { prefix.now.family ≡ self.now.family }
        ensures { result ≡ told (nodes_in (prefix_as prefix.now).bits self.now.nodes) }
    {
        let depth = self.family.width();
        let path = Path {
            bits: path_bits(prefix),
            left: prefix.len,
        };
        count_within(&self.nodes, 0, path, depth)
    }

    /// Makes the prefix a node, so that `set_route` and `set_entry` take no memory at it. New nodes are the prefix's and those
    /// on the way to it.
    ///
    /// # Errors
    ///
    /// Out of memory, also if there would be 2^31 nodes or more; then nothing has changed.
    pub fn room(&mut self, prefix: &Prefix) -> Result<(), AllocError>
        requires { prefix.now.family ≡ self.old.family }
        ensures family { self.new.family ≡ self.old.family }
        ensures routes { self.new.routes ≡ self.old.routes }
        ensures entries { self.new.entries ≡ self.old.entries }
        ensures kept { (p : List Bool) → has_node p self.old.nodes ≡ true
            → has_node p self.new.nodes ≡ true }
        ensures made { AreMadeTo (prefix_as prefix.now).bits self.old.nodes self.new.nodes }
        ensures ok { OnOk result (has_node (prefix_as prefix.now).bits self.new.nodes ≡ true) }
        ensures err { OnErr result (self.new ≡ self.old) }
        ensures held { has_node (prefix_as prefix.now).bits self.old.nodes ≡ true → IsOk result }
        ensures same { has_node (prefix_as prefix.now).bits self.old.nodes ≡ true → self.new ≡ self.old }
    {
        let path = Path {
            bits: path_bits(prefix),
            left: prefix.len,
        };
        make_room(self.family, &mut self.nodes, &mut self.undo, path)
    }

    /// Drops the nodes at the prefix and within it that have no route and no entry at them or within them, and those on the
    /// way to it that then have none of their own and nothing below them: a node beside the way keeps those above it, whether
    /// it is used or not. The node of the whole space stays. The last change of a route can't be put back any more.
    pub fn trim(&mut self, prefix: &Prefix)
        requires { prefix.now.family ≡ self.old.family }
        ensures family { self.new.family ≡ self.old.family }
        ensures routes { self.new.routes ≡ self.old.routes }
        ensures entries { self.new.entries ≡ self.old.entries }
        ensures nodes { AreTrimmed (prefix_as prefix.now).bits
            (of_family self.old.family self.old.routes) (of_family self.old.family self.old.entries)
            self.old.nodes self.new.nodes }
    {
        let path = Path {
            bits: path_bits(prefix),
            left: prefix.len,
        };
        self.undo = None;
        drop_unused(self.family, &mut self.nodes, path);
    }

    /// Longest match among the routes: the hop of the longest route whose prefix the address begins with, or none.
    pub fn answer_route(&self, addr: &Addr) -> Hop
        requires { addr.now.family ≡ self.now.family }
        ensures { result.0 ≡ match_in self.now.routes (addr_as addr.now) }
    {
        let path = Path {
            bits: addr.bits,
            left: self.family.width(),
        };
        Hop(answer(&self.nodes, 0, Label::Route, path, 0))
    }

    /// Longest match among the entries.
    pub fn answer_entry(&self, addr: &Addr) -> Hop
        requires { addr.now.family ≡ self.now.family }
        ensures { result.0 ≡ match_in self.now.entries (addr_as addr.now) }
    {
        let path = Path {
            bits: addr.bits,
            left: self.family.width(),
        };
        Hop(answer(&self.nodes, 0, Label::Entry, path, 0))
    }

    /// The hop that every address of the prefix gets by longest match among the routes, or `None` if two get different
    /// ones.
    pub fn uniform_route(&self, prefix: &Prefix) -> Option<Hop>
        requires { prefix.now.family ≡ self.now.family }
        ensures order { InPlace self.now.routes }
        ensures one { IfSome result (λ hop. AllGet self.now.routes (prefix_as prefix.now) hop.0) }
        ensures differ { IfNone result (TwoDiffer self.now.routes (prefix_as prefix.now)) }
    {
        let path = Path {
            bits: path_bits(prefix),
            left: prefix.len,
        };
        let hop = uniform(&self.nodes, 0, Label::Route, path, 0)?;
        Some(Hop(hop))
    }

    /// The hop that every address of the prefix gets by longest match among the entries, or `None` if two get different
    /// ones.
    pub fn uniform_entry(&self, prefix: &Prefix) -> Option<Hop>
        requires { prefix.now.family ≡ self.now.family }
        ensures order { InPlace self.now.entries }
        ensures one { IfSome result (λ hop. AllGet self.now.entries (prefix_as prefix.now) hop.0) }
        ensures differ { IfNone result (TwoDiffer self.now.entries (prefix_as prefix.now)) }
    {
        let path = Path {
            bits: path_bits(prefix),
            left: prefix.len,
        };
        let hop = uniform(&self.nodes, 0, Label::Entry, path, 0)?;
        Some(Hop(hop))
    }

    /// The hop of the longest entry that the prefix is strictly within, or none.
    pub fn inherited(&self, prefix: &Prefix) -> Hop
        requires { prefix.now.family ≡ self.now.family }
        ensures { result.0 ≡ above (prefix_as prefix.now).bits
            (of_family self.now.family self.now.entries) 0 }
    {
        let path = Path {
            bits: path_bits(prefix),
            left: prefix.len,
        };
        Hop(inherited(&self.nodes, 0, path, 0))
    }

    /// The hop of the prefix's own route, if it has one.
    pub fn route(&self, prefix: &Prefix) -> Option<Hop>
        requires { prefix.now.family ≡ self.now.family }
        ensures order { InPlace self.now.routes }
        ensures route { option_map (λ h. h.0) result
            ≡ lookup (same_prefix (prefix_as prefix.now)) self.now.routes }
    {
        let path = Path {
            bits: path_bits(prefix),
            left: prefix.len,
        };
        let hop = route_at(&self.nodes, 0, path)?;
        Some(Hop(hop))
    }

    /// What there is at the prefix, in one walk.
    fn own_route(&self, prefix: &Prefix) -> OwnRoute
        requires { prefix.now.family ≡ self.now.family }
        ensures order { InPlace self.now.routes }
        ensures node { result.is_node ≡ has_node (prefix_as prefix.now).bits self.now.nodes }
        ensures route { result.hop ≡ lookup (same_prefix (prefix_as prefix.now)) self.now.routes }
    {
        let path = Path {
            bits: path_bits(prefix),
            left: prefix.len,
        };
        seek(&self.nodes, 0, path)
    }

    /// Sets the route of a prefix that is a node, or takes a prefix's route away, if it is known what there is at it.
    ///
    /// # Errors
    ///
    /// Out of memory; then nothing has changed.
    fn alter_route<C: Counter>(
        &mut self,
        prefix: &Prefix,
        own: OwnRoute,
        set: Option<u16>,
        steps: &mut C,
    ) -> Result<(), AllocError>
        requires family { prefix.now.family ≡ self.old.family }
        requires node { own.is_node ≡ has_node (prefix_as prefix.now).bits self.old.nodes }
        requires route { own.hop ≡ lookup (same_prefix (prefix_as prefix.now)) self.old.routes }
        requires allowed { CanEdit (prefix_as prefix.now).bits set self.old.nodes }
        ensures family { self.new.family ≡ self.old.family }
        ensures routes { OnOk result (self.new.routes ≡ routed (prefix_as prefix.now) set
            self.old.routes) }
        ensures entries { self.new.entries ≡ self.old.entries }
        ensures nodes { self.new.nodes ≡ self.old.nodes }
        ensures before { has_node (prefix_as prefix.now).bits self.old.nodes ≡ true
            → OnOk result (self.new.before ≡ self.old.routes) }
        ensures err { OnErr result (self.new ≡ self.old) }
        ensures steps { C.count steps.new ≤ C.count steps.old + prefix.now.len + 1
            + nodes_in (prefix_as prefix.now).bits self.old.nodes }
    {
        let path = Path {
            bits: path_bits(prefix),
            left: prefix.len,
        };
        let spare = mem::replace(&mut self.spare, Vec::new(self.alloc));
        let changes = update_route(
            self.alloc,
            self.family,
            &mut self.nodes,
            path,
            set,
            spare,
            steps,
        )?;
        let undo = Undo {
            path,
            changes,
            hop: own.hop,
        };
        self.spare = room_of(self.alloc, self.undo.take());
        self.undo = keep_if(own.is_node, undo);
        Ok(())
    }

    /// The entries within the prefix, its own among them, in the order of prefixes. It costs the prefix's length, and the
    /// nodes within it.
    ///
    /// # Errors
    ///
    /// Out of memory.
    pub fn entries_within(&self, prefix: &Prefix) -> Result<Vec<Entry>, AllocError>
        requires { prefix.now.family ≡ self.now.family }
        ensures order { InPlace self.now.entries }
        ensures entries { IfOk result (λ v. map entry_as v.items
            ≡ filter (λ e. is_within e.0 (prefix_as prefix.now)) self.now.entries) }
    {
        let path = Path {
            bits: path_bits(prefix),
            left: prefix.len,
        };
        let mut list = Vec::new(self.alloc);
        tell_within(&self.nodes, 0, path, prefix, &mut list)?;
        Ok(list)
    }

    /// Takes the prefix's route away, if it has one. It costs the nodes on the way to the prefix, and those within it that no
    /// route of their own keeps from it, with their sets of hops. If the prefix is a node, `put_back` takes it back.
    ///
    /// # Errors
    ///
    /// Out of memory; then nothing has changed.
    pub fn clear_route(&mut self, prefix: &Prefix) -> Result<(), AllocError>
        requires { prefix.now.family ≡ self.old.family }
        ensures family { self.new.family ≡ self.old.family }
        ensures routes { OnOk result (self.new.routes ≡ remove_entry
            (same_prefix (prefix_as prefix.now)) self.old.routes) }
        ensures entries { self.new.entries ≡ self.old.entries }
        ensures nodes { self.new.nodes ≡ self.old.nodes }
        ensures before { has_node (prefix_as prefix.now).bits self.old.nodes ≡ true
            → OnOk result (self.new.before ≡ self.old.routes) }
        ensures err { OnErr result (self.new ≡ self.old) }
    {
        self.clear_route_counted(prefix, &mut Uncounted)
    }

    /// `clear_route` with a count of its steps. A step is a set computed: one that a node is to keep, put together from those of its
    /// halves, or made of the hop that all its addresses get. What a region keeps that has no node is no step: it is read off
    /// the hop from above. There are at most as many steps as the prefix has bits, and one, and one for each node that there
    /// was at the prefix and within it.
    ///
    /// # Errors
    ///
    /// Out of memory; then nothing has changed.
    pub fn clear_route_counted<C: Counter>(
        &mut self,
        prefix: &Prefix,
        steps: &mut C,
    ) -> Result<(), AllocError>
        requires { prefix.now.family ≡ self.old.family }
        ensures family { self.new.family ≡ self.old.family }
        ensures routes { OnOk result (self.new.routes ≡ remove_entry
            (same_prefix (prefix_as prefix.now)) self.old.routes) }
        ensures entries { self.new.entries ≡ self.old.entries }
        ensures nodes { self.new.nodes ≡ self.old.nodes }
        ensures before { has_node (prefix_as prefix.now).bits self.old.nodes ≡ true
            → OnOk result (self.new.before ≡ self.old.routes) }
        ensures err { OnErr result (self.new ≡ self.old) }
        ensures steps { C.count steps.new ≤ C.count steps.old + prefix.now.len + 1
            + nodes_in (prefix_as prefix.now).bits self.old.nodes }
    {
        let own = self.own_route(prefix);
        self.alter_route(prefix, own, None, steps)?;
        Ok(())
    }

    /// Makes the prefix a node, and returns the hop of its own route, if it has one. If it is a node, one walk finds both.
    ///
    /// # Errors
    ///
    /// Out of memory; then nothing has changed.
    fn node_route(&mut self, prefix: &Prefix) -> Result<Option<u16>, AllocError>
        requires { prefix.now.family ≡ self.old.family }
        ensures order { InPlace self.old.routes }
        ensures family { self.new.family ≡ self.old.family }
        ensures routes { self.new.routes ≡ self.old.routes }
        ensures entries { self.new.entries ≡ self.old.entries }
        ensures kept { (p : List Bool) → has_node p self.old.nodes ≡ true
            → has_node p self.new.nodes ≡ true }
        ensures made { AreMadeTo (prefix_as prefix.now).bits self.old.nodes self.new.nodes }
        ensures ok { OnOk result (has_node (prefix_as prefix.now).bits self.new.nodes ≡ true) }
        ensures route { IfOk result (λ hop. hop ≡ lookup (same_prefix (prefix_as prefix.now))
            self.old.routes) }
        ensures err { OnErr result (self.new ≡ self.old) }
        ensures same { has_node (prefix_as prefix.now).bits self.old.nodes ≡ true → self.new ≡ self.old }
    {
        let own = self.own_route(prefix);
        if own.is_node {
            return Ok(own.hop);
        }
        self.room(prefix)?;
        Ok(own.hop)
    }

    /// Makes the prefix a node, gives it this route or none, and returns the route that it had: what `room`, `route`, and then
    /// `set_route` or `clear_route` come to, with one walk in search of the prefix if it is a node already. `put_back` takes
    /// the change of the route back.
    ///
    /// # Errors
    ///
    /// Out of memory; then no route and no entry has changed, and if the prefix was a node nothing has.
    pub fn replace_route(
        &mut self,
        prefix: &Prefix,
        route: Option<Hop>,
    ) -> Result<Option<Hop>, AllocError>
        requires { prefix.now.family ≡ self.old.family }
        ensures family { self.new.family ≡ self.old.family }
        ensures order { InPlace self.old.routes }
        ensures former { IfOk result (λ had. option_map (λ h. h.0) had
            ≡ lookup (same_prefix (prefix_as prefix.now)) self.old.routes) }
        ensures set { IfSome route (λ hop. OnOk result (self.new.routes
            ≡ with_entry self.old.routes (prefix_as prefix.now, hop.0))) }
        ensures cleared { IfNone route (OnOk result (self.new.routes
            ≡ remove_entry (same_prefix (prefix_as prefix.now)) self.old.routes)) }
        ensures entries { self.new.entries ≡ self.old.entries }
        ensures kept { (p : List Bool) → has_node p self.old.nodes ≡ true
            → has_node p self.new.nodes ≡ true }
        ensures made { AreMadeTo (prefix_as prefix.now).bits self.old.nodes self.new.nodes }
        ensures ok { OnOk result (has_node (prefix_as prefix.now).bits self.new.nodes ≡ true) }
        ensures before { OnOk result (self.new.before ≡ self.old.routes) }
        ensures err { OnErr result (self.new.routes ≡ self.old.routes) }
        ensures same { has_node (prefix_as prefix.now).bits self.old.nodes ≡ true
            → OnErr result (self.new ≡ self.old) }
    {
        let hop = self.node_route(prefix)?;
        let own = OwnRoute { is_node: true, hop };
        self.alter_route(prefix, own, number_of(route), &mut Uncounted)?;
        Ok(hop_of(hop))
    }

    /// Puts the routes back as they were before the last call of `set_route` or `clear_route`, with all that nodes keep, if
    /// its prefix was a node before it, and no node was made or dropped since; else it changes nothing. It takes no memory, and
    /// costs what that call did.
    pub fn put_back(&mut self)
        ensures { self.new ≡ record {
          family = self.old.family;
          routes = self.old.before;
          entries = self.old.entries;
          nodes = self.old.nodes;
          before = self.old.before;
        } }
    {
        match self.undo.take() {
            None => {}
            Some(undo) => {
                self.spare = take_back(self.family, &mut self.nodes, undo);
            }
        }
    }

    /// Takes the prefix's entry away, if it has one.
    pub fn clear_entry(&mut self, prefix: &Prefix)
        requires { prefix.now.family ≡ self.old.family }
        ensures { self.new ≡ record {
          family = self.old.family;
          routes = self.old.routes;
          entries =
              remove_entry (same_prefix (prefix_as prefix.now)) self.old.entries;
          nodes = self.old.nodes;
          before = self.old.before;
        } }
    {
        let path = Path {
            bits: path_bits(prefix),
            left: prefix.len,
        };
        change(self.family, &mut self.nodes, path, None)
    }

    /// Sets the hop of the prefix's route. It costs the nodes on the way to the prefix, and those within it that no route of
    /// their own keeps from it, with their sets of hops. If the prefix is a node, `put_back` takes it back.
    ///
    /// # Errors
    ///
    /// Out of memory; then nothing has changed.
    pub fn set_route(&mut self, prefix: &Prefix, hop: Hop) -> Result<(), AllocError>
        requires { prefix.now.family ≡ self.old.family }
        ensures family { self.new.family ≡ self.old.family }
        ensures routes { OnOk result (self.new.routes ≡ with_entry self.old.routes
            (prefix_as prefix.now, hop.0)) }
        ensures entries { self.new.entries ≡ self.old.entries }
        ensures kept { (p : List Bool) → has_node p self.old.nodes ≡ true
            → has_node p self.new.nodes ≡ true }
        ensures made { AreMadeTo (prefix_as prefix.now).bits self.old.nodes self.new.nodes }
        ensures ok { OnOk result (has_node (prefix_as prefix.now).bits self.new.nodes ≡ true) }
        ensures before { has_node (prefix_as prefix.now).bits self.old.nodes ≡ true
            → OnOk result (self.new.before ≡ self.old.routes) }
        ensures err { OnErr result (self.new ≡ self.old) }
    {
        self.set_route_counted(prefix, hop, &mut Uncounted)
    }

    /// `set_route` with a count of its steps. A step is a set computed: one that a node is to keep, put together from those of its
    /// halves, or made of the hop that all its addresses get. What a region keeps that has no node is no step: it is read off
    /// the hop from above. There are at most as many steps as the prefix has bits, and one, and one for each node that there
    /// was at the prefix and within it.
    ///
    /// # Errors
    ///
    /// Out of memory; then nothing has changed.
    pub fn set_route_counted<C: Counter>(
        &mut self,
        prefix: &Prefix,
        hop: Hop,
        steps: &mut C,
    ) -> Result<(), AllocError>
        requires { prefix.now.family ≡ self.old.family }
        ensures family { self.new.family ≡ self.old.family }
        ensures routes { OnOk result (self.new.routes ≡ with_entry self.old.routes
            (prefix_as prefix.now, hop.0)) }
        ensures entries { self.new.entries ≡ self.old.entries }
        ensures kept { (p : List Bool) → has_node p self.old.nodes ≡ true
            → has_node p self.new.nodes ≡ true }
        ensures made { AreMadeTo (prefix_as prefix.now).bits self.old.nodes self.new.nodes }
        ensures ok { OnOk result (has_node (prefix_as prefix.now).bits self.new.nodes ≡ true) }
        ensures before { has_node (prefix_as prefix.now).bits self.old.nodes ≡ true
            → OnOk result (self.new.before ≡ self.old.routes) }
        ensures err { OnErr result (self.new ≡ self.old) }
        ensures steps { C.count steps.new ≤ C.count steps.old + prefix.now.len + 1
            + nodes_in (prefix_as prefix.now).bits self.old.nodes }
    {
        let own = self.own_route(prefix);
        if own.is_node {
            self.alter_route(prefix, own, Some(hop.0), steps)?;
            return Ok(());
        }
        let path = Path {
            bits: path_bits(prefix),
            left: prefix.len,
        };
        let spare = mem::replace(&mut self.spare, Vec::new(self.alloc));
        let room = insert_route(
            self.alloc,
            self.family,
            &mut self.nodes,
            path,
            hop.0,
            spare,
            steps,
        )?;
        self.spare = room;
        self.undo = None;
        Ok(())
    }

    /// Sets the hop of the prefix's entry; `Hop::NONE` drops.
    ///
    /// # Errors
    ///
    /// Out of memory, only if the prefix isn't a node; then nothing has changed.
    pub fn set_entry(&mut self, prefix: &Prefix, hop: Hop) -> Result<(), AllocError>
        requires { prefix.now.family ≡ self.old.family }
        ensures family { self.new.family ≡ self.old.family }
        ensures routes { self.new.routes ≡ self.old.routes }
        ensures entries { OnOk result (self.new.entries ≡ with_entry self.old.entries
            (prefix_as prefix.now, hop.0)) }
        ensures kept { (p : List Bool) → has_node p self.old.nodes ≡ true
            → has_node p self.new.nodes ≡ true }
        ensures made { AreMadeTo (prefix_as prefix.now).bits self.old.nodes self.new.nodes }
        ensures ok { OnOk result (has_node (prefix_as prefix.now).bits self.new.nodes ≡ true) }
        ensures before { has_node (prefix_as prefix.now).bits self.old.nodes ≡ true
            → self.new.before ≡ self.old.before }
        ensures err { OnErr result (self.new ≡ self.old) }
        ensures held { has_node (prefix_as prefix.now).bits self.old.nodes ≡ true → IsOk result }
    {
        let path = Path {
            bits: path_bits(prefix),
            left: prefix.len,
        };
        insert_entry(self.family, &mut self.nodes, &mut self.undo, path, hop.0)?;
        Ok(())
    }
}
