//! The nodes of a tree in one array, in which a node has the places of its halves. A cover stands beside each label, which each
//! change on a path computes again on its way up.

ghost use Rattle.std.specs.Prelude.{◌≡◌, ◌≤◌, ◌<◌, ◌-◌, ℕ, OnOk, OnErr, IsOk, IfOk, ◌∷◌, List, Bool, true, false, [], map, ◌++◌, slice_set, vec_len, vec_capacity, ◌+◌, ◌^◌, length, suc, Some, None};
ghost use Rattle.std.specs.Option.{is_some};
ghost use Rattle.table_model.specs.Halves.{half_at};
ghost use Rattle.table_model.specs.Width.{width};
ghost use Rattle.table_model.specs.Table.{lpm, root, half, here};
ghost use Rattle.table_model.specs.Regions.{above, lift};
ghost use Rattle.fib_addr.specs.Views.{prefix_as};
ghost use Rattle.orig_tree.specs.Walk.{rows_of, edited, CanEdit, labelled, has_node};
ghost use Rattle.table_model.specs.Entries.{of_table};
ghost use Rattle.orig_tree.specs.Views.{path_steps, FitsWidth};
ghost use Rattle.orig_tree.specs.Uniform.{IsUniform};
ghost use Rattle.orig_tree.specs.Arena.{cells_of, Owner, blank_cell, cell_at, half_place, walks_at, IsTree, IsSet, labelled_slot, slot_over, with_slot, relabelled, cover_at, cover_of, from_half, HasSpares, link, GivesPlace, IsSplit, MakesRoom, HalvesStay, with_half};
ghost use Rattle.orig_tree.specs.Bests.{best_in, bests_of, best_one, blank_place, put_at, AreBest, IsGrown, laid};
ghost use Rattle.orig_tree.specs.Steps.{new_nodes};
ghost use Rattle.orig_tree.specs.Placed.{Climbs, IsPlaced, route_set};

use crate::best::{Best, fresh};
use crate::counter::{Counter, Uncounted};
use crate::cover::{Cover, Slot};
use crate::path::{Path, bit_at};
use fib_addr::{EntrySink, Prefix, emit_entry};
use std::alloc::{AllocError, Global};
use std::mem;

/// Which of a node's labels.
#[derive(Clone, Copy, Debug, PartialEq, Eq)]
pub enum Label {
    /// The hop of its prefix's route.
    Route,
    /// The hop of its prefix's entry.
    Entry,
}

/// A node: its labels, and the places of its halves of bit 0 and of bit 1; 0 if a half is no node. It takes 24 octets.
#[derive(Clone, Copy)]
pub(crate) struct Node {
    pub(crate) route: Slot,
    pub(crate) entry: Slot,
    pub(crate) low: u32,
    pub(crate) high: u32,
}

/// A node, and what it keeps of its region. It takes 48 octets: a walk that asks for both reads them side by side.
#[derive(Drop)]
pub(crate) struct Place {
    pub(crate) node: Node,
    pub(crate) best: Best,
}

/// The nodes of a tree by their places, with what each keeps of its region. The root's place is 0; it stands apart, so that a
/// tree of the root alone takes no memory.
#[derive(Drop)]
pub(crate) struct Nodes {
    /// What is at all other places, of halves and spare ones: that at place i, from 1 on, is at i - 1 here.
    pub(crate) halves: Vec<Place>,
    pub(crate) root: Place,
    /// The first spare place, or 0. The node at a spare place has the next one in `low`.
    pub(crate) free: u32,
}

impl Label {
    /// The hop that is set for a route, if one of a prefix's labels is set.
    fn route(self, hop: u16) -> Option<u16>
        ensures { result ≡ route_set self hop }
    {
        match self {
            Label::Route => Some(hop),
            Label::Entry => None,
        }
    }
}

impl Node {
    /// The hop of one of its labels.
    pub(crate) fn hop(self, label: Label) -> Option<u16>
        ensures { result ≡ labelled label self.route.hop self.entry.hop }
    {
        match label {
            Label::Route => self.route.hop,
            Label::Entry => self.entry.hop,
        }
    }

    /// One of its labels, with the cover beside it.
    fn slot(self, label: Label) -> Slot
        ensures { result ≡ labelled_slot label self }
    {
        match label {
            Label::Route => self.route,
            Label::Entry => self.entry,
        }
    }

    /// Sets one of its labels, with the cover beside it.
    fn set_slot(&mut self, label: Label, slot: Slot)
        ensures { self.new ≡ with_slot label slot self.old }
    {
        match label {
            Label::Route => self.route = slot,
            Label::Entry => self.entry = slot,
        }
    }

    /// The place of the half of a bit, if it is a node.
    pub(crate) fn half(self, bit: bool) -> Option<usize>
        ensures { result ≡ half_place self bit }
    {
        if bit {
            linked(self.high)
        } else {
            linked(self.low)
        }
    }
}

/// The place of a half that a node names, if there is one.
fn linked(half: u32) -> Option<usize>
    ensures { result ≡ link half }
{
    if half == 0 {
        return None;
    }
    Some(half as usize)
}

/// A node with no labels and no halves.
pub(crate) fn leaf() -> Node
    ensures { result ≡ blank_cell }
{
    Node {
        route: Slot::bare(),
        entry: Slot::bare(),
        low: 0,
        high: 0,
    }
}

/// A place that is no node's yet.
pub(crate) fn bare_place() -> Place
    ensures { result ≡ blank_place }
{
    Place {
        node: leaf(),
        best: Best::one(0),
    }
}

/// The node at a place.
pub(crate) fn read(nodes: &Nodes, i: usize) -> Node
    ensures { result ≡ cell_at (cells_of nodes.now) i }
{
    if i == 0 {
        return nodes.root.node;
    }
    match nodes.halves.get(i - 1) {
        Some(place) => place.node,
        None => leaf(),
    }
}

/// Puts a node at a place, which keeps what it kept.
pub(crate) fn put(nodes: &mut Nodes, i: usize, node: Node)
    ensures cells { cells_of nodes.new ≡ slice_set (cells_of nodes.old) i node }
    ensures kept { bests_of nodes.new ≡ bests_of nodes.old }
    ensures free { nodes.new.free ≡ nodes.old.free }
    ensures len { vec_len nodes.new.halves ≡ vec_len nodes.old.halves }
    ensures capacity { vec_capacity nodes.new.halves ≡ vec_capacity nodes.old.halves }
{
    if i == 0 {
        nodes.root.node = node;
    } else if i <= nodes.halves.len() {
        nodes.halves[i - 1].node = node;
    }
}

/// Sets one of a node's labels, with the cover beside it.
fn put_slot(nodes: &mut Nodes, i: usize, label: Label, slot: Slot)
    ensures cells { cells_of nodes.new ≡ slice_set (cells_of nodes.old) i (with_slot label slot
        (cell_at (cells_of nodes.old) i)) }
    ensures kept { bests_of nodes.new ≡ bests_of nodes.old }
    ensures free { nodes.new.free ≡ nodes.old.free }
    ensures len { vec_len nodes.new.halves ≡ vec_len nodes.old.halves }
{
    if i == 0 {
        nodes.root.node.set_slot(label, slot);
    } else if i <= nodes.halves.len() {
        nodes.halves[i - 1].node.set_slot(label, slot);
    }
}

/// Exchanges what a place keeps. The nodes stay.
pub(crate) fn exchange(nodes: &mut Nodes, i: usize, best: &mut Best)
    ensures cells { cells_of nodes.new ≡ cells_of nodes.old }
    ensures kept { (j : ℕ) → j ≤ vec_len nodes.old.halves
        → best_in nodes.new j ≡ put_at (best_in nodes.old) i best.old j }
    ensures put { i ≤ vec_len nodes.old.halves → (j : ℕ)
        → best_in nodes.new j ≡ put_at (best_in nodes.old) i best.old j }
    ensures given { i ≤ vec_len nodes.old.halves → best.new ≡ best_in nodes.old i }
    ensures free { nodes.new.free ≡ nodes.old.free }
    ensures len { vec_len nodes.new.halves ≡ vec_len nodes.old.halves }
    ensures capacity { vec_capacity nodes.new.halves ≡ vec_capacity nodes.old.halves }
{
    if i == 0 {
        mem::swap(&mut nodes.root.best, best);
    } else if i <= nodes.halves.len() {
        mem::swap(&mut nodes.halves[i - 1].best, best);
    }
}

/// Puts a node at a place, with what it keeps.
pub(crate) fn fill(nodes: &mut Nodes, i: usize, node: Node, best: Best)
    ensures cells { cells_of nodes.new ≡ slice_set (cells_of nodes.old) i node }
    ensures kept { (j : ℕ) → j ≤ vec_len nodes.old.halves
        → best_in nodes.new j ≡ put_at (best_in nodes.old) i best j }
    ensures put { i ≤ vec_len nodes.old.halves → (j : ℕ)
        → best_in nodes.new j ≡ put_at (best_in nodes.old) i best j }
    ensures free { nodes.new.free ≡ nodes.old.free }
    ensures len { vec_len nodes.new.halves ≡ vec_len nodes.old.halves }
    ensures capacity { vec_capacity nodes.new.halves ≡ vec_capacity nodes.old.halves }
{
    let place = Place { node, best };
    if i == 0 {
        nodes.root = place;
    } else if i <= nodes.halves.len() {
        nodes.halves[i - 1] = place;
    }
}

/// What a place keeps, or what is given for a place that there isn't.
pub(crate) fn best_at<'a>(nodes: &'a Nodes, i: usize, none: &'a Best) -> &'a Best
    requires { none.now ≡ best_one 0 }
    ensures { result.now ≡ best_in nodes.now i }
{
    if i == 0 {
        return &nodes.root.best;
    }
    match nodes.halves.get(i - 1) {
        Some(place) => &place.best,
        None => none,
    }
}

/// Longest match below a node, for an address of which the path is left.
pub(crate) fn answer(nodes: &Nodes, i: usize, label: Label, path: Path, inherited: u16) -> u16
    requires { path.left ≤ 128 }
    ensures { (d : ℕ) → path.left < d → result
        ≡ lpm (rows_of label (walks_at d (cells_of nodes.now) i)) (path_steps path) inherited }
{
    let node = read(nodes, i);
    let hop = node.hop(label).unwrap_or(inherited);
    if path.left == 0 {
        return hop;
    }
    let at = path.left - 1;
    let rest = Path { left: at, ..path };
    match node.half(bit_at(path.bits, at)) {
        None => hop,
        Some(j) => answer(nodes, j, label, rest, hop),
    }
}

/// What a path inherits from the entries: the hop of the longest one that it is strictly within.
pub(crate) fn inherited(nodes: &Nodes, i: usize, path: Path, hop: u16) -> u16
    requires { path.left ≤ 128 }
    ensures { (d : ℕ) → path.left < d → result
        ≡ above (path_steps path) (walks_at d (cells_of nodes.now) i).entries hop }
{
    if path.left == 0 {
        return hop;
    }
    let node = read(nodes, i);
    let hop = node.entry.hop.unwrap_or(hop);
    let at = path.left - 1;
    let rest = Path { left: at, ..path };
    match node.half(bit_at(path.bits, at)) {
        None => hop,
        Some(j) => inherited(nodes, j, rest, hop),
    }
}

/// What the addresses of a half get from a label's table there.
fn cover_behind(nodes: &Nodes, label: Label, half: Option<usize>) -> Cover
    ensures { result ≡ cover_at (cells_of nodes.now) label half }
{
    match half {
        None => Slot::bare().kept.open(),
        Some(j) => cover(read(nodes, j), label),
    }
}

/// What the addresses of a node's region get from a label's table there.
pub(crate) fn cover(node: Node, label: Label) -> Cover
    ensures { result ≡ cover_of label node }
{
    match label {
        Label::Route => node.route.kept.open(),
        Label::Entry => node.entry.kept.open(),
    }
}

/// A label with this hop, and its cover computed from those of the halves, whose places are given, or 0 if one is no node.
fn told(nodes: &Nodes, low: u32, high: u32, label: Label, hop: Option<u16>) -> Slot
    ensures { result ≡ slot_over label hop (cells_of nodes.now) low high }
{
    let low = cover_behind(nodes, label, linked(low));
    let high = cover_behind(nodes, label, linked(high));
    Slot::over(hop, Cover::over(hop, low, high))
}

/// A node with one of its labels set, and its cover computed from those of the halves.
pub(crate) fn retell(nodes: &Nodes, node: Node, label: Label, hop: Option<u16>) -> Node
    ensures { result ≡ relabelled label hop (cells_of nodes.now) node }
{
    let slot = told(nodes, node.low, node.high, label, hop);
    match label {
        Label::Route => Node {
            route: slot,
            ..node
        },
        Label::Entry => Node {
            entry: slot,
            ..node
        },
    }
}

/// Sets one of a node's labels, with its cover computed from those of the halves, and returns whether that is another than it was.
pub(crate) fn update_node(nodes: &mut Nodes, i: usize, label: Label, hop: Option<u16>) -> bool
    ensures cells { cells_of nodes.new ≡ slice_set (cells_of nodes.old) i (relabelled label hop
        (cells_of nodes.old) (cell_at (cells_of nodes.old) i)) }
    ensures same { result ≡ false → cover_of label (relabelled label hop (cells_of nodes.old)
        (cell_at (cells_of nodes.old) i)) ≡ cover_of label (cell_at (cells_of nodes.old) i) }
    ensures kept { bests_of nodes.new ≡ bests_of nodes.old }
    ensures free { nodes.new.free ≡ nodes.old.free }
    ensures len { vec_len nodes.new.halves ≡ vec_len nodes.old.halves }
{
    let node = read(nodes, i);
    let slot = told(nodes, node.low, node.high, label, hop);
    put_slot(nodes, i, label, slot);
    !slot.kept.is_same(node.slot(label).kept)
}

/// Sets the hop of a path that has a node, or takes the path's hop away. Covers are computed again on the way up as far as they
/// change; it returns whether the node's own has.
pub(crate) fn assign(
    nodes: &mut Nodes,
    i: usize,
    label: Label,
    path: Path,
    hop: Option<u16>,
) -> bool
    requires few { path.left ≤ 128 }
    ensures len { vec_len nodes.new.halves ≡ vec_len nodes.old.halves }
    ensures kept { bests_of nodes.new ≡ bests_of nodes.old }
    ensures halves { HalvesStay (cells_of nodes.old) (cells_of nodes.new) }
    ensures free { nodes.new.free ≡ nodes.old.free }
    ensures set { (d : ℕ) (name : ℕ → Owner) (p : List Bool) → path.left < d
        → IsTree d (cells_of nodes.old) name i p → CanEdit (path_steps path) hop (walks_at d
        (cells_of nodes.old) i).nodes → IsSet d label (path_steps path) hop (cells_of nodes.old)
        (cells_of nodes.new) name i p }
    ensures same { (d : ℕ) (name : ℕ → Owner) (p : List Bool) → path.left < d
        → IsTree d (cells_of nodes.old) name i p → CanEdit (path_steps path) hop (walks_at d
        (cells_of nodes.old) i).nodes → result ≡ false → cover_of label (cell_at (cells_of nodes.new)
        i) ≡ cover_of label (cell_at (cells_of nodes.old) i) }
{
    if path.left == 0 {
        return update_node(nodes, i, label, hop);
    }
    let at = path.left - 1;
    let rest = Path { left: at, ..path };
    match read(nodes, i).half(bit_at(path.bits, at)) {
        None => false,
        Some(j) => {
            let changed = assign(nodes, j, label, rest, hop);
            climb(nodes, i, label, changed)
        }
    }
}

/// The hop that all of a path's addresses get, or none if two get different ones.
pub(crate) fn uniform(
    nodes: &Nodes,
    i: usize,
    label: Label,
    path: Path,
    inherited: u16,
) -> Option<u16>
    requires { path.left ≤ 128 }
    ensures { (d : ℕ) (name : ℕ → Owner) (p : List Bool) (n : ℕ) → path.left < d
        → IsTree d (cells_of nodes.now) name i p → path.left ≤ n → FitsWidth n (rows_of label (walks_at d
        (cells_of nodes.now) i)) → IsUniform n (rows_of label (walks_at d (cells_of nodes.now) i))
        inherited (path_steps path) result }
{
    let node = read(nodes, i);
    if path.left == 0 {
        return cover(node, label).only(inherited);
    }
    let hop = node.hop(label).unwrap_or(inherited);
    let at = path.left - 1;
    let rest = Path { left: at, ..path };
    match node.half(bit_at(path.bits, at)) {
        None => Some(hop),
        Some(j) => uniform(nodes, j, label, rest, hop),
    }
}

/// Hands on the table of one label from a node on, which stands for the prefix, in the order of prefixes.
#[cycle(tell)]
pub(crate) fn tell<S: EntrySink>(
    nodes: &Nodes,
    i: usize,
    label: Label,
    prefix: &Prefix,
    out: &mut S,
) -> Result<(), AllocError>
    requires { S.ready out.old }
    ensures ready { OnOk result (S.ready out.new) }
    ensures takes { (d : ℕ) → width prefix.now.family - prefix.now.len < d
        → FitsWidth (width prefix.now.family - prefix.now.len) (rows_of label (walks_at d (cells_of nodes.now)
        i)) → OnOk result (S.takes out.old (of_table prefix.now.family (lift (prefix_as prefix.now).bits
        (rows_of label (walks_at d (cells_of nodes.now) i)))) out.new) }
{
    let node = read(nodes, i);
    emit_entry(prefix, node.hop(label), out)?;
    if prefix.len == prefix.family.width() {
        return Ok(());
    }
    tell_half(nodes, node.half(false), label, prefix, false, out)?;
    tell_half(nodes, node.half(true), label, prefix, true, out)?;
    Ok(())
}

/// The same of the half of the prefix that has this bit next, if it is a node.
#[cycle(tell)]
fn tell_half<S: EntrySink>(
    nodes: &Nodes,
    half: Option<usize>,
    label: Label,
    prefix: &Prefix,
    bit: bool,
    out: &mut S,
) -> Result<(), AllocError>
    requires longer { prefix.now.len < width prefix.now.family }
    requires ready { S.ready out.old }
    ensures ready { OnOk result (S.ready out.new) }
    ensures takes { (d : ℕ) → width prefix.now.family - prefix.now.len ≤ d
        → FitsWidth (width prefix.now.family - prefix.now.len - 1) (rows_of label (from_half (walks_at d
        (cells_of nodes.now)) half)) → OnOk result (S.takes out.old (of_table prefix.now.family
        (lift (half_at bit (prefix_as prefix.now)).bits (rows_of label (from_half (walks_at d (cells_of
        nodes.now)) half)))) out.new) }
{
    if let Some(j) = half {
        tell(nodes, j, label, &prefix.half(bit), out)?;
    }
    Ok(())
}

/// Whether a path has a node.
pub(crate) fn is_node(nodes: &Nodes, i: usize, path: Path) -> bool
    requires { path.left ≤ 128 }
    ensures { (d : ℕ) → path.left < d → result ≡ has_node (path_steps path) (walks_at d (cells_of
        nodes.now) i).nodes }
{
    if path.left == 0 {
        return true;
    }
    let at = path.left - 1;
    let rest = Path { left: at, ..path };
    match read(nodes, i).half(bit_at(path.bits, at)) {
        None => false,
        Some(j) => is_node(nodes, j, rest),
    }
}

/// Takes a place for a node: the first spare one, or a new one after all others.
fn take(nodes: &mut Nodes) -> u32
    requires room { vec_len nodes.old.halves + 1 ≤ vec_capacity nodes.old.halves }
    requires few { vec_len nodes.old.halves + 1 < 2 ^ 32 }
    ensures len { vec_len nodes.new.halves ≤ vec_len nodes.old.halves + 1 }
    ensures capacity { vec_capacity nodes.new.halves ≡ vec_capacity nodes.old.halves }
    ensures gives { (name : ℕ → Owner) (n : ℕ) (r : List Bool)
        → HasSpares (cells_of nodes.old) nodes.old.free name n → GivesPlace r (cells_of nodes.old)
        (cells_of nodes.new) nodes.new.free name result }
    ensures kept { (j : ℕ) → best_in nodes.new j ≡ best_in nodes.old j }
{
    let spare = nodes.free;
    if spare != 0 {
        nodes.free = read(nodes, spare as usize).low;
        return spare;
    }
    let at = nodes.halves.len() as u32 + 1;
    nodes.halves.push_reserved(bare_place());
    at
}

/// Makes a half of a node a node, which keeps this, and returns its place.
pub(crate) fn split(nodes: &mut Nodes, i: usize, bit: bool, best: Best) -> usize
    requires room { vec_len nodes.old.halves + 1 ≤ vec_capacity nodes.old.halves }
    requires few { vec_len nodes.old.halves + 1 < 2 ^ 32 }
    ensures len { vec_len nodes.new.halves ≤ vec_len nodes.old.halves + 1 }
    ensures capacity { vec_capacity nodes.new.halves ≡ vec_capacity nodes.old.halves }
    ensures split { (d : ℕ) (name : ℕ → Owner) (n : ℕ) (p : List Bool)
        → half_place (cell_at (cells_of nodes.old) i) bit ≡ None → 1 < d
        → IsTree d (cells_of nodes.old) name i p → HasSpares (cells_of nodes.old) nodes.old.free name n
        → IsSplit d bit (cells_of nodes.old) (cells_of nodes.new) nodes.new.free name i p result }
    ensures kept { (j : ℕ) → j ≤ vec_len nodes.new.halves
        → best_in nodes.new j ≡ put_at (best_in nodes.old) result best j }
{
    let node = read(nodes, i);
    let at = take(nodes);
    let j = at as usize;
    fill(nodes, j, leaf(), best);
    let new = join_half(node, at, bit);
    put(nodes, i, new);
    j
}

/// The node with a half that is a node, at this place.
fn join_half(node: Node, half: u32, bit: bool) -> Node
    ensures { result ≡ with_half node half bit }
{
    if bit {
        Node { high: half, ..node }
    } else {
        Node { low: half, ..node }
    }
}

/// Makes nodes down to a path, below a node that inherits the hop. It changes no table. The new ones keep what stands for
/// their regions.
pub(crate) fn grow(nodes: &mut Nodes, i: usize, path: Path, inherited: u16)
    requires bits { path.left ≤ 128 }
    requires room { vec_len nodes.old.halves + path.left ≤ vec_capacity nodes.old.halves }
    requires few { vec_len nodes.old.halves + path.left < 2 ^ 32 }
    ensures nodes { (d : ℕ) (name : ℕ → Owner) (n : ℕ) (p : List Bool) → path.left < d
        → IsTree d (cells_of nodes.old) name i p → HasSpares (cells_of nodes.old) nodes.old.free name n
        → MakesRoom d (path_steps path) (cells_of nodes.old) (cells_of nodes.new) nodes.new.free name i
        p }
    ensures best { (d : ℕ) (name : ℕ → Owner) (n : ℕ) (p : List Bool) → path.left < d
        → IsTree d (cells_of nodes.old) name i p → HasSpares (cells_of nodes.old) nodes.old.free name n
        → AreBest d (cells_of nodes.old) (best_in nodes.old) (λ a. lpm (walks_at d (cells_of nodes.old)
        i).routes a inherited) i → IsGrown d (cells_of nodes.new) name i p (λ a. lpm (walks_at d
        (cells_of nodes.old) i).routes a inherited) (best_in nodes.old) (best_in nodes.new) }
{
    if path.left == 0 {
        return;
    }
    let at = path.left - 1;
    let rest = Path { left: at, ..path };
    let bit = bit_at(path.bits, at);
    let node = read(nodes, i);
    let hop = node.route.hop.unwrap_or(inherited);
    match node.half(bit) {
        Some(j) => grow(nodes, j, rest, hop),
        None => {
            let j = split(nodes, i, bit, Best::one(hop));
            grow(nodes, j, rest, hop);
        }
    }
}

/// Computes the cover of a node again if that of a half has changed, and returns whether it is another than it was.
pub(crate) fn climb(nodes: &mut Nodes, i: usize, label: Label, changed: bool) -> bool
    ensures kept { bests_of nodes.new ≡ bests_of nodes.old }
    ensures free { nodes.new.free ≡ nodes.old.free }
    ensures len { vec_len nodes.new.halves ≡ vec_len nodes.old.halves }
    ensures climbs { Climbs label changed result (cells_of nodes.old) (cells_of nodes.new) i }
{
    if !changed {
        return false;
    }
    let own = read(nodes, i).hop(label);
    update_node(nodes, i, label, own)
}

/// Sets the hop of one of a path's labels, below a node that inherits the hop from the routes, and makes nodes down to the path:
/// in one walk there and back. It returns whether the cover of the label is another at the node than it was. The new nodes keep
/// what stands for their regions once a route is set.
pub(crate) fn grow_label<C: Counter>(
    nodes: &mut Nodes,
    i: usize,
    path: Path,
    inherited: u16,
    label: Label,
    hop: u16,
    steps: &mut C,
) -> bool
    requires bits { path.left ≤ 128 }
    requires room { vec_len nodes.old.halves + path.left ≤ vec_capacity nodes.old.halves }
    requires few { vec_len nodes.old.halves + path.left < 2 ^ 32 }
    ensures made { (d : ℕ) (name : ℕ → Owner) (n : ℕ) (p : List Bool) → path.left < d
        → IsTree d (cells_of nodes.old) name i p → HasSpares (cells_of nodes.old) nodes.old.free name n
        → IsPlaced d label (path_steps path) hop (cells_of nodes.old) (cells_of nodes.new)
        nodes.new.free name i p (λ a. lpm (laid (route_set label hop) (path_steps path) (walks_at d
        (cells_of nodes.old) i).routes) a inherited) (best_in nodes.old) (best_in nodes.new) result }
    ensures steps { C.count steps.new ≤ C.count steps.old + new_nodes (cells_of nodes.old)
        (path_steps path) i }
{
    if path.left == 0 {
        return update_node(nodes, i, label, Some(hop));
    }
    let node = read(nodes, i);
    let at = path.left - 1;
    let rest = Path { left: at, ..path };
    let bit = bit_at(path.bits, at);
    let below = node.route.hop.unwrap_or(inherited);
    match node.half(bit) {
        Some(j) => {
            let changed = grow_label(nodes, j, rest, below, label, hop, steps);
            climb(nodes, i, label, changed)
        }
        None => {
            let best = fresh(at, below, label.route(hop));
            let j = split(nodes, i, bit, best);
            steps.tick();
            let changed = grow_label(nodes, j, rest, below, label, hop, steps);
            climb(nodes, i, label, changed)
        }
    }
}

/// The same, if there may be no room yet for the nodes; it takes memory only if the path is no node.
///
/// # Errors
///
/// Out of memory, also if there would be 2^31 nodes or more; then nothing has changed.
pub(crate) fn set_label(
    nodes: &mut Nodes,
    i: usize,
    path: Path,
    inherited: u16,
    label: Label,
    hop: u16,
) -> Result<bool, AllocError>
    requires bits { path.left ≤ 128 }
    ensures made { IfOk result (λ more. (d : ℕ) (name : ℕ → Owner) (n : ℕ) (p : List Bool)
        → path.left < d
        → IsTree d (cells_of nodes.old) name i p → HasSpares (cells_of nodes.old) nodes.old.free name n
        → IsPlaced d label (path_steps path) hop (cells_of nodes.old) (cells_of nodes.new)
        nodes.new.free name i p (λ a. lpm (laid (route_set label hop) (path_steps path) (walks_at d
        (cells_of nodes.old) i).routes) a inherited) (best_in nodes.old) (best_in nodes.new) more) }
    ensures err { OnErr result ((cells_of nodes.new ≡ cells_of nodes.old)
        × (nodes.new.free ≡ nodes.old.free) × ((j : ℕ) → best_in nodes.new j ≡ best_in nodes.old j)) }
    ensures held { (d : ℕ) → path.left < d → has_node (path_steps path) (walks_at d (cells_of nodes.old)
        i).nodes ≡ true → IsOk result }
{
    if path.left == 0 {
        return Ok(update_node(nodes, i, label, Some(hop)));
    }
    let node = read(nodes, i);
    let at = path.left - 1;
    let rest = Path { left: at, ..path };
    match node.half(bit_at(path.bits, at)) {
        Some(j) => {
            let below = node.route.hop.unwrap_or(inherited);
            let changed = set_label(nodes, j, rest, below, label, hop)?;
            Ok(climb(nodes, i, label, changed))
        }
        None => {
            reserve(nodes, path.left as usize)?;
            let mut none = Uncounted;
            Ok(grow_label(nodes, i, path, inherited, label, hop, &mut none))
        }
    }
}

/// The most places of halves there may be; with the root's it is 2^31 - 1.
pub(crate) const MOST: usize = 0x7fff_fffe;

/// Makes sure that `more` further places take no memory.
///
/// # Errors
///
/// Out of memory, also if there would be 2^31 nodes or more.
pub(crate) fn reserve(nodes: &mut Nodes, more: usize) -> Result<(), AllocError>
    requires { more ≤ 128 }
    ensures cells { (cells_of nodes.new ≡ cells_of nodes.old) × (nodes.new.free ≡ nodes.old.free) }
    ensures len { vec_len nodes.new.halves ≡ vec_len nodes.old.halves }
    ensures kept { (j : ℕ) → best_in nodes.new j ≡ best_in nodes.old j }
    ensures room { OnOk result ((vec_len nodes.new.halves + more ≤ vec_capacity nodes.new.halves)
        × (vec_len nodes.new.halves + more < 2 ^ 32)) }
{
    if nodes.halves.len() > MOST - more {
        return Err(AllocError);
    }
    nodes.halves.reserve(more)?;
    Ok(())
}

/// The nodes of a tree with no routes and no entries: all addresses get none.
pub(crate) fn root_alone(alloc: Global) -> Nodes
    ensures cells { cells_of result ≡ blank_cell ∷ [] }
    ensures kept { (i : ℕ) → best_in result i ≡ best_one 0 }
    ensures free { result.free ≡ 0 }
    ensures len { vec_len result.halves ≡ 0 }
{
    Nodes {
        halves: Vec::new(alloc),
        root: bare_place(),
        free: 0,
    }
}
