//! A node of a tree with what is below it, to walk down from.

ghost use Rattle.std.specs.Prelude.{◌≡◌};
ghost use Rattle.table_model.specs.Table.{root, half};
ghost use Rattle.orig_tree.specs.Walk.{behind, rows_of};

use crate::node::{Label, Nodes, read};
use std::marker::Model;

/// A node of the tree. Contracts see the tables of both labels from the node on.
#[derive(Drop)]
pub struct NodeRef<'a> {
    pub(crate) nodes: &'a Nodes,
    pub(crate) place: usize,
    /// How many levels of nodes there may be from it on, its own among them.
    pub(crate) levels: u8,
}

impl<'a> Model for NodeRef<'a> {
    ghost use Rattle.orig_tree.specs.Walk.{Walks};

    ghost Value = { Walks };

    ghost use Rattle.orig_tree.specs.Arena.{cells_of, walks_at};

    ghost view = { λ n. walks_at n.levels (cells_of n.nodes.now) n.place };
}

impl<'a> NodeRef<'a> {
    /// The hop of the node's own route or entry.
    pub fn hop(&self, label: Label) -> Option<u16>
        ensures { result ≡ root (rows_of label self.now) }
    {
        if self.levels == 0 {
            return None;
        }
        read(self.nodes, self.place).hop(label)
    }

    /// The node of one half, if there is one.
    pub fn half(&self, bit: bool) -> Option<NodeRef<'a>>
        ensures routes { (behind result).routes ≡ half bit self.now.routes }
        ensures entries { (behind result).entries ≡ half bit self.now.entries }
    {
        if self.levels == 0 {
            return None;
        }
        match read(self.nodes, self.place).half(bit) {
            None => None,
            Some(place) => Some(NodeRef {
                nodes: self.nodes,
                place,
                levels: self.levels - 1,
            }),
        }
    }
}
