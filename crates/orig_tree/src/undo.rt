//! The last change of a route, and how it is taken back.

ghost use Rattle.std.specs.Prelude.{◌≡◌, Option, Some, None, cond};

use crate::best::Change;
use crate::path::Path;
use std::alloc::Global;

/// What a path had for a route, and what the nodes kept then: the changes that put it back, the last first.
#[derive(Drop)]
pub(crate) struct Undo {
    pub(crate) path: Path,
    pub(crate) changes: Vec<Change>,
    pub(crate) hop: Option<u16>,
}

/// What is to be kept of a change, which can be taken back if its path was a node already.
pub(crate) fn keep_if(was_node: bool, undo: Undo) -> Option<Undo>
    ensures { result ≡ cond was_node (Some undo) None }
{
    if was_node { Some(undo) } else { None }
}

/// The room that the changes of an undo took.
pub(crate) fn room_of(alloc: Global, undo: Option<Undo>) -> Vec<Change> {
    match undo {
        Some(undo) => undo.changes,
        None => Vec::new(alloc),
    }
}
