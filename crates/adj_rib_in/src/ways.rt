//! What is offered for a prefix, by path source.

ghost use Rattle.std.specs.Prelude.{◌≡◌, [], Some, MatchResult, OnOk};
ghost use Rattle.std.specs.List.Sorted.{IsStrictlySortedBy};
ghost use Rattle.std.specs.Map.{keys_of};
ghost use Rattle.fib_prefix.specs.Order.{code_via_cmp};
ghost use Rattle.fib_prefix.specs.declared.event.Via as code;
ghost use Rattle.adj_rib_in.specs.Ways.{way_attrs, way_put, IsWayAt, BelongsAt};

use crate::keys::PathAttrs;
use fib_prefix::Via;
use std::alloc::{AllocError, Global};
use std::cmp::Ordering;
use std::marker::Model;

/// Offers by path source, one for each path source, in the order of path sources. It is for the few that a row has: they lie side by side, and one that
/// comes before others moves them.
#[derive(Drop)]
pub struct ViaAttrs {
    list: Vec<(Via, PathAttrs)>,
}

impl Model for ViaAttrs {
    ghost use Rattle.std.specs.List.Sorted.{IsStrictlySortedBy};
    ghost use Rattle.std.specs.Map.{keys_of};
    ghost use Rattle.fib_prefix.specs.Order.{code_via_cmp};
    ghost use Rattle.adj_rib_in.specs.Ways.{Ways};

    ghost Value = { Ways };

    ghost view = { λ w. w.list.items };

    ghost invariant = { λ w. IsStrictlySortedBy code_via_cmp (keys_of w.list.items) };
}

impl ViaAttrs {
    /// None.
    pub fn new(alloc: Global) -> ViaAttrs
        ensures { result ≡ [] }
    {
        ViaAttrs {
            list: Vec::new(alloc),
        }
    }

    /// Takes all out. Their room stays.
    pub fn clear(&mut self)
        ensures { self.new ≡ [] }
    {
        self.list.clear();
    }

    /// They, in the order of path sources.
    pub fn list(&self) -> &[(Via, PathAttrs)]
        ensures list { result.now ≡ self.now }
        ensures sorted { IsStrictlySortedBy code_via_cmp (keys_of self.now) }
    {
        &self.list
    }

    /// The place of a path source, or the one where it is to go.
    fn place_of(&self, via: &Via) -> Result<usize, usize>
        ensures { MatchResult result (IsWayAt self.now via.now) (BelongsAt self.now via.now) }
    {
        let mut at = self.list.len();
        while at > 0 {
            match self.list[at - 1].0.cmp(via) {
                Ordering::Less => return Err(at),
                Ordering::Equal => return Ok(at - 1),
                Ordering::Greater => at -= 1,
            }
        }
        Err(0)
    }

    /// Puts what is offered by a path source in the place of what was.
    ///
    /// # Errors
    ///
    /// Out of memory.
    pub fn put(&mut self, via: Via, attrs: PathAttrs) -> Result<(), AllocError>
        ensures { OnOk result ((v : code.Via) → way_attrs self.new v
            ≡ way_put (Some via) (Some attrs) v (way_attrs self.old v)) }
    {
        match self.place_of(&via) {
            Ok(at) => {
                let held = self.list[at].0;
                self.list[at] = (held, attrs);
                Ok(())
            }
            Err(at) => {
                self.list.insert(at, (via, attrs))?;
                Ok(())
            }
        }
    }
}
