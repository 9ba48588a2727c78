//! The routes that are chosen of candidates, as a source of entries.

use fib_prefix::Entry;
use orig_tree::EntrySource;
use route_choice::FamilyRoutes;

/// The routes of a family, one by one, for a tree to be built of.
#[derive(Drop)]
pub(crate) struct RouteSource<'a>(pub(crate) FamilyRoutes<'a>);

impl<'a> EntrySource for RouteSource<'a> {
    ghost left = { λ s. s.0 };

    fn first(&self) -> Option<Entry> {
        self.0.first()
    }

    fn pass(&mut self) {
        self.0.pass();
    }
}
