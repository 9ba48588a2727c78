//! The events that are still to come.

ghost use Rattle.std.specs.Prelude.{◌≡◌, ◌∷◌, List, IfOk, map};
ghost use Rattle.route_model.specs.Events.{Elem as model_elem};
ghost use Rattle.route_model.specs.Choice.{Candidates, elems_after};
ghost use Rattle.fib_prefix.specs.Views.{event_as};
ghost use Rattle.router_steps.specs.Upcoming.{IsNextIn, at_hand, to_come};

use fib_prefix::{Elem, Event};
use fib_router::Router;
use std::alloc::{AllocError, Global};

/// The elementary events that are still to come: those of the event at hand, and after them those of more events, which are split
/// off only once the first of them is due.
#[derive(Drop)]
pub(crate) struct Upcoming<'a> {
    elems: Vec<Elem>,
    // how many of the elementary events at hand are over
    over: usize,
    events: &'a [Event],
}

impl<'a> Upcoming<'a> {
    /// Those of these events.
    pub(crate) fn new(alloc: Global, events: &'a [Event]) -> Upcoming<'a>
        ensures { (held : Candidates) → to_come result held
            ≡ elems_after held (map event_as events.now) }
    {
        Upcoming {
            elems: Vec::new(alloc),
            over: 0,
            events,
        }
    }

    /// The next one, which stays the next until it is over; none if none is left. An event that has none is passed over.
    ///
    /// # Errors
    ///
    /// Out of memory; what is to come stays.
    pub(crate) fn next(&mut self, router: &Router) -> Result<Option<Elem>, AllocError>
        ensures rest { to_come self.new router.now.held.candidates
            ≡ to_come self.old router.now.held.candidates }
        ensures next { IfOk result (IsNextIn self.new router.now.held.candidates) }
    {
        while self.over >= self.elems.len() {
            let Some((event, more)) = self.events.split_first() else {
                return Ok(None);
            };
            self.elems = router.elementary(event)?;
            self.over = 0;
            self.events = more;
        }
        Ok(Some(self.elems[self.over]))
    }

    /// The next one is over.
    pub(crate) fn pass(&mut self)
        requires { (elem : model_elem) × (more : List model_elem) × (at_hand self.old ≡ elem ∷ more) }
        ensures hand { (elem : model_elem) (more : List model_elem) → at_hand self.old ≡ elem ∷ more
            → at_hand self.new ≡ more }
        ensures events { self.new.events ≡ self.old.events }
    {
        self.over += 1;
    }
}
