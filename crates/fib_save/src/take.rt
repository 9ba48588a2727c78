//! Events, taken into candidates.

ghost use Rattle.std.specs.Prelude.{◌≡◌, map, OnOk};
ghost use Rattle.fib_prefix.specs.Views.{elem_as, event_as};
ghost use Rattle.route_model.specs.Choice.{after_elems, elems_of};
ghost use Rattle.mrt_write.specs.Reads.{after_events};

use fib_prefix::{Elem, Event};
use route_choice::Candidates;
use std::alloc::AllocError;

/// Takes elementary events.
fn take_elems(candidates: &mut Candidates, elems: &[Elem]) -> Result<(), AllocError>
    ensures { OnOk result (candidates.new.candidates
        ≡ after_elems candidates.old.candidates (map elem_as elems.now)) }
{
    for elem in elems {
        candidates.load(elem)?;
    }
    Ok(())
}

/// Takes an event. Only a lost session takes a list.
fn take_event(candidates: &mut Candidates, event: &Event) -> Result<(), AllocError>
    ensures { OnOk result (candidates.new.candidates ≡ after_elems candidates.old.candidates
        (elems_of candidates.old.candidates (event_as event.now))) }
{
    match *event {
        Event::Announce(via, prefix, path, hop, _) => {
            candidates.load(&Elem::Put(via, prefix, path, hop))
        }
        Event::Withdraw(via, prefix) => candidates.load(&Elem::Cut(via, prefix)),
        Event::Down(_) => {
            let elems = candidates.elementary(event)?;
            take_elems(candidates, &elems)
        }
    }
}

/// Takes events.
pub fn take_events(candidates: &mut Candidates, events: &[Event]) -> Result<(), AllocError>
    ensures { OnOk result (candidates.new.candidates
        ≡ after_events candidates.old.candidates (map event_as events.now)) }
{
    for event in events {
        take_event(candidates, event)?;
    }
    Ok(())
}
