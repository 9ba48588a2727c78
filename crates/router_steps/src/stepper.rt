//! The steps.

ghost use Rattle.std.specs.Prelude.{◌≡◌, ◌<◌, ◌+◌, ◌^◌, [], List, None, Some, IfErr, IfOk, IfSome, OnOk, map, option_map};
ghost use Rattle.route_model.specs.Events.{Elem as model_elem, elem_prefix};
ghost use Rattle.fib_addr.specs.Views.{addr_as};
ghost use Rattle.fib_prefix.specs.Views.{elem_as, event_as};
ghost use Rattle.fib_engine.specs.Stands.{EngineStands};
ghost use Rattle.fib_router.specs.Router.{IsBegunIn};
ghost use Rattle.poptrie_update.specs.Cursors.{IsFirst};
ghost use Rattle.step_script.specs.Machine.{World, State, at_first};
ghost use Rattle.step_script.specs.Rows.{printed_number};
ghost use Rattle.step_script.specs.RowViews.{step_row_as};
ghost use Rattle.step_script.specs.Script.{opens, goes, prepares, stores, ends, cancels};
ghost use Rattle.step_script.specs.Steps.{step_as};
ghost use Rattle.step_script.specs.Texts.{HasWritten};
ghost use Rattle.router_steps.specs.Calls.{open_row, store_row};
ghost use Rattle.router_steps.specs.Hops.{arena_family, arena_within, brought_at, brought_in, read_row, told_hop};
ghost use Rattle.router_steps.specs.Runs.{ArePrinted, Comes, IsAnywhere, IsAtFirst, IsPrinted, IsStepper, IsStop, StepLeads, StepsEndBy, StopsBy, cursors_in};
ghost use Rattle.router_steps.specs.Stepping.{world_of};
ghost use Rattle.router_steps.specs.Upcoming.{IsNextIn};

use crate::error::StepError;
use crate::upcoming::Upcoming;
use fib_engine::Engine;
use fib_prefix::{Addr, Elem, Event, Family, Hop};
use fib_router::{Begun, NotBegun, Oldest, Router};
use poptrie_build::TrieFull;
use poptrie_set::crowded_law;
use poptrie_update::{Cursors, CursorsFull, NotOpen};
use std::alloc::{AllocError, Global};
use step_script::{Row, Step, StepText};

/// The engine with its live tries, the lookups that are open in them, the events that are still to come, and the one that is begun.
pub struct Stepper<'a> {
    router: Router,
    v4: Cursors,
    v6: Cursors,
    upcoming: Upcoming<'a>,
    ended: u64,
    begun: Option<Begun>,
}

/// The printed number of a lookup.
fn printed(family: Family, number: u8) -> u8
    requires { number < 64 }
    ensures { result ≡ printed_number family number }
{
    match family {
        Family::V4 => number,
        Family::V6 => number + 64,
    }
}

/// The row of a lookup that is opened, or isn't.
fn row_of_open(family: Family, opened: Result<u8, CursorsFull>) -> Row
    requires { IfOk opened (λ n. n < 64) }
    ensures { step_row_as result ≡ open_row family opened }
{
    match opened {
        Ok(number) => Row::Opened(printed(family, number)),
        Err(_) => Row::Full,
    }
}

/// The row of a store.
fn row_of_store(is_made: bool) -> Row
    ensures { step_row_as result ≡ store_row is_made }
{
    if is_made { Row::Stored } else { Row::Nothing }
}

/// The family of an elementary event's prefix.
fn family_of(elem: &Elem) -> Family
    ensures { result ≡ (elem_prefix (elem_as elem.now)).family }
{
    match elem {
        Elem::Put(_via, prefix, _path, _hop) => prefix.family,
        Elem::Cut(_via, prefix) => prefix.family,
    }
}

/// What is said of a family's trie that is too small: of its arenas, 0 is the nodes' and 1 the leaves'.
fn trie_full(full: fib_router::TrieFull) -> (Family, TrieFull)
    ensures family { result.0 ≡ arena_family full.arena }
    ensures arena { result.1.arena ≡ arena_within full.arena }
    ensures places { (result.1.need ≡ full.need) × (result.1.have ≡ full.have) }
{
    let (family, arena) = match full.arena {
        0 => (Family::V4, 0),
        1 => (Family::V4, 1),
        2 => (Family::V6, 0),
        _ => (Family::V6, 1),
    };
    (
        family,
        TrieFull {
            arena,
            need: full.need,
            have: full.have,
        },
    )
}

/// Keeps the token of the event that is begun, if none is.
fn keep(begun: &mut Option<Begun>, event: Begun)
    requires { begun.old ≡ None }
    ensures { begun.new ≡ Some event }
{
    match begun.replace(event) {
        None => {}
        Some(_old) => unreachable!(),
    }
}

impl<'a> Stepper<'a> {
    /// No step was made yet: lookups are made in the engine's routes, and these events are to come.
    ///
    /// # Errors
    ///
    /// Out of memory.
    pub fn new(
        alloc: Global,
        engine: Engine,
        events: &'a [Event],
    ) -> Result<Stepper<'a>, AllocError>
        requires { (load : List model_elem) × EngineStands load [] engine }
        ensures { IfOk result (λ x. (load : List model_elem) → EngineStands load [] engine
            → IsStepper (world_of engine.sizes load (map event_as events.now)) at_first x) }
    {
        let v4 = Cursors::new(alloc)?;
        let v6 = Cursors::new(alloc)?;
        let router = Router::new(alloc, engine)?;
        Ok(Stepper {
            router,
            v4,
            v6,
            upcoming: Upcoming::new(alloc, events),
            ended: 0,
            begun: None,
        })
    }

    /// Opens a lookup.
    fn open(&mut self, addr: &Addr) -> Row
        requires { IsAnywhere self.old }
        ensures leads { (w : World) (s : State) → IsStepper w s self.old
            → StepLeads w s (opens (addr_as addr.now)) (step_row_as result) self.new }
        ensures ended { self.new.ended ≡ self.old.ended }
    {
        match addr.family {
            Family::V4 => {
                let opened = self.v4.start(self.router.live(Family::V4), addr);
                row_of_open(Family::V4, opened)
            }
            Family::V6 => {
                let opened = self.v6.start(self.router.live(Family::V6), addr);
                row_of_open(Family::V6, opened)
            }
        }
    }

    /// The next read of the lookup of this printed number.
    fn go(&mut self, number: u8) -> Row
        requires few { number < 128 }
        requires somewhere { IsAnywhere self.old }
        ensures leads { (w : World) (s : State) → IsStepper w s self.old
            → StepLeads w s (goes number) (step_row_as result) self.new }
        ensures ended { self.new.ended ≡ self.old.ended }
    {
        if number < 64 {
            let read = self.v4.go(self.router.live(Family::V4), number);
            self.row_of_read(number, read)
        } else {
            let read = self.v6.go(self.router.live(Family::V6), number - 64);
            self.row_of_read(number, read)
        }
    }

    /// The row of a read of the lookup of this printed number.
    fn row_of_read(&self, number: u8, read: Result<Option<Hop>, NotOpen>) -> Row
        ensures { step_row_as result ≡ read_row self.now.router.held.hops
            (brought_in self.now.begun) number read }
    {
        match read {
            Ok(None) => Row::WentOn(number),
            Ok(Some(hop)) => Row::Answered(number, self.hop_of(hop)),
            Err(_) => Row::NotOpen(number),
        }
    }

    /// The hop of a number: that of the routes, or the one that the event that is begun brings.
    fn hop_of(&self, hop: Hop) -> Option<Addr>
        ensures { option_map addr_as result ≡ told_hop self.now.router.held.hops
            (brought_in self.now.begun) hop.0 }
    {
        match self.router.hops().addr(hop) {
            Some(addr) => Some(addr),
            None => self.brought(hop),
        }
    }

    /// The hop that the event that is begun brings, if it has this number.
    fn brought(&self, hop: Hop) -> Option<Addr>
        ensures { option_map addr_as result ≡ brought_at (brought_in self.now.begun) hop.0 }
    {
        match &self.begun {
            None => None,
            Some(begun) => match begun.brings() {
                Some((number, addr)) if number.0 == hop.0 => Some(addr),
                _ => None,
            },
        }
    }

    /// The lookup of a family that started first.
    fn oldest(&self, family: Family) -> Oldest
        ensures { IsFirst result (cursors_in family self.now) }
    {
        match family {
            Family::V4 => self.v4.oldest(),
            Family::V6 => self.v6.oldest(),
        }
    }

    /// Prepares the next event.
    fn prepare(&mut self) -> Result<Row, StepError>
        requires few { self.old.ended + 1 < 2 ^ 64 }
        requires somewhere { IsAnywhere self.old }
        ensures takes { IfOk result (λ row. (w : World) (s : State) → IsStepper w s self.old
            → StepLeads w s prepares (step_row_as row) self.new) }
        ensures stops { IfErr result (λ e. (w : World) (s : State) → IsStepper w s self.old
            → IsStop w s e × IsStepper w s self.new) }
        ensures ended { self.new.ended ≡ self.old.ended }
    {
        if self.begun.is_some() {
            return Ok(Row::Busy);
        }
        match self.upcoming.next(&self.router)? {
            None => Ok(Row::Nothing),
            Some(elem) => self.begin(&elem),
        }
    }

    /// Begins the next event.
    fn begin(&mut self, elem: &Elem) -> Result<Row, StepError>
        requires few { self.old.ended + 1 < 2 ^ 64 }
        requires quiet { self.old.begun ≡ None }
        requires next { IsNextIn self.old.upcoming self.old.router.held.candidates
            (Some elem.now) }
        requires somewhere { IsAnywhere self.old }
        ensures takes { IfOk result (λ row. (w : World) (s : State) → IsStepper w s self.old
            → StepLeads w s prepares (step_row_as row) self.new) }
        ensures stops { IfErr result (λ e. (w : World) (s : State) → IsStepper w s self.old
            → IsStop w s e × IsStepper w s self.new) }
        ensures ended { self.new.ended ≡ self.old.ended }
    {
        let family = family_of(elem);
        let oldest = self.oldest(family);
        match self.router.begin(elem, oldest) {
            Ok(begun) => {
                keep(&mut self.begun, begun);
                Ok(Row::Prepared)
            }
            Err(NotBegun::HopsFull) => Err(StepError::HopsFull(self.ended + 1)),
            Err(NotBegun::TrieFull(full)) => {
                let (family, full) = trie_full(full);
                Err(StepError::TrieFull(self.ended + 1, family, full))
            }
            Err(NotBegun::Pinned { cursor, .. }) => {
                crowded_law();
                Ok(Row::Pinned(printed(family, cursor)))
            }
            Err(NotBegun::NoMemory) => Err(StepError::NoMemory),
        }
    }

    /// Makes the next store of the event that is begun.
    fn store(&mut self) -> Row
        requires { IsAnywhere self.old }
        ensures leads { (w : World) (s : State) → IsStepper w s self.old
            → StepLeads w s stores (step_row_as result) self.new }
        ensures ended { self.new.ended ≡ self.old.ended }
    {
        let Some(mut begun) = self.begun.take() else {
            return Row::Nothing;
        };
        let is_made = self.router.store(&mut begun);
        keep(&mut self.begun, begun);
        row_of_store(is_made)
    }

    /// Ends the event that is begun.
    fn end(&mut self) -> Row
        requires few { self.old.ended + 1 < 2 ^ 64 }
        requires somewhere { IsAnywhere self.old }
        ensures leads { (w : World) (s : State) → IsStepper w s self.old
            → StepLeads w s ends (step_row_as result) self.new }
        ensures ended { self.new.ended < self.old.ended + 2 }
    {
        let Some(begun) = self.begun.take() else {
            return Row::Nothing;
        };
        match self.router.end(begun) {
            Ok(_changes) => {
                self.upcoming.pass();
                self.ended += 1;
                Row::Ended
            }
            Err(begun) => {
                keep(&mut self.begun, begun);
                Row::Left
            }
        }
    }

    /// Cancels the event that is begun.
    fn cancel(&mut self) -> Row
        requires { IsAnywhere self.old }
        ensures leads { (w : World) (s : State) → IsStepper w s self.old
            → StepLeads w s cancels (step_row_as result) self.new }
        ensures ended { self.new.ended ≡ self.old.ended }
    {
        let Some(begun) = self.begun.take() else {
            return Row::Nothing;
        };
        match self.router.cancel(begun) {
            Ok(()) => Row::Cancelled,
            Err(begun) => {
                keep(&mut self.begun, begun);
                Row::Late
            }
        }
    }

    /// Makes one step.
    ///
    /// # Errors
    ///
    /// A `prepare` for which memory ran out, or after which the event that it is for can't be: it brings one different hop too many, or
    /// needs more places than a trie has.
    pub fn step(&mut self, step: &Step) -> Result<Row, StepError>
        requires few { self.old.ended + 1 < 2 ^ 64 }
        requires printed { IsPrinted (step_as step.now) }
        requires somewhere { IsAnywhere self.old }
        ensures takes { IfOk result (λ row. (w : World) (s : State) → IsStepper w s self.old
            → StepLeads w s (step_as step.now) (step_row_as row) self.new) }
        ensures stops { IfErr result (λ e. (w : World) (s : State) → IsStepper w s self.old
            → StopsBy w s (step_as step.now) e × IsStepper w s self.new) }
        ensures ended { self.new.ended < self.old.ended + 2 }
    {
        match step {
            Step::Open(addr) => Ok(self.open(addr)),
            Step::Go(number) => Ok(self.go(*number)),
            Step::Prepare => self.prepare(),
            Step::Store => Ok(self.store()),
            Step::End => Ok(self.end()),
            Step::Cancel => Ok(self.cancel()),
        }
    }

    /// Makes the steps of a script, in their order, and writes the row of each to a text that has none yet.
    ///
    /// # Errors
    ///
    /// As `step`'s, or memory runs out for the rows.
    pub fn run(&mut self, script: &[Step], text: &mut StepText) -> Result<(), StepError>
        requires printed { ArePrinted (map step_as script.now) }
        requires at_first { IsAtFirst self.old }
        requires empty { HasWritten [] text.old }
        ensures runs { OnOk result ((w : World) → IsStepper w at_first self.old
            → Comes w (map step_as script.now) text.new self.new) }
        ensures stops { IfErr result (λ e. (w : World) → IsStepper w at_first self.old
            → StepsEndBy w (map step_as script.now) e × IsAnywhere self.new) }
    {
        for step in script {
            let row = self.step(step)?;
            text.put(row)?;
        }
        Ok(())
    }

    /// Is done with the run: an event that is begun makes the stores that are left, and ends.
    pub fn close(self)
        requires { IsAnywhere self }
    {
        let Stepper {
            mut router,
            v4,
            v6,
            upcoming,
            ended: _,
            begun,
        } = self;
        if let Some(begun) = begun {
            drop(router.finish(begun));
        }
        drop(router);
        drop((v4, v6));
        drop(upcoming);
    }
}
