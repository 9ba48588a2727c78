//! Lists of VRPs.

ghost use Rattle.std.specs.Prelude.{◌≡◌, ◌++◌, [], map, option_map, option_to_list, slice_get, IfOk, OnOk};
ghost use Rattle.fib_addr.specs.Views.{prefix_as};
ghost use Rattle.fib_prefix.specs.Views.{event_as};
ghost use Rattle.fib_rov.specs.Lines.{vrps_in};
ghost use Rattle.fib_rov.specs.Lists.{IsListRead};
ghost use Rattle.fib_report.specs.Views.{invalid_as};
ghost use Rattle.fib_rov.specs.Rov.{announced_with, decided, invalid_in, invalid_of, judged_by_vrps, left_of, state_of};
ghost use Rattle.fib_rov.specs.Views.{vrp_as};
ghost use Rattle.fib_rov.specs.Index.{IsIndex, place_at};

use crate::index::{covering_before, last_covering, link_all, sort};
use crate::numbered::Numbered;
use crate::reading::{RovError, read_vrps};
use crate::state::State;
use crate::vrp::Vrp;
use fib_addr::Prefix;
use fib_prefix::Event;
use fib_report::Invalid;
use std::alloc::{AllocError, Global};
use std::marker::Model;

/// A list of VRPs with its index. Contracts see the plain list.
#[derive(Drop)]
pub struct Vrps {
    list: Vec<Vrp>,
    // the VRPs in the order of their prefixes
    sorted: Vec<Numbered>,
    // for each of these how many there are up to the last before it whose prefix contains its own and is another
    links: Vec<usize>,
}

impl Model for Vrps {
    ghost use Rattle.std.specs.Prelude.{List, map};
    ghost use Rattle.printed_text.specs.Rows.{Vrp};
    ghost use Rattle.fib_rov.specs.Views.{vrp_as};
    ghost use Rattle.fib_rov.specs.Index.{IsIndex};

    ghost Value = { List Vrp };

    ghost view = { λ v. map vrp_as v.list.items };

    ghost invariant = { λ v. IsIndex v.list.items v.sorted.items v.links.items };
}

/// The state of a route, by the VRPs that cover it.
fn decide(
    list: &[Vrp],
    sorted: &[Numbered],
    links: &[usize],
    prefix: &Prefix,
    origin: Option<u32>,
) -> State
    requires { IsIndex list.now sorted.now links.now }
    ensures { result ≡ state_of (map vrp_as list.now) (prefix_as prefix.now) origin }
{
    let count = list.len();
    let mut covering = count;
    let mut matching = count;
    let mut at = last_covering(sorted, links, prefix);
    while at > 0 {
        let vrp = &sorted[at - 1];
        covering = covering.min(vrp.number);
        if vrp.vrp().allows(prefix.len, origin) {
            matching = matching.min(vrp.number);
        }
        at = covering_before(sorted, links, at);
    }
    state(matching, covering, count)
}

/// The state by the number of the first VRP that matches and of the first that covers, each of which is the count if there is none.
fn state(matching: usize, covering: usize, count: usize) -> State
    ensures { result ≡ decided (place_at matching count) (place_at covering count) }
{
    if matching < count {
        State::Valid(matching as u64)
    } else if covering < count {
        State::Invalid(covering as u64)
    } else {
        State::NotFound
    }
}

/// Adds an announcement to a list, if there is one.
#[tactic(auto, using(crate::proofs::JudgedLists::row_added, crate::proofs::JudgedLists::none_added))]
fn add(row: Option<Invalid>, invalid: &mut Vec<Invalid>) -> Result<(), AllocError>
    ensures { OnOk result (map invalid_as invalid.new.items
        ≡ map invalid_as invalid.old.items ++ option_to_list (option_map invalid_as row)) }
{
    if let Some(row) = row {
        invalid.push(row)?;
    }
    Ok(())
}

impl Vrps {
    /// The empty list, by which no route is Invalid. It takes no memory.
    pub fn none(alloc: Global) -> Vrps
        ensures { result ≡ [] }
    {
        Vrps {
            list: Vec::new(alloc),
            sorted: Vec::new(alloc),
            links: Vec::new(alloc),
        }
    }

    /// The list with its index, which takes 40 octets for each VRP. It costs a sort of the list.
    ///
    /// # Errors
    ///
    /// Out of memory.
    pub fn new(alloc: Global, list: Vec<Vrp>) -> Result<Vrps, AllocError>
        ensures { IfOk result (λ v. v ≡ map vrp_as list.items) }
    {
        let sorted = sort(alloc, &list)?;
        let links = link_all(alloc, &sorted)?;
        Ok(Vrps {
            list,
            sorted,
            links,
        })
    }

    /// The list of a text with a VRP `PREFIX,MAXLEN,AS` on each line that isn't empty, in the order of its lines. MAXLEN is at least the
    /// prefix's length, and at most its family's width. It costs the text's length.
    ///
    /// # Errors
    ///
    /// `BadRow` names the first line that is neither empty nor a VRP, and says why (`printed_text::why` or `BAD_MAXLEN`); or out
    /// of memory.
    pub fn read(alloc: Global, text: &[u8]) -> Result<Vrps, RovError>
        ensures { IsListRead result (vrps_in text.now) }
    {
        let list = read_vrps(alloc, text)?;
        let vrps = Vrps::new(alloc, list)?;
        Ok(vrps)
    }

    /// The VRP of this number, from 0, if the list has one.
    pub fn get(&self, number: u64) -> Option<&Vrp>
        ensures { option_map (λ v. vrp_as v.now) result ≡ slice_get self.now number }
    {
        let number = usize::try_from(number).ok()?;
        self.list.get(number)
    }

    /// The state of a route of the prefix with this origin. It costs one search among the VRPs, at most a step for each length, and a step
    /// for each VRP that covers the route. It takes no memory.
    pub fn state(&self, prefix: &Prefix, origin: Option<u32>) -> State
        ensures { result ≡ state_of self.now (prefix_as prefix.now) origin }
    {
        decide(&self.list, &self.sorted, &self.links, prefix, origin)
    }

    /// What is left of an event if routes that are Invalid are dropped (RFC 6811, section 3). An announcement of such a route is
    /// the withdrawal of its way and prefix, with the number of the first VRP that covers it. Any other event stays as it is. It
    /// costs what `state` does, and takes no memory.
    pub fn judge(&self, event: &Event) -> (Event, Option<u64>)
        ensures { (event_as result.0, result.1) ≡ judged_by_vrps self.now (event_as event.now) }
    {
        if let Event::Announce(via, prefix, _, _, origin) = *event
            && let State::Invalid(number) = self.state(&prefix, origin)
        {
            return (Event::Withdraw(via, prefix), Some(number));
        }
        (*event, None)
    }

    /// The announcement that an event is, with the VRP of this number, if it is one and the list has such a VRP.
    fn invalid(&self, event: &Event, number: u64) -> Option<Invalid>
        ensures { option_to_list (option_map invalid_as result)
            ≡ announced_with self.now (event_as event.now) number }
    {
        let Event::Announce(via, prefix, _, _, origin) = *event else {
            return None;
        };
        let vrp = self.get(number)?;
        Some(Invalid {
            prefix,
            vrp_prefix: vrp.prefix,
            peer: via.peer.addr,
            origin,
            peer_as: via.peer.asn,
            vrp_as: vrp.asn,
            maxlen: vrp.maxlen,
        })
    }

    /// What is left of an event, and the announcement that it is, if it is an Invalid one.
    fn judge_one(&self, event: &Event) -> (Event, Option<Invalid>)
        ensures left { event_as result.0 ≡ (judged_by_vrps self.now (event_as event.now)).0 }
        ensures invalid { option_to_list (option_map invalid_as result.1)
            ≡ invalid_of self.now (event_as event.now) }
    {
        let (left, number) = self.judge(event);
        match number {
            Some(number) => (left, self.invalid(event, number)),
            None => (left, None),
        }
    }

    /// Judges events: each becomes what `judge` leaves of it, and the Invalid announcements among them are added to a list, each with the
    /// first VRP that covers it. An empty list of VRPs costs nothing.
    ///
    /// # Errors
    ///
    /// Out of memory.
    pub fn judge_all(
        &self,
        events: &mut [Event],
        invalid: &mut Vec<Invalid>,
    ) -> Result<(), AllocError>
        ensures left { OnOk result (map event_as events.new
            ≡ left_of self.now (map event_as events.old)) }
        ensures invalid { OnOk result (map invalid_as invalid.new.items
            ≡ map invalid_as invalid.old.items ++ invalid_in self.now (map event_as events.old)) }
    {
        if self.list.as_slice().is_empty() {
            return Ok(());
        }
        for event in events.iter_mut() {
            let (left, row) = self.judge_one(event);
            add(row, invalid)?;
            *event = left;
        }
        Ok(())
    }
}
