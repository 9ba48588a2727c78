//! What an input of records brings.

ghost use Rattle.std.specs.Prelude.{◌≡◌, List, [], ◌^◌, ◌≤◌, length, IfErr, IfOk, Some};
ghost use Rattle.route_model.specs.Events.{Elem};
ghost use Rattle.fib_run.specs.Counts.{AreBounded};
ghost use Rattle.fib_io.specs.Reads.{Makes, Pass, PassInTime};
ghost use Rattle.fib_due.specs.Due.{feed_at};
ghost use Rattle.fib_due.specs.InTime.{FeedMayGoOn};
ghost use Rattle.fib_run.specs.Feeds.{EventNumbered, feed_end};
ghost use Rattle.fib_due.specs.Refusals.{Limits};
ghost use Rattle.fib_run.specs.Standing.{FeedsFrom, IsAtEvent, StateBrings, StateStands};

use crate::state::{FeedError, State, take_events};
use fib_due::MrtInput;
use fib_io::Inputs;
use fib_report::Invalid;
use fib_rov::Vrps;
use mrt_read::InputReader;
use std::alloc::Global;

/// What was counted of an input: its records, those of them that were skipped, its elementary events, and the messages that were treated
/// as withdrawals; and its announcements that are Invalid.
#[derive(Debug, Drop)]
pub struct Counts {
    /// The records.
    pub records: u64,
    /// The skipped ones.
    pub skipped: u64,
    /// The elementary events.
    pub events: u64,
    /// The messages treated as withdrawals (RFC 7606).
    pub treated: u64,
    /// The announcements that are Invalid, each with the first VRP that covers it, in their order.
    pub invalid: Vec<Invalid>,
}

/// Takes all that an input brings: it is read in pieces, and each record is taken before the next read. The candidates of
/// the inputs before it are few enough: 2^40 at most. An announcement that is Invalid by the list of VRPs is taken as its withdrawal.
///
/// # Errors
///
/// The first record that breaks a rule, or an elementary event that is refused; the input has more octets than are read; a failed
/// read, or out of memory.
pub fn feed<I: Inputs>(
    alloc: Global,
    inputs: &mut I,
    state: &mut State,
    vrps: &Vrps,
    which: MrtInput,
    name: &str,
) -> Result<Counts, FeedError>
    requires ready { IsAtEvent which 0 state.old.engine }
    requires few { length state.old.engine.candidates ≤ 2 ^ 40 }
    ensures brings { (limits : Limits) (before : List Elem) → StateStands which limits before [] state.old
        → StateBrings which limits before result state.new
        (feed_at limits.sizes (I.content inputs.old) vrps.now which before (Some name.now)) }
    ensures ready { IfOk result (λ counts. IsAtEvent which counts.events state.new.engine) }
    ensures few { IfOk result (λ counts. AreBounded (2 ^ 36) state.old.engine.candidates
        counts state.new.engine.candidates) }
    ensures same { I.content inputs.new ≡ I.content inputs.old }
    ensures cause { FeedsFrom (I.faults inputs.old) (I.faults inputs.new) name.now result }
    ensures reads { Makes (I.reads inputs.old) (I.reads inputs.new)
        (Pass (feed_end result) name.now) }
    ensures in_time { (limits : Limits) (before : List Elem) → StateStands which limits before [] state.old
        → Makes (I.reads inputs.old) (I.reads inputs.new) (PassInTime (I.content inputs.old name.now)
        (FeedMayGoOn limits.sizes vrps.now which before) (feed_end result) name.now) }
    ensures numbered { IfErr result (EventNumbered which) }
{
    let mut reader = InputReader::new(alloc)?;
    let mut more = Vec::new(alloc);
    let mut invalid = Vec::new(alloc);
    let mut events = 0;
    while reader.read_events(inputs, name, &mut more)? {
        vrps.judge_all(&mut more, &mut invalid)?;
        events = take_events(state, which, events, &more)?;
    }
    Ok(Counts {
        records: reader.records(),
        skipped: reader.skipped(),
        events,
        treated: reader.treated(),
        invalid,
    })
}
