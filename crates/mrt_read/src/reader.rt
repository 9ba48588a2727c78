//! The reader of an input that comes in pieces.

ghost use Rattle.std.specs.Prelude.{◌≡◌, ◌+◌, ◌-◌, ◌^◌, ◌≤◌, ◌<◌, None, OnErr, OnOk, [], length, map};
ghost use Rattle.fib_prefix.specs.Views.{event_as};
ghost use Rattle.mrt_read.specs.Views as views;
ghost use Rattle.std.specs.Option.{ForNone};
ghost use Rattle.mrt_read.specs.Framing as framing;
ghost use Rattle.mrt_read.specs.Framing.{framer_count};
ghost use Rattle.mrt_read.specs.Next.{NextGoes};
ghost use Rattle.wire_model.specs.Input.{start};

use crate::{Framed, Framer, Malformed};
use fib_prefix::Event;
use mrt_records::{PeerTable, RecordTold, Refusal, read_record};
use std::alloc::{AllocError, Global};
use thiserror::Error;

/// Why no events were taken.
#[derive(Clone, Copy, Debug, PartialEq, Eq, Error)]
pub enum EventsError {
    /// The next record breaks a rule.
    #[error("{0}")]
    Malformed(Malformed),
    /// Memory ran out.
    #[error("no memory")]
    NoMemory,
}

/// How many records are skipped by reading one that said this.
fn skips(told: RecordTold) -> u64
    ensures { result ≡ views.skips told }
{
    match told {
        RecordTold::Skipped => 1,
        RecordTold::Events | RecordTold::Treated => 0,
    }
}

/// How many messages are treated as withdrawals by reading a record that said this.
fn treats(told: RecordTold) -> u64
    ensures { result ≡ views.treats told }
{
    match told {
        RecordTold::Treated => 1,
        RecordTold::Events | RecordTold::Skipped => 0,
    }
}

/// What the next whole record said, its events in `events`; or `None` if there is none.
fn read_next(
    alloc: Global,
    framer: &mut Framer,
    events: &mut Vec<Event>,
    table: &mut Option<PeerTable>,
) -> Result<Option<RecordTold>, Refusal>
    requires { framing.framer_refusal framer.old ≡ None }
    ensures goes { NextGoes (record { framer = framer.old; table = table.old }) result
        (map event_as events.new.items) (record { framer = framer.new; table = table.new }) }
    ensures none { OnErr result (events.new.items ≡ []) }
{
    events.clear();
    match framer.next() {
        Err(malformed) => Err(Refusal::Rule(malformed.rule)),
        Ok(None) => Ok(None),
        Ok(Some(Framed { kind, sub, body })) => {
            match read_record(alloc, events, table, kind, sub, body) {
                Ok(told) => Ok(Some(told)),
                Err(Refusal::Rule(rule)) => Err(Refusal::Rule(rule)),
                Err(Refusal::NoMemory) => {
                    framer.again();
                    Err(Refusal::NoMemory)
                }
            }
        }
    }
}

/// An input of MRT records that is fed in pieces.
#[derive(Debug, Drop)]
pub struct Reader {
    alloc: Global,
    framer: Framer,
    table: Option<PeerTable>,
    refused: Option<Malformed>,
    records: u64,
    skipped: u64,
    treated: u64,
    ghost going: { ForNone refused ((framing.framer_refusal framer ≡ None) × (framer_count framer ≡ records)) },
    ghost taken: { framer_count framer ≤ records + 1 },
    ghost counted: { (skipped ≤ records) × (treated ≤ records) },
}

impl Reader {
    ghost use Rattle.mrt_read.specs.Standing.{ReaderAnswers, reader_end, ReaderFeeds, ReaderFilled, ReaderFills, ReaderIsUnchanged, ReaderIsUsedUp, reader_left, reader_next, reader_records, reader_refusal, reader_skipped, reader_treated, ReaderStands, ReaderTells, ReaderTook};
    ghost use Rattle.mrt_read.specs.Records.{result_of};

    /// A reader that was fed nothing.
    pub fn new(alloc: Global) -> Reader
        ensures nothing { reader_left result ≡ [] }
        ensures going { reader_refusal result ≡ None }
        ensures stands { ReaderStands [] start result }
    {
        Reader {
            alloc,
            framer: Framer::new(alloc),
            table: None,
            refused: None,
            records: 0,
            skipped: 0,
            treated: 0,
        }
    }

    /// Adds the piece to what was fed; if memory runs out, the reader is as it was. The records read, the octets left and those of the
    /// piece are fewer than 2^64 - 1 together: so the records can be counted, the refused one too.
    pub fn feed(&mut self, piece: &[u8]) -> Result<(), AllocError>
        requires few { reader_records self.old + length (reader_left self.old) + length piece.now < 2 ^ 64 - 1 }
        ensures ok { OnOk result (ReaderFeeds self.old piece.now self.new) }
        ensures err { OnErr result (ReaderIsUnchanged self.old self.new) }
    {
        self.framer.feed(piece)
    }

    /// Reads the next whole record of what was fed: its events take the place of what stood in `events`, none if it is skipped.
    /// False if there is no whole record; then `events` is empty.
    ///
    /// The first record that breaks a rule is refused, for good, and none of its events is given. If memory runs out,
    /// the reader is as it was.
    pub fn read_events(&mut self, events: &mut Vec<Event>) -> Result<bool, EventsError>
        ensures gives { ReaderFills result (map event_as events.new.items) (reader_next self.old) }
        ensures after { ReaderFilled self.old result (map event_as events.new.items) self.new }
        ensures none { OnErr result (events.new.items ≡ []) }
    {
        if let Some(refused) = self.refused {
            events.clear();
            return Err(EventsError::Malformed(refused));
        }
        match read_next(self.alloc, &mut self.framer, events, &mut self.table) {
            Ok(None) => Ok(false),
            Ok(Some(told)) => {
                self.records += 1;
                self.skipped += skips(told);
                self.treated += treats(told);
                Ok(true)
            }
            Err(Refusal::NoMemory) => Err(EventsError::NoMemory),
            Err(Refusal::Rule(rule)) => {
                let refused = Malformed {
                    number: self.records,
                    rule,
                };
                self.refused = Some(refused);
                Err(EventsError::Malformed(refused))
            }
        }
    }

    /// Takes the next whole record, as `read_events` does, and returns its events; `None` if there is no whole record.
    pub fn take_events(&mut self) -> Result<Option<Vec<Event>>, EventsError>
        ensures gives { ReaderAnswers result (reader_next self.old) }
        ensures after { ReaderTook self.old result self.new }
    {
        let mut events = Vec::new(self.alloc);
        match self.read_events(&mut events) {
            Ok(true) => Ok(Some(events)),
            Ok(false) => Ok(None),
            Err(error) => Err(error),
        }
    }

    /// Whether the input may end here: the refusal that is kept, or `HeaderCut` or `BodyCut` if a header or a body is cut.
    ///
    /// It may be asked only once `take_events` gives no further events, or a refusal: a whole record that is left would be
    /// passed over.
    pub fn finish(&self) -> Result<(), Malformed>
        requires { ReaderIsUsedUp self.now }
        ensures gives { result_of (λ x. x) result ≡ reader_end self.now }
        ensures tells { ReaderTells self.now result }
    {
        if let Some(refused) = self.refused {
            return Err(refused);
        }
        self.framer.finish()
    }

    /// How many whole records were read, skipped ones too, the refused one not.
    pub fn records(&self) -> u64
        ensures { result ≡ reader_records self.now }
    {
        self.records
    }

    /// How many of them were skipped.
    pub fn skipped(&self) -> u64
        ensures { result ≡ reader_skipped self.now }
    {
        self.skipped
    }

    /// How many messages were treated as withdrawals (RFC 7606).
    pub fn treated(&self) -> u64
        ensures { result ≡ reader_treated self.now }
    {
        self.treated
    }
}
