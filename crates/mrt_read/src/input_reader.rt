//! An input of records, which is read in pieces as its records are asked for.

ghost use Rattle.std.specs.Prelude.{◌≡◌, ◌+◌, ◌^◌, ◌≤◌, ◌<◌, [], length, map, IfOk, None, OnOk, OnErr};
ghost use Rattle.fib_io.specs.Reads.{Makes};
ghost use Rattle.fib_prefix.specs.Views.{event_as};
ghost use Rattle.wire_model.specs.Input.{start};
ghost use Rattle.mrt_read.specs.InputReading.{BeginCut, HoldsNoMore, IsNext, NextLeads};
ghost use Rattle.mrt_read.specs.Standing.{ReaderStands, reader_left, reader_records, reader_refusal, reader_skipped, reader_treated};
ghost use Rattle.mrt_read.specs.Whole.{FaultRose};

use crate::{Reader, WholeError};
use fib_io::{Inputs, piece_room, read_piece};
use fib_prefix::Event;
use std::alloc::{AllocError, Global};

/// Reads the next record through this room. Of the input as many octets were read as `at` says.
fn read_next<I: Inputs>(
    reader: &mut Reader,
    at: &mut u64,
    inputs: &mut I,
    name: &str,
    room: &mut [u8],
    events: &mut Vec<Event>,
) -> Result<bool, WholeError>
    requires some { 0 < length room.old }
    requires within { at.old ≤ 2 ^ 36 }
    requires few { HoldsNoMore reader.old at.old }
    ensures some { 0 < length room.new }
    ensures within { at.new ≤ 2 ^ 36 }
    ensures few { HoldsNoMore reader.new at.new }
    ensures next { IsNext (I.content inputs.old name.now) at.old reader.old result
        (map event_as events.new.items) at.new reader.new }
    ensures same { I.content inputs.new ≡ I.content inputs.old }
    ensures cause { FaultRose (I.faults inputs.old) (I.faults inputs.new) name.now result }
    ensures leads { Makes (I.reads inputs.old) (I.reads inputs.new)
        (NextLeads name.now at.old result at.new) }
    ensures cuts { Makes (I.reads inputs.old) (I.reads inputs.new)
        (BeginCut (I.content inputs.old name.now) at.old reader.old) }
{
    loop {
        if reader.read_events(events)? {
            return Ok(true);
        }
        let n = read_piece(inputs, name, *at, room)?;
        if n == 0 {
            reader.finish()?;
            return Ok(false);
        }
        reader.feed(&room[..n])?;
        *at += n as u64;
    }
}

/// A reader of an input of records. In memory are one record, one piece of the input, and the peer table.
#[derive(Drop)]
pub struct InputReader {
    reader: Reader,
    // room for a piece
    room: Vec<u8>,
    // how many octets were read
    at: u64,
    ghost some: { 0 < length room.items },
    ghost within: { at ≤ 2 ^ 36 },
    ghost few: { HoldsNoMore reader at },
}

impl InputReader {
    /// Nothing was read.
    ///
    /// # Errors
    ///
    /// No memory.
    pub fn new(alloc: Global) -> Result<InputReader, AllocError>
        ensures at { IfOk result (λ r. r.at ≡ 0) }
        ensures nothing { IfOk result (λ r. reader_left r.reader ≡ []) }
        ensures going { IfOk result (λ r. reader_refusal r.reader ≡ None) }
        ensures stands { IfOk result (λ r. ReaderStands [] start r.reader) }
    {
        let room = piece_room(alloc)?;
        Ok(InputReader {
            reader: Reader::new(alloc),
            room,
            at: 0,
        })
    }

    /// Reads the next record: its events take the place of what stood in `events`, none where it is skipped. False at the input's end.
    /// A piece of the input is read only once no whole record is left of those before it.
    ///
    /// # Errors
    ///
    /// The record breaks a rule, or is cut at the input's end; the input has more octets than are read. A failed read, or no memory.
    pub fn read_events<I: Inputs>(
        &mut self,
        inputs: &mut I,
        name: &str,
        events: &mut Vec<Event>,
    ) -> Result<bool, WholeError>
        ensures next { IsNext (I.content inputs.old name.now) self.old.at self.old.reader result
            (map event_as events.new.items) self.new.at self.new.reader }
        ensures within { self.new.at ≤ 2 ^ 36 }
        ensures same { I.content inputs.new ≡ I.content inputs.old }
        ensures cause { FaultRose (I.faults inputs.old) (I.faults inputs.new) name.now result }
        ensures leads { Makes (I.reads inputs.old) (I.reads inputs.new)
            (NextLeads name.now self.old.at result self.new.at) }
        ensures cuts { Makes (I.reads inputs.old) (I.reads inputs.new)
            (BeginCut (I.content inputs.old name.now) self.old.at self.old.reader) }
    {
        read_next(
            &mut self.reader,
            &mut self.at,
            inputs,
            name,
            &mut self.room,
            events,
        )
    }

    /// How many whole records were read, skipped ones too, the refused one not.
    pub fn records(&self) -> u64
        ensures { result ≡ reader_records self.now.reader }
    {
        self.reader.records()
    }

    /// How many of them were skipped.
    pub fn skipped(&self) -> u64
        ensures { result ≡ reader_skipped self.now.reader }
    {
        self.reader.skipped()
    }

    /// How many messages were treated as withdrawals (RFC 7606).
    pub fn treated(&self) -> u64
        ensures { result ≡ reader_treated self.now.reader }
    {
        self.reader.treated()
    }
}
