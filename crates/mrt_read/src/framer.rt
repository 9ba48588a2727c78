//! The framer: MRT records out of octets that come in pieces, however they were cut.
//!
//! A record is a Timestamp of 4 octets, a Type and a Subtype of 2 each, a Length of 4, all big-endian, and Length octets
//! of body (RFC 6396, section 2).
//!
//! The framer keeps the octets that no whole record has used up, and before them, until `next` finds no further record,
//! the records that it gave since it last found none: a body is lent where it lies. Then these go, and what is left moves to
//! the first place. What is left then was fed since `next` last found none, but for a record that is cut, which moves at most
//! once. So `feed` and `next` cost what is fed, amortised, whatever the sizes of records and pieces. The memory is that of a
//! record and of what is fed at once.

ghost use Rattle.std.specs.Prelude.{◌≡◌, ◌+◌, ◌-◌, ◌^◌, ◌≤◌, ◌<◌, [], length, drop, vec_len, IfErr, IfOk, OnErr, OnOk, None, option_map};
ghost use Rattle.octet_fields.specs.Gives.{Gives};
ghost use Rattle.wire_model.specs.Record.{record_at};
ghost use Rattle.mrt_read.specs.Records.{result_of, is_long, IsOfFrames, most_left, record_behind, record_of};

use octet_fields::{octets, u16_at, u32_at};
use std::alloc::{AllocError, Global};
use thiserror::Error;
use wire_model::Rule;

/// The octets of a header.
const HEADER: usize = 12;

/// The greatest Length that is taken, in octets: a limit of this program, not of RFC 6396.
const MOST_LENGTH: u32 = 16_777_216;

/// A record, a part of the framer's buffer.
#[derive(Clone, Copy, Debug)]
pub struct Framed<'a> {
    /// The Type.
    pub kind: u16,
    /// The Subtype.
    pub sub: u16,
    /// The octets after the header.
    pub body: &'a [u8],
}

/// A record that breaks a rule of reading.
#[derive(Clone, Copy, Debug, PartialEq, Eq, Error)]
#[error("record {number} breaks rule {rule:?} of reading")]
pub struct Malformed {
    /// The record's number in its input, from 0.
    pub number: u64,
    /// The rule. The framer reports `HeaderCut` and `BodyCut` if the input ends within a header or a body, and `TooLong` if
    /// Length is over 16,777,216; the others are about bodies, whose readers report them.
    pub rule: Rule,
}

/// A header whose record is whole.
#[derive(Drop)]
struct Header {
    kind: u16,
    sub: u16,
    length: usize,
}

/// The header that comes first, if the whole record is there; or the rule that it breaks.
#[tactic(auto, unfolding(wire_model::specs::Record::record_at))]
fn read_header(bytes: &[u8]) -> Result<Header, Rule>
    ensures value { Gives (record_behind bytes.now) result (record_at bytes.now) }
    ensures whole { IfOk result (λ h. 12 + h.length ≤ length bytes.now) }
    ensures rules { IfErr result IsOfFrames }
    ensures few { IfErr result (λ rule. (rule ≡ Rule.TooLong → ⊥) → length bytes.now ≤ most_left) }
{
    if bytes.len() < HEADER {
        return Err(Rule::HeaderCut);
    }
    let (_time, rest) = octets(Rule::HeaderCut, 4, bytes)?;
    let (kind, rest) = u16_at(Rule::HeaderCut, rest)?;
    let (sub, rest) = u16_at(Rule::HeaderCut, rest)?;
    let (length, rest) = u32_at(Rule::HeaderCut, rest)?;
    if MOST_LENGTH < length {
        return Err(Rule::TooLong);
    }
    let length = length as usize;
    if rest.len() < length {
        return Err(Rule::BodyCut);
    }
    Ok(Header { kind, sub, length })
}

/// Whether the rule is that of a Length over the limit.
fn is_too_long(rule: Rule) -> bool
    ensures { result ≡ is_long rule }
{
    matches!(rule, Rule::TooLong)
}

/// Lets the first `n` octets go, and moves the others to the first place.
fn remove_front(octets: &mut Vec<u8>, n: usize)
    requires { n ≤ vec_len octets.old }
    ensures { octets.new.items ≡ drop n octets.old.items }
{
    let len = octets.len();
    octets.as_mut_slice().copy_within(n..len, 0);
    octets.truncate(len - n);
}

/// What was fed and isn't used up, and how many records were taken.
#[derive(Debug, Drop)]
pub struct Framer {
    // The records that were taken since none was found, and the octets after them.
    kept: Vec<u8>,
    // The place after these records.
    at: usize,
    // The place of the last of them, or `at` once it was given back or more was fed.
    last: usize,
    // How many records were taken in all.
    number: u64,
    // What was refused, for good.
    refused: Option<Malformed>,
    ghost within: { at ≤ vec_len kept },
    ghost behind: { last ≤ at },
    ghost counted: { number + (vec_len kept - at) < 2 ^ 64 },
    ghost counted_behind: { last < at → number + (vec_len kept - last) ≤ 2 ^ 64 },
}

impl Framer {
    ghost use Rattle.std.specs.Borrow.{sem};
    ghost use Rattle.mrt_read.specs.Framing.{framer_count, framer_end, FramerFeeds, HasTaken, FramerIsUnchanged, FramerIsUsedUp, framer_left, LendsNext, framer_next, framer_refusal, FramerStands, LetsGo, TakesRecordBack, FramerTells};

    /// A framer that was fed nothing.
    pub fn new(alloc: Global) -> Framer
        ensures nothing { framer_left result ≡ [] }
        ensures going { framer_refusal result ≡ None }
        ensures stands { FramerStands [] [] result }
    {
        Framer {
            kept: Vec::new(alloc),
            at: 0,
            last: 0,
            number: 0,
            refused: None,
        }
    }

    /// Adds the piece to what was fed. The records taken, the octets held and those of the piece are fewer than 2^64 together: so
    /// the records can be counted. If memory runs out, the framer is as it was.
    pub fn feed(&mut self, piece: &[u8]) -> Result<(), AllocError>
        requires few { framer_count self.old + length (framer_left self.old) + length piece.now < 2 ^ 64 }
        ensures ok { OnOk result (FramerFeeds self.old piece.now self.new) }
        ensures err { OnErr result (FramerIsUnchanged self.old self.new) }
    {
        self.kept.extend_from_slice(piece)?;
        self.last = self.at;
        Ok(())
    }

    /// How many octets it holds: those fed, less those of the records taken. At most 16,777,227 if `next` found no
    /// further record. It takes no memory.
    pub fn held(&self) -> u64
        ensures { result ≡ length (framer_left self.now) }
    {
        (self.kept.len() - self.at) as u64
    }

    /// Lets the records go that were taken.
    fn let_go(&mut self)
        ensures { LetsGo self.old self.new }
    {
        if 0 < self.at {
            remove_front(&mut self.kept, self.at);
            self.at = 0;
            self.last = 0;
        }
    }

    /// Takes the next whole record of what was fed; `None` if there is none.
    ///
    /// A Length over the limit is refused with `TooLong` as soon as its header is there, and then for good.
    pub fn next(&mut self) -> Result<Option<Framed<'_>>, Malformed>
        ensures gives { result_of (option_map record_of) result ≡ framer_next self.old }
        ensures* after { sem 𝓛 (LendsNext self.entry result) }
    {
        if let Some(refused) = self.refused {
            return Err(refused);
        }
        match read_header(&self.kept[self.at..]) {
            Ok(header) => {
                let body = self.at + HEADER;
                let end = body + header.length;
                self.last = self.at;
                self.at = end;
                self.number += 1;
                Ok(Some(Framed {
                    kind: header.kind,
                    sub: header.sub,
                    body: &self.kept[body..end],
                }))
            }
            Err(rule) if is_too_long(rule) => {
                let refused = Malformed {
                    number: self.number,
                    rule,
                };
                self.refused = Some(refused);
                Err(refused)
            }
            Err(_) => {
                self.let_go();
                Ok(None)
            }
        }
    }

    /// Gives the record back that `next` has just given: `next` gives it once more.
    pub fn again(&mut self)
        requires { HasTaken self.old }
        ensures { TakesRecordBack self.old self.new }
    {
        self.at = self.last;
        self.number -= 1;
    }

    /// Whether the input may end here: the refusal that is kept, or `HeaderCut` or `BodyCut` if a header or a body is cut.
    ///
    /// It is asked once `next` gives no further record.
    pub fn finish(&self) -> Result<(), Malformed>
        requires { FramerIsUsedUp self.now }
        ensures gives { result_of (λ x. x) result ≡ framer_end self.now }
        ensures tells { FramerTells self.now result }
    {
        if let Some(refused) = self.refused {
            return Err(refused);
        }
        match read_header(&self.kept[self.at..]) {
            Err(rule) if self.at < self.kept.len() => Err(Malformed {
                number: self.number,
                rule,
            }),
            _ => Ok(()),
        }
    }
}
