//! The fields of a line: each is a slice of the line, and none takes memory.
//!
//! An `Err` says why there is none (`why`).

ghost use Rattle.std.specs.Prelude.{◌≡◌, ◌↔◌, ◌==◌, [], List, ℕ, IsTrue, bytes_eq, option_map, position};
ghost use Rattle.std.specs.List.{slice_split};
ghost use Rattle.octet_fields.specs.Gives.{Gives};
ghost use Rattle.fib_addr.specs.Views.{addr_as, prefix_as};
ghost use Rattle.printed_text.specs.Reading.{address_field, announced_fields, count_field, family_field, hop_field, next_field, number_field, one_field, origin_field, prefix_field, two_fields, vrp_fields};
ghost use Rattle.printed_text.specs.Fields.{TakesField, fields_left};
ghost use Rattle.printed_text.specs.Printed.{announced_texts_as, count_as, vrp_texts_as};

use crate::printed_row::Count;
use crate::why;
use fib_addr::{Addr, Family, Prefix, read_addr, read_number, read_prefix};
use std::marker::Model;

/// The fields of a line that are left. Contracts see them as a list.
#[derive(Drop)]
pub struct Fields<'a> {
    // their text; none if no field is left
    left: Option<&'a [u8]>,
    // the octet between two of them
    mark: u8,
}

impl<'a> Model for Fields<'a> {
    ghost Value = { List (List ℕ) };

    ghost view = { λ fields. fields_left fields.mark fields.left };
}

/// The place of the first octet that is the mark.
fn mark_at(text: &[u8], mark: u8) -> Option<usize>
    ensures { result ≡ position (λ b. b == mark) text.now }
{
    text.iter().position(|b| *b == mark)
}

impl<'a> Fields<'a> {
    /// The fields of a line: what stands between the octets that are the mark, as a comma.
    pub fn of(line: &'a [u8], mark: u8) -> Fields<'a>
        ensures { result ≡ slice_split (λ b. b == mark) line.now }
    {
        Fields {
            left: Some(line),
            mark,
        }
    }

    /// Whether no field is left.
    pub fn is_empty(&self) -> bool
        ensures { IsTrue result ↔ (self.now ≡ []) }
    {
        self.left.is_none()
    }

    /// Takes the next field.
    fn next(&mut self) -> Option<&'a [u8]>
        ensures { TakesField self.old self.new result }
    {
        let text = self.left?;
        match mark_at(text, self.mark) {
            Some(place) => {
                self.left = Some(&text[place + 1..]);
                Some(&text[..place])
            }
            None => {
                self.left = None;
                Some(text)
            }
        }
    }
}

/// A number below 2^64.
pub(crate) fn number_field(text: &[u8]) -> Result<u64, u8>
    ensures { Gives (λ n. n) result (number_field text.now) }
{
    read_number(text, u64::MAX).ok_or(why::NUMBER)
}

/// An address.
///
/// # Errors
///
/// `why::HOP`: it is no address.
pub fn address_field(text: &[u8]) -> Result<Addr, u8>
    ensures { Gives addr_as result (address_field text.now) }
{
    read_addr(text).ok_or(why::HOP)
}

/// A prefix.
///
/// # Errors
///
/// `why::PREFIX`: it is no prefix.
pub fn prefix_field(text: &[u8]) -> Result<Prefix, u8>
    ensures { Gives prefix_as result (prefix_field text.now) }
{
    read_prefix(text).ok_or(why::PREFIX)
}

/// Whether the field is the word.
pub fn is(text: &[u8], word: &[u8]) -> bool
    ensures { result ≡ bytes_eq text.now word.now }
{
    text == word
}

/// An address, or no hop if the field is the word.
#[tactic(auto, unfolding(crate::specs::Reading::hop_field))]
pub(crate) fn hop_field(word: &[u8], text: &[u8]) -> Result<Option<Addr>, u8>
    ensures { Gives (option_map addr_as) result (hop_field word.now text.now) }
{
    if is(text, word) {
        return Ok(None);
    }
    let addr = address_field(text)?;
    Ok(Some(addr))
}

/// The number of an AS, or none if the field is `none`.
#[tactic(auto, unfolding(crate::specs::Reading::origin_field))]
pub(crate) fn origin_field(text: &[u8]) -> Result<Option<u64>, u8>
    ensures { Gives (λ n. n) result (origin_field text.now) }
{
    if is(text, b"none") {
        return Ok(None);
    }
    let number = number_field(text)?;
    Ok(Some(number))
}

/// The name of a count.
#[tactic(auto, unfolding(crate::specs::Reading::count_field))]
pub(crate) fn count_field(text: &[u8]) -> Result<Count, u8>
    ensures { Gives count_as result (count_field text.now) }
{
    if is(text, b"records") {
        Ok(Count::Records)
    } else if is(text, b"skipped") {
        Ok(Count::Skipped)
    } else if is(text, b"events") {
        Ok(Count::Events)
    } else if is(text, b"routes") {
        Ok(Count::Routes)
    } else if is(text, b"entries") {
        Ok(Count::Entries)
    } else if is(text, b"nodes") {
        Ok(Count::Nodes)
    } else if is(text, b"leaves") {
        Ok(Count::Leaves)
    } else if is(text, b"treated") {
        Ok(Count::Treated)
    } else {
        Err(why::WORD)
    }
}

/// A family: 4 or 6.
#[tactic(auto, unfolding(crate::specs::Reading::family_field))]
pub(crate) fn family_field(text: &[u8]) -> Result<Family, u8>
    ensures { Gives (λ f. f) result (family_field text.now) }
{
    if is(text, b"4") {
        Ok(Family::V4)
    } else if is(text, b"6") {
        Ok(Family::V6)
    } else {
        Err(why::WORD)
    }
}

/// The one field that is left.
///
/// # Errors
///
/// `why::FIELDS`: there is none, or more than one.
pub fn one_field<'a>(mut fields: Fields<'a>) -> Result<&'a [u8], u8>
    ensures { Gives (λ f. f.now) result (one_field fields.entry) }
{
    match (fields.next(), fields.next()) {
        (Some(field), None) => Ok(field),
        _ => Err(why::FIELDS),
    }
}

/// The two fields that are left.
///
/// # Errors
///
/// `why::FIELDS`: there are fewer or more.
pub fn two_fields<'a>(mut fields: Fields<'a>) -> Result<(&'a [u8], &'a [u8]), u8>
    ensures { Gives (λ f. (f.0.now, f.1.now)) result (two_fields fields.entry) }
{
    match (fields.next(), fields.next(), fields.next()) {
        (Some(first), Some(second), None) => Ok((first, second)),
        _ => Err(why::FIELDS),
    }
}

/// The next field, and those after it.
///
/// # Errors
///
/// `why::FIELDS`: there is none.
pub fn next_field<'a>(mut fields: Fields<'a>) -> Result<(&'a [u8], Fields<'a>), u8>
    ensures { Gives (λ f. (f.0.now, f.1)) result (next_field fields.entry) }
{
    match fields.next() {
        Some(field) => Ok((field, fields)),
        None => Err(why::FIELDS),
    }
}

/// The texts of an announcement's fields.
#[derive(Clone, Copy, Debug)]
pub(crate) struct AnnouncedTexts<'a> {
    pub(crate) prefix: &'a [u8],
    pub(crate) peer: &'a [u8],
    pub(crate) peer_as: &'a [u8],
    pub(crate) origin: &'a [u8],
}

/// The four fields of an announcement, and those after them.
#[tactic(auto, unfolding(crate::specs::Reading::announced_fields))]
pub(crate) fn announced_fields<'a>(
    fields: Fields<'a>,
) -> Result<(AnnouncedTexts<'a>, Fields<'a>), u8>
    ensures { Gives (λ f. (announced_texts_as f.0, f.1)) result (announced_fields fields.entry) }
{
    let (prefix, fields) = next_field(fields)?;
    let (peer, fields) = next_field(fields)?;
    let (peer_as, fields) = next_field(fields)?;
    let (origin, fields) = next_field(fields)?;
    let texts = AnnouncedTexts {
        prefix,
        peer,
        peer_as,
        origin,
    };
    Ok((texts, fields))
}

/// The texts of the fields of a validated ROA payload (VRP; RFC 6811, section 2).
#[derive(Clone, Copy, Debug)]
pub struct VrpTexts<'a> {
    /// The prefix.
    pub prefix: &'a [u8],
    /// The most bits that an announced prefix may have.
    pub maxlen: &'a [u8],
    /// The number of the AS.
    pub asn: &'a [u8],
}

/// The three fields of a VRP, which are all that are left.
///
/// # Errors
///
/// `why::FIELDS`: there are fewer or more.
#[tactic(auto, unfolding(crate::specs::Reading::vrp_fields))]
pub fn vrp_fields<'a>(fields: Fields<'a>) -> Result<VrpTexts<'a>, u8>
    ensures { Gives vrp_texts_as result (vrp_fields fields.entry) }
{
    let (prefix, fields) = next_field(fields)?;
    let (maxlen, asn) = two_fields(fields)?;
    Ok(VrpTexts {
        prefix,
        maxlen,
        asn,
    })
}
