//! The rows of printed text, each read from the fields of its line.
//!
//!     route,PREFIX,ADDRESS
//!     invalid,PREFIX,PEERADDR,PEERAS,ORIGIN,VPREFIX,MAXLEN,AS
//!     change,EVENT,+,PREFIX,HOP     with = for a replaced entry
//!     change,EVENT,-,PREFIX
//!     moves,EVENT,NUMBER
//!     answer,ADDRESS,HOP
//!     visits,ADDRESS,NUMBER
//!     table,PREFIX,HOP
//!     least,PREFIX,HOP
//!     cert,leaf,PREFIX,HOP
//!     cert,join,PREFIX,NUMBER
//!     cert,bound,FAMILY,NUMBER      with 4 or 6 for the family
//!     report,NAME,NUMBER
//!
//! ORIGIN is a number, or `none` if the announcement has no origin. HOP is an address, or for no hop `none` in answer and leaf
//! rows and `drop` in change, table and least rows.

ghost use Rattle.std.specs.Prelude.{option_map};
ghost use Rattle.octet_fields.specs.Gives.{Gives};
ghost use Rattle.fib_addr.specs.Views.{prefix_as, addr_as};
ghost use Rattle.printed_text.specs.Reading.{answer_in, bound_in, cert_in, change_in, entry_in, invalid_row_in, join_in, line_in, moves_in, named_in, part_in, report_in, route_row_in, row_in, signed_in, visits_in};
ghost use Rattle.printed_text.specs.Printed.{printed_row_as};

use crate::fields::{
    Fields, address_field, announced_fields, count_field, family_field, hop_field, is, next_field,
    number_field, one_field, prefix_field, two_fields, vrp_fields,
};
use crate::invalid::{Announced, PrintedVrp, announced_in, printed_vrp_in};
use crate::why;
use fib_addr::{Addr, Family, Prefix};

/// What a run counts.
#[derive(Clone, Copy, Debug, PartialEq, Eq)]
pub enum Count {
    /// The records of the inputs, skipped ones too.
    Records,
    /// The records that were skipped.
    Skipped,
    /// The elementary events.
    Events,
    /// The routes.
    Routes,
    /// The entries of the kept table.
    Entries,
    /// The nodes that lookups need.
    Nodes,
    /// The leaves that lookups need.
    Leaves,
    /// The messages that were treated as withdrawals (RFC 7606, section 2).
    Treated,
}

/// A printed row. A hop is an address, or `None` for none.
#[derive(Clone, Copy, Debug, PartialEq, Eq)]
pub enum PrintedRow {
    /// The route chosen at a prefix.
    Route(Prefix, Addr),
    /// An announcement that is Invalid (RFC 6811, section 2), and a VRP that covers it.
    Invalid(Announced, PrintedVrp),
    /// The event of this number adds an entry.
    Add(u64, Prefix, Option<Addr>),
    /// The event of this number gives an entry another hop.
    Replace(u64, Prefix, Option<Addr>),
    /// The event of this number removes an entry.
    Remove(u64, Prefix),
    /// The event of this number needed this many changes.
    Moves(u64, u64),
    /// The hop of an address.
    Answer(Addr, Option<Addr>),
    /// How many nodes the lookup of an address visits.
    Visits(Addr, u64),
    /// An entry of the kept table.
    Table(Prefix, Option<Addr>),
    /// An entry of the least table.
    Least(Prefix, Option<Addr>),
    /// Of a certificate: every address of the prefix gets the hop.
    Leaf(Prefix, Option<Addr>),
    /// Of a certificate: the prefix's region is put together from its halves, and has this k.
    Join(Prefix, u64),
    /// Of a certificate: a least table of the family has this many entries.
    Bound(Family, u64),
    /// A count.
    Report(Count, u64),
}

/// A prefix and a hop, with the word that stands for none.
#[tactic(auto, unfolding(crate::specs::Reading::entry_in))]
fn entry_in(word: &[u8], fields: Fields<'_>) -> Result<(Prefix, Option<Addr>), u8>
    ensures { Gives (λ e. (prefix_as e.0, option_map addr_as e.1)) result
        (entry_in word.now fields.entry) }
{
    let (prefix, hop) = two_fields(fields)?;
    let prefix = prefix_field(prefix)?;
    let hop = hop_field(word, hop)?;
    Ok((prefix, hop))
}

/// A chosen route.
#[tactic(auto, unfolding(crate::specs::Reading::route_row_in))]
fn route_in(fields: Fields<'_>) -> Result<PrintedRow, u8>
    ensures { Gives printed_row_as result (route_row_in fields.entry) }
{
    let (prefix, addr) = two_fields(fields)?;
    let prefix = prefix_field(prefix)?;
    let addr = address_field(addr)?;
    Ok(PrintedRow::Route(prefix, addr))
}

/// An Invalid announcement. The fields are counted before any is read.
#[tactic(auto, unfolding(crate::specs::Reading::invalid_row_in))]
fn invalid_in(fields: Fields<'_>) -> Result<PrintedRow, u8>
    ensures { Gives printed_row_as result (invalid_row_in fields.entry) }
{
    let (announced, fields) = announced_fields(fields)?;
    let vrp = vrp_fields(fields)?;
    let announced = announced_in(announced)?;
    let vrp = printed_vrp_in(vrp)?;
    Ok(PrintedRow::Invalid(announced, vrp))
}

/// An answer.
#[tactic(auto, unfolding(crate::specs::Reading::answer_in))]
fn answer_in(fields: Fields<'_>) -> Result<PrintedRow, u8>
    ensures { Gives printed_row_as result (answer_in fields.entry) }
{
    let (addr, hop) = two_fields(fields)?;
    let addr = address_field(addr)?;
    let hop = hop_field(b"none", hop)?;
    Ok(PrintedRow::Answer(addr, hop))
}

/// The visits of a lookup.
#[tactic(auto, unfolding(crate::specs::Reading::visits_in))]
fn visits_in(fields: Fields<'_>) -> Result<PrintedRow, u8>
    ensures { Gives printed_row_as result (visits_in fields.entry) }
{
    let (addr, number) = two_fields(fields)?;
    let addr = address_field(addr)?;
    let number = number_field(number)?;
    Ok(PrintedRow::Visits(addr, number))
}

/// A change, by its sign.
#[tactic(auto, unfolding(crate::specs::Reading::signed_in))]
fn signed_in(event: u64, sign: &[u8], fields: Fields<'_>) -> Result<PrintedRow, u8>
    ensures { Gives printed_row_as result (signed_in event sign.now fields.entry) }
{
    if is(sign, b"+") {
        let (prefix, hop) = entry_in(b"drop", fields)?;
        Ok(PrintedRow::Add(event, prefix, hop))
    } else if is(sign, b"=") {
        let (prefix, hop) = entry_in(b"drop", fields)?;
        Ok(PrintedRow::Replace(event, prefix, hop))
    } else if is(sign, b"-") {
        let prefix = one_field(fields)?;
        let prefix = prefix_field(prefix)?;
        Ok(PrintedRow::Remove(event, prefix))
    } else {
        Err(why::WORD)
    }
}

/// A change.
#[tactic(auto, unfolding(crate::specs::Reading::change_in))]
fn change_in(fields: Fields<'_>) -> Result<PrintedRow, u8>
    ensures { Gives printed_row_as result (change_in fields.entry) }
{
    let (event, fields) = next_field(fields)?;
    let event = number_field(event)?;
    let (sign, fields) = next_field(fields)?;
    signed_in(event, sign, fields)
}

/// How many changes an event needed.
#[tactic(auto, unfolding(crate::specs::Reading::moves_in))]
fn moves_in(fields: Fields<'_>) -> Result<PrintedRow, u8>
    ensures { Gives printed_row_as result (moves_in fields.entry) }
{
    let (event, number) = two_fields(fields)?;
    let event = number_field(event)?;
    let number = number_field(number)?;
    Ok(PrintedRow::Moves(event, number))
}

/// A region that a certificate puts together.
#[tactic(auto, unfolding(crate::specs::Reading::join_in))]
fn join_in(fields: Fields<'_>) -> Result<PrintedRow, u8>
    ensures { Gives printed_row_as result (join_in fields.entry) }
{
    let (prefix, number) = two_fields(fields)?;
    let prefix = prefix_field(prefix)?;
    let number = number_field(number)?;
    Ok(PrintedRow::Join(prefix, number))
}

/// A family's bound.
#[tactic(auto, unfolding(crate::specs::Reading::bound_in))]
fn bound_in(fields: Fields<'_>) -> Result<PrintedRow, u8>
    ensures { Gives printed_row_as result (bound_in fields.entry) }
{
    let (family, number) = two_fields(fields)?;
    let family = family_field(family)?;
    let number = number_field(number)?;
    Ok(PrintedRow::Bound(family, number))
}

/// A row of a certificate, by its second word.
#[tactic(auto, unfolding(crate::specs::Reading::part_in))]
fn part_in(word: &[u8], fields: Fields<'_>) -> Result<PrintedRow, u8>
    ensures { Gives printed_row_as result (part_in word.now fields.entry) }
{
    if is(word, b"leaf") {
        let (prefix, hop) = entry_in(b"none", fields)?;
        Ok(PrintedRow::Leaf(prefix, hop))
    } else if is(word, b"join") {
        join_in(fields)
    } else if is(word, b"bound") {
        bound_in(fields)
    } else {
        Err(why::WORD)
    }
}

/// A row of a certificate.
#[tactic(auto, unfolding(crate::specs::Reading::cert_in))]
fn cert_in(fields: Fields<'_>) -> Result<PrintedRow, u8>
    ensures { Gives printed_row_as result (cert_in fields.entry) }
{
    let (word, fields) = next_field(fields)?;
    part_in(word, fields)
}

/// A count.
#[tactic(auto, unfolding(crate::specs::Reading::report_in))]
fn report_in(fields: Fields<'_>) -> Result<PrintedRow, u8>
    ensures { Gives printed_row_as result (report_in fields.entry) }
{
    let (count, number) = two_fields(fields)?;
    let count = count_field(count)?;
    let number = number_field(number)?;
    Ok(PrintedRow::Report(count, number))
}

/// A row, by its name.
#[tactic(auto, unfolding(crate::specs::Reading::named_in))]
fn named_in(name: &[u8], fields: Fields<'_>) -> Result<PrintedRow, u8>
    ensures { Gives printed_row_as result (named_in name.now fields.entry) }
{
    if is(name, b"route") {
        route_in(fields)
    } else if is(name, b"invalid") {
        invalid_in(fields)
    } else if is(name, b"change") {
        change_in(fields)
    } else if is(name, b"moves") {
        moves_in(fields)
    } else if is(name, b"answer") {
        answer_in(fields)
    } else if is(name, b"visits") {
        visits_in(fields)
    } else if is(name, b"table") {
        let (prefix, hop) = entry_in(b"drop", fields)?;
        Ok(PrintedRow::Table(prefix, hop))
    } else if is(name, b"least") {
        let (prefix, hop) = entry_in(b"drop", fields)?;
        Ok(PrintedRow::Least(prefix, hop))
    } else if is(name, b"cert") {
        cert_in(fields)
    } else if is(name, b"report") {
        report_in(fields)
    } else {
        Err(why::WORD)
    }
}

/// A row of the fields of its line.
#[tactic(auto, unfolding(crate::specs::Reading::row_in))]
fn row_in(fields: Fields<'_>) -> Result<PrintedRow, u8>
    ensures { Gives printed_row_as result (row_in fields.entry) }
{
    let (name, fields) = next_field(fields)?;
    named_in(name, fields)
}

/// Reads a row from a line without its end. Takes no memory, and costs the line's length.
///
/// # Errors
///
/// Why the line is no row (`why`), by the first of its fields that fails from left to right.
pub fn read_row(line: &[u8]) -> Result<PrintedRow, u8>
    ensures { Gives printed_row_as result (line_in line.now) }
{
    row_in(Fields::of(line, b','))
}
