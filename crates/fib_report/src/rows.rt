//! The rows of a run, written in their order: our own text rows, with numbers in plain decimal.
//!
//!     route,PREFIX,HOP
//!     invalid,PREFIX,PEERADDR,PEERAS,ORIGIN,VPREFIX,MAXLEN,AS
//!     change,EVENT,+,PREFIX,HOP    with = for a Replace
//!     change,EVENT,-,PREFIX        for a Remove
//!     moves,EVENT,COUNT            after all changes, if the fewest are asked for
//!     answer,ADDRESS,HOP
//!     visits,ADDRESS,COUNT         after the answer of each address
//!     table,PREFIX,HOP
//!     least,PREFIX,HOP
//!     cert,leaf,PREFIX,HOP
//!     cert,join,PREFIX,K
//!     cert,bound,FAMILY,COUNT      with 4 or 6 for the family
//!     report,NAME,COUNT            for records, skipped, events, routes, entries, nodes, leaves and treated
//!
//! ORIGIN is a number, or `none` if the announcement has no origin. HOP is the hop's address. If no hop has the number it is
//! `none` in an answer and a leaf, and `drop` in a change and a table; a route without a hop has no row.

ghost use Rattle.std.specs.Prelude.{◌≡◌, ◌≤◌, [], ◌∷◌, flat_map, length, map, IfOk, OnOk, Some};
ghost use Rattle.std.specs.List.{AllByRecursion};
ghost use Rattle.fib_addr.specs.Views.{entry_as, prefix_as};
ghost use Rattle.printed_text.specs.Printed.{announced_as, printed_vrp_as};
ghost use Rattle.cert_model.specs.Views.{row_as};
ghost use Rattle.printed_text.specs.Rows.{IsRow, line, line_of, text_of};
ghost use Rattle.fib_report.specs.Rows.{of_answer, of_change, of_invalid, of_moves, report_rows, report_text, section_rows};
ghost use Rattle.printed_text.specs.Numbered.{of_cert, of_route};
ghost use Rattle.fib_delta.specs.Views.{change_as};
ghost use Rattle.fib_report.specs.Views.{answer_as, invalid_as, moves_as, run_as};
ghost use Rattle.csv.specs.Writing.{text_written};
ghost use Rattle.fib_report.specs.Writing.{AddsRows, IsAtRow};

use crate::hop_texts::HopTexts;
use crate::printed_row::{
    put_answer, put_bound, put_change, put_count, put_fields, put_hop, put_invalid, put_join,
    put_moves, put_remove, put_visits,
};
use crate::run::{Answer, Invalid, Moves, Report};
use crate::section::Section;
use csv::{QuoteStyle, Writer, WriterBuilder};
use fib_addr::{Entry, Hop, Prefix};
use fib_delta::Change;
use printed_text::{Announced, Count, PrintedVrp, Row};
use std::alloc::{AllocError, Global};
use std::io::Write;

/// Writes the row of a route, if it has a hop.
#[inline]
fn put_route<W: Write + Drop>(
    out: &mut Writer<W>,
    prefix: &Prefix,
    hop: Hop,
    hops: &HopTexts<'_>,
) -> Result<(), AllocError>
    requires { IsAtRow out.old }
    ensures added { OnOk result (AddsRows W.contents out.old out.new
        (text_of (of_route hops.now (prefix_as prefix.now, hop.0)))) }
    ensures proper { AllByRecursion IsRow (of_route hops.now (prefix_as prefix.now, hop.0)) }
{
    if !hops.has(hop) {
        return Ok(());
    }
    put_hop(out, b"route", prefix, hop, b"none", hops)
}

/// Writes the row of an entry in its section, if it has one.
#[inline]
pub(crate) fn put_entry<W: Write + Drop>(
    out: &mut Writer<W>,
    section: Section,
    entry: &Entry,
    hops: &HopTexts<'_>,
) -> Result<(), AllocError>
    requires { IsAtRow out.old }
    ensures added { OnOk result (AddsRows W.contents out.old out.new
        (text_of (section_rows section hops.now (entry_as entry.now ∷ [])))) }
    ensures proper { AllByRecursion IsRow (section_rows section hops.now
        (entry_as entry.now ∷ [])) }
{
    let prefix = &entry.prefix;
    let hop = entry.hop;
    match section {
        Section::Routes => put_route(out, prefix, hop, hops),
        Section::Added => put_change(out, 0, b'+', prefix, hop, hops),
        Section::Table => put_hop(out, b"table", prefix, hop, b"drop", hops),
        Section::Least => put_hop(out, b"least", prefix, hop, b"drop", hops),
    }
}

/// What a row says of an Invalid announcement, and of the VRP that covers it.
fn invalid_parts(invalid: &Invalid) -> (Announced, PrintedVrp)
    ensures { invalid_as invalid.now ≡ (announced_as result.0, printed_vrp_as result.1) }
{
    let announced = Announced {
        prefix: invalid.prefix,
        peer: invalid.peer,
        origin: invalid.origin.map(u64::from),
        peer_as: u64::from(invalid.peer_as),
    };
    let vrp = PrintedVrp {
        prefix: invalid.vrp_prefix,
        maxlen: u64::from(invalid.maxlen),
        asn: u64::from(invalid.vrp_as),
    };
    (announced, vrp)
}

/// Writes the row of an Invalid announcement.
pub(crate) fn put_invalid_row<W: Write + Drop>(
    out: &mut Writer<W>,
    invalid: &Invalid,
) -> Result<(), AllocError>
    requires { IsAtRow out.old }
    ensures added { OnOk result (AddsRows W.contents out.old out.new
        (line_of (of_invalid (invalid_as invalid.now)))) }
    ensures proper { IsRow (of_invalid (invalid_as invalid.now)) }
{
    let (announced, vrp) = invalid_parts(invalid);
    put_invalid(out, announced, vrp)
}

/// Writes the row of a change.
#[inline]
pub(crate) fn put_change_row<W: Write + Drop>(
    out: &mut Writer<W>,
    event: u64,
    change: &Change,
    hops: &HopTexts<'_>,
) -> Result<(), AllocError>
    requires { IsAtRow out.old }
    ensures added { OnOk result (AddsRows W.contents out.old out.new
        (line_of (of_change hops.now (event, change_as change.now)))) }
    ensures proper { IsRow (of_change hops.now (event, change_as change.now)) }
{
    match *change {
        Change::Add(prefix, hop) => put_change(out, event, b'+', &prefix, hop, hops),
        Change::Replace(prefix, hop) => put_change(out, event, b'=', &prefix, hop, hops),
        Change::Remove(prefix) => put_remove(out, event, &prefix),
    }
}

/// Writes the row of a part of a certificate.
#[inline]
pub(crate) fn put_part<W: Write + Drop>(
    out: &mut Writer<W>,
    row: &Row,
    hops: &HopTexts<'_>,
) -> Result<(), AllocError>
    requires { IsAtRow out.old }
    ensures added { OnOk result (AddsRows W.contents out.old out.new
        (line_of (of_cert hops.now (row_as row.now)))) }
    ensures proper { IsRow (of_cert hops.now (row_as row.now)) }
{
    match *row {
        Row::Leaf(prefix, hop) => put_hop(out, b"cert,leaf", &prefix, hop, b"none", hops),
        Row::Join(prefix, k) => put_join(out, &prefix, k),
        Row::Bound(family, count) => put_bound(out, family, count),
    }
}

/// Writes changes.
pub(crate) fn put_changes<W: Write + Drop>(
    out: &mut Writer<W>,
    changes: &[(u64, Change)],
    hops: &HopTexts<'_>,
) -> Result<(), AllocError>
    requires { IsAtRow out.old }
    ensures added { OnOk result (AddsRows W.contents out.old out.new
        (text_of (map (of_change hops.now) (map (λ c. (c.0, change_as c.1)) changes.now)))) }
    ensures proper { OnOk result (AllByRecursion IsRow (map (of_change hops.now)
        (map (λ c. (c.0, change_as c.1)) changes.now))) }
{
    for (event, change) in changes {
        put_change_row(out, *event, change, hops)?;
    }
    Ok(())
}

/// Writes the row of how many changes an event needed.
pub(crate) fn put_moves_row<W: Write + Drop>(
    out: &mut Writer<W>,
    moves: &Moves,
) -> Result<(), AllocError>
    requires { IsAtRow out.old }
    ensures added { OnOk result (AddsRows W.contents out.old out.new
        (line_of (of_moves (moves_as moves.now)))) }
    ensures proper { IsRow (of_moves (moves_as moves.now)) }
{
    put_moves(out, moves.event, moves.count)
}

/// Writes the hop of an address, and then how many nodes its lookup visits.
fn put_lookup<W: Write + Drop>(
    out: &mut Writer<W>,
    answer: &Answer,
    hops: &HopTexts<'_>,
) -> Result<(), AllocError>
    requires { IsAtRow out.old }
    ensures added { OnOk result (AddsRows W.contents out.old out.new
        (text_of (of_answer hops.now (answer_as answer.now)))) }
    ensures proper { OnOk result (AllByRecursion IsRow (of_answer hops.now
        (answer_as answer.now))) }
{
    put_answer(out, &answer.addr, hops.addr(answer.hop))?;
    let visits = u64::from(answer.visits);
    put_visits(out, &answer.addr, visits)?;
    Ok(())
}

/// Writes answers.
pub(crate) fn put_answers<W: Write + Drop>(
    out: &mut Writer<W>,
    answers: &[Answer],
    hops: &HopTexts<'_>,
) -> Result<(), AllocError>
    requires { IsAtRow out.old }
    ensures added { OnOk result (AddsRows W.contents out.old out.new
        (text_of (flat_map (of_answer hops.now) (map answer_as answers.now)))) }
    ensures proper { OnOk result (AllByRecursion IsRow (flat_map (of_answer hops.now)
        (map answer_as answers.now))) }
{
    for answer in answers {
        put_lookup(out, answer, hops)?;
    }
    Ok(())
}

/// Writes the certificate.
pub(crate) fn put_cert<W: Write + Drop>(
    out: &mut Writer<W>,
    cert: &[Row],
    hops: &HopTexts<'_>,
) -> Result<(), AllocError>
    requires { IsAtRow out.old }
    ensures added { OnOk result (AddsRows W.contents out.old out.new
        (text_of (map (of_cert hops.now) (map row_as cert.now)))) }
    ensures proper { OnOk result (AllByRecursion IsRow (map (of_cert hops.now)
        (map row_as cert.now))) }
{
    for row in cert {
        put_part(out, row, hops)?;
    }
    Ok(())
}

/// Writes the counts.
pub(crate) fn put_report<W: Write + Drop>(
    out: &mut Writer<W>,
    report: &Report,
) -> Result<(), AllocError>
    requires { IsAtRow out.old }
    ensures added { OnOk result (AddsRows W.contents out.old out.new
        (text_of (report_rows report.now))) }
    ensures proper { OnOk result (AllByRecursion IsRow (report_rows report.now)) }
{
    put_count(out, Count::Records, report.records)?;
    put_count(out, Count::Skipped, report.skipped)?;
    put_count(out, Count::Events, report.events)?;
    put_count(out, Count::Routes, report.routes)?;
    put_count(out, Count::Entries, report.entries)?;
    put_count(out, Count::Nodes, report.nodes)?;
    put_count(out, Count::Leaves, report.leaves)?;
    put_count(out, Count::Treated, report.treated)?;
    Ok(())
}

/// A writer of rows into memory.
pub fn row_writer(alloc: Global) -> Writer<Vec<u8>>
    ensures at { IsAtRow result }
    ensures empty { text_written (λ v. Some v.items) result ≡ Some [] }
{
    WriterBuilder::new()
        .quote_style(QuoteStyle::Never)
        .flexible(true)
        .from_writer(Vec::new(alloc))
}

/// The text of a row of these fields: commas between them, and a line feed. Two fields at least, since csv writes a row of one
/// empty field as two quotes. A reader finds the fields again if none holds a comma or a line end. An `Err` means that memory
/// ran out.
pub fn row_text(alloc: Global, fields: &[&[u8]]) -> Result<Vec<u8>, AllocError>
    requires { 2 ≤ length fields.now }
    ensures { IfOk result (λ text. text.items ≡ line (map (λ f. f.now) fields.now)) }
{
    let mut out = row_writer(alloc);
    put_fields(&mut out, fields)?;
    out.into_inner().map_err(|_| AllocError)
}

/// The rows of the counts alone. An `Err` means that memory ran out.
pub fn report_text(alloc: Global, report: &Report) -> Result<Vec<u8>, AllocError>
    ensures { IfOk result (λ text. text.items ≡ report_text report.now) }
{
    let mut out = row_writer(alloc);
    put_report(&mut out, report)?;
    out.into_inner().map_err(|_| AllocError)
}
