//! A printed row, written: its fields with commas between them, and a line feed. What is written is what cost_cert reads, and
//! a row costs its length.

ghost use Rattle.std.specs.Prelude.{◌<◌, ◌≡◌, ◌≤◌, ◌∷◌, ◌++◌, [], codes, decimal, length, map, option_map, OnOk};
ghost use Rattle.fib_addr.specs.Hops.{hop_at};
ghost use Rattle.fib_addr.specs.Views.{addr_as, prefix_as};
ghost use Rattle.fib_addr.specs.Text.{address_text, prefix_text};
ghost use Rattle.printed_text.specs.Rows.{IsHop, IsRow, count_name, family_name, hop_text, invalid_row, line_of, line};
ghost use Rattle.printed_text.specs.Printed.{announced_as, count_as, printed_vrp_as};
ghost use Rattle.fib_report.specs.Writing.{AddsRows, IsAtRow};

use crate::fields::{count_field, family_field, hop_field, origin_field};
use crate::hop_texts::HopTexts;
use crate::line::Line;
use csv::Writer;
use fib_addr::{Addr, Family, Hop, MOST_TEXT, Prefix, addr_text, prefix_text};
use itoa::Buffer;
use printed_text::{Announced, Count, PrintedVrp};
use std::alloc::AllocError;
use std::io::Write;

/// Writes the row of these fields, two or more: commas between them, and a line feed. Fields that are the same in many rows may come as
/// one, with their comma, since nothing is quoted. An `Err` of a writer into memory means that memory ran out.
pub fn put_fields<W: Write + Drop>(out: &mut Writer<W>, fields: &[&[u8]]) -> Result<(), AllocError>
    requires at { IsAtRow out.old }
    requires fields { 2 ≤ length fields.now }
    ensures { OnOk result (AddsRows W.contents out.old out.new
        (line (map (λ f. f.now) fields.now))) }
{
    out.write_fields(fields).map_err(|_| AllocError)
}

/// Writes the row whose text, but for the line feed, a line holds: csv's writer takes it as one field, since nothing is quoted.
fn put_line<W: Write + Drop>(out: &mut Writer<W>, row: &Line) -> Result<(), AllocError>
    requires at { IsAtRow out.old }
    requires some { 0 < length row.now }
    ensures { OnOk result (AddsRows W.contents out.old out.new (row.now ++ 10 ∷ [])) }
{
    out.write_fields(&[row.text()]).map_err(|_| AllocError)
}

/// Writes a prefix with a hop, or the word for none, under the row's name.
#[inline]
pub(crate) fn put_hop<W: Write + Drop>(
    out: &mut Writer<W>,
    name: &[u8],
    prefix: &Prefix,
    hop: Hop,
    word: &[u8],
    hops: &HopTexts<'_>,
) -> Result<(), AllocError>
    requires at { IsAtRow out.old }
    requires name { length name.now ≤ 9 }
    requires word { length word.now ≤ 4 }
    ensures added { OnOk result (AddsRows W.contents out.old out.new
        (line (name.now ∷ prefix_text (prefix_as prefix.now)
        ∷ hop_text word.now (hop_at hops.now hop.0) ∷ []))) }
    ensures hop { IsHop (hop_at hops.now hop.0) }
{
    let mut row = Line::new(name);
    row.push(b',');
    row.add_prefix(prefix);
    row.push(b',');
    hops.add(&mut row, hop, word);
    put_line(out, &row)
}

/// Writes an announcement that is Invalid, and a VRP that covers it.
#[tactic(auto, using(crate::proofs::Proper::address_proper, crate::proofs::Proper::prefix_proper))]
pub(crate) fn put_invalid<W: Write + Drop>(
    out: &mut Writer<W>,
    announced: Announced,
    vrp: PrintedVrp,
) -> Result<(), AllocError>
    requires { IsAtRow out.old }
    ensures added { OnOk result (AddsRows W.contents out.old out.new
        (line_of (invalid_row (announced_as announced) (printed_vrp_as vrp)))) }
    ensures proper { IsRow (invalid_row (announced_as announced) (printed_vrp_as vrp)) }
{
    let mut prefix = [0; MOST_TEXT];
    let mut peer = [0; MOST_TEXT];
    let mut peer_as = Buffer::new();
    let mut origin = Buffer::new();
    let mut vrp_prefix = [0; MOST_TEXT];
    let mut maxlen = Buffer::new();
    let mut asn = Buffer::new();
    let prefix = prefix_text(&mut prefix, &announced.prefix);
    let peer = addr_text(&mut peer, &announced.peer);
    let peer_as = peer_as.format(announced.peer_as).as_bytes();
    let origin = origin_field(&mut origin, announced.origin);
    let vrp_prefix = prefix_text(&mut vrp_prefix, &vrp.prefix);
    let maxlen = maxlen.format(vrp.maxlen).as_bytes();
    let asn = asn.format(vrp.asn).as_bytes();
    put_fields(
        out,
        &[
            b"invalid", prefix, peer, peer_as, origin, vrp_prefix, maxlen, asn,
        ],
    )
}

/// The row of a change up to the comma before its prefix.
#[inline]
fn change_begun(event: u64, sign: u8) -> Line
    ensures text { result ≡ codes "change," ++ decimal event ++ 44 ∷ sign ∷ 44 ∷ [] }
    ensures short { length result ≤ 30 }
    ensures some { 0 < length result }
{
    let mut row = Line::new(b"change,");
    row.add_number(event);
    row.push(b',');
    row.push(sign);
    row.push(b',');
    row
}

/// Writes what the event of a number adds or replaces, by its sign.
#[inline]
pub(crate) fn put_change<W: Write + Drop>(
    out: &mut Writer<W>,
    event: u64,
    sign: u8,
    prefix: &Prefix,
    hop: Hop,
    hops: &HopTexts<'_>,
) -> Result<(), AllocError>
    requires { IsAtRow out.old }
    ensures added { OnOk result (AddsRows W.contents out.old out.new
        (line (codes "change" ∷ decimal event ∷ (sign ∷ []) ∷ prefix_text (prefix_as prefix.now)
        ∷ hop_text (codes "drop") (hop_at hops.now hop.0) ∷ []))) }
    ensures hop { IsHop (hop_at hops.now hop.0) }
{
    let mut row = change_begun(event, sign);
    row.add_prefix(prefix);
    row.push(b',');
    hops.add(&mut row, hop, b"drop");
    put_line(out, &row)
}

/// Writes what the event of a number removes.
pub(crate) fn put_remove<W: Write + Drop>(
    out: &mut Writer<W>,
    event: u64,
    prefix: &Prefix,
) -> Result<(), AllocError>
    requires { IsAtRow out.old }
    ensures { OnOk result (AddsRows W.contents out.old out.new
        (line (codes "change" ∷ decimal event ∷ codes "-" ∷ prefix_text
        (prefix_as prefix.now) ∷ []))) }
{
    let mut row = change_begun(event, b'-');
    row.add_prefix(prefix);
    put_line(out, &row)
}

/// Writes how many changes the event of a number needed.
pub(crate) fn put_moves<W: Write + Drop>(
    out: &mut Writer<W>,
    event: u64,
    number: u64,
) -> Result<(), AllocError>
    requires { IsAtRow out.old }
    ensures { OnOk result (AddsRows W.contents out.old out.new
        (line (codes "moves" ∷ decimal event ∷ decimal number ∷ []))) }
{
    let mut event_digits = Buffer::new();
    let mut digits = Buffer::new();
    let event = event_digits.format(event).as_bytes();
    let number = digits.format(number).as_bytes();
    put_fields(out, &[b"moves", event, number])
}

/// Writes the hop of an address, or `none`.
pub(crate) fn put_answer<W: Write + Drop>(
    out: &mut Writer<W>,
    addr: &Addr,
    hop: Option<Addr>,
) -> Result<(), AllocError>
    requires { IsAtRow out.old }
    ensures { OnOk result (AddsRows W.contents out.old out.new
        (line (codes "answer" ∷ address_text (addr_as addr.now) ∷ hop_text (codes "none")
        (option_map addr_as hop) ∷ []))) }
{
    let mut text = [0; MOST_TEXT];
    let mut hop_text = [0; MOST_TEXT];
    let addr = addr_text(&mut text, addr);
    let hop = hop_field(&mut hop_text, hop, b"none");
    put_fields(out, &[b"answer", addr, hop])
}

/// Writes how many nodes the lookup of an address visits.
pub(crate) fn put_visits<W: Write + Drop>(
    out: &mut Writer<W>,
    addr: &Addr,
    number: u64,
) -> Result<(), AllocError>
    requires { IsAtRow out.old }
    ensures { OnOk result (AddsRows W.contents out.old out.new
        (line (codes "visits" ∷ address_text (addr_as addr.now) ∷ decimal number ∷ []))) }
{
    let mut digits = Buffer::new();
    let mut text = [0; MOST_TEXT];
    let number = digits.format(number).as_bytes();
    let addr = addr_text(&mut text, addr);
    put_fields(out, &[b"visits", addr, number])
}

/// Writes the k of a region that is put together from its halves.
#[inline]
pub(crate) fn put_join<W: Write + Drop>(
    out: &mut Writer<W>,
    prefix: &Prefix,
    k: u64,
) -> Result<(), AllocError>
    requires { IsAtRow out.old }
    ensures { OnOk result (AddsRows W.contents out.old out.new
        (line (codes "cert" ∷ codes "join" ∷ prefix_text (prefix_as prefix.now) ∷ decimal k ∷
        []))) }
{
    let mut row = Line::new(b"cert,join");
    row.push(b',');
    row.add_prefix(prefix);
    row.push(b',');
    row.add_number(k);
    put_line(out, &row)
}

/// Writes how many entries a least table of a family has.
pub(crate) fn put_bound<W: Write + Drop>(
    out: &mut Writer<W>,
    family: Family,
    number: u64,
) -> Result<(), AllocError>
    requires { IsAtRow out.old }
    ensures { OnOk result (AddsRows W.contents out.old out.new
        (line (codes "cert" ∷ codes "bound" ∷ family_name family ∷ decimal number ∷ []))) }
{
    let mut digits = Buffer::new();
    let number = digits.format(number).as_bytes();
    put_fields(out, &[b"cert", b"bound", family_field(family), number])
}

/// Writes a count.
pub(crate) fn put_count<W: Write + Drop>(
    out: &mut Writer<W>,
    count: Count,
    number: u64,
) -> Result<(), AllocError>
    requires { IsAtRow out.old }
    ensures { OnOk result (AddsRows W.contents out.old out.new
        (line (codes "report" ∷ count_name (count_as count) ∷ decimal number ∷ []))) }
{
    let mut digits = Buffer::new();
    let number = digits.format(number).as_bytes();
    put_fields(out, &[b"report", count_field(count), number])
}
