//! The check of a printed text, and the row that it prints.

ghost use Rattle.std.specs.Prelude.{◌≡◌, ◌∷◌, [], codes, decimal, option_map, IfErr, IfOk, IfSome, Some};
ghost use Rattle.cert_check.specs.Views.{no_as};
ghost use Rattle.printed_text.specs.Printed.{printed_as};
ghost use Rattle.fib_addr.specs.Views.{addr_as, prefix_as};
ghost use Rattle.fib_addr.specs.Text.{address_text, prefix_text};
ghost use Rattle.printed_text.specs.Rows.{family_name, line};
ghost use Rattle.fib_due.specs.Checks.{verdict_hop, no_fields, verdict_of, verdict_text};
ghost use Rattle.fib_due.specs.Due.{Checked, Refuted, checked, reply_of, used_at, with_reply};
ghost use Rattle.fib_due.specs.Ends.{ReadsName};
ghost use Rattle.fib_due.specs.InTime.{TextMayGoOn};
ghost use Rattle.fib_due.specs.Passes.{ReadsOf, check_inputs};
ghost use Rattle.fib_due.specs.Stops.{GivesDue};
ghost use Rattle.fib_due.specs.Untold.{ReplyOfSome};
ghost use Rattle.fib_io.specs.Reads.{Makes};
ghost use Rattle.fib_due.specs.Owned.{IsNo, StopsAt};
ghost use Rattle.fib_texts.specs.Reads.{IsReply};
ghost use Rattle.fib_due.specs.Views.{reply_as, wrong_as};

use crate::read::{ReadText, read_text};
use cert_check::{CheckError, No, check};
use fib_due::{Outcome, Reply, Which, Wrong};
use fib_io::{Inputs, ReadError};
use fib_prefix::{Addr, Family, Hop, HopTable, MOST_TEXT, Prefix, addr_text, prefix_text};
use fib_report::{family_field, hop_field, row_text};
use itoa::Buffer;
use printed_text::Printed;
use std::alloc::{AllocError, Global};

/// `no,twice,PREFIX`.
pub fn twice_row(alloc: Global, prefix: &Prefix) -> Result<Vec<u8>, AllocError>
    ensures { IfOk result (λ text. text.items
        ≡ line (codes "no" ∷ codes "twice" ∷ prefix_text (prefix_as prefix.now) ∷ [])) }
{
    let mut buffer = [0; MOST_TEXT];
    row_text(alloc, &[b"no", b"twice", prefix_text(&mut buffer, prefix)])
}

/// `no,notsame,ADDRESS,WANT,HAS`: the hops of the address from the routes and from the table.
pub fn not_same_row(
    alloc: Global,
    addr: &Addr,
    want: Hop,
    has: Hop,
    hops: &HopTable,
) -> Result<Vec<u8>, AllocError>
    ensures { IfOk result (λ text. text.items
        ≡ line (codes "no" ∷ codes "notsame" ∷ address_text
        (addr_as addr.now) ∷ verdict_hop hops.now.list want.0 ∷ verdict_hop hops.now.list has.0 ∷
        [])) }
{
    let mut text = [0; MOST_TEXT];
    let mut want_text = [0; MOST_TEXT];
    let mut has_text = [0; MOST_TEXT];
    let addr = addr_text(&mut text, addr);
    let want = hop_field(&mut want_text, hops.addr(want), b"none");
    let has = hop_field(&mut has_text, hops.addr(has), b"none");
    row_text(alloc, &[b"no", b"notsame", addr, want, has])
}

/// `no,WORD,ROW`.
fn wrong_row(alloc: Global, word: &[u8], number: u64) -> Result<Vec<u8>, AllocError>
    ensures { IfOk result (λ text. text.items
        ≡ line (codes "no" ∷ word.now ∷ decimal number ∷ [])) }
{
    let mut digits = Buffer::new();
    row_text(alloc, &[b"no", word, digits.format(number).as_bytes()])
}

/// `no,joinwrong,ROW,SAID,DUE`: the number that the row says, and the one that is due.
fn join_wrong_row(alloc: Global, number: u64, said: u64, due: u64) -> Result<Vec<u8>, AllocError>
    ensures { IfOk result (λ text. text.items
        ≡ line (codes "no" ∷ codes "joinwrong" ∷ decimal number ∷ decimal said ∷ decimal due ∷
        [])) }
{
    let mut number_text = Buffer::new();
    let mut said_text = Buffer::new();
    let mut due_text = Buffer::new();
    let number = number_text.format(number).as_bytes();
    let said = said_text.format(said).as_bytes();
    let due = due_text.format(due).as_bytes();
    row_text(alloc, &[b"no", b"joinwrong", number, said, due])
}

/// `no,notleast,FAMILY,ENTRIES,BOUND`: how many entries the table has, and how many a least one.
fn not_least_row(
    alloc: Global,
    family: Family,
    entries: u64,
    bound: u64,
) -> Result<Vec<u8>, AllocError>
    ensures { IfOk result (λ text. text.items
        ≡ line (codes "no" ∷ codes "notleast" ∷ family_name family ∷ decimal entries ∷ decimal bound
        ∷ [])) }
{
    let mut entries_text = Buffer::new();
    let mut bound_text = Buffer::new();
    let family = family_field(family);
    let entries = entries_text.format(entries).as_bytes();
    let bound = bound_text.format(bound).as_bytes();
    row_text(alloc, &[b"no", b"notleast", family, entries, bound])
}

/// The row of what is wrong.
fn no_row(alloc: Global, no: &No, hops: &HopTable) -> Result<Vec<u8>, AllocError>
    ensures { IfOk result (λ text. text.items ≡ line (no_fields hops.now.list (no_as no.now))) }
{
    match no {
        No::Twice { prefix } => twice_row(alloc, prefix),
        No::NotSame { addr, want, has } => not_same_row(alloc, addr, *want, *has, hops),
        No::Shape { row } => wrong_row(alloc, b"shape", *row),
        No::LeafWrong { row } => wrong_row(alloc, b"leafwrong", *row),
        No::JoinWrong { row, said, due } => join_wrong_row(alloc, *row, *said, *due),
        No::NotLeast {
            family,
            entries,
            bound,
        } => not_least_row(alloc, *family, *entries, *bound),
    }
}

/// `yes`, or what is wrong.
fn verdict_row(alloc: Global, no: &Option<No>, hops: &HopTable) -> Result<Vec<u8>, AllocError>
    ensures { IfOk result (λ text. text.items ≡ verdict_text hops.now.list
        (option_map no_as no.now)) }
{
    match no {
        None => Vec::from_slice(alloc, b"yes\n"),
        Some(no) => no_row(alloc, no, hops),
    }
}

/// What a check that isn't a yes finds wrong.
fn wrong_by(error: CheckError) -> Result<Option<No>, AllocError>
    ensures { IfOk result (λ no. (x : No) × (error ≡ CheckError.No x) × (no ≡ Some x)) }
{
    match error {
        CheckError::No(no) => Ok(Some(no)),
        CheckError::NoMemory => Err(AllocError),
    }
}

/// What is wrong with a certificate, if anything is.
fn wrong_in(alloc: Global, printed: &Printed) -> Result<Option<No>, AllocError>
    ensures { IfOk result (λ no. option_map no_as no ≡ verdict_of (printed_as printed.now)) }
{
    match check(alloc, &printed.routes, &printed.least, &printed.rows) {
        Ok(()) => Ok(None),
        Err(error) => wrong_by(error),
    }
}

/// What is wrong, among all that may be.
fn refuted(no: Option<No>) -> Option<Wrong>
    ensures wrong { option_map wrong_as result ≡ option_map Refuted (option_map no_as no) }
    ensures no { IfSome result IsNo }
{
    match no {
        Some(no) => Some(Wrong::No(no)),
        None => None,
    }
}

/// The reply to a printed text.
fn reply_to(alloc: Global, printed: &Printed) -> Result<Reply, AllocError>
    ensures reply { IfOk result (λ reply. reply_as reply ≡ reply_of (Checked (printed_as printed.now))) }
    ensures no { IfOk result (λ reply. IfSome reply.wrong IsNo) }
{
    let no = wrong_in(alloc, printed)?;
    let text = verdict_row(alloc, &no, &printed.hops)?;
    Ok(Reply {
        text,
        wrong: refuted(no),
    })
}

/// The reply to a printed text that was read, or the outcome if it wasn't.
fn reply_to_read(alloc: Global, read: Result<ReadText, ReadError>) -> Result<Reply, Outcome>
    ensures reply { IsReply read result }
    ensures no { IfOk result (λ reply. IfSome reply.wrong IsNo) }
{
    match read {
        Ok(Ok(printed)) => reply_to(alloc, &printed).map_err(|_| Outcome::NoMemory),
        Ok(Err(bad)) => Err(Outcome::BadLine {
            input: Which::Printed,
            line: bad.line,
            why: bad.why,
        }),
        Err(ReadError::Fault) => Err(Outcome::ReadFault),
        Err(ReadError::TooLarge) => Err(Outcome::TooLarge {
            input: Which::Printed,
        }),
        Err(ReadError::NoMemory) => Err(Outcome::NoMemory),
    }
}

/// Reads a printed text, in pieces, and returns the reply to it: whether its certificate proves its least table least. It costs n
/// log n in the text's length.
pub fn check_for<I: Inputs>(alloc: Global, inputs: &mut I, name: &str) -> Result<Reply, Outcome>
    ensures due { GivesDue reply_as result
        (with_reply (checked (used_at (I.content inputs.old) name.now))) }
    ensures some { ReplyOfSome result }
    ensures no { IfOk result (λ reply. IfSome reply.wrong IsNo) }
    ensures stops { IfErr result (StopsAt Which.Printed) }
    ensures same { I.content inputs.new ≡ I.content inputs.old }
    ensures cause { ReadsName name.now (I.faults inputs.old) (I.faults inputs.new) result }
    ensures reads { Makes (I.reads inputs.old) (I.reads inputs.new)
        (ReadsOf (I.content inputs.old) TextMayGoOn (check_inputs name.now) result) }
{
    let read = read_text(alloc, inputs, name);
    reply_to_read(alloc, read)
}
