//! One text, read and judged.

ghost use Rattle.std.specs.Prelude.{◌≡◌, ◌≤◌, ◌∷◌, [], length, OnOk};
ghost use Rattle.fib_addr.specs.Hops.{most_hops};
ghost use Rattle.fib_io.specs.Reads.{Makes};
ghost use Rattle.printed_text.specs.Printed.{kind_as};
ghost use Rattle.fib_same.specs.Due.{text_entries, text_octets, text_at};
ghost use Rattle.fib_same.specs.Gives.{ReturnsDue, IsOfText, ReadsNamedTexts};
ghost use Rattle.fib_same.specs.Passes.{ReadsOfTexts};

use crate::error::SameError;
use cert_check::first_twice;
use fib_addr::{Entry, HopTable};
use fib_io::{Inputs, ReadError, read_whole};
use printed_text::{Kind, PrintedError, read_rows};
use std::alloc::Global;

/// The octets of the text of this name and number, which is read to its end.
///
/// # Errors
///
/// The text is too large. A failed read, or out of memory.
#[tactic(auto, using(crate::proofs::Reading::text_read, crate::proofs::Reading::text_fails, crate::proofs::Reading::text_large, crate::proofs::Reading::text_begun), unfolding(crate::specs::Due::text_octets, crate::specs::Due::sized_text))]
pub fn octets_of<I: Inputs>(
    alloc: Global,
    inputs: &mut I,
    name: &str,
    text: u64,
) -> Result<Vec<u8>, SameError>
    ensures due { ReturnsDue (λ v. v.items) result
        (text_octets (I.content inputs.old) text name.now) }
    ensures same { I.content inputs.new ≡ I.content inputs.old }
    ensures cause { ReadsNamedTexts (name.now ∷ []) (I.faults inputs.old) (I.faults inputs.new) result }
    ensures reads { Makes (I.reads inputs.old) (I.reads inputs.new)
        (ReadsOfTexts ((text, name.now) ∷ []) result) }
{
    match read_whole(alloc, inputs, name) {
        Ok(octets) => Ok(octets),
        Err(ReadError::Fault) => Err(SameError::Fault),
        Err(ReadError::NoMemory) => Err(SameError::NoMemory),
        Err(ReadError::TooLarge) => Err(SameError::TooLarge { text }),
    }
}

/// The entries that a text with these octets says, which are let go once it is read. Each prefix stands in them once.
#[tactic(auto, unfolding(crate::specs::Due::text_entries))]
fn entries_of(
    alloc: Global,
    octets: Vec<u8>,
    text: u64,
    kind: Kind,
    hops: &mut HopTable,
) -> Result<Vec<Entry>, SameError>
    requires { length hops.old.list ≤ most_hops }
    ensures due { ReturnsDue (λ v. kind_as v hops.new) result
        (text_entries kind hops.old.list text octets.items) }
    ensures few { OnOk result (length hops.new.list ≤ most_hops) }
    ensures of_text { IsOfText text result }
{
    let entries = match read_rows(alloc, &octets, kind, hops) {
        Ok(entries) => entries,
        Err(PrintedError::BadRow(bad)) => return Err(SameError::BadLine {
            text,
            line: bad.line,
            why: bad.why,
        }),
        Err(PrintedError::NoMemory) => return Err(SameError::NoMemory),
    };
    drop(octets);
    match first_twice(alloc, &entries)? {
        Some(prefix) => Err(SameError::Twice { text, prefix }),
        None => Ok(entries),
    }
}

/// The entries that the text of this name and number says in its rows of this kind, with hops numbered after those of the texts
/// before it. The text is read to its end and then judged; its octets are let go before the call returns. It costs n log n in them.
///
/// # Errors
///
/// The text is too large, or has a line that is no row or whose hop is the 65,535th of all texts, or has a prefix twice in its rows of
/// this kind. A failed read, or out of memory.
#[tactic(auto, unfolding(crate::specs::Due::text_at))]
pub fn read_text<I: Inputs>(
    alloc: Global,
    inputs: &mut I,
    name: &str,
    text: u64,
    kind: Kind,
    hops: &mut HopTable,
) -> Result<Vec<Entry>, SameError>
    requires { length hops.old.list ≤ most_hops }
    ensures due { ReturnsDue (λ v. kind_as v hops.new) result
        (text_at (I.content inputs.old) kind hops.old.list text name.now) }
    ensures few { OnOk result (length hops.new.list ≤ most_hops) }
    ensures same { I.content inputs.new ≡ I.content inputs.old }
    ensures cause { ReadsNamedTexts (name.now ∷ []) (I.faults inputs.old) (I.faults inputs.new) result }
    ensures reads { Makes (I.reads inputs.old) (I.reads inputs.new)
        (ReadsOfTexts ((text, name.now) ∷ []) result) }
{
    let octets = octets_of(alloc, inputs, name, text)?;
    entries_of(alloc, octets, text, kind, hops)
}
