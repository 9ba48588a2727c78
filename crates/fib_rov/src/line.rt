//! A line of a list of VRPs: a prefix, MAXLEN and an AS number, with commas between them.

ghost use Rattle.std.specs.Prelude.{◌≡◌};
ghost use Rattle.octet_fields.specs.Gives.{Gives};
ghost use Rattle.fib_addr.specs.Views.{prefix_as};
ghost use Rattle.fib_rov.specs.Lines.{as_field, is_maxlen, maxlen_field, vrp_in};
ghost use Rattle.fib_rov.specs.Views.{vrp_as};

use crate::vrp::Vrp;
use fib_addr::{Prefix, read_number};
use printed_text::fields::{Fields, prefix_field, vrp_fields};
use printed_text::why;

/// Why a line is no VRP beside what `printed_text::why` says: MAXLEN is below the prefix's length or above its family's width.
pub const BAD_MAXLEN: u8 = 7;

/// MAXLEN, below 256.
fn maxlen_field(text: &[u8]) -> Result<u8, u8>
    ensures { Gives (λ n. n) result (maxlen_field text.now) }
{
    match read_number(text, 255) {
        Some(number) => Ok(number as u8),
        None => Err(why::NUMBER),
    }
}

/// An AS number, below 2^32.
fn as_field(text: &[u8]) -> Result<u32, u8>
    ensures { Gives (λ n. n) result (as_field text.now) }
{
    match read_number(text, 4_294_967_295) {
        Some(number) => Ok(number as u32),
        None => Err(why::NUMBER),
    }
}

/// Whether MAXLEN is at least the prefix's length, and at most its family's width.
fn is_maxlen(prefix: &Prefix, maxlen: u8) -> bool
    ensures { result ≡ is_maxlen (prefix_as prefix.now) maxlen }
{
    prefix.len <= maxlen && maxlen <= prefix.family.width()
}

/// The VRP of a line without its end, or why it is none.
#[tactic(auto, unfolding(crate::specs::Lines::vrp_in))]
pub(crate) fn read_vrp(line: &[u8]) -> Result<Vrp, u8>
    ensures { Gives vrp_as result (vrp_in line.now) }
{
    let texts = vrp_fields(Fields::of(line, b','))?;
    let prefix = prefix_field(texts.prefix)?;
    let maxlen = maxlen_field(texts.maxlen)?;
    let asn = as_field(texts.asn)?;
    if !is_maxlen(&prefix, maxlen) {
        return Err(BAD_MAXLEN);
    }
    Ok(Vrp {
        prefix,
        maxlen,
        asn,
    })
}
