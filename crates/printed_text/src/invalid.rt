//! The row of an announcement that is Invalid (RFC 6811, section 2), read from its fields.

ghost use Rattle.octet_fields.specs.Gives.{Gives};
ghost use Rattle.printed_text.specs.Reading.{announced_in, printed_vrp_in};
ghost use Rattle.printed_text.specs.Printed.{announced_as, announced_texts_as, printed_vrp_as, vrp_texts_as};

use crate::fields::{
    AnnouncedTexts, VrpTexts, address_field, number_field, origin_field, prefix_field,
};
use fib_addr::{Addr, Prefix};

/// An announcement, as its row says it.
#[derive(Clone, Copy, Debug, PartialEq, Eq)]
pub struct Announced {
    /// The prefix.
    pub prefix: Prefix,
    /// The peer's address.
    pub peer: Addr,
    /// The AS in which the route originates, if it has one.
    pub origin: Option<u64>,
    /// The peer's AS.
    pub peer_as: u64,
}

/// A validated ROA payload (VRP), as its fields say it.
#[derive(Clone, Copy, Debug, PartialEq, Eq)]
pub struct PrintedVrp {
    /// The prefix.
    pub prefix: Prefix,
    /// The most bits that an announced prefix may have.
    pub maxlen: u64,
    /// The number of the AS.
    pub asn: u64,
}

/// The announcement of these fields.
#[tactic(auto, unfolding(crate::specs::Reading::announced_in))]
pub(crate) fn announced_in(texts: AnnouncedTexts<'_>) -> Result<Announced, u8>
    ensures { Gives announced_as result (announced_in (announced_texts_as texts.entry)) }
{
    let prefix = prefix_field(texts.prefix)?;
    let peer = address_field(texts.peer)?;
    let peer_as = number_field(texts.peer_as)?;
    let origin = origin_field(texts.origin)?;
    Ok(Announced {
        prefix,
        peer,
        origin,
        peer_as,
    })
}

/// The VRP of these fields.
#[tactic(auto, unfolding(crate::specs::Reading::printed_vrp_in))]
pub(crate) fn printed_vrp_in(texts: VrpTexts<'_>) -> Result<PrintedVrp, u8>
    ensures { Gives printed_vrp_as result (printed_vrp_in (vrp_texts_as texts.entry)) }
{
    let prefix = prefix_field(texts.prefix)?;
    let maxlen = number_field(texts.maxlen)?;
    let asn = number_field(texts.asn)?;
    Ok(PrintedVrp {
        prefix,
        maxlen,
        asn,
    })
}
