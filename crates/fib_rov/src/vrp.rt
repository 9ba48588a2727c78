//! Validated ROA payloads.

ghost use Rattle.std.specs.Prelude.{◌≡◌};
ghost use Rattle.fib_rov.specs.Rov.{is_from};
ghost use Rattle.fib_rov.specs.Views.{allows};

use fib_addr::Prefix;

/// A validated ROA payload (RFC 6811, section 2): the AS may originate the prefix, and prefixes within it of at most `maxlen`
/// bits.
#[derive(Clone, Copy, Debug, PartialEq, Eq)]
pub struct Vrp {
    /// The prefix.
    pub prefix: Prefix,
    /// The most bits that an announced prefix may have.
    pub maxlen: u8,
    /// The AS number. AS 0 matches no route (RFC 7607, section 2).
    pub asn: u32,
}

/// Whether a route has this AS as its origin. No route does if it has no origin or the AS is 0.
fn is_origin(origin: Option<u32>, asn: u32) -> bool
    ensures { result ≡ is_from origin asn }
{
    match origin {
        Some(origin) => origin == asn && asn != 0,
        None => false,
    }
}

impl Vrp {
    /// Whether it matches a route of `len` bits with this origin, if it covers it.
    pub(crate) fn allows(&self, len: u8, origin: Option<u32>) -> bool
        ensures { result ≡ allows len origin self.now }
    {
        len <= self.maxlen && is_origin(origin, self.asn)
    }
}
