//! Why a line of printed text is no row: the first of its fields that fails, from left to right.

/// An address or a hop isn't one that the row allows.
pub const HOP: u8 = 1;

/// A word isn't one of those that may stand there: the row's name, the second word of a certificate's row, a sign, a
/// family, or a count's name.
pub const WORD: u8 = 2;

/// There are too few fields or too many. This is tested right after the words that decide how many there must be.
pub const FIELDS: u8 = 3;

/// A field isn't a prefix.
pub const PREFIX: u8 = 4;

/// A number isn't plain decimal without leading zeros, or isn't below 2^64.
pub const NUMBER: u8 = 5;

/// The hop of a route, of an entry of the least table or of a leaf is the 65,535th different one.
pub const TOO_MANY_HOPS: u8 = 6;
