//! A row's text in the making, and texts of addresses that are kept to be copied into it.
//!
//! A row is put together in an array on the stack, from its first octet on, and csv's writer takes it as one field. Texts that are
//! kept are copied in three words of 16 octets. No call takes memory; each costs the length of its text.

ghost use Rattle.std.specs.Prelude.{◌≡◌, ◌+◌, ◌<◌, ◌≤◌, [], ◌∷◌, ◌++◌, decimal, length};
ghost use Rattle.fib_addr.specs.Views.{addr_as, prefix_as};
ghost use Rattle.fib_addr.specs.Text.{address_text, prefix_text};

use fib_addr::{Addr, MOST_TEXT, Prefix, addr_text, prefix_text};
use itoa::Buffer;
use std::marker::Model;

/// The most octets of a row that is put together here: a change's name, event, sign, prefix and hop take at most 118.
pub(crate) const MOST_LINE: usize = 128;

/// The octets that a kept text is copied in: three words of 16 octets, which an address's text fits.
const MOST_KEPT: usize = 48;

/// A text of at most 43 octets, kept to be copied. Contracts see its octets.
#[derive(Drop)]
pub(crate) struct KeptText {
    octets: [u8; MOST_KEPT],
    len: u8,
}

impl Model for KeptText {
    ghost use Rattle.std.specs.Prelude.{ℕ, List, ◌≤◌, take};

    ghost Value = { List ℕ };

    ghost view = { λ t. take t.len t.octets };

    ghost invariant = { λ t. t.len ≤ 43 };
}

impl KeptText {
    /// The text of an address.
    pub(crate) fn of(addr: &Addr) -> KeptText
        ensures { result ≡ address_text (addr_as addr.now) }
    {
        let mut buffer = [0; MOST_TEXT];
        let text = addr_text(&mut buffer, addr);
        let mut octets = [0; MOST_KEPT];
        octets[..text.len()].copy_from_slice(text);
        KeptText {
            octets,
            len: text.len() as u8,
        }
    }
}

/// The text of a row so far. Contracts see its octets.
#[derive(Drop)]
pub(crate) struct Line {
    octets: [u8; MOST_LINE],
    len: usize,
}

impl Model for Line {
    ghost use Rattle.std.specs.Prelude.{ℕ, List, ◌≤◌, take};

    ghost Value = { List ℕ };

    ghost view = { λ l. take l.len l.octets };

    ghost invariant = { λ l. l.len ≤ 128 };
}

impl Line {
    /// A row that begins with this name.
    #[inline]
    pub(crate) fn new(name: &[u8]) -> Line
        requires { length name.now ≤ 128 }
        ensures text { result ≡ name.now }
        ensures len { length result ≡ length name.now }
    {
        let mut line = Line {
            octets: [0; MOST_LINE],
            len: 0,
        };
        line.add(name);
        line
    }

    /// The text.
    pub(crate) fn text(&self) -> &[u8]
        ensures { result.now ≡ self.now }
    {
        &self.octets[..self.len]
    }

    /// Adds an octet.
    #[inline]
    pub(crate) fn push(&mut self, octet: u8)
        requires { length self.old < 128 }
        ensures text { self.new ≡ self.old ++ octet ∷ [] }
        ensures len { length self.new ≡ length self.old + 1 }
    {
        let len = self.len;
        self.octets[len] = octet;
        self.len = len + 1;
    }

    /// Adds a piece.
    #[inline]
    pub(crate) fn add(&mut self, piece: &[u8])
        requires { length self.old + length piece.now ≤ 128 }
        ensures text { self.new ≡ self.old ++ piece.now }
        ensures len { length self.new ≡ length self.old + length piece.now }
    {
        let len = self.len;
        self.octets[len..len + piece.len()].copy_from_slice(piece);
        self.len = len + piece.len();
    }

    /// Adds a text that is kept.
    #[inline]
    pub(crate) fn add_kept(&mut self, kept: &KeptText)
        requires { length self.old + 48 ≤ 128 }
        ensures text { self.new ≡ self.old ++ kept.now }
        ensures grows { length self.old ≤ length self.new }
    {
        let len = self.len;
        self.octets[len..len + MOST_KEPT].copy_from_slice(&kept.octets);
        self.len = len + usize::from(kept.len);
    }

    /// Adds a number.
    #[inline]
    pub(crate) fn add_number(&mut self, number: u64)
        requires { length self.old + 20 ≤ 128 }
        ensures text { self.new ≡ self.old ++ decimal number }
        ensures short { length self.new ≤ length self.old + 20 }
        ensures grows { length self.old ≤ length self.new }
    {
        let mut digits = Buffer::new();
        self.add(digits.format(number).as_bytes());
    }

    /// Adds an address.
    #[inline(never)]
    pub(crate) fn add_addr(&mut self, addr: &Addr)
        requires { length self.old + 43 ≤ 128 }
        ensures text { self.new ≡ self.old ++ address_text (addr_as addr.now) }
        ensures grows { length self.old ≤ length self.new }
    {
        let mut buffer = [0; MOST_TEXT];
        self.add(addr_text(&mut buffer, addr));
    }

    /// Adds a prefix.
    #[inline]
    pub(crate) fn add_prefix(&mut self, prefix: &Prefix)
        requires { length self.old + 43 ≤ 128 }
        ensures text { self.new ≡ self.old ++ prefix_text (prefix_as prefix.now) }
        ensures short { length self.new ≤ length self.old + 43 }
        ensures grows { length self.old ≤ length self.new }
    {
        let mut buffer = [0; MOST_TEXT];
        self.add(prefix_text(&mut buffer, prefix));
    }
}
