//! The texts of next hops, by their numbers.
//!
//! A run has few hops and writes each in many rows, so their texts are made once and then copied. Making them costs their length and
//! 49 octets of memory a hop. If memory runs out fewer are kept; the text of a hop that isn't kept is made when it is asked for.

ghost use Rattle.std.specs.Prelude.{◌≡◌, ◌↔◌, ◌+◌, ◌≤◌, ◌++◌, length, option_map, IfSome, IsSome, IsTrue};
ghost use Rattle.fib_addr.specs.Hops.{hop_at};
ghost use Rattle.fib_addr.specs.Text.{address_text};
ghost use Rattle.fib_addr.specs.Views.{addr_as};
ghost use Rattle.printed_text.specs.Rows.{IsHop, hop_text};
ghost use Rattle.fib_report.specs.HopTexts.{AreTextsOf};

use crate::line::{KeptText, Line};
use fib_addr::{Addr, Hop, HopTable};
use std::alloc::Global;
use std::marker::Model;

/// The hops of a table, with texts that are kept. Contracts see the list of hops in the order of their numbers.
#[derive(Drop)]
pub(crate) struct HopTexts<'a> {
    table: &'a HopTable,
    texts: Vec<KeptText>,
}

impl<'a> Model for HopTexts<'a> {
    ghost use Rattle.std.specs.Prelude.{List};
    ghost use Rattle.table_model.specs.Address.{Address};
    ghost use Rattle.fib_report.specs.HopTexts.{AreTextsOf};

    ghost Value = { List Address };

    ghost view = { λ h. h.table.now.list };

    ghost invariant = { λ h. AreTextsOf h.table.now.list h.texts.items };
}

/// The texts of the first hops of a table: of all of them, unless memory runs out.
fn texts_of(alloc: Global, table: &HopTable) -> Vec<KeptText>
    ensures { AreTextsOf table.now.list result.items }
{
    let mut texts = Vec::new(alloc);
    for place in 0..u16::MAX {
        let Some(addr) = table.addr(Hop(place + 1)) else {
            return texts;
        };
        let Ok(()) = texts.push(KeptText::of(&addr)) else {
            return texts;
        };
    }
    texts
}

/// Adds the text of a hop that isn't kept, or the word for none.
#[inline(never)]
fn add_made(line: &mut Line, hop: Option<Addr>, word: &[u8])
    requires room { length line.old + 48 ≤ 128 }
    requires short { length word.now ≤ 48 }
    ensures text { line.new ≡ line.old ++ hop_text word.now (option_map addr_as hop) }
    ensures grows { length line.old ≤ length line.new }
{
    match hop {
        Some(addr) => line.add_addr(&addr),
        None => line.add(word),
    }
}

impl<'a> HopTexts<'a> {
    /// The hops of a table.
    pub(crate) fn new(alloc: Global, table: &'a HopTable) -> HopTexts<'a>
        ensures { result ≡ table.now.list }
    {
        HopTexts {
            table,
            texts: texts_of(alloc, table),
        }
    }

    /// The text of a hop, if it is kept.
    #[inline]
    fn kept(&self, hop: Hop) -> Option<&KeptText>
        ensures text { IfSome result (λ text. option_map address_text (hop_at self.now hop.0) ≡ Some text.now) }
        ensures hop { IfSome result (λ _. IsHop (hop_at self.now hop.0)) }
    {
        let place = usize::from(hop.0).checked_sub(1)?;
        self.texts.get(place)
    }

    /// The address of a hop.
    pub(crate) fn addr(&self, hop: Hop) -> Option<Addr>
        ensures { option_map addr_as result ≡ hop_at self.now hop.0 }
    {
        self.table.addr(hop)
    }

    /// Whether a hop has the number.
    pub(crate) fn has(&self, hop: Hop) -> bool
        ensures { IsTrue result ↔ IsSome (hop_at self.now hop.0) }
    {
        self.kept(hop).is_some() || self.table.addr(hop).is_some()
    }

    /// Adds the hop's text to a row, or the word for none.
    #[inline]
    pub(crate) fn add(&self, line: &mut Line, hop: Hop, word: &[u8])
        requires room { length line.old + 48 ≤ 128 }
        requires short { length word.now ≤ 48 }
        ensures text { line.new ≡ line.old ++ hop_text word.now (hop_at self.now hop.0) }
        ensures grows { length line.old ≤ length line.new }
        ensures hop { IsHop (hop_at self.now hop.0) }
    {
        match self.kept(hop) {
            Some(text) => line.add_kept(text),
            None => add_made(line, self.table.addr(hop), word),
        }
    }
}
