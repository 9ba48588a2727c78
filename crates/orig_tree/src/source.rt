//! Who gives entries.

ghost use Rattle.std.specs.Prelude.{◌≡◌, ◌∷◌, [], map, drop, IfSome, IfNone};
ghost use Rattle.table_model.specs.Entries.{Entries};
ghost use Rattle.fib_addr.specs.Views.{entry_as};

use fib_addr::Entry;

/// Gives entries one by one, as a list or a walk over what they are chosen from does: the next one can be looked at before it is
/// passed, so no list of them need be made.
///
/// `left` is the entries that are left, in their order.
pub trait EntrySource {
    ghost left: { Self → Entries };

    /// The next entry, which is still left.
    fn first(&self) -> Option<Entry>
        ensures some { IfSome result (λ e. left self.now ≡ entry_as e ∷ drop 1 (left self.now)) }
        ensures none { IfNone result (left self.now ≡ []) };

    /// Passes the next entry, if any is left.
    fn pass(&mut self)
        ensures { left self.new ≡ drop 1 (left self.old) };
}

impl<'a> EntrySource for &'a [Entry] {
    ghost left = { λ s. map entry_as s.now };

    fn first(&self) -> Option<Entry> {
        match **self {
            [first, ..] => Some(first),
            _ => None,
        }
    }

    fn pass(&mut self) {
        if let [_, rest @ ..] = *self {
            *self = rest;
        }
    }
}
