//! Who takes entries.

ghost use Rattle.std.specs.Prelude.{◌≡◌, ◌++◌, List, [], ◌∷◌, map, OnOk};
ghost use Rattle.std.specs.Option.{option_to_list};
ghost use Rattle.table_model.specs.Entries.{Entries};
ghost use Rattle.fib_addr.specs.Views.{entry_as, prefix_as};
ghost use Rattle.fib_addr.specs.Taken.{taken_more, taken_none};

use crate::{Entry, Hop, Prefix};
use std::alloc::AllocError;

/// Takes the entries of a table one by one, as a list or a text does.
///
/// `ready` is that it can take an entry, and `takes` what it is once it took these entries, in their order.
pub trait EntrySink {
    ghost ready: { Self → Type 0 };

    ghost takes: { Self → Entries → Self → Type 0 };

    /// Takes an entry, after those that it took.
    ///
    /// # Errors
    ///
    /// Out of memory; then nothing is said of what it holds.
    fn put(&mut self, entry: Entry) -> Result<(), AllocError>
        requires { ready self.old }
        ensures ready { OnOk result (ready self.new) }
        ensures takes { OnOk result (takes self.old (entry_as entry ∷ []) self.new) };

    ghost none: { (a : Self) → ready a → takes a [] a };

    ghost more: { (a b c : Self) (entries more : Entries) → takes a entries b → takes b more c
        → takes a (entries ++ more) c };
}

impl EntrySink for Vec<Entry> {
    ghost ready = { λ _. Unit {0} };

    ghost takes = { λ v entries w. map entry_as w.items ≡ map entry_as v.items ++ entries };

    ghost none = { λ a ready. taken_none (map entry_as a.items) };

    ghost more = { λ a b c entries more first next. taken_more (map entry_as a.items)
        (map entry_as b.items) (map entry_as c.items) entries more first next };

    fn put(&mut self, entry: Entry) -> Result<(), AllocError> {
        self.push(entry)?;
        Ok(())
    }
}

/// Gives the sink the entry of a prefix with this hop, if it has one.
///
/// # Errors
///
/// Out of memory.
pub fn emit_entry<S: EntrySink>(
    prefix: &Prefix,
    hop: Option<u16>,
    out: &mut S,
) -> Result<(), AllocError>
    requires { S.ready out.old }
    ensures ready { OnOk result (S.ready out.new) }
    ensures takes { OnOk result (S.takes out.old (map (λ h. (prefix_as prefix.now, h))
        (option_to_list hop)) out.new) }
{
    if let Some(hop) = hop {
        out.put(Entry {
            prefix: *prefix,
            hop: Hop(hop),
        })?;
    }
    Ok(())
}
