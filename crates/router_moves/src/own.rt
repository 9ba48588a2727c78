//! What is of one family, as it stands.

ghost use Rattle.std.specs.Prelude.{◌≡◌, IfOk, map};
ghost use Rattle.fib_addr.specs.Views.{entry_as};
ghost use Rattle.fib_delta.specs.Views.{change_as};
ghost use Rattle.cert_model.specs.Views.{row_as};
ghost use Rattle.kept_model.specs.Between.{place_of};
ghost use Rattle.moves_check.specs.Views.{AreChangesOf, AreEntriesOf, AreRowsOf};
ghost use Rattle.moves_model.specs.Both.{own_entries};
ghost use Rattle.moves_model.specs.Claims.{family_of_row, own_changes, own_rows};

use cert_model::Row;
use fib_addr::{Entry, Family};
use fib_delta::Change;
use std::alloc::{AllocError, Global};

/// The entries of the family.
pub(crate) fn own_entries(
    alloc: Global,
    family: Family,
    entries: &[Entry],
) -> Result<Vec<Entry>, AllocError>
    ensures own { IfOk result (λ v. map entry_as v.items
        ≡ own_entries family (map entry_as entries.now)) }
    ensures of { IfOk result (λ v. AreEntriesOf family (map entry_as v.items)) }
{
    let mut own = Vec::new(alloc);
    for entry in entries {
        if entry.prefix.family == family {
            own.push(*entry)?;
        }
    }
    Ok(own)
}

/// The family of the prefix that a change is at.
fn family_of(change: &Change) -> Family
    ensures { result ≡ (place_of (change_as change.now)).family }
{
    match change {
        Change::Add(prefix, _) => prefix.family,
        Change::Replace(prefix, _) => prefix.family,
        Change::Remove(prefix) => prefix.family,
    }
}

/// The changes at prefixes of the family.
pub(crate) fn own_changes(
    alloc: Global,
    family: Family,
    changes: &[Change],
) -> Result<Vec<Change>, AllocError>
    ensures own { IfOk result (λ v. map change_as v.items
        ≡ own_changes family (map change_as changes.now)) }
    ensures of { IfOk result (λ v. AreChangesOf family (map change_as v.items)) }
{
    let mut own = Vec::new(alloc);
    for change in changes {
        if family_of(change) == family {
            own.push(*change)?;
        }
    }
    Ok(own)
}

/// The family of a row's prefix, or the one that a bound names.
fn family_of_row(row: &Row) -> Family
    ensures { result ≡ family_of_row (row_as row.now) }
{
    match row {
        Row::Leaf(prefix, _) => prefix.family,
        Row::Join(prefix, _) => prefix.family,
        Row::Bound(family, _) => *family,
    }
}

/// The rows of the family.
pub(crate) fn own_rows(alloc: Global, family: Family, rows: &[Row]) -> Result<Vec<Row>, AllocError>
    ensures own { IfOk result (λ v. map row_as v.items ≡ own_rows family (map row_as rows.now)) }
    ensures of { IfOk result (λ v. AreRowsOf family (map row_as v.items)) }
{
    let mut own = Vec::new(alloc);
    for row in rows {
        if family_of_row(row) == family {
            own.push(*row)?;
        }
    }
    Ok(own)
}
