//! Who takes rows.

ghost use Rattle.std.specs.Prelude.{◌≡◌, ◌++◌, List, [], ◌∷◌, map, OnOk};
ghost use Rattle.cert_model.specs.Rows.{CertRow};
ghost use Rattle.cert_model.specs.Views.{row_as};
ghost use Rattle.cert_model.specs.Taken.{more_rows};

use crate::row::Row;
use std::alloc::AllocError;

/// Takes the rows of a certificate one by one, as a list or a text does.
///
/// `ready` is that it can take a row, and `takes` what it is once it took these rows, in their order.
pub trait RowSink {
    ghost ready: { Self → Type 0 };

    ghost takes: { Self → List CertRow → Self → Type 0 };

    /// Takes a row, after those that it took.
    ///
    /// # Errors
    ///
    /// Out of memory; then nothing is said of what it holds.
    fn put(&mut self, row: Row) -> Result<(), AllocError>
        requires { ready self.old }
        ensures ready { OnOk result (ready self.new) }
        ensures takes { OnOk result (takes self.old (row_as row ∷ []) self.new) };

    ghost more: { (a b c : Self) (rows more : List CertRow) → takes a rows b → takes b more c
        → takes a (rows ++ more) c };
}

impl RowSink for Vec<Row> {
    ghost ready = { λ _. Unit {0} };

    ghost takes = { λ v rows w. map row_as w.items ≡ map row_as v.items ++ rows };

    ghost more = { λ a b c rows more first next. more_rows (map row_as a.items) (map row_as b.items)
        (map row_as c.items) rows more first next };

    fn put(&mut self, row: Row) -> Result<(), AllocError> {
        self.push(row)?;
        Ok(())
    }
}
