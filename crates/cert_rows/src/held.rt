//! The rows, held.

ghost use Rattle.std.specs.Prelude.{◌≡◌, ◌<◌, ◌+◌, ◌^◌, [], ◌∷◌, ◌++◌, OnOk, length};
ghost use Rattle.std.specs.List.{AllByRecursion};
ghost use Rattle.cert_model.specs.Views.{row_as};
ghost use Rattle.cert_model.specs.Verdict.{RowFits};

use crate::left::RowsLeft;
use crate::near::{Near, row_prefix};
use cert_model::{PackedRow, Row};
use fib_addr::{Family, Prefix};
use std::alloc::{AllocError, Global};
use std::marker::Model;

/// Rows of certificates, in the order in which they were put. A row that follows from the row before takes four octets, and any
/// other 36.
#[derive(Drop)]
pub struct CertRows {
    // What doesn't follow of each row from the row before.
    near: Vec<Near>,
    // The rows that are kept whole.
    whole: Vec<PackedRow>,
    // The prefix of the last row.
    last: Prefix,
}

impl Model for CertRows {
    ghost use Rattle.std.specs.Prelude.{List, map};
    ghost use Rattle.std.specs.List.{AllByRecursion};
    ghost use Rattle.cert_model.specs.Rows.{CertRow};
    ghost use Rattle.cert_model.specs.Verdict.{RowFits};
    ghost use Rattle.fib_addr.specs.Views.{prefix_as};
    ghost use Rattle.cert_model.specs.PackedViews.{packed_as};
    ghost use Rattle.cert_rows.specs.Held.{RowsEndAt, first_prefix, rows_held};

    ghost Value = { List CertRow };

    ghost view = { λ r. rows_held r.near.items first_prefix (map packed_as r.whole.items) };

    ghost invariant = { λ r. RowsEndAt (prefix_as r.last) r.near.items first_prefix (map packed_as r.whole.items)
        × AllByRecursion RowFits (rows_held r.near.items first_prefix (map packed_as r.whole.items)) };
}

impl CertRows {
    /// No rows.
    pub fn new(alloc: Global) -> CertRows
        ensures { result ≡ [] }
    {
        CertRows {
            near: Vec::new(alloc),
            whole: Vec::new(alloc),
            last: Prefix::whole(Family::V4),
        }
    }

    /// Puts a row after all others.
    ///
    /// # Errors
    ///
    /// Out of memory; the rows stay as they were.
    pub fn push(&mut self, row: &Row) -> Result<(), AllocError>
        ensures { OnOk result (self.new ≡ self.old ++ row_as row.now ∷ []) }
    {
        match Near::of(&self.last, row) {
            Some(near) => self.near.push(near)?,
            None => {
                self.near.reserve(1)?;
                self.whole.push(PackedRow::of(row))?;
                self.near.push_reserved(Near::WHOLE);
            }
        }
        self.last = row_prefix(row);
        Ok(())
    }

    /// The rows from the first on.
    #[tactic(auto, using(crate::proofs::Rows::rows_few))]
    pub fn rows(&self) -> RowsLeft<'_>
        ensures all { result ≡ self.now }
        ensures fit { AllByRecursion RowFits self.now }
        ensures few { length self.now + 1 < 2 ^ 64 }
    {
        RowsLeft::new(&self.near, &self.whole)
    }
}
