//! The rows that are left to be read.

ghost use Rattle.std.specs.Prelude.{◌≡◌, map, option_map};
ghost use Rattle.cert_model.specs.PackedViews.{packed_as};
ghost use Rattle.cert_model.specs.Views.{row_as};
ghost use Rattle.cert_rows.specs.Held.{TakesRow, first_prefix, rows_held};

use crate::near::{Near, row_prefix};
use cert_model::{PackedRow, Row};
use fib_addr::{Family, Prefix};
use std::marker::Model;

/// Rows that are read from the first to the last. Contracts see those that are left.
#[derive(Drop)]
pub struct RowsLeft<'a> {
    near: &'a [Near],
    whole: &'a [PackedRow],
    // The prefix of the row before.
    last: Prefix,
}

impl<'a> Model for RowsLeft<'a> {
    ghost use Rattle.std.specs.Prelude.{List, map};
    ghost use Rattle.cert_model.specs.PackedViews.{packed_as};
    ghost use Rattle.cert_model.specs.Rows.{CertRow};
    ghost use Rattle.cert_rows.specs.Held.{rows_held};
    ghost use Rattle.fib_addr.specs.Views.{prefix_as};

    ghost Value = { List CertRow };

    ghost view = { λ r. rows_held r.near.now (prefix_as r.last) (map packed_as r.whole.now) };
}

impl<'a> RowsLeft<'a> {
    /// All of these rows.
    pub(crate) fn new(near: &'a [Near], whole: &'a [PackedRow]) -> RowsLeft<'a>
        ensures { result ≡ rows_held near.now first_prefix (map packed_as whole.now) }
    {
        RowsLeft {
            near,
            whole,
            last: Prefix::whole(Family::V4),
        }
    }

    /// Takes the next row.
    pub fn next(&mut self) -> Option<Row>
        ensures { TakesRow self.old self.new (option_map row_as result) }
    {
        let (near, more) = self.near.split_first()?;
        let row = match near.row(&self.last) {
            Some(row) => row,
            None => {
                let (row, whole) = self.whole.split_first()?;
                self.whole = whole;
                row.row()
            }
        };
        self.near = more;
        self.last = row_prefix(&row);
        Some(row)
    }
}
