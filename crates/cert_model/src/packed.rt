//! Packed rows.

ghost use Rattle.std.specs.Prelude.{◌≡◌, ◌<◌, ◌≤◌, ◌-◌, ◌%◌, ◌^◌};
ghost use Rattle.table_model.specs.Width.{width};
ghost use Rattle.cert_model.specs.declared.kind.RowKind.TheVariants.{Leaf};

use crate::Row;
use crate::kind::RowKind;
use fib_addr::{Family, Hop, Prefix};

/// A row of a certificate in 32 octets. The numbers stand first here, and the prefix isn't kept as one value, so that nothing is
/// filled up.
#[derive(Clone, Copy, Debug, PartialEq, Eq)]
pub struct PackedRow {
    // The bits of the prefix.
    bits: u128,
    // The hop's number, the k, or how many entries.
    number: u64,
    kind: RowKind,
    family: Family,
    // How many bits the prefix has.
    len: u8,
    ghost fits: { len ≤ width family },
    ghost below: { bits < 2 ^ width family },
    ghost cleared: { bits % 2 ^ (width family - len) ≡ 0 },
    ghost hop: { kind ≡ Leaf → number < 2 ^ 16 },
}

impl PackedRow {
    ghost use Rattle.cert_model.specs.Rows.{leaf_row};
    ghost use Rattle.cert_model.specs.Views.{row_as};
    ghost use Rattle.fib_addr.specs.Views.{prefix_as};
    ghost use Rattle.cert_model.specs.PackedViews.{packed_as, row_of_kind};

    /// A row of this kind, with this prefix and this number.
    fn with_prefix(kind: RowKind, prefix: &Prefix, number: u64) -> PackedRow
        requires { kind ≡ Leaf → number < 2 ^ 16 }
        ensures { packed_as result ≡ row_of_kind kind (prefix_as prefix.now) number }
    {
        PackedRow {
            bits: prefix.bits,
            number,
            kind,
            family: prefix.family,
            len: prefix.len,
        }
    }

    /// A leaf row.
    fn leaf(prefix: &Prefix, hop: Hop) -> PackedRow
        ensures { packed_as result ≡ leaf_row (prefix_as prefix.now) hop.0 }
    {
        PackedRow::with_prefix(RowKind::Leaf, prefix, u64::from(hop.0))
    }

    /// The same row, packed.
    pub fn of(row: &Row) -> PackedRow
        ensures { packed_as result ≡ row_as row.now }
    {
        match *row {
            Row::Leaf(prefix, hop) => PackedRow::leaf(&prefix, hop),
            Row::Join(prefix, k) => PackedRow::with_prefix(RowKind::Join, &prefix, k),
            Row::Bound(family, entries) => {
                PackedRow::with_prefix(RowKind::Bound, &Prefix::whole(family), entries)
            }
        }
    }

    /// Its prefix, which of a bound is that of all addresses.
    fn prefix(&self) -> Prefix
        ensures bits { result.bits ≡ self.now.bits }
        ensures family { result.family ≡ self.now.family }
        ensures len { result.len ≡ self.now.len }
    {
        Prefix {
            bits: self.bits,
            family: self.family,
            len: self.len,
        }
    }

    /// The row.
    pub fn row(&self) -> Row
        ensures { row_as result ≡ packed_as self.now }
    {
        match self.kind {
            RowKind::Leaf => Row::Leaf(self.prefix(), Hop(self.number as u16)),
            RowKind::Join => Row::Join(self.prefix(), self.number),
            RowKind::Bound => Row::Bound(self.family, self.number),
        }
    }
}
