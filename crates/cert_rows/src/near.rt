//! Rows that follow from the row before.

ghost use Rattle.std.specs.Prelude.{◌≡◌, IfSome, Some, option_map, true};
ghost use Rattle.fib_addr.specs.Views.{prefix_as};
ghost use Rattle.cert_model.specs.Views.{row_as};
ghost use Rattle.cert_rows.specs.Follow.{cap, next_leaf, region_above, row_prefix};
ghost use Rattle.cert_rows.specs.Near.{near_row};

use cert_model::Row;
use fib_addr::{Hop, Prefix};

/// How a row follows from the row before.
#[derive(Clone, Copy, Debug, PartialEq, Eq)]
pub(crate) enum NearKind {
    /// A leaf that begins where the other half of the region above does.
    Leaf,
    /// A join of the region above.
    Join,
    /// It doesn't: the row is kept whole elsewhere.
    Whole,
}

/// What doesn't follow from the row before.
#[derive(Clone, Copy, Debug, PartialEq, Eq)]
pub(crate) struct Near {
    // A leaf's hop, or a join's number.
    number: u16,
    // How many bits a leaf's prefix has.
    len: u8,
    kind: NearKind,
}

/// Whether two prefixes are one.
fn is(p: &Prefix, q: &Prefix) -> bool
    ensures { result ≡ true → prefix_as p.now ≡ prefix_as q.now }
{
    p.family == q.family && p.bits == q.bits && p.len == q.len
}

/// The prefix of the region that has this one's region as a half; that of all addresses stays.
fn region_above(prefix: &Prefix) -> Prefix
    ensures { prefix_as result ≡ region_above (prefix_as prefix.now) }
{
    Prefix::new(&prefix.first_addr(), prefix.len.saturating_sub(1))
}

/// The number, or the most if it is more.
fn cap(number: u8, most: u8) -> u8
    ensures { result ≡ cap number most }
{
    if most < number { most } else { number }
}

/// The prefix of `len` bits at the first address of the upper half of the region above.
fn next_leaf(prefix: &Prefix, len: u8) -> Prefix
    ensures { prefix_as result ≡ next_leaf (prefix_as prefix.now) len }
{
    let upper = region_above(prefix).half(true);
    Prefix::new(&upper.first_addr(), cap(len, prefix.family.width()))
}

/// The prefix of a row, which of a bound is that of all addresses.
pub(crate) fn row_prefix(row: &Row) -> Prefix
    ensures { prefix_as result ≡ row_prefix (row_as row.now) }
{
    match row {
        Row::Leaf(prefix, _) => *prefix,
        Row::Join(prefix, _) => *prefix,
        Row::Bound(family, _) => Prefix::whole(*family),
    }
}

impl Near {
    /// A row that is kept whole.
    pub(crate) const WHOLE: Near = Near {
        number: 0,
        len: 0,
        kind: NearKind::Whole,
    };

    /// What doesn't follow of a row from the prefix of the row before; none if the row doesn't follow from it.
    pub(crate) fn of(last: &Prefix, row: &Row) -> Option<Near>
        ensures { IfSome result (λ near. near_row near (prefix_as last.now)
            ≡ Some (row_as row.now)) }
    {
        match row {
            Row::Leaf(prefix, hop) => {
                if !is(&next_leaf(last, prefix.len), prefix) {
                    return None;
                }
                Some(Near {
                    number: hop.0,
                    len: prefix.len,
                    kind: NearKind::Leaf,
                })
            }
            Row::Join(prefix, k) => {
                if *k > 65_535 || !is(&region_above(last), prefix) {
                    return None;
                }
                Some(Near {
                    number: *k as u16,
                    len: 0,
                    kind: NearKind::Join,
                })
            }
            Row::Bound(..) => None,
        }
    }

    /// The row, which follows a row of this prefix; none if it is kept whole.
    pub(crate) fn row(&self, last: &Prefix) -> Option<Row>
        ensures { option_map row_as result ≡ near_row self.now (prefix_as last.now) }
    {
        match self.kind {
            NearKind::Leaf => Some(Row::Leaf(next_leaf(last, self.len), Hop(self.number))),
            NearKind::Join => Some(Row::Join(region_above(last), u64::from(self.number))),
            NearKind::Whole => None,
        }
    }
}
