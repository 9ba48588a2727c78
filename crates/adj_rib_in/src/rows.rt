//! The rows of the flat candidates.

ghost use Rattle.std.specs.Prelude.{◌≡◌, ◌≤◌, ◌-◌, ◌%◌, ◌^◌, ◌<◌, ◌+◌, ◌*◌};
ghost use Rattle.table_model.specs.Width.{width};

use fib_prefix::{Family, Prefix};
use std::cmp::Ordering;
use std::marker::Model;

/// How many numbers the lower half of a prefix's bits can be.
const HALF: u128 = 0x1_0000_0000_0000_0000;

/// A prefix with the place where its run of slots begins. Contracts see both. Rows are ordered by their prefixes. The bits lie in
/// two halves, so that a row takes 24 octets: a number of 128 bits would make it 32.
#[derive(Drop)]
pub struct Row {
    high: u64,
    low: u64,
    off: u32,
    family: Family,
    len: u8,
    ghost fits: { len ≤ width family },
    ghost below: { high * 2 ^ 64 + low < 2 ^ width family },
    ghost cleared: { (high * 2 ^ 64 + low) % 2 ^ (width family - len) ≡ 0 },
}

impl Model for Row {
    ghost use Rattle.std.specs.Prelude.{◌*◌, ◌+◌, ◌^◌};
    ghost use Rattle.adj_rib_in.specs.Rows.{RowKey};

    ghost Value = { RowKey };

    ghost view = { λ r. record { prefix = record { family = r.family; bits = r.high * 2 ^ 64 + r.low; len = r.len; fits = r.fits; below = r.below; cleared = r.cleared }; off = r.off } };
}

impl PartialEq for Row {
    ghost use Rattle.std.specs.Cmp.{partial_equiv_from_equiv};
    ghost use Rattle.std.specs.Ordering.{on, eq_by_cmp};
    ghost use Rattle.std.proofs.lemmas.Cmp.{on_total, eq_by_cmp_equiv};
    ghost use Rattle.fib_addr.specs.Order.{code_cmp};
    ghost use Rattle.fib_prefix.proofs.Peers.{prefix_total};
    ghost use Rattle.adj_rib_in.specs.Rows.{RowKey};

    ghost eq = { eq_by_cmp (on (λ (r : RowKey). r.prefix) code_cmp) };

    ghost laws = { partial_equiv_from_equiv (eq_by_cmp_equiv (on_total (λ (r : RowKey). r.prefix) prefix_total)) };

    fn eq(&self, other: &Row) -> bool {
        self.cmp(other).is_eq()
    }
}

impl Eq for Row {
    ghost use Rattle.std.proofs.lemmas.Cmp.{on_total, eq_by_cmp_equiv};
    ghost use Rattle.fib_prefix.proofs.Peers.{prefix_total};
    ghost use Rattle.adj_rib_in.specs.Rows.{RowKey};

    ghost laws = { eq_by_cmp_equiv (on_total (λ (r : RowKey). r.prefix) prefix_total) };
}

impl Ord for Row {
    ghost use Rattle.std.specs.Ordering.{on};
    ghost use Rattle.std.proofs.Common.{refl};
    ghost use Rattle.std.proofs.lemmas.Cmp.{on_total};
    ghost use Rattle.fib_addr.specs.Order.{code_cmp};
    ghost use Rattle.fib_prefix.proofs.Peers.{prefix_total};
    ghost use Rattle.adj_rib_in.specs.Rows.{RowKey};

    ghost cmp = { on (λ (r : RowKey). r.prefix) code_cmp };

    ghost total = { on_total (λ (r : RowKey). r.prefix) prefix_total };

    ghost matches_partial_cmp = { λ s t. refl };

    ghost matches_eq = { λ s t. refl };

    fn cmp(&self, other: &Row) -> Ordering {
        self.prefix().cmp(&other.prefix())
    }
}

impl PartialOrd for Row {
    ghost use Rattle.std.specs.Ordering.{on, as_partial_cmp};
    ghost use Rattle.std.specs.Cmp.{po};
    ghost use Rattle.std.proofs.Common.{refl};
    ghost use Rattle.std.proofs.lemmas.Cmp.{on_total};
    ghost use Rattle.fib_addr.specs.Order.{code_cmp};
    ghost use Rattle.fib_prefix.proofs.Peers.{prefix_total};
    ghost use Rattle.adj_rib_in.specs.Rows.{RowKey};

    ghost partial_cmp = { as_partial_cmp (on (λ (r : RowKey). r.prefix) code_cmp) };

    ghost laws = { po (on_total (λ (r : RowKey). r.prefix) prefix_total) (λ x y. refl) };

    fn partial_cmp(&self, other: &Row) -> Option<Ordering> {
        Some(self.cmp(other))
    }
}

impl Row {
    /// The row of a prefix whose run begins at a place.
    pub fn new(prefix: &Prefix, off: u32) -> Row
        ensures { result ≡ record { prefix = prefix.now; off = off } }
    {
        Row {
            high: (prefix.bits / HALF) as u64,
            low: (prefix.bits % HALF) as u64,
            off,
            family: prefix.family,
            len: prefix.len,
        }
    }

    /// The same row once more.
    pub fn copy(&self) -> Row
        ensures { result ≡ self.now }
    {
        Row::new(&self.prefix(), self.off)
    }

    /// The prefix.
    pub fn prefix(&self) -> Prefix
        ensures { result ≡ self.now.prefix }
    {
        Prefix {
            family: self.family,
            bits: self.high as u128 * HALF + self.low as u128,
            len: self.len,
        }
    }

    /// Where its run begins.
    pub fn off(&self) -> u32
        ensures { result ≡ self.now.off }
    {
        self.off
    }
}
