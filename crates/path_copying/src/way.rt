//! The way down to a prefix.

ghost use Rattle.std.specs.Prelude.{◌≡◌, ◌-◌, ◌<◌, ◌≤◌};
ghost use Rattle.table_model.specs.Width.{width};

use fib_addr::Prefix;

/// A prefix, seen from a region on the way to it or within it: of the region's addresses only those of the prefix may get other
/// answers than before.
#[derive(Clone, Copy, Debug, PartialEq, Eq)]
pub struct Way {
    /// The prefix.
    pub prefix: Prefix,
    /// How many more bits the region's addresses have.
    pub bits: u8,
    ghost fits: { bits ≤ width prefix.family },
}

impl Way {
    ghost use Rattle.std.specs.Prelude.{ℕ, List, Bool, false};
    ghost use Rattle.poptrie_build.specs.Strides as strides;
    ghost use Rattle.path_copying.specs.Alike.{SameAnswers};
    ghost use Rattle.path_copying.specs.Ways.{bits_left, AgreeBeside};

    /// The way from the region of all addresses.
    pub fn to(prefix: &Prefix) -> Way
        ensures prefix { result.prefix ≡ prefix.now }
        ensures bits { result.bits ≡ width prefix.now.family }
    {
        Way {
            prefix: *prefix,
            bits: prefix.family.width(),
        }
    }

    /// The way from a part of the region that this many more bits tell apart.
    pub fn below(&self, depth: u8) -> Way
        requires { depth ≤ self.now.bits }
        ensures prefix { result.prefix ≡ self.now.prefix }
        ensures bits { result.bits ≡ self.now.bits - depth }
    {
        Way {
            prefix: self.prefix,
            bits: self.bits - depth,
        }
    }

    /// Whether the slot of the region's next six bits has addresses of the prefix. If not, all its addresses get what they got.
    pub(crate) fn meets(&self, slot: u8) -> bool
        requires slot { slot < 64 }
        requires fits { 6 ≤ self.now.bits }
        ensures beside { result ≡ false → (f g : List Bool → ℕ)
            → AgreeBeside (bits_left self.now) self.now.bits f g
            → SameAnswers (self.now.bits - 6) (strides.slot self.now.bits f slot)
            (strides.slot self.now.bits g slot) }
    {
        let gone = self.prefix.family.width() - self.bits;
        let left = self.prefix.len.saturating_sub(gone).min(6);
        let next = (self.prefix.bits << (128 - self.bits) >> 122) as u8;
        next >> (6 - left) == slot >> (6 - left)
    }
}
