//! Tables that are asked about whole prefixes.

ghost use Rattle.std.specs.Prelude.{◌≡◌, IfSome, IfNone};
ghost use Rattle.std.specs.List.{IsDistinct};
ghost use Rattle.std.specs.Map.{keys_of};
ghost use Rattle.table_model.specs.Address.{same_prefix};
ghost use Rattle.table_model.specs.declared.family.Family.{Family};
ghost use Rattle.table_model.specs.Entries.{Entries};
ghost use Rattle.table_model.specs.Uniform.{AllGet, TwoDiffer};
ghost use Rattle.fib_addr.specs.Views.{prefix_as};

use crate::entry::Hop;
use crate::prefix::Prefix;
use table_model::Family;

/// A table of one family, which says whether the addresses of a prefix all get one answer.
///
/// Contracts see the entries, whose prefixes are distinct; an address gets what longest match among them gives, hop 0 if there
/// is none.
pub trait Answers {
    ghost entries: { Self → Entries };

    ghost of: { Self → Family };

    /// The family of the addresses that it answers for.
    fn family(&self) -> Family
        ensures { result ≡ of self.now };

    /// The hop that every address of the prefix gets, `Hop::NONE` if none gets one; or `None` if two of its addresses get
    /// different hops.
    fn uniform(&self, prefix: &Prefix) -> Option<Hop>
        requires { prefix.now.family ≡ of self.now }
        ensures one { IfSome result (λ hop. AllGet (entries self.now)
            (prefix_as prefix.now) hop.0) }
        ensures differ { IfNone result (TwoDiffer (entries self.now) (prefix_as prefix.now)) };

    ghost distinct: { (table : Self) → IsDistinct same_prefix (keys_of (entries table)) };
}
