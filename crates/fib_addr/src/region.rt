//! Regions, and the region of a prefix in a table that is asked about prefixes.

ghost use Rattle.std.specs.Prelude.{◌≡◌, ℕ, ◌+◌, ◌<◌, List, Bool, Some, None, IfSome, IfNone};
ghost use Rattle.fib_addr.specs.Views.{prefix_as};
ghost use Rattle.fib_addr.specs.Answers.{one_answer, answers_in, bits_in};
ghost use Rattle.table_model.specs.Sets.{side};

use crate::{Answers, Hop, Prefix};

/// A region whose addresses have `bits` more bits, which contracts see with what each of these addresses gets.
pub trait Region: Drop {
    ghost bits: { Self → ℕ };

    ghost answers: { Self → List Bool → ℕ };

    /// The hop that every address of the region gets, `Hop::NONE` if none gets one; or `None` if two of its addresses get
    /// different hops.
    fn only(&self) -> Option<Hop>
        ensures one { IfSome result (λ hop. one_answer (bits self.now) (answers self.now)
            ≡ Some hop.0) }
        ensures differ { IfNone result (one_answer (bits self.now) (answers self.now) ≡ None) };

    /// The half whose addresses have this bit next.
    fn half(&self, bit: bool) -> Self
        requires { 0 < bits self.now }
        ensures bits { bits result + 1 ≡ bits self.now }
        ensures answers { answers result ≡ side bit (answers self.now) };
}

/// The region of a prefix in a table. Each question goes to the table anew, which finds the prefix from its root.
#[derive(Drop)]
pub struct PrefixRegion<'a, A: Answers> {
    table: &'a A,
    prefix: Prefix,
    ghost same: { prefix.family ≡ A.of table.now },
}

impl<'a, A: Answers> Region for PrefixRegion<'a, A> {
    ghost bits = { λ r. bits_in (prefix_as r.prefix) };

    ghost answers = { λ r. answers_in (A.entries r.table.now) (prefix_as r.prefix) };

    fn only(&self) -> Option<Hop> {
        self.table.uniform(&self.prefix)
    }

    fn half(&self, bit: bool) -> Self {
        PrefixRegion {
            table: self.table,
            prefix: self.prefix.half(bit),
        }
    }
}

impl<'a, A: Answers> PrefixRegion<'a, A> {
    ghost use Rattle.std.specs.Prelude.{◌≡◌};
    ghost use Rattle.table_model.specs.Width.{width};
    ghost use Rattle.fib_addr.specs.Answers.{all_answers};

    /// The region of all addresses of the table's family.
    pub fn whole(table: &'a A) -> Self
        ensures bits { bits_in (prefix_as result.prefix) ≡ width (A.of table.now) }
        ensures answers { answers_in (A.entries result.table.now) (prefix_as result.prefix)
            ≡ all_answers (A.of table.now) (A.entries table.now) }
    {
        PrefixRegion {
            table,
            prefix: Prefix::whole(table.family()),
        }
    }
}
