//! What the tests of several crates make: a prefix, and a count of steps.

ghost use Rattle.std.specs.Prelude.{◌≡◌, ◌≤◌};
ghost use Rattle.table_model.specs.declared.family.Family.TheVariants.{V4};

use fib_addr::{Addr, Prefix};
use orig_tree::Counter;

/// The IPv4 prefix of this length.
pub fn prefix(bits: u32, len: u8) -> Prefix
    requires { len ≤ 32 }
    ensures { result.family ≡ V4 }
{
    Prefix::new(&Addr::v4(bits), len)
}

/// Counts steps so that a test can ask for them.
#[derive(Drop)]
pub struct Seen {
    /// How many.
    pub steps: u64,
}

impl Counter for Seen {
    ghost count = { λ s. s.steps };

    fn tick(&mut self) {
        self.steps = self.steps.saturating_add(1);
    }
}
