//! Counts that may count nothing.

ghost use Rattle.std.specs.Prelude.{◌≡◌, ◌+◌, ◌≤◌, ℕ};

use fib_addr::Steps;
use std::sync::ledger::Ledger;

/// What a call is given that says what it costs: `Steps` counts its steps, `Uncounted` doesn't.
pub trait Counter {
    /// How many steps were counted.
    ghost count: { Self → ℕ };

    /// One step more, if steps are counted.
    fn tick(&mut self)
        ensures { count self.new ≤ count self.old + 1 };
}

impl<L: Ledger> Counter for Steps<L> {
    ghost count = { λ n. n };

    fn tick(&mut self) {
        Steps::tick(self)
    }
}

/// Counts nothing.
#[derive(Drop)]
pub struct Uncounted;

impl Counter for Uncounted {
    ghost count = { λ _. 0 };

    fn tick(&mut self) {}
}
