//! Which calls of an input or a sink in memory are to fail.
//!
//! A plan is the numbers of these calls, in any order, and a count of the calls that were made. To count a call
//! costs a step for each number, and takes no memory.

ghost use Rattle.std.specs.Prelude.{◌≡◌};

/// The numbers, from 1, of the calls that are to fail, and how many calls were made.
///
/// The count stops at the last value of a `u64`.
#[derive(Drop)]
pub struct Plan {
    failing: Vec<u64>,
    calls: u64,
}

impl Plan {
    ghost use Rattle.fib_io.specs.Plan.{IsNewPlan, IsNextCall, fails_next};

    /// The plan before the first call.
    pub fn new(failing: Vec<u64>) -> Plan
        ensures { IsNewPlan result failing.items }
    {
        Plan { failing, calls: 0 }
    }

    /// Counts one more call, and says whether it is to fail.
    pub fn is_next_failing(&mut self) -> bool
        ensures value { result ≡ fails_next self.old }
        ensures next { IsNextCall self.old self.new }
    {
        self.calls = self.calls.saturating_add(1);
        self.failing.contains(&self.calls)
    }
}
