//! The shortest lists of changes of both families.

ghost use Rattle.std.specs.Prelude.{◌≡◌, length};
ghost use Rattle.router_moves.specs.Views.{shortest_as};

use fib_addr::HopTable;
use fib_moves::Near;

/// What a router must change, with the rows that prove that no fewer changes would do.
#[derive(Drop)]
pub struct RouterMoves {
    /// IPv4's changes and rows.
    pub v4: Near,
    /// IPv6's.
    pub v6: Near,
    /// The hops that the numbers in both stand for.
    pub hops: HopTable,
}

impl RouterMoves {
    /// How many changes there are in both families.
    pub fn count(&self) -> u64
        ensures { result ≡ length (shortest_as self.now).changes }
    {
        self.v4.changes.len() as u64 + self.v6.changes.len() as u64
    }
}
