//! Both files.

ghost use Rattle.std.specs.Prelude.{◌≡◌, ◌≤◌, IfOk};
ghost use Rattle.made_input.specs.Files.{dump_octets, updates_octets};

use crate::dump::make_dump;
use crate::generator::Generator;
use crate::updates::make_updates;
use std::alloc::{AllocError, Global};

/// A dump of `count` routes of eight peers, at most 200,000, and half as many updates of them, all drawn from the seed. Time and
/// memory are linear in `count`: at most 62 octets a route and 91 an update, and 8 more a route while they are made. An error
/// means out of memory.
pub fn generate(alloc: Global, count: u32, seed: u64) -> Result<(Vec<u8>, Vec<u8>), AllocError>
    requires { count ≤ 200000 }
    ensures dump { IfOk result (λ made. made.0.items ≡ dump_octets seed count) }
    ensures updates { IfOk result (λ made. made.1.items ≡ updates_octets seed count) }
{
    let mut draws = Generator::new(seed);
    let (dump, routes) = make_dump(alloc, count, &mut draws)?;
    let updates = make_updates(alloc, &routes, &mut draws)?;
    Ok((dump, updates))
}
