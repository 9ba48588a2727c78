//! A router that has loaded a dump.

ghost use Rattle.std.specs.Prelude.{◌≡◌, IfOk, OnOk, None, false};
ghost use Rattle.router_example.specs.Beside.{IsTrieOf};
ghost use Rattle.table_model.specs.declared.family.Family.TheVariants.{V4, V6};

use fib_engine::{Engine, Limits, Sizes};
use fib_io::Inputs;
use fib_prefix::Event;
use fib_router::Router;
use mrt_read::read_all_events;
use std::alloc::Global;

/// Room for a whole table of today, after 16 direct bits; no snapshots.
const LIMITS: Limits = Limits {
    every: 0,
    fewest: false,
    sizes: Sizes {
        direct: 16,
        nodes: 22,
        leaves: 24,
    },
};

/// Loads what an event says.
fn load_event(engine: &mut Engine, event: &Event) -> anyhow::Result<()>
    requires loading { engine.old.loaded ≡ false }
    requires none { engine.old.events ≡ 0 }
    ensures loading { OnOk result (engine.new.loaded ≡ false) }
    ensures none { OnOk result (engine.new.events ≡ 0) }
{
    for elem in &engine.elementary(event)? {
        engine.load(elem)?;
    }
    Ok(())
}

/// A router that has loaded a dump.
///
/// # Errors
///
/// The dump can't be opened or read, breaks a rule of reading, has more next hops than have numbers, or needs larger tries; or
/// out of memory.
pub fn load<I: Inputs>(alloc: Global, inputs: &mut I, name: &str) -> anyhow::Result<Router>
    ensures rest { IfOk result (λ router. router.begun ≡ None) }
    ensures none { IfOk result (λ router. router.held.events ≡ 0) }
    ensures tries { IfOk result (λ router. IsTrieOf V4 router.lives.v4 × IsTrieOf V6 router.lives.v6) }
{
    let mut engine = Engine::new(alloc, LIMITS);
    for event in &read_all_events(alloc, inputs, name)? {
        load_event(&mut engine, event)?;
    }
    // the first table of the hardware, least for these routes
    let _table = engine.finish_load()?;
    let router = Router::new(alloc, engine)?;
    Ok(router)
}
