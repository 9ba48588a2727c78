//! A dump's routes, in an engine whose load has ended.

ghost use Rattle.std.specs.Prelude.{◌≡◌, IfOk, OnOk, true, false};

use fib_engine::{Engine, Limits, Sizes};
use fib_io::Inputs;
use fib_prefix::Event;
use mrt_read::InputReader;
use std::alloc::Global;

/// Loads what an event says.
fn load_event(engine: &mut Engine, event: &Event) -> anyhow::Result<()>
    requires { engine.old.loaded ≡ false }
    ensures { OnOk result (engine.new.loaded ≡ false) }
{
    for elem in &engine.elementary(event)? {
        engine.load(elem)?;
    }
    Ok(())
}

/// Loads what events say.
fn load_events(engine: &mut Engine, events: &[Event]) -> anyhow::Result<()>
    requires { engine.old.loaded ≡ false }
    ensures { OnOk result (engine.new.loaded ≡ false) }
{
    for event in events {
        load_event(engine, event)?;
    }
    Ok(())
}

/// Loads a dump to its end.
fn load_all<I: Inputs>(
    alloc: Global,
    inputs: &mut I,
    name: &str,
    engine: &mut Engine,
) -> anyhow::Result<()>
    requires { engine.old.loaded ≡ false }
    ensures { OnOk result (engine.new.loaded ≡ true) }
{
    let mut reader = InputReader::new(alloc)?;
    let mut more = Vec::new(alloc);
    while reader.read_events(inputs, name, &mut more)? {
        load_events(engine, &more)?;
    }
    engine.finish_load()?;
    Ok(())
}

/// An engine that has loaded a dump, with tries of these sizes.
///
/// # Errors
///
/// The dump can't be opened or read, breaks a rule of reading, has more next hops than have numbers, or needs larger tries; or
/// out of memory.
pub fn load<I: Inputs>(
    alloc: Global,
    inputs: &mut I,
    name: &str,
    sizes: Sizes,
) -> anyhow::Result<Engine>
    ensures { IfOk result (λ engine. engine.loaded ≡ true) }
{
    let mut engine = Engine::new(
        alloc,
        Limits {
            every: 0,
            fewest: false,
            sizes,
        },
    );
    load_all(alloc, inputs, name, &mut engine)?;
    Ok(engine)
}
