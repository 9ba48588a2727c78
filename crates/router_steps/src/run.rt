//! A run in steps, from the engine at the end of the load to the text of its rows.

ghost use Rattle.std.specs.Prelude.{[], List, IfErr, IfOk, map};
ghost use Rattle.route_model.specs.Events.{Elem};
ghost use Rattle.fib_engine.specs.Stands.{EngineStands};
ghost use Rattle.fib_prefix.specs.Views.{event_as};
ghost use Rattle.step_script.specs.Steps.{step_as};
ghost use Rattle.router_steps.specs.Runs.{ArePrinted, StepsEndBy};
ghost use Rattle.router_steps.specs.Stepping.{IsTextOf, world_of};

use crate::error::StepError;
use crate::stepper::Stepper;
use fib_engine::Engine;
use fib_prefix::Event;
use std::alloc::Global;
use step_script::{Step, StepText};

/// Makes the steps of a script over a router of the engine at the end of the load, with the events that come after it: the text of
/// their rows. It holds no list of the rows beside the text.
///
/// # Errors
///
/// At a prepare the next event brings one different hop too many, or tries need more than an arena has; or out of memory.
pub fn run_steps(
    alloc: Global,
    engine: Engine,
    events: &[Event],
    script: &[Step],
) -> Result<Vec<u8>, StepError>
    requires stands { (load : List Elem) × EngineStands load [] engine }
    requires few { ArePrinted (map step_as script.now) }
    ensures text { IfOk result (λ text. (load : List Elem) → EngineStands load [] engine → IsTextOf (record {
      script = map step_as script.now;
      world = world_of engine.sizes load (map event_as events.now);
    }) text.items) }
    ensures stops { IfErr result (λ e. (load : List Elem) → EngineStands load [] engine
        → StepsEndBy (world_of engine.sizes load (map event_as events.now)) (map step_as script.now) e) }
{
    let mut stepper = Stepper::new(alloc, engine, events)?;
    let mut text = StepText::new(alloc);
    let made = stepper.run(script, &mut text);
    stepper.close();
    made?;
    let octets = text.finish()?;
    Ok(octets)
}
