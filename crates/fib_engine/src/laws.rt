//! What the definition of an event says. The function here is a law: it does nothing, and its clause holds for all values.

ghost use Rattle.std.specs.Prelude.{◌≡◌};
ghost use Rattle.route_model.specs.Events.{Elem};
ghost use Rattle.fib_engine.specs.Held.{EngineState};
ghost use Rattle.fib_engine.specs.Stands.{TakesElem};

/// An elementary event determines what is held after it, whoever takes it: an engine, a plan that is committed, or a router.
pub fn one_state_law()
    ensures { (elem : Elem) (old new other : EngineState) → TakesElem elem old new
        → TakesElem elem old other → new ≡ other }
{}
