//! A run in steps over a router.
//!
//! A `Stepper` is a router with the lookups that are open in its live tries, and the events that are still to come. It makes the steps
//! of a script one by one: a lookup is opened or goes on by one read, the next event is begun, and the event that is begun makes its
//! next store, is ended or is cancelled. Each step has a row. Contracts say that the rows are a run of the machine of `step_script`,
//! which is defined over lists of routes alone. `run_steps` makes a whole script so, as `fib steps` does.
#![tactic(auto)]

mod error;
mod run;
mod stepper;
mod upcoming;

pub use error::StepError;
pub use run::run_steps;
pub use stepper::Stepper;
