//! The compiler's top call.
//!
//! `run_fib` reads the words, has the command that they ask for done (`fib_run`, `fib_texts`), and writes its reply. What is due is a
//! definition over the words and the octets of the inputs (`fib_due`); the contract of `run_fib` ties its outcome, what it wrote and
//! its faults to it.
#![tactic(auto)]

mod command;
mod top_call;

pub use fib_due::{Difference, MOST_LINE, No, Outcome, Which, WrongMoves};
pub use top_call::{run_fib, tell};
