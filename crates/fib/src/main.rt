//! The program: the top call over files, standard output and standard error.
#![tactic(auto)]

ghost use Rattle.std.specs.Prelude.{◌≡◌, ℕ, List, [], Option, None, IfErr, IfOk, IfSome, ◌⊎◌};
ghost use Rattle.std.specs.IoError.{error_kind};
ghost use Rattle.std.specs.Process.{exit_status};
ghost use Rattle.fib_due.specs.Words.{texts_of};
ghost use Rattle.fib.specs.Ends.{EndsOf, EndsWith, moment, words_left};

use fib_io::{FileInputs, Inputs, Sink, StdSink};
use fib_main::{Outcome, run_fib, tell};
use std::alloc::{AllocError, Global};
use std::env::{self, Args};
use std::io::{self, ErrorKind};
use std::process::ExitCode;
use std::rt::Env;

/// The words of a command line. `words` is what they are, if the type says it: none, if one of them isn't UTF-8.
trait CommandLine {
    ghost words: { Self → Option (List (List ℕ)) };

    /// All words in their order. It fails if one of them isn't UTF-8 or memory runs out.
    fn args(&self) -> io::Result<Args>
        ensures all { IfOk result (λ args. IfSome (words self.now)
            (λ given. texts_of (words_left args) ≡ given)) }
        ensures none { IfErr result (λ e. IfSome (words self.now)
            (λ given. (error_kind e ≡ ErrorKind.OutOfMemory) ⊎ (given ≡ []))) };
}

/// The command line of a runtime. It doesn't say which words.
#[derive(Drop)]
struct SystemWords<'r, R: Env + Alloc<A = Global>> {
    rt: &'r R,
}

impl<R: Env + Alloc<A = Global>> CommandLine for SystemWords<'_, R> {
    ghost words = { λ _. None };

    fn args(&self) -> io::Result<Args> {
        env::args(self.rt)
    }
}

/// All words, in their order.
fn collected(alloc: Global, words: Args) -> Result<Vec<String>, AllocError>
    ensures { IfOk result (λ all. all.items ≡ words_left words) }
{
    let mut all = Vec::new(alloc);
    for word in words {
        all.push(word)?;
    }
    Ok(all)
}

/// The words of the command line, none if one of them isn't UTF-8; an error if memory runs out.
fn words_of<C: CommandLine>(alloc: Global, line: &C) -> Result<Vec<String>, AllocError>
    ensures { IfOk result (λ all. IfSome (C.words line.now)
        (λ given. texts_of all.items ≡ given)) }
{
    match line.args() {
        Ok(args) => collected(alloc, args),
        Err(e) if e.kind() == ErrorKind::OutOfMemory => Err(AllocError),
        Err(_) => Ok(Vec::new(alloc)),
    }
}

/// Does what the command line says. If memory runs out for its words, that is the outcome.
fn outcome_of<C: CommandLine, I: Inputs, O: Sink, E: Sink>(
    alloc: Global,
    line: &C,
    inputs: &mut I,
    out: &mut O,
    err: &mut E,
) -> Outcome
    ensures { EndsOf (C.words line.now)
        (moment (I.content inputs.old) (I.faults inputs.old) (I.reads inputs.old)
        (O.written out.old) (O.faults out.old) (E.written err.old) (E.faults err.old))
        (moment (I.content inputs.new) (I.faults inputs.new) (I.reads inputs.new)
        (O.written out.new) (O.faults out.new) (E.written err.new) (E.faults err.new)) result }
{
    match words_of(alloc, line) {
        Ok(words) => run_fib(alloc, &words, inputs, out, err),
        Err(_) => {
            tell(Outcome::NoMemory, err);
            Outcome::NoMemory
        }
    }
}

/// Does what the command line says over these inputs and sinks, and ends with the outcome's status.
fn run<C: CommandLine, I: Inputs, O: Sink, E: Sink>(
    alloc: Global,
    line: &C,
    inputs: &mut I,
    out: &mut O,
    err: &mut E,
) -> ExitCode
    ensures { EndsWith (C.words line.now)
        (moment (I.content inputs.old) (I.faults inputs.old) (I.reads inputs.old)
        (O.written out.old) (O.faults out.old) (E.written err.old) (E.faults err.old))
        (moment (I.content inputs.new) (I.faults inputs.new) (I.reads inputs.new)
        (O.written out.new) (O.faults out.new) (E.written err.new) (E.faults err.new)) (exit_status result) }
{
    let outcome = outcome_of(alloc, line, inputs, out, err);
    ExitCode::from(outcome.status())
}

fn main(rt: HostRuntime) -> ExitCode {
    run(
        rt.alloc(),
        &SystemWords { rt: &rt },
        &mut FileInputs::new(rt.alloc(), &rt),
        &mut StdSink::new(rt.stdout()),
        &mut StdSink::new(rt.stderr()),
    )
}
