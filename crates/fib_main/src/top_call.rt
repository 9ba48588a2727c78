//! The top call: from the words and the inputs to the octets of the output.

ghost use Rattle.std.specs.Prelude.{◌≡◌, ℕ, ◌<◌, List, Some, option_map};
ghost use Rattle.fib_io.specs.Causes.{Rose};
ghost use Rattle.fib_save.specs.Restores.{Restores};
ghost use Rattle.fib_due.specs.Views.{wrong_as};
ghost use Rattle.fib_due.specs.Ends.{Completes, EndsBy, Meets, OneRose, ReadsFrom, TellsOf, text_due, Writes, WritesBy};
ghost use Rattle.fib_due.specs.Judged.{Judges};
ghost use Rattle.fib_due.specs.Keeps.{Follows, KeepsTables, MissesNone, MovesFewest, RenewsLeast, RepairsFewest, RepairsWithin};
ghost use Rattle.fib_io.specs.Reads.{Makes};
ghost use Rattle.fib_due.specs.Owned.{IsOf};
ghost use Rattle.fib_due.specs.Passes.{ReadsAt};
ghost use Rattle.fib_due.specs.Proves.{AddsCheckpoint, AddsFrontOfYes, AddsYes, Compares, Decides, IfChecked, IfClaimed, IfCompared, IfMoved, IfRan, IfSaved, IsRun, IsSaving, PrintsYes, Reroutes, ReroutesSteadily, YesProves, DecidesMoves};
ghost use Rattle.fib_due.specs.Runs.{Answers, Certified, Forwards, HasAggregate, HasHops, HasLeast, IfDue, IsInOrder, SumsUp};
ghost use Rattle.fib_due.specs.Stepped.{FitsSteps};
ghost use Rattle.fib_due.specs.Untold.{FitsSome};
ghost use Rattle.fib_due.specs.Words.{asked_by, due_by, read_by};

use crate::command::reply_for;
use fib_due::{Outcome, Wrong};
use fib_io::{Inputs, Sink, write_all};
use std::alloc::Global;

/// The outcome if something is wrong.
fn outcome_of_wrong(wrong: Wrong) -> Outcome
    ensures { EndsBy (Some (wrong_as wrong)) result }
{
    match wrong {
        Wrong::No(no) => Outcome::CheckNo(no),
        Wrong::Differ(difference) => Outcome::Differ(difference),
        Wrong::MovesNo(wrong) => Outcome::MovesNo(wrong),
    }
}

/// The outcome at the end: Done, or what is wrong.
fn end_of(wrong: Option<Wrong>) -> Outcome
    ensures { EndsBy (option_map wrong_as wrong) result }
{
    match wrong {
        None => Outcome::Done,
        Some(wrong) => outcome_of_wrong(wrong),
    }
}

/// The outcome, with no line written of it yet.
#[tactic(auto, using(fib_due::proofs::Passes::reads_ended, fib_due::proofs::Passes::reads_refused, fib_due::proofs::Passes::reads_unwritten, fib_due::proofs::Untold::own_end, fib_due::proofs::Untold::own_fault, fib_due::proofs::Untold::some_ends, fib_due::proofs::Untold::some_fault, fib_due::proofs::Untold::some_stop, fib_due::proofs::Untold::steps_end, fib_due::proofs::Untold::steps_fault, fib_due::proofs::Untold::steps_stop), unfolding(fib_due::specs::Due::reply_at))]
fn outcome_of<I: Inputs, O: Sink>(
    alloc: Global,
    words: &[String],
    inputs: &mut I,
    out: &mut O,
) -> Outcome
    ensures exact { Meets (due_by words.now (I.content inputs.old)) result }
    ensures read { ReadsFrom (read_by words.now (I.content inputs.old)) (I.faults inputs.old)
        (I.faults inputs.new) result }
    ensures reads { Makes (I.reads inputs.old) (I.reads inputs.new)
        (ReadsAt (I.content inputs.old) (asked_by words.now) result) }
    ensures write { WritesBy (O.faults out.old) (O.faults out.new) result }
    ensures out { Writes (text_due (due_by words.now (I.content inputs.old))) (O.written out.old)
        (O.written out.new) result }
    ensures own { IsOf (asked_by words.now) result }
    ensures some { FitsSome (I.content inputs.old) (asked_by words.now) (O.written out.old)
        (O.written out.new) result }
    ensures steps { FitsSteps (I.content inputs.old) (asked_by words.now) (O.written out.old)
        (O.written out.new) result }
    ensures same { I.content inputs.new ≡ I.content inputs.old }
    ensures printed { result ≡ Outcome.Done → IsRun (asked_by words.now) → AddsYes
        (O.written out.old) (O.written out.new) }
    ensures front { result ≡ Outcome.WriteFault → IsRun (asked_by words.now) → AddsFrontOfYes
        (O.written out.old) (O.written out.new) }
    ensures due_yes { result ≡ Outcome.Done → IfRan
        (due_by words.now (I.content inputs.old)) PrintsYes }
    ensures saves { result ≡ Outcome.Done → IsSaving (asked_by words.now) → AddsCheckpoint
        (O.written out.old) (O.written out.new) }
    ensures due_saves { result ≡ Outcome.Done → IfSaved
        (due_by words.now (I.content inputs.old)) Restores }
{
    match reply_for(alloc, words, inputs) {
        Ok(reply) => match write_all(out, &reply.text) {
            Ok(()) => end_of(reply.wrong),
            Err(_) => Outcome::WriteFault,
        },
        Err(outcome) => outcome,
    }
}

/// Writes the outcome's line to err; a fault of err is passed over.
pub fn tell<E: Sink>(outcome: Outcome, err: &mut E)
    ensures { TellsOf outcome (E.written err.old) (E.written err.new) (E.faults err.old)
        (E.faults err.new) }
{
    if outcome != Outcome::Done {
        let _ = write_all(err, &outcome.line());
    }
}

/// The outcome, with its line written to err.
fn run_and_tell<I: Inputs, O: Sink, E: Sink>(
    alloc: Global,
    words: &[String],
    inputs: &mut I,
    out: &mut O,
    err: &mut E,
) -> Outcome
    ensures exact { Meets (due_by words.now (I.content inputs.old)) result }
    ensures read { ReadsFrom (read_by words.now (I.content inputs.old)) (I.faults inputs.old)
        (I.faults inputs.new) result }
    ensures reads { Makes (I.reads inputs.old) (I.reads inputs.new)
        (ReadsAt (I.content inputs.old) (asked_by words.now) result) }
    ensures write { WritesBy (O.faults out.old) (O.faults out.new) result }
    ensures out { Writes (text_due (due_by words.now (I.content inputs.old))) (O.written out.old)
        (O.written out.new) result }
    ensures own { IsOf (asked_by words.now) result }
    ensures some { FitsSome (I.content inputs.old) (asked_by words.now) (O.written out.old)
        (O.written out.new) result }
    ensures steps { FitsSteps (I.content inputs.old) (asked_by words.now) (O.written out.old)
        (O.written out.new) result }
    ensures same { I.content inputs.new ≡ I.content inputs.old }
    ensures printed { result ≡ Outcome.Done → IsRun (asked_by words.now) → AddsYes
        (O.written out.old) (O.written out.new) }
    ensures front { result ≡ Outcome.WriteFault → IsRun (asked_by words.now) → AddsFrontOfYes
        (O.written out.old) (O.written out.new) }
    ensures due_yes { result ≡ Outcome.Done → IfRan
        (due_by words.now (I.content inputs.old)) PrintsYes }
    ensures saves { result ≡ Outcome.Done → IsSaving (asked_by words.now) → AddsCheckpoint
        (O.written out.old) (O.written out.new) }
    ensures due_saves { result ≡ Outcome.Done → IfSaved
        (due_by words.now (I.content inputs.old)) Restores }
    ensures err { TellsOf result (E.written err.old) (E.written err.new) (E.faults err.old)
        (E.faults err.new) }
{
    let outcome = outcome_of(alloc, words, inputs, out);
    tell(outcome, err);
    outcome
}

/// Does what the words say. It reads the inputs that they name, and writes its reply to `out`: the rows of a run, the verdict on
/// a printed text, the rows of a run in steps, whether texts say the same table, a checkpoint, what a router must change, or the
/// verdict on what it was told to change.
///
/// What is due is a function of the words and of what the inputs hold, except for the text of a run in steps, which is that of
/// one of the runs that its machine allows. The outcome is the due one, except that a fault of reading or running out of memory
/// may come before it, and a fault of writing in place of Done, CheckNo, MovesNo and Differ. Nothing is written to `out` before
/// all is accepted. Every outcome but Done is reported by one line to `err`, and a fault of `err` changes nothing.
///
/// It costs n log n in the octets read and the rows written, and the routes' number times the lengths of their prefixes. In
/// memory are, at most, the asks, one line or record and a piece while an input is read, the candidates of all peers, the kept
/// table with its tree and its changes, and the whole text. A check keeps the printed text until it is read, its routes, least
/// table and certificate, and then the runs of both tables. A run in steps keeps its script, the events of the updates and what
/// they do, each family's routes with two sets of arenas, and its rows and their text.
#[tactic(auto, using(fib_due::proofs::Completing::completes, fib_due::proofs::Running::sums_up, fib_due::proofs::Running::forwards, fib_due::proofs::Running::answers, fib_due::proofs::Running::least, fib_due::proofs::Running::follows, fib_due::proofs::Running::steadied, fib_due::proofs::Running::renewed, fib_due::proofs::Running::fewest, fib_due::proofs::Running::kept, fib_due::proofs::Running::outside, fib_due::proofs::Running::moved, fib_due::proofs::Running::aggregated, fib_due::proofs::Running::sorted, fib_due::proofs::Running::certified, fib_due::proofs::Running::addressed, fib_due::proofs::Replies::decides, fib_due::proofs::Replies::yes_proves, fib_due::proofs::Replies::compares, fib_due::proofs::Replies::reroutes, fib_due::proofs::Replies::reroutes_steadily, fib_due::proofs::Replies::judges_moves, fib_due::proofs::Judges::judges))]
pub fn run_fib<I: Inputs, O: Sink, E: Sink>(
    alloc: Global,
    words: &[String],
    inputs: &mut I,
    out: &mut O,
    err: &mut E,
) -> Outcome
    // The outcome is the due one, but for faults and running out of memory.
    ensures exact { Meets (due_by words.now (I.content inputs.old)) result }

    // A fault of reading has its cause in an input that was to be read, and nothing else leaves a count risen.
    ensures read { ReadsFrom (read_by words.now (I.content inputs.old)) (I.faults inputs.old)
        (I.faults inputs.new) result }

    // Each input that the words name is read in order from its first octet on, each place once, and nothing is read after it
    // failed or ended. They come one after another, each to its end before the next: asks or a script, then the list of VRPs,
    // then the dump, then the updates; and nothing is read after the input that is refused. No read of an input is made once what
    // was read of it before is to be refused: a line of the asks that has its line feed, a record that is whole or whose header
    // is refused, an event. A name that stands for two inputs is read for each. So each of them may be a pipe.
    ensures reads { Makes (I.reads inputs.old) (I.reads inputs.new)
        (ReadsAt (I.content inputs.old) (asked_by words.now) result) }

    // A fault of writing has its cause in out.
    ensures write { WritesBy (O.faults out.old) (O.faults out.new) result }

    // Out has the due text at Done, CheckNo, MovesNo and Differ, its first n octets at a fault of writing, and else nothing new.
    ensures out { Writes (text_due (due_by words.now (I.content inputs.old))) (O.written out.old)
        (O.written out.new) result }

    // Err has the outcome's line, and nothing new at Done.
    ensures err { TellsOf result (E.written err.old) (E.written err.new) (E.faults err.old)
        (E.faults err.new) }

    // The words have the outcome, whether or not the content of an input is known.
    ensures own { IsOf (asked_by words.now) result }

    // If the content of the asks or the list of VRPs of a run, the text of a check, the script of a run in steps, the texts of a
    // comparison or of a router, or the inputs of a checkpoint isn't known, all is as it is due of some content that there could
    // be; asks and a list whose content is known are just these.
    ensures some { FitsSome (I.content inputs.old) (asked_by words.now) (O.written out.old)
        (O.written out.new) result }

    // A run in steps: at Done out has the rows of a run of the machine of steps over the whole script, from the routes after the
    // load. A lookup's answer is the longest match among the routes after exactly the events that were published to its address
    // at its first read. Too many hops and too small tries end it at the prepare of that event.
    ensures steps { FitsSteps (I.content inputs.old) (asked_by words.now) (O.written out.old)
        (O.written out.new) result }

    // No content changes.
    ensures same { I.content inputs.new ≡ I.content inputs.old }

    // If a count rose, the outcome says so.
    ensures risen_input { (name : List ℕ) → I.faults inputs.old name < I.faults inputs.new name →
        result ≡ Outcome.ReadFault }
    ensures risen_out { O.faults out.old < O.faults out.new → result ≡ Outcome.WriteFault }

    // If the contents are known and no count rose, the due outcome comes, unless memory runs out.
    ensures complete { Completes (due_by words.now (I.content inputs.old))
        (OneRose (read_by words.now (I.content inputs.old)) (I.faults inputs.old)
        (I.faults inputs.new)) (Rose (O.faults out.old) (O.faults out.new)) result }

    // What is due to be printed of a run: the changes add up to the table. The table sends every address where the routes send
    // it. Each answer is the longest match among the routes. The least table sends every address where the routes send it, and
    // has no more entries in either family than any table that does.
    ensures sum { IfDue (due_by words.now (I.content inputs.old)) SumsUp }
    ensures forwards { IfDue (due_by words.now (I.content inputs.old)) Forwards }
    ensures answers { IfRan (due_by words.now (I.content inputs.old)) Answers }
    ensures least { IfDue (due_by words.now (I.content inputs.old)) HasLeast }

    // On the way: the changes stand in the order of their events, and up to each event add up to a table. It sends every address
    // where the routes send it then, and after the load and after each snapshot it is a least table. Unless the fewest changes
    // are asked for, after any other event it has the entries that it had before, except within the prefix of which the event
    // changes the chosen hop; and no table that differs from the one before only there has fewer entries.
    ensures kept { IfRan (due_by words.now (I.content inputs.old)) KeepsTables }
    ensures follows { IfRan (due_by words.now (I.content inputs.old)) Follows }
    ensures renewed { IfRan (due_by words.now (I.content inputs.old)) RenewsLeast }
    ensures fewest { IfRan (due_by words.now (I.content inputs.old)) RepairsFewest }
    ensures outside { IfRan (due_by words.now (I.content inputs.old)) RepairsWithin }

    // If the fewest changes are asked for: each event that changes a chosen hop has a row that says how many changes it needs
    // before its snapshot. They lead to a table that sends every address where the routes send it then, and no table that does so
    // differs from the one before at fewer prefixes. Else there are no such rows.
    ensures moves { IfRan (due_by words.now (I.content inputs.old)) MovesFewest }

    // If changes come in steady order: a router that makes them one by one sends each address where the routes before the
    // event at hand send it or where those after it do, however many of them it has made, and never back.
    ensures steady { IfRan (due_by words.now (I.content inputs.old)) MissesNone }

    // Of the least tables it is the one that the best hops fix, with the kept table as the old one, whatever finds them; and all
    // tables stand in the order of prefixes.
    ensures aggregate { IfDue (due_by words.now (I.content inputs.old)) HasAggregate }
    ensures order { IfDue (due_by words.now (I.content inputs.old)) IsInOrder }

    // The printed rows prove the printed least table least, to whoever trusts the rules of certificates alone.
    ensures certified { IfDue (due_by words.now (I.content inputs.old)) Certified }

    // What is due to be printed has its addresses: different numbers have different hops, each route has a hop and so its row,
    // and every other number that is printed is 0 or has a hop.
    ensures addressed { IfRan (due_by words.now (I.content inputs.old)) HasHops }

    // At Done of a run out has one text more, to which a check says yes: it is read again as rows with a certificate, whatever
    // numbers the reader gives the hops. At a fault of writing it has the first n octets of such a text. If the contents of the
    // inputs are known, the due text is such a text.
    ensures printed { result ≡ Outcome.Done → IsRun (asked_by words.now) → AddsYes
        (O.written out.old) (O.written out.new) }
    ensures front { result ≡ Outcome.WriteFault → IsRun (asked_by words.now) → AddsFrontOfYes
        (O.written out.old) (O.written out.new) }
    ensures due_yes { result ≡ Outcome.Done → IfRan
        (due_by words.now (I.content inputs.old)) PrintsYes }

    // At Done of a checkpoint out has one more: read as a dump it breaks no rule, none of it is skipped or treated as a withdrawal,
    // and it brings the candidates that the inputs bring; so that, whatever is said later, the candidates, and with them the routes,
    // are those of the inputs and of what is said later.
    ensures saves { result ≡ Outcome.Done → IsSaving (asked_by words.now) → AddsCheckpoint
        (O.written out.old) (O.written out.new) }
    ensures due_saves { result ≡ Outcome.Done → IfSaved
        (due_by words.now (I.content inputs.old)) Restores }

    // What is due of a run is judged by its list of VRPs, which is empty without the option. The announcements that are reported
    // as Invalid are exactly those that the list calls so, each with the first VRP that covers it. The routes are those of the
    // events in which each of them is its withdrawal.
    ensures judged { Judges (I.content inputs.old) (asked_by words.now) }

    // A check that is due says yes exactly if the printed rows are a certificate, whoever wrote them. The printed least
    // table then sends every address where the printed routes send it, and has no more entries in either family than any
    // table that does.
    ensures proved { IfChecked (due_by words.now (I.content inputs.old)) Decides }
    ensures yes { IfChecked (due_by words.now (I.content inputs.old)) YesProves }

    // Texts that are compared: none differs from the first, and then every two send every address to the same hop, or the answer is
    // the least address at which one differs, and the first text that does there.
    ensures compared { IfCompared (due_by words.now (I.content inputs.old)) Compares }

    // What a router must change: the changes are possible one after another and make its table send every address where the
    // routes send it. No table that does differs from its own at fewer prefixes, and the rows prove it in each family.
    ensures reroutes { IfMoved (due_by words.now (I.content inputs.old)) Reroutes }

    // If they come in steady order: while the router makes them one by one, it sends each address where its table sent it or
    // where the routes send it, and never back.
    ensures reroutes_steadily { IfMoved (due_by words.now (I.content inputs.old)) ReroutesSteadily }

    // What a router was told to change: a check of it that is due says yes exactly if it is all this, except for a steady order,
    // and the rows beside it prove it, whoever wrote them.
    ensures judges_moves { IfClaimed (due_by words.now (I.content inputs.old)) DecidesMoves }
{
    run_and_tell(alloc, words, inputs, out, err)
}
