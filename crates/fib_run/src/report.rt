//! What is written of a run: its routes, the announcements that are Invalid, the changes of the kept table, how many each event
//! needed, the answers, the table, the least table, its certificate and the counts.
//!
//! The printed table is the kept one, which is the least table's old table too. The text is made section by section, from what
//! the engine leaves once its candidates are let go: routes, entries and the rows of the certificate are written as they are
//! found in the trees, after which a family's tree is let go; no list of them is made.

ghost use Rattle.std.specs.Prelude.{◌≡◌, ◌++◌, ℕ, [], true, IfOk, OnOk, flat_map, length, map};
ghost use Rattle.table_model.specs.Entries.{Entries};
ghost use Rattle.table_model.specs.Both.{aggregate_in_both};
ghost use Rattle.table_model.specs.Changes.{additions};
ghost use Rattle.kept_model.specs.Feed.{at_event};
ghost use Rattle.fib_addr.specs.Views.{addr_as};
ghost use Rattle.fib_due.specs.Due.{answers_to, Feed, printed, printed_text};
ghost use Rattle.fib_report.specs.Rows.{of_answer, of_change, of_invalid, of_moves, report_text, table_entry_row};
ghost use Rattle.printed_text.specs.Numbered.{of_least, of_route};
ghost use Rattle.fib_report.specs.Views.{answer_as, invalid_as, moves_as};
ghost use Rattle.fib_report.specs.Sections.{IsReady, WritesRows, text_hops};
ghost use Rattle.route_tries.specs.Sizes.{AreFew};
ghost use Rattle.route_tries.specs.Tries.{AreTriesOf};
ghost use Rattle.fib_due.specs.Refusals.{Limits};
ghost use Rattle.fib_run.specs.Counts.{AddUp};
ghost use Rattle.fib_run.specs.Standing.{IsFed};
ghost use Rattle.fib_run.specs.Final.{Settles, load_added};
ghost use Rattle.fib_run.specs.declared.state.State.{State as code_state};
ghost use Rattle.fib_due.specs.Proves.{ChecksYes};
ghost use Rattle.fib_run.specs.Told.{changes_as, totals};
ghost use Rattle.fib_run.specs.Written.{WritesEvents, WritesTables};
ghost use Rattle.cert_model.specs.Rows.{certificate_of};

use crate::feed::Counts;
use crate::state::{FinalState, State};
use fib_addr::{EntrySink, Steps};
use fib_delta::Change;
use fib_engine::{FamilyNeeds, FinalFib, PackedTable, Tries};
use fib_prefix::Addr;
use fib_report::{Answer, Moves, Report, RunText, Section, report_text};
use std::alloc::{AllocError, Global};
use std::marker::Brand;
use std::sync::ledger::{Blank, Ledger};

/// The answers of tries, looked up one by one.
fn look_up_all<L: Ledger>(
    alloc: Global,
    tries: &Tries,
    asks: &[Addr],
    blank: Blank,
) -> Result<Vec<Answer>, AllocError>
    requires name { blank.name ≡ L.name }
    requires parts { (blank.parts ≡ L.parts) × (blank.parts ≡ 1) }
    ensures { (s : ℕ) (routes : Entries) → AreTriesOf s routes tries.now → IfOk result (λ answers.
        map answer_as answers.items ≡ answers_to s routes (map addr_as asks.now)) }
{
    let mut steps = Steps::<L>::start(blank);
    let mut answers = Vec::with_capacity(alloc, asks.len())?;
    for ask in asks {
        let found = tries.lookup(ask, &mut steps);
        answers.push(Answer {
            addr: *ask,
            hop: found.hop,
            visits: found.visits,
        })?;
    }
    Ok(answers)
}

/// Each address with its answer. Tries are built if an address is asked for.
fn answers(alloc: Global, final_fib: &FinalFib, asks: &[Addr]) -> Result<Vec<Answer>, AllocError>
    ensures { IfOk result (λ answers. map answer_as answers.items
        ≡ answers_to final_fib.now.sizes.direct final_fib.now.routes (map addr_as asks.now)) }
{
    if asks.is_empty() {
        return Ok(Vec::new(alloc));
    }
    let tries = final_fib.tries()?;
    look_up_all::<Brand>(alloc, &tries, asks, Blank::new(1))
}

/// The counts of both inputs, of the routes and of the table's entries, and what tries need.
fn totals(fed: &InputCounts, routes: u64, entries: u64, needs: &FamilyNeeds) -> Report
    requires counts { AddUp fed.now.load fed.now.updates }
    requires few { AreFew needs.now }
    ensures { result ≡ totals fed.now.load fed.now.updates routes entries needs.now }
{
    Report {
        records: fed.load.records + fed.updates.records,
        skipped: fed.load.skipped + fed.updates.skipped,
        events: fed.load.events + fed.updates.events,
        routes,
        entries,
        nodes: needs.v4.nodes + needs.v6.nodes,
        leaves: needs.v4.leaves + needs.v6.leaves,
        treated: fed.load.treated + fed.updates.treated,
    }
}

/// What was counted of both inputs.
#[derive(Debug, Drop)]
pub struct InputCounts {
    /// What was counted of the load.
    pub load: Counts,
    /// What was counted of the updates.
    pub updates: Counts,
}

/// Writes the routes, and returns how many there are.
fn write_routes<'a>(
    final_fib: &FinalFib,
    text: RunText<'a>,
) -> Result<(RunText<'a>, u64), AllocError>
    requires { IsReady text }
    ensures count { IfOk result (λ r. r.1 ≡ length final_fib.now.routes) }
    ensures writes { IfOk result (λ r. WritesRows text.entry r.0
        (flat_map (of_route (text_hops text.entry)) final_fib.now.routes)) }
{
    let mut rows = text.section(Section::Routes);
    final_fib.emit_routes(&mut rows)?;
    Ok(rows.end())
}

/// Writes the announcements that are Invalid: those of the load and those of updates.
fn write_invalid(fed: &InputCounts, text: &mut RunText<'_>) -> Result<(), AllocError>
    requires { IsReady text.old }
    ensures { OnOk result (WritesRows text.old text.new (map of_invalid
        (map invalid_as fed.now.load.invalid.items ++ map invalid_as fed.now.updates.invalid.items))) }
{
    text.invalids(&fed.load.invalid)?;
    text.invalids(&fed.updates.invalid)
}

/// Hands on the entries that the load added: those that are kept, else those of the kept table.
fn emit_added<S: EntrySink>(
    final_fib: &FinalFib,
    added: &Option<PackedTable>,
    out: &mut S,
) -> Result<(), AllocError>
    requires { S.ready out.old }
    ensures ready { OnOk result (S.ready out.new) }
    ensures takes { OnOk result (S.takes out.old (load_added added.now final_fib.now.table) out.new) }
{
    match added {
        Some(added) => added.emit(out),
        None => final_fib.emit_table(out),
    }
}

/// Writes the changes of the load and those of updates, which are let go then. A list of the former is made here alone, while the text
/// is short.
fn write_changes(
    alloc: Global,
    final_fib: &FinalFib,
    added: Option<PackedTable>,
    changes: Vec<(u64, Change)>,
    text: &mut RunText<'_>,
) -> Result<(), AllocError>
    requires { IsReady text.old }
    ensures { OnOk result (WritesRows text.old text.new (map (of_change (text_hops text.old))
        (at_event 0 (additions (load_added added final_fib.now.table)) ++ changes_as changes.items))) }
{
    let mut list = Vec::new(alloc);
    emit_added(final_fib, &added, &mut list)?;
    drop(added);
    text.entries(Section::Added, &list)?;
    drop(list);
    text.changes(&changes)?;
    Ok(())
}

/// Writes how many changes each event needed, if that is asked for. The list is let go then.
fn write_moves(moves: Vec<Moves>, text: &mut RunText<'_>) -> Result<(), AllocError>
    requires { IsReady text.old }
    ensures { OnOk result (WritesRows text.old text.new (map of_moves (map moves_as moves.items))) }
{
    text.moves(&moves)
}

/// Writes what events brought: the announcements that are Invalid, the changes, and how many changes each event needed. The lists are let
/// go then.
fn write_events(
    alloc: Global,
    fed: &InputCounts,
    final_fib: &FinalFib,
    added: Option<PackedTable>,
    changes: Vec<(u64, Change)>,
    moves: Vec<Moves>,
    text: &mut RunText<'_>,
) -> Result<(), AllocError>
    requires { IsReady text.old }
    ensures { OnOk result (WritesEvents text.old text.new (map of_invalid
        (map invalid_as fed.now.load.invalid.items ++ map invalid_as fed.now.updates.invalid.items))
        (at_event 0 (additions (load_added added final_fib.now.table)) ++ changes_as changes.items)
        (map of_moves (map moves_as moves.items))) }
{
    write_invalid(fed, text)?;
    write_changes(alloc, final_fib, added, changes, text)?;
    write_moves(moves, text)?;
    Ok(())
}

/// Writes each address with its answer.
fn write_answers(
    alloc: Global,
    final_fib: &FinalFib,
    asks: &[Addr],
    text: &mut RunText<'_>,
) -> Result<(), AllocError>
    requires { IsReady text.old }
    ensures { OnOk result (WritesRows text.old text.new (flat_map (of_answer (text_hops text.old))
        (answers_to final_fib.now.sizes.direct final_fib.now.routes (map addr_as asks.now)))) }
{
    text.answers(&answers(alloc, final_fib, asks)?)
}

/// Writes the kept table, and returns how many entries it has.
fn write_table<'a>(
    final_fib: &FinalFib,
    text: RunText<'a>,
) -> Result<(RunText<'a>, u64), AllocError>
    requires { IsReady text }
    ensures count { IfOk result (λ r. r.1 ≡ length final_fib.now.table) }
    ensures writes { IfOk result (λ r. WritesRows text.entry r.0
        (map (table_entry_row (text_hops text.entry)) final_fib.now.table)) }
{
    let mut rows = text.section(Section::Table);
    final_fib.emit_table(&mut rows)?;
    Ok(rows.end())
}

/// Writes the least table.
fn write_least<'a>(final_fib: &FinalFib, text: RunText<'a>) -> Result<RunText<'a>, AllocError>
    requires { IsReady text }
    ensures { IfOk result (λ t. WritesRows text.entry t (map (of_least (text_hops text.entry))
        (aggregate_in_both final_fib.now.routes final_fib.now.table))) }
{
    let mut rows = text.section(Section::Least);
    final_fib.emit_least(&mut rows)?;
    Ok(rows.end().0)
}

/// Writes the kept table, the least one and its certificate, and returns how many entries the kept one has.
fn write_tables<'a>(
    final_fib: FinalFib,
    text: RunText<'a>,
) -> Result<(RunText<'a>, u64), AllocError>
    requires { IsReady text }
    ensures count { IfOk result (λ r. r.1 ≡ length final_fib.table) }
    ensures writes { IfOk result (λ r. WritesTables text.entry r.0 final_fib.table
        (aggregate_in_both final_fib.routes final_fib.table) (certificate_of final_fib.routes)) }
{
    let (text, entries) = write_table(&final_fib, text)?;
    let mut text = write_least(&final_fib, text)?;
    final_fib.certify(&mut text)?;
    Ok((text, entries))
}

/// The text of the rows.
pub fn write_text(
    alloc: Global,
    state: State,
    fed: &InputCounts,
    asks: &[Addr],
) -> Result<Vec<u8>, AllocError>
    requires loaded { state.engine.loaded ≡ true }
    requires counts { AddUp fed.now.load fed.now.updates }
    ensures text { (limits : Limits) (load updates : Feed) → IsFed limits load updates fed.now state
        → IfOk result (λ text. text.items
        ≡ printed_text (printed limits load updates (map addr_as asks.now))) }
    ensures yes { (limits : Limits) (load updates : Feed) → IsFed limits load updates fed.now state
        → IfOk result (λ text. ChecksYes text.items) }
{
    // from here on no candidate is held
    write_final(alloc, state.settle(), fed, asks)
}

/// The same, once no more events come.
pub fn write_final(
    alloc: Global,
    ended: FinalState,
    fed: &InputCounts,
    asks: &[Addr],
) -> Result<Vec<u8>, AllocError>
    requires counts { AddUp fed.now.load fed.now.updates }
    ensures text { (limits : Limits) (load updates : Feed) (state : code_state)
        → IsFed limits load updates fed.now state → Settles state ended
        → IfOk result (λ text. text.items
        ≡ printed_text (printed limits load updates (map addr_as asks.now))) }
    ensures yes { (limits : Limits) (load updates : Feed) (state : code_state)
        → IsFed limits load updates fed.now state → Settles state ended
        → IfOk result (λ text. ChecksYes text.items) }
{
    let FinalState {
        final_fib,
        hops,
        added,
        changes,
        moves,
    } = ended;
    let needs = final_fib.needs();
    let text = RunText::new(alloc, &hops);
    let (mut text, routes) = write_routes(&final_fib, text)?;
    write_events(alloc, fed, &final_fib, added, changes, moves, &mut text)?;
    write_answers(alloc, &final_fib, asks, &mut text)?;
    let (mut text, entries) = write_tables(final_fib, text)?;
    text.report(&totals(fed, routes, entries, &needs))?;
    text.finish()
}

/// The rows of the counts alone.
pub fn write_counts(alloc: Global, state: &State, fed: &InputCounts) -> Result<Vec<u8>, AllocError>
    requires loaded { state.now.engine.loaded ≡ true }
    requires counts { AddUp fed.now.load fed.now.updates }
    ensures { (limits : Limits) (load updates : Feed) → IsFed limits load updates fed.now state.now
        → IfOk result (λ text. text.items
        ≡ report_text (printed limits load updates []).told.report) }
{
    let engine = &state.engine;
    let routes = engine.routes()?;
    let table = engine.table()?;
    let report = totals(
        fed,
        routes.len() as u64,
        table.len() as u64,
        &engine.needs(),
    );
    report_text(alloc, &report)
}
