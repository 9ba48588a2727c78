//! A whole run, written from its lists.

ghost use Rattle.std.specs.Prelude.{◌≡◌, ◌++◌, IfOk, OnErr, OnOk};
ghost use Rattle.std.specs.List.{AllByRecursion};
ghost use Rattle.printed_text.specs.Rows.{IsRow};
ghost use Rattle.fib_report.specs.Rows.{printed_rows, run_text};
ghost use Rattle.fib_report.specs.Views.{run_as};

use crate::run::Run;
use crate::run_text::RunText;
use crate::section::Section;
use fib_addr::HopTable;
use std::alloc::{AllocError, Global};

/// The text of a run.
fn text_of_run(alloc: Global, run: &Run, hops: &HopTable) -> Result<Vec<u8>, AllocError>
    ensures text { IfOk result (λ text. text.items ≡ run_text hops.now.list (run_as run.now)) }
    ensures proper { OnOk result (AllByRecursion IsRow (printed_rows hops.now.list
        (run_as run.now))) }
{
    let mut text = RunText::new(alloc, hops);
    text.entries(Section::Routes, &run.routes)?;
    text.invalids(&run.invalid)?;
    text.changes(&run.changes)?;
    text.moves(&run.moves)?;
    text.answers(&run.answers)?;
    text.entries(Section::Table, &run.table)?;
    text.entries(Section::Least, &run.least)?;
    text.certificate(&run.cert)?;
    text.report(&run.report)?;
    text.finish()
}

/// Appends the rows of a run to a text: first the routes, then the Invalid announcements, the changes, how many each event needed, the answers, the table, the least
/// table, its certificate and the report. If the hop table does not hold a hop's number, an answer and a leaf say `none`, a
/// change and a table `drop`, and a route has no row. An `Err` changes nothing and means that memory ran out, as does each
/// failure of csv's writer, which writes to memory here. Each row that was written is one that a checker reads as it is.
pub fn write_run(
    alloc: Global,
    out: &mut Vec<u8>,
    run: &Run,
    hops: &HopTable,
) -> Result<(), AllocError>
    ensures ok { OnOk result (out.new.items ≡ out.old.items
        ++ run_text hops.now.list (run_as run.now)) }
    ensures err { OnErr result (out.new.items ≡ out.old.items) }
    ensures proper { OnOk result (AllByRecursion IsRow (printed_rows hops.now.list
        (run_as run.now))) }
{
    let text = text_of_run(alloc, run, hops)?;
    if out.is_empty() {
        *out = text;
        return Ok(());
    }
    out.extend_from_slice(&text)
}
