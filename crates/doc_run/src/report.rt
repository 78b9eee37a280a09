//! What is written of a run of the scripts of files.
ghost use Rattle.std.specs.Prelude.{◌≡◌, IfOk};
ghost use Rattle.doc_run.specs.Replies.{shown_of};
ghost use Rattle.doc_run.specs.Reports.{Tells};
ghost use Rattle.command_line.specs.Requests.{run_asked_by};

use crate::clients::Ran;
use command_line::RunWords;
use doc_model::NoMemory;
use heap_census::images::image_text;
use result_text::{Shown, output_text};
use std::alloc::Global;

/// What is written of a run.
#[derive(Clone, Copy, Debug, PartialEq, Eq)]
pub enum Report {
    /// each client's replies, and behind them what the words ask for
    Replies,
    /// the heap that the run left
    Heap,
}

/// This report of what a run with these words came to.
pub fn report_text(
    alloc: Global,
    report: Report,
    run: &RunWords<'_>,
    ran: &Ran,
) -> Result<Vec<u8>, NoMemory>
    ensures { IfOk result (λ text. Tells report (shown_of (run_asked_by run.now)) ran.now.finished
        ran.now.forms.items text.items) }
{
    match report {
        Report::Replies => replies_text(alloc, run, ran),
        Report::Heap => image_text(alloc, &ran.finished.image),
    }
}

// The replies, and behind them what the words ask for.
fn replies_text(alloc: Global, run: &RunWords<'_>, ran: &Ran) -> Result<Vec<u8>, NoMemory>
    ensures { IfOk result (λ text. Tells Report.Replies (shown_of (run_asked_by run.now))
        ran.now.finished ran.now.forms.items text.items) }
{
    let Ran { finished, forms } = ran;
    output_text(alloc, shown(run), &finished.logs, forms, &finished.totals)
}

// What is written behind the replies.
fn shown(run: &RunWords<'_>) -> Shown
    ensures { result ≡ shown_of (run_asked_by run.now) }
{
    Shown {
        history: run.history,
        stats: run.stats,
    }
}
