//! The scripts of files: they are answered, and a report of the run is made.
ghost use Rattle.std.specs.Prelude.{Some};
ghost use Rattle.doc_run.specs.Answers.{Decided, refusal_of};
ghost use Rattle.doc_run.specs.Reads.{Reads};
ghost use Rattle.doc_run.specs.Request.{asked_for};
ghost use Rattle.command_line.specs.Limits.{IsRunWithin};
ghost use Rattle.command_line.specs.Requests.{run_asked_by};

use crate::answer::{Answer, Refusal};
use crate::clients::{Ran, run_files};
use crate::report::{Report, report_text};
use command_line::RunWords;
use outside::{Gate, READ_LIMIT, Shelf};
use script_files::Fault;
use std::alloc::Global;
use std::sync::Wait;
use std::thread::Threads;

/// Answers the scripts in the files of the words, with this report of the run.
pub fn run_scripts<R: Threads + Wait + Sync, H: Shelf, G: Gate + Sync>(
    alloc: Global,
    rt: &R,
    run: &RunWords<'_>,
    report: Report,
    shelf: &mut H,
    gate: &G,
) -> Result<Answer, Refusal>
    requires within { IsRunWithin run.now }
    ensures decided { Decided (H.holds shelf.old)
        (Some (asked_for report (run_asked_by run.now))) result }
    ensures reads { Reads (H.holds shelf.old) (Some (asked_for report (run_asked_by run.now)))
        (refusal_of result) READ_LIMIT (H.opens shelf.old) (H.opens shelf.new)
        (H.calls shelf.old) (H.calls shelf.new) (H.faults shelf.old) (H.faults shelf.new)
        (H.course shelf.old) (H.course shelf.new) }
{
    let ran = match run_files(alloc, rt, run, shelf, gate) {
        Ok(ran) => ran,
        Err(fault) => return Err(Refusal::by(fault)),
    };
    let Ok(text) = report_text(alloc, report, run, &ran) else {
        return Err(Refusal::by(Fault::Memory));
    };
    let Ran {
        finished,
        forms: _forms,
    } = ran;
    Ok(Answer::Ran(text, finished))
}
