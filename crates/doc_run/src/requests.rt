//! Each request is handed on to the file that answers it.
//!
//! The words are read with memory, which may run out before all else.
ghost use Rattle.doc_run.specs.Answers.{Decided, refusal_of};
ghost use Rattle.doc_run.specs.Reads.{Reads};
ghost use Rattle.command_line.specs.Requests.{request_of};

use crate::answer::{Answer, Refusal};
use crate::beside::dump_beside;
use crate::generated::run_generated;
use crate::mailing::run_mail;
use crate::reading::{Reading, answer_file};
use crate::report::Report;
use crate::scripts::run_scripts;
use crate::words::Words;
use command_line::{Request, WordsFault, read_words};
use outside::{Gate, READ_LIMIT, Shelf};
use script_files::Fault;
use std::alloc::Global;
use std::sync::Wait;
use std::thread::Threads;

/// What the words ask for comes to, before anything is written.
pub fn answer_request<R: Threads + Wait + Sync, H: Shelf, G: Gate + Sync>(
    alloc: Global,
    rt: &R,
    words: &Words,
    shelf: &mut H,
    gate: &G,
) -> Result<Answer, Refusal>
    ensures decided { Decided (H.holds shelf.old) (request_of words.now) result }
    ensures reads { Reads (H.holds shelf.old) (request_of words.now) (refusal_of result) READ_LIMIT
        (H.opens shelf.old) (H.opens shelf.new) (H.calls shelf.old) (H.calls shelf.new)
        (H.faults shelf.old) (H.faults shelf.new) (H.course shelf.old) (H.course shelf.new) }
{
    match read_words(alloc, words.all()) {
        Ok(Request::Run(run)) => run_scripts(alloc, rt, &run, Report::Replies, shelf, gate),
        Ok(Request::Image(run)) => run_scripts(alloc, rt, &run, Report::Heap, shelf, gate),
        Ok(Request::Dump(names)) => dump_beside(alloc, rt, &names, shelf, gate),
        Ok(Request::Census(name)) => answer_file(alloc, Reading::Images, name, shelf),
        Ok(Request::Replay(name)) => answer_file(alloc, Reading::Schedules, name, shelf),
        Ok(Request::Gen(made)) => run_generated(alloc, rt, made, gate),
        Ok(Request::Load(name)) => answer_file(alloc, Reading::Dumps, name, shelf),
        Ok(Request::Mail(mail)) => run_mail(alloc, rt, &mail, shelf),
        Err(WordsFault::Usage) => Err(Refusal::by(Fault::Usage)),
        Err(WordsFault::NoMemory) => Err(Refusal::by(Fault::Memory)),
    }
}
