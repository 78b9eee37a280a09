//! A run of a mailbox: the values of the files' scripts are sent and received.
ghost use Rattle.std.specs.Prelude.{◌≤◌, ◌<◌, ◌^◌, All, IfOk, Some, length, map, sum_by};
ghost use Rattle.cell_words.specs.declared.controls.TheConstants.{GREATEST_CYCLES};
ghost use Rattle.cell_words.specs.declared.controls.TheConstants.{GREATEST_POSITION};
ghost use Rattle.doc_run.specs.Answers.{Decided, refusal_of};
ghost use Rattle.doc_run.specs.Mailed.{DecidesMailRun, FinishesMail, IsMailedText};
ghost use Rattle.doc_run.specs.Reads.{Reads, err_of};
ghost use Rattle.command_line.specs.Limits.{IsMailWithin};
ghost use Rattle.command_line.specs.Requests.{Mail, mail_asked_by};
ghost use Rattle.run_limits.specs.declared.TheConstants.{MOST_COMMANDS};
ghost use Rattle.script_files.specs.Mail.{values_of};

use crate::answer::{Answer, Refusal};
use command_line::MailWords;
use doc_model::NoMemory;
use mail_run::{MailRun, mail_run};
use outside::{READ_LIMIT, Shelf};
use result_text::mailed_text;
use script_files::{Fault, mail_in_files};
use std::alloc::Global;
use std::sync::Wait;
use std::thread::Threads;

/// Sends what the files of the words have, by a sender each.
pub fn run_mail<R: Threads + Wait + Sync, H: Shelf>(
    alloc: Global,
    rt: &R,
    mail: &MailWords<'_>,
    shelf: &mut H,
) -> Result<Answer, Refusal>
    requires within { IsMailWithin mail.now }
    ensures decided { Decided (H.holds shelf.old) (Some (Mail (mail_asked_by mail.now))) result }
    ensures reads { Reads (H.holds shelf.old) (Some (Mail (mail_asked_by mail.now)))
        (refusal_of result) READ_LIMIT (H.opens shelf.old) (H.opens shelf.new)
        (H.calls shelf.old) (H.calls shelf.new) (H.faults shelf.old) (H.faults shelf.new)
        (H.course shelf.old) (H.course shelf.new) }
{
    let ran = match mail_files(alloc, rt, mail, shelf) {
        Ok(ran) => ran,
        Err(fault) => return Err(Refusal::by(fault)),
    };
    let Ok(text) = text_of_run(alloc, &ran) else {
        return Err(Refusal::by(Fault::Memory));
    };
    Ok(Answer::Mailed(text, ran))
}

// The text of what a run came to.
fn text_of_run(alloc: Global, ran: &MailRun) -> Result<Vec<u8>, NoMemory>
    ensures text { IfOk result (λ text. IsMailedText ran.now text.items) }
{
    mailed_text(alloc, &ran.sent, &ran.items)
}

// What a run of a mailbox comes to whose values the files of the words have.
fn mail_files<R: Threads + Wait + Sync, H: Shelf>(
    alloc: Global,
    rt: &R,
    mail: &MailWords<'_>,
    shelf: &mut H,
) -> Result<MailRun, Fault>
    requires within { IsMailWithin mail.now }
    ensures mailed { DecidesMailRun (mail_asked_by mail.now)
        (map (H.holds shelf.old) (mail_asked_by mail.now).files) result }
    ensures reads { Reads (H.holds shelf.old) (Some (Mail (mail_asked_by mail.now))) (err_of result)
        READ_LIMIT (H.opens shelf.old) (H.opens shelf.new) (H.calls shelf.old) (H.calls shelf.new)
        (H.faults shelf.old) (H.faults shelf.new) (H.course shelf.old) (H.course shelf.new) }
{
    match mail_in_files(alloc, &mail.files, shelf) {
        Ok(scripts) => mail_all(alloc, rt, &scripts, mail.cells, mail.cycles),
        Err(fault) => Err(fault),
    }
}

// What a run of these values comes to.
fn mail_all<R: Threads + Wait + Sync>(
    alloc: Global,
    rt: &R,
    scripts: &[Vec<u64>],
    cells: u32,
    cycles: u32,
) -> Result<MailRun, Fault>
    requires some { 1 ≤ length scripts.now }
    requires few { length scripts.now ≤ 63 }
    requires total { sum_by (λ script. length script.items) scripts.now ≤ MOST_COMMANDS }
    requires small { All (λ script. All (λ value. value < 2 ^ 32) script.items) scripts.now }
    requires cells { (64 ≤ cells) × (cells ≤ GREATEST_POSITION) }
    requires cycles { cycles ≤ GREATEST_CYCLES }
    ensures { FinishesMail cells cycles (values_of scripts.now) result }
{
    match mail_run(alloc, rt, scripts, cells, cycles) {
        Ok(ran) => Ok(ran),
        Err(_) => Err(Fault::Memory),
    }
}
