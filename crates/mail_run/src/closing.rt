//! The heap of a run, from its opening to its close. It is closed whatever became of the receiver.
ghost use Rattle.std.specs.Prelude.{◌≡◌, ◌≤◌, ◌+◌, ◌-◌, [], length, vec_capacity};
ghost use Rattle.mail_threads.specs.Opened.{IsOpenMail};
ghost use Rattle.mail_threads.specs.Taken.{lists_of};
ghost use Rattle.mail_threads.specs.Workers.{AllReady, HaveWorked};
ghost use Rattle.mail_run.specs.Closed.{IsClosed};
ghost use Rattle.mail_run.specs.Comes.{lines_in};

use crate::closed::Closed;
use beside_collector::Doing;
use cell_mailbox::MailPass;
use cell_words::GREATEST_CYCLES;
use mail_threads::{Answers, Mailer, Received, run_all};
use mutator_threads::{Opened, close, run_alongside};
use run_limits::{MOST_CLIENTS, MOST_COMMANDS};
use std::alloc::Global;
use std::sync::Wait;
use std::thread::Threads;

/// How many lines the scripts have.
fn lines_of(scripts: &[Vec<u64>]) -> u32
    requires few { lines_in (lists_of scripts.now) ≤ MOST_COMMANDS }
    ensures lines { result ≡ lines_in (lists_of scripts.now) }
{
    let mut lines = 0;
    for script in scripts {
        lines += script.len() as u32;
    }
    lines
}

/// Runs the senders and the receiver on the opened heap, and closes it. The list has room for the
/// answers to the lines of all, also for those of the receiver, which has no lines.
pub(crate) fn run_opened<R: Threads + Wait + Sync>(
    alloc: Global,
    rt: &R,
    scripts: &[Vec<u64>],
    cells: u32,
    cycles: u32,
    opened: Opened<MailPass, Answers>,
    sent: Vec<Answers>,
) -> Closed
    requires few { length scripts.now ≤ MOST_CLIENTS - 1 }
    requires lines { lines_in (lists_of scripts.now) ≤ MOST_COMMANDS }
    requires cycles { cycles ≤ GREATEST_CYCLES }
    requires opened { IsOpenMail cells scripts.now opened }
    requires empty { sent.items ≡ [] }
    requires room { length scripts.now + 1 ≤ vec_capacity sent }
    ensures closed { IsClosed cells cycles (lists_of scripts.now) result }
{
    let _ = cells;
    let lines = lines_of(scripts);
    let Opened {
        heap,
        queue,
        keeper,
        workers,
    } = opened;
    let at = &heap;
    let hints = &queue;
    let run = move || -> (Vec<Mailer>, Received)
        requires { (length scripts.now ≤ MOST_CLIENTS - 1)
            × AllReady at.now hints.now scripts.now workers.items
            × (length workers.items ≡ length scripts.now + 1) }
        ensures { HaveWorked at.entry.now scripts.entry.now lines result.0.items result.1 }
    { run_all(alloc, rt, at, hints, scripts, lines, workers) };
    let (done, off) = run_alongside(alloc, rt, at, hints, keeper, cycles, Doing { run });
    let (mailers, received) = done;
    let (heap, mut sent) = close(rt, heap, &queue, cycles, off, mailers, sent);
    sent.truncate(scripts.len());
    Closed {
        heap,
        sent,
        received,
    }
}
