//! The whole run.
ghost use Rattle.std.specs.Prelude.{◌≤◌, ◌-◌, All, IfOk, length};
ghost use Rattle.mail_threads.specs.Taken.{lists_of};
ghost use Rattle.mail_threads.specs.Workers.{AreSmall};
ghost use Rattle.mail_run.specs.Closed.{IsClosed};
ghost use Rattle.mail_run.specs.Comes.{ComesMail, lines_in};

use crate::closed::Closed;
use crate::closing::run_opened;
use crate::finished::MailRun;
use crate::following::append_rest;
use cell_words::{GREATEST_CYCLES, GREATEST_POSITION};
use collector::NoMemory;
use mail_threads::{Received, open_mail};
use run_limits::{MOST_CLIENTS, MOST_COMMANDS};
use std::alloc::Global;
use std::sync::Wait;
use std::thread::Threads;

/// Sends the lines of each script to one mailbox, by a sender on a thread of its own, alongside one
/// receiver and the collector. The receiver takes once for each line, and after the senders are
/// through until nothing is left. If something is left even then, it is read off the closed heap.
///
/// Where no thread could be made for the collector, it serves when all seats are joined.
pub fn mail_run<R: Threads + Wait + Sync>(
    alloc: Global,
    rt: &R,
    scripts: &[Vec<u64>],
    cells: u32,
    cycles: u32,
) -> Result<MailRun, NoMemory>
    requires some { 1 ≤ length scripts.now }
    requires few { length scripts.now ≤ MOST_CLIENTS - 1 }
    requires small { All (λ script. AreSmall script.items) scripts.now }
    requires lines { lines_in (lists_of scripts.now) ≤ MOST_COMMANDS }
    requires cells { (64 ≤ cells) × (cells ≤ GREATEST_POSITION) }
    requires cycles { cycles ≤ GREATEST_CYCLES }
    ensures { IfOk result (λ run. ComesMail cells cycles (lists_of scripts.now) run.sent.items
        run.items.items run.passes) }
{
    let sent = Vec::with_capacity(alloc, scripts.len() + 1)?;
    let opened = open_mail(alloc, rt, scripts, cells)?;
    let closed = run_opened(alloc, rt, scripts, cells, cycles, opened, sent);
    finish(scripts, cells, cycles, closed)
}

/// Puts the items that nobody took after those that the receiver has. The scripts and the numbers
/// are those of the run: only contracts read them.
fn finish(
    scripts: &[Vec<u64>],
    cells: u32,
    cycles: u32,
    closed: Closed,
) -> Result<MailRun, NoMemory>
    requires closed { IsClosed cells cycles (lists_of scripts.now) closed }
    ensures { IfOk result (λ run. ComesMail cells cycles (lists_of scripts.now) run.sent.items
        run.items.items run.passes) }
{
    let _ = scripts;
    let _ = cells;
    let _ = cycles;
    let Closed {
        heap,
        sent,
        received,
    } = closed;
    let Received { mut items, failed } = received;
    let whole = append_rest(&heap.image, &mut items);
    if failed || !whole {
        return Err(NoMemory);
    }
    Ok(MailRun {
        sent,
        items,
        passes: heap.passes,
    })
}
