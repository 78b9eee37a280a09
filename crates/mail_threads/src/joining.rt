//! The receiver alongside the senders, and after them.
ghost use Rattle.std.specs.Prelude.{◌≡◌, ◌≤◌, ◌+◌, ◌-◌, length, vec_capacity};
ghost use Rattle.mail_threads.specs.Workers.{AllDone, AllReady, HasReceived, HaveWorked, IsDone};
ghost use Rattle.mail_threads.specs.Workers.{IsHalfway, IsReady, IsWaiting};
ghost use Rattle.std.specs.Thread.{IsSync};

use crate::receiving::{take_rest, take_turns};
use crate::running::run_sender;
use crate::workers::{Mailer, Received};
use beside_collector::{come_in, leave, pause, wake};
use cell_mailbox::{Item, MailPass};
use free_cells::FreeQueue;
use heap_table::CellHeap;
use mutator_seat::{MutSeat, Mutator};
use mutator_threads::{Worker, run_each};
use run_limits::MOST_CLIENTS;
use std::alloc::Global;
use std::sync::Wait;
use std::thread::{Threads, join};

/// Takes a turn for each line, on this thread. The mutator is out afterwards, but not over.
fn receive_lines<'a, R: Wait>(
    alloc: Global,
    rt: &R,
    heap: &'a CellHeap<MailPass>,
    seat: MutSeat<MailPass>,
    lines: u32,
) -> (Mutator<'a, MailPass>, Vec<Item>, bool)
    requires waiting { IsWaiting heap.now seat.me.number seat }
    ensures halfway { IsHalfway heap.now seat.me.number lines result.0 result.1.items result.2 }
{
    let mut items = Vec::new(alloc);
    let mut m = come_in(heap, seat);
    let whole = take_turns(rt, &mut m, lines, &mut items);
    pause(&mut m);
    (m, items, !whole)
}

/// Takes what is left when all senders are done; its mutator is over then.
fn receive_rest<R: Wait>(
    rt: &R,
    heap: &CellHeap<MailPass>,
    number: u32,
    lines: u32,
    m: Mutator<'_, MailPass>,
    items: Vec<Item>,
    failed: bool,
) -> (MutSeat<MailPass>, Received)
    requires halfway { IsHalfway heap.now number lines m items.items failed }
    ensures received { HasReceived heap.now number lines result.0 result.1 }
{
    let _ = heap;
    let _ = number;
    let _ = lines;
    let mut m = m;
    let mut items = items;
    wake(&mut m);
    let whole = take_rest(rt, &mut m, &mut items);
    (
        leave(m),
        Received {
            items,
            failed: failed || !whole,
        },
    )
}

/// Runs the senders, each on a thread of its own.
fn run_senders<R: Threads + Wait + Sync>(
    rt: &R,
    heap: &CellHeap<MailPass>,
    queue: &FreeQueue,
    scripts: &[Vec<u64>],
    senders: Vec<Mailer>,
) -> Vec<Mailer>
    requires few { length senders.items ≤ 4_294_967_295 }
    requires ready { AllReady heap.now queue.now scripts.now senders.items }
    ensures done { AllDone heap.now scripts.now result.items }
    ensures many { length result.items ≡ length senders.items }
    ensures room { vec_capacity senders ≤ vec_capacity result }
{
    let each = move |number: u32, sender: Mailer| -> Mailer
        requires { IsReady heap.now queue.now scripts.now number sender }
        ensures { IsDone heap.entry.now scripts.entry.now number result }
    { run_sender(rt, heap, queue, scripts, number, sender) };
    run_each(rt, &each, senders)
}

/// Runs the senders, each on a thread of its own, and the receiver, which is the last, alongside
/// them: it takes once for each line. After they are done it takes until nothing is left.
pub fn run_all<R: Threads + Wait + Sync>(
    alloc: Global,
    rt: &R,
    heap: &CellHeap<MailPass>,
    queue: &FreeQueue,
    scripts: &[Vec<u64>],
    lines: u32,
    mailers: Vec<Mailer>,
) -> (Vec<Mailer>, Received)
    requires few { length scripts.now ≤ MOST_CLIENTS - 1 }
    requires ready { AllReady heap.now queue.now scripts.now mailers.items }
    requires many { length mailers.items ≡ length scripts.now + 1 }
    ensures worked { HaveWorked heap.now scripts.now lines result.0.items result.1 }
{
    let mut senders = mailers;
    let Some(last) = senders.pop() else {
        unreachable!();
    };
    let number = senders.len() as u32;
    let Worker { seat, pass, own } = last;
    let (senders, half) = join(
        rt,
        move || -> Vec<Mailer>
            requires { IsSync R.row × (length senders.items ≤ 4_294_967_295)
                × AllReady heap.now queue.now scripts.now senders.items }
            ensures { AllDone heap.entry.now scripts.entry.now result.items
                × (length result.items ≡ length senders.items)
                × (vec_capacity senders ≤ vec_capacity result) }
        { run_senders(rt, heap, queue, scripts, senders) },
        move || -> (Mutator<'_, MailPass>, Vec<Item>, bool)
            requires { IsWaiting heap.now seat.me.number seat }
            ensures { IsHalfway heap.entry.now seat.me.number lines result.0 result.1.items
                result.2 }
        { receive_lines(alloc, rt, heap, seat, lines) },
    );
    let (m, items, failed) = half;
    let (seat, received) = receive_rest(rt, heap, number, lines, m, items, failed);
    let mut mailers = senders;
    if mailers.push(Worker { seat, pass, own }).is_err() {
        unreachable!();
    }
    (mailers, received)
}
