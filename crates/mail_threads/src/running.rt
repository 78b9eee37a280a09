//! A sender from its beginning to its end, on this thread.
ghost use Rattle.mail_threads.specs.Workers.{IsDone, IsReady};

use crate::posting::send_all;
use crate::workers::Mailer;
use beside_collector::{come_in, leave, script_at};
use cell_mailbox::MailPass;
use free_cells::FreeQueue;
use heap_table::CellHeap;
use mutator_threads::Worker;
use std::sync::Wait;

/// Sends the lines of a sender's script. Its mutator comes in before and is over afterwards.
pub(crate) fn run_sender<R: Wait>(
    rt: &R,
    heap: &CellHeap<MailPass>,
    queue: &FreeQueue,
    scripts: &[Vec<u64>],
    number: u32,
    sender: Mailer,
) -> Mailer
    requires ready { IsReady heap.now queue.now scripts.now number sender }
    ensures done { IsDone heap.now scripts.now number result }
{
    let Worker {
        seat,
        pass,
        mut own,
    } = sender;
    let script = script_at(scripts, number);
    let mut hints = queue.hints(pass);
    let mut m = come_in(heap, seat);
    send_all(rt, &mut hints, &mut m, number + 1, script, &mut own);
    Worker {
        seat: leave(m),
        pass: hints.into_pass(),
        own,
    }
}
