//! A thread that appends.
ghost use Rattle.example_log.specs.Appending.{HasAppended, IsAppender};

use crate::appending::work;
use crate::log::Appended;
use cell_heap::CellHeap;
use free_cells::FreeQueue;
use mutator_threads::Worker;
use std::sync::Wait;

/// How often each thread tries to append an entry.
const TRIES: u32 = 200;

/// Appends, on this thread.
pub(crate) fn append<R: Wait>(
    rt: &R,
    heap: &CellHeap<Appended>,
    queue: &FreeQueue,
    number: u32,
    worker: Worker<Appended, u64>,
) -> Worker<Appended, u64>
    requires worker { IsAppender heap.now queue.now number worker }
    ensures appended { HasAppended heap.now number result }
{
    let Worker { seat, pass, .. } = worker;
    let mut hints = queue.hints(pass);
    let (seat, own) = work(rt, heap, &mut hints, seat, number, TRIES);
    Worker {
        seat,
        pass: hints.into_pass(),
        own,
    }
}
