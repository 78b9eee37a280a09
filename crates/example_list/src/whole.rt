//! The whole run: a heap is opened, threads push alongside the collector, and it is closed.
ghost use Rattle.std.specs.Prelude.{◌≡◌, IfOk, length};
ghost use Rattle.example_list.specs.Leaving.{HasPushed, IsPusher, Leaves};

use crate::pushing::work;
use cell_heap::{CellHeap, Image, NoMemory, Passes};
use cell_words::{Field, GREATEST_CYCLES};
use free_cells::FreeQueue;
use heap_rule::NoRule;
use mutator_threads::{Closed, Opened, Worker, close, open, run_workers};
use std::alloc::Global;
use std::sync::Wait;
use std::thread::Threads;

/// How many cells there are: enough for what the threads push, not for all that they make.
const CELLS: u32 = 1700;

/// How often each thread tries to push a node.
const TRIES: u32 = 200;

/// Pushes, on this thread.
fn push_all<R: Wait>(
    rt: &R,
    heap: &CellHeap<NoRule>,
    queue: &FreeQueue,
    number: u32,
    worker: Worker<NoRule, u64>,
) -> Worker<NoRule, u64>
    requires worker { IsPusher heap.now queue.now number worker }
    ensures pushed { HasPushed heap.now number result }
{
    let Worker { seat, pass, .. } = worker;
    let mut hints = queue.hints(pass);
    let (seat, own) = work(rt, heap, &mut hints, seat, number, TRIES);
    Worker {
        seat,
        pass: hints.into_pass(),
        own,
    }
}

/// The result of a run.
#[derive(Drop)]
pub(crate) struct Ran {
    /// the closed heap, and what its collector knew
    pub(crate) image: Image,
    pub(crate) passes: Passes<NoRule>,
    /// how many nodes each thread says that it pushed
    pub(crate) pushed: Vec<u64>,
    /// how many cells the collector freed
    pub(crate) freed: u64,
}

/// So many threads push on the list of a new heap, alongside the collector.
pub(crate) fn run<R: Threads + Wait + Sync>(
    alloc: Global,
    rt: &R,
    threads: u32,
) -> Result<Ran, NoMemory>
    ensures leaves { IfOk result (λ ran. Leaves 1700 threads ran.freed ran.image ran.passes) }
    ensures many { IfOk result (λ ran. length ran.pushed.items ≡ threads) }
{
    let pushed = Vec::with_capacity(alloc, threads as usize)?;
    let null = Field::Null;
    let anchor = [null, null, null, null, null, Field::Num(2)];
    let own = move |_number: u32| -> Result<u64, NoMemory>
        ensures { IfOk result (λ count. count ≡ 0) }
    { Ok(0) };
    let opened = open::<NoRule, _, _, R>(alloc, rt, CELLS, threads, 0, &[anchor], 8, own)?;
    let Opened {
        heap,
        queue,
        keeper,
        workers,
    } = opened;
    let at = &heap;
    let hints = &queue;
    let each = move |number: u32, worker: Worker<NoRule, u64>| -> Worker<NoRule, u64>
        requires { IsPusher at.now hints.now number worker }
        ensures { HasPushed at.entry.now number result }
    { push_all(rt, at, hints, number, worker) };
    let (workers, off) = run_workers(alloc, rt, at, hints, keeper, GREATEST_CYCLES, workers, each);
    let (closed, pushed) = close(rt, heap, &queue, GREATEST_CYCLES, off, workers, pushed);
    let Closed {
        image,
        passes,
        freed,
        ..
    } = closed;
    Ok(Ran {
        image,
        passes,
        pushed,
        freed,
    })
}
