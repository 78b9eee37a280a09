//! What runs alongside the collector.
ghost use Rattle.free_cells.specs.declared.queue.FreeQueue.{FreeQueue as Queue};
ghost use Rattle.heap_table.specs.Seats.{HeapId};

use free_cells::FreeQueue;
use heap_rule::Keeping;
use heap_table::CellHeap;
use std::alloc::Global;
use std::sync::Wait;
use std::thread::Threads;

/// What is to be done on a heap of this rule while the collector serves it. The work has the seats
/// of the mutators that do it.
pub trait Work<P: Keeping> {
    /// what it returns
    type Done;

    // it may be begun on this heap, with this queue of hints
    ghost may: { HeapId → Queue → Self → Type 0 };

    // it returned this
    ghost did: { HeapId → Queue → Self → Self.Done → Type 0 };

    /// Does it, on this thread and on others.
    fn run<R: Threads + Wait + Sync>(
        self,
        alloc: Global,
        rt: &R,
        heap: &CellHeap<P>,
        queue: &FreeQueue,
    ) -> Self::Done
        requires may { may heap.now queue.now self }
        ensures did { did heap.now queue.now self result };
}

/// Work that a closure does, which has all that it needs with it. This is how such work can go to
/// threads: the bound of a trait's method is no promise to another thread, and the bound of the
/// function that makes the closure is.
#[derive(Drop)]
pub struct Doing<F> {
    pub run: F,
}

impl<P: Keeping, D, F: FnOnce() -> D> Work<P> for Doing<F> {
    type Done = D;

    ghost may = { λ heap queue work. F.pre work.run };

    ghost did = { λ heap queue work done. F.post work.run done };

    fn run<R: Threads + Wait + Sync>(
        self,
        alloc: Global,
        rt: &R,
        heap: &CellHeap<P>,
        queue: &FreeQueue,
    ) -> D {
        let _ = alloc;
        let _ = rt;
        let _ = heap;
        let _ = queue;
        let Doing { run } = self;
        run()
    }
}
