//! A thread that adds.
ghost use Rattle.std.specs.Prelude.{IfOk};
ghost use Rattle.example_counter.specs.Adding.{HasAdded, IsAdder, IsIdle};

use crate::adding::{Nursery, work};
use crate::counter::Added;
use cell_heap::{CellHeap, NoMemory};
use free_cells::FreeQueue;
use minor_heap::MinorHeap;
use mutator_threads::Worker;
use promotion::Promoter;
use std::alloc::Global;
use std::sync::Wait;

/// How often each thread tries to add one.
const TRIES: u32 = 200;

/// What a thread that adds has of its own: its private heap, and how much it has added.
#[derive(Drop)]
pub(crate) struct Adder {
    pub(crate) nursery: Nursery,
    pub(crate) sum: u64,
}

/// A thread that has added nothing. Its private heap is of one record.
pub(crate) fn new_adder(alloc: Global) -> Result<Adder, NoMemory>
    ensures idle { IfOk result (λ made. IsIdle made) }
{
    Ok(Adder {
        nursery: Nursery {
            minor: MinorHeap::with_room(alloc, 1)?,
            promoter: Promoter::with_room(alloc, 1)?,
        },
        sum: 0,
    })
}

/// Adds, on this thread.
pub(crate) fn add<R: Wait>(
    rt: &R,
    heap: &CellHeap<Added>,
    queue: &FreeQueue,
    number: u32,
    worker: Worker<Added, Adder>,
) -> Worker<Added, Adder>
    requires adder { IsAdder heap.now queue.now number worker }
    ensures added { HasAdded heap.now number result }
{
    let _ = number;
    let Worker { seat, pass, own } = worker;
    let mut nursery = own.nursery;
    let mut hints = queue.hints(pass);
    let (seat, sum) = work(rt, heap, &mut hints, seat, &mut nursery, TRIES);
    Worker {
        seat,
        pass: hints.into_pass(),
        own: Adder { nursery, sum },
    }
}
