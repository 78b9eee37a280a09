//! The mutators alongside the collector.
ghost use Rattle.std.specs.Prelude.{◌≡◌, ◌≤◌, length, vec_capacity};
ghost use Rattle.std.specs.Thread.{IsSend, IsSync};
ghost use Rattle.beside_collector.specs.Places.{AllFrom};
ghost use Rattle.core_machine.specs.State.{greatest_cycles};
ghost use Rattle.mutator_threads.specs.Each.{EachFrom};
ghost use Rattle.mutator_threads.specs.Mutators.{IsNewKeeper, IsOffDuty};

use crate::each::run_each;
use beside_collector::{Doing, Keeper, Standby, Work, begin_duty, run_counting};
use cell_heap::{CellHeap, ColSeat};
use free_cells::FreeQueue;
use heap_rule::Keeping;
use std::alloc::Global;
use std::sync::Wait;
use std::thread::Threads;

/// The collector after the work: its seat, which is off duty; what it has to serve with after the
/// joins, if it got no thread; and how many cells it freed so far.
#[derive(Drop)]
pub struct OffDuty<P: Keeping> {
    pub seat: ColSeat<P>,
    pub standby: Option<Standby>,
    pub freed: u64,
}

/// Does the work alongside the collector, which is on duty meanwhile, for at most so many cycles.
pub fn run_alongside<P: Keeping + Sync, W: Work<P> + Drop, R: Threads + Wait + Sync>(
    alloc: Global,
    rt: &R,
    heap: &CellHeap<P>,
    queue: &FreeQueue,
    keeper: Keeper<P>,
    cycles: u32,
    work: W,
) -> (W::Done, OffDuty<P>)
    requires keeper { IsNewKeeper heap.now queue.now keeper }
    requires cycles { cycles ≤ greatest_cycles }
    requires work { W.may heap.now queue.now work }
    ensures done { W.did heap.now queue.now work result.0 }
    ensures off { IsOffDuty heap.now queue.now cycles result.1 }
{
    let mut keeper = keeper;
    begin_duty(heap, cycles, &mut keeper.seat);
    let (done, seat, standby, freed) = run_counting(alloc, rt, heap, queue, keeper, cycles, work);
    (
        done,
        OffDuty {
            seat,
            standby,
            freed,
        },
    )
}

/// Calls the closure for each worker with the number of its mutator, each call on a thread of its
/// own, alongside the collector.
pub fn run_workers<
    P: Keeping + Sync,
    W: Send + Drop,
    F: Fn(u32, W) -> W + Sync + Drop,
    R: Threads + Wait + Sync,
>(
    alloc: Global,
    rt: &R,
    heap: &CellHeap<P>,
    queue: &FreeQueue,
    keeper: Keeper<P>,
    cycles: u32,
    work: Vec<W>,
    each: F,
) -> (Vec<W>, OffDuty<P>)
    requires keeper { IsNewKeeper heap.now queue.now keeper }
    requires cycles { cycles ≤ greatest_cycles }
    requires few { length work.items ≤ 4294967295 }
    requires ready { AllFrom (F.pre each) 0 work.items }
    ensures done { EachFrom (F.post each) 0 work.items result.0.items }
    ensures many { length result.0.items ≡ length work.items }
    ensures room { vec_capacity work ≤ vec_capacity result.0 }
    ensures off { IsOffDuty heap.now queue.now cycles result.1 }
{
    let run = move || -> Vec<W>
        requires { IsSync R.row × IsSync F.row × IsSend W.row
            × (length work.items ≤ 4294967295) × AllFrom (F.pre each) 0 work.items }
        ensures { EachFrom (F.post each) 0 work.items result.items
            × (length result.items ≡ length work.items)
            × (vec_capacity work ≤ vec_capacity result) }
    { run_each(rt, &each, work) };
    run_alongside(alloc, rt, heap, queue, keeper, cycles, Doing { run })
}
