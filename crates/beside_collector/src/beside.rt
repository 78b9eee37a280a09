//! The run: work on a heap, concurrently with the collector.
ghost use Rattle.std.specs.Prelude.{◌≡◌};
ghost use Rattle.beside_collector.specs.Freed.{Settled};
ghost use Rattle.beside_collector.specs.Serving.{IsKeeper, Stands, TurnOf};

use crate::keeper::{Keeper, Standby};
use crate::serving::{Serving, Turn, apart, stand_down, take_turn};
use crate::work::Work;
use cell_heap::ColSeat;
use free_cells::FreeQueue;
use heap_rule::Keeping;
use heap_table::CellHeap;
use std::alloc::Global;
use std::snapshot::Snapshot;
use std::sync::Wait;
use std::sync::atomic::{AtomicBool, Ordering};
use std::thread::{self, Threads};

/// Does the work, and runs the collector on a thread of its own. Where no thread can be made for
/// the collector, it goes off duty first, and what is returned with its seat says that it has not
/// served yet.
pub fn run_beside<P: Keeping + Sync, W: Work<P> + Drop, R: Threads + Wait + Sync>(
    alloc: Global,
    rt: &R,
    heap: &CellHeap<P>,
    queue: &FreeQueue,
    keeper: Keeper<P>,
    cycles: u32,
    work: W,
) -> (W::Done, ColSeat<P>, Option<Standby>)
    requires keeper { IsKeeper heap.now queue.now cycles keeper.seat keeper.pass }
    requires work { W.may heap.now queue.now work }
    ensures done { W.did heap.now queue.now work result.0 }
    ensures stands { Stands heap.now queue.now cycles keeper.seat result.1 result.2 }
{
    let (done, seat, standby, _freed) = run_counting(alloc, rt, heap, queue, keeper, cycles, work);
    (done, seat, standby)
}

/// The same, and also tells how many cells the collector freed meanwhile: none where it did not
/// serve.
pub fn run_counting<P: Keeping + Sync, W: Work<P> + Drop, R: Threads + Wait + Sync>(
    alloc: Global,
    rt: &R,
    heap: &CellHeap<P>,
    queue: &FreeQueue,
    keeper: Keeper<P>,
    cycles: u32,
    work: W,
) -> (W::Done, ColSeat<P>, Option<Standby>, u64)
    requires keeper { IsKeeper heap.now queue.now cycles keeper.seat keeper.pass }
    requires work { W.may heap.now queue.now work }
    ensures done { W.did heap.now queue.now work result.0 }
    ensures stands { Stands heap.now queue.now cycles keeper.seat result.1 result.2 }
    ensures settled { Settled keeper.seat result.1 result.3 }
{
    let held_back = AtomicBool::new(false);
    let flag = &held_back;
    let was = Snapshot::of(&keeper);
    let promise = Serving {
        cycles,
        keeper: Snapshot::of(&keeper),
    };
    thread::scope(
        thread::scope_env(),
        rt,
        move |scope| -> (W::Done, ColSeat<P>, Option<Standby>, u64)
            requires { IsKeeper heap.now queue.now cycles keeper.seat keeper.pass
                × W.may heap.now queue.now work
                × (was.value ≡ keeper) × (promise.keeper.value ≡ keeper)
                × (promise.cycles ≡ cycles) }
            ensures { W.did heap.entry.now queue.entry.now work result.0
                × Stands heap.entry.now queue.entry.now cycles keeper.seat result.1 result.2
                × Settled keeper.seat result.1 result.3 }
        {
            let turn = move || -> Turn<P>
                requires { IsKeeper heap.now queue.now cycles keeper.seat keeper.pass }
                ensures { TurnOf cycles keeper result }
            { take_turn(rt, heap, queue, flag, cycles, keeper) };
            match scope.spawn_with(promise, turn) {
                Ok(thread) => {
                    let done = work.run(alloc, rt, heap, queue);
                    queue.end_work();
                    let turn = stand_down(heap, queue, cycles, &was, thread.join(rt));
                    let (seat, standby, freed) = apart(heap, queue, cycles, &was, turn);
                    (done, seat, standby, freed)
                }
                Err(refused) => {
                    flag.store(true, Ordering::SeqCst);
                    let turn = stand_down(heap, queue, cycles, &was, (refused.value)());
                    let done = work.run(alloc, rt, heap, queue);
                    queue.end_work();
                    let (seat, standby, freed) = apart(heap, queue, cycles, &was, turn);
                    (done, seat, standby, freed)
                }
            }
        },
    )
}
