//! A run alongside the collector.
ghost use Rattle.std.specs.Prelude.{◌≡◌};
ghost use Rattle.collector_tests.specs.Seats.{IsIdle};
ghost use Rattle.free_cells.specs.Hints.{cells_of as hinted_of};
ghost use Rattle.free_cells.specs.Passes.{IsHintPass};

use crate::heaps::{open_hints, open_plain};
use crate::watching::{End, watch};
use beside_collector::{Doing, Keeper, run_beside};
use cell_heap::{CellHeap, ColSeat, NoMemory};
use collector::MarkStack;
use free_cells::{FreeQueue, HintPass};
use heap_rule::NoRule;
use std::alloc::Global;
use std::sync::Wait;
use std::sync::atomic::{AtomicBool, Ordering};
use std::test::Fail;
use std::thread::{self, Threads};
use std::time::Clock;

const CELLS: u32 = 64;

/// Runs work that wants no cell alongside a collector that may make three cycles, and sets the word
/// at the end.
fn run_work<R: Threads + Wait + Sync>(
    alloc: Global,
    rt: &R,
    heap: &CellHeap<NoRule>,
    queue: &FreeQueue,
    seat: ColSeat<NoRule>,
    stack: MarkStack,
    pass: HintPass,
    ended: &AtomicBool,
)
    requires idle { IsIdle heap.now seat }
    requires pass { IsHintPass queue.now pass }
    requires cells { hinted_of queue.now ≡ heap.now.shape.cells }
{
    let keeper = Keeper { seat, stack, pass };
    let work = Doing { run: move || () };
    let _ = run_beside(alloc, rt, heap, queue, keeper, 3, work);
    ended.store(true, Ordering::SeqCst);
}

/// When the run ends, by who watches it.
fn watch_run<R: Wait + Clock>(rt: &R, queue: &FreeQueue, pass: HintPass, ended: &AtomicBool) -> End
    requires pass { IsHintPass queue.now pass }
{
    let mut hints = queue.hints(pass);
    watch(rt, queue, &mut hints, ended)
}

/// A run on a heap in which all cells are free.
fn run_idle<R: Threads + Wait + Clock + Sync>(alloc: Global, rt: &R) -> Result<End, NoMemory> {
    let stack = MarkStack::with_room(alloc, 8)?;
    let (queue, pass, other) = open_hints(alloc, rt, CELLS, 1)?;
    let (heap, seat, _mutator) = open_plain(alloc, CELLS, 1)?;
    let at_end = AtomicBool::new(false);
    let (at, hints, ended) = (&heap, &queue, &at_end);
    let (_, end) = thread::join(
        rt,
        move ||
            requires { IsIdle at.now seat × IsHintPass hints.now pass
                × (hinted_of hints.now ≡ at.now.shape.cells) }
        { run_work(alloc, rt, at, hints, seat, stack, pass, ended) },
        move || -> End
            requires { IsHintPass hints.now other }
        { watch_run(rt, hints, other, ended) },
    );
    Ok(end)
}

#[test]
fn a_run_ends_in_which_nobody_claims(rt: HostRuntime) -> Result<(), Fail> {
    assert_eq!(rt; run_idle(rt.alloc(), &rt)?, End::InTime);
    Ok(())
}
