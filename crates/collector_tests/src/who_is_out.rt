//! Cycles while a mutator is out and not over: the collector answers for it, or a handshake would
//! not end.
ghost use Rattle.std.specs.Prelude.{◌≡◌};
ghost use Rattle.collector_tests.specs.Seats.{IsIdle, IsOut, IsOver};
ghost use Rattle.free_cells.specs.Hints.{cells_of as hinted_of};
ghost use Rattle.free_cells.specs.Passes.{IsHintPass};
ghost use Rattle.heap_table.specs.Seats.{IsSeatOf};

use crate::collecting::collect_once;
use crate::heaps::{blue_cells, close, open_hints, open_plain};
use crate::mutating::leave;
use cell_heap::{CellHeap, ColSeat, MutSeat, NoMemory};
use collector::{CycleReport, MarkStack};
use free_cells::{FreeQueue, HintPass};
use heap_rule::NoRule;
use mutator_seat::Mutator;
use std::alloc::Global;
use std::sync::Wait;
use std::test::Fail;

/// A cycle alongside a mutator that comes in only to go out again, and is over after the cycle.
fn collect_beside<R: Wait>(
    rt: &R,
    heap: &CellHeap<NoRule>,
    collector: ColSeat<NoRule>,
    stack: MarkStack,
    mutator: MutSeat<NoRule>,
    queue: &FreeQueue,
    pass: HintPass,
) -> ((ColSeat<NoRule>, CycleReport), MutSeat<NoRule>)
    requires idle { IsIdle heap.now collector }
    requires out { IsOut heap.now 1 mutator }
    requires pass { IsHintPass queue.now pass }
    requires cells { hinted_of queue.now ≡ heap.now.shape.cells }
    ensures seat { IsSeatOf heap.now result.0.0 }
    ensures over { IsOver heap.now result.1 }
{
    let mut mutator = Mutator::new(heap, mutator);
    mutator.begin();
    mutator.end();
    let made = collect_once(rt, heap, collector, stack, queue, pass);
    (made, mutator.finish())
}

/// A cycle on a heap of three cells whose mutator went out; and how many cells are blue then.
fn behind_one_that_went_out<R: Wait>(
    alloc: Global,
    rt: &R,
) -> Result<(CycleReport, u32), NoMemory> {
    let stack = MarkStack::with_room(alloc, 2)?;
    let (queue, pass, _) = open_hints(alloc, rt, 3, 1)?;
    let (heap, collector, mutator) = open_plain(alloc, 3, 1)?;
    let ((collector, report), mutator) = collect_beside(
        rt, &heap, collector, stack, mutator, &queue, pass,
    );
    Ok((report, blue_cells(&close(heap, collector, mutator))))
}

/// The same where the mutator never came in.
fn before_one_that_comes<R: Wait>(alloc: Global, rt: &R) -> Result<(CycleReport, u32), NoMemory> {
    let stack = MarkStack::with_room(alloc, 2)?;
    let (queue, pass, _) = open_hints(alloc, rt, 3, 1)?;
    let (heap, collector, mutator) = open_plain(alloc, 3, 1)?;
    let (collector, report) = collect_once(rt, &heap, collector, stack, &queue, pass);
    let mutator = leave(&heap, mutator);
    Ok((report, blue_cells(&close(heap, collector, mutator))))
}

#[test]
fn a_cycle_ends_beside_a_mutator_that_is_out(rt: HostRuntime) -> Result<(), Fail> {
    let report = CycleReport {
        passes: 2,
        scanned: 1,
        freed: 0,
        stacked: 0,
        spilled: 0,
    };
    let made = (
        behind_one_that_went_out(rt.alloc(), &rt)?,
        before_one_that_comes(rt.alloc(), &rt)?,
    );
    assert_eq!(rt; made, ((report, 2), (report, 2)));
    Ok(())
}
