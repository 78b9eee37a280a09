//! What the collector does in these tests.
ghost use Rattle.std.specs.Prelude.{◌≡◌, ◌≤◌};
ghost use Rattle.collector_tests.specs.Seats.{IsIdle, IsOut};
ghost use Rattle.core_machine.specs.State.{greatest_cycles};
ghost use Rattle.free_cells.specs.Hints.{cells_of as hinted_of};
ghost use Rattle.free_cells.specs.Passes.{IsHintPass};
ghost use Rattle.heap_table.specs.Seats.{IsSeatOf};

use crate::heaps::{blue_cells, close};
use crate::mutating::leave;
use cell_heap::{CellHeap, ColSeat, MutSeat};
use cell_words::GREATEST_CYCLES;
use collector::{Collector, CycleReport, MarkStack};
use free_cells::{FreeQueue, HintPass};
use heap_rule::NoRule;
use std::sync::Wait;

/// Makes one cycle.
pub(crate) fn collect_once<R: Wait>(
    rt: &R,
    heap: &CellHeap<NoRule>,
    seat: ColSeat<NoRule>,
    stack: MarkStack,
    queue: &FreeQueue,
    pass: HintPass,
) -> (ColSeat<NoRule>, CycleReport)
    requires idle { IsIdle heap.now seat }
    requires pass { IsHintPass queue.now pass }
    requires cells { hinted_of queue.now ≡ heap.now.shape.cells }
    ensures seat { IsSeatOf heap.now result.0 }
{
    let mut hints = queue.hints(pass);
    let mut collector = Collector::new(heap, seat, heap.mutators(), stack);
    let report = collector.cycle(rt, &mut hints);
    (collector.into_seat(), report)
}

/// How the collector serves: for at most so many cycles, and whether each waits until it is wanted.
#[derive(Clone, Copy)]
pub(crate) struct Service {
    pub cycles: u32,
    pub on_demand: bool,
}

/// Cycle after cycle, as many as there may be.
pub(crate) const UNBROKEN: Service = Service {
    cycles: GREATEST_CYCLES,
    on_demand: false,
};

/// Serves. It gives how many cells were freed.
pub(crate) fn serve<R: Wait>(
    rt: &R,
    heap: &CellHeap<NoRule>,
    seat: ColSeat<NoRule>,
    stack: MarkStack,
    queue: &FreeQueue,
    pass: HintPass,
    service: Service,
) -> (ColSeat<NoRule>, u64)
    requires idle { IsIdle heap.now seat }
    requires cycles { service.cycles ≤ greatest_cycles }
    requires pass { IsHintPass queue.now pass }
    requires cells { hinted_of queue.now ≡ heap.now.shape.cells }
    ensures seat { IsSeatOf heap.now result.0 }
{
    let mut hints = queue.hints(pass);
    let mut collector = Collector::new(heap, seat, heap.mutators(), stack);
    let freed = if service.on_demand {
        collector.serve_on_demand(rt, &mut hints, service.cycles)
    } else {
        collector.serve(rt, &mut hints, service.cycles)
    };
    (collector.into_seat(), freed)
}

/// Makes one cycle on a heap whose mutator is over, and closes it. It gives the report, and how
/// many cells are blue in the end.
pub(crate) fn collect_alone<R: Wait>(
    rt: &R,
    heap: CellHeap<NoRule>,
    collector: ColSeat<NoRule>,
    mutator: MutSeat<NoRule>,
    stack: MarkStack,
    queue: &FreeQueue,
    pass: HintPass,
) -> (CycleReport, u32)
    requires idle { IsIdle heap collector }
    requires out { IsOut heap 1 mutator }
    requires pass { IsHintPass queue.now pass }
    requires cells { hinted_of queue.now ≡ heap.shape.cells }
{
    let mutator = leave(&heap, mutator);
    let (collector, report) = collect_once(rt, &heap, collector, stack, queue, pass);
    (report, blue_cells(&close(heap, collector, mutator)))
}
