//! A collector that sleeps until cells are wanted, and where none may sleep. What is asserted
//! stands on every schedule.
ghost use Rattle.std.specs.Prelude.{◌≡◌, ◌≤◌};
ghost use Rattle.collector_tests.specs.Away.{IsIn};
ghost use Rattle.collector_tests.specs.Seats.{IsIdle, IsOut, IsOver};
ghost use Rattle.core_machine.specs.State.{greatest_cycles};
ghost use Rattle.free_cells.specs.Hints.{cells_of as hinted_of, queue_of};
ghost use Rattle.free_cells.specs.Passes.{IsHintPass};
ghost use Rattle.heap_table.specs.Seats.{IsSeatOf};

use crate::collecting::{Service, serve};
use crate::heaps::{close, open_hints, open_plain};
use crate::mutating::leave;
use crate::watching::{End, LOOKS, QUIET, is_set, watch};
use cell_heap::{CellHeap, ColSeat, MutSeat, NoMemory};
use collector::MarkStack;
use free_cells::{FreeQueue, HintPass, Hints};
use heap_rule::NoRule;
use mutator_seat::Mutator;
use std::alloc::Global;
use std::sync::Wait;
use std::sync::atomic::{AtomicBool, Ordering};
use std::test::Fail;
use std::thread::{self, Threads};
use std::time::{Clock, Duration};

const CELLS: u32 = 64;

/// How many numbers are plenty: at least three tenths.
const PLENTY: u32 = 20;

/// Serves once the first word is set, and then sets the second.
fn serve_when<R: Wait + Clock>(
    rt: &R,
    heap: &CellHeap<NoRule>,
    seat: ColSeat<NoRule>,
    stack: MarkStack,
    queue: &FreeQueue,
    pass: HintPass,
    service: Service,
    begun: &AtomicBool,
    ended: &AtomicBool,
) -> ColSeat<NoRule>
    requires idle { IsIdle heap.now seat }
    requires cycles { service.cycles ≤ greatest_cycles }
    requires pass { IsHintPass queue.now pass }
    requires cells { hinted_of queue.now ≡ heap.now.shape.cells }
    ensures seat { IsSeatOf heap.now result }
{
    let _ = is_set(rt, begun);
    let (seat, _) = serve(rt, heap, seat, stack, queue, pass, service);
    ended.store(true, Ordering::SeqCst);
    seat
}

/// When a service ends during which nobody wants a cell. One that waits for demand is told after a
/// while that the work is over.
fn watch_idle<R: Wait + Clock>(
    rt: &R,
    queue: &FreeQueue,
    pass: HintPass,
    ended: &AtomicBool,
    on_demand: bool,
) -> End
    requires pass { IsHintPass queue.now pass }
{
    if on_demand {
        thread::sleep(rt, Duration::from_millis(QUIET));
        if ended.load(Ordering::SeqCst) {
            return End::Early;
        }
        queue.end_work();
    }
    let mut hints = queue.hints(pass);
    watch(rt, queue, &mut hints, ended)
}

/// Serves for three cycles on a heap in which all cells are free and nobody comes in.
fn serve_idle<R: Threads + Wait + Clock + Sync>(
    rt: &R,
    heap: &CellHeap<NoRule>,
    collector: ColSeat<NoRule>,
    stack: MarkStack,
    queue: &FreeQueue,
    pass: HintPass,
    other: HintPass,
    on_demand: bool,
) -> (ColSeat<NoRule>, End)
    requires idle { IsIdle heap.now collector }
    requires pass { IsHintPass queue.now pass }
    requires other { IsHintPass queue.now other }
    requires cells { hinted_of queue.now ≡ heap.now.shape.cells }
    ensures seat { IsSeatOf heap.now result.0 }
{
    let service = Service {
        cycles: 3,
        on_demand,
    };
    let (at_once, at_end) = (AtomicBool::new(true), AtomicBool::new(false));
    let (begun, ended) = (&at_once, &at_end);
    thread::join(
        rt,
        move ||
            requires { IsIdle heap.now collector × IsHintPass queue.now pass
                × (service.cycles ≤ greatest_cycles)
                × (hinted_of queue.now ≡ heap.now.shape.cells) }
            ensures { IsSeatOf heap.entry.now result }
        {
            serve_when(
                rt, heap, collector, stack, queue, pass, service, begun, ended,
            )
        },
        move || -> End
            requires { IsHintPass queue.now other }
        { watch_idle(rt, queue, other, ended, on_demand) },
    )
}

/// When it ends, and how many cycles there were.
fn idle<R: Threads + Wait + Clock + Sync>(
    alloc: Global,
    rt: &R,
    on_demand: bool,
) -> Result<(End, u32), NoMemory> {
    let stack = MarkStack::with_room(alloc, 8)?;
    let (queue, pass, other) = open_hints(alloc, rt, CELLS, 1)?;
    let (heap, collector, mutator) = open_plain(alloc, CELLS, 1)?;
    let (collector, end) = serve_idle(rt, &heap, collector, stack, &queue, pass, other, on_demand);
    let mutator = leave(&heap, mutator);
    Ok((end, close(heap, collector, mutator).control().cycles))
}

#[test]
fn no_cycle_is_made_on_demand_while_nobody_claims(rt: HostRuntime) -> Result<(), Fail> {
    assert_eq!(rt; idle(rt.alloc(), &rt, true)?, (End::InTime, 3));
    Ok(())
}

#[test]
fn a_service_that_is_unbroken_waits_for_no_demand(rt: HostRuntime) -> Result<(), Fail> {
    assert_eq!(rt; idle(rt.alloc(), &rt, false)?, (End::InTime, 3));
    Ok(())
}

/// Answers a handshake, if one is asked for.
fn answer(heap: &CellHeap<NoRule>, mutator: &mut Mutator<'_, NoRule>) -> bool
    requires inside { IsIn heap.now mutator.old }
    ensures inside { IsIn heap.now mutator.new }
{
    let _ = heap;
    mutator.answer()
}

/// Answers the next handshake, if one comes within the bound.
fn answer_next<R: Clock>(rt: &R, heap: &CellHeap<NoRule>, mutator: &mut Mutator<'_, NoRule>)
    requires inside { IsIn heap.now mutator.old }
    ensures inside { IsIn heap.now mutator.new }
{
    for _ in 0..LOOKS {
        if answer(heap, mutator) {
            return;
        }
        thread::sleep(rt, Duration::from_millis(1));
    }
}

/// Puts so many numbers that they are plenty.
fn put_plenty<R: Wait>(rt: &R, hints: &mut Hints<'_>)
    requires cells { hinted_of (queue_of hints.old) ≡ 64 }
{
    for cell in 0..PLENTY {
        let _ = hints.put(rt, cell);
    }
}

/// Answers the handshakes of a cycle. After the first answer numbers are plenty.
fn answer_cycle<R: Wait + Clock>(
    rt: &R,
    heap: &CellHeap<NoRule>,
    mutator: &mut Mutator<'_, NoRule>,
    hints: &mut Hints<'_>,
)
    requires inside { IsIn heap.now mutator.old }
    requires cells { hinted_of (queue_of hints.old) ≡ 64 }
    ensures inside { IsIn heap.now mutator.new }
{
    answer_next(rt, heap, mutator);
    put_plenty(rt, hints);
    answer_next(rt, heap, mutator);
    answer_next(rt, heap, mutator);
}

/// Comes in, and answers the handshakes of a cycle that begins since no cell has a number; and when
/// that ends.
fn come_in<R: Wait + Clock>(
    rt: &R,
    heap: &CellHeap<NoRule>,
    seat: MutSeat<NoRule>,
    queue: &FreeQueue,
    pass: HintPass,
    begun: &AtomicBool,
    ended: &AtomicBool,
) -> (MutSeat<NoRule>, End)
    requires out { IsOut heap.now 1 seat }
    requires pass { IsHintPass queue.now pass }
    requires cells { hinted_of queue.now ≡ 64 }
    ensures over { IsOver heap.now result.0 }
{
    let mut hints = queue.hints(pass);
    let mut mutator = Mutator::new(heap, seat);
    mutator.begin();
    begun.store(true, Ordering::SeqCst);
    answer_cycle(rt, heap, &mut mutator, &mut hints);
    mutator.end();
    (mutator.finish(), watch(rt, queue, &mut hints, ended))
}

/// The collector serves on demand for one cycle, alongside a mutator that answers.
fn serve_one<R: Threads + Wait + Clock + Sync>(
    rt: &R,
    heap: &CellHeap<NoRule>,
    collector: ColSeat<NoRule>,
    stack: MarkStack,
    mutator: MutSeat<NoRule>,
    queue: &FreeQueue,
    pass: HintPass,
    other: HintPass,
) -> (ColSeat<NoRule>, (MutSeat<NoRule>, End))
    requires idle { IsIdle heap.now collector }
    requires out { IsOut heap.now 1 mutator }
    requires pass { IsHintPass queue.now pass }
    requires other { IsHintPass queue.now other }
    requires cells { hinted_of queue.now ≡ heap.now.shape.cells }
    requires some { hinted_of queue.now ≡ 64 }
    ensures seat { IsSeatOf heap.now result.0 }
    ensures over { IsOver heap.now result.1.0 }
{
    let service = Service {
        cycles: 1,
        on_demand: true,
    };
    let (at_begin, at_end) = (AtomicBool::new(false), AtomicBool::new(false));
    let (begun, ended) = (&at_begin, &at_end);
    thread::join(
        rt,
        move ||
            requires { IsIdle heap.now collector × IsHintPass queue.now pass
                × (service.cycles ≤ greatest_cycles)
                × (hinted_of queue.now ≡ heap.now.shape.cells) }
            ensures { IsSeatOf heap.entry.now result }
        {
            serve_when(
                rt, heap, collector, stack, queue, pass, service, begun, ended,
            )
        },
        move ||
            requires { IsOut heap.now 1 mutator × IsHintPass queue.now other
                × (hinted_of queue.now ≡ 64) }
            ensures { IsOver heap.entry.now result.0 }
        { come_in(rt, heap, mutator, queue, other, begun, ended) },
    )
}

/// When it ends, and how many cycles there were.
fn in_mid_cycle<R: Threads + Wait + Clock + Sync>(
    alloc: Global,
    rt: &R,
) -> Result<(End, u32), NoMemory> {
    let stack = MarkStack::with_room(alloc, 8)?;
    let (queue, pass, other) = open_hints(alloc, rt, CELLS, CELLS)?;
    let (heap, collector, mutator) = open_plain(alloc, CELLS, 1)?;
    let (collector, (mutator, end)) = serve_one(
        rt, &heap, collector, stack, mutator, &queue, pass, other,
    );
    Ok((end, close(heap, collector, mutator).control().cycles))
}

#[test]
fn a_cycle_that_has_begun_ends_while_numbers_are_plenty(rt: HostRuntime) -> Result<(), Fail> {
    assert_eq!(rt; in_mid_cycle(rt.alloc(), &rt)?, (End::InTime, 1));
    Ok(())
}
