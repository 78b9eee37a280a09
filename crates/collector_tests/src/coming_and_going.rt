//! Mutators that come in and go out again while a collector serves, one that never comes in, and
//! one whose seat is never split off. What is asserted holds on every schedule.
ghost use Rattle.std.specs.Prelude.{◌≡◌, ◌≤◌, IfOk};
ghost use Rattle.collector_tests.specs.Away.{IsAway};
ghost use Rattle.collector_tests.specs.Seats.{IsIdle, IsOut, IsOver};
ghost use Rattle.core_machine.specs.State.{greatest_cycles};
ghost use Rattle.free_cells.specs.Hints.{cells_of as hinted_of};
ghost use Rattle.free_cells.specs.Passes.{IsHintPass};
ghost use Rattle.heap_rule.specs.declared.view.Place.TheVariants as places;
ghost use Rattle.heap_table.specs.Seats.{IsSeatOf};
ghost use lib.ListN.{get_elem?};
ghost use mathlib.Core.Option.{some};

use crate::collecting::{Service, UNBROKEN, serve};
use crate::heaps::{ANCHOR, blue_cells, close, open, open_hints};
use crate::mutating::{leave, make_all};
use cell_heap::{CellHeap, ColSeat, MutSeat, NoMemory};
use collector::MarkStack;
use free_cells::{FreeQueue, HintPass, Hints};
use heap_rule::NoRule;
use mutator_seat::Mutator;
use std::alloc::Global;
use std::sync::Wait;
use std::test::Fail;
use std::thread::{self, Threads};

const CELLS: u32 = 64;

/// How often a mutator comes in.
const ROUNDS: u32 = 100;

/// How many records it makes each time, and drops.
const RECORDS: u32 = 5;

/// How the collector serves where it does not stop by itself.
const SOME: Service = Service {
    cycles: 60,
    on_demand: false,
};

/// A heap with the anchor alone for four mutators, of which the last one stays with the collector.
#[derive(Drop)]
struct Opened {
    heap: CellHeap<NoRule>,
    collector: ColSeat<NoRule>,
    first: MutSeat<NoRule>,
    second: MutSeat<NoRule>,
    third: MutSeat<NoRule>,
}

fn open_four(alloc: Global) -> Result<Opened, NoMemory>
    ensures cells { IfOk result (λ made. made.heap.shape.cells ≡ 64) }
    ensures mutators { IfOk result (λ made. made.heap.shape.mutators ≡ 4) }
    ensures idle { IfOk result (λ made. IsIdle made.heap made.collector) }
    ensures first { IfOk result (λ made. IsOut made.heap 2 made.first) }
    ensures second { IfOk result (λ made. IsOut made.heap 2 made.second) }
    ensures third { IfOk result (λ made. IsOut made.heap 1 made.third) }
    ensures unsplit { IfOk result (λ made.
        get_elem? made.collector.me.places 3 ≡ some places.Unsplit) }
{
    let (heap, mut collector) = open(alloc, CELLS, 4, &[ANCHOR])?;
    let first = collector.split(alloc, &heap, 0, 2)?;
    let second = collector.split(alloc, &heap, 1, 2)?;
    let third = collector.split(alloc, &heap, 2, 2)?;
    Ok(Opened {
        heap,
        collector,
        first,
        second,
        third,
    })
}

/// Comes in, makes records and drops them, and goes out. It gives how many it made.
fn stay<R: Wait>(
    rt: &R,
    heap: &CellHeap<NoRule>,
    mutator: &mut Mutator<'_, NoRule>,
    hints: &mut Hints<'_>,
) -> u32
    requires away { IsAway heap.now 2 mutator.old }
    ensures away { IsAway heap.now 2 mutator.new }
{
    mutator.begin();
    let made = make_all(rt, heap, mutator, hints, RECORDS);
    mutator.end();
    made
}

/// Comes in and goes out again and again, and is over. It gives how many records it made.
fn come_and_go<R: Wait>(
    rt: &R,
    heap: &CellHeap<NoRule>,
    seat: MutSeat<NoRule>,
    queue: &FreeQueue,
    pass: HintPass,
) -> (MutSeat<NoRule>, u32)
    requires out { IsOut heap.now 2 seat }
    requires pass { IsHintPass queue.now pass }
    ensures over { IsOver heap.now result.0 }
{
    let mut hints = queue.hints(pass);
    let mut mutator = Mutator::new(heap, seat);
    let mut made = 0u32;
    for _ in 0..ROUNDS {
        made = made.saturating_add(stay(rt, heap, &mut mutator, &mut hints));
    }
    (mutator.finish(), made)
}

/// Two mutators come and go, each on a thread of its own.
fn both_come_and_go<R: Threads + Wait + Sync>(
    rt: &R,
    heap: &CellHeap<NoRule>,
    first: MutSeat<NoRule>,
    second: MutSeat<NoRule>,
    queue: &FreeQueue,
    pass: HintPass,
    other: HintPass,
) -> ((MutSeat<NoRule>, u32), (MutSeat<NoRule>, u32))
    requires first { IsOut heap.now 2 first }
    requires second { IsOut heap.now 2 second }
    requires pass { IsHintPass queue.now pass }
    requires other { IsHintPass queue.now other }
    ensures first { IsOver heap.now result.0.0 }
    ensures second { IsOver heap.now result.1.0 }
{
    thread::join(
        rt,
        move ||
            requires { IsOut heap.now 2 first × IsHintPass queue.now pass }
            ensures { IsOver heap.entry.now result.0 }
        { come_and_go(rt, heap, first, queue, pass) },
        move ||
            requires { IsOut heap.now 2 second × IsHintPass queue.now other }
            ensures { IsOver heap.entry.now result.0 }
        { come_and_go(rt, heap, second, queue, other) },
    )
}

/// The outcome of a run: how many records were made and how many cells were freed.
type Counts = (u64, u64);

/// The collector goes on duty and serves alongside both, whose seats are joined then.
fn serve_beside<R: Threads + Wait + Sync>(
    rt: &R,
    heap: &CellHeap<NoRule>,
    collector: ColSeat<NoRule>,
    first: MutSeat<NoRule>,
    second: MutSeat<NoRule>,
    stack: MarkStack,
    hints: (FreeQueue, HintPass, HintPass, HintPass),
    service: Service,
) -> (ColSeat<NoRule>, Counts)
    requires idle { IsIdle heap.now collector }
    requires first { IsOut heap.now 2 first }
    requires second { IsOut heap.now 2 second }
    requires passes { IsHintPass hints.0 hints.1 × IsHintPass hints.0 hints.2
        × IsHintPass hints.0 hints.3 }
    requires cells { hinted_of hints.0 ≡ heap.now.shape.cells }
    requires cycles { service.cycles ≤ greatest_cycles }
    ensures seat { IsSeatOf heap.now result.0 }
{
    let (queue, own, pass, other) = hints;
    let queue = &queue;
    let mut collector = collector;
    collector.duty(heap, true);
    let ((seat, freed), ((first, some), (second, others))) = thread::join(
        rt,
        move ||
            requires { IsIdle heap.now collector × IsHintPass queue.now own
                × (service.cycles ≤ greatest_cycles)
                × (hinted_of queue.now ≡ heap.now.shape.cells) }
            ensures { IsSeatOf heap.entry.now result.0 }
        { serve(rt, heap, collector, stack, queue, own, service) },
        move ||
            requires { IsOut heap.now 2 first × IsOut heap.now 2 second
                × IsHintPass queue.now pass × IsHintPass queue.now other }
            ensures { IsOver heap.entry.now result.0.0 × IsOver heap.entry.now result.1.0 }
        { both_come_and_go(rt, heap, first, second, queue, pass, other) },
    );
    let mut seat = seat;
    seat.join(heap, first);
    seat.join(heap, second);
    let made = u64::from(some).saturating_add(u64::from(others));
    (seat, (made, freed))
}

/// Hints of all cells but the anchor, for three threads.
fn open_three_hints<R: Wait>(
    alloc: Global,
    rt: &R,
) -> Result<(FreeQueue, HintPass, HintPass, HintPass), NoMemory>
    ensures passes { IfOk result (λ made. IsHintPass made.0 made.1 × IsHintPass made.0 made.2
        × IsHintPass made.0 made.3) }
    ensures cells { IfOk result (λ made. hinted_of made.0 ≡ 64) }
{
    let (queue, mut pass, other) = open_hints(alloc, rt, CELLS, 1)?;
    let third = queue.split(&mut pass)?;
    Ok((queue, pass, other, third))
}

/// Alongside the two the third stays out and is over after them, and the last one has no seat. How
/// many cycles there were, whether the collector is on duty, and whether as many cells are in use
/// as were made and not freed.
fn beside_some_who_stay_out<R: Threads + Wait + Sync>(
    alloc: Global,
    rt: &R,
) -> Result<(u32, bool, bool), NoMemory> {
    let stack = MarkStack::with_room(alloc, 8)?;
    let hints = open_three_hints(alloc, rt)?;
    let Opened {
        heap,
        collector,
        first,
        second,
        third,
    } = open_four(alloc)?;
    let (seat, (made, freed)) = serve_beside(
        rt, &heap, collector, first, second, stack, hints, SOME,
    );
    let third = leave(&heap, third);
    let image = close(heap, seat, third);
    let free = freed.saturating_add(u64::from(CELLS - 1));
    let same = made.saturating_add(u64::from(blue_cells(&image))) == free;
    Ok((image.control().cycles, image.control().duty, same))
}

#[test]
fn cycles_go_on_beside_mutators_that_stay_out(rt: HostRuntime) -> Result<(), Fail> {
    assert_eq!(rt;
        beside_some_who_stay_out(rt.alloc(), &rt)?,
        (60, false, true)
    );
    Ok(())
}

/// The same where the third and the last are over from the beginning, so that the service ends by
/// itself: whether all that was made was freed, and how many cells are blue then.
fn beside_some_who_are_over<R: Threads + Wait + Sync>(
    alloc: Global,
    rt: &R,
) -> Result<(bool, u32), NoMemory> {
    let stack = MarkStack::with_room(alloc, 8)?;
    let hints = open_three_hints(alloc, rt)?;
    let Opened {
        heap,
        mut collector,
        first,
        second,
        third,
    } = open_four(alloc)?;
    let last = collector.split(alloc, &heap, 3, 1)?;
    let third = leave(&heap, third);
    let last = leave(&heap, last);
    let (mut seat, (made, freed)) = serve_beside(
        rt, &heap, collector, first, second, stack, hints, UNBROKEN,
    );
    seat.join(&heap, last);
    let image = close(heap, seat, third);
    Ok((made == freed, blue_cells(&image)))
}

#[test]
fn all_that_those_made_who_came_and_went_is_freed(rt: HostRuntime) -> Result<(), Fail> {
    assert_eq!(rt;
        beside_some_who_are_over(rt.alloc(), &rt)?,
        (true, CELLS - 1)
    );
    Ok(())
}
