//! Mutators on threads of their own, while a collector serves. What is asserted holds on every
//! schedule.
ghost use Rattle.std.specs.Prelude.{◌≡◌, ◌≤◌};
ghost use Rattle.collector_tests.specs.Seats.{IsIdle, IsOut, IsOver};
ghost use Rattle.core_machine.specs.State.{greatest_cycles};
ghost use Rattle.free_cells.specs.Hints.{cells_of as hinted_of};
ghost use Rattle.free_cells.specs.Passes.{IsHintPass};
ghost use Rattle.heap_table.specs.Seats.{IsSeatOf};

use crate::collecting::{Service, UNBROKEN, serve};
use crate::heaps::{blue_cells, close, close_two, open_hints, open_plain, open_two};
use crate::mutating::{Claims, claim_and_keep, make_and_drop};
use crate::watching::{End, QUIET, watch};
use cell_heap::{CellHeap, ColSeat, MutSeat, NoMemory};
use cell_words::GREATEST_CYCLES;
use collector::MarkStack;
use free_cells::{FreeQueue, HintPass, Hints};
use heap_rule::NoRule;
use mutator_seat::HeapFull;
use std::alloc::Global;
use std::sync::Wait;
use std::sync::atomic::{AtomicBool, Ordering};
use std::test::Fail;
use std::thread::{self, Threads};
use std::time::{Clock, Duration};

const CELLS: u32 = 64;

/// Makes a record and drops it, a thousand times, once the collector had time to fall asleep; then
/// the work is over.
fn drop_all<R: Wait + Clock>(
    rt: &R,
    heap: &CellHeap<NoRule>,
    mutator: MutSeat<NoRule>,
    queue: &FreeQueue,
    pass: HintPass,
    ended: &AtomicBool,
) -> (MutSeat<NoRule>, u32)
    requires out { IsOut heap.now 2 mutator }
    requires pass { IsHintPass queue.now pass }
    ensures over { IsOver heap.now result.0 }
{
    thread::sleep(rt, Duration::from_millis(QUIET));
    let made = make_and_drop(rt, heap, mutator, queue, pass, 1000);
    ended.store(true, Ordering::SeqCst);
    queue.end_work();
    made
}

/// The same, and when it ends, by one who watches it.
fn drop_watched<R: Threads + Wait + Clock + Sync>(
    rt: &R,
    heap: &CellHeap<NoRule>,
    mutator: MutSeat<NoRule>,
    queue: &FreeQueue,
    pass: HintPass,
    hints: Hints<'_>,
) -> ((MutSeat<NoRule>, u32), End)
    requires out { IsOut heap.now 2 mutator }
    requires pass { IsHintPass queue.now pass }
    ensures over { IsOver heap.now result.0.0 }
{
    let at_end = AtomicBool::new(false);
    let ended = &at_end;
    let mut hints = hints;
    thread::join(
        rt,
        move ||
            requires { IsOut heap.now 2 mutator × IsHintPass queue.now pass }
            ensures { IsOver heap.entry.now result.0 }
        { drop_all(rt, heap, mutator, queue, pass, ended) },
        move || -> End { watch(rt, queue, &mut hints, ended) },
    )
}

/// The collector serves on duty, unbroken or on demand, while a mutator a thousand times makes a
/// record and drops it.
fn drop_beside<R: Threads + Wait + Clock + Sync>(
    rt: &R,
    heap: &CellHeap<NoRule>,
    collector: ColSeat<NoRule>,
    stack: MarkStack,
    mutator: MutSeat<NoRule>,
    queue: &FreeQueue,
    pass: HintPass,
    other: HintPass,
    third: HintPass,
    on_demand: bool,
) -> ((ColSeat<NoRule>, u64), ((MutSeat<NoRule>, u32), End))
    requires idle { IsIdle heap.now collector }
    requires out { IsOut heap.now 2 mutator }
    requires pass { IsHintPass queue.now pass }
    requires other { IsHintPass queue.now other }
    requires third { IsHintPass queue.now third }
    requires cells { hinted_of queue.now ≡ heap.now.shape.cells }
    ensures seat { IsSeatOf heap.now result.0.0 }
    ensures over { IsOver heap.now result.1.0.0 }
{
    let service = Service {
        cycles: GREATEST_CYCLES,
        on_demand,
    };
    let mut collector = collector;
    collector.duty(heap, true);
    thread::join(
        rt,
        move ||
            requires { IsIdle heap.now collector × IsHintPass queue.now pass
                × (service.cycles ≤ greatest_cycles)
                × (hinted_of queue.now ≡ heap.now.shape.cells) }
            ensures { IsSeatOf heap.entry.now result.0 }
        { serve(rt, heap, collector, stack, queue, pass, service) },
        move ||
            requires { IsOut heap.now 2 mutator × IsHintPass queue.now other
                × IsHintPass queue.now third }
            ensures { IsOver heap.entry.now result.0.0 }
        { drop_watched(rt, heap, mutator, queue, other, queue.hints(third)) },
    )
}

/// How many records were made and how many cells freed; when the last one was made; and in the end,
/// how many cells are blue and whether the collector is on duty.
fn dropped<R: Threads + Wait + Clock + Sync>(
    alloc: Global,
    rt: &R,
    on_demand: bool,
) -> Result<((u32, u64), End, u32, bool), NoMemory> {
    let stack = MarkStack::with_room(alloc, 8)?;
    let (queue, mut pass, other) = open_hints(alloc, rt, CELLS, 1)?;
    let third = queue.split(&mut pass)?;
    let (heap, collector, mutator) = open_plain(alloc, CELLS, 2)?;
    let ((collector, freed), ((mutator, made), end)) = drop_beside(
        rt, &heap, collector, stack, mutator, &queue, pass, other, third, on_demand,
    );
    let image = close(heap, collector, mutator);
    Ok(((made, freed), end, blue_cells(&image), image.control().duty))
}

#[test]
fn what_a_mutator_drops_is_freed_beside_it(rt: HostRuntime) -> Result<(), Fail> {
    let wanted = ((1000, 1000), End::InTime, CELLS - 1, false);
    assert_eq!(rt; dropped(rt.alloc(), &rt, false)?, wanted);
    Ok(())
}

#[test]
fn one_who_claims_in_vain_wakes_the_collector_and_goes_on(rt: HostRuntime) -> Result<(), Fail> {
    let wanted = ((1000, 1000), End::InTime, CELLS - 1, false);
    assert_eq!(rt; dropped(rt.alloc(), &rt, true)?, wanted);
    Ok(())
}

/// The collector serves on duty, while a mutator claims until it is refused.
fn claim_beside<R: Threads + Wait + Sync>(
    rt: &R,
    heap: &CellHeap<NoRule>,
    collector: ColSeat<NoRule>,
    stack: MarkStack,
    mutator: MutSeat<NoRule>,
    queue: &FreeQueue,
    pass: HintPass,
    other: HintPass,
) -> ((ColSeat<NoRule>, u64), (MutSeat<NoRule>, Claims))
    requires idle { IsIdle heap.now collector }
    requires out { IsOut heap.now 100 mutator }
    requires pass { IsHintPass queue.now pass }
    requires other { IsHintPass queue.now other }
    requires cells { hinted_of queue.now ≡ heap.now.shape.cells }
    ensures seat { IsSeatOf heap.now result.0.0 }
    ensures over { IsOver heap.now result.1.0 }
{
    let mut collector = collector;
    collector.duty(heap, true);
    thread::join(
        rt,
        move ||
            requires { IsIdle heap.now collector × IsHintPass queue.now pass
                × (hinted_of queue.now ≡ heap.now.shape.cells) }
            ensures { IsSeatOf heap.entry.now result.0 }
        { serve(rt, heap, collector, stack, queue, pass, UNBROKEN) },
        move ||
            requires { IsOut heap.now 100 mutator × IsHintPass queue.now other }
            ensures { IsOver heap.entry.now result.0 }
        { claim_and_keep(rt, heap, mutator, queue, other) },
    )
}

/// Of the refusal: whether it found the collector off duty, and whether it came after two whole
/// cycles.
fn refusal(claims: Claims) -> Option<(bool, bool)> {
    let full = claims.full?;
    let behind = full.ended.checked_sub(full.began);
    Some((full.off_duty, behind.is_some_and(|cycles| cycles >= 2)))
}

/// The outcome of its claims, and how many cells are blue in the end.
fn filled<R: Threads + Wait + Sync>(alloc: Global, rt: &R) -> Result<(Claims, u32), NoMemory> {
    let stack = MarkStack::with_room(alloc, 8)?;
    let (queue, pass, other) = open_hints(alloc, rt, CELLS, 1)?;
    let (heap, collector, mutator) = open_plain(alloc, CELLS, 100)?;
    let ((collector, _), (mutator, claims)) = claim_beside(
        rt, &heap, collector, stack, mutator, &queue, pass, other,
    );
    Ok((claims, blue_cells(&close(heap, collector, mutator))))
}

#[test]
fn a_full_heap_is_refused_behind_two_whole_cycles(rt: HostRuntime) -> Result<(), Fail> {
    let (claims, blue) = filled(rt.alloc(), &rt)?;
    // All was dropped as the mutator left, and the last two cycles freed it.
    let wanted = (CELLS - 1, Some((false, true)), CELLS - 1);
    assert_eq!(rt; (claims.got, refusal(claims), blue), wanted);
    Ok(())
}

/// Two mutators claim until they are refused, concurrently.
fn claim_both<R: Threads + Wait + Sync>(
    rt: &R,
    heap: &CellHeap<NoRule>,
    first: MutSeat<NoRule>,
    second: MutSeat<NoRule>,
    queue: &FreeQueue,
    pass: HintPass,
    other: HintPass,
) -> ((MutSeat<NoRule>, Claims), (MutSeat<NoRule>, Claims))
    requires first { IsOut heap.now 100 first }
    requires second { IsOut heap.now 100 second }
    requires pass { IsHintPass queue.now pass }
    requires other { IsHintPass queue.now other }
    ensures first { IsOver heap.now result.0.0 }
    ensures second { IsOver heap.now result.1.0 }
{
    thread::join(
        rt,
        move ||
            requires { IsOut heap.now 100 first × IsHintPass queue.now pass }
            ensures { IsOver heap.entry.now result.0 }
        { claim_and_keep(rt, heap, first, queue, pass) },
        move ||
            requires { IsOut heap.now 100 second × IsHintPass queue.now other }
            ensures { IsOver heap.entry.now result.0 }
        { claim_and_keep(rt, heap, second, queue, other) },
    )
}

/// The outcome of the claims of both, and how many cells are blue in the end.
fn shared<R: Threads + Wait + Sync>(
    alloc: Global,
    rt: &R,
) -> Result<(Claims, Claims, u32), NoMemory> {
    let (queue, pass, other) = open_hints(alloc, rt, CELLS, 3)?;
    let (heap, collector, first, second) = open_two(alloc, 100)?;
    let ((first, some), (second, others)) = claim_both(
        rt, &heap, first, second, &queue, pass, other,
    );
    let image = close_two(heap, collector, first, second);
    Ok((some, others, blue_cells(&image)))
}

#[test]
fn two_mutators_share_the_cells_of_a_heap(rt: HostRuntime) -> Result<(), Fail> {
    let (some, others, blue) = shared(rt.alloc(), &rt)?;
    let full = Some(HeapFull {
        off_duty: true,
        began: 0,
        ended: 0,
    });
    // 61 cells were free, and none is now: so 61 claims got each of them once.
    let got = some.got.checked_add(others.got);
    assert_eq!(rt;
        (some.full, others.full, got, blue),
        (full, full, Some(61), 0)
    );
    Ok(())
}
