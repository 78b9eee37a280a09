//! Two mutators on threads of their own that commit against each other, alongside a collector that
//! serves. What is asserted holds on every schedule.
ghost use Rattle.std.specs.Prelude.{◌≡◌, IfOk};
ghost use Rattle.free_cells.specs.Hints.{cells_of as hinted_of};
ghost use Rattle.free_cells.specs.Passes.{IsHintPass};
ghost use Rattle.heap_table.specs.Seats.{IsSeatOf};
ghost use Rattle.version_tests.specs.Grows.{IsNew, IsOver};
ghost use Rattle.version_tests.specs.Serves.{IsIdle};

use crate::bare::Store;
use crate::clients::{Client, Done, EACH, KEEP, run_both};
use crate::opening::{Served, open_served};
use crate::serving::{Chain, chain_of, close_two, serve_on};
use cell_heap::{CellHeap, ColSeat, NoMemory};
use collector::MarkStack;
use free_cells::{FreeQueue, HintPass};
use std::alloc::Global;
use std::sync::Wait;
use std::test::Fail;
use std::thread::{self, Threads};

/// Far fewer than the commits, so that cells are claimed again and again.
const CELLS: u32 = 2_000;

/// Whether these are all numbers from 1 on, each once, where each list rises.
fn are_all(first: &[u64], second: &[u64]) -> bool {
    let mut one = 0;
    let mut two = 0;
    for number in 1..=first.len() as u64 + second.len() as u64 {
        if one < first.len() && first[one] == number {
            one += 1;
        } else if two < second.len() && second[two] == number {
            two += 1;
        } else {
            return false;
        }
    }
    true
}

/// Hints of the cells of a store, for three threads.
fn open_hints<R: Wait>(
    alloc: Global,
    rt: &R,
) -> Result<(FreeQueue, HintPass, HintPass, HintPass), NoMemory>
    ensures pass { IfOk result (λ made. IsHintPass made.0 made.1) }
    ensures one { IfOk result (λ made. IsHintPass made.0 made.2) }
    ensures two { IfOk result (λ made. IsHintPass made.0 made.3) }
    ensures cells { IfOk result (λ made. hinted_of made.0 ≡ CELLS) }
{
    let (queue, mut pass) = FreeQueue::open(alloc, rt, CELLS, 3)?;
    let one = queue.split(&mut pass)?;
    let two = queue.split(&mut pass)?;
    Ok((queue, pass, one, two))
}

/// The collector serves on duty, alongside both clients.
fn run_all<R: Threads + Wait + Sync>(
    rt: &R,
    heap: &CellHeap<Store>,
    collector: ColSeat<Store>,
    stack: MarkStack,
    queue: &FreeQueue,
    pass: HintPass,
    first: Client,
    second: Client,
) -> (ColSeat<Store>, Done, Done)
    requires idle { IsIdle heap.now collector }
    requires pass { IsHintPass queue.now pass }
    requires cells { hinted_of queue.now ≡ heap.now.shape.cells }
    requires first { IsNew heap.now KEEP first.seat × IsHintPass queue.now first.pass }
    requires second { IsNew heap.now KEEP second.seat × IsHintPass queue.now second.pass }
    ensures seat { IsSeatOf heap.now result.0 }
    ensures first { IsOver heap.now result.1.seat }
    ensures second { IsOver heap.now result.2.seat }
{
    let mut collector = collector;
    collector.duty(heap, true);
    let ((collector, _), (one, two)) = thread::join(
        rt,
        move ||
            requires { IsIdle heap.now collector × IsHintPass queue.now pass
                × (hinted_of queue.now ≡ heap.now.shape.cells) }
            ensures { IsSeatOf heap.entry.now result.0 }
        { serve_on(rt, heap, collector, stack, queue, pass) },
        move || -> (Done, Done)
            requires { IsNew heap.now KEEP first.seat × IsHintPass queue.now first.pass
                × IsNew heap.now KEEP second.seat × IsHintPass queue.now second.pass }
            ensures { IsOver heap.entry.now result.0.seat
                × IsOver heap.entry.now result.1.seat }
        { run_both(rt, heap, queue, first, second) },
    );
    (collector, one, two)
}

/// Joins all seats, closes the heap, and gives how many numbers each made, whether these are all,
/// and the chain that is left.
fn close_all(
    heap: CellHeap<Store>,
    collector: ColSeat<Store>,
    one: Done,
    two: Done,
) -> ((usize, usize), bool, Chain)
    requires collector { IsSeatOf heap collector }
    requires one { IsOver heap one.seat }
    requires two { IsOver heap two.seat }
{
    let many = (one.numbers.len(), two.numbers.len());
    let all = are_all(one.numbers.as_slice(), two.numbers.as_slice());
    let image = close_two(heap, collector, one.seat, two.seat);
    (many, all, chain_of(&image))
}

/// The result of a whole run.
fn committed<R: Threads + Wait + Sync>(
    alloc: Global,
    rt: &R,
) -> Result<((usize, usize), bool, Chain), NoMemory> {
    let stack = MarkStack::with_room(alloc, 64)?;
    let numbers = Vec::with_capacity(alloc, EACH)?;
    let others = Vec::with_capacity(alloc, EACH)?;
    let (queue, pass, one, two) = open_hints(alloc, rt)?;
    let Served {
        heap,
        collector,
        first,
        second,
    } = open_served(alloc, CELLS, KEEP)?;
    let first = Client {
        seat: first,
        pass: one,
        numbers,
    };
    let second = Client {
        seat: second,
        pass: two,
        numbers: others,
    };
    let (collector, one, two) = run_all(rt, &heap, collector, stack, &queue, pass, first, second);
    Ok(close_all(heap, collector, one, two))
}

#[test]
fn each_number_is_made_once_and_the_chain_is_kept(rt: HostRuntime) -> Result<(), Fail> {
    let kept = Chain {
        newest: Some(20_000),
        versions: 5,
    };
    assert_eq!(rt; committed(rt.alloc(), &rt)?, ((EACH, EACH), true, kept));
    Ok(())
}
