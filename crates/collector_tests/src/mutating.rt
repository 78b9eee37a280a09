//! What a mutator does in these tests.
ghost use Rattle.std.specs.Prelude.{◌≡◌, ◌<◌, ◌≤◌, ◌+◌};
ghost use Rattle.collector_tests.specs.Holding.{Holds, HoldsOne};
ghost use Rattle.collector_tests.specs.Seats.{IsOut, IsOver};
ghost use Rattle.free_cells.specs.Passes.{IsHintPass};

use cell_heap::{CellHeap, MutSeat};
use free_cells::{FreeQueue, HintPass, Hints};
use heap_rule::NoRule;
use mutator_seat::{HeapFull, Mutator};
use std::sync::Wait;

/// Is over without having come in.
pub(crate) fn leave(heap: &CellHeap<NoRule>, seat: MutSeat<NoRule>) -> MutSeat<NoRule>
    requires out { IsOut heap.now 1 seat }
    ensures over { IsOver heap.now result }
{
    Mutator::new(heap, seat).finish()
}

/// Comes in, so many times makes a record and drops it, and is over. It gives how often it got a
/// cell.
pub(crate) fn make_and_drop<R: Wait>(
    rt: &R,
    heap: &CellHeap<NoRule>,
    seat: MutSeat<NoRule>,
    queue: &FreeQueue,
    pass: HintPass,
    times: u32,
) -> (MutSeat<NoRule>, u32)
    requires out { IsOut heap.now 2 seat }
    requires pass { IsHintPass queue.now pass }
    ensures over { IsOver heap.now result.0 }
{
    let mut hints = queue.hints(pass);
    let mut mutator = Mutator::new(heap, seat);
    mutator.begin();
    let made = make_all(rt, heap, &mut mutator, &mut hints, times);
    mutator.end();
    (mutator.finish(), made)
}

/// Comes in, makes a record with this hint, and is over.
pub(crate) fn make_hinted<R: Wait>(
    rt: &R,
    heap: &CellHeap<NoRule>,
    seat: MutSeat<NoRule>,
    queue: &FreeQueue,
    pass: HintPass,
    hint: Option<u32>,
) -> MutSeat<NoRule>
    requires out { IsOut heap.now 2 seat }
    requires pass { IsHintPass queue.now pass }
    ensures over { IsOver heap.now result }
{
    let mut hints = queue.hints(pass);
    let mut mutator = Mutator::new(heap, seat);
    mutator.begin();
    let _ = make_one(rt, heap, &mut mutator, &mut hints, hint);
    mutator.end();
    mutator.finish()
}

/// Makes a record and drops it, so many times.
pub(crate) fn make_all<R: Wait>(
    rt: &R,
    heap: &CellHeap<NoRule>,
    mutator: &mut Mutator<'_, NoRule>,
    hints: &mut Hints<'_>,
    times: u32,
) -> u32
    requires one { HoldsOne heap.now mutator.old }
    ensures one { HoldsOne heap.now mutator.new }
{
    let mut made = 0;
    for _ in 0..times {
        let hint = hints.take(rt);
        made += make_one(rt, heap, mutator, hints, hint);
    }
    made
}

/// Makes a record, of the hint's cell if that is free, and drops it. It gives how many cells it
/// got: one, or none.
fn make_one<R: Wait>(
    rt: &R,
    heap: &CellHeap<NoRule>,
    mutator: &mut Mutator<'_, NoRule>,
    hints: &mut Hints<'_>,
    hint: Option<u32>,
) -> u32
    requires one { HoldsOne heap.now mutator.old }
    ensures one { HoldsOne heap.now mutator.new }
    ensures few { result ≤ 1 }
{
    let _ = heap;
    match mutator.claim_hinted(rt, hints, hint) {
        Ok(place) => {
            mutator.seal_record(place);
            mutator.cut(1);
            1
        }
        Err(_) => 0,
    }
}

/// The outcome of claims until one was refused: how many cells were got, and the refusal.
#[derive(Clone, Copy)]
pub(crate) struct Claims {
    pub got: u32,
    pub full: Option<HeapFull>,
}

/// Comes in, claims until it is refused and keeps all, and is over.
pub(crate) fn claim_and_keep<R: Wait>(
    rt: &R,
    heap: &CellHeap<NoRule>,
    seat: MutSeat<NoRule>,
    queue: &FreeQueue,
    pass: HintPass,
) -> (MutSeat<NoRule>, Claims)
    requires out { IsOut heap.now 100 seat }
    requires pass { IsHintPass queue.now pass }
    ensures over { IsOver heap.now result.0 }
{
    let mut hints = queue.hints(pass);
    let mut mutator = Mutator::new(heap, seat);
    mutator.begin();
    let claims = claim_all(rt, heap, &mut mutator, &mut hints);
    mutator.end();
    (mutator.finish(), claims)
}

/// Claims until it is refused, ninety-nine times at most.
fn claim_all<R: Wait>(
    rt: &R,
    heap: &CellHeap<NoRule>,
    mutator: &mut Mutator<'_, NoRule>,
    hints: &mut Hints<'_>,
) -> Claims
    requires one { Holds heap.now 100 1 mutator.old }
    ensures many { Holds heap.now 100 (1 + result.got) mutator.new }
{
    for got in 0..99u32 {
        match mutator.claim(rt, hints) {
            Ok(_) => (),
            Err(full) => {
                return Claims {
                    got,
                    full: Some(full),
                };
            }
        }
    }
    Claims {
        got: 99,
        full: None,
    }
}
