ghost use Rattle.free_cells.specs.Hints.{cells_of, queue_of};
ghost use Rattle.free_cells.specs.Passes.{IsHintPass};
ghost use Rattle.std.specs.Prelude.{◌<◌};

use free_cells::{FreeQueue, HintPass, Hints};
use std::alloc::{AllocError as NoMemory, Global};
use std::sync::Wait;
use std::test::Fail;

/// Three that are taken, four that are put, and one that is then taken; and how many numbers there
/// are before, between and after these.
#[derive(Clone, Copy, Debug, PartialEq, Eq)]
struct InOrder {
    first: usize,
    taken: [Option<u32>; 3],
    none: usize,
    put: [bool; 4],
    all: usize,
    then: Option<u32>,
    last: usize,
}

fn take_put_and_take<R: Wait>(rt: &R, mut hints: Hints<'_>) -> InOrder
    requires { 2 < cells_of (queue_of hints) }
{
    InOrder {
        first: hints.len(rt),
        taken: [hints.take(rt), hints.take(rt), hints.take(rt)],
        none: hints.len(rt),
        put: [
            hints.put(rt, 0),
            hints.put(rt, 0),
            hints.put(rt, 2),
            hints.put(rt, 1),
        ],
        all: hints.len(rt),
        then: hints.take(rt),
        last: hints.len(rt),
    }
}

fn in_order<R: Wait>(alloc: Global, rt: &R) -> Result<InOrder, NoMemory> {
    let (queue, pass) = FreeQueue::open(alloc, rt, 3, 1)?;
    Ok(take_put_and_take(rt, queue.hints(pass)))
}

#[test]
fn hints_come_in_order_and_are_put_at_the_back(rt: HostRuntime) -> Result<(), Fail> {
    let wanted = InOrder {
        first: 2,
        taken: [Some(1), Some(2), None],
        none: 0,
        put: [true, true, true, false],
        all: 3,
        then: Some(0),
        last: 2,
    };
    assert_eq!(rt; in_order(rt.alloc(), &rt)?, wanted);
    Ok(())
}

/// What one pass takes, another puts, the first takes again, twice, and the other takes.
#[derive(Clone, Copy, Debug, PartialEq, Eq)]
struct ByTwo {
    taken: Option<u32>,
    put: [bool; 2],
    again: [Option<u32>; 2],
    by_other: Option<u32>,
}

fn take_by_two<R: Wait>(rt: &R, queue: &FreeQueue, first: HintPass, second: HintPass) -> ByTwo
    requires first { IsHintPass queue.now first }
    requires second { IsHintPass queue.now second }
    requires cells { 1 < cells_of queue.now }
{
    let mut taker = queue.hints(first);
    let mut putter = queue.hints(second);
    let taken = taker.take(rt);
    let put = [putter.put(rt, 0), putter.put(rt, 1)];
    let mut again = queue.hints(taker.into_pass());
    ByTwo {
        taken,
        put,
        again: [again.take(rt), again.take(rt)],
        by_other: putter.take(rt),
    }
}

fn by_two<R: Wait>(alloc: Global, rt: &R) -> Result<ByTwo, NoMemory> {
    let (queue, mut first) = FreeQueue::open(alloc, rt, 2, 0)?;
    let second = queue.split(&mut first)?;
    Ok(take_by_two(rt, &queue, first, second))
}

#[test]
fn two_passes_use_one_queue(rt: HostRuntime) -> Result<(), Fail> {
    let wanted = ByTwo {
        taken: Some(0),
        put: [true, false],
        again: [Some(1), Some(0)],
        by_other: None,
    };
    assert_eq!(rt; by_two(rt.alloc(), &rt)?, wanted);
    Ok(())
}
