//! Demand that comes while the one who waits for it lies down. It is not missed on any schedule.
//!
//! Of one number, one thread waits until it is taken and puts it back, and the other takes it as
//! the first lies down: a little later or earlier in each round.
ghost use Rattle.free_cells.specs.Hints.{cells_of};
ghost use Rattle.free_cells.specs.Passes.{IsHintPass};
ghost use Rattle.std.specs.Prelude.{◌<◌};

use free_cells::{FreeQueue, HintPass, Hints};
use std::alloc::{AllocError as NoMemory, Global};
use std::sync::Wait;
use std::sync::atomic::{AtomicU32, Ordering};
use std::test::Fail;
use std::thread::{self, Threads};
use std::time::{Clock, Duration};

const ROUNDS: u32 = 500;

/// How often two threads are made for so many rounds. Whether demand is missed where a look is left
/// out depends on where they run.
const PAIRS: u32 = 20;

/// How often is looked without a pause whether a thread has reached a round.
const TURNS: u32 = 2_000;

/// And how often then, with a millisecond between two looks.
const LOOKS: u32 = 5_000;

/// Works on the word, each time a little longer, up to twenty steps.
fn linger(word: &AtomicU32, round: u32) {
    for _ in 0..round % 20 {
        word.fetch_add(1, Ordering::SeqCst);
    }
}

/// Whether the word says that the other thread has come past this round.
fn meets<R: Clock>(rt: &R, other: &AtomicU32, round: u32) -> bool {
    for _ in 0..TURNS {
        if other.load(Ordering::SeqCst) > round {
            return true;
        }
    }
    meets_late(rt, other, round)
}

fn meets_late<R: Clock>(rt: &R, other: &AtomicU32, round: u32) -> bool {
    for _ in 0..LOOKS {
        if other.load(Ordering::SeqCst) > round {
            return true;
        }
        thread::sleep(rt, Duration::from_millis(1));
    }
    false
}

/// Waits for demand and puts the number back, again and again. The words show how many rounds are
/// begun and ended.
fn wait_and_put<R: Wait>(
    rt: &R,
    queue: &FreeQueue,
    pass: HintPass,
    begun: &AtomicU32,
    ended: &AtomicU32,
)
    requires pass { IsHintPass queue.now pass }
    requires one { 0 < cells_of queue.now }
{
    let own = AtomicU32::new(0);
    let mut hints = queue.hints(pass);
    for round in 0..ROUNDS {
        begun.fetch_add(1, Ordering::SeqCst);
        linger(&own, round);
        hints.await_demand(rt);
        let _ = hints.put(rt, 0);
        ended.fetch_add(1, Ordering::SeqCst);
    }
}

/// Takes the number in each round. It gives in how many rounds the other thread went on.
fn take_each<R: Wait + Clock>(
    rt: &R,
    queue: &FreeQueue,
    pass: HintPass,
    begun: &AtomicU32,
    ended: &AtomicU32,
) -> u32
    requires { IsHintPass queue.now pass }
{
    let mut hints = queue.hints(pass);
    for round in 0..ROUNDS {
        let _ = meets(rt, begun, round);
        hints.tell_demand(rt);
        let _ = hints.take(rt);
        hints.tell_demand(rt);
        if !meets(rt, ended, round) {
            queue.end_work();
            return round;
        }
    }
    ROUNDS
}

fn rounds<R: Threads + Wait + Clock + Sync>(alloc: Global, rt: &R) -> Result<u32, NoMemory> {
    let (queue, mut first) = FreeQueue::open(alloc, rt, 1, 0)?;
    let second = queue.split(&mut first)?;
    let (one, other) = (AtomicU32::new(0), AtomicU32::new(0));
    let (shared, begun, ended) = (&queue, &one, &other);
    let (_, seen) = thread::join(
        rt,
        move ||
            requires { IsHintPass shared.now first × (0 < cells_of shared.now) }
        { wait_and_put(rt, shared, first, begun, ended) },
        move || -> u32
            requires { IsHintPass shared.now second }
        { take_each(rt, shared, second, begun, ended) },
    );
    Ok(seen)
}

/// In how many rounds the first pair went on that did not in all.
fn fewest<R: Threads + Wait + Clock + Sync>(alloc: Global, rt: &R) -> Result<u32, NoMemory> {
    for _ in 0..PAIRS {
        let went_on = rounds(alloc, rt)?;
        if went_on != ROUNDS {
            return Ok(went_on);
        }
    }
    Ok(ROUNDS)
}

#[test]
fn demand_is_not_missed_by_one_who_lies_down(rt: HostRuntime) -> Result<(), Fail> {
    assert_eq!(rt; fewest(rt.alloc(), &rt)?, ROUNDS);
    Ok(())
}
