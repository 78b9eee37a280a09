//! One thread that sleeps until numbers are few. What is asserted stands on every schedule. Where
//! the sleeper is not woken within a bound it is woken in another way, and the row says `Late`.
ghost use Rattle.free_cells.specs.Passes.{IsHintPass};

use free_cells::{FreeQueue, HintPass, Hints};
use std::alloc::{AllocError as NoMemory, Global};
use std::sync::Wait;
use std::sync::atomic::{AtomicBool, Ordering};
use std::test::Fail;
use std::thread::{self, Threads};
use std::time::{Clock, Duration};

/// How often is looked whether the sleeper goes on, with a millisecond between two looks.
const LOOKS: u32 = 5_000;

/// For how many milliseconds nothing is done that could wake it.
const QUIET: u64 = 20;

/// What becomes of who waits for demand.
#[derive(Clone, Copy, Debug, PartialEq, Eq)]
enum Rise {
    /// it went on while numbers were plenty
    Sleepless,
    /// it slept then, and was not woken in time by what followed
    Late,
    /// it slept then, and was woken
    Woken,
}

/// What is done while it sleeps and three of ten numbers are left.
#[derive(Clone, Copy)]
enum Waking {
    /// one more is taken, and then somebody looks whether numbers are few
    Look,
    /// all are taken, and one more is wanted
    InVain,
    /// the work is over
    End,
}

/// Whether the sleeper goes on.
fn goes_on<R: Clock>(rt: &R, up: &AtomicBool) -> bool {
    for _ in 0..LOOKS {
        if up.load(Ordering::SeqCst) {
            return true;
        }
        thread::sleep(rt, Duration::from_millis(1));
    }
    false
}

/// Takes so many numbers.
fn take_all<R: Wait>(rt: &R, hints: &mut Hints<'_>, count: u32) {
    for _ in 0..count {
        let _ = hints.take(rt);
    }
}

/// Does what should wake the sleeper.
fn wake<R: Wait>(rt: &R, queue: &FreeQueue, hints: &mut Hints<'_>, waking: Waking) {
    match waking {
        Waking::Look => {
            take_all(rt, hints, 1);
            hints.tell_demand(rt);
        }
        Waking::InVain => take_all(rt, hints, 4),
        Waking::End => queue.end_work(),
    }
}

/// Leaves three of ten numbers, which are not few, and then wakes the sleeper.
fn watch<R: Wait + Clock>(
    rt: &R,
    queue: &FreeQueue,
    pass: HintPass,
    up: &AtomicBool,
    waking: Waking,
) -> Rise
    requires { IsHintPass queue.now pass }
{
    let mut hints = queue.hints(pass);
    take_all(rt, &mut hints, 7);
    thread::sleep(rt, Duration::from_millis(QUIET));
    hints.tell_demand(rt);
    thread::sleep(rt, Duration::from_millis(QUIET));
    if up.load(Ordering::SeqCst) {
        return Rise::Sleepless;
    }
    wake(rt, queue, &mut hints, waking);
    if goes_on(rt, up) {
        return Rise::Woken;
    }
    queue.end_work();
    take_all(rt, &mut hints, 4);
    Rise::Late
}

/// Waits for demand, and shows when it goes on.
fn sleep<R: Wait>(rt: &R, queue: &FreeQueue, pass: HintPass, up: &AtomicBool)
    requires { IsHintPass queue.now pass }
{
    let mut hints = queue.hints(pass);
    hints.await_demand(rt);
    up.store(true, Ordering::SeqCst);
}

/// What becomes of one who waits for demand on a thread of its own.
fn sleeper<R: Threads + Wait + Clock + Sync>(
    alloc: Global,
    rt: &R,
    waking: Waking,
) -> Result<Rise, NoMemory> {
    let (queue, mut first) = FreeQueue::open(alloc, rt, 10, 0)?;
    let second = queue.split(&mut first)?;
    let is_up = AtomicBool::new(false);
    let (shared, up) = (&queue, &is_up);
    let (_, seen) = thread::join(
        rt,
        move ||
            requires { IsHintPass shared.now first }
        { sleep(rt, shared, first, up) },
        move || -> Rise
            requires { IsHintPass shared.now second }
        { watch(rt, shared, second, up, waking) },
    );
    Ok(seen)
}

#[test]
fn one_who_waits_for_demand_sleeps_while_numbers_are_plenty(rt: HostRuntime) -> Result<(), Fail> {
    let seen = sleeper(rt.alloc(), &rt, Waking::End)?;
    assert!(rt; seen != Rise::Sleepless);
    Ok(())
}

#[test]
fn the_end_of_the_work_wakes_the_sleeper(rt: HostRuntime) -> Result<(), Fail> {
    assert_eq!(rt; sleeper(rt.alloc(), &rt, Waking::End)?, Rise::Woken);
    Ok(())
}

#[test]
fn who_looks_and_finds_numbers_few_wakes_the_sleeper(rt: HostRuntime) -> Result<(), Fail> {
    assert_eq!(rt; sleeper(rt.alloc(), &rt, Waking::Look)?, Rise::Woken);
    Ok(())
}

#[test]
fn who_takes_in_vain_wakes_the_sleeper(rt: HostRuntime) -> Result<(), Fail> {
    assert_eq!(rt; sleeper(rt.alloc(), &rt, Waking::InVain)?, Rise::Woken);
    Ok(())
}
