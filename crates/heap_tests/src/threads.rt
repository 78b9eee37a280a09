//! Threads that share a queue. What is asserted stands on every schedule.
ghost use Rattle.free_cells.specs.Passes.{IsHintPass};

use free_cells::{FreeQueue, HintPass};
use std::sync::Wait;
use std::test::Fail;
use std::thread;

const ROUNDS: u32 = 500;

/// Takes a number and puts it back, again and again. A number that is taken leaves room for itself,
/// so each comes back.
fn take_and_put<R: Wait>(rt: &R, queue: &FreeQueue, pass: HintPass) -> (HintPass, bool)
    requires { IsHintPass queue.now pass }
    ensures { IsHintPass queue.now result.0 }
{
    let mut hints = queue.hints(pass);
    let mut all_back = true;
    for _ in 0..ROUNDS {
        if let Some(cell) = hints.take(rt) {
            all_back = hints.put(rt, cell) && all_back;
        }
    }
    (hints.into_pass(), all_back)
}

#[test]
fn no_hint_is_lost_between_two_threads(rt: HostRuntime) -> Result<(), Fail> {
    let (queue, mut first) = FreeQueue::open(rt.alloc(), &rt, 2, 0)?;
    let second = queue.split(&mut first)?;
    let shared = &queue;
    let ((pass, back), (_, other_back)) = thread::join(
        &rt,
        move ||
            requires { IsHintPass shared.now first }
            ensures { IsHintPass shared.entry.now result.0 }
        { take_and_put(&rt, shared, first) },
        move ||
            requires { IsHintPass shared.now second }
            ensures { IsHintPass shared.entry.now result.0 }
        { take_and_put(&rt, shared, second) },
    );
    assert!(rt; back && other_back);
    let mut hints = queue.hints(pass);
    let found = (hints.take(&rt), hints.take(&rt), hints.take(&rt));
    let in_order = found == (Some(0), Some(1), None);
    assert!(rt; in_order || found == (Some(1), Some(0), None));
    Ok(())
}
