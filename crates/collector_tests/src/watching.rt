//! Whether a thread ends. One that waits for demand in vain is woken after a bound, so that each
//! row ends, and says `Late`.
use free_cells::{FreeQueue, Hints};
use std::sync::Wait;
use std::sync::atomic::{AtomicBool, Ordering};
use std::thread;
use std::time::{Clock, Duration};

/// How often is looked for what another thread does, with a millisecond between two looks.
pub(crate) const LOOKS: u32 = 5_000;

/// For how many milliseconds nobody wants a cell: time enough to fall asleep.
pub(crate) const QUIET: u64 = 20;

/// More numbers than any queue of these tests holds.
const MANY: u32 = 100;

/// When a thread ended.
#[derive(Clone, Copy, Debug, PartialEq, Eq)]
pub(crate) enum End {
    /// before it was time
    Early,
    /// when it was time, and nothing else woke it
    InTime,
    /// not before it was woken
    Late,
}

/// Whether the word is set within the bound.
pub(crate) fn is_set<R: Clock>(rt: &R, word: &AtomicBool) -> bool {
    for _ in 0..LOOKS {
        if word.load(Ordering::SeqCst) {
            return true;
        }
        thread::sleep(rt, Duration::from_millis(1));
    }
    false
}

/// Wakes who waits for demand, in each way that there is.
fn wake<R: Wait>(rt: &R, queue: &FreeQueue, hints: &mut Hints<'_>) {
    queue.end_work();
    for _ in 0..MANY {
        let _ = hints.take(rt);
    }
}

/// When a thread ends that sets this word there.
pub(crate) fn watch<R: Wait + Clock>(
    rt: &R,
    queue: &FreeQueue,
    hints: &mut Hints<'_>,
    ended: &AtomicBool,
) -> End {
    if is_set(rt, ended) {
        return End::InTime;
    }
    wake(rt, queue, hints);
    End::Late
}
