//! Where one thread sleeps while numbers are plenty, and is woken when they are few.
use std::sync::Wait;
use std::sync::atomic::{AtomicBool, AtomicU64, Ordering};

/// The word on which the sleeper sleeps has this value while nobody does, and the next one then.
const AWAKE: u64 = 0;

const ASLEEP: u64 = 1;

/// Whether somebody sleeps, and whether the work is over: from then on nobody takes numbers.
pub struct Demand {
    sleeper: AtomicU64,
    over: AtomicBool,
}

impl Drop for Demand {
    fn drop(self) {
        let Demand {
            sleeper: _,
            over: _,
        } = self;
    }
}

impl Demand {
    pub(crate) fn new() -> Demand {
        Demand {
            sleeper: AtomicU64::new(AWAKE),
            over: AtomicBool::new(false),
        }
    }

    /// The work is over: who sleeps goes on, and nobody sleeps any more.
    pub(crate) fn end(&self) {
        self.over.store(true, Ordering::SeqCst);
        self.wake();
    }

    pub(crate) fn is_over(&self) -> bool {
        self.over.load(Ordering::SeqCst)
    }

    pub(crate) fn is_asleep(&self) -> bool {
        self.sleeper.load(Ordering::SeqCst) == ASLEEP
    }

    /// Wakes the sleeper, if there is one.
    pub(crate) fn wake(&self) {
        if self.is_asleep() {
            self.sleeper.store(AWAKE, Ordering::SeqCst);
            self.sleeper.wake_one();
        }
    }

    /// From now on whoever finds numbers few wakes this thread.
    pub(crate) fn lie_down(&self) {
        self.sleeper.store(ASLEEP, Ordering::SeqCst);
    }

    /// Sleeps until it is woken, if it was not woken since it lay down.
    pub(crate) fn sleep<R: Wait>(&self, rt: &R) {
        self.sleeper.park(rt, ASLEEP as u32);
    }

    pub(crate) fn get_up(&self) {
        self.sleeper.store(AWAKE, Ordering::SeqCst);
    }
}
