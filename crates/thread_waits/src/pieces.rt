//! One piece of a wait.
use std::sync::atomic::{AtomicU64, Ordering};
use std::thread;

/// The additions of one piece: some 4 microseconds.
const ADDITIONS: u32 = 500;

/// After so many pieces the processor is offered to other threads.
const PIECES_AN_OFFER: u32 = 4;

/// Waits for some 4 microseconds, and keeps the processor.
pub fn wait() {
    let word = AtomicU64::new(0);
    for _addition in 0..ADDITIONS {
        let _before = word.fetch_add(1, Ordering::Relaxed);
    }
}

/// Lets other threads run on this processor, if some are ready to.
pub fn offer() {
    thread::yield_now();
}

/// One piece of a wait, of which so many have passed; after each fourth the processor is offered.
pub fn wait_piece(passed: u32) {
    wait();
    if passed % PIECES_AN_OFFER == PIECES_AN_OFFER - 1 {
        offer();
    }
}
