//! Waits of real length, for a thread that can only get on when another one does.
//!
//! What a loop of the processor's `pause` takes differs by a factor of ten between processors, and
//! next to nothing remains of it where the pause is no instruction. So a wait is made of additions
//! to a word of the thread's own, some 8 nanoseconds each everywhere. It comes in pieces of some 4
//! microseconds, so that whoever waits can answer a handshake after each.
//!
//! No contract speaks of time: that a piece takes as long as it should is tested (device_tests).
//!
//! Reading order: `pieces`, `backoff`.
#![tactic(auto)]

mod backoff;
mod pieces;

pub use backoff::Backoff;
pub use pieces::{offer, wait, wait_piece};
