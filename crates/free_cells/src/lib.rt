//! Numbers of cells that may be free, in one queue that all threads share without a lock.
//!
//! Whoever frees a cell puts its number, and whoever wants a cell takes one. A number is a hint:
//! the cell may be used by then, and a free cell may have no hint. Only a claim gets a cell, so
//! nothing rests on a hint but that it is in range. Each thread counts its own pushes and pops, and
//! its calls, so that contracts above can say that a call went to the queue. As long as one pass is
//! the only one it knows the numbers too, and then the queue is first in, first out by contract.
//!
//! One thread, the collector's, may sleep until numbers are few. Nothing rests on that but time:
//! no contract says when it wakes, and no call of the others waits for it.
//!
//! Reading order: `counts`, `demand`, `queue`, `opening`, `hints`, `calls`.
#![tactic(auto)]

mod calls;
mod counts;
mod demand;
mod hints;
mod opening;
mod queue;

pub use counts::{Counts, HintPass};
pub use demand::Demand;
pub use hints::Hints;
pub use queue::FreeQueue;
pub use std::alloc::AllocError as NoMemory;
