//! Any number of mutators on a heap of any rule, each with a thread of its own, and the collector
//! alongside them: how the heap opens, how they run, and how it closes.
//!
//! The layer above may rely on this: after `open` each worker's seat is new, its pass is the one
//! that the rule opens with, and the collector has made no event. `run_workers` calls one closure
//! for each worker, with the number of its mutator, and tells what each call returned. After
//! `close` the passes of the rule are those that the workers left, in their order, and the
//! collector has served: alongside them, or after the joins if it got no thread.
//!
//! Each of these stands on a part that can be called alone: `run_each` calls a closure for each
//! element of any list; `run_alongside` does work of another form; `close_joined` closes a heap
//! whose seats are joined already.
//!
//! The caller decides what the boxes mean, what a mutator does and what the closed heap shows.
//!
//! Reading order: `worker`, specs/Mutators, `opening`; specs/Each, `each`, `running`;
//! specs/Closing, `closing`.
#![tactic(auto)]

mod closing;
mod each;
mod opening;
mod running;
mod worker;

pub use closing::{Closed, close, close_joined};
pub use each::run_each;
pub use opening::{Opened, open};
pub use running::{OffDuty, run_alongside, run_workers};
pub use worker::Worker;
