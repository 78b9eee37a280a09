//! The core of the collector: the core machine with what holds in every state of every run.
//!
//! `Core` is the machine of core_machine in a type that keeps the invariant, so its calls ask
//! no condition of the state. `apply` takes one event, `run` a list of them, and each state that
//! they pass is safe: no reachable cell is free. What is garbage when a cycle begins has been
//! freed when the next one ends. `finish_cycle` takes a whole cycle where nobody is in, within a
//! bound on its events. `theorems` has what holds of the definitions alone, for any number of cells
//! and any rooms, as the layers above need it.
//!
//! How the words of a heap are shared among threads is left to the layers above.
//!
//! Reading order: specs/Reachable, specs/Safe, specs/Collects, specs/Consistent; `machine`,
//! `plain`, `cycle`, `reachability`; proofs/Safety, proofs/Step, and then proofs/Events, an event a
//! file, proofs/Collects, from Followed on, and proofs/Finishing.
#![tactic(auto)]

mod cycle;
mod machine;
mod plain;
mod reachability;
mod search;
pub mod theorems;

pub use core_machine::{Event, Found, Held, NotNow, Pending, Scanning, Sweeping, Taken};
pub use machine::{Core, NotNowAt};
pub use std::alloc::AllocError as NoMemory;
