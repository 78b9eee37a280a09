//! A collected heap as the words of an atomic table, and the steps of its seats.
//!
//! A step is one atomic operation on one word. Its caller says which event it means by it and shows
//! that its seat may make this event; the step then tells the state in which it happened, and the
//! seat's view after it is the view before with this event told.
//!
//! The seats' calls, a call an event, stand above: `mutator_events` and `cell_heap`.
//!
//! Reading order: `rule`, `heap`, `steps`, `mutator_operations`, `collector_operations`, `opening`,
//! `moves`, `words`, `closing`.
#![tactic(auto)]

mod closing;
mod collector_operations;
mod heap;
mod moves;
mod mutator_operations;
mod opening;
mod rule;
mod steps;
pub mod words;

pub use closing::{Image, Passes};
pub use heap::{CellHeap, HeapSeat};
pub use heap_rule::NoMemory;
pub use moves::{Departing, Departure, Returning};
pub use rule::HeapRule;
pub use steps::{CollectorLook, CollectorStep, Intent, MutatorStep};
