//! Whole cycles of the collector, made of the calls of its seat.
//!
//! A `Collector` is the collector's seat with the heap that it is of, and a stack of cells that
//! wait for a look. Each call is a list of the seat's events, one after the other, and its clauses
//! say which: so a layer above knows what the collector's trail grew by, and nothing of colours or
//! stages. The stack shows in the trail too: what is pushed, and what finds no room, is a function
//! of the events.
//!
//! Reading order: specs/Stack, Bound, Stretches, Replay, Answering, Counting, Pushes, Over, Cycles,
//! Offering; then `mark_stack`, `report`, `collecting`, `steps`, `asking`, `clearing`, `tracing`,
//! `sweeping`, `whole`, `serving`, `theorems`; and for a caller that may not wait specs/Underway,
//! Stepping, then `looking`, `stepping`, `moves`.
#![tactic(auto)]

mod asking;
mod clearing;
mod collecting;
mod looking;
mod mark_stack;
mod moves;
mod report;
mod serving;
mod stepping;
mod steps;
mod sweeping;
pub mod theorems;
mod tracing;
mod whole;

pub use cell_heap::ColSeat;
pub use collecting::Collector;
pub use mark_stack::MarkStack;
pub use report::CycleReport;
pub use std::alloc::AllocError as NoMemory;
pub use stepping::{Step, Went};
