//! The seat of a mutator on a collected heap: each call is one atomic operation on one word, and
//! one event of the event table.
//!
//! The clause `told` of a call is one equation: the seat after it is the seat before, told the
//! event and what this found. A read, a fetch, a write and a store show the state and the client's
//! rule as they stood at their step too (`AtEvent`). What a call needs is said of the seat's view
//! alone (`heap_rule`, specs/Asks).
//!
//! When to mark, to answer or to try again is the choice of the layer above. No call takes memory:
//! the room for held cells is reserved before the seat is made.
//!
//! Reading order: `values`, `choice`, `seat`, `coming`, `looking`, `reading`, `making`, `writing`,
//! `storing`; then `theorems`.
#![tactic(auto)]

mod cells;
mod choice;
mod coming;
mod looking;
mod making;
mod places;
mod reading;
mod seat;
mod storing;
pub mod theorems;
mod values;
mod words;
mod writing;

pub use choice::Choice;
pub use heap_table::NoMemory;
pub use seat::{HeldRoom, MutSeat};
pub use values::{Moved, Value};
