//! The seats of a collected heap, a call an event: each is one atomic operation on one word of the
//! table, and tells the seat's view this event with what it found. Alongside these stand calls that
//! make a run of such events.
//!
//! Here stands the collector's, and with it a heap is opened, its mutators' seats are split off and
//! joined again, and the heap is closed. The layer above runs cycles with it: a call may be made
//! where the event table allows its event by what the collector knows, and what the collector knows
//! after it is fixed by its clause.
//!
//! Reading order: `progress`, `seat`, `words`, `handshakes`, `tracing`, `sweep`, `trace_runs`,
//! `scan_runs`, `sweep_runs`, `moves`.
#![tactic(auto)]

mod handshakes;
mod moves;
mod progress;
mod scan_runs;
mod seat;
mod sweep;
mod sweep_runs;
mod trace_runs;
mod tracing;
mod words;

pub use heap_table::{CellHeap, Image, NoMemory, Passes};
pub use mutator_events::{Choice, HeldRoom, Moved, MutSeat, Value};
pub use seat::ColSeat;
