//! A thread's operations on a collected heap, by meaning.
//!
//! A `Mutator` is a seat with the heap that it is of. Each call is made of the seat's calls, so its
//! clauses say what these tell one after the other: the held list, what is known of each place, the
//! pass, and the events that the trail grew by. When to look, to mark and to answer a handshake is
//! decided here, and the layers above know nothing of colours or stages.
//!
//! Only `claim` waits. No call takes memory. An owner of heap and seat that can keep no borrow
//! calls the functions of `operations`, of which the methods are made.
//!
//! Reading order: specs/Bound, Stretches, Writes, Stores, Claims, Pacing; then `mutator`, `coming`,
//! `making`, `looking`, `writing`, `storing`, `trying`, `claiming`, `operations`.
#![tactic(auto)]

mod claiming;
mod coming;
mod full;
mod looking;
mod making;
mod mutator;
pub mod operations;
mod storing;
mod trying;
mod writing;

pub use full::HeapFull;
pub use mutator::Mutator;
pub use mutator_events::{Choice, Moved, MutSeat, NoMemory, Value};
