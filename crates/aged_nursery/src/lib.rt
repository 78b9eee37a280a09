//! A private heap whose survivors age once: what some roots reach is copied into a second heap of
//! the same room, and the first is let go of.
//!
//! The layer above may rely on this: `age` keeps each root's term and leads it to no new shared
//! place, leaves exactly as many records as the roots reach, and is never refused. `cut_back` keeps
//! the first records, with their terms. All memory is taken by `with_room`. What else stands in the
//! heap in use is its owner's business: `heap_mut` lends it.
//!
//! Reading order: `copies`, `nursery`.
#![tactic(auto)]

mod copies;
mod nursery;

pub use minor_heap::NoMemory;
pub use nursery::AgedNursery;
