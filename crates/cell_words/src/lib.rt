//! The words of a collected heap: what each 64-bit word of the shared table means.
//!
//! A colour, a field, a mutator's presence and the collector's control are one word each, since
//! every step of the heap is one atomic operation on one word. For each of the four there is a
//! `pack` and an `unpack` that undo each other, and an `unpack` knows every word that is no
//! packing. The module `modes` has the choices that a mutator makes from its own status and one
//! look at the control: which colour a new cell gets, and what a write marks first.
//!
//! When a word may change is not said here: that is the core machine above.
//!
//! Reading order: `colours`, `fields`, `presences`, `controls`, `write_barrier`, `modes`, `terms`.
#![tactic(auto)]

mod colours;
mod controls;
mod fields;
pub mod modes;
mod presences;
mod terms;
mod write_barrier;

pub use colours::{Colour, pack_colour, unpack_colour};
pub use controls::{
    Control, GREATEST_CYCLES, GREATEST_POSITION, Stage, pack_control, unpack_control,
};
pub use fields::{Field, Kind, Row, pack_field, unpack_field};
pub use presences::{Presence, Status, pack_presence, unpack_presence};
pub use terms::{Term, Terms};
pub use write_barrier::Barrier;
