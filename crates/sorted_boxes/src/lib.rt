//! Boxes and records for a program that is not proved: it reads both, writes and makes boxes, by
//! places, and whatever it does no cell is misread or lost.
//!
//! Each call takes the heap and the seat of a mutator, and most take the list that tells by place
//! whether a record is held there (`Sorts`): the anchor at the first place, and at each other a box
//! that others may know, or a record (specs/Holding). It leaves the mutator so, and the list in
//! step. What a call needs besides is what its caller can test: that a place is in range and holds a
//! box where one is written, that a value fits its field, and that there is room.
//!
//! A box that was just made is known to its maker alone, and the rule says nothing of it. So it is
//! shown at once: it names itself in its first field, and gets its first value after that. Nobody
//! else can find it by its own name.
//!
//! Reading order: specs/Sorts, Holding, Calls; then `sorts`, `opening`, `placing`, `reading`,
//! `writing`, `showing`, `making`, `coming`, `copies`.
#![tactic(auto)]

pub mod coming;
pub mod copies;
pub mod making;
pub mod opening;
pub mod placing;
pub mod reading;
mod showing;
pub mod sorts;
pub mod writing;

pub use sorts::Sorts;
