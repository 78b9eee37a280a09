//! The private heap of one mutator: immutable records that name older records of the same heap.
//!
//! A record has five fields: null, a number, an older record, or a place of the owner's held list.
//! The layer above may rely on this: a record is what `make` or `make_of_words` was given until
//! `clear`, or until `truncate` keeps fewer, and its term follows from the records before it and
//! from what the shared places denote (specs/Terms). Nothing here takes memory but `with_room` and
//! `reached`. Copying records into the shared heap is left to others; `mark_span` and `reached` say
//! which records such a copy needs.
//!
//! Reading order: `fields`, `record`, `heap`, `marks`, `spans`.
#![tactic(auto)]

mod fields;
mod heap;
mod marks;
mod record;
mod spans;

pub use fields::{MinorField, MinorRef};
pub use heap::{MinorFull, MinorHeap};
pub use record::FieldKind;
pub use spans::RecordSpan;
pub use std::alloc::AllocError as NoMemory;
