//! Making a cell in one call: a claim, five fills and a seal; and what a mutator rests on between
//! two calls.
//!
//! The new cell is held at the next place, and nobody else sees it until some field names it. So
//! all of it is known: of a box its five fields, of a record its term. The layer above may also
//! make cells by the single calls of a `Mutator`; these calls say the whole in one clause.
//!
//! A program mostly works from the anchor on: it holds only that, reads or makes what it needs
//! after it, writes, and cuts back. That the mutator is in all the while, has so much room and is
//! at rest after the cut is the same under any rule (specs/Resting). The lemmas in proofs/ have it
//! for stretches, reads, writes, made cells and the cut, and say what a read finds and what a write
//! asks of its values.
//!
//! Reading order: specs/Makes; `making`; specs/Resting; `theorems`.
#![tactic(auto)]

mod making;
pub mod theorems;

pub use making::{fill_box, fill_record};
