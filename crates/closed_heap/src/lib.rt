//! A heap at its close, under any client's rule: who is out, how many cells were claimed, and what
//! stands in a field.
//!
//! Where every mutator's seat was joined before the close, no mutator is in. Where the trail of one
//! has a stretch that found the heap full, each cell but the first rows was claimed in the run, so
//! there were as many claims as such cells, or more. `field_at` reads the image. What the words
//! show beyond that is the client's affair: its proofs go from a box of the rule's map to the
//! fields of its cell by heap_rule's proofs/BoxWords.
//!
//! Reading order: specs/Closing; `theorems`; specs/Words, `words`.
#![tactic(auto)]

pub mod theorems;
mod words;

pub use words::{field_at, number_of};
