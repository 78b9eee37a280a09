//! What stands between any two steps of a collected heap besides the core's own invariant: the
//! terms of records, which cells are fresh, what each mutator knows of the cells that it holds, and
//! the boxes that a client's rule speaks of.
//!
//! None of it is in a word of the heap, and no code holds it. It follows from the events alone, as
//! `Lore`, a record of definitions that changes with each event. The layers above keep a copy of
//! what concerns a mutator in the view of its seat, and a client's rule is a fact of the boxes.
//!
//! Here stand definitions and lemmas: that the facts on lore stay with every event, how the boxes
//! change, and the rule of a table that holds all of it with the views of its seats. No table is
//! made here, and no thread steps.
//!
//! Reading order: `known`; specs/Lore, Knowledge, Facts, Boxes, Numbered; `keeping`, `view`;
//! specs/Rule, Steps, Asks, Opening, Moves, Laws; then `theorems`.
#![tactic(auto)]

mod keeping;
mod known;
mod shape;
pub mod theorems;
mod view;

pub use keeping::{Keeping, NoRule};
pub use known::{Known, Learned};
pub use shape::HeapShape;
pub use std::alloc::AllocError as NoMemory;
pub use view::{Place, Role, Share, View};
