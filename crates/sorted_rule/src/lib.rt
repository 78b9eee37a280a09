//! Boxes and records told apart by the numbers of fields, as a client's rule: for programs that are
//! not proved themselves, and read and write cells as they like.
//!
//! What a read finds is a box or a record, and no word that the program has tells which; only a box
//! may be written. So the heap's setting sorts the fields once and for all: of each box so many
//! fields, from the first on, name boxes, and the others name records. Null and numbers stand in
//! any field. What a field names is then known by its number alone. With a setting of five there
//! are no records but those that nothing names.
//!
//! Here stand the rule, a fact of plain data (the boxes, and a pass for each mutator), and lemmas:
//! that the opening has it, that each write of what fits its field keeps it, and what a read finds.
//! No seat, no word and no thread is named.
//!
//! Reading order: specs/Sorts; `Sorting`; specs/Sorted, Opening, Open; then `theorems`.
#![tactic(auto)]

mod sorting;
pub mod theorems;

pub use sorting::Sorting;
