//! Copies of private records in the shared heap, a part at a time.
//!
//! A promotion copies all that a record reaches in one call, and where it finds no cell it leaves
//! nothing. This goes on where it was: by record a table has the place of its copy, or none, until
//! the records move. A call copies the oldest records that have none, and at most so many; it may
//! end early, and the next call begins after the last copy. So the longest call does not grow with
//! the private heap, and what a call that waited has claimed is not lost.
//!
//! The layer above may rely on this: a copy is a sealed record that is held at its place, with the
//! term of its record; and what private records denote stays while the places that they name stay
//! known as records. The layer above claims the raw cells (`RawCells`), decides which records to
//! copy, and keeps the places of copies until it forgets the table.
//!
//! The calls take the heap and the seat, for an owner of both that keeps no borrow of the heap.
//!
//! Reading order: specs/Raw, `copying`; specs/Table, Copies; `cells`, `slices`;
//! specs/Settling, `settling`; `table`, `theorems`.
#![tactic(auto)]

mod cells;
mod copying;
mod settling;
mod slices;
mod table;
pub mod theorems;

pub use cells::RawCells;
pub use copying::copy_record;
pub use slices::Progress;
pub use table::{CopyTable, NoMemory};
