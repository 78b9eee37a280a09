//! Heap files: the text of a closed heap, read back and checked.
//!
//! The layer above may rely on a census being that of the heap that the text shows, and on anything
//! else being refused at its first faulty line, or at the line of its first faulty cell.
//!
//! Reading order: `fault`, `line`, `file`, `reader`.
#![tactic(auto)]

mod fault;
mod file;
mod line;
mod reader;

pub use crate::fault::{ImageError, ImageFault, ImageKind};
pub use crate::reader::read_image;
pub use heap_census::{Census, NoMemory};
