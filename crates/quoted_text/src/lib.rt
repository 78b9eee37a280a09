//! Quoted texts: a text on one line, between two quotes.
//!
//! A quote and a backslash of the text are written with a backslash before them, a tab and a line
//! feed as `\t` and `\n`, and each other byte as itself. The layer above may rely on each text
//! being written in one way and read back from it, and on nothing else being read. How long a text
//! may be is left to it.
//!
//! Reading order: `write`, `read`, `theorems`.
#![tactic(auto)]

mod read;
mod theorems;
mod write;

pub use crate::read::read_quoted;
pub use crate::theorems::reading_undoes_writing;
pub use crate::write::quoted;
