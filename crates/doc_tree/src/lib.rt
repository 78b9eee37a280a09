//! Trees of documents: names, texts, paths, and trees with their edits.
//!
//! Every type is seen by contracts as the mathematics of it: a name or a text is its bytes, a path
//! the list of its names, a tree the record `DocTree`. The layer above may rely on each edit being
//! that of the definitions in specs/, with each refusal exactly where it is due. That an edit
//! shares every subtree off its path is no clause. Versions and commands are left to others.
//!
//! A lawful tree has rising names and at most 256 children at every node, at most 8 levels and at
//! most 1,000,000,000 nodes. Every tree that these calls make of lawful ones is lawful.
//!
//! Reading order: `letters`, `text`, `path`, `edit`, `chunk`, `kids`, `tree`, `theorems`.
#![tactic(auto)]

mod chunk;
mod edit;
mod kids;
mod letters;
mod path;
mod text;
mod theorems;
mod tree;

pub use crate::edit::EditFault;
pub use crate::path::{Names, Path};
pub use crate::text::{Name, Text};
pub use crate::theorems::{
    an_edit_carries_over, edits_keep_trees_lawful, set_text_is_never_too_deep,
};
pub use crate::tree::Tree;
pub use std::alloc::AllocError as NoMemory;
