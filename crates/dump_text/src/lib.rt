//! Dumps: a version of a store as text, its number and its whole tree.
//!
//! The layer above may rely on each dump of a version up to the millionth, with at most 10,000
//! nodes, being loaded with its number and its tree, and on anything else being refused at its
//! first faulty line. How a dump is taken of a heap is left to it.
//!
//! Reading order: `fault`, `line`, `order`, `grow`, `loader`, `theorems`.
#![tactic(auto)]

mod fault;
mod grow;
mod line;
mod loader;
mod order;
mod theorems;

pub use crate::fault::{LoadError, LoadFault, LoadKind};
pub use crate::grow::MOST_NODES;
pub use crate::loader::{Loaded, load};
pub use crate::theorems::no_dump_begins_another;
pub use doc_tree::{NoMemory, Tree};
