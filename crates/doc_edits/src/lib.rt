//! Edits of trees of documents that stand as records, by path copying.
//!
//! An edit makes a new node for each node on its path, and new entries on the way to each changed
//! name; it shares the rest. The layer above may rely on this: the node that an edit answers spells
//! the tree that doc_tree's definition of the edit makes, a refusal is that definition's, what
//! stood before stands unchanged, and each edit stays within a number of places and records. Edits
//! take no memory but the records that they make.
//!
//! Reading order: `bounds`; specs/Tops, Entries, Pools, Ends, Edits; then `entries`, `rows`,
//! `sizes`, `nodes`, `edits`, `removals`.
#![tactic(auto)]

mod bounds;
mod edits;
mod entries;
mod nodes;
mod removals;
mod rows;
mod sizes;

pub use crate::bounds::{EDIT_PLACES, EDIT_RECORDS};
pub use crate::edits::{attach, set_text};
pub use crate::removals::delete;
