//! Trees of documents as records: what a term spells, and the reading and making of one node.
//!
//! A node is a record with its text, its children as a balanced tree of entries, and how many nodes
//! and levels there are. All calls stand on `RecordPool`: a store of records of which some are
//! shared cells, held at places, and some private. The layer above may rely on this: each reader
//! answers what the definitions of doc_tree say of the tree that the node spells, and gives its
//! places back; what stood before stands unchanged; and of shared nodes the trail shows the reads.
//! Edits along a path are left to the layer above.
//!
//! Reading order: specs/Words, Texts, Trees, Pool; then `bounds`, `layout`, `pool`, `reads`,
//! `words`, `texts`, `nodes`, `orders`, `finding`, `listing`, `writes`.
#![tactic(auto)]

mod bounds;
mod finding;
mod layout;
mod listing;
mod nodes;
mod orders;
mod pool;
mod reads;
mod texts;
mod words;
mod writes;

pub use crate::bounds::{CHILD_PLACES, NAMES_PLACES, TEXT_CELLS, TEXT_PLACES};
pub use crate::finding::{child, entry_child, find_child, order_entry};
pub use crate::layout::{
    ENTRY_CHILD, ENTRY_HEIGHT, ENTRY_LEFT, ENTRY_NAME, ENTRY_RIGHT, NODE_COUNT, NODE_ENTRIES,
    NODE_HEIGHT, NODE_TEXT, TEXT_LENGTH, TEXT_REST,
};
pub use crate::listing::names;
pub use crate::nodes::{count, empty_node, height, text_of};
pub use crate::pool::{Part, RecordPool};
pub use crate::reads::{read_number, read_part};
pub use crate::writes::{make_text, with_text};
pub use doc_tree::NoMemory;
