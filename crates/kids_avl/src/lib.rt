//! The children of a node as a persistent balanced tree, in any pool of entries.
//!
//! An entry has a name, a child, and entries of smaller names left of it and of greater ones right
//! of it. The layer above may rely on this: each call is the definition of doc_tree on the row of
//! children, what stood before stands unchanged, the tree stays balanced with its names in rising
//! order, and each call stays within a number of places, records and entries made. What an entry is
//! made of, and where it stands, is left to the pool; so are places that are given back.
//!
//! Reading order: `bounds`, `pool`, `calls`, `reading`, `putting`, `removing`, `joining`,
//! `turning`.
#![tactic(auto)]

mod bounds;
mod calls;
mod joining;
mod pool;
mod putting;
mod reading;
mod removing;
mod turning;

pub use crate::bounds::{
    CHANGE_PLACES, COUNT_PLACES, FIND_PLACES, MOST_LEVELS, PUT_ENTRIES, PUT_RECORDS, REMOVE_RECORDS,
};
pub use crate::calls::{find, kid_at, len, put, remove};
pub use crate::pool::{KidPool, height_above};
