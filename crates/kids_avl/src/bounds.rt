//! How high the children of a node stand as a balanced tree, and what a call on them takes at most.
//! All of it follows from `Tree::MOST_CHILDREN`.
use doc_tree::Tree;

/// The height of the entries of one node: a balanced tree that is 12 high has 376 entries at least
/// (`fewest` of proofs/Heights), and a node has at most `Tree::MOST_CHILDREN`.
pub const MOST_LEVELS: usize = 11;

/// Places that a search asks for: more than 5 a level, which are 55.
pub const FIND_PLACES: usize = 64;

/// Places that a put or a removal asks for: more than 16 a level, which are 176.
pub const CHANGE_PLACES: usize = 256;

/// Entries that a put makes: 3 a level, and the new one.
pub const PUT_ENTRIES: usize = 3 * MOST_LEVELS + 1;

/// Records that a put makes: those entries, and 4 for the new name.
pub const PUT_RECORDS: usize = PUT_ENTRIES + 4;

/// Entries, and so records, that a removal makes: 3 a level.
pub const REMOVE_RECORDS: usize = 3 * MOST_LEVELS;

/// Places that a count, or a walk to an index, asks for: 2 for each child.
pub const COUNT_PLACES: usize = 2 * Tree::MOST_CHILDREN;
