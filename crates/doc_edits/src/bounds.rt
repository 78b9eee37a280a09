//! How much an edit takes at most. The children of a node, at most `Tree::MOST_CHILDREN`, lie as a
//! balanced tree of entries, and each bound here comes from those of kids_avl and doc_records,
//! which come from that limit.
use doc_records::{CHILD_PLACES, TEXT_CELLS};
use doc_tree::{Path, Tree};
use kids_avl::{CHANGE_PLACES, COUNT_PLACES, PUT_RECORDS, REMOVE_RECORDS};

/// Entries of this many levels at most are fewer than `Tree::MOST_CHILDREN`, which is 2 to the 8.
pub const FEW_LEVELS: u64 = 8;

/// A node whose tree has this many nodes at most has fewer children than it may have.
pub const FEW_NODES: u64 = Tree::MOST_CHILDREN as u64;

/// How many entries a node may have.
pub const MOST_ENTRIES: u32 = Tree::MOST_CHILDREN as u32;

/// Places that a put of an entry asks for: those of a put in any pool, and one that is kept free.
pub const PUT_PLACES: usize = CHANGE_PLACES + 1;

/// Places that a removal of an entry asks for: one more, for the top that is left.
pub const REMOVE_PLACES: usize = CHANGE_PLACES + 2;

/// Places that a count of entries asks for: those of a count in any pool, and one.
pub const LEN_PLACES: usize = COUNT_PLACES + 1;

/// Places that the question asks for whether a node has room: two parts of it, and a count.
pub const ROOM_PLACES: usize = 2 + LEN_PLACES;

/// Places that a step down a path may keep: a search for a child, and two parts of a node.
pub const STEP_PLACES: usize = CHILD_PLACES + 2;

/// Places that a step down a path asks for.
pub const BEGIN_PLACES: usize = CHILD_PLACES + ROOM_PLACES;

/// Places that a look at the levels of all children asks for: 3 for each, and one.
pub const LEVELS_PLACES: usize = 3 * Tree::MOST_CHILDREN + 1;

/// Places that a changed node may keep: two parts of the old one, and the new entries.
pub const NODE_PLACES: usize = 2 + CHANGE_PLACES;

/// Places that the change of a node asks for.
pub const MAKING_PLACES: usize = NODE_PLACES + LEVELS_PLACES;

/// Records that a node without one of its children takes: new entries, and the node.
pub const WITHOUT_RECORDS: usize = REMOVE_RECORDS + 1;

/// Records for one level of a path: the new entries on the way to the child, and a node.
pub const LEVEL_RECORDS: usize = PUT_RECORDS + 1;

/// Records for a text of `Text::MOST` bytes, and the node that has it.
pub const TEXT_RECORDS: usize = TEXT_CELLS + 1;

/// Records that an edit makes: those of each level of its path, and of a text at its end.
pub const EDIT_RECORDS: usize = Path::MOST * LEVEL_RECORDS + TEXT_RECORDS;

/// Places for one level of a path: the step down, and the changed node on the way back.
pub const LEVEL_PLACES: usize = STEP_PLACES + NODE_PLACES;

/// Places that are free at the end of a path: more than `MAKING_PLACES`, which are 1,027.
pub const END_PLACES: usize = 1_100;

/// Places that an edit asks for: more than `Path::MOST * LEVEL_PLACES + END_PLACES`, which are
/// 3,692.
pub const EDIT_PLACES: usize = 8_192;
