//! How many cells a text has, and how many places a reading of a node takes, at most.
use doc_tree::{Text, Tree};

/// Cells of a text of `Text::MOST` bytes, 21 of them in each.
pub const TEXT_CELLS: usize = (Text::MOST + 20) / 21;

/// Places that a reading of a node's text asks for: one more than its cells.
pub const TEXT_PLACES: usize = TEXT_CELLS + 1;

/// Places that a search for a child asks for: more than 5 for each of `MOST_LEVELS` levels of
/// kids_avl and 2, which are 57.
pub const CHILD_PLACES: usize = 64;

/// Places that a listing of the names of a node's children asks for: 6 for each, and 2.
pub const NAMES_PLACES: usize = 6 * Tree::MOST_CHILDREN + 2;
