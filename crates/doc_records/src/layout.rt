//! Which field of a record has what: of a node, of an entry of its children, and of a text.

/// The text of a node, or null where it is empty.
pub const NODE_TEXT: usize = 0;

/// The entry at the top of a node's children, or null.
pub const NODE_ENTRIES: usize = 1;

/// How many nodes the tree of a node has.
pub const NODE_COUNT: usize = 2;

/// How many levels it has below the node.
pub const NODE_HEIGHT: usize = 3;

/// The name of an entry, a text.
pub const ENTRY_NAME: usize = 0;

/// The child that has this name.
pub const ENTRY_CHILD: usize = 1;

/// The entry at the top of the smaller names, or null.
pub const ENTRY_LEFT: usize = 2;

/// The entry at the top of the greater names, or null.
pub const ENTRY_RIGHT: usize = 3;

/// How high the tree of entries is.
pub const ENTRY_HEIGHT: usize = 4;

/// How many bytes of a text there are from this record on.
pub const TEXT_LENGTH: usize = 0;

/// Its first seven bytes as a word.
pub const TEXT_FIRST: usize = 1;

/// The rest of a text, or null.
pub const TEXT_REST: usize = 4;
