use cell_words::{Field, Term};
use std::collections::LinkedList;

/// What a mutator knows of a cell that it holds. No code makes a value of it: views speak of it.
pub enum Known {
    /// Nothing besides that it holds the cell.
    Nothing,
    /// The cell is raw and its own alone, and these are the five fields of its payload.
    Raw(LinkedList<Field>),
    /// The cell is a box that no other cell names, and these are the five fields of its payload.
    Fresh(LinkedList<Field>),
    /// The cell is a record, and this is its term.
    Record(Term),
    /// The cell is a box and not the anchor: the terms of its payload, as far as they are told.
    /// They hold of fixed fields alone.
    Boxed(LinkedList<Option<Term>>),
}

/// What a read tells besides the field: of the cell that was read, and of the cell that was found.
pub struct Learned {
    pub here: Known,
    pub found: Known,
}
