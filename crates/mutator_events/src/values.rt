use cell_words::Field;

/// What a mutator reads and writes: null, a number, or the cell at a place of its held list.
#[derive(Clone, Copy, Debug, PartialEq, Eq)]
pub enum Value {
    Null,
    /// a number below 2^62
    Num(u64),
    /// a place of the held list
    Held(usize),
}

/// A write was not made, since the field held another word.
#[derive(Clone, Copy, Debug, PartialEq, Eq)]
pub struct Moved {
    /// what it held at the step; no cell is held by this
    pub found: Field,
}
