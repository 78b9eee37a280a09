use cell_words::{Colour, Control, Field, Kind, Presence, Stage};

/// One step of a mutator or of the collector: one operation on one word of the heap.
///
/// Mutators and cells are named by their numbers, places by their index in a held list.
#[derive(Clone, Copy, Debug, PartialEq, Eq)]
pub enum Event {
    /// Mutator `i` begins an operation, with the anchor as its only held cell.
    Begin(u32),
    /// Mutator `i` loads the control.
    Look(u32),
    /// Mutator `i` loads a field of the cell at a place, and holds the cell that it finds.
    Read(u32, usize, usize),
    /// Mutator `i` loads a field of the box at a place, which it is to store, and holds the cell
    /// that it finds.
    Fetch(u32, usize, usize),
    /// Mutator `i` makes the cell at a place gray, if it is white.
    Mark(u32, usize),
    /// Mutator `i` exchanges a field of the box at a place: place, field, old value, new value.
    Write(u32, usize, usize, Field, Field),
    /// Mutator `i` stores a value in the field that it has fetched.
    Store(u32, Field),
    /// Mutator `i` takes a cell, if it is blue.
    Claim(u32, u32),
    /// Mutator `i` stores a field of the raw cell at a place: place, field, value.
    Fill(u32, usize, usize, Field),
    /// Mutator `i` makes the raw cell at a place a record or a box.
    Seal(u32, usize, Kind),
    /// Mutator `i` answers the handshake that its last look saw.
    Answer(u32),
    /// Mutator `i` keeps the first places of its held list, then copies of some that stood further
    /// on or among them: how many stay, where the copied ones begin, how many.
    Keep(u32, usize, usize, usize),
    /// Mutator `i` ends its operation.
    End(u32),
    /// Mutator `i` never begins again.
    Over(u32),
    /// The collector goes on to a stage.
    Post(Stage),
    /// The collector says whether it is on duty.
    Duty(bool),
    /// The collector loads the status of mutator `i`.
    Poll(u32),
    /// The collector answers for mutator `i`, if that is out: `i`, and whether it is taken as over.
    AnswerOut(u32, bool),
    /// The collector makes the cell that clearing has come to white, if it is black.
    ClearCell,
    /// The collector makes the anchor gray, if it is white.
    Anchor,
    /// The collector loads the colour of a cell, to scan it if it is gray.
    See(u32),
    /// The collector loads the next field of the cell under scan.
    Scan,
    /// The collector makes the cell that the scan found gray, if it is white.
    Shade,
    /// The collector makes the cell under scan black.
    Blacken,
    /// The collector loads the colour of the cell at the position.
    SweepLook,
    /// The collector makes the next field of the cell at the position null.
    Wipe,
    /// The collector makes the cell at the position blue.
    Free,
    /// The collector makes the cell at the position white.
    Whiten,
    /// The collector moves its position on.
    Advance,
}

/// What an event finds in its word.
#[derive(Clone, Copy, Debug, PartialEq, Eq)]
pub enum Found {
    /// A store finds nothing.
    Stored,
    Control(Control),
    Presence(Presence),
    Colour(Colour),
    Field(Field),
}

/// An event of a run, with what it found.
#[derive(Clone, Copy, Debug, PartialEq, Eq)]
pub struct Taken {
    pub event: Event,
    pub found: Found,
}
