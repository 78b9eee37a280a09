ghost use Rattle.std.specs.Prelude.{◌≡◌};
ghost use Rattle.heap_c.specs.Handles.{number_of};

/// What a call answers. The numbers are those of heap.h.
#[derive(Clone, Copy, Debug, PartialEq, Eq)]
pub enum Code {
    Ok = 0,
    /// there is no memory
    NoMemory = 1,
    /// there is no such place, or it is the anchor's where another is wanted
    BadPlace = 2,
    BadField = 3,
    NoRoom = 4,
    /// no cell is free now
    Wait = 5,
    /// the field holds something else
    Moved = 6,
    /// the mutator is out
    NotIn = 7,
    /// no value that C may give
    BadValue = 8,
    /// the mutator is in
    IsIn = 9,
    /// the handle is one of nothing
    NoHandle = 10,
    /// no cell is free, and waiting is of no use
    Full = 11,
    /// each mutator has its seat
    NoSeat = 12,
    /// all cycles were made
    Spent = 13,
    /// a size is 0 or too large
    BadSize = 14,
    /// what is to be set is a handle already, or has private records already
    NotZero = 15,
    /// there is no room for one more private record
    NoRecords = 16,
    /// it was done in part
    Part = 17,
}

impl Code {
    /// As C has it.
    pub(crate) fn number(self) -> i32
        ensures number { result ≡ number_of self }
    {
        self as i32
    }
}
