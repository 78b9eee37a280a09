/// The number of a record. The oldest has number 0.
#[derive(Clone, Copy, Debug, PartialEq, Eq)]
pub struct MinorRef {
    pub number: u32,
}

/// A field of a record.
#[derive(Clone, Copy, Debug, PartialEq, Eq)]
pub enum MinorField {
    Null,
    /// a number below 2^62
    Num(u64),
    /// an older record of the same heap
    Minor(MinorRef),
    /// a place of the owner's held list
    Shared(usize),
}
