use mutator_seat::HeapFull;

/// Why a commit was not made.
#[derive(Clone, Copy, Debug, PartialEq, Eq)]
pub enum CommitFault {
    /// The version is not the latest any more: a newer one was read.
    Moved { newer: u64 },
    /// No cell was free for the version's box.
    Full(HeapFull),
    /// No more versions may be made.
    Worn,
}

/// The older version is cut off: so many versions were made since then that it may be gone. A newer
/// version was read.
#[derive(Clone, Copy, Debug, PartialEq, Eq)]
pub struct Cut {
    pub newer: u64,
}
