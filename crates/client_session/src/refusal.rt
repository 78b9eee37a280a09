/// Why no version was made.
#[derive(Clone, Copy, Debug, PartialEq, Eq)]
pub enum CommitRefusal {
    /// Another client made one first.
    Moved,
    /// No cell could be claimed.
    Full,
}
