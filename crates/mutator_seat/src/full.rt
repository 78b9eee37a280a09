/// Why no cell was claimed: a look of this call found the collector off duty, or two whole cycles
/// ended that had begun in this call; and after this look each cell was found used.
#[derive(Clone, Copy, Debug, PartialEq, Eq)]
pub struct HeapFull {
    /// whether that look found the collector off duty
    pub off_duty: bool,
    /// the cycles that were ended or under way at the first look of the call
    pub began: u32,
    /// the cycles that had ended at that look
    pub ended: u32,
}
