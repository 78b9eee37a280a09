//! What the cells of a closed heap are for, in numbers.

/// How many cells of a closed heap are for what.
#[derive(Clone, Copy, Debug, PartialEq, Eq)]
pub struct Census {
    pub cells: u64,
    /// blue
    pub free: u64,
    pub versions: u64,
    pub nodes: u64,
    pub entries: u64,
    pub texts: u64,
    /// named by two or more fields of cells with a role, or of the anchor
    pub shared: u64,
    /// in use, without a role, and not the anchor
    pub floating: u64,
}
