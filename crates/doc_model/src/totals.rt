//! What a run did, in numbers.

/// The counts at the end of a run, of its logs and of the heap that it leaves.
#[derive(Clone, Copy, Debug, PartialEq, Eq)]
pub struct Totals {
    /// entries of all logs
    pub commands: u64,
    /// the number of the latest version
    pub versions: u64,
    /// how often a mutator took a free cell
    pub claimed: u64,
    /// how often the collector made a cell free
    pub freed: u64,
    /// cells that are not free
    pub used: u64,
    /// cells that are free
    pub free: u64,
    /// ended cycles of the collector
    pub cycles: u64,
    /// nodes of the latest version's tree
    pub nodes: u64,
}
