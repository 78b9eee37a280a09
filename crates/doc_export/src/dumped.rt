use cell_heap::Passes;
use client_history::Documents;
use doc_model::Log;

/// The result of a run during which a version was dumped: what each client was answered, what all
/// seats had at the close, and the version.
#[derive(Drop)]
pub struct Dumped {
    pub logs: Vec<Log>,
    pub passes: Passes<Documents>,
    /// the number of the version
    pub version: u64,
    /// how many nodes its tree has
    pub count: u64,
    /// its dump, unless the tree has more nodes than a dump may have
    pub bytes: Option<Vec<u8>>,
}
