use minor_heap::MinorRef;

/// Where a record stands.
#[derive(Clone, Copy, Debug, PartialEq, Eq)]
pub enum NodeAt {
    /// a place of the mutator's held list
    Shared(usize),
    Minor(MinorRef),
}
