/// A version that a mutator holds.
#[derive(Clone, Copy, Debug, PartialEq, Eq)]
pub struct HeldVersion {
    pub number: u64,
    /// where in the held list its box is
    pub place: usize,
}
