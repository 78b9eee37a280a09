/// What a write of a field marks before it.
#[derive(Clone, Copy, Debug, PartialEq, Eq)]
pub enum Barrier {
    Nothing,
    /// the value that is overwritten
    Old,
    /// the value that is overwritten and the one that is written
    Both,
}
