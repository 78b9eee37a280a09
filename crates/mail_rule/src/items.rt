/// One item of mail, as the receiver has it.
#[derive(Clone, Copy, Debug, PartialEq, Eq)]
pub struct Item {
    /// How many items were sent up to this one. The first has 1, and only the box that a mailbox
    /// opens with has 0.
    pub position: u64,
    /// The sender's mutator number plus 1, so that 0 is nobody's.
    pub sender: u32,
    pub value: u64,
}

/// One item of mail, as its sender has it.
#[derive(Clone, Copy, Debug, PartialEq, Eq)]
pub struct Sent {
    pub position: u64,
    pub value: u64,
}
