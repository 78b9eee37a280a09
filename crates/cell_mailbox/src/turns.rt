use mail_rule::Item;
use mutator_seat::HeapFull;

/// How one try of a take ended.
#[derive(Clone, Copy)]
pub(crate) enum Turn {
    Took(Item),
    /// No item follows the one that was taken last.
    Empty,
    /// Another mutator took it first.
    Lost,
}

/// How one try of a send ended.
#[derive(Clone, Copy)]
pub(crate) enum Post {
    /// The item has this position.
    Sent(u64),
    Full(HeapFull),
    /// Another mutator sent first.
    Lost,
}
