//! Who works on a mailbox, between two threads: what a thread takes with it, and gives back.
use cell_mailbox::{Item, MailPass};
use mutator_threads::Worker;

/// What a mutator of a mailbox has of its own: the position of each line of its script in order, or
/// none where the heap was full.
pub type Answers = Vec<Option<u64>>;

/// A mutator of a mailbox. The first have a script each, and send its lines; the last one receives,
/// and has no lines.
pub type Mailer = Worker<MailPass, Answers>;

/// What the receiver has taken.
#[derive(Drop)]
pub struct Received {
    pub items: Vec<Item>,
    /// memory ran out for an item, and it stopped there
    pub failed: bool,
}
