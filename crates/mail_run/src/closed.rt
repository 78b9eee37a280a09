use cell_mailbox::MailPass;
use mail_threads::{Answers, Received};
use mutator_threads::Closed as ClosedHeap;

/// The result of a run when its heap is closed: what each line was answered, and what the receiver
/// has taken.
#[derive(Drop)]
pub(crate) struct Closed {
    pub(crate) heap: ClosedHeap<MailPass>,
    pub(crate) sent: Vec<Answers>,
    pub(crate) received: Received,
}
