use cell_heap::Passes;
use cell_mailbox::{Item, MailPass};

/// The result of a run: what each line of each script was answered, the items in the order of their
/// positions, and what all seats had at the close.
#[derive(Drop)]
pub struct MailRun {
    pub sent: Vec<Vec<Option<u64>>>,
    pub items: Vec<Item>,
    pub passes: Passes<MailPass>,
}
