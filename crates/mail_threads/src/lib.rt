//! The senders of a mailbox and its receiver, in threads of their own on a heap that is opened for
//! them.
//!
//! A sender sends the lines of its script by a mutator of its own; what each line was answered is
//! kept. Alongside the senders, the receiver takes once for each line that anybody sends, each time
//! when there is an item or none came for a while. After they are done it takes until it finds
//! nothing more. No clause says that anything runs concurrently.
//!
//! Reading order: specs/Posts, Receipts; specs/Calls, `posting`, `receiving`; `workers`,
//! specs/Workers, `running`, `joining`; specs/Opened, `opening`; specs/Taken.
#![tactic(auto)]

mod joining;
mod opening;
mod posting;
mod receiving;
mod running;
mod workers;

pub use joining::run_all;
pub use opening::open_mail;
pub use workers::{Answers, Mailer, Received};
