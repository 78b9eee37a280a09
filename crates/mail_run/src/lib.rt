//! A run of a mailbox: senders, one receiver and the collector run concurrently, from the opening
//! of a heap to its close.
//!
//! The layer above may rely on what `ComesMail` says: each line has its position or none, the items
//! have the positions from 1 on in order, and the item at a position is the line that has it. Items
//! that nobody took are read off the closed heap.
//!
//! Reading order: `finished`, specs/Comes; `closed`, specs/Closed, `closing`; specs/Rest,
//! `following`; `running`.
#![tactic(auto)]

mod closed;
mod closing;
mod finished;
mod following;
mod running;

pub use cell_mailbox::{Item, MailPass};
pub use collector::NoMemory;
pub use finished::MailRun;
pub use running::mail_run;
