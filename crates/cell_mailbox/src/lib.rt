//! A mailbox in the boxes of a collected heap: what one mutator may do with it.
//!
//! `send` puts an item after the last one, `take` takes the first that nobody has taken. Each is
//! one exchange of one field, and is tried again where another mutator was faster. A send waits
//! before it tries again, so that many senders do not collide again. `await_item` waits for the
//! next item. The walk to the last item and both waits answer handshakes, so no cycle waits for
//! them.
//!
//! Reading order: specs/Finds, Ends, Makes, Walks; `rows`, `reading`, `turns`, `waiting`, `taking`,
//! `sending`; specs/Pacing.
#![tactic(auto)]

mod reading;
mod rows;
mod sending;
mod taking;
mod turns;
mod waiting;

pub use mail_rule::{Item, MailPass, Sent};
pub use mutator_seat::HeapFull;
pub use rows::opening_rows;
pub use sending::send;
pub use taking::take;
pub use waiting::await_item;
