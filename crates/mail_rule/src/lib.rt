//! A mailbox in the boxes of a collected heap, as a client's rule: what stands of it between any
//! two steps, whatever the mutators and the collector do.
//!
//! Items stand in one chain of boxes, in the order in which they were sent. An item's box has its
//! position, its sender, its value and the box of the next item, which is null at the last one. The
//! anchor names the box of the item that was taken last. So a send is one write of the last box's
//! null, a take one write of the anchor's field, and boxes before the anchor's are garbage once
//! nobody holds them.
//!
//! Here stand the rule, a fact of plain data (the boxes, and a pass for each mutator), and lemmas:
//! that the opening has it, that a send and a take keep it, and what a read tells. No seat, no word
//! and no thread is named.
//!
//! Reading order: `Item`, `Sent`, `MailPass`; specs/Passes, Items, Mail; specs/Counted, Knowing,
//! Told, Chains; then `theorems`.
#![tactic(auto)]

mod items;
mod mail_pass;
pub mod theorems;

pub use items::{Item, Sent};
pub use mail_pass::MailPass;
