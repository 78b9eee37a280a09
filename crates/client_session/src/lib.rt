//! A client's session: its commands one after another, over whatever holds its cells, its private
//! records and its draft.
//!
//! What a session needs of the heap is the trait `ClientHeap`, in the words of trees and versions.
//! A command is one turn: it reads the latest version, and what it makes becomes the next one, or
//! else the draft. Where another client was faster, the client waits a little; then what was made
//! is carried over to the newer version, or the turn begins again. The layer above may rely on
//! this: every answer is that of the store's definitions, over each list of versions that the pass
//! allows; the log stays in step with the pass and with the trail; and where memory ran out nothing
//! was made.
//!
//! Reading order: specs/Handles, Turns, Carries, Batches; then `refusal`, `heap`, `journal`,
//! `given`, `reading`, `drafting`, `waiting`, `carrying`, `committing`, `batching`, `turns`.
#![tactic(auto)]

mod batching;
mod carrying;
mod committing;
mod drafting;
mod given;
mod heap;
mod journal;
mod reading;
mod refusal;
mod turns;
mod waiting;

pub use crate::heap::ClientHeap;
pub use crate::journal::{Journal, Limits};
pub use crate::refusal::CommitRefusal;
