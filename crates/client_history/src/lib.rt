//! The history of a store that is spelled by records: how a client's commands end, in plain values,
//! and what the logs of all clients show at the close of their heap.
//!
//! version_rule takes any spelling of trees by terms; here is the one of doc_records (`Documents`).
//! So the calls of version_store on `Documents` give and take the roots of the trees that
//! doc_records reads and doc_edits edits.
//!
//! A command is answered by a draft, a reading, a refusal, a full heap or a new version, or its
//! turn is lost. proofs/Turning has a lemma for each such end, and proofs/Commands the ends of each
//! command. The state of a client is a record of plain values here: no heap is named, and no code
//! runs. A log stays in step with the client's pass and trail, and what a client leaves is such a
//! log, with its mutator's pass, trail and claims. The collector's view at the close has those of
//! each mutator that was joined. So the logs agree on the versions that the heap had, and merged
//! they are a history of one store; each new version took a claim, so many versions stay as the
//! store's limits say, and each client's trail shows its log.
//!
//! What the calls of a session do to its heap, how a client comes to leave such a log, and how a
//! heap is closed, is for the layers above.
//!
//! Reading order: specs/Spelled, `spelling`; `places`; specs/State, Demands, Progress, Turns,
//! Runs; specs/Closing, Left, Agreed; then `theorems`.
#![tactic(auto)]

mod places;
mod spelling;
pub mod theorems;

pub use places::{
    BATCH_ROOM, BEGUN_ROOM, CALL_PLACES, EDIT_ROOM, EDIT_SPARE, LEAST_MINOR, MADE_ROOM, NEXT_ROOM,
    PLACES_BESIDES, PLACES_PER_RECORD, READY_ROOM, SETTLED_ROOM, TREE_ROOM, WALK_PLACES,
};
pub use spelling::{Documents, InRecords};
