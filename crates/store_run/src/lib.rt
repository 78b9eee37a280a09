//! A run of clients: from the opening of a heap to its close.
//!
//! `run_clients` opens a heap for a store of versions, runs each script by a client on a mutator of
//! that heap, beside the collector, and closes it. The layer above may rely on what `Comes` says,
//! in two halves: each log has its script's commands, and merged the logs are a legal history of
//! one store (`Answered`); each log is tied to what its own mutator left, the versions that are
//! kept stand in the image, and the totals are those of the image and the logs (`LeavesHeap`). How
//! a script is read and a log written is left to that layer.
//!
//! Reading order: client_run specs/Options; specs/Answered, specs/Finished, `finished`;
//! specs/Parts; then `totals`, `opened`, `running`.
#![tactic(auto)]

mod finished;
mod opened;
mod running;
mod totals;

pub use client_run::Options;
pub use finished::Finished;
pub use running::run_clients;
