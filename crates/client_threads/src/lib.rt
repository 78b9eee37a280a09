//! Clients in threads of their own, on a heap that is opened for them.
//!
//! The layer above may rely on this: when `run_client` returns, the client's mutator is over, and
//! its log is in step with what its seat has; a client that did not fail answered its whole script.
//! How mutators run in threads, concurrently with the collector, is mutator_threads': a client is
//! what one of its workers has of its own. A mutator that is no client may wait by `await_gate`.
//! No clause says that anything runs concurrently.
//!
//! Reading order: `clients`, specs/Clients; specs/Opened, `opening`; specs/Going, `answering`,
//! `running`; specs/Taken, `taking_back`; specs/Ends; `theorems`.
#![tactic(auto)]

mod answering;
mod clients;
mod opening;
mod running;
mod taking_back;
pub mod theorems;

pub use answering::await_gate;
pub use clients::Client;
pub use opening::{new_client, open_store};
pub use running::run_client;
pub use taking_back::take_logs;
