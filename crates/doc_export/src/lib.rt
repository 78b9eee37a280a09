//! The dump of one version alongside running clients.
//!
//! `dump_run` opens a heap for a store of versions, and runs each script by a client on a mutator
//! of that heap, concurrently with the collector. On one more mutator it runs a guest, which waits
//! for the end of some script, takes the latest version and dumps it. The layer above may rely on
//! what `Dumps` says: the logs are those of a run of the scripts, the guest read the latest version
//! from the anchor, and the bytes are the dump of its number and of the tree that the merged
//! history has after it.
//!
//! The dump itself (`dumping`) is of a version that a mutator holds. What was held and known is as
//! before, and the mutator looked for a handshake at least once for each node, after it has read
//! the node's text and before it adds the node's line. From the root down, one place is held for
//! each node on the path to the current one, at most nine; the readers of a node use more while
//! they run.
//!
//! Reading order: `fault`, `lines`, specs/Lines; specs/Still, Looks, Walks, `walking`;
//! specs/Outcome, `dumping`; `dumped`, specs/Dumps; `ending`, `waiting`; specs/Guests, `guest`;
//! `beside`; specs/Parts, `opened`, `running`.
#![tactic(auto)]

mod beside;
mod dumped;
mod dumping;
mod ending;
mod fault;
mod guest;
mod lines;
mod opened;
mod running;
mod waiting;
mod walking;

pub use client_run::Options;
pub use collector::NoMemory;
pub use dumped::Dumped;
pub use running::dump_run;
