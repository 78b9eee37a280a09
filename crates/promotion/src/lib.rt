//! Promotion and minor collection: private records of a mutator are copied into the shared heap.
//!
//! A private record names only older ones, so one pass from the oldest record to the newest copies
//! each that is reached, once: what it names has its copy already. The layer above may rely on
//! this: the copy of a record is a sealed record with the same term, held at a place that the call
//! tells; and where no cell can be claimed the held list and the private heap are as before.
//!
//! A copy needs a place of the held list until the call ends, and no call allocates memory. The
//! layer above decides which records to copy, and when.
//!
//! Reading order: specs/Sharing, Promoting, Copying, Hinting, Linking; `copying`; specs/Ready,
//! `promoter`.
#![tactic(auto)]

mod copying;
mod promoter;

pub use copying::is_filled_in;
pub use promoter::{NoMemory, Promoter};
