//! The versions of a document store, as calls of one mutator on a collected heap.
//!
//! The anchor names the box of the latest version. Each version's box has its number, the root of
//! its tree and a link to the version before it (version_rule). Here are the calls that read
//! versions, make the next one and cut off old ones that are no longer kept. Each call is some
//! reads and at most one write of a field, which is never tried again: a commit that loses its
//! exchange is told that there is a newer version.
//!
//! The layer above may rely on this: what a call answers holds of the versions of the rule, and its
//! part of the trail shows the reads that it tells of. The held list is as it was, except for the
//! place that is answered. The pass changes only by what the clause says. That layer decides when
//! to commit again, how a term spells a tree, and when to trim.
//!
//! Only `commit` waits, for a free cell. No call allocates memory.
//!
//! Reading order: specs/Calls, Lasts, Held, Commits, Older, Writes; then `rows`, `fault`,
//! `reading`, `committing`, `walking`, with specs/Reads, Makes, Walks for what the parts of a call
//! do.
#![tactic(auto)]

mod committing;
mod fault;
mod places;
mod reading;
mod rows;
mod walking;

pub use committing::commit;
pub use fault::{CommitFault, Cut};
pub use places::STORE_PLACES;
pub use reading::{current, tree};
pub use rows::opening_rows;
pub use version_rule::HeldVersion;
pub use walking::{older, trim};
