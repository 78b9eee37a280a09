//! The trees of documents that a client works on: sealed cells of the shared heap that its mutator
//! holds, and private records, as one pool of records; and how trees in it are read and edited.
//!
//! A shared record is named by its place in the held list, a private one by its number. The layer
//! above may rely on this: the pool of both is a `RecordPool`, so all that is proved of trees in
//! such a pool holds of them. Each call does what the one of doc_records or doc_edits does on the
//! tree that is known of the node, and leaves the mutator and the private heap as `Leaves` says:
//! the pass, the claims and all that was known and held stay, the trail grows by reads, which show
//! what was read of a shared node, and the private heap keeps its records. A private record stands
//! as long as the shared places that it leads to. Nothing here allocates or waits.
//!
//! Reading order: specs/Records; `at`, `seat`, `records`, `pool`; then specs/Leaves, Nodes;
//! `reading`, `editing`.
#![tactic(auto)]

mod at;
mod editing;
mod pool;
mod reading;
mod records;
mod seat;

pub use at::NodeAt;
pub use editing::{attach, delete, empty_node, set_text};
pub use reading::{child, count, height, names, text_of};
pub use records::ClientRecords;
pub use seat::ClientSeat;
