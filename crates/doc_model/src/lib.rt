//! The commands on trees of documents, the plain store that answers them, and histories of it.
//!
//! Every type is seen by contracts as the mathematics of it: a store is the record `Store` with
//! every version that it ever had. The layer above may rely on the answers of `PlainStore` being
//! those of the definitions in specs/, on `merge` and `is_legal` being the relations there, and on
//! the laws of `theorems`: logs that agree on one list of versions make one legal history, a log
//! goes on with each entry that stands after it, and every version and every draft is a lawful
//! tree. Names, texts, paths and trees are those of doc_tree. How commands and replies are written
//! as text is left to others, and so is how clients come to agree.
//!
//! Reading order: `edits`, `command`, `log`, `answer`, `store`, `history`, `theorems`, `totals`.
#![tactic(auto)]

mod answer;
mod command;
mod edits;
mod history;
mod log;
mod store;
mod theorems;
mod totals;

pub use crate::command::{Command, Entry, Reply};
pub use crate::edits::{Edit, Edits};
pub use crate::history::{is_legal, merge};
pub use crate::log::Log;
pub use crate::store::PlainStore;
pub use crate::theorems::{
    log_goes_on, merged_is_legal, puts_are_never_too_deep, stores_stay_lawful,
};
pub use crate::totals::Totals;
pub use doc_tree::{EditFault, Name, Names, NoMemory, Path, Text, Tree};
