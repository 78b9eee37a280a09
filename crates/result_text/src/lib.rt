//! All that the program writes of a run of clients: the text of the logs, and of generated scripts
//! a summary. And what it writes of a dump that it loaded, of a census, and of a run of a mailbox.
//!
//! `output_text` has the clients' replies, then the merged history and the totals where they are
//! asked for; `summary_text` the counts of a run of generated scripts; `loaded_text` how large the
//! tree of a dump is; `census_text` what the cells of a heap are for; `mailed_text` what became of
//! each line that was sent, and the items that were received. The layer above may rely on the bytes
//! being those of the definitions in specs/. A line of a reply, of an entry and of the totals is
//! that of cmd_text. Where the bytes go is left to others.
//!
//! Reading order: `output`, `summary`, `loaded`, `counted`, `mailed`.
#![tactic(auto)]

mod counted;
mod loaded;
mod mailed;
mod output;
mod summary;

pub use counted::census_text;
pub use loaded::loaded_text;
pub use mailed::mailed_text;
pub use output::{Shown, output_text};
pub use summary::{Made, summary_text};
