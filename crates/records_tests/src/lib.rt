//! What no clause says of doc_records and doc_edits: each public call on its happy path, and rows
//! that were worked out by hand. The calls stand on a pool in memory, `MemoryPool`, which is proved
//! to be one.
//!
//! Reading order: `memory`, `texts`, `document`, `edits`.
#![tactic(auto)]

#[cfg(test)]
mod document;
#[cfg(test)]
mod edits;
mod memory;
#[cfg(test)]
mod texts;
