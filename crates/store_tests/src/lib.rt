//! What no clause says of doc_tree and doc_model: each public call on its happy path, and histories
//! that are wrong in one place. And of line_texts, each call on its happy path, and of dump_text,
//! the texts of a store that was loaded; what these read and write else, as quoted_text, cmd_text
//! and script_files do, stands in the rows of examples/rows.
//!
//! Reading order: `tree_words`, `trees`; `made`, `stores`, `batches`; `lines`, `dumps`.
#![tactic(auto)]

#[cfg(test)]
mod batches;
#[cfg(test)]
mod dumps;
#[cfg(test)]
mod lines;
#[cfg(test)]
mod made;
#[cfg(test)]
mod stores;
#[cfg(test)]
mod tree_words;
#[cfg(test)]
mod trees;
