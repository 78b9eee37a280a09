//! What no clause says of kids_avl: that a pool can meet every clause of its trait, shown by a
//! proved one in memory, and each public call on its happy path, with heights and numbers of
//! entries that another program worked out.
//!
//! Reading order: `label`, `memory`, `row`, `rows`.
#![tactic(auto)]

#[cfg(test)]
mod label;
#[cfg(test)]
mod memory;
#[cfg(test)]
mod row;
#[cfg(test)]
mod rows;
