//! What no clause says of the crates of the collector's core: each public call on its happy path,
//! and the words and runs that were worked out by hand. The schedules stand in the rows of
//! examples/rows.
//!
//! A crate that has tests is proved twice, so the tests of several crates stand here.
//!
//! Reading order: `words`, `machine`, `runs`.
#![tactic(auto)]

#[cfg(test)]
mod machine;
#[cfg(test)]
mod runs;
#[cfg(test)]
mod words;
