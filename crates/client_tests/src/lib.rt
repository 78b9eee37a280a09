//! What no clause says of client_trees, on a real heap: each public call on its happy path, at a
//! private place and at a shared one; and how much an edit makes. The rows of examples/rows show
//! what is refused.
//!
//! Reading order: `heaps`, `calls`; `places`, `sharing`.
#![tactic(auto)]

#[cfg(test)]
mod calls;
#[cfg(test)]
mod heaps;
#[cfg(test)]
mod places;
#[cfg(test)]
mod sharing;
