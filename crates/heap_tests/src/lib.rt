//! What no clause says of the crates around the shared heap: each public call on its happy path,
//! rows that were worked out by hand, threads that share a queue of hints or ask for blocks at
//! once, and one that sleeps.
//!
//! Reading order: `hints`, `threads`, `missing`, `sleeping`, `blocks`, `block_threads`, `records`,
//! `ageing`, `references`.
#![tactic(auto)]

#[cfg(test)]
mod ageing;
#[cfg(test)]
mod block_threads;
#[cfg(test)]
mod blocks;
#[cfg(test)]
mod hints;
#[cfg(test)]
mod missing;
#[cfg(test)]
mod records;
#[cfg(test)]
mod references;
#[cfg(test)]
mod sleeping;
#[cfg(test)]
mod threads;
