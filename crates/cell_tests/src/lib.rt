//! Clients of the heap in an atomic table, on real threads: a rule of their own that is proved to
//! stand to the close, and the outcomes that stand on every schedule. And what no clause says of
//! heap_census: heaps without a census. The rows of examples/rows show what is counted in a heap as
//! text, and what is none.
//!
//! Reading order: `counter`, `working`, `closing`, `threads`;
//! `collecting`, `unlinked`, `scanning`, `scans`, `in_runs`, `schedule`; `storing`, `fetching`,
//! `sameness`, `stores`; `closed`.
#![tactic(auto)]

#[cfg(test)]
mod closed;
mod closing;
mod collecting;
mod counter;
mod fetching;
mod in_runs;
mod sameness;
mod scanning;
#[cfg(test)]
mod scans;
#[cfg(test)]
mod schedule;
#[cfg(test)]
mod stores;
mod storing;
#[cfg(test)]
mod threads;
mod unlinked;
mod working;
