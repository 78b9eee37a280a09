//! The calls on versions, on real heaps: outcomes on one thread that were worked out by hand, and
//! what holds on every schedule of two threads.
//!
//! Reading order: `bare`, `opening`, `working`; `one_thread`; `clients`, `serving`, `two_threads`.
#![tactic(auto)]

mod bare;
#[cfg(test)]
mod clients;
#[cfg(test)]
mod one_thread;
mod opening;
#[cfg(test)]
mod serving;
#[cfg(test)]
mod two_threads;
mod working;
