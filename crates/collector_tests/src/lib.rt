//! Whole cycles on a heap of words: what the reports of cycles count, worked out by hand; cycles
//! while a mutator is out; and mutators that claim on threads of their own while a collector
//! serves, or come in and go out again meanwhile; and where the collector sleeps, and where it may
//! not.
//!
//! Reading order: `heaps`, `collecting`, `mutating`, `watching`; `cycles`, `who_is_out`, `threads`,
//! `coming_and_going`, `sleeping`, `running`.
#![tactic(auto)]

mod collecting;
#[cfg(test)]
mod coming_and_going;
#[cfg(test)]
mod cycles;
mod heaps;
mod mutating;
#[cfg(test)]
mod running;
#[cfg(test)]
mod sleeping;
#[cfg(test)]
mod threads;
#[cfg(test)]
mod watching;
#[cfg(test)]
mod who_is_out;
