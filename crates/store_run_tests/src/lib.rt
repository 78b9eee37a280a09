//! What no clause says of a run of clients: that they run concurrently with each other and with the
//! collector and ask their gate, how many cells they take, and what is in these. And of the dump of
//! a version alongside them: that the guest waits for the end of a script and at its gate, that it
//! and the collector go on alongside the clients, and that it needs no place of a client's.
//!
//! Reading order: `scripts`, `counting`, `gates`, `rows`, `smallest`, `cells`; `between`,
//! `dumping`, `dumps`.
#![tactic(auto)]

#[cfg(test)]
mod between;
#[cfg(test)]
mod cells;
#[cfg(test)]
mod counting;
#[cfg(test)]
mod dumping;
#[cfg(test)]
mod dumps;
#[cfg(test)]
mod gates;
#[cfg(test)]
mod rows;
#[cfg(test)]
mod scripts;
#[cfg(test)]
mod smallest;
