//! A mailbox by single calls, on a real heap whose collector is off duty, and whole runs on real
//! threads: outcomes that were worked out by hand, and one that is checked against what a run
//! promises.
//!
//! Reading order: `opening`, `calling`, `by_turns`, `waits`; `scripts`, `reading`, `runs`.
#![tactic(auto)]

#[cfg(test)]
mod by_turns;
mod calling;
mod opening;
#[cfg(test)]
mod reading;
#[cfg(test)]
mod runs;
#[cfg(test)]
mod scripts;
#[cfg(test)]
mod waits;
