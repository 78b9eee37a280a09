//! What no clause says of doc_run, and the rows of examples/rows cannot show: each call of a device
//! failing in turn, in which pieces the output is offered, what is handed back of a text that was
//! not written whole, which gate is asked, how many files are opened, and the text of each fault.
//!
//! Reading order: `outcomes`; `failing`, `pieces`, `gates`, `handed_back`, `refused`.
#![tactic(auto)]

#[cfg(test)]
mod failing;
#[cfg(test)]
mod gates;
#[cfg(test)]
mod handed_back;
#[cfg(test)]
mod outcomes;
#[cfg(test)]
mod pieces;
#[cfg(test)]
mod refused;
