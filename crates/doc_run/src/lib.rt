//! What the program does, from the words of its command line to the bytes that it writes.
//!
//! `run` is the whole program as one proved call over a shelf, which files come from, and a sink,
//! which the output goes to: the scripts of several clients are answered from one store of
//! documents on the collected heap, those of files or those of a generator. Of files the replies
//! are written, or the heap that is left, or a version that was dumped beside the clients. Or the
//! values of files are sent through a mailbox on such a heap, and received. Or one file is read: a
//! schedule of the collector is replayed, a dump is loaded, or a heap counted. Its outcome has the
//! fault that the program ends with, and of a run of clients or of a mailbox all that it came to.
//! The layer above hands `run` the real shelf and sink, a runtime with threads and a gate; what a
//! file holds, and what became of standard output, no contract says.
//!
//! A request comes to an answer, with its text, or is refused; and one place writes.
//!
//! Reading order: `words`, `outcome`, `answer`, specs/Answers, `clients`, `report`, `summary`; then
//! a file for each kind of request, `scripts`, `beside`, `generated`, `mailing` and `reading`; then
//! `requests`, `writing` and `whole_run`.
#![tactic(auto)]

mod answer;
mod beside;
mod clients;
mod generated;
mod mailing;
mod outcome;
mod reading;
mod report;
mod requests;
mod scripts;
mod summary;
mod whole_run;
mod words;
mod writing;

pub use outcome::Outcome;
pub use whole_run::run;
pub use words::Words;
