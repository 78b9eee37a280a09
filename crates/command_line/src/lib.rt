//! The words of a command line: what they ask the program for.
//!
//! The first word is the subcommand, compared byte for byte; the words after it are read by one
//! simple command of `clap` each. The layer above may rely on `read_words` answering a request
//! exactly where those commands take the words, with the values that they then find, and on each
//! number being within its limits. What is done with a request is left to others.
//!
//! Reading order: `request`, `limits`, `commands`, `values`, `reading`.
#![tactic(auto)]

mod commands;
mod limits;
mod reading;
mod request;
mod values;

pub use crate::reading::read_words;
pub use crate::request::{GenWords, MailWords, Request, RunWords, WordsFault};
