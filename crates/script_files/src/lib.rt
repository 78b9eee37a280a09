//! What the files of a command line hold: scripts, one for each client or for each sender of a
//! mailbox, a schedule, a dump, or a closed heap.
//!
//! `scripts_in_files` and `mail_in_files` read several files in turn, `scripts_made` the texts of
//! the generator in their place; `replay_in_file` gives the replay text of a schedule,
//! `dump_in_file` what a dump is of, and `census_in_file` the census of a heap. The layer above may
//! rely on an answer being that of the definitions in specs/ for the bytes that the shelf tells, on
//! the first file that is refused deciding, and on how often the shelf was called. `Fault` is each
//! way in which the program may end early, with its status and its text. What scripts are answered,
//! and what is written, is left to others.
//!
//! A script of a mailbox's sender is read by a fixed grammar, and a fault names its first faulty
//! line. `generated` makes the text of a client's script from a number, so that a large input can
//! be named by three numbers: two draws of a linear congruential generator choose each line.
//!
//! Reading order: `fault`, `in_turn`, `scripts`; `draws`, `asks`, `generating`, `made`;
//! `mail_fault`, `mail_line`, `mail_script`, `mail`; `replayed`, `loaded`, `counted`.
#![tactic(auto)]

mod asks;
mod counted;
mod draws;
mod fault;
mod generating;
mod in_turn;
mod loaded;
mod made;
mod mail;
mod mail_fault;
mod mail_line;
mod mail_script;
mod replayed;
mod scripts;

pub use counted::census_in_file;
pub use fault::{Fault, fault_text, final_fault, status};
pub use generating::generated;
pub use loaded::dump_in_file;
pub use made::{is_too_large, scripts_made};
pub use mail::mail_in_files;
pub use mail_fault::MailKind;
pub use replayed::replay_in_file;
pub use scripts::{Scripts, scripts_in_files};
