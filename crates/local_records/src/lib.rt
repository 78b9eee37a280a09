//! The private records of one mutator, for a program that is not proved: it makes them, reads them,
//! keeps roots, and has them copied into the shared heap a part at a time.
//!
//! The layer above may rely on this: a reference that is found is of this turn, and each call that
//! moves records counts the turn on; fields of records, copies and roots are places below `named`
//! alone, so that whoever leaves those as they were known leaves all of it in force (`theorems`); a
//! record keeps its term, its copy has it, and when the roots settle each is held as what it was.
//! That a mutator that goes out has no private records is the layer above's business.
//!
//! The calls that copy take the heap and the seat, for an owner of both.
//!
//! Reading order: specs/Local, `local`; `making`, `roots`, `moving`; `copying`; specs/Settling,
//! `settling`; `theorems`.
#![tactic(auto)]

mod copying;
mod local;
mod making;
mod moving;
mod roots;
mod settling;
pub mod theorems;

pub use local::{LocalRecords, NoMemory};
pub use making::NotMade;
