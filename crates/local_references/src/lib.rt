//! References to private records for a program that is not proved, and the roots that it keeps.
//!
//! Whenever records move their numbers change, and a program that kept a number would read another
//! record. So each move counts a turn on, and a reference has the turn in which it was given: one
//! of an earlier turn is refused and never misread. What is to outlive a move stands in a stack of
//! roots, whose records move with the others. A root may as well be null, a number, or a place of
//! the held list.
//!
//! The layer above may rely on this: a reference that is found is of this turn, and its record
//! stands; an ageing leaves each root what it denoted, lets go what no root reaches, and counts the
//! turn on. That all else which moves records counts the turn on is the layer above's business.
//!
//! Reading order: `references`; specs/Roots, `roots`, `moving`, `theorems`.
#![tactic(auto)]

mod moving;
mod references;
mod roots;
pub mod theorems;

pub use references::{LocalRef, Spent, Turns};
pub use roots::{NoMemory, Root, RootStack, StackFull};
