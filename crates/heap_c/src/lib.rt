//! The heap as a static library for C.
//!
//! A handle is a struct of one pointer in the memory of C, zero at first: `HeapMut` is a mutator's,
//! `HeapCol` the collector's. A call is given handles by address and answers a code; where that is
//! not `Ok` nothing has changed. No call asks for anything but good addresses: each misuse that can
//! be tested has a code.
//!
//! A handle may go to another thread, and is used by one call at a time: `Send` is proved of both.
//!
//! Reading order: `rule`, `sharing`, `claiming`, `mine`, `parts`, `handle`, `works`, `collecting`,
//! `keeper`, `codes`, `turns`, `values`; `using` and `fields`, which work on a seat; `records`,
//! `rooting`, `cells` and `moving`, on private records; `owned`, which keeps these in force;
//! `walking`, which reads along a path; then the calls, `opening`, `coming`, `calls`, `private`,
//! `moves`, `looking`. Of the definitions: Owning, Turns, Holding, Keeping, Refusing, Calls,
//! Records, Moving, Keeps, Walking, Handles, Seating.
#![tactic(auto)]

mod calls;
mod cells;
mod claiming;
mod codes;
mod collecting;
mod coming;
mod fields;
mod handle;
mod keeper;
mod looking;
mod mine;
mod moves;
mod moving;
mod opening;
mod owned;
mod parts;
mod private;
mod records;
mod rooting;
mod rule;
mod sharing;
mod turns;
mod using;
mod values;
mod walking;
mod works;

pub use codes::Code;
pub use handle::HeapMut;
pub use keeper::HeapCol;
