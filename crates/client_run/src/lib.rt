//! A client's session on its mutator: what it keeps from one command to the next, and its answers.
//!
//! The layer above may rely on this: all that client_session says of a journal's answers holds, in
//! the words of the mutator, the private heap and the draft; what an answer needs of these holds
//! after it again, and after handshakes that the mutator answers then; and the mutator is the same
//! one then, with hints of the same queue. `Options` are the numbers by which a store is run, for
//! the layers above.
//!
//! Reading order: specs/Own, Answers; then `over`, `session`, `theorems`; `options`, specs/Options.
#![tactic(auto)]

mod options;
mod over;
mod session;
pub mod theorems;

pub use client_session::Limits;
pub use options::Options;
pub use session::Session;
