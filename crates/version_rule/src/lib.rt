//! The versions of a document store in the boxes of a collected heap, as a client's rule: what
//! stands of them between any two steps, whatever the mutators and the collector do.
//!
//! The anchor names the box of the latest version. A version's box has its number, the root of its
//! tree and a link to the version before it. A commit is one write of the anchor's field, a trim
//! one store or exchange of a link, and all else that a client does with versions is reads.
//!
//! Here stand the rule, a fact of plain data (the boxes, and a pass for each mutator), and lemmas:
//! that the opening has it, that each kind of step keeps it with the pass that the client picks
//! there, and what a step tells. No seat, no word and no thread is named. How a term spells a tree
//! is the client's affair (`Spelling`).
//!
//! Reading order: specs/Pass, Fits, Versions; `Spelling`, `Versions`; specs/Knowing, Shows; then
//! `theorems`.
#![tactic(auto)]

mod held;
mod spelling;
pub mod theorems;
mod versions;

pub use held::HeldVersion;
pub use spelling::Spelling;
pub use versions::Versions;
