//! A store's heap at its close: the versions that its words show, how many cells are used, and its
//! census.
//!
//! What the layer above may rely on is said of the colours and fields that the closed words show,
//! and of nothing else. Where every mutator was joined and the oldest version that stays was cut,
//! the anchor leads to as many versions as stay, each with its tree, and to no other box. Two
//! readers count the cells that are used and the nodes of the latest version's tree. A census asks
//! each cell with a role for the layout of that role: of a store's closed heap it is never refused,
//! its versions are those of the chain that stays, and no cell floats there where the anchor leads
//! to every used one.
//!
//! When a cut is made, and that garbage is freed, is left to the crates that run clients and the
//! collector; how a census is taken, to heap_census.
//!
//! Reading order: specs/Chain, Closing, Kept; `theorems`; specs/Words, then `reading`.
#![tactic(auto)]

mod reading;
pub mod theorems;

pub use reading::{latest_nodes, used_cells};
