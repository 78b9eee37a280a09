//! What a mutator's calls leave of the places that it holds, under any client's rule: which cells
//! it holds, what it knows of them, and the reads and writes that its trail shows, in order.
//!
//! A client of the heap composes its calls from those of a `Mutator`, one after the other. Each
//! leaves the same mutator with a longer trail (`Goes`), the places that it held with some after
//! them (`Holds`), and what was known of them (`StaysKnown`): of a box the terms of its fixed
//! fields, of all else everything. This crate has these definitions and the lemmas by which calls
//! are joined; no code runs here. Of the client's rule they name only the fixed fields.
//!
//! Reading order: specs/Calls; then `theorems`.
#![tactic(auto)]

pub mod theorems;
