//! What a thread's trail shows: reads and writes in order, stretches that follow one another, and
//! the stretch of a claim that found the heap full.
//!
//! A trail is the list of one maker's events with what they found. The layers above promise what a
//! trail has, and never look at it by an index: they ask for reads and writes in an order, or for
//! a stretch for each entry of a log. The definitions in specs/ are lists alone, and so are the
//! lemmas in proofs/, which every layer above cites. The laws in `theorems` are those that a reader
//! of the promises wants; no code runs here.
//!
//! Reading order: specs/Marks, Asks, Stretches, Claims, Telling; then `theorems`.
#![tactic(auto)]

pub mod theorems;
