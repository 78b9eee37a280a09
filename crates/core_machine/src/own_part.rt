//! A mutator's own part as a value, for types that proofs alone look into, as a view of a table.
//!
//! The machine keeps own parts with their rooms in `mutator_parts`; nothing here runs.
use crate::pending::Pending;
use crate::places::Held;
use cell_words::Control;
use std::marker::Model;

/// What a mutator holds, its mode, its pending write and its claims: what no word of the heap
/// shows.
#[derive(Drop)]
pub struct OwnPart {
    held: Vec<Held>,
    mode: Option<Control>,
    pending: Option<Pending>,
    claims: u64,
}

impl Model for OwnPart {
    ghost use Rattle.core_machine.specs.Own.{Own};

    ghost Value = { Own };

    ghost view = { λ p. record {
      held = p.held.items;
      mode = p.mode;
      pending = p.pending;
      claims = p.claims;
    } };
}
