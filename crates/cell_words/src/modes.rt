//! The choices of a mutator's operation, from its own status and the control as one look found it.
//!
//! The look may be stale by the time that a choice is used: the stage may have moved on, at most to
//! where the next handshake waits for this mutator. Each choice is safe then too.
//!
//! This module is public, since `barrier` and `Barrier` cannot both be names of the crate's root:
//! the toolchain refuses names of one module that differ only in case.
ghost use Rattle.cell_words.specs.Modes.{barrier_of, claim_colour_of, next_status_of, requested_of};
ghost use Rattle.std.specs.Prelude.{◌≡◌};

use crate::{Barrier, Colour, Control, Stage, Status};

/// The status that the collector asks for at a stage.
pub fn requested(stage: Stage) -> Status
    ensures status { result ≡ requested_of stage }
{
    match stage {
        Stage::Idle | Stage::Trace | Stage::Sweep => Status::Async,
        Stage::Sync1 | Stage::Clear => Status::Sync1,
        Stage::Sync2 => Status::Sync2,
    }
}

/// The status that a mutator takes by its next answer.
pub fn next_status(status: Status) -> Status
    ensures status { result ≡ next_status_of status }
{
    match status {
        Status::Async => Status::Sync1,
        Status::Sync1 => Status::Sync2,
        Status::Sync2 => Status::Async,
    }
}

/// The colour that a new cell gets. `cell` is its index, which matters while the collector sweeps:
/// a cell ahead of the sweep is born black, so that the sweep does not free it.
pub fn claim_colour(status: Status, control: Control, cell: u32) -> Colour
    ensures colour { result ≡ claim_colour_of status control cell }
{
    match (status, control.stage) {
        (Status::Async, Stage::Trace) => Colour::Black,
        (Status::Async, Stage::Sweep) if cell >= control.position => Colour::Black,
        _ => Colour::White,
    }
}

/// What a write marks before it changes a field.
pub fn barrier(status: Status, control: Control) -> Barrier
    ensures barrier { result ≡ barrier_of status control }
{
    match (status, control.stage) {
        (Status::Sync1 | Status::Sync2, _) => Barrier::Both,
        (Status::Async, Stage::Trace) => Barrier::Old,
        (Status::Async, _) => Barrier::Nothing,
    }
}
