//! A replay, from the bytes of its file to its text.
//!
//! The refusals of a file are looked for in the order of its reading: it could not be read, it is
//! too long, it is no schedule.
ghost use Rattle.std.specs.Prelude.{◌≡◌, ℕ, ◌+◌, ◌≤◌, IsErrOf, OnOk};
ghost use Rattle.outside.specs.Calls.{IsUnbroken, IsOrderly};
ghost use Rattle.outside.specs.Causes.{Rose, next_count};
ghost use Rattle.script_files.specs.Replayed.{Replays, ReplaysFile, steps_of};

use crate::fault::Fault;
use crate::in_turn::LARGEST_FILE;
use core_replay::{ScheduleError, ScheduleFault, read_schedule, replay};
use outside::{OutFault, READ_LIMIT, Shelf, read_file};
use std::alloc::Global;

// The only file of a replay.
const FILE: u32 = 1;

/// The replay text of the schedule in the file of this name.
#[tactic(auto, using(crate::proofs::Sessions::replayed_file))]
pub fn replay_in_file<H: Shelf>(alloc: Global, name: &str, shelf: &mut H) -> Result<Vec<u8>, Fault>
    ensures replay { ReplaysFile result (H.holds shelf.old name.now) }
    ensures read { (file : ℕ) → IsErrOf result (Fault.ReadFault file) →
        Rose (H.faults shelf.old) (H.faults shelf.new) }
    ensures opens { H.opens shelf.new ≡ next_count (H.opens shelf.old) }
    ensures calls { H.calls shelf.new ≤ H.calls shelf.old + READ_LIMIT + 1 }
    ensures unbroken { OnOk result (IsUnbroken (H.course shelf.old)
        → IsUnbroken (H.course shelf.new)) }
    ensures orderly { IsUnbroken (H.course shelf.old) → IsOrderly (H.course shelf.new) }
    ensures faults { H.faults shelf.old ≤ H.faults shelf.new }
{
    match read_file(alloc, shelf, name) {
        Ok(bytes) => replay_of_bytes(alloc, &bytes),
        Err(OutFault::Failed) => Err(Fault::ReadFault { file: FILE }),
        Err(OutFault::NoMemory) => Err(Fault::Memory),
    }
}

// The replay text of a schedule.
fn replay_of_bytes(alloc: Global, bytes: &[u8]) -> Result<Vec<u8>, Fault>
    ensures replay { Replays result (steps_of bytes.now) }
{
    if bytes.len() > LARGEST_FILE {
        return Err(Fault::TooLarge { file: FILE });
    }
    match read_schedule(alloc, bytes) {
        Ok(schedule) => match replay(alloc, &schedule) {
            Ok(text) => Ok(text),
            Err(_) => Err(Fault::Memory),
        },
        Err(ScheduleError::Fault(ScheduleFault { line, kind })) => Err(Fault::Schedule {
            line,
            kind,
        }),
        Err(ScheduleError::NoMemory) => Err(Fault::Memory),
    }
}
