//! A whole schedule.
ghost use Rattle.core_replay.specs.Reads.{Reads};
ghost use Rattle.core_replay.specs.Schedule.{schedule_of};
ghost use Rattle.core_replay.specs.ScheduleValue.{are_sizes};
ghost use Rattle.std.specs.Prelude.{IsTrue, length, ◌-◌, ◌<◌, ◌^◌, ◌≡◌};

use crate::fault::{ScheduleError, ScheduleFault, ScheduleKind};
use crate::line::{Numbered, Reading, read_line};
use crate::start::Sizes;
use std::alloc::Global;
use std::marker::Model;

/// The sizes of a core and the steps that it is to take.
#[derive(Debug, Drop)]
pub struct Schedule {
    sizes: Sizes,
    steps: Vec<Numbered>,
}

impl Model for Schedule {
    ghost use Rattle.core_replay.specs.ScheduleValue.{ScheduleValue, are_sizes};
    ghost use Rattle.std.specs.Prelude.{IsTrue, length, ◌<◌, ◌^◌};

    ghost Value = { ScheduleValue };

    ghost view = { λ s. record { sizes = s.sizes; steps = s.steps.items } };

    ghost invariant = { λ s. IsTrue (are_sizes s.sizes) × (length s.steps.items < 2 ^ 32) };
}

impl Schedule {
    /// The sizes of the core.
    pub fn sizes(&self) -> Sizes
        ensures sizes { result ≡ self.now.sizes }
        ensures allowed { IsTrue (are_sizes result) }
    {
        self.sizes
    }

    /// What is asked for, line by line.
    pub fn steps(&self) -> &[Numbered]
        ensures steps { result.now ≡ self.now.steps }
        ensures few { length result.now < 2 ^ 32 }
    {
        &self.steps
    }
}

/// The schedule that the bytes are, or its first faulty line. The length has its bound so that the
/// number of every line fits.
pub fn read_schedule(alloc: Global, bytes: &[u8]) -> Result<Schedule, ScheduleError>
    requires { length bytes.now < 2 ^ 32 - 1 }
    ensures schedule { Reads result (schedule_of bytes.now) }
{
    let mut sizes = None;
    let mut steps = Vec::new(alloc);
    let mut number = 0;
    for line in bytes.split(|byte| *byte == b'\n') {
        number += 1;
        match read_line(sizes, line) {
            Ok(Reading::Nothing) => {}
            Ok(Reading::Start(found)) => sizes = Some(found),
            Ok(Reading::Next(step)) => steps.push(Numbered { line: number, step })?,
            Err(kind) => return Err(ScheduleError::Fault(ScheduleFault { line: number, kind })),
        }
    }
    match sizes {
        Some(sizes) => Ok(Schedule { sizes, steps }),
        None => Err(ScheduleError::Fault(ScheduleFault {
            line: 1,
            kind: ScheduleKind::NoStart,
        })),
    }
}
