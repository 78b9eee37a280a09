//! What can be wrong with a schedule.
ghost use Rattle.core_replay.specs.declared.fault.ScheduleError.TheVariants as schedule;
ghost use Rattle.std.specs.Prelude.{◌≡◌};

use std::alloc::AllocFailed;

/// What is at fault in a line of a schedule. A bad byte counts before everything else in a line,
/// and otherwise the first word at fault.
#[derive(Clone, Copy, Debug, PartialEq, Eq)]
pub enum ScheduleKind {
    /// a byte that is no plain character
    BadByte,
    /// the first line that counts is not that of the core, or there is none
    NoStart,
    /// a word that names an event, a stage or the like is missing or unknown
    NoEvent,
    /// a number or a value is missing, malformed or too large
    BadNumber,
    /// something follows the last word
    Extra,
}

/// The first faulty line of a schedule. Lines are numbered from 1.
#[derive(Clone, Copy, Debug, PartialEq, Eq)]
pub struct ScheduleFault {
    pub line: u32,
    pub kind: ScheduleKind,
}

/// Why a schedule could not be read.
#[derive(Clone, Copy, Debug, PartialEq, Eq)]
pub enum ScheduleError {
    Fault(ScheduleFault),
    NoMemory,
}

impl<T: Drop> From<AllocFailed<T>> for ScheduleError {
    ghost from_gives = { λ _ error. error ≡ schedule.NoMemory };

    fn from(_: AllocFailed<T>) -> ScheduleError {
        ScheduleError::NoMemory
    }
}
