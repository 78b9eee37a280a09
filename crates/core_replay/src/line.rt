//! One line of a schedule.
ghost use Rattle.core_replay.specs.Lines.{HasAllowedSizes, reading_of};
ghost use Rattle.std.specs.Prelude.{IfOk, ◌≡◌};

use crate::event::read_step;
use crate::fault::ScheduleKind;
use crate::start::{Sizes, read_start};
use crate::step::Step;
use line_texts::{counts, is_plain, without_return};

/// A step of a schedule, with the number of its line.
#[derive(Clone, Copy, Debug, PartialEq, Eq)]
pub struct Numbered {
    pub line: u32,
    pub step: Step,
}

/// What a line gives.
#[derive(Clone, Copy)]
pub(crate) enum Reading {
    Nothing,
    Start(Sizes),
    Next(Step),
}

/// The reading of a line, by whether the core has its sizes already. The line comes without its
/// line feed.
pub(crate) fn read_line(sizes: Option<Sizes>, line: &[u8]) -> Result<Reading, ScheduleKind>
    ensures reading { result ≡ reading_of sizes line.now }
    ensures allowed { IfOk result HasAllowedSizes }
{
    let line = without_return(line);
    if !counts(line) {
        return Ok(Reading::Nothing);
    }
    if !is_plain(line) {
        return Err(ScheduleKind::BadByte);
    }
    match sizes {
        None => Ok(Reading::Start(read_start(line)?)),
        Some(_) => Ok(Reading::Next(read_step(line)?)),
    }
}
