//! One file: it is replayed as a schedule, loaded as a dump or counted as a heap.
ghost use Rattle.std.specs.Prelude.{◌≡◌, ℕ, ◌+◌, ◌≤◌, IsErrOf, OnOk, Some};
ghost use Rattle.outside.specs.Calls.{IsUnbroken, IsOrderly};
ghost use Rattle.outside.specs.Causes.{Rose, next_count};
ghost use Rattle.doc_run.specs.Answers.{Decided, refusal_of};
ghost use Rattle.doc_run.specs.Reading.{AnswersFile};
ghost use Rattle.doc_run.specs.Reads.{Reads};
ghost use Rattle.doc_run.specs.Request.{asked_of};

use crate::answer::{Answer, Refusal};
use outside::{READ_LIMIT, Shelf};
use result_text::{census_text, loaded_text};
use script_files::{Fault, census_in_file, dump_in_file, replay_in_file};
use std::alloc::Global;

/// What a file is read as.
#[derive(Clone, Copy, Debug, PartialEq, Eq)]
pub enum Reading {
    /// a schedule of the collector, of which the replay is written
    Schedules,
    /// a dump, of which it is written how large its tree is
    Dumps,
    /// the image of a heap, of which the census is written
    Images,
}

/// Its text.
pub fn answer_file<H: Shelf>(
    alloc: Global,
    reading: Reading,
    name: &str,
    shelf: &mut H,
) -> Result<Answer, Refusal>
    ensures decided { Decided (H.holds shelf.old) (Some (asked_of reading name.now)) result }
    ensures reads { Reads (H.holds shelf.old) (Some (asked_of reading name.now))
        (refusal_of result) READ_LIMIT (H.opens shelf.old) (H.opens shelf.new)
        (H.calls shelf.old) (H.calls shelf.new) (H.faults shelf.old) (H.faults shelf.new)
        (H.course shelf.old) (H.course shelf.new) }
{
    match file_text(alloc, reading, name, shelf) {
        Ok(text) => Ok(Answer::Text(text)),
        Err(fault) => Err(Refusal::by(fault)),
    }
}

// Its text.
fn file_text<H: Shelf>(
    alloc: Global,
    reading: Reading,
    name: &str,
    shelf: &mut H,
) -> Result<Vec<u8>, Fault>
    ensures answer { AnswersFile reading (H.holds shelf.old name.now) result }
    ensures read { (file : ℕ) → IsErrOf result (Fault.ReadFault file) →
        Rose (H.faults shelf.old) (H.faults shelf.new) }
    ensures opens { H.opens shelf.new ≡ next_count (H.opens shelf.old) }
    ensures calls { H.calls shelf.new ≤ H.calls shelf.old + READ_LIMIT + 1 }
    ensures unbroken { OnOk result (IsUnbroken (H.course shelf.old)
        → IsUnbroken (H.course shelf.new)) }
    ensures orderly { IsUnbroken (H.course shelf.old) → IsOrderly (H.course shelf.new) }
{
    match reading {
        Reading::Schedules => replay_in_file(alloc, name, shelf),
        Reading::Dumps => match dump_in_file(alloc, name, shelf) {
            Ok(loaded) => match loaded_text(alloc, loaded.version, &loaded.tree) {
                Ok(text) => Ok(text),
                Err(_) => Err(Fault::Memory),
            },
            Err(fault) => Err(fault),
        },
        Reading::Images => match census_in_file(alloc, name, shelf) {
            Ok(census) => match census_text(alloc, &census) {
                Ok(text) => Ok(text),
                Err(_) => Err(Fault::Memory),
            },
            Err(fault) => Err(fault),
        },
    }
}
