//! The scripts of files: they are answered, and alongside their clients a version is dumped.
ghost use Rattle.std.specs.Prelude.{◌≤◌, Some, length};
ghost use Rattle.doc_run.specs.Answers.{Decided, IsOfDump, refusal_of};
ghost use Rattle.doc_run.specs.Reads.{Reads};
ghost use Rattle.command_line.specs.Requests.{Dump, names_by};

use crate::answer::{Answer, Refusal};
use crate::clients::dump_files;
use doc_export::Dumped;
use outside::{Gate, READ_LIMIT, Shelf};
use script_files::Fault;
use std::alloc::Global;
use std::sync::Wait;
use std::thread::Threads;

// How many scripts there are at most: the guest that dumps takes the place of one.
const MOST_BESIDE: usize = 63;

/// Answers the scripts in the files of these names, with a version that is dumped alongside them.
pub fn dump_beside<R: Threads + Wait + Sync, H: Shelf, G: Gate + Sync>(
    alloc: Global,
    rt: &R,
    names: &Vec<&str>,
    shelf: &mut H,
    gate: &G,
) -> Result<Answer, Refusal>
    requires some { 1 ≤ length names.now.items }
    ensures decided { Decided (H.holds shelf.old) (Some (Dump (names_by names.now))) result }
    ensures reads { Reads (H.holds shelf.old) (Some (Dump (names_by names.now)))
        (refusal_of result) READ_LIMIT (H.opens shelf.old) (H.opens shelf.new)
        (H.calls shelf.old) (H.calls shelf.new) (H.faults shelf.old) (H.faults shelf.new)
        (H.course shelf.old) (H.course shelf.new) }
{
    if names.len() > MOST_BESIDE {
        return Err(Refusal::by(Fault::TooLarge { file: 0 }));
    }
    match dump_files(alloc, rt, names, shelf, gate) {
        Ok(dumped) => if_small(dumped),
        Err(fault) => Err(Refusal::by(fault)),
    }
}

// The dump, unless the tree of the version is too large for one.
fn if_small(dumped: Dumped) -> Result<Answer, Refusal>
    ensures { IsOfDump dumped result }
{
    match &dumped.bytes {
        Some(_) => Ok(Answer::Dumped(dumped)),
        None => Err(Refusal {
            fault: Fault::TooLarge { file: 0 },
            dumped: Some(dumped),
        }),
    }
}
