//! The top call: what is promised of it are six sentences, and four lines on what it hands back.
//!
//! A sentence is a record of `specs/Sentences`, whose fields are its facts by name; that on the
//! status which is due is a line a request, of `specs/Due`.
ghost use Rattle.std.specs.Prelude.{◌≡◌, ◌⊎◌, ◌↔◌, IsSome};
ghost use Rattle.std.specs.Io.KnownBytes.{Appends};
ghost use Rattle.doc_run.specs.Due.{IsDueOf};
ghost use Rattle.doc_run.specs.Guested.{IsTooLarge};
ghost use Rattle.doc_run.specs.Request.{ForClients, ForDump, ForMailbox, kind_of};
ghost use Rattle.doc_run.specs.Sentences.{Calls, Completed, Failures, Refusals, Written};
ghost use Rattle.command_line.specs.Requests.{request_of};
ghost use Rattle.script_files.specs.Fault.{status_of};

use crate::outcome::Outcome;
use crate::requests::answer_request;
use crate::words::Words;
use crate::writing::write;
use outside::{Gate, READ_LIMIT, Shelf, Sink};
use std::alloc::Global;
use std::sync::Wait;
use std::thread::Threads;

/// Answers the words of a command line: reads from the shelf what they name, and writes the answer
/// to the sink. Clients run in threads of their own; before each command its client asks the gate.
pub fn run<R: Threads + Wait + Sync, H: Shelf, S: Sink, G: Gate + Sync>(
    alloc: Global,
    rt: &R,
    words: &Words,
    shelf: &mut H,
    sink: &mut S,
    gate: &G,
) -> Outcome
    ensures status { result.status ≡ status_of result.fault }
    ensures finished { IsSome result.finished
        ↔ ((kind_of (request_of words.now) ≡ ForClients)
        × ((result.status ≡ 0) ⊎ (result.status ≡ 4))) }
    ensures dumped { IsSome result.dumped
        ↔ ((kind_of (request_of words.now) ≡ ForDump)
        × ((result.status ≡ 0) ⊎ (result.status ≡ 4)
        ⊎ ((result.status ≡ 6) × IsTooLarge result.dumped))) }
    ensures mailed { IsSome result.mailed
        ↔ ((kind_of (request_of words.now) ≡ ForMailbox)
        × ((result.status ≡ 0) ⊎ (result.status ≡ 4))) }

    // At status 0 what the request comes to is handed back, and all of its text was written.
    ensures completed { result.status ≡ 0
        → Completed (H.holds shelf.old) (request_of words.now) result
        (Appends (S.written sink.old) (S.written sink.new)) }
    // Words are refused, and files, for what they are.
    ensures refused { Refusals (H.holds shelf.old) (request_of words.now) result }
    // The status is that which the files call for.
    ensures due { IsDueOf (H.holds shelf.old) (request_of words.now) result.dumped result.status }
    // Any other comes where a device failed, or memory was wanting.
    ensures failed { Failures result (H.opens shelf.old) (H.opens shelf.new)
        (H.faults shelf.old) (H.faults shelf.new)
        (S.written sink.old) (S.written sink.new)
        (S.faults sink.old) (S.faults sink.new) (S.wants sink.old) (S.wants sink.new) }
    // Then a front of that text was written, or nothing, and where it is refused nothing.
    ensures written { Written (H.holds shelf.old) (request_of words.now) result
        (S.written sink.old) (S.written sink.new) }
    // Each file is opened once at most, in turn, and no call is made after one that fails.
    ensures calls { Calls (H.holds shelf.old) (request_of words.now) result READ_LIMIT
        (H.opens shelf.old) (H.opens shelf.new) (H.calls shelf.old) (H.calls shelf.new)
        (H.course shelf.old) (H.course shelf.new) (S.course sink.old) (S.course sink.new) }
{
    write(sink, answer_request(alloc, rt, words, shelf, gate))
}
