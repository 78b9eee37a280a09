//! The one place that writes.
ghost use Rattle.std.specs.Prelude.{◌≡◌, Some, None, IsOk};
ghost use Rattle.outside.specs.Calls.{IsUnbroken, IsOrderly};
ghost use Rattle.outside.specs.Causes.{Rose};
ghost use Rattle.doc_run.specs.Written.{Ended};
ghost use Rattle.script_files.specs.Fault.{status_of};

use crate::answer::{Answer, Refusal};
use crate::outcome::Outcome;
use outside::{OutFault, Sink, write_lines};
use script_files::Fault;

/// Writes the text of an answer, all lines of which are made. What is refused writes nothing.
pub(crate) fn write<S: Sink>(sink: &mut S, answered: Result<Answer, Refusal>) -> Outcome
    ensures status { result.status ≡ status_of result.fault }
    ensures ended { Ended answered result (S.written sink.old) (S.written sink.new) }
    ensures cause { IsOk answered → result.fault ≡ Some Fault.WriteFault →
        Rose (S.faults sink.old) (S.faults sink.new) }
    ensures want { IsOk answered → result.fault ≡ Some Fault.Memory →
        Rose (S.wants sink.old) (S.wants sink.new) }
    ensures unbroken { result.fault ≡ None → IsUnbroken (S.course sink.old)
        → IsUnbroken (S.course sink.new) }
    ensures orderly { IsUnbroken (S.course sink.old) → IsOrderly (S.course sink.new) }
{
    let answer = match answered {
        Ok(answer) => answer,
        Err(refusal) => return Outcome::refused(refusal),
    };
    match write_lines(sink, answer.text()) {
        Ok(()) => Outcome::with(None, answer),
        Err(OutFault::Failed) => Outcome::with(Some(Fault::WriteFault), answer),
        Err(OutFault::NoMemory) => Outcome::refused(Refusal::by(Fault::Memory)),
    }
}
