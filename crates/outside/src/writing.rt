//! Writing bytes and lines, in as many calls as the sink asks for.
//!
//! A sink may take a part of a piece: the rest is offered again. Each call takes at least a byte,
//! and after a call that failed no further one is made.
ghost use Rattle.std.specs.Prelude.{◌≡◌, ℕ, ◌+◌, ◌<◌, ◌≤◌, List, length, Option, OnOk, OnErr};
ghost use Rattle.std.specs.Prelude.{is_ok, IsErrOf, Result, position};
ghost use Rattle.std.specs.Io.KnownBytes.{WriteAppends, Appends};
ghost use Rattle.outside.specs.Calls.{after_call, IsUnbroken, IsOrderly};
ghost use Rattle.outside.specs.Causes.{Rose};
ghost use Rattle.outside.specs.declared.course.Course.{Course};
ghost use Rattle.outside.specs.Pieces.{TakesSome, AppendsPart, first_line, is_line_feed};

use crate::fault::OutFault;

/// A place that takes bytes, one after another.
pub trait Sink {
    /// What was written so far, where the sink tells it.
    ghost written: { Self → Option (List ℕ) };

    /// How many calls failed: it never falls.
    ghost faults: { Self → ℕ };

    /// How many calls found no memory: it never falls.
    ghost wants: { Self → ℕ };

    /// How its calls went so far.
    ghost course: { Self → Course };

    /// How many calls were made, where the sink counts them.
    ghost calls: { Self → ℕ } = { λ _. 0 };

    /// Offers a piece, and says how many bytes of its front were taken.
    fn write(&mut self, piece: &[u8]) -> Result<usize, OutFault>
        ensures taken { TakesSome result piece.now }
        ensures bytes { WriteAppends (written self.old) (written self.new) result piece.now }
        ensures calls { calls self.new ≤ calls self.old + 1 }
        ensures course { course self.new ≡ after_call (course self.old) (is_ok result) }
        ensures faults { faults self.old ≤ faults self.new }
        ensures cause { IsErrOf result OutFault.Failed → Rose (faults self.old) (faults self.new) }
        ensures wants { wants self.old ≤ wants self.new }
        ensures want { IsErrOf result OutFault.NoMemory → Rose (wants self.old) (wants self.new) };
}

/// Writes all of the bytes, offered as one piece and its rest again where a part was taken.
#[tactic(auto, using(crate::proofs::Taken::appended_more, crate::proofs::Courses::courses))]
pub fn write_all<S: Sink>(sink: &mut S, bytes: &[u8]) -> Result<(), OutFault>
    ensures ok { OnOk result (Appends (S.written sink.old) (S.written sink.new) bytes.now) }
    ensures err { OnErr result (AppendsPart (S.written sink.old) (S.written sink.new) bytes.now) }
    ensures calls { S.calls sink.new ≤ S.calls sink.old + length bytes.now }
    ensures unbroken { OnOk result (IsUnbroken (S.course sink.old)
        → IsUnbroken (S.course sink.new)) }
    ensures orderly { IsUnbroken (S.course sink.old) → IsOrderly (S.course sink.new) }
    ensures faults { S.faults sink.old ≤ S.faults sink.new }
    ensures cause { IsErrOf result OutFault.Failed →
        Rose (S.faults sink.old) (S.faults sink.new) }
    ensures wants { S.wants sink.old ≤ S.wants sink.new }
    ensures want { IsErrOf result OutFault.NoMemory →
        Rose (S.wants sink.old) (S.wants sink.new) }
{
    let mut done = 0;
    while done < bytes.len() {
        done += sink.write(bytes.split_at(done).1)?;
    }
    Ok(())
}

/// Writes the text line by line: each line, with its line feed, is offered as one piece.
#[tactic(auto, using(crate::proofs::Courses::courses))]
pub fn write_lines<S: Sink>(sink: &mut S, text: &[u8]) -> Result<(), OutFault>
    ensures ok { OnOk result (Appends (S.written sink.old) (S.written sink.new) text.now) }
    ensures err { OnErr result (AppendsPart (S.written sink.old) (S.written sink.new) text.now) }
    ensures calls { S.calls sink.new ≤ S.calls sink.old + length text.now }
    ensures unbroken { OnOk result (IsUnbroken (S.course sink.old)
        → IsUnbroken (S.course sink.new)) }
    ensures orderly { IsUnbroken (S.course sink.old) → IsOrderly (S.course sink.new) }
    ensures faults { S.faults sink.old ≤ S.faults sink.new }
    ensures cause { IsErrOf result OutFault.Failed →
        Rose (S.faults sink.old) (S.faults sink.new) }
    ensures wants { S.wants sink.old ≤ S.wants sink.new }
    ensures want { IsErrOf result OutFault.NoMemory →
        Rose (S.wants sink.old) (S.wants sink.new) }
{
    let mut rest = text;
    while !rest.is_empty() {
        let (line, after) = first_line(rest);
        write_all(sink, line)?;
        rest = after;
    }
    Ok(())
}

// The first line of a text, with its line feed, and what stands after it.
fn first_line(text: &[u8]) -> (&[u8], &[u8])
    ensures line { result.0.now ≡ (first_line text.now).0 }
    ensures after { result.1.now ≡ (first_line text.now).1 }
{
    match first_line_feed(text) {
        Some(at) => text.split_at(at + 1),
        None => (text, &[]),
    }
}

fn first_line_feed(text: &[u8]) -> Option<usize>
    ensures { result ≡ position is_line_feed text.now }
{
    text.iter().position(|byte| *byte == b'\n')
}
