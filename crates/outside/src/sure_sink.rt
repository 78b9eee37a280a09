ghost use Rattle.std.specs.Prelude.{◌≡◌, ℕ, ◌+◌, ◌<◌, ◌≤◌, List, [], Some, length};
ghost use Rattle.std.specs.Prelude.{IfOk, IfErr, OnOk, OnErr, is_ok, IsErrOf};
ghost use Rattle.std.specs.Io.KnownBytes.{WriteAppends};
ghost use Rattle.outside.specs.Calls.{after_call, IsUnbroken};
ghost use Rattle.outside.specs.Causes.{Rose};
ghost use Rattle.outside.specs.Memory.{after_sure_write, after_sure_want};
ghost use Rattle.outside.specs.Pieces.{TakesSome};

use crate::course::Course;
use crate::fault::OutFault;
use crate::writing::Sink;
use std::alloc::Global;
use std::marker::Model;

/// A sink in memory that takes every piece whole.
pub struct SureSink {
    wants: u64,
    course: Course,
    written: Vec<u8>,
}

impl Drop for SureSink {
    fn drop(self) {
        let SureSink {
            wants: _,
            course: _,
            written: _written,
        } = self;
    }
}

impl Model for SureSink {
    ghost use Rattle.outside.specs.Memory.{SureSinkState};

    ghost Value = { SureSinkState };

    ghost view = { λ s. record {
      wants = s.wants;
      course = s.course;
      written = s.written.items;
    } };
}

impl SureSink {
    /// A sink with nothing written.
    pub fn new(alloc: Global) -> SureSink
        ensures empty { result.written ≡ [] }
        ensures unused { result.wants ≡ 0 }
        ensures unbroken { IsUnbroken result.course }
    {
        let written = Vec::new(alloc);
        SureSink {
            wants: 0,
            course: Course::Unbroken,
            written,
        }
    }

    /// What was written.
    pub fn written(&self) -> &[u8]
        ensures { result.now ≡ self.now.written }
    {
        self.written.as_slice()
    }
}

impl Sink for SureSink {
    ghost written = { λ s. Some s.written };

    ghost faults = { λ _. 0 };

    ghost wants = { λ s. s.wants };

    ghost course = { λ s. s.course };

    fn write(&mut self, piece: &[u8]) -> Result<usize, OutFault>
        ensures taken { TakesSome result piece.now }
        ensures bytes { WriteAppends (Some self.old.written) (Some self.new.written)
            result piece.now }
        ensures course { self.new.course ≡ after_call self.old.course (is_ok result) }
        ensures wants { self.old.wants ≤ self.new.wants }
        ensures want { IsErrOf result OutFault.NoMemory → Rose self.old.wants self.new.wants }

        // It takes the whole piece, and only memory may run out.
        ensures count { IfOk result (λ count. count ≡ length piece.now) }
        ensures memory { IfErr result (λ fault. fault ≡ OutFault.NoMemory) }
        ensures ok { OnOk result (self.new ≡ after_sure_write self.old piece.now) }
        ensures err { OnErr result (self.new ≡ after_sure_want self.old) }
    {
        if self.written.extend_from_slice(piece).is_err() {
            self.wants = self.wants.saturating_add(1);
            self.course = self.course.after(false);
            return Err(OutFault::NoMemory);
        }
        self.course = self.course.after(true);
        Ok(piece.len())
    }
}
