ghost use Rattle.std.specs.Prelude.{◌≡◌, ℕ, ◌+◌, ◌<◌, ◌≤◌, ◌↔◌, [], Some, length, min, Contains};
ghost use Rattle.std.specs.Prelude.{IfErr, IfOk, OnErr, is_ok, IsErrOf};
ghost use Rattle.std.specs.Io.KnownBytes.{WriteAppends};
ghost use Rattle.outside.specs.Calls.{after_call, IsUnbroken};
ghost use Rattle.outside.specs.Causes.{Rose, next_count};
ghost use Rattle.outside.specs.Pieces.{TakesSome};
ghost use Rattle.outside.specs.Memory.{after_write, after_failed_write, after_want};

use crate::course::Course;
use crate::fault::OutFault;
use crate::writing::Sink;
use std::marker::Model;

/// A sink in memory that takes parts of pieces and fails at chosen calls, numbered from 1.
pub struct MemSink {
    most: usize,
    failing: Vec<u64>,
    calls: u64,
    faults: u64,
    wants: u64,
    course: Course,
    written: Vec<u8>,
}

impl Drop for MemSink {
    fn drop(self) {
        let MemSink {
            most: _,
            failing: _failing,
            calls: _,
            faults: _,
            wants: _,
            course: _,
            written: _written,
        } = self;
    }
}

impl Model for MemSink {
    ghost use Rattle.std.specs.Prelude.{◌≤◌};
    ghost use Rattle.outside.specs.Memory.{SinkState};

    ghost Value = { SinkState };

    ghost view = { λ s. record {
      most = s.most;
      failing = s.failing.items;
      calls = s.calls;
      faults = s.faults;
      wants = s.wants;
      course = s.course;
      written = s.written.items;
    } };

    ghost invariant = { λ s. 1 ≤ s.most };
}

impl MemSink {
    /// A sink that takes at most `most` bytes in a call, and whose calls with these numbers fail.
    pub fn new(most: usize, failing: Vec<u64>) -> MemSink
        requires { 1 ≤ most }
        ensures most { result.most ≡ most }
        ensures failing { result.failing ≡ failing.items }
        ensures unused { (result.calls ≡ 0) × (result.faults ≡ 0) × (result.wants ≡ 0) }
        ensures unbroken { IsUnbroken result.course }
        ensures empty { result.written ≡ [] }
    {
        let written = Vec::new(*failing.allocator());
        MemSink {
            most,
            failing,
            calls: 0,
            faults: 0,
            wants: 0,
            course: Course::Unbroken,
            written,
        }
    }

    /// How many calls of `write` were made.
    pub fn calls(&self) -> u64
        ensures { result ≡ self.now.calls }
    {
        self.calls
    }

    /// What was written.
    pub fn written(&self) -> &[u8]
        ensures { result.now ≡ self.now.written }
    {
        self.written.as_slice()
    }
}

impl Sink for MemSink {
    ghost written = { λ s. Some s.written };

    ghost faults = { λ s. s.faults };

    ghost wants = { λ s. s.wants };

    ghost course = { λ s. s.course };

    ghost calls = { λ s. s.calls };

    fn write(&mut self, piece: &[u8]) -> Result<usize, OutFault>
        ensures taken { TakesSome result piece.now }
        ensures bytes { WriteAppends (Some self.old.written) (Some self.new.written)
            result piece.now }
        ensures calls { self.new.calls ≤ self.old.calls + 1 }
        ensures course { self.new.course ≡ after_call self.old.course (is_ok result) }
        ensures faults { self.old.faults ≤ self.new.faults }
        ensures cause { IsErrOf result OutFault.Failed → Rose self.old.faults self.new.faults }
        ensures wants { self.old.wants ≤ self.new.wants }
        ensures want { IsErrOf result OutFault.NoMemory → Rose self.old.wants self.new.wants }

        // It fails at a chosen call alone, and takes as much as it may.
        ensures failed { IsErrOf result OutFault.Failed
            ↔ Contains self.old.failing (next_count self.old.calls) }
        ensures count { IfOk result (λ n. n ≡ min self.old.most (length piece.now)) }
        ensures ok { IfOk result (λ n. self.new ≡ after_write self.old piece.now n) }
        ensures err { IsErrOf result OutFault.Failed → self.new ≡ after_failed_write self.old }
        ensures memory { IsErrOf result OutFault.NoMemory → self.new ≡ after_want self.old }
    {
        let call = self.calls.saturating_add(1);
        if self.failing.contains(&call) {
            self.calls = call;
            self.faults = self.faults.saturating_add(1);
            self.course = self.course.after(false);
            return Err(OutFault::Failed);
        }
        let count = self.most.min(piece.len());
        if self.written.extend_from_slice(&piece[..count]).is_err() {
            self.wants = self.wants.saturating_add(1);
            self.course = self.course.after(false);
            return Err(OutFault::NoMemory);
        }
        self.calls = call;
        self.course = self.course.after(true);
        Ok(count)
    }
}
