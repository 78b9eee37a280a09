ghost use Rattle.std.specs.Prelude.{◌≡◌, ℕ, ◌+◌, ◌<◌, ◌≤◌, [], None, length};
ghost use Rattle.std.specs.Prelude.{IfOk, IfErr, OnOk, OnErr, is_ok, IsErrOf};
ghost use Rattle.std.specs.Io.KnownBytes.{WriteAppends};
ghost use Rattle.outside.specs.Calls.{after_call, IsUnbroken};
ghost use Rattle.outside.specs.Causes.{Rose, next_count};
ghost use Rattle.outside.specs.Devices.{gathered_with, untold};
ghost use Rattle.outside.specs.Pieces.{TakesSome};

use crate::course::Course;
use crate::fault::OutFault;
use crate::writing::Sink;
use std::alloc::Global;
use std::marker::Model;

// How many bytes are gathered before they are written out.
const GATHERED: usize = 65_536;

/// Standard output. It tells nothing of what was written, but what it has gathered.
///
/// Pieces are gathered and written out in large ones, so `finish` has to be called at the end: what
/// is gathered by then is lost without it. After a fault nothing that was gathered is kept.
#[derive(Drop)]
pub struct StdSink<'a, R: Print> {
    out: &'a R,
    gathered: Vec<u8>,
    faults: u64,
    wants: u64,
    course: Course,
}

impl<'a, R: Print> Model for StdSink<'a, R> {
    ghost use Rattle.outside.specs.Devices.{OutputState};

    ghost Value = { OutputState };

    ghost view = { λ s. record {
      gathered = s.gathered.items;
      faults = s.faults;
      wants = s.wants;
      course = s.course;
    } };
}

impl<'a, R: Print> StdSink<'a, R> {
    /// The sink, with nothing gathered.
    pub fn new(alloc: Global, out: &'a R) -> StdSink<'a, R>
        ensures empty { result.gathered ≡ [] }
        ensures unused { (result.faults ≡ 0) × (result.wants ≡ 0) }
        ensures unbroken { IsUnbroken result.course }
    {
        let gathered = Vec::new(alloc);
        StdSink {
            out,
            gathered,
            faults: 0,
            wants: 0,
            course: Course::Unbroken,
        }
    }

    /// Writes out what is gathered.
    pub fn finish(&mut self) -> Result<(), OutFault>
        ensures ok { OnOk result (self.new ≡ record self.old { gathered = [] }) }
        ensures err { OnErr result (self.new
            ≡ record self.old { gathered = []; faults = next_count self.old.faults }) }
        ensures faults { self.old.faults ≤ self.new.faults }
        ensures memory { IfErr result (λ fault. fault ≡ OutFault.Failed) }
    {
        let out = self.out;
        let written = Print::write_all(out, self.gathered.as_slice());
        self.gathered.clear();
        match written {
            Ok(()) => Ok(()),
            Err(_) => {
                self.faults = self.faults.saturating_add(1);
                Err(OutFault::Failed)
            }
        }
    }

    // Gathers a piece, and writes out before it what is gathered, where that is enough.
    fn gather(&mut self, piece: &[u8]) -> Result<(), OutFault>
        ensures ok { OnOk result (self.new
            ≡ record self.old { gathered = gathered_with self.old.gathered piece.now }) }
        ensures course { self.new.course ≡ self.old.course }
        ensures faults { self.old.faults ≤ self.new.faults }
        ensures cause { IsErrOf result OutFault.Failed → Rose self.old.faults self.new.faults }
        ensures wants { self.old.wants ≤ self.new.wants }
        ensures want { IsErrOf result OutFault.NoMemory → Rose self.old.wants self.new.wants }
    {
        if self.gathered.len() >= GATHERED {
            self.finish()?;
        }
        if self.gathered.extend_from_slice(piece).is_err() {
            self.wants = self.wants.saturating_add(1);
            return Err(OutFault::NoMemory);
        }
        Ok(())
    }
}

impl<'a, R: Print> Sink for StdSink<'a, R> {
    ghost written = { λ _. untold };

    ghost faults = { λ s. s.faults };

    ghost wants = { λ s. s.wants };

    ghost course = { λ s. s.course };

    fn write(&mut self, piece: &[u8]) -> Result<usize, OutFault>
        ensures taken { TakesSome result piece.now }
        ensures bytes { WriteAppends untold untold result piece.now }
        ensures calls { 0 ≤ 0 + 1 }
        ensures course { self.new.course ≡ after_call self.old.course (is_ok result) }
        ensures faults { self.old.faults ≤ self.new.faults }
        ensures cause { IsErrOf result OutFault.Failed → Rose self.old.faults self.new.faults }
        ensures wants { self.old.wants ≤ self.new.wants }
        ensures want { IsErrOf result OutFault.NoMemory → Rose self.old.wants self.new.wants }

        // It is done only where no fault was met, and then the piece is gathered whole.
        ensures count { IfOk result (λ count. count ≡ length piece.now) }
        ensures unharmed { OnOk result (self.new.faults ≡ self.old.faults) }
        ensures gathered { OnOk result (self.new.gathered
            ≡ gathered_with self.old.gathered piece.now) }
    {
        match self.gather(piece) {
            Ok(()) => {
                self.course = self.course.after(true);
                Ok(piece.len())
            }
            Err(fault) => {
                self.course = self.course.after(false);
                Err(fault)
            }
        }
    }
}
