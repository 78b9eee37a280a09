ghost use Rattle.std.specs.Prelude.{◌≡◌, ℕ, ◌≤◌, length, false, IsTrue, IfSome, IfErr, None};
ghost use Rattle.std.specs.Prelude.{◌+◌, ◌<◌, OnOk, is_ok, IsErrOf};
ghost use Rattle.std.specs.Io.{ReadsAtMost};
ghost use Rattle.std.specs.Io.KnownBytes.{ReadConsumes};
ghost use Rattle.outside.specs.Calls.{after_call, IsUnbroken};
ghost use Rattle.outside.specs.Causes.{Rose, next_count};
ghost use Rattle.outside.specs.Devices.{after_opening, after_reading, untold};

use crate::course::Course;
use crate::fault::OutFault;
use crate::reading::Shelf;
use std::fs;
use std::io::{ErrorKind, Read};
use std::marker::Model;
use std::rt::Files;

// How often one read is tried again where a signal cuts it off.
const TRIES: u32 = 1_000_000;

/// The shelf of the real files, by their paths. It tells no content.
#[derive(Drop)]
pub struct FileShelf<'a, R: Files> {
    files: &'a R,
    file: Option<R::File>,
    opens: u64,
    faults: u64,
    course: Course,
}

impl<'a, R: Files> Model for FileShelf<'a, R> {
    ghost use Rattle.std.specs.Prelude.{is_some};
    ghost use Rattle.outside.specs.Devices.{FileState};

    ghost Value = { FileState };

    ghost view = { λ s. record {
      is_open = is_some s.file;
      opens = s.opens;
      faults = s.faults;
      course = s.course;
    } };
}

impl<'a, R: Files> FileShelf<'a, R> {
    /// The shelf, with nothing open.
    pub fn new(files: &'a R) -> FileShelf<'a, R>
        ensures closed { result.is_open ≡ false }
        ensures unused { (result.opens ≡ 0) × (result.faults ≡ 0) }
        ensures unbroken { IsUnbroken result.course }
    {
        FileShelf {
            files,
            file: None,
            opens: 0,
            faults: 0,
            course: Course::Unbroken,
        }
    }
}

impl<'a, R: Files> Shelf for FileShelf<'a, R> {
    ghost holds = { λ _ _. untold };

    ghost left = { λ _. untold };

    ghost is_open = { λ s. IsTrue s.is_open };

    ghost opens = { λ s. s.opens };

    ghost faults = { λ s. s.faults };

    ghost course = { λ s. s.course };

    fn open(&mut self, name: &str) -> Result<(), OutFault>
        ensures open { OnOk result (IsTrue self.new.is_open) }
        ensures whole { OnOk result (untold ≡ untold) }
        ensures calls { 0 ≤ 0 + 1 }
        ensures opens { self.new.opens ≡ next_count self.old.opens }
        ensures course { self.new.course ≡ after_call self.old.course (is_ok result) }
        ensures faults { self.old.faults ≤ self.new.faults }
        ensures cause { IsErrOf result OutFault.Failed → Rose self.old.faults self.new.faults }

        // A failed call is its own fault, and leaves no file open.
        ensures memory { IfErr result (λ fault. fault ≡ OutFault.Failed) }
        ensures state { self.new ≡ after_opening self.old (is_ok result) }
    {
        self.opens = self.opens.saturating_add(1);
        match fs::open(self.files, name) {
            Ok(file) => {
                self.file = Some(file);
                self.course = self.course.after(true);
                Ok(())
            }
            Err(_) => {
                self.file = None;
                self.faults = self.faults.saturating_add(1);
                self.course = self.course.after(false);
                Err(OutFault::Failed)
            }
        }
    }

    fn read(&mut self, buffer: &mut [u8]) -> Result<usize, OutFault>
        requires { IsTrue self.old.is_open }
        ensures open { IsTrue self.new.is_open }
        ensures bound { ReadsAtMost result buffer.new }
        ensures bytes { ReadConsumes untold untold result buffer.new }
        ensures calls { 0 ≤ 0 + 1 }
        ensures opens { self.new.opens ≡ self.old.opens }
        ensures course { self.new.course ≡ after_call self.old.course (is_ok result) }
        ensures faults { self.old.faults ≤ self.new.faults }
        ensures cause { IsErrOf result OutFault.Failed → Rose self.old.faults self.new.faults }

        // A failed call is its own fault.
        ensures memory { IfErr result (λ fault. fault ≡ OutFault.Failed) }
        ensures state { self.new ≡ after_reading self.old (is_ok result) }
    {
        let Some(file) = &mut self.file else {
            unreachable!();
        };
        match read_once(file, buffer) {
            Some(count) => {
                self.course = self.course.after(true);
                Ok(count)
            }
            None => {
                self.faults = self.faults.saturating_add(1);
                self.course = self.course.after(false);
                Err(OutFault::Failed)
            }
        }
    }
}

// One read, tried again where a signal cuts it off, or nothing where it failed.
fn read_once<F: Read>(file: &mut F, buffer: &mut [u8]) -> Option<usize>
    ensures { IfSome result (λ count. count ≤ length buffer.new) }
{
    for _ in 0..TRIES {
        match file.read(buffer) {
            Ok(count) => return Some(count),
            Err(error) if error.kind() == ErrorKind::Interrupted => {}
            Err(_) => return None,
        }
    }
    None
}
